// Lines of a label and numbers, through a pen.
ghost use Rattle.std.specs.Prelude.{◌≡◌, ◌++◌, List, ℕ, [], codes};
ghost use Rattle.hg_io.specs.Faults.{HasCause};
ghost use Rattle.hg_io.specs.Transfers.{Writes};
ghost use Rattle.trace_text.specs.Lines.{number_line, sizes_text, objective_text, load_line, loads_text, fits_text};

use hg_base::{FlatHyper, Objective};
use hg_io::{Failed, Pen, Sink};
use hg_text::put_number;

// The label ends with a blank.
pub(crate) fn put_line<K: Sink>(
    pen: &mut Pen,
    sink: &mut K,
    label: &[u8],
    value: u64,
) -> Result<(), Failed>
    ensures bytes { Writes (K.got sink.old) (K.got sink.new) pen.old pen.new result (number_line label.now value) }
    ensures cause { HasCause (K.faults sink.old) (K.faults sink.new) result }
{
    pen.write(sink, label)?;
    put_number(pen, sink, value)?;
    pen.write(sink, b"\n")
}

pub(crate) fn put_sizes<K: Sink>(
    pen: &mut Pen,
    sink: &mut K,
    h: &FlatHyper,
    k: u32,
    limit: u64,
) -> Result<(), Failed>
    ensures bytes { Writes (K.got sink.old) (K.got sink.new) pen.old pen.new result (sizes_text h.now k limit) }
    ensures cause { HasCause (K.faults sink.old) (K.faults sink.new) result }
{
    put_line(pen, sink, b"vertices ", u64::from(h.vertices()))?;
    put_line(pen, sink, b"nets ", u64::from(h.nets()))?;
    put_line(pen, sink, b"weight ", h.total_weight())?;
    put_line(pen, sink, b"blocks ", u64::from(k))?;
    put_line(pen, sink, b"limit ", limit)
}

pub(crate) fn put_objective<K: Sink>(
    pen: &mut Pen,
    sink: &mut K,
    objective: Objective,
) -> Result<(), Failed>
    ensures bytes { Writes (K.got sink.old) (K.got sink.new) pen.old pen.new result (objective_text objective) }
    ensures cause { HasCause (K.faults sink.old) (K.faults sink.new) result }
{
    match objective {
        Objective::Connectivity => Ok(()),
        Objective::CutNet => pen.write(sink, b"objective cut\n"),
        Objective::ExternalDegree => pen.write(sink, b"objective soed\n"),
    }
}

pub(crate) fn put_loads<K: Sink>(pen: &mut Pen, sink: &mut K, loads: &[u64]) -> Result<(), Failed>
    ensures bytes { Writes (K.got sink.old) (K.got sink.new) pen.old pen.new result (loads_text loads.now) }
    ensures cause { HasCause (K.faults sink.old) (K.faults sink.new) result }
{
    'loads: for (block, load) in loads.iter().enumerate() {
        put_load(pen, sink, block as u64, *load)?;
    }
    Ok(())
}

fn put_load<K: Sink>(pen: &mut Pen, sink: &mut K, block: u64, load: u64) -> Result<(), Failed>
    ensures bytes { Writes (K.got sink.old) (K.got sink.new) pen.old pen.new result (load_line (block, load)) }
    ensures cause { HasCause (K.faults sink.old) (K.faults sink.new) result }
{
    pen.write(sink, b"load ")?;
    put_number(pen, sink, block)?;
    put_line(pen, sink, b" ", load)
}

pub(crate) fn put_fits<K: Sink>(pen: &mut Pen, sink: &mut K, fits: bool) -> Result<(), Failed>
    ensures bytes { Writes (K.got sink.old) (K.got sink.new) pen.old pen.new result (fits_text fits) }
    ensures cause { HasCause (K.faults sink.old) (K.faults sink.new) result }
{
    if fits {
        pen.write(sink, b"fits yes\n")
    } else {
        pen.write(sink, b"fits no\n")
    }
}
