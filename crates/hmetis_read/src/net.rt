ghost use Rattle.std.specs.Prelude.{◌≡◌, ℕ, ◌+◌, ◌^◌, ◌<◌, ◌≤◌, List, [], ◌∷◌, length, map, IfOk, OnOk};
ghost use Rattle.std.specs.Prelude.{All, Result, MatchResult, Ok, Err, ◌⊎◌};
ghost use Rattle.std.specs.List.{enumerate_from};
ghost use Rattle.std.specs.Ordering.{nat_cmp};
ghost use Rattle.hg_defs.specs.Hypergraph.{Hyper, Net, vertex_count};
ghost use Rattle.hg_defs.specs.Sorting.{set_of};
ghost use Rattle.hg_text.specs.Kept.{number_of};
ghost use Rattle.hmetis_read.specs.Graph.{weight_in, pin_in, pin_numbers, each, first_number};
ghost use Rattle.hmetis_read.specs.Graph.{net_in, nets_in, first_in, read_on};
ghost use Rattle.hmetis_read.specs.Reads.{Reads};
ghost use Rattle.hmetis_read.specs.declared.fault.GraphFault.TheVariants.{NoMemory, Bad};
ghost use Rattle.hmetis_read.specs.declared.fault.LineKind.TheVariants.{MissingLine};

use crate::header::{Shape, next_value, value_at};
use crate::{GraphFault, LineKind, What};
use hg_base::FlatHyper;
use hg_text::{BadNumber, Kept, Lines};
use std::alloc::Global;

/// The most pins that a text may have, repeats included.
pub(crate) const MOST_PINS: u32 = 1 << 25;

/// The greatest weight of a vertex or a net.
const MOST_WEIGHT: u64 = (1 << 32) - 1;

// Reads the weight that stands in the next field.
pub(crate) fn read_weight(line: &mut Kept) -> Result<u64, GraphFault>
    requires { 0 < length line.old.fields }
    ensures value { result ≡ weight_in line.old.number (first_number line.old) }
    ensures bound { IfOk result (λ weight. weight < 2 ^ 32) }
    ensures rest { (field : List ℕ) × (line.old.fields ≡ field ∷ line.new.fields) }
    ensures line { line.new.number ≡ line.old.number }
{
    let weight = next_value(line)?;
    if weight > MOST_WEIGHT {
        return Err(GraphFault::Bad {
            line: line.line(),
            kind: LineKind::WeightRange,
        });
    }
    Ok(weight)
}

// The pin that a number spells, with so many pins before it.
#[inline]
fn pin_at(
    line: u32,
    vertices: u32,
    before: u32,
    number: Result<u64, BadNumber>,
) -> Result<u32, GraphFault>
    ensures value { result ≡ pin_in vertices line (before, number) }
    ensures vertex { IfOk result (λ pin. pin < vertices) }
    ensures bound { OnOk result (before < 2 ^ 25) }
{
    if before >= MOST_PINS {
        return Err(GraphFault::TooLarge {
            line,
            what: What::Pins,
        });
    }
    let value = value_at(line, number)?;
    if value == 0 || value > u64::from(vertices) {
        return Err(GraphFault::Bad {
            line,
            kind: LineKind::PinRange,
        });
    }
    Ok(value as u32 - 1)
}

// Reads the fields that a line has left as pins, with so many pins before them.
fn read_pins(
    line: &mut Kept,
    vertices: u32,
    before: u32,
    pins: &mut Vec<u32>,
) -> Result<(), GraphFault>
    requires { before ≤ 2 ^ 25 }
    ensures pins { Reads result pins.new.items
        (each (pin_in vertices line.old.number) (enumerate_from before (map number_of line.old.fields))) }
    ensures vertices { All (λ pin. pin < vertices) pins.new.items }
    ensures bound { before + length pins.new.items ≤ 2 ^ 25 }
    ensures count { OnOk result (length pins.new.items ≡ length line.old.fields) }
{
    pins.clear();
    while let Some(number) = line.next_number() {
        let pin = pin_at(line.line(), vertices, before + pins.len() as u32, number)?;
        pins.push(pin)?;
    }
    Ok(())
}

// Reads a net's line, with so many pins before it: answers its weight and leaves its pins, as spelt.
pub(crate) fn read_net(
    line: &mut Kept,
    shape: &Shape,
    before: u32,
    pins: &mut Vec<u32>,
) -> Result<u64, GraphFault>
    requires filled { 0 < length line.old.fields }
    requires bound { before ≤ 2 ^ 25 }
    ensures net { MatchResult result
        (λ weight. net_in shape.now (before, line.old) ≡ Ok
        (record { weight = weight; pins = set_of nat_cmp pins.new.items }))
        (λ fault. (fault ≡ NoMemory) ⊎ (net_in shape.now (before, line.old) ≡ Err fault)) }
    ensures weight { IfOk result (λ weight. weight < 2 ^ 32) }
    ensures vertices { OnOk result (All (λ pin. pin < shape.now.vertices) pins.new.items) }
    ensures limit { OnOk result (before + length pins.new.items ≤ 2 ^ 25) }
    ensures count { OnOk result (length pins.new.items ≡ length (pin_numbers shape.now line.old)) }
{
    let weight = if shape.net_weights {
        read_weight(line)?
    } else {
        1
    };
    read_pins(line, shape.vertices, before, pins)?;
    Ok(weight)
}

// The fault that the text ends too early.
pub(crate) fn missing(lines: &Lines) -> GraphFault
    ensures { result ≡ Bad (lines.now.count + 1) MissingLine }
{
    GraphFault::Bad {
        line: lines.count() + 1,
        kind: LineKind::MissingLine,
    }
}

// Reads the lines of the nets, and adds the nets to a hypergraph that has none.
pub(crate) fn read_nets(
    alloc: Global,
    lines: &mut Lines,
    shape: &Shape,
    hyper: &mut FlatHyper,
) -> Result<(), GraphFault>
    requires nets { shape.now.nets ≤ 2 ^ 22 }
    requires vertices { vertex_count hyper.old ≡ shape.now.vertices }
    requires empty { hyper.old.nets ≡ [] }
    ensures nets { Reads result hyper.new.nets (first_in shape.now.nets (nets_in shape.now) lines.old) }
    ensures others { OnOk result (hyper.new ≡ record hyper.old { nets = hyper.new.nets }) }
    ensures rest { OnOk result (lines.new ≡ read_on shape.now.nets lines.old) }
{
    let mut pins = Vec::new(alloc);
    let mut before = 0;
    for _ in 0..shape.nets {
        let Some(mut line) = lines.next_kept() else {
            return Err(missing(lines));
        };
        let weight = read_net(&mut line, shape, before, &mut pins)?;
        before += pins.len() as u32;
        hyper.push_net(weight, pins.as_slice())?;
    }
    Ok(())
}
