// The lines of rounds, through a pen.
ghost use Rattle.std.specs.Prelude.{◌≡◌};
ghost use Rattle.std.specs.List.{flat_map};
ghost use Rattle.hg_io.specs.Faults.{HasCause};
ghost use Rattle.hg_io.specs.Transfers.{Writes};
ghost use Rattle.trace_text.specs.Rounds as texts;

use crate::fields::{Field, put_fields};
use hg_io::{Failed, Pen, Sink};
use hg_text::put_signed;
use round_log::{Kind, LoggedRound};

/// What stands between the level of a round and the number of its moves.
fn moves_label(kind: Kind) -> &'static [u8]
    ensures { result.now ≡ texts.moves_label kind }
{
    match kind {
        Kind::Label => b" label moves ",
        Kind::Search => b" search moves ",
        Kind::Flow => b" flow moves ",
        Kind::Sweep => b" sweep moves ",
    }
}

fn put_gain<K: Sink>(pen: &mut Pen, sink: &mut K, gain: i64) -> Result<(), Failed>
    ensures bytes { Writes (K.got sink.old) (K.got sink.new) pen.old pen.new result (texts.gain_text gain) }
    ensures cause { HasCause (K.faults sink.old) (K.faults sink.new) result }
{
    pen.write(sink, b" ")?;
    put_signed(pen, sink, gain)
}

fn put_gains<K: Sink>(pen: &mut Pen, sink: &mut K, gains: &[i64]) -> Result<(), Failed>
    ensures bytes { Writes (K.got sink.old) (K.got sink.new) pen.old pen.new result
        (flat_map texts.gain_text gains.now) }
    ensures cause { HasCause (K.faults sink.old) (K.faults sink.new) result }
{
    'gains: for gain in gains {
        put_gain(pen, sink, *gain)?;
    }
    Ok(())
}

/// The line of a round of label propagation, of searches, or of a sweep.
fn put_moves_round<K: Sink>(pen: &mut Pen, sink: &mut K, round: &LoggedRound) -> Result<(), Failed>
    ensures bytes { Writes (K.got sink.old) (K.got sink.new) pen.old pen.new result (texts.moves_line round.now) }
    ensures cause { HasCause (K.faults sink.old) (K.faults sink.new) result }
{
    let fields = [
        Field {
            label: b"round ",
            value: u64::from(round.level),
        },
        Field {
            label: moves_label(round.kind),
            value: round.moves.len() as u64,
        },
        Field {
            label: b" kept ",
            value: u64::from(round.kept),
        },
        Field {
            label: b" before ",
            value: round.before,
        },
        Field {
            label: b" made ",
            value: round.made,
        },
        Field {
            label: b" after ",
            value: round.after,
        },
    ];
    put_fields(pen, sink, &fields)?;
    pen.write(sink, b" gains")?;
    put_gains(pen, sink, round.gains.slice())?;
    pen.write(sink, b"\n")
}

/// The line of a round of flow.
fn put_flow_round<K: Sink>(pen: &mut Pen, sink: &mut K, round: &LoggedRound) -> Result<(), Failed>
    ensures bytes { Writes (K.got sink.old) (K.got sink.new) pen.old pen.new result (texts.flow_line round.now) }
    ensures cause { HasCause (K.faults sink.old) (K.faults sink.new) result }
{
    let fields = [
        Field {
            label: b"round ",
            value: u64::from(round.level),
        },
        Field {
            label: b" flow ",
            value: u64::from(round.first),
        },
        Field {
            label: b" ",
            value: u64::from(round.second),
        },
        Field {
            label: b" region ",
            value: round.region.len() as u64,
        },
        Field {
            label: b" value ",
            value: round.value,
        },
        Field {
            label: b" before ",
            value: round.before,
        },
        Field {
            label: b" after ",
            value: round.after,
        },
    ];
    put_fields(pen, sink, &fields)?;
    pen.write(sink, b"\n")
}

/// The line of a round that a refiner made; a sweep has none here.
fn put_refined_round<K: Sink>(
    pen: &mut Pen,
    sink: &mut K,
    round: &LoggedRound,
) -> Result<(), Failed>
    ensures bytes { Writes (K.got sink.old) (K.got sink.new) pen.old pen.new result (texts.refined_line round.now) }
    ensures cause { HasCause (K.faults sink.old) (K.faults sink.new) result }
{
    match round.kind {
        Kind::Label => put_moves_round(pen, sink, round),
        Kind::Search => put_moves_round(pen, sink, round),
        Kind::Flow => put_flow_round(pen, sink, round),
        Kind::Sweep => Ok(()),
    }
}

/// The line of a sweep; a round of a refiner has none here.
fn put_swept_round<K: Sink>(pen: &mut Pen, sink: &mut K, round: &LoggedRound) -> Result<(), Failed>
    ensures bytes { Writes (K.got sink.old) (K.got sink.new) pen.old pen.new result (texts.swept_line round.now) }
    ensures cause { HasCause (K.faults sink.old) (K.faults sink.new) result }
{
    match round.kind {
        Kind::Sweep => put_moves_round(pen, sink, round),
        Kind::Label | Kind::Search | Kind::Flow => Ok(()),
    }
}

/// The lines of the rounds that refiners made.
pub(crate) fn put_refined<K: Sink>(
    pen: &mut Pen,
    sink: &mut K,
    rounds: &[LoggedRound],
) -> Result<(), Failed>
    ensures bytes { Writes (K.got sink.old) (K.got sink.new) pen.old pen.new result (texts.refined_text rounds.now) }
    ensures cause { HasCause (K.faults sink.old) (K.faults sink.new) result }
{
    'rounds: for round in rounds {
        put_refined_round(pen, sink, round)?;
    }
    Ok(())
}

/// The lines of the sweeps.
pub(crate) fn put_swept<K: Sink>(
    pen: &mut Pen,
    sink: &mut K,
    rounds: &[LoggedRound],
) -> Result<(), Failed>
    ensures bytes { Writes (K.got sink.old) (K.got sink.new) pen.old pen.new result (texts.swept_text rounds.now) }
    ensures cause { HasCause (K.faults sink.old) (K.faults sink.new) result }
{
    'rounds: for round in rounds {
        put_swept_round(pen, sink, round)?;
    }
    Ok(())
}
