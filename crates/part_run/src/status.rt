//! How a run ends, as a status, an exit code and a line of text.

ghost use Rattle.std.specs.Prelude.{◌≡◌};
ghost use Rattle.hg_io.specs.Faults.{HasCause};
ghost use Rattle.hg_io.specs.Transfers.{PutsAll, Writes};
ghost use Rattle.part_run.specs.StatusText.{code_of, line_kind_text, what_text, part_kind_text};
ghost use Rattle.part_run.specs.StatusText.{line_text, status_text};

use hg_base::NoMemory;
use hg_io::{Failed, Pen, Sink, put_all};
use hg_text::put_number;
use hmetis_read::{LineKind, What};
use part_text::PartKind;

/// How a run ended.
#[derive(Clone, Copy, Debug, PartialEq, Eq)]
pub enum Status {
    /// All texts were written.
    Done,
    /// The words spell no command.
    Usage,
    /// The hypergraph file breaks its format.
    Malformed {
        /// The line, counted from 1.
        line: u32,
        /// What is wrong with it.
        kind: LineKind,
    },
    /// A limit is passed.
    TooLarge {
        /// The line, counted from 1, or 0 where it is none.
        line: u32,
        /// What there is too much of.
        what: What,
    },
    /// Greedy placement passes the limit on a load.
    Unplaced {
        /// The vertex at which it does, counted from 1.
        vertex: u32,
    },
    /// A source met a fault.
    ReadFault,
    /// A sink met a fault.
    WriteFault,
    /// There was no memory left.
    NoMemory,
    /// The partition file breaks its format.
    BadPartition {
        /// The line, counted from 1.
        line: u32,
        /// What is wrong with it.
        kind: PartKind,
    },
    /// The fix file breaks its format.
    BadFix {
        /// The line, counted from 1.
        line: u32,
        /// What is wrong with it.
        kind: PartKind,
    },
}

impl From<NoMemory> for Status {
    ghost use Rattle.part_run.specs.declared.status.Status.TheVariants.{NoMemory as no_memory};

    ghost from_gives = { λ _ status. status ≡ no_memory };

    fn from(_error: NoMemory) -> Self {
        Status::NoMemory
    }
}

impl Status {
    /// The exit status of the program.
    pub fn code(&self) -> u8
        ensures { result ≡ code_of self.now }
    {
        match self {
            Status::Done => 0,
            Status::Usage => 2,
            Status::Malformed { .. } => 3,
            Status::TooLarge { .. } => 4,
            Status::Unplaced { .. } => 5,
            Status::ReadFault => 6,
            Status::WriteFault => 7,
            Status::NoMemory => 8,
            Status::BadPartition { .. } => 9,
            Status::BadFix { .. } => 10,
        }
    }
}

fn line_kind_name(kind: LineKind) -> &'static str
    ensures { result.now ≡ line_kind_text kind }
{
    match kind {
        LineKind::NoHeader => "NoHeader",
        LineKind::HeaderCount => "HeaderCount",
        LineKind::NotNumber => "NotNumber",
        LineKind::BadFormat => "BadFormat",
        LineKind::MissingLine => "MissingLine",
        LineKind::ExtraLine => "ExtraLine",
        LineKind::PinRange => "PinRange",
        LineKind::WeightRange => "WeightRange",
        LineKind::FieldCount => "FieldCount",
    }
}

fn what_name(what: What) -> &'static str
    ensures { result.now ≡ what_text what }
{
    match what {
        What::Bytes => "Bytes",
        What::Nets => "Nets",
        What::Vertices => "Vertices",
        What::Pins => "Pins",
        What::Words => "Words",
        What::ExtraBytes => "ExtraBytes",
    }
}

fn part_kind_name(kind: PartKind) -> &'static str
    ensures { result.now ≡ part_kind_text kind }
{
    match kind {
        PartKind::FieldCount => "FieldCount",
        PartKind::NotNumber => "NotNumber",
        PartKind::BlockRange => "BlockRange",
        PartKind::MissingLine => "MissingLine",
        PartKind::ExtraLine => "ExtraLine",
    }
}

/// Writes a label, a line's number and what is said of the line through the pen.
fn write_line<K: Sink>(
    pen: &mut Pen,
    sink: &mut K,
    label: &[u8],
    line: u32,
    said: &str,
) -> Result<(), Failed>
    ensures bytes { Writes (K.got sink.old) (K.got sink.new) pen.old pen.new result
        (line_text label.now line said.now) }
    ensures cause { HasCause (K.faults sink.old) (K.faults sink.new) result }
{
    pen.write(sink, label)?;
    put_number(pen, sink, u64::from(line))?;
    pen.write(sink, b": ")?;
    pen.write(sink, said.as_bytes())?;
    pen.write(sink, b"\n")
}

/// The same, with a pen of its own.
fn put_line<K: Sink>(sink: &mut K, label: &[u8], line: u32, said: &str) -> Result<(), Failed>
    ensures bytes { PutsAll (K.got sink.old) (K.got sink.new) result (line_text label.now line said.now) }
    ensures cause { HasCause (K.faults sink.old) (K.faults sink.new) result }
{
    let mut pen = Pen::new();
    write_line(&mut pen, sink, label, line, said)?;
    pen.end(sink)
}

/// Writes at which vertex there was no room.
fn put_unplaced<K: Sink>(sink: &mut K, vertex: u32) -> Result<(), Failed>
    ensures bytes { PutsAll (K.got sink.old) (K.got sink.new) result (status_text (Status.Unplaced vertex)) }
    ensures cause { HasCause (K.faults sink.old) (K.faults sink.new) result }
{
    let mut pen = Pen::new();
    write_unplaced(&mut pen, sink, vertex)?;
    pen.end(sink)
}

fn write_unplaced<K: Sink>(pen: &mut Pen, sink: &mut K, vertex: u32) -> Result<(), Failed>
    ensures bytes { Writes (K.got sink.old) (K.got sink.new) pen.old pen.new result
        (status_text (Status.Unplaced vertex)) }
    ensures cause { HasCause (K.faults sink.old) (K.faults sink.new) result }
{
    pen.write(sink, b"unplaced: vertex ")?;
    put_number(pen, sink, u64::from(vertex))?;
    pen.write(sink, b"\n")
}

/// The forms of the commands.
const USAGE: &[u8] =
    b"usage: hgpart partition GRAPH K EPS [seed=N] [workers=N] [out=NAME] [cost=km1|cut|soed] [fix=NAME] \
[mode=det] [cycles=N]
usage: hgpart evaluate GRAPH PART K EPS [cost=km1|cut|soed]
usage: hgpart generate N
usage: hgpart selfrun N K
";

/// Writes why a run failed: one line, the forms of the commands where the words are at fault, and
/// nothing where it didn't fail.
pub fn put_status<K: Sink>(sink: &mut K, status: &Status) -> Result<(), Failed>
    ensures bytes { PutsAll (K.got sink.old) (K.got sink.new) result (status_text status.now) }
    ensures cause { HasCause (K.faults sink.old) (K.faults sink.new) result }
{
    match *status {
        Status::Done => Ok(()),
        Status::Usage => put_all(sink, USAGE),
        Status::Malformed { line, kind } => {
            put_line(sink, b"malformed: line ", line, line_kind_name(kind))
        }
        Status::TooLarge { line, what } => {
            put_line(sink, b"too large: line ", line, what_name(what))
        }
        Status::Unplaced { vertex } => put_unplaced(sink, vertex),
        Status::ReadFault => put_all(sink, b"read fault\n"),
        Status::WriteFault => put_all(sink, b"write fault\n"),
        Status::NoMemory => put_all(sink, b"no memory\n"),
        Status::BadPartition { line, kind } => {
            put_line(sink, b"bad partition: line ", line, part_kind_name(kind))
        }
        Status::BadFix { line, kind } => {
            put_line(sink, b"bad fix: line ", line, part_kind_name(kind))
        }
    }
}
