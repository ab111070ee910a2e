ghost use Rattle.std.specs.Prelude.{decimal};
ghost use Rattle.std.specs.Fmt.{signed_decimal};
ghost use Rattle.hg_io.specs.Faults.{HasCause};
ghost use Rattle.hg_io.specs.Transfers.{Writes};

use hg_io::{Failed, Pen, Sink};
use itoa::Buffer;

/// Writes the decimal digits of a number through the pen.
pub fn put_number<K: Sink>(pen: &mut Pen, sink: &mut K, value: u64) -> Result<(), Failed>
    ensures bytes { Writes (K.got sink.old) (K.got sink.new) pen.old pen.new result (decimal value) }
    ensures cause { HasCause (K.faults sink.old) (K.faults sink.new) result }
{
    let mut buffer = Buffer::new();
    pen.write(sink, buffer.format(value).as_bytes())
}

/// Writes the decimal digits of a number through the pen, behind a minus sign where it is negative.
pub fn put_signed<K: Sink>(pen: &mut Pen, sink: &mut K, value: i64) -> Result<(), Failed>
    ensures bytes { Writes (K.got sink.old) (K.got sink.new) pen.old pen.new result (signed_decimal value) }
    ensures cause { HasCause (K.faults sink.old) (K.faults sink.new) result }
{
    let mut buffer = Buffer::new();
    pen.write(sink, buffer.format(value).as_bytes())
}
