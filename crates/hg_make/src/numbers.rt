// Lines of numbers, through a pen.
ghost use Rattle.std.specs.Prelude.{◌≡◌, ℕ, ◌+◌, List, [], ◌∷◌, ◌++◌, length, map, decimal};
ghost use Rattle.hg_io.specs.Faults.{HasCause};
ghost use Rattle.hg_io.specs.Transfers.{Writes};
ghost use Rattle.part_text.specs.NumberLines.{separator as separator_before, numbers_line};

use hg_io::{Failed, Pen, Sink};
use itoa::write_digits;

/// The bytes of the longest number and a separator.
const TOKEN: usize = 21;

pub(crate) fn put_numbers<K: Sink>(
    pen: &mut Pen,
    sink: &mut K,
    numbers: &[u64],
) -> Result<(), Failed>
    ensures bytes { Writes (K.got sink.old) (K.got sink.new) pen.old pen.new result (numbers_line numbers.now) }
    ensures cause { HasCause (K.faults sink.old) (K.faults sink.new) result }
{
    'numbers: for (i, number) in numbers.iter().enumerate() {
        put_token(pen, sink, *number, separator(numbers.len() - (i + 1)))?;
    }
    Ok(())
}

// Counts vertices from 1.
pub(crate) fn put_pins<K: Sink>(pen: &mut Pen, sink: &mut K, pins: &[u32]) -> Result<(), Failed>
    ensures bytes { Writes (K.got sink.old) (K.got sink.new) pen.old pen.new result
        (numbers_line (map (λ v. v + 1) pins.now)) }
    ensures cause { HasCause (K.faults sink.old) (K.faults sink.new) result }
{
    'pins: for (i, v) in pins.iter().enumerate() {
        put_token(
            pen,
            sink,
            u64::from(*v) + 1,
            separator(pins.len() - (i + 1)),
        )?;
    }
    Ok(())
}

#[inline]
pub(crate) fn put_token<K: Sink>(
    pen: &mut Pen,
    sink: &mut K,
    number: u64,
    separator: u8,
) -> Result<(), Failed>
    ensures bytes { Writes (K.got sink.old) (K.got sink.new) pen.old pen.new result (decimal number ++ separator ∷
        []) }
    ensures cause { HasCause (K.faults sink.old) (K.faults sink.new) result }
{
    let mut token = [0; TOKEN];
    token[TOKEN - 1] = separator;
    let start = write_digits(number, &mut token, TOKEN - 1);
    pen.write(sink, &token[start..])
}

// What stands behind a number that so many others follow in its line.
#[inline]
pub(crate) fn separator(later: usize) -> u8
    ensures { (numbers : List ℕ) → length numbers ≡ later → result ≡ separator_before numbers }
{
    if later == 0 { b'\n' } else { b' ' }
}
