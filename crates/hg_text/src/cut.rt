ghost use Rattle.std.specs.Prelude.{◌≡◌, ℕ, ◌+◌, ◌-◌, ◌<◌, ◌≤◌, ◌⊎◌, length, List, ◌∷◌, ◌++◌, take, drop, slice_index};
ghost use Rattle.std.specs.Prelude.{true, false};
ghost use Rattle.hg_text.specs.Kept.{is_blank as is_blank_byte, lines, without_return, fields, SpellsFirst};
ghost use Rattle.hg_text.specs.Kept.{is_line_feed, field_lists};
ghost use Rattle.hg_text.specs.Cut.{IsTrimmed, EndsField, ends_field, StopsAt, TakesNumber};

use crate::numeral::{BadNumber, FEW, few_digits, leading_digits};
use memchr::memchr;

// The first line of a text that isn't empty, and the text behind it.
pub(crate) fn split_line(text: &[u8]) -> (&[u8], &[u8])
    requires { 0 < length text.now }
    ensures lines { lines text.now ≡ result.0.now ∷ lines result.1.now }
    ensures shorter { length result.1.now < length text.now }
    ensures part { length result.0.now ≤ length text.now }
    ensures front { result.0.now ≡ take (length result.0.now) text.now }
    ensures stops { StopsAt text.now (length result.0.now) }
{
    match memchr(b'\n', text) {
        Some(end) => (&text[..end], &text[end + 1..]),
        None => text.split_at(text.len()),
    }
}

/// The place behind the first line feed that stands at `from` or later, and the text's length where
/// none does. A text that is cut there has the lines of its two parts, one after the other.
pub fn end_of_line(text: &[u8], from: usize) -> usize
    requires { from ≤ length text.now }
    ensures lines { lines text.now ≡ lines (take result text.now) ++ lines (drop result text.now) }
    ensures kept { field_lists text.now ≡ field_lists (take result text.now) ++ field_lists (drop result text.now) }
    ensures first { (k : ℕ) → from ≤ k → k + 1 < result → is_line_feed (slice_index text.now k) ≡ false }
    ensures ends { (result ≡ length text.now) ⊎
        ((from < result) × (is_line_feed (slice_index text.now (result - 1)) ≡ true)) }
    ensures behind { from ≤ result }
    ensures part { result ≤ length text.now }
{
    match memchr(b'\n', &text[from..]) {
        Some(end) => from + end + 1,
        None => text.len(),
    }
}

// The line without the one carriage return at its end.
pub(crate) fn trim_return(line: &[u8]) -> &[u8]
    ensures value { result.now ≡ without_return line.now }
    ensures part { length result.now ≤ length line.now }
    ensures front { result.now ≡ take (length result.now) line.now }
    ensures cut { length result.now < length line.now → slice_index line.now (length result.now) ≡ 13 }
{
    match line {
        [front @ .., b'\r'] => front,
        _ => line,
    }
}

#[inline]
fn is_blank(byte: u8) -> bool
    ensures { result ≡ is_blank_byte byte }
{
    byte == b' ' || byte == b'\t'
}

// How many blanks a line begins with.
#[inline]
pub(crate) fn blanks(line: &[u8]) -> usize
    ensures fields { fields (drop result line.now) ≡ fields line.now }
    ensures trimmed { IsTrimmed (drop result line.now) }
    ensures part { result ≤ length line.now }
{
    let mut count = 0;
    while count < line.len() && is_blank(line[count]) {
        count += 1;
    }
    count
}

// The line behind the blanks that it begins with.
#[inline]
pub(crate) fn skip_blanks(line: &[u8]) -> &[u8]
    ensures fields { fields result.now ≡ fields line.now }
    ensures trimmed { IsTrimmed result.now }
    ensures part { length result.now ≤ length line.now }
{
    &line[blanks(line)..]
}

// Whether no field goes on at this place of a line.
#[inline]
fn is_end(line: &[u8], place: usize) -> bool
    requires { place ≤ length line.now }
    ensures { result ≡ ends_field line.now place }
{
    place == line.len() || is_blank(line[place])
}

// The length of the field that a line begins with.
#[inline]
fn field_len(line: &[u8]) -> usize
    requires trimmed { IsTrimmed line.now }
    requires filled { 0 < length line.now }
    ensures { EndsField line.now result }
{
    let mut end = 1;
    while !is_end(line, end) {
        end += 1;
    }
    end
}

// The first field of a line that begins with one, and what follows it.
#[inline]
pub(crate) fn split_field(line: &[u8]) -> (&[u8], &[u8])
    requires trimmed { IsTrimmed line.now }
    requires filled { 0 < length line.now }
    ensures fields { fields line.now ≡ result.0.now ∷ fields result.1.now }
    ensures part { length result.1.now < length line.now }
    ensures ends { EndsField line.now (length result.0.now) }
    ensures rest { result.1.now ≡ drop (length result.0.now) line.now }
{
    line.split_at(field_len(line))
}

// What the first field of a line that begins with one spells, and its length.
fn number_at(line: &[u8]) -> (Result<u64, BadNumber>, usize)
    requires trimmed { IsTrimmed line.now }
    requires filled { 0 < length line.now }
    ensures spelt { SpellsFirst (fields line.now) (fields (drop result.1 line.now)) result.0 }
    ensures part { result.1 ≤ length line.now }
{
    let (count, value) = leading_digits(line);
    if count > 0 && is_end(line, count) {
        return (value.ok_or(BadNumber::TooBig), count);
    }
    (Err(BadNumber::NotDigits), field_len(line))
}

// What the first field of a line spells, where it has one, and the length of the line's front that
// ends behind it.
#[cold]
fn any_number(line: &[u8]) -> (Option<Result<u64, BadNumber>>, usize)
    ensures spelt { TakesNumber (fields line.now) (fields (drop result.1 line.now)) result.0 }
    ensures part { result.1 ≤ length line.now }
{
    let start = blanks(line);
    if start == line.len() {
        return (None, start);
    }
    let (value, count) = number_at(&line[start..]);
    (Some(value), start + count)
}

// The same of the line that the text begins with, which has this length. What most lines have, few
// digits before a blank or the line's end, is read at once.
#[inline(always)]
pub(crate) fn take_number(text: &[u8], len: usize) -> (Option<Result<u64, BadNumber>>, usize)
    requires part { len ≤ length text.now }
    requires stops { StopsAt text.now len }
    ensures spelt { let line = take len text.now in TakesNumber (fields line) (fields (drop result.1 line)) result.0 }
    ensures part { result.1 ≤ len }
{
    if len == 0 {
        return (None, 0);
    }
    let (count, value) = few_digits(text);
    if 0 < count && count < FEW {
        if count == len {
            return (Some(Ok(value)), count);
        }
        if is_blank(text[count]) {
            return (Some(Ok(value)), count + 1);
        }
    }
    any_number(&text[..len])
}
