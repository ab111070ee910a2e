ghost use Rattle.std.specs.Prelude.{◌≡◌, ◌≤◌, length, min, take};
ghost use Rattle.std.specs.List.{prefix_len};
ghost use Rattle.std.specs.Char.{is_ascii_digit};
ghost use Rattle.std.specs.Str.Parse.{digits_value};
ghost use Rattle.hg_text.specs.Kept.{number_of};
ghost use Rattle.hg_text.specs.Cut.{IsFitting};

use crate::eight::eight_digits;

/// Why a field spells no number.
#[derive(Clone, Copy, Debug, PartialEq, Eq)]
pub enum BadNumber {
    /// The field is empty or has another byte than a digit.
    NotDigits,
    /// The digits stand for 2^64 or more.
    TooBig,
}

/// So many bytes are read at once.
pub(crate) const FEW: usize = 8;

// How many digits a short text begins with, and the number that they spell.
fn short_digits(text: &[u8]) -> (usize, u64)
    requires { length text.now ≤ FEW }
    ensures count { result.0 ≡ prefix_len is_ascii_digit text.now }
    ensures value { result.1 ≡ digits_value 10 (take result.0 text.now) }
{
    let mut value: u64 = 0;
    let mut count: usize = 0;
    while count < text.len() && text[count].is_ascii_digit() {
        value = value * 10 + u64::from(text[count] - b'0');
        count += 1;
    }
    (count, value)
}

// How many digits the text begins with, but for those behind the first few bytes, and the number
// that they spell.
#[inline(always)]
pub(crate) fn few_digits(text: &[u8]) -> (usize, u64)
    ensures count { result.0 ≡ min FEW (prefix_len is_ascii_digit text.now) }
    ensures value { result.1 ≡ digits_value 10 (take result.0 text.now) }
{
    match text.split_first_chunk::<FEW>() {
        Some((head, _)) => eight_digits(head),
        None => short_digits(text),
    }
}

// How many digits the text begins with, and the number that they spell, where it is below 2^64.
pub(crate) fn leading_digits(text: &[u8]) -> (usize, Option<u64>)
    ensures count { result.0 ≡ prefix_len is_ascii_digit text.now }
    ensures value { IsFitting (digits_value 10 (take result.0 text.now)) result.1 }
{
    let (count, value) = few_digits(text);
    if count < FEW {
        return (count, Some(value));
    }
    more_digits(text, value)
}

// The same of a text whose first digits spell this value.
fn more_digits(text: &[u8], first: u64) -> (usize, Option<u64>)
    requires digits { FEW ≤ prefix_len is_ascii_digit text.now }
    requires value { first ≡ digits_value 10 (take FEW text.now) }
    ensures count { result.0 ≡ prefix_len is_ascii_digit text.now }
    ensures value { IsFitting (digits_value 10 (take result.0 text.now)) result.1 }
{
    let mut value = first;
    let mut count = FEW;
    while count < text.len() && text[count].is_ascii_digit() {
        let digit = u64::from(text[count] - b'0');
        if value > (u64::MAX - digit) / 10 {
            return (count + digits_len(&text[count..]), None);
        }
        value = value * 10 + digit;
        count += 1;
    }
    (count, Some(value))
}

// How many digits the text begins with.
fn digits_len(text: &[u8]) -> usize
    ensures count { result ≡ prefix_len is_ascii_digit text.now }
    ensures part { result ≤ length text.now }
{
    text.iter().take_while(|byte| byte.is_ascii_digit()).count()
}

/// The number that a field spells in decimal digits; leading zeros are allowed.
pub fn number(field: &[u8]) -> Result<u64, BadNumber>
    ensures { result ≡ number_of field.now }
{
    let (count, value) = leading_digits(field);
    if count == 0 || count < field.len() {
        return Err(BadNumber::NotDigits);
    }
    value.ok_or(BadNumber::TooBig)
}
