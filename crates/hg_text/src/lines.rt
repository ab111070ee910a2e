ghost use Rattle.std.specs.Prelude.{◌≡◌, ℕ, ◌^◌, ◌<◌, ◌≤◌, length, map, [], ◌∷◌, MatchOption, IfSome};
ghost use Rattle.hg_text.specs.Kept.{reading, lines, field_lists, fields, is_kept, SpellsFirst};

use crate::cut::{blanks, skip_blanks, split_field, split_line, take_number, trim_return};
use crate::numeral::BadNumber;
use std::marker::Model;

/// The kept lines of a text, one after another.
///
/// A line is kept where it has a field and the first one doesn't begin with a percent sign.
#[derive(Drop)]
pub struct Lines<'a> {
    rest: &'a [u8],
    passed: u32,
}

impl<'a> Model for Lines<'a> {
    ghost use Rattle.std.specs.Prelude.{◌+◌, ◌^◌, ◌≤◌, length};
    ghost use Rattle.hg_text.specs.Kept.{Reading, lines, kept_from};

    ghost Value = { Reading };

    ghost view = { λ l. record {
      kept = kept_from (l.passed + 1) l.rest.now;
      count = l.passed + length (lines l.rest.now);
    } };

    ghost invariant = { λ l. l.passed + length l.rest.now ≤ 2 ^ 29 };
}

impl<'a> Lines<'a> {
    /// Reads a text of at most 2^29 bytes.
    pub fn over(bytes: &'a [u8]) -> Self
        requires { length bytes.now ≤ 2 ^ 29 }
        ensures { result ≡ reading bytes.now }
    {
        Lines {
            rest: bytes,
            passed: 0,
        }
    }

    /// The next kept line, or None where none is left.
    pub fn next_kept(&mut self) -> Option<Kept<'a>>
        ensures kept { MatchOption result ((self.old.kept ≡ []) × (self.new.kept ≡ []))
            (λ line. self.old.kept ≡ line ∷
            self.new.kept) }
        ensures filled { IfSome result (λ line. 0 < length line.fields) }
        ensures count { self.new.count ≡ self.old.count }
    {
        while !self.rest.is_empty() {
            let text = self.rest;
            let (line, rest) = split_line(text);
            self.rest = rest;
            self.passed += 1;
            let line = trim_return(line);
            if is_kept_line(line) {
                return Some(Kept {
                    number: self.passed,
                    text,
                    len: line.len(),
                });
            }
        }
        None
    }

    /// What wasn't read yet of the text. It begins where a line does.
    pub fn rest(&self) -> &'a [u8]
        ensures kept { map (λ line. line.fields) self.now.kept ≡ field_lists result.now }
        ensures bound { length result.now ≤ 2 ^ 29 }
    {
        self.rest
    }

    /// The number of lines of the text, those that aren't kept included.
    pub fn count(&self) -> u32
        ensures count { result ≡ self.now.count }
        ensures bound { result ≤ 2 ^ 29 }
    {
        self.passed + lines_of(self.rest)
    }
}

// Whether the line is kept.
#[inline]
fn is_kept_line(line: &[u8]) -> bool
    ensures { result ≡ is_kept (record { number = 0; fields = fields line.now }) }
{
    let rest = skip_blanks(line);
    !rest.is_empty() && rest[0] != b'%'
}

// The number of lines.
fn lines_of(text: &[u8]) -> u32
    requires { length text.now ≤ 2 ^ 29 }
    ensures count { result ≡ length (lines text.now) }
    ensures part { result ≤ length text.now }
{
    let mut rest = text;
    let mut count = 0;
    while !rest.is_empty() {
        rest = split_line(rest).1;
        count += 1;
    }
    count
}

/// A kept line, whose fields are taken one after another.
#[derive(Drop)]
pub struct Kept<'a> {
    number: u32,
    // What is left of the line has this length, and is followed by what follows the line.
    text: &'a [u8],
    len: usize,
}

impl<'a> Model for Kept<'a> {
    ghost use Rattle.std.specs.Prelude.{◌^◌, ◌≤◌, length, take};
    ghost use Rattle.hg_text.specs.Kept.{Line, fields};
    ghost use Rattle.hg_text.specs.Cut.{StopsAt};

    ghost Value = { Line };

    ghost view = { λ k. record { number = k.number; fields = fields (take k.len k.text.now) } };

    ghost invariant = { λ k. (k.len ≤ length k.text.now) × (length k.text.now ≤ 2 ^ 29)
        × StopsAt k.text.now k.len };
}

impl<'a> Kept<'a> {
    /// The number of the line in its text, from 1.
    pub fn line(&self) -> u32
        ensures { result ≡ self.now.number }
    {
        self.number
    }

    /// The number of fields that weren't taken yet, which are all of the line's at first. It reads
    /// them.
    pub fn fields(&self) -> u32
        ensures { result ≡ length self.now.fields }
    {
        fields_of(&self.text[..self.len])
    }

    /// The next field, or None where none is left. A field isn't empty.
    pub fn next_field(&mut self) -> Option<&'a [u8]>
        ensures field { MatchOption result ((self.old.fields ≡ []) × (self.new.fields ≡ []))
            (λ field. self.old.fields ≡ field.now ∷ self.new.fields) }
        ensures line { self.new.number ≡ self.old.number }
    {
        let (text, len) = (self.text, self.len);
        let start = blanks(&text[..len]);
        if start == len {
            return None;
        }
        let (field, _) = split_field(&text[start..len]);
        let passed = start + field.len();
        self.text = &text[passed..];
        self.len = len - passed;
        Some(field)
    }

    /// What the next field spells, or None where none is left. It takes the field as `next_field`
    /// does, and answers what `number` says of it, but reads its bytes once.
    #[inline(always)]
    pub fn next_number(&mut self) -> Option<Result<u64, BadNumber>>
        ensures spelt { MatchOption result ((self.old.fields ≡ []) × (self.new.fields ≡ []))
            (λ value. SpellsFirst self.old.fields self.new.fields value) }
        ensures line { self.new.number ≡ self.old.number }
    {
        let (text, len) = (self.text, self.len);
        let (number, passed) = take_number(text, len);
        self.text = &text[passed..];
        self.len = len - passed;
        number
    }
}

// The number of fields.
fn fields_of(line: &[u8]) -> u32
    requires { length line.now ≤ 2 ^ 29 }
    ensures { result ≡ length (fields line.now) }
{
    let mut rest = skip_blanks(line);
    let mut count = 0;
    while !rest.is_empty() {
        rest = skip_blanks(split_field(rest).1);
        count += 1;
    }
    count
}
