ghost use Rattle.std.specs.Prelude.{◌≡◌, ◌≢◌, ℕ, ◌^◌, ◌<◌, ◌≤◌, All, IfOk, length};
ghost use Rattle.part_text.specs.Entries.{block_entry, fix_entry, entry_in, IsEntry};
ghost use Rattle.part_text.specs.Entries.{block_in as block_spelt, spelled, spelled_part, spelled_fixes};
ghost use Rattle.part_text.specs.Answers.{Answers};
ghost use Rattle.hg_text.specs.Kept.{reading};

use crate::{FixFault, PartFault, PartKind};
use hg_base::{Blocks, FREE};
use hg_text::{BadNumber, Kept, Lines, number};
use std::alloc::Global;

/// Reads the partition of `n` vertices into `k` blocks that a file of at most 2^29 bytes spells.
///
/// A refusal names the first line with a fault, and the first fault of that line.
pub fn read_part(alloc: Global, bytes: &[u8], n: u32, k: u32) -> Result<Blocks, PartFault>
    requires { length bytes.now ≤ 2 ^ 29 }
    ensures part { Answers (spelled_part bytes.now n k) result }
    ensures vertices { IfOk result (λ blocks. length blocks ≡ n) }
    ensures blocks { IfOk result (All (λ b. b < k)) }
{
    read_entries(alloc, bytes, n, k, Entry::Block)
}

/// Reads the fixes of `n` vertices, each a block below `k` or `FREE`, that a file of at most 2^29
/// bytes spells.
///
/// A refusal names the first line with a fault, and the first fault of that line.
pub fn read_fix(alloc: Global, bytes: &[u8], n: u32, k: u32) -> Result<Blocks, FixFault>
    requires { length bytes.now ≤ 2 ^ 29 }
    ensures fixes { Answers (spelled_fixes bytes.now n k) result }
    ensures vertices { IfOk result (λ fixes. length fixes ≡ n) }
    ensures below { IfOk result (All (λ fix. fix ≢ FREE → fix < k)) }
    ensures within { k ≤ FREE → IfOk result (All (λ fix. fix ≤ FREE)) }
{
    read_entries(alloc, bytes, n, k, Entry::Fix)
}

// What each line of a file holds.
#[derive(Clone, Copy)]
enum Entry {
    Block,
    Fix,
}

// Reads one entry from each kept line.
fn read_entries(
    alloc: Global,
    bytes: &[u8],
    n: u32,
    k: u32,
    entry: Entry,
) -> Result<Blocks, PartFault>
    requires { length bytes.now ≤ 2 ^ 29 }
    ensures values { Answers (spelled (entry_in entry k) n (reading bytes.now)) result }
    ensures count { IfOk result (λ values. length values ≡ n) }
    ensures each { IfOk result (All (IsEntry entry k)) }
{
    let mut lines = Lines::over(bytes);
    let mut values = Vec::with_capacity(alloc, n as usize)?;
    'lines: for _ in 0..n {
        let Some(line) = lines.next_kept() else {
            return Err(PartFault::Bad {
                line: lines.count() + 1,
                kind: PartKind::MissingLine,
            });
        };
        let number = line.line();
        match read_entry(line, k, entry) {
            Ok(value) => values.push(value)?,
            Err(kind) => return Err(PartFault::Bad { line: number, kind }),
        }
    }
    match lines.next_kept() {
        Some(line) => Err(PartFault::Bad {
            line: line.line(),
            kind: PartKind::ExtraLine,
        }),
        None => Ok(Blocks::from_vec(values)),
    }
}

// The entry that a line spells.
#[inline]
fn read_entry(line: Kept, k: u32, entry: Entry) -> Result<u32, PartKind>
    ensures value { result ≡ entry_in entry k line.entry.fields }
    ensures within { IfOk result (IsEntry entry k) }
{
    match entry {
        Entry::Block => read_block(line, k),
        Entry::Fix => read_fixed(line, k),
    }
}

// The block that a line spells.
#[inline]
fn read_block(mut line: Kept, k: u32) -> Result<u32, PartKind>
    ensures value { result ≡ block_entry k line.entry.fields }
    ensures within { IfOk result (λ block. block < k) }
{
    let Some(value) = line.next_number() else {
        return Err(PartKind::FieldCount);
    };
    if line.next_number().is_some() {
        return Err(PartKind::FieldCount);
    }
    block_in(value, k)
}

// The fix that a line spells.
fn read_fixed(mut line: Kept, k: u32) -> Result<u32, PartKind>
    ensures value { result ≡ fix_entry k line.entry.fields }
    ensures below { IfOk result (λ fix. fix ≢ FREE → fix < k) }
    ensures within { IfOk result (λ fix. k ≤ FREE → fix ≤ FREE) }
{
    let Some(field) = line.next_field() else {
        return Err(PartKind::FieldCount);
    };
    if line.next_field().is_some() {
        return Err(PartKind::FieldCount);
    }
    if field == b"-1".as_slice() {
        return Ok(FREE);
    }
    block_in(number(field), k)
}

// A block below `k`.
#[inline]
fn block_in(value: Result<u64, BadNumber>, k: u32) -> Result<u32, PartKind>
    ensures value { result ≡ block_spelt k value }
    ensures within { IfOk result (λ block. block < k) }
{
    match value {
        Ok(block) if block < u64::from(k) => Ok(block as u32),
        Err(BadNumber::NotDigits) => Err(PartKind::NotNumber),
        _ => Err(PartKind::BlockRange),
    }
}
