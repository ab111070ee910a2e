//! Reading what a command needs, each source to its end.

ghost use Rattle.std.specs.Prelude.{◌≡◌, ◌≤◌, ◌≢◌, ◌<◌, MatchResult, Ok, IfOk, All, length};
ghost use Rattle.part_text.specs.Entries.{spelled_part, spelled_fixes};
ghost use Rattle.part_run.specs.Reads.{feed_of, WasRead, Spells, IsSuited, IsReadRefusal};
ghost use Rattle.part_run.specs.Reads.{IsGraphRefusal, IsFixRefusal, IsPartRefusal};

use crate::Status;
use hg_base::{Blocks, FREE, FlatHyper};
use hg_io::{ReadEnd, Source, read_all};
use hmetis_read::{GraphFault, What, read_with};
use part_text::{PartFault, read_fix, read_part};
use std::alloc::Global;
use std::thread::Threads;

/// The most bytes that a source may give.
const MOST_BYTES: u64 = 1 << 29;

/// Reads a source to its end; `what` is what it may give too much of.
fn read_bytes<S: Source>(alloc: Global, source: &mut S, what: What) -> Result<Vec<u8>, Status>
    ensures answer { let old = feed_of (S.left source.old) (S.faults source.old) in
        let new = feed_of (S.left source.new) (S.faults source.new) in
        MatchResult result (λ bytes. WasRead old new bytes.items) (IsReadRefusal what old new) }
    ensures later { S.faults source.old ≤ S.faults source.new }
{
    match read_all(alloc, source, MOST_BYTES) {
        Ok(bytes) => Ok(bytes),
        Err(ReadEnd::Fault) => Err(Status::ReadFault),
        Err(ReadEnd::TooLong) => Err(Status::TooLarge { line: 0, what }),
        Err(ReadEnd::NoMemory) => Err(Status::NoMemory),
    }
}

/// Reads the hypergraph, for `k` blocks, by so many threads at most.
pub(crate) fn read_graph<H: Threads + Sync, S: Source>(
    rt: &H,
    alloc: Global,
    source: &mut S,
    k: u32,
    threads: u32,
) -> Result<FlatHyper, Status>
    ensures answer { let old = feed_of (S.left source.old) (S.faults source.old) in
        let new = feed_of (S.left source.new) (S.faults source.new) in
        MatchResult result (IsSuited k old new) (IsGraphRefusal k old new) }
    ensures later { S.faults source.old ≤ S.faults source.new }
{
    let bytes = match read_bytes(alloc, source, What::Bytes) {
        Ok(bytes) => bytes,
        Err(status) => return Err(status),
    };
    let h = match read_with(rt, alloc, bytes.as_slice(), threads) {
        Ok(h) => h,
        Err(GraphFault::Bad { line, kind }) => return Err(Status::Malformed { line, kind }),
        Err(GraphFault::TooLarge { line, what }) => return Err(Status::TooLarge { line, what }),
        Err(GraphFault::NoMemory) => return Err(Status::NoMemory),
    };
    if !h.suits(k) {
        return Err(Status::TooLarge {
            line: 0,
            what: What::Words,
        });
    }
    Ok(h)
}

/// The fixes that the extra source spells, for `n` vertices and `k` blocks.
pub(crate) fn read_fixes<X: Source>(
    alloc: Global,
    source: &mut X,
    n: u32,
    k: u32,
) -> Result<Blocks, Status>
    ensures answer { let old = feed_of (X.left source.old) (X.faults source.old) in
        let new = feed_of (X.left source.new) (X.faults source.new) in
        MatchResult result
        (λ fixes. Spells old new (λ bytes. spelled_fixes bytes n k ≡ Ok fixes))
        (IsFixRefusal n k old new) }
    ensures vertices { IfOk result (λ fixes. length fixes ≡ n) }
    ensures below { IfOk result (All (λ fix. fix ≢ FREE → fix < k)) }
    ensures within { k ≤ FREE → IfOk result (All (λ fix. fix ≤ FREE)) }
    ensures later { X.faults source.old ≤ X.faults source.new }
{
    let bytes = match read_bytes(alloc, source, What::ExtraBytes) {
        Ok(bytes) => bytes,
        Err(status) => return Err(status),
    };
    match read_fix(alloc, bytes.as_slice(), n, k) {
        Ok(fixes) => Ok(fixes),
        Err(PartFault::Bad { line, kind }) => Err(Status::BadFix { line, kind }),
        Err(PartFault::NoMemory) => Err(Status::NoMemory),
    }
}

/// The partition that the extra source spells, of `n` vertices into `k` blocks.
pub(crate) fn read_blocks<X: Source>(
    alloc: Global,
    source: &mut X,
    n: u32,
    k: u32,
) -> Result<Blocks, Status>
    ensures answer { let old = feed_of (X.left source.old) (X.faults source.old) in
        let new = feed_of (X.left source.new) (X.faults source.new) in
        MatchResult result
        (λ blocks. Spells old new (λ bytes. spelled_part bytes n k ≡ Ok blocks))
        (IsPartRefusal n k old new) }
    ensures vertices { IfOk result (λ blocks. length blocks ≡ n) }
    ensures blocks { IfOk result (All (λ b. b < k)) }
    ensures later { X.faults source.old ≤ X.faults source.new }
{
    let bytes = match read_bytes(alloc, source, What::ExtraBytes) {
        Ok(bytes) => bytes,
        Err(status) => return Err(status),
    };
    match read_part(alloc, bytes.as_slice(), n, k) {
        Ok(blocks) => Ok(blocks),
        Err(PartFault::Bad { line, kind }) => Err(Status::BadPartition { line, kind }),
        Err(PartFault::NoMemory) => Err(Status::NoMemory),
    }
}
