//! What an answer of a stream or a file comes to. A fault is counted exactly where the call failed, or
//! took nothing of a piece.

ghost use Rattle.std.specs.Prelude.{◌≡◌, ◌<◌, ◌≤◌, MatchResult, Ok, Err, IsErr, length};
ghost use Rattle.hg_io.specs.Faults.{HasCause, counted};

use crate::Failed;
use crate::counts::count_fault;
use std::io;

/// The answer to a read.
pub fn taken(answer: io::Result<usize>, faults: &mut u64) -> Result<usize, Failed>
    ensures answer { MatchResult answer (λ n. result ≡ Ok n) (λ _. IsErr result) }
    ensures count { faults.new ≡ counted faults.old result }
    ensures cause { HasCause faults.old faults.new result }
{
    match answer {
        Ok(count) => Ok(count),
        Err(_) => Err(count_fault(faults)),
    }
}

/// The answer to a write of a piece.
pub fn put(answer: io::Result<usize>, piece: &[u8], faults: &mut u64) -> Result<usize, Failed>
    ensures some { MatchResult answer (λ n. 0 < n → result ≡ Ok n) (λ _. IsErr result) }
    ensures none { MatchResult answer (λ n. n ≡ 0 → 0 < length piece.now → IsErr result) (λ _. IsErr result) }
    ensures empty { MatchResult answer (λ n. length piece.now ≡ 0 → result ≡ Ok n) (λ _. IsErr result) }
    ensures count { faults.new ≡ counted faults.old result }
    ensures cause { HasCause faults.old faults.new result }
{
    match answer {
        Ok(count) if count > 0 || piece.is_empty() => Ok(count),
        _ => Err(count_fault(faults)),
    }
}

/// The answer to a flush.
pub fn flushed(answer: io::Result<()>, faults: &mut u64) -> Result<(), Failed>
    ensures answer { MatchResult answer (λ u. result ≡ Ok u) (λ _. IsErr result) }
    ensures count { faults.new ≡ counted faults.old result }
    ensures cause { HasCause faults.old faults.new result }
{
    match answer {
        Ok(()) => Ok(()),
        Err(_) => Err(count_fault(faults)),
    }
}
