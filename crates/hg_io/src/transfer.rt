ghost use Rattle.std.specs.Prelude.{◌≡◌, ◌≤◌, ◌⊎◌, OnOk, IfOk, IfSome, IsErrOf, vec_len};
ghost use Rattle.std.specs.Io.KnownBytes.{Consumes, IsAtEnd};
ghost use Rattle.hg_io.specs.Faults.{Rose, HasCause};
ghost use Rattle.hg_io.specs.Transfers.{PutsAll, ConsumesMoreThan, ConsumesAtMost};
ghost use Rattle.hg_io.specs.declared.transfer.ReadEnd.TheVariants.{Fault as fault, NoMemory as no_memory};

use crate::{Failed, Sink, Source};
use std::alloc::{AllocError, Global};

/// Why a source wasn't read whole.
#[derive(Clone, Copy, Debug, PartialEq, Eq)]
pub enum ReadEnd {
    /// The source met a fault.
    Fault,
    /// More bytes came than were allowed.
    TooLong,
    /// There was no memory left.
    NoMemory,
}

impl From<Failed> for ReadEnd {
    ghost from_gives = { λ _ end. end ≡ fault };

    fn from(_failed: Failed) -> Self {
        ReadEnd::Fault
    }
}

impl From<AllocError> for ReadEnd {
    ghost from_gives = { λ _ end. end ≡ no_memory };

    fn from(_error: AllocError) -> Self {
        ReadEnd::NoMemory
    }
}

/// The bytes of one turn of a whole read.
const CHUNK: usize = 65_536;

/// Reads `src` to its end, where that comes within `max` bytes.
pub fn read_all<S: Source>(alloc: Global, src: &mut S, max: u64) -> Result<Vec<u8>, ReadEnd>
    // `Ok` gives all bytes that were left, and the end was seen.
    ensures whole { IfOk result (λ bytes. IfSome (S.left src.old) (λ left. bytes.items ≡ left)) }
    ensures taken { IfOk result (λ bytes. Consumes (S.left src.old) (S.left src.new) bytes.items) }
    ensures end { OnOk result (IsAtEnd (S.left src.new)) }
    ensures within { IfOk result (λ bytes. vec_len bytes ≤ max) }

    // `TooLong` comes where more than `max` bytes came before a fault or the end.
    ensures too_long { IsErrOf result ReadEnd.TooLong →
        ConsumesMoreThan (S.left src.old) (S.left src.new) max }

    // `Fault` comes only where the count rose, and no more than `max` bytes came before.
    ensures fault { IsErrOf result ReadEnd.Fault → Rose (S.faults src.old) (S.faults src.new) }
    ensures short { IsErrOf result ReadEnd.Fault →
        ConsumesAtMost (S.left src.old) (S.left src.new) max }
    ensures later { S.faults src.old ≤ S.faults src.new }

    // No other answer counts a fault.
    ensures kept { IsErrOf result ReadEnd.Fault ⊎ (S.faults src.new ≡ S.faults src.old) }
{
    let mut bytes = Vec::new(alloc);
    let mut chunk = zeros(alloc, CHUNK)?;
    let piece = chunk.as_mut_slice();
    'turns: loop {
        let count = src.take(piece)?;
        if count == 0 {
            return Ok(bytes);
        }
        bytes.extend_from_slice(&piece[..count])?;
        if bytes.len() as u64 > max {
            return Err(ReadEnd::TooLong);
        }
    }
}

// The size is passed, so that no proof unfolds so long a list.
fn zeros(alloc: Global, size: usize) -> Result<Vec<u8>, AllocError>
    ensures { IfOk result (λ bytes. vec_len bytes ≡ size) }
{
    vec![in alloc; 0u8; size]
}

/// Puts all of `bytes`, in as many calls as `sink` needs.
pub fn put_all<K: Sink>(sink: &mut K, bytes: &[u8]) -> Result<(), Failed>
    ensures bytes { PutsAll (K.got sink.old) (K.got sink.new) result bytes.now }
    ensures cause { HasCause (K.faults sink.old) (K.faults sink.new) result }
{
    let mut done = 0;
    'pieces: while done < bytes.len() {
        done += sink.put(&bytes[done..])?;
    }
    Ok(())
}
