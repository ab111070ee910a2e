ghost use Rattle.std.specs.Prelude.{◌≡◌, ℕ, List, ◌<◌, Bool, false, Option, None, IfOk, OnOk, length};
ghost use Rattle.std.specs.Io.{ReadsAtMost, WritesAtMost};
ghost use Rattle.std.specs.Io.KnownBytes.{Keeps, ReadConsumes, WriteAppends};
ghost use Rattle.hg_io.specs.Faults.{HasCause};

/// A call that read or wrote met a fault, which the object that it was called on counted.
#[derive(Clone, Copy, Debug, PartialEq, Eq)]
pub struct Failed;

/// What bytes come from.
pub trait Source {
    /// The faults so far, which stand still at 2^64 - 1.
    ghost faults: { Self → ℕ };

    /// The bytes that are left, where they are known.
    ghost left: { Self → Option (List ℕ) } = { λ _. None };

    /// Moves the first bytes left into the front of `buf`, and answers how many. 0 for a buffer that
    /// isn't empty means that nothing is left. On `Failed` nothing was taken.
    fn take(&mut self, buf: &mut [u8]) -> Result<usize, Failed>
        ensures bound { ReadsAtMost result buf.new }
        ensures bytes { ReadConsumes (left self.old) (left self.new) result buf.new }
        ensures cause { HasCause (faults self.old) (faults self.new) result };
}

/// What bytes go to.
pub trait Sink {
    /// The faults so far, which stand still at 2^64 - 1.
    ghost faults: { Self → ℕ };

    /// The bytes that were got, where they are known.
    ghost got: { Self → Option (List ℕ) } = { λ _. None };

    /// Whether it may hold bytes back that were put since it was flushed last.
    ghost held: { Self → Bool } = { λ _. false };

    /// Appends the first bytes of `piece`, and answers how many: at least one where it isn't empty.
    /// On `Failed` nothing was appended.
    fn put(&mut self, piece: &[u8]) -> Result<usize, Failed>
        ensures bound { WritesAtMost result piece.now }
        ensures progress { IfOk result (λ n. 0 < length piece.now → 0 < n) }
        ensures bytes { WriteAppends (got self.old) (got self.new) result piece.now }
        ensures cause { HasCause (faults self.old) (faults self.new) result };

    /// Sends on what the sink holds back, so that a fault which shows only then is counted too.
    fn flush(&mut self) -> Result<(), Failed>
        ensures bytes { Keeps (got self.old) (got self.new) }
        ensures cause { HasCause (faults self.old) (faults self.new) result }
        ensures sent { OnOk result (held self.new ≡ false) };
}
