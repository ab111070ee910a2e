ghost use Rattle.std.specs.Prelude.{◌≡◌, ◌≤◌, ◌+◌, List, ℕ, [], ◌++◌, Ok, OnOk, length, take};
ghost use Rattle.hg_io.specs.Faults.{HasCause};
ghost use Rattle.hg_io.specs.Transfers.{PutsAll, Writes};

use crate::{Failed, Sink, put_all};
use std::marker::Model;

/// The most bytes that a pen holds.
pub const PEN_ROOM: usize = 4_096;

/// Collects the pieces of a text, and puts them in few calls. Contracts see the bytes that it holds.
///
/// After a `Failed` a pen isn't used again.
#[derive(Drop)]
pub struct Pen {
    held: [u8; PEN_ROOM],
    len: usize,
}

impl Model for Pen {
    ghost use Rattle.std.specs.Prelude.{◌≤◌, List, ℕ, take};
    ghost use Rattle.hg_io.specs.declared.pen.TheConstants.{PEN_ROOM};

    ghost Value = { List ℕ };

    ghost view = { λ pen. take pen.len pen.held };

    ghost invariant = { λ pen. pen.len ≤ PEN_ROOM };
}

impl Pen {
    /// An empty pen.
    pub fn new() -> Pen
        ensures { result ≡ [] }
    {
        Pen {
            held: [0; PEN_ROOM],
            len: 0,
        }
    }

    /// Writes `bytes` behind what the pen holds, and puts what it has no room for.
    pub fn write<K: Sink>(&mut self, sink: &mut K, bytes: &[u8]) -> Result<(), Failed>
        ensures bytes { Writes (K.got sink.old) (K.got sink.new) self.old self.new result bytes.now }
        ensures cause { HasCause (K.faults sink.old) (K.faults sink.new) result }

        // While it has room it puts nothing.
        ensures held { length self.old + length bytes.now ≤ PEN_ROOM →
            (result ≡ Ok tt) × (self.new ≡ self.old ++ bytes.now) × (sink.new ≡ sink.old) }
    {
        if bytes.len() > PEN_ROOM - self.len {
            self.send(sink)?;
            if bytes.len() > PEN_ROOM {
                return put_all(sink, bytes);
            }
        }
        self.hold(bytes);
        Ok(())
    }

    // Puts all that the pen holds, and empties it.
    fn send<K: Sink>(&mut self, sink: &mut K) -> Result<(), Failed>
        ensures bytes { PutsAll (K.got sink.old) (K.got sink.new) result self.old }
        ensures cause { HasCause (K.faults sink.old) (K.faults sink.new) result }
        ensures empty { OnOk result (self.new ≡ []) }
    {
        put_all(sink, &self.held[..self.len])?;
        self.len = 0;
        Ok(())
    }

    // Holds `bytes` too.
    fn hold(&mut self, bytes: &[u8])
        requires { length self.old + length bytes.now ≤ PEN_ROOM }
        ensures { self.new ≡ self.old ++ bytes.now }
    {
        let end = self.len + bytes.len();
        self.held[self.len..end].copy_from_slice(bytes);
        self.len = end;
    }

    /// Puts all that the pen holds.
    pub fn end<K: Sink>(mut self, sink: &mut K) -> Result<(), Failed>
        ensures bytes { PutsAll (K.got sink.old) (K.got sink.new) result self }
        ensures cause { HasCause (K.faults sink.old) (K.faults sink.new) result }
    {
        self.send(sink)
    }
}
