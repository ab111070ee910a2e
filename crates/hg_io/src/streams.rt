ghost use Rattle.std.specs.Prelude.{◌≡◌, ◌<◌, IfOk, OnOk, length, true, false};
ghost use Rattle.std.specs.Io.{ReadsAtMost, WritesAtMost};
ghost use Rattle.std.specs.Io.KnownBytes.{Keeps, ReadConsumes, WriteAppends};
ghost use Rattle.hg_io.specs.Faults.{HasCause, counted};

use crate::answers::{flushed, put, taken};
use crate::{Failed, Sink, Source};
use std::io::{Read, Write};
use std::marker::Model;

/// A source over a reader. Contracts see its faults, and what the reader has left where it tells.
#[derive(Drop)]
pub struct StdSource<T: Read + Drop> {
    reader: T,
    faults: u64,
}

impl<T: Read + Drop> Model for StdSource<T> {
    ghost use Rattle.std.specs.Prelude.{false};
    ghost use Rattle.hg_io.specs.End.{Stream};

    ghost Value = { Stream };

    ghost view = { λ source. record { faults = source.faults; bytes = T.remaining source.reader; held = false } };
}

impl<T: Read + Drop> StdSource<T> {
    /// A source that reads from `reader`.
    pub fn over(reader: T) -> StdSource<T>
        ensures { result ≡ record { faults = 0; bytes = T.remaining reader; held = false } }
    {
        StdSource { reader, faults: 0 }
    }
}

impl<T: Read + Drop> Source for StdSource<T> {
    ghost faults = { λ source. source.faults };

    ghost left = { λ source. source.bytes };

    fn take(&mut self, buf: &mut [u8]) -> Result<usize, Failed>
        ensures bound { ReadsAtMost result buf.new }
        ensures bytes { ReadConsumes self.old.bytes self.new.bytes result buf.new }
        ensures cause { HasCause self.old.faults self.new.faults result }
        ensures count { self.new.faults ≡ counted self.old.faults result }
    {
        let answer = self.reader.read(buf);
        taken(answer, &mut self.faults)
    }
}

/// A sink over a writer. Contracts see its faults, what the writer holds where it tells, and whether
/// something may be held back since the last flush.
#[derive(Drop)]
pub struct StdSink<T: Write + Drop> {
    writer: T,
    faults: u64,
    held: bool,
}

impl<T: Write + Drop> Model for StdSink<T> {
    ghost use Rattle.hg_io.specs.End.{Stream};

    ghost Value = { Stream };

    ghost view = { λ sink. record { faults = sink.faults; bytes = T.contents sink.writer; held = sink.held } };
}

impl<T: Write + Drop> StdSink<T> {
    /// A sink that writes to `writer`.
    pub fn over(writer: T) -> StdSink<T>
        ensures { result ≡ record { faults = 0; bytes = T.contents writer; held = false } }
    {
        StdSink {
            writer,
            faults: 0,
            held: false,
        }
    }
}

impl<T: Write + Drop> Sink for StdSink<T> {
    ghost faults = { λ sink. sink.faults };

    ghost got = { λ sink. sink.bytes };

    ghost held = { λ sink. sink.held };

    // A write that takes nothing of a piece is a fault too.
    fn put(&mut self, piece: &[u8]) -> Result<usize, Failed>
        ensures bound { WritesAtMost result piece.now }
        ensures progress { IfOk result (λ n. 0 < length piece.now → 0 < n) }
        ensures bytes { WriteAppends self.old.bytes self.new.bytes result piece.now }
        ensures cause { HasCause self.old.faults self.new.faults result }
        ensures count { self.new.faults ≡ counted self.old.faults result }
        ensures held { self.new.held ≡ true }
    {
        self.held = true;
        let answer = self.writer.write(piece);
        put(answer, piece, &mut self.faults)
    }

    fn flush(&mut self) -> Result<(), Failed>
        ensures bytes { Keeps self.old.bytes self.new.bytes }
        ensures cause { HasCause self.old.faults self.new.faults result }
        ensures sent { OnOk result (self.new.held ≡ false) }
        ensures count { self.new.faults ≡ counted self.old.faults result }
    {
        let answer = self.writer.flush();
        flushed(answer, &mut self.faults)?;
        self.held = false;
        Ok(())
    }
}
