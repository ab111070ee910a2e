ghost use Rattle.std.specs.Prelude.{◌≡◌, ◌<◌, None, Ok, IfOk, OnOk, false, length};
ghost use Rattle.std.specs.Io.{WritesAtMost};
ghost use Rattle.std.specs.Io.KnownBytes.{Keeps, WriteAppends};
ghost use Rattle.hg_io.specs.Faults.{HasCause, counted};
ghost use Rattle.hg_io.specs.Place.{written_place};

use crate::{Failed, FileSink, Place, Sink, StdSink};
use std::io::Write;
use std::marker::Model;
use std::rt::Files;

/// The sink at a place.
#[derive(Drop)]
pub struct AnySink<H: Files + Drop, O: Write + Drop, E: Write + Drop> {
    writer: Writer<H, O, E>,
}

#[derive(Drop)]
enum Writer<H: Files + Drop, O: Write + Drop, E: Write + Drop> {
    Nowhere,
    Output(StdSink<O>),
    Errors(StdSink<E>),
    File(FileSink<H>),
}

impl<H: Files + Drop, O: Write + Drop, E: Write + Drop> Model for AnySink<H, O, E> {
    ghost use Rattle.hg_io.specs.End.{End};

    ghost Value = { End };

    ghost use Rattle.hg_io.specs.AnySink.{end_of};

    ghost view = { λ sink. end_of sink.writer };
}

impl<H: Files + Drop, O: Write + Drop, E: Write + Drop> AnySink<H, O, E> {
    /// A sink that writes `place`: `output` or `errors` where that is a stream, else a file made by
    /// `rt`.
    pub fn at(rt: H, output: O, errors: E, place: Place) -> AnySink<H, O, E>
        ensures { result ≡ record { place = written_place place; faults = 0; held = false } }
    {
        AnySink {
            writer: match place {
                Place::Output => Writer::Output(StdSink::over(output)),
                Place::Errors => Writer::Errors(StdSink::over(errors)),
                Place::File(name) => Writer::File(FileSink::at(rt, name)),
                Place::Nothing | Place::Input => Writer::Nowhere,
            },
        }
    }
}

impl<H: Files + Drop, O: Write + Drop, E: Write + Drop> Sink for AnySink<H, O, E> {
    ghost faults = { λ sink. sink.faults };

    ghost held = { λ sink. sink.held };

    // Where nothing is written it drops the whole piece.
    fn put(&mut self, piece: &[u8]) -> Result<usize, Failed>
        ensures bound { WritesAtMost result piece.now }
        ensures progress { IfOk result (λ n. 0 < length piece.now → 0 < n) }
        ensures bytes { WriteAppends None None result piece.now }
        ensures cause { HasCause self.old.faults self.new.faults result }
        ensures count { self.new.faults ≡ counted self.old.faults result }
        ensures place { self.new.place ≡ self.old.place }
        ensures unused { self.old.place ≡ Place.Nothing → result ≡ Ok (length piece.now) }
    {
        match &mut self.writer {
            Writer::Nowhere => Ok(piece.len()),
            Writer::Output(sink) => sink.put(piece),
            Writer::Errors(sink) => sink.put(piece),
            Writer::File(sink) => sink.put(piece),
        }
    }

    fn flush(&mut self) -> Result<(), Failed>
        ensures bytes { Keeps None None }
        ensures cause { HasCause self.old.faults self.new.faults result }
        ensures sent { OnOk result (self.new.held ≡ false) }
        ensures count { self.new.faults ≡ counted self.old.faults result }
        ensures place { self.new.place ≡ self.old.place }
        ensures unused { self.old.place ≡ Place.Nothing → result ≡ Ok tt }
    {
        match &mut self.writer {
            Writer::Nowhere => Ok(()),
            Writer::Output(sink) => sink.flush(),
            Writer::Errors(sink) => sink.flush(),
            Writer::File(sink) => sink.flush(),
        }
    }
}
