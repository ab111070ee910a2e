ghost use Rattle.std.specs.Prelude.{◌≡◌, None, Ok, false, length};
ghost use Rattle.std.specs.Io.{ReadsAtMost};
ghost use Rattle.std.specs.Io.KnownBytes.{ReadConsumes};
ghost use Rattle.hg_io.specs.Faults.{HasCause, counted};
ghost use Rattle.hg_io.specs.Place.{read_place};

use crate::{Failed, FileSource, Place, Source, StdSource};
use std::io::Read;
use std::marker::Model;
use std::rt::Files;

/// The source at a place.
#[derive(Drop)]
pub struct AnySource<H: Files + Drop, T: Read + Drop> {
    reader: Reader<H, T>,
}

#[derive(Drop)]
enum Reader<H: Files + Drop, T: Read + Drop> {
    Nowhere,
    Stream(StdSource<T>),
    File(FileSource<H>),
}

impl<H: Files + Drop, T: Read + Drop> Model for AnySource<H, T> {
    ghost use Rattle.hg_io.specs.End.{End};

    ghost Value = { End };

    ghost use Rattle.hg_io.specs.AnySource.{end_of};

    ghost view = { λ source. end_of source.reader };
}

impl<H: Files + Drop, T: Read + Drop> AnySource<H, T> {
    /// A source that reads `place`: `input` where that is standard input, else a file opened by `rt`.
    pub fn at(rt: H, input: T, place: Place) -> AnySource<H, T>
        ensures { result ≡ record { place = read_place place; faults = 0; held = false } }
    {
        AnySource {
            reader: match place {
                Place::Input => Reader::Stream(StdSource::over(input)),
                Place::File(name) => Reader::File(FileSource::at(rt, name)),
                Place::Nothing | Place::Output | Place::Errors => Reader::Nowhere,
            },
        }
    }
}

impl<H: Files + Drop, T: Read + Drop> Source for AnySource<H, T> {
    ghost faults = { λ source. source.faults };

    // Where nothing is read it ends at once.
    fn take(&mut self, buf: &mut [u8]) -> Result<usize, Failed>
        ensures bound { ReadsAtMost result buf.new }
        ensures bytes { ReadConsumes None None result buf.new }
        ensures cause { HasCause self.old.faults self.new.faults result }
        ensures count { self.new.faults ≡ counted self.old.faults result }
        ensures place { self.new.place ≡ self.old.place }
        ensures unused { self.old.place ≡ Place.Nothing → result ≡ Ok 0 }
    {
        match &mut self.reader {
            Reader::Nowhere => Ok(0),
            Reader::Stream(source) => source.take(buf),
            Reader::File(source) => source.take(buf),
        }
    }
}
