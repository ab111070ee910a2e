ghost use Rattle.std.specs.Prelude.{◌≡◌, ◌<◌, None, IfOk, OnOk, length, true, false, is_some};
ghost use Rattle.std.specs.Io.{ReadsAtMost, WritesAtMost};
ghost use Rattle.std.specs.Io.KnownBytes.{Keeps, ReadConsumes, WriteAppends};
ghost use Rattle.hg_io.specs.Faults.{HasCause, counted};

use crate::answers::{flushed, put, taken};
use crate::{Failed, Name, Sink, Source};
use std::fs::File;
use std::io;
use std::io::{Read, Write};
use std::marker::Model;
use std::rt::Files;

/// A source over a file, which is opened at the first take. Contracts see
/// its name, whether it is open, and its faults.
#[derive(Drop)]
pub struct FileSource<H: Files + Drop> {
    rt: H,
    name: Name,
    file: Option<H::File>,
    faults: u64,
}

impl<H: Files + Drop> Model for FileSource<H> {
    ghost use Rattle.std.specs.Prelude.{false, is_some};
    ghost use Rattle.hg_io.specs.End.{Filed};

    ghost Value = { Filed };

    ghost view = { λ source. record {
      name = source.name;
      opened = is_some source.file;
      faults = source.faults;
      held = false;
    } };
}

impl<H: Files + Drop> FileSource<H> {
    /// A source that reads the file `name`.
    pub fn at(rt: H, name: Name) -> FileSource<H>
        ensures { result ≡ record { name = name; opened = false; faults = 0; held = false } }
    {
        FileSource {
            rt,
            name,
            file: None,
            faults: 0,
        }
    }
}

impl<H: Files + Drop> Source for FileSource<H> {
    ghost faults = { λ source. source.faults };

    // A failed opening is a fault too.
    fn take(&mut self, buf: &mut [u8]) -> Result<usize, Failed>
        ensures bound { ReadsAtMost result buf.new }
        ensures bytes { ReadConsumes None None result buf.new }
        ensures cause { HasCause self.old.faults self.new.faults result }
        ensures count { self.new.faults ≡ counted self.old.faults result }
        ensures name { self.new.name ≡ self.old.name }
        ensures opened { OnOk result (self.new.opened ≡ true) }
    {
        let answer = read_some(&self.rt, &self.name, &mut self.file, buf);
        taken(answer, &mut self.faults)
    }
}

// Reads from the file, which is opened where it isn't open yet.
fn read_some<H: Files>(
    rt: &H,
    name: &Name,
    slot: &mut Option<H::File>,
    buf: &mut [u8],
) -> io::Result<usize>
    ensures bound { ReadsAtMost result buf.new }
    ensures opened { OnOk result (is_some slot.new ≡ true) }
{
    let mut file = match slot.take() {
        Some(file) => file,
        None => File::open(rt, name.text())?,
    };
    let answer = file.read(buf);
    *slot = Some(file);
    answer
}

/// A sink over a file, which is made empty at the first put. Contracts see
/// its name, whether it is open, and its faults.
#[derive(Drop)]
pub struct FileSink<H: Files + Drop> {
    rt: H,
    name: Name,
    file: Option<H::File>,
    faults: u64,
    held: bool,
}

impl<H: Files + Drop> Model for FileSink<H> {
    ghost use Rattle.std.specs.Prelude.{is_some};
    ghost use Rattle.hg_io.specs.End.{Filed};

    ghost Value = { Filed };

    ghost view = { λ sink. record {
      name = sink.name;
      opened = is_some sink.file;
      faults = sink.faults;
      held = sink.held;
    } };
}

impl<H: Files + Drop> FileSink<H> {
    /// A sink that writes the file `name`.
    pub fn at(rt: H, name: Name) -> FileSink<H>
        ensures { result ≡ record { name = name; opened = false; faults = 0; held = false } }
    {
        FileSink {
            rt,
            name,
            file: None,
            faults: 0,
            held: false,
        }
    }
}

impl<H: Files + Drop> Sink for FileSink<H> {
    ghost faults = { λ sink. sink.faults };

    ghost held = { λ sink. sink.held };

    // A failed opening is a fault too, and so is a write that takes nothing of a piece.
    fn put(&mut self, piece: &[u8]) -> Result<usize, Failed>
        ensures bound { WritesAtMost result piece.now }
        ensures progress { IfOk result (λ n. 0 < length piece.now → 0 < n) }
        ensures bytes { WriteAppends None None result piece.now }
        ensures cause { HasCause self.old.faults self.new.faults result }
        ensures count { self.new.faults ≡ counted self.old.faults result }
        ensures name { self.new.name ≡ self.old.name }
        ensures opened { OnOk result (self.new.opened ≡ true) }
        ensures held { self.new.held ≡ true }
    {
        self.held = true;
        let answer = write_some(&self.rt, &self.name, &mut self.file, piece);
        put(answer, piece, &mut self.faults)
    }

    // A file that no put has opened stays as it is.
    fn flush(&mut self) -> Result<(), Failed>
        ensures bytes { Keeps None None }
        ensures cause { HasCause self.old.faults self.new.faults result }
        ensures sent { OnOk result (self.new.held ≡ false) }
        ensures count { self.new.faults ≡ counted self.old.faults result }
        ensures name { self.new.name ≡ self.old.name }
        ensures opened { self.new.opened ≡ self.old.opened }
    {
        let answer = match &mut self.file {
            Some(file) => file.flush(),
            None => Ok(()),
        };
        flushed(answer, &mut self.faults)?;
        self.held = false;
        Ok(())
    }
}

// Writes to the file, which is made empty where it isn't open yet.
fn write_some<H: Files>(
    rt: &H,
    name: &Name,
    slot: &mut Option<H::File>,
    piece: &[u8],
) -> io::Result<usize>
    ensures bound { WritesAtMost result piece.now }
    ensures opened { OnOk result (is_some slot.new ≡ true) }
{
    let mut file = match slot.take() {
        Some(file) => file,
        None => File::create(rt, name.text())?,
    };
    let answer = file.write(piece);
    *slot = Some(file);
    answer
}
