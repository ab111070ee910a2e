use crate::{
    AnySink, AnySource, Failed, FileSink, FileSource, MemSink, MemSource, Name, Pen, Place,
    ReadEnd, Sink, Source, StdSink, StdSource, put_all, read_all,
};
use std::alloc::{AllocError, Global};
use std::io::{Error, ErrorKind, Read, Write};
use std::test::Fail;
use std::{env, fs, io, process};

// Neither reads nor writes.
#[derive(Drop)]
struct Broken;

impl Read for Broken {
    fn read(&mut self, _buf: &mut [u8]) -> io::Result<usize> {
        Err(Error::from(ErrorKind::Other))
    }
}

impl Write for Broken {
    fn write(&mut self, _buf: &[u8]) -> io::Result<usize> {
        Err(Error::from(ErrorKind::Other))
    }

    fn flush(&mut self) -> io::Result<()> {
        Err(Error::from(ErrorKind::Other))
    }
}

// Takes three bytes at a time and six in all, and fails when it is flushed.
#[derive(Drop)]
struct Stubborn {
    room: usize,
}

impl Write for Stubborn {
    fn write(&mut self, buf: &[u8]) -> io::Result<usize> {
        if self.room == 0 {
            return Err(Error::from(ErrorKind::Other));
        }
        let count = buf.len().min(3).min(self.room);
        self.room -= count;
        Ok(count)
    }

    fn flush(&mut self) -> io::Result<()> {
        Err(Error::from(ErrorKind::Other))
    }
}

fn source_of(alloc: Global, text: &[u8], fail: u32) -> Result<MemSource, AllocError> {
    Ok(MemSource::of(Vec::from_slice(alloc, text)?, vec![in alloc; fail]?, 5))
}

#[test]
fn reads_whole_inputs(rt: HostRuntime) -> Result<(), Fail> {
    let alloc = rt.alloc();
    let text = b"4 3\n1 2\n2 3\n";
    for (fail, max, want) in [
        (0, 12, Ok(12)),
        (0, 11, Err(ReadEnd::TooLong)),
        (0, 0, Err(ReadEnd::TooLong)),
        (1, 12, Err(ReadEnd::Fault)),
        (2, 12, Err(ReadEnd::Fault)),
        (3, 12, Err(ReadEnd::Fault)),
        (4, 12, Err(ReadEnd::Fault)),
        (5, 12, Ok(12)),
        (4, 11, Err(ReadEnd::TooLong)),
    ] {
        let mut source = source_of(alloc, text, fail)?;
        match read_all(alloc, &mut source, max) {
            Ok(bytes) => {
                assert_eq!(rt; bytes.as_slice(), text.as_slice());
                assert_eq!(rt; Ok(bytes.len()), want);
            }
            Err(end) => assert_eq!(rt; Err(end), want, "fails at {fail}, max {max}"),
        }
        assert_eq!(rt; source.faults(), u64::from(want == Err(ReadEnd::Fault)));
    }
    Ok(())
}

#[test]
fn takes_and_puts(rt: HostRuntime) -> Result<(), Fail> {
    let alloc = rt.alloc();
    let mut source = source_of(alloc, b"abcdefgh", 2)?;
    let mut buf = *b"........";
    assert_eq!(rt; source.take(&mut buf), Ok(5));
    assert_eq!(rt; source.take(&mut buf), Err(Failed));
    assert_eq!(rt; source.left(), b"fgh".as_slice());
    assert_eq!(rt; source.take(&mut buf), Ok(3));
    assert_eq!(rt; &buf, b"fghde...");
    assert_eq!(rt; source.take(&mut buf), Ok(0));

    let Ok(mut sink) = MemSink::of(alloc, 6, vec![in alloc; 2]?, 4) else {
        return Err(Fail::from("no memory"));
    };
    assert_eq!(rt; sink.put(b"abcde"), Ok(4));
    assert_eq!(rt; sink.put(b"efg"), Err(Failed));
    assert_eq!(rt; sink.put(b"efg"), Ok(2));
    assert_eq!(rt; sink.put(b"g"), Err(Failed));
    assert_eq!(rt; sink.put(b""), Ok(0));
    assert_eq!(rt; sink.flush(), Ok(()));
    assert_eq!(rt; sink.got(), b"abcdef".as_slice());
    assert_eq!(rt; sink.faults(), 2);
    Ok(())
}

#[test]
fn puts_prefixes(rt: HostRuntime) -> Result<(), Fail> {
    let alloc = rt.alloc();
    let text = b"0\n1\n0\n1\n1\n0\n1\n";
    for (fail, want) in [(1, 0), (2, 3), (3, 6), (4, 9), (5, 12), (6, 14)] {
        let Ok(mut sink) = MemSink::of(alloc, 20, vec![in alloc; fail]?, 3) else {
            return Err(Fail::from("no memory"));
        };
        assert_eq!(rt; put_all(&mut sink, text).is_ok(), want == 14);
        assert_eq!(rt; sink.got(), &text[..want]);
    }
    Ok(())
}

#[test]
fn pens_cross_their_room(rt: HostRuntime) -> Result<(), Fail> {
    let alloc = rt.alloc();
    for (first, second, sent) in [(4095, 1, 0), (4095, 2, 4095), (1, 5000, 5001)] {
        let mut text = vec![in alloc; b'x'; first]?;
        let more = vec![in alloc; b'y'; second]?;
        let mut sink = MemSink::of(alloc, 6000, vec![in alloc]?, 1000)?;
        let mut pen = Pen::new();
        assert_eq!(rt; pen.write(&mut sink, &text), Ok(()));
        assert_eq!(rt; pen.write(&mut sink, &more), Ok(()));
        assert_eq!(rt; sink.got().len(), sent);
        assert_eq!(rt; pen.end(&mut sink), Ok(()));
        text.extend_from_slice(&more)?;
        assert_eq!(rt; sink.got(), text.as_slice());
    }
    Ok(())
}

#[test]
fn streams_count_their_faults(rt: HostRuntime) -> Result<(), Fail> {
    let alloc = rt.alloc();
    let text = b"read and written";
    let mut source = StdSource::over(text.as_slice());
    let bytes = read_all(alloc, &mut source, 100)?;
    assert_eq!(rt; bytes.as_slice(), text.as_slice());
    let mut written = Vec::new(alloc);
    let mut sink = StdSink::over(&mut written);
    assert_eq!(rt; put_all(&mut sink, text), Ok(()));
    assert_eq!(rt; sink.flush(), Ok(()));
    drop(sink);
    assert_eq!(rt; written.as_slice(), text.as_slice());

    let mut buf = [0u8; 4];
    assert_eq!(rt; StdSource::over(Broken).take(&mut buf), Err(Failed));
    assert_eq!(rt; StdSink::over(Broken).put(b"lost"), Err(Failed));
    assert_eq!(rt; StdSink::over(Broken).flush(), Err(Failed));

    // A fault in the middle, and one that shows only at the flush.
    let mut sink = StdSink::over(Stubborn { room: 6 });
    assert_eq!(rt; put_all(&mut sink, b"sixsix"), Ok(()));
    assert_eq!(rt; sink.flush(), Err(Failed));
    let mut sink = StdSink::over(Stubborn { room: 6 });
    assert_eq!(rt; put_all(&mut sink, b"sevenxx"), Err(Failed));

    // This writer takes nothing once it is full.
    let mut full = StdSink::over(buf.as_mut_slice());
    assert_eq!(rt; full.put(b"fills"), Ok(4));
    assert_eq!(rt; full.put(b"s"), Err(Failed));
    assert_eq!(rt; full.put(b""), Ok(0));
    Ok(())
}

#[test]
fn closed_pipe_is_a_fault(rt: HostRuntime) -> Result<(), Fail> {
    let (reader, writer) = io::pipe(&rt)?;
    drop(reader);
    assert_eq!(rt; StdSink::over(writer).put(b"unread"), Err(Failed));
    Ok(())
}

fn write_file(rt: &HostRuntime, path: &str, pieces: &[&[u8]]) -> Result<(), Fail> {
    let place = Place::File(Name::of(rt.alloc(), path)?);
    let mut sink = AnySink::at(rt, Broken, Broken, place);
    for piece in pieces {
        put_all(&mut sink, piece)?;
    }
    sink.flush()?;
    Ok(())
}

fn read_file(rt: &HostRuntime, path: &str) -> Result<Vec<u8>, Fail> {
    let place = Place::File(Name::of(rt.alloc(), path)?);
    let mut source = AnySource::at(rt, Broken, place);
    Ok(read_all(rt.alloc(), &mut source, 100)?)
}

#[test]
fn files_are_read_and_written(rt: HostRuntime) -> Result<(), Fail> {
    let dir = env::temp_dir(&rt)?;
    let id = process::id(rt.process());
    let path = format!(in rt.alloc(); "{}/hg_io-{id}", dir.as_str())?;
    fs::write(&rt, path.as_str(), "an old and longer text")?;
    write_file(&rt, path.as_str(), &[b"a new", b" text", b" in pieces"])?;
    assert_eq!(rt;
        read_file(&rt, path.as_str())?.as_slice(),
        b"a new text in pieces".as_slice()
    );
    let mut sink = FileSink::at(&rt, Name::of(rt.alloc(), path.as_str())?);
    assert_eq!(rt; (sink.put(b"once"), sink.put(b"more")), (Ok(4), Ok(4)));
    drop(sink);
    let mut source = FileSource::at(&rt, Name::of(rt.alloc(), path.as_str())?);
    let bytes = read_all(rt.alloc(), &mut source, 100)?;
    assert_eq!(rt; bytes.as_slice(), b"oncemore".as_slice());
    drop(source);
    fs::remove_file(&rt, path.as_str())?;
    Ok(())
}

#[test]
fn places_are_read(rt: HostRuntime) -> Result<(), Fail> {
    let alloc = rt.alloc();
    let mut input = AnySource::at(&rt, b"text".as_slice(), Place::Input);
    assert_eq!(rt;
        read_all(alloc, &mut input, 100)?.as_slice(),
        b"text".as_slice()
    );
    let mut unread = AnySource::at(&rt, b"text".as_slice(), Place::Output);
    assert_eq!(rt; read_all(alloc, &mut unread, 100)?.len(), 0);
    let lost = Place::File(Name::of(alloc, "/no/such/file")?);
    let mut file = AnySource::at(&rt, b"text".as_slice(), lost);
    assert_eq!(rt; file.take(&mut [0u8; 4]), Err(Failed));
    Ok(())
}

#[test]
fn places_are_written(rt: HostRuntime) -> Result<(), Fail> {
    let (mut output, mut errors) = ([b'.'; 4], [b'.'; 4]);
    let place = Place::Output;
    let mut sink = AnySink::at(&rt, output.as_mut_slice(), errors.as_mut_slice(), place);
    assert_eq!(rt; sink.put(b"out"), Ok(3));
    drop(sink);
    let place = Place::Errors;
    let mut sink = AnySink::at(&rt, output.as_mut_slice(), errors.as_mut_slice(), place);
    assert_eq!(rt; sink.put(b"err"), Ok(3));
    assert_eq!(rt; sink.flush(), Ok(()));
    drop(sink);
    let place = Place::Nothing;
    let mut sink = AnySink::at(&rt, output.as_mut_slice(), errors.as_mut_slice(), place);
    assert_eq!(rt; sink.put(b"unwritten"), Ok(9));
    drop(sink);
    assert_eq!(rt; (&output, &errors), (b"out.", b"err."));
    let lost = Place::File(Name::of(rt.alloc(), "/no/such/file")?);
    assert_eq!(rt;
        AnySink::at(&rt, Broken, Broken, lost).put(b"text"),
        Err(Failed)
    );
    Ok(())
}
