use crate::PartKind::{BlockRange, ExtraLine, FieldCount, MissingLine, NotNumber};
use crate::{FixFault, PartFault, PartKind, part_is_read_back, put_part, read_fix, read_part};
use hg_base::FREE;
use hg_io::MemSink;
use std::alloc::Global;
use std::test::Fail;

fn is_bad_part(alloc: Global, text: &[u8], n: u32, line: u32, kind: PartKind) -> bool {
    text.len() <= 100 && read_part(alloc, text, n, 2).err() == Some(PartFault::Bad { line, kind })
}

fn is_bad_fix(alloc: Global, text: &[u8], line: u32, kind: PartKind) -> bool {
    text.len() <= 100 && read_fix(alloc, text, 7, 2).err() == Some(FixFault::Bad { line, kind })
}

#[test]
fn read_partitions(rt: HostRuntime) -> Result<(), Fail> {
    let plain = read_part(rt.alloc(), b"0\n0\n0\n1\n1\n1\n0\n", 7, 2)?;
    assert_eq!(rt; plain.slice(), [0, 0, 0, 1, 1, 1, 0].as_slice());
    let loose = read_part(rt.alloc(), b"% note\r\n 01\t\r\n\r\n%\n255", 2, 256)?;
    assert_eq!(rt; loose.slice(), [1, 255].as_slice());
    for (text, line, kind) in [
        (b"0\n0\n0\n1\n1\n1\n2\n".as_slice(), 7, BlockRange),
        (b"0\n0\n0\n1\n1\n1\n".as_slice(), 7, MissingLine),
        (b"0\n0\n0\n1\n1\n1\n\r".as_slice(), 8, MissingLine),
        (b"0\n0\n0\n1\n1\n1\n0\n\n0\n".as_slice(), 9, ExtraLine),
        (b"0\n1 x\n".as_slice(), 2, FieldCount),
        (b"0\n-1\n".as_slice(), 2, NotNumber),
        (b"0\n18446744073709551616\n".as_slice(), 2, BlockRange),
    ] {
        assert!(rt;
            is_bad_part(rt.alloc(), text, 7, line, kind),
            "line {line} {kind:?}"
        );
    }
    Ok(())
}

#[test]
fn read_fixes(rt: HostRuntime) -> Result<(), Fail> {
    let fixes = read_fix(rt.alloc(), b"0\n-1\n-1\n1\n-1\n-1\n1\n", 7, 2)?;
    assert_eq!(rt; fixes.slice(), [0, FREE, FREE, 1, FREE, FREE, 1].as_slice());
    for (text, line, kind) in [
        (b"0\n-2\n".as_slice(), 2, NotNumber),
        (b"0\n-01\n".as_slice(), 2, NotNumber),
        (b"0\n-0\n".as_slice(), 2, NotNumber),
        (b"0\n2\n".as_slice(), 2, BlockRange),
        (b"0\n-1 0\n".as_slice(), 2, FieldCount),
        (b"0\n-1\n-1\n1\n-1\n-1\n".as_slice(), 7, MissingLine),
        (b"0\n0\n0\n0\n0\n0\n0\n-1\n".as_slice(), 8, ExtraLine),
    ] {
        assert!(rt;
            is_bad_fix(rt.alloc(), text, line, kind),
            "line {line} {kind:?}"
        );
    }
    Ok(())
}

#[test]
fn written_partitions(rt: HostRuntime) -> Result<(), Fail> {
    part_is_read_back();
    let blocks = [0, 0, 10, 255];
    let mut sink = MemSink::of(rt.alloc(), 64, Vec::new(rt.alloc()), 3)?;
    put_part(&mut sink, &blocks)?;
    assert_eq!(rt; sink.got(), b"0\n0\n10\n255\n".as_slice());
    for (call, got) in [
        (1, b"".as_slice()),
        (2, b"0\n0".as_slice()),
        (3, b"0\n0\n10".as_slice()),
        (4, b"0\n0\n10\n25".as_slice()),
    ] {
        let mut failing = MemSink::of(rt.alloc(), 64, vec![in rt.alloc(); call]?, 3)?;
        assert_eq!(rt; put_part(&mut failing, &blocks).is_err(), true);
        assert_eq!(rt; failing.got(), got);
        assert_eq!(rt; failing.faults(), 1);
    }
    Ok(())
}
