ghost use Rattle.std.specs.Prelude.{◌≤◌, length};

use crate::LineKind::{
    BadFormat, ExtraLine, FieldCount, HeaderCount, MissingLine, NoHeader, NotNumber, PinRange,
    WeightRange,
};
use crate::shares::read_shares;
use crate::{GraphFault, LineKind, What, read_hypergraph, read_with};
use hg_base::FlatHyper;
use std::alloc::Global;
use std::test::Fail;
use std::thread::Threads;

const FIRST: &[u8; 38] = b"4 7 1\n2 1 2\n3 1 7 5 6\n8 5 6 4\n7 2 3 4\n";

fn net_is(hyper: &FlatHyper, e: u32, weight: u64, pins: &[u32]) -> bool {
    e < hyper.nets() && hyper.net_weight(e) == weight && hyper.pins(e) == pins
}

fn weight_is(hyper: &FlatHyper, v: u32, weight: u64) -> bool {
    v < hyper.vertices() && hyper.vertex_weight(v) == weight
}

// Whether it has the seven vertices and four nets of the first file, the last net with these pins.
fn is_first(hyper: &FlatHyper, last: &[u32]) -> bool {
    hyper.vertices() == 7
        && hyper.nets() == 4
        && hyper.total_weight() == 7
        && net_is(hyper, 0, 2, &[0, 1])
        && net_is(hyper, 1, 3, &[0, 4, 5, 6])
        && net_is(hyper, 2, 8, &[3, 4, 5])
        && net_is(hyper, 3, 7, last)
}

fn is_bad(alloc: Global, text: &[u8], line: u32, kind: LineKind) -> bool {
    text.len() <= 100 && fault_of(alloc, text) == Some(GraphFault::Bad { line, kind })
}

fn is_large(alloc: Global, text: &[u8], line: u32, what: What) -> bool {
    text.len() <= 100 && fault_of(alloc, text) == Some(GraphFault::TooLarge { line, what })
}

fn fault_of(alloc: Global, text: &[u8]) -> Option<GraphFault>
    requires { length text.now ≤ 100 }
{
    read_hypergraph(alloc, text).err()
}

#[test]
fn spelt_files(rt: HostRuntime) -> Result<(), Fail> {
    let loose = b"% note\r\n\r\n4 7 01\r\n2 1 2\r\n \t3 1 7 5 6\r\n8 5 6 4\r\n7 2 3 4";
    let hyper = read_hypergraph(rt.alloc(), loose)?;
    assert_eq!(rt; is_first(&hyper, &[1, 2, 3]), true);
    let repeated = read_hypergraph(rt.alloc(), b"1 3\n3 3 3\n")?;
    assert_eq!(rt; repeated.nets(), 1);
    assert_eq!(rt; net_is(&repeated, 0, 1, &[2]), true);
    let empty = read_hypergraph(rt.alloc(), b"1 2 1\n5\n")?;
    assert_eq!(rt; net_is(&empty, 0, 5, &[]), true);
    let heavy = read_hypergraph(
        rt.alloc(),
        b"1 3 11\n4294967295 1 2 3\n4294967295\n4294967295\n4294967295\n",
    )?;
    assert_eq!(rt; heavy.total_weight(), 12_884_901_885);
    assert_eq!(rt; net_is(&heavy, 0, 4_294_967_295, &[0, 1, 2]), true);
    let weighted = read_hypergraph(rt.alloc(), b"0 5 10\n3\n3\n2\n2\n7\n")?;
    assert_eq!(rt; weight_is(&weighted, 1, 3), true);
    assert_eq!(rt; weight_is(&weighted, 4, 7), true);
    Ok(())
}

#[test]
fn faulty_files(rt: HostRuntime) {
    let alloc = rt.alloc();
    assert!(rt;
        is_bad(
            alloc,
            b"4 7 1\n2 1 2\n3 1 8 5 6\n8 5 6 4\n7 2 3 4\n",
            3,
            PinRange
        )
    );
    assert!(rt;
        is_bad(
            alloc,
            b"4 7 1\n2 1 2\n3 1 0 5 6\n8 5 6 4\n7 2 3 4\n",
            3,
            PinRange
        )
    );
    assert!(rt; is_bad(alloc, b"2 3\n1 2\n", 3, MissingLine));
    assert!(rt; is_bad(alloc, b"2 3\n1 2\n2 3\n1 3\n", 4, ExtraLine));
    assert!(rt; is_bad(alloc, b"", 1, NoHeader));
    assert!(rt; is_bad(alloc, b"% 1 2\n\n\r", 4, NoHeader));
    assert!(rt; is_bad(alloc, b"1 2 11\n4294967296 1\n1\n1\n", 2, WeightRange));
    assert!(rt; is_bad(alloc, b"1 2 11\n1 1\n4294967296\n1\n", 3, WeightRange));
    assert!(rt; is_bad(alloc, b"0 2 10\n1 x\n1\n", 2, FieldCount));
    assert!(rt; is_bad(alloc, b"1 2 1\nx 9\n", 2, NotNumber));
    assert!(rt; is_bad(alloc, b"1 2 3 x\n", 1, HeaderCount));
    assert!(rt; is_bad(alloc, b"1 2 2\n1 2\n", 1, BadFormat));
    assert!(rt; is_large(alloc, b"4194305 1\n", 1, What::Nets));
    assert!(rt; is_large(alloc, b"4194305 4194305\n", 1, What::Nets));
    assert!(rt; is_large(alloc, b"0 4194305\n", 1, What::Vertices));
}

// The answers for the first file cut after each number of bytes.
#[test]
fn cut_files(rt: HostRuntime) -> Result<(), Fail> {
    for (length, text) in (0..31).map(|length| (length, &FIRST[..length])) {
        let (line, kind) = match length {
            0 => (1, NoHeader),
            1 | 2 => (1, HeaderCount),
            3..=6 => (2, MissingLine),
            7..=12 => (3, MissingLine),
            13..=22 => (4, MissingLine),
            _ => (5, MissingLine),
        };
        assert!(rt; is_bad(rt.alloc(), text, line, kind), "{length}");
    }
    for length in 31..39 {
        let pins: &[u32] = match length {
            31 | 32 => &[],
            33 | 34 => &[1],
            35 | 36 => &[1, 2],
            _ => &[1, 2, 3],
        };
        let hyper = read_hypergraph(rt.alloc(), &FIRST[..length])?;
        assert!(rt; is_first(&hyper, pins), "{length}");
    }
    Ok(())
}

#[test]
fn hostile_bytes(rt: HostRuntime) {
    let alloc = rt.alloc();
    assert!(rt; is_bad(alloc, b"1 2\n1 2\0\n", 2, NotNumber));
    assert!(rt; is_bad(alloc, b"1 2\n1 2\r2\n", 2, NotNumber));
    assert!(rt;
        is_bad(
            alloc,
            b"1 2\n1 999999999999999999999999999999\n",
            2,
            PinRange
        )
    );
    assert!(rt;
        is_large(
            alloc,
            b"999999999999999999999999999999 2\n1 2\n",
            1,
            What::Nets
        )
    );
    assert!(rt;
        is_bad(
            alloc,
            b"1 2 999999999999999999999999999999\n1 2\n",
            1,
            BadFormat
        )
    );
    assert!(rt;
        is_bad(
            alloc,
            b"1 2 1\n999999999999999999999999999999 1 2\n",
            2,
            WeightRange
        )
    );
    assert!(rt; is_bad(alloc, b"4194304 4194304 11\n", 2, MissingLine));
}

// Whether three threads refuse a text, so that one is to read it from its start.
fn is_refused<R: Threads + Sync>(rt: &R, alloc: Global, text: &[u8]) -> bool {
    text.len() <= 100 && read_shares(rt, alloc, text, 3).is_none()
}

#[test]
fn shared_files(rt: HostRuntime) -> Result<(), Fail> {
    let loose = b"% note\r\n\r\n4 7 01\r\n2 1 2\r\n%\n\r\n \t3 1 7 5 6\r\n8 5 6 4\n % 9\n7 2 3 4";
    let hyper = read_shares(&rt, rt.alloc(), loose, 3).ok_or("refused by three")?;
    assert!(rt; is_first(&hyper, &[1, 2, 3]));
    let hyper = read_shares(&rt, rt.alloc(), FIRST, 8).ok_or("refused by eight")?;
    assert!(rt; is_first(&hyper, &[1, 2, 3]));
    let hyper = read_with(&rt, rt.alloc(), FIRST, 3)?;
    assert!(rt; is_first(&hyper, &[1, 2, 3]));
    let repeated = read_shares(&rt, rt.alloc(), b"2 4\n4 1 4 2\n3 3\n", 2).ok_or("refused by two")?;
    assert!(rt;
        repeated.nets() == 2 && net_is(&repeated, 0, 1, &[0, 1, 3]) && net_is(&repeated, 1, 1, &[2])
    );
    let bare = read_shares(&rt, rt.alloc(), b"0 3\n", 3).ok_or("refused without nets")?;
    assert!(rt; bare.vertices() == 3 && bare.nets() == 0);
    Ok(())
}

#[test]
fn refused_files(rt: HostRuntime) {
    let alloc = rt.alloc();
    assert!(rt; is_refused(&rt, alloc, b"2 2 10\n1 2\n1 2\n3\n4\n"));
    assert!(rt; is_refused(&rt, alloc, b"2 3\n1 2\n2 3\n1 3\n"));
    assert!(rt; is_refused(&rt, alloc, b"3 3\n1 2\n2 3\n"));
    assert!(rt; is_refused(&rt, alloc, b"3 3\n1 2\n2 3\n1 4\n"));
    assert!(rt; is_refused(&rt, alloc, b""));
}
