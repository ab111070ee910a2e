//! The text and the number of each status.

use hg_io::MemSink;
use hmetis_read::{LineKind, What};
use part_run::{Status, put_status};
use part_text::PartKind;
use std::alloc::Global;
use std::test::Fail;

/// A status, the number that the program ends with, and its text.
#[derive(Clone, Copy)]
struct Told<'a> {
    status: Status,
    code: u8,
    text: &'a str,
}

const TOLD: &[Told<'static>] = &[
    Told {
        status: Status::Done,
        code: 0,
        text: "",
    },
    Told {
        status: Status::Usage,
        code: 2,
        text: "\
            usage: hgpart partition GRAPH K EPS [seed=N] [workers=N] [out=NAME] [cost=km1|cut|soed] [fix=NAME] [mode=det] [cycles=N]\n\
            usage: hgpart evaluate GRAPH PART K EPS [cost=km1|cut|soed]\nusage: hgpart generate N\n\
            usage: hgpart selfrun N K\n",
    },
    Told {
        status: Status::Malformed {
            line: 3,
            kind: LineKind::PinRange,
        },
        code: 3,
        text: "malformed: line 3: PinRange\n",
    },
    Told {
        status: Status::TooLarge {
            line: 0,
            what: What::Words,
        },
        code: 4,
        text: "too large: line 0: Words\n",
    },
    Told {
        status: Status::Unplaced { vertex: 5 },
        code: 5,
        text: "unplaced: vertex 5\n",
    },
    Told {
        status: Status::ReadFault,
        code: 6,
        text: "read fault\n",
    },
    Told {
        status: Status::WriteFault,
        code: 7,
        text: "write fault\n",
    },
    Told {
        status: Status::NoMemory,
        code: 8,
        text: "no memory\n",
    },
    Told {
        status: Status::BadPartition {
            line: 7,
            kind: PartKind::BlockRange,
        },
        code: 9,
        text: "bad partition: line 7: BlockRange\n",
    },
    Told {
        status: Status::BadFix {
            line: 2,
            kind: PartKind::NotNumber,
        },
        code: 10,
        text: "bad fix: line 2: NotNumber\n",
    },
];

/// Whether the status has its number, and its text is sent whole in pieces of seven bytes.
fn is_told(alloc: Global, told: &Told<'_>) -> Result<bool, Fail> {
    let mut sink = MemSink::of(alloc, 1_000, Vec::new(alloc), 7)?;
    let sent = put_status(&mut sink, &told.status).is_ok();
    Ok(sent && sink.got() == told.text.as_bytes() && told.status.code() == told.code)
}

#[test]
fn texts_of_statuses(rt: HostRuntime) -> Result<(), Fail> {
    for told in TOLD {
        assert!(rt; is_told(rt.alloc(), told)?, "{}", told.text);
    }
    Ok(())
}
