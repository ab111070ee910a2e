use crate::{BadNumber, Lines, number, put_number, put_signed};
use hg_io::{MemSink, Pen};
use std::test::Fail;

#[test]
fn kept_lines(rt: HostRuntime) -> Result<(), Fail> {
    let text = b"% note\r\n\r\n4 7 01\r\n \t3\t1\r\n %\n8%\r\r\n\r";
    let mut lines = Lines::over(text);
    assert_eq!(rt; lines.count(), 7);
    let mut header = lines.next_kept().ok_or("no header")?;
    assert_eq!(rt; header.line(), 3);
    assert_eq!(rt; header.fields(), 3);
    assert_eq!(rt; header.next_field().ok_or("no field")?, b"4".as_slice());
    assert_eq!(rt; header.next_field().ok_or("no field")?, b"7".as_slice());
    assert_eq!(rt; header.next_field().ok_or("no field")?, b"01".as_slice());
    assert_eq!(rt; header.next_field().is_none(), true);
    let mut net = lines.next_kept().ok_or("no net")?;
    assert_eq!(rt; net.line(), 4);
    assert_eq!(rt; net.next_number(), Some(Ok(3)));
    assert_eq!(rt; net.next_number(), Some(Ok(1)));
    assert_eq!(rt; net.next_number(), None);
    let mut last = lines.next_kept().ok_or("no last line")?;
    assert_eq!(rt; last.line(), 6);
    assert_eq!(rt; last.next_field().ok_or("no field")?, b"8%\r".as_slice());
    assert_eq!(rt; lines.next_kept().is_none(), true);
    Ok(())
}

#[test]
fn numbers(rt: HostRuntime) {
    assert_eq!(rt; number(b"0007"), Ok(7));
    assert_eq!(rt;
        number(b"18446744073709551615"),
        Ok(18_446_744_073_709_551_615)
    );
    assert_eq!(rt; number(b"18446744073709551616"), Err(BadNumber::TooBig));
    assert_eq!(rt;
        number(b"999999999999999999999999999999"),
        Err(BadNumber::TooBig)
    );
    assert_eq!(rt; number(b"99999999999999999999x"), Err(BadNumber::NotDigits));
    assert_eq!(rt; number(b"-1"), Err(BadNumber::NotDigits));
    assert_eq!(rt; number(b"1 2"), Err(BadNumber::NotDigits));
    assert_eq!(rt; number(b""), Err(BadNumber::NotDigits));
}

#[test]
fn written_numbers(rt: HostRuntime) -> Result<(), Fail> {
    let mut sink = MemSink::of(rt.alloc(), 64, Vec::new(rt.alloc()), 3)?;
    let mut pen = Pen::new();
    put_number(&mut pen, &mut sink, 18_446_744_073_709_551_615)?;
    put_signed(&mut pen, &mut sink, -70)?;
    pen.end(&mut sink)?;
    assert_eq!(rt; sink.got(), b"18446744073709551615-70".as_slice());
    Ok(())
}
