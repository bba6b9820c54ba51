//! Lines and scripts, read.

use crate::{read_line, read_script};
use std::alloc::Global;
use std::test::Fail;

/// What a line says, as a text.
fn said(alloc: Global, line: &[u8]) -> Result<String, Fail> {
    Ok(match read_line(alloc, line) {
        Ok(None) => "nothing".to_string(alloc)?,
        Ok(Some(txn)) => format!(in alloc;
            "{:?} {} {} {} {:?}",
            txn.kind,
            txn.size,
            txn.addr,
            txn.count,
            txn.body.as_slice()
        )?,
        Err(fault) => format!(in alloc; "{fault:?}")?,
    })
}

/// How many transactions a script has, or its fault, as a text.
fn read(alloc: Global, text: &[u8]) -> Result<String, Fail> {
    if text.len() > 1 << 26 {
        return Ok("too long".to_string(alloc)?);
    }
    Ok(match read_script(alloc, text) {
        Ok(script) => format!(in alloc; "{} transactions", script.as_slice().len())?,
        Err(fault) => format!(in alloc; "{fault:?}")?,
    })
}

/// A line so many times, and an end.
fn lines(alloc: Global, count: u32, line: &str, end: &str) -> Result<String, Fail> {
    let mut text = String::new(alloc);
    for _ in 0..count {
        text.push_str(line)?;
    }
    text.push_str(end)?;
    Ok(text)
}

#[test]
fn lines_say(rt: HostRuntime) -> Result<(), Fail> {
    let alloc = rt.alloc();
    let rows: [(&[u8], &str); 62] = [
        (b"", "nothing"),
        (b"\r", "nothing"),
        (b" \t ", "nothing"),
        (b"#", "nothing"),
        (b" \t#rd 0 0 1", "nothing"),
        (b"#\0\xff", "nothing"),
        (b"\r\r", "Verb"),
        (b"\r#", "Verb"),
        (b"\0", "Verb"),
        (b"\xff", "Verb"),
        (b"rd\n0 0 1", "Verb"),
        (b"r", "Verb"),
        (b"rdd 0 0 1", "Verb"),
        (b"RD 0 0 1", "Verb"),
        (b"Verb", "Verb"),
        (b"rd", "Number"),
        (b"rd 0 0", "Number"),
        (b"rd 0 0 1 #", "Number"),
        (b"rd 0 0 1\r\r", "Number"),
        (b"rd 0 0 1\xa0", "Number"),
        (b"rd 0 0 zz", "Number"),
        (b"rd 0X10 0 1", "Number"),
        (b"rd 0x 0 1", "Number"),
        (b"rd +1 0 1", "Number"),
        (b"rd 000000000000000000000 0 1", "Number"),
        (b"rd 0x00000000000000000 0 1", "Number"),
        (b"rd 18446744073709551616 0 1", "Number"),
        (b"rd 99999999999999999999 9 1", "Number"),
        (b"wr 0 0x4g zz", "Number"),
        (b"rd 18446744073709551615 4 0", "Size"),
        (b"rd 4 9 0", "Size"),
        (b"wr 0 4 zz", "Size"),
        (b"wr 0 0 zz", "Data"),
        (b"wr 1 1 0", "Data"),
        (b"add 0 0 01020", "Data"),
        (b"wr 0 0 0x01", "Data"),
        (b"rd 1 1 0", "Length"),
        (b"rd 0xfff 0 257", "Length"),
        (b"wr 1 1 010203", "Length"),
        (b"add 1 0 0102", "Length"),
        (b"minu 1 3 01020304", "Length"),
        (b"rd 4095 1 1", "Aligned"),
        (b"rd 0x10000000000fff9 3 256", "Aligned"),
        (b"rd 4095 0 2", "Page"),
        (b"rd 0x100000000000ffc 2 2", "Page"),
        (b"rd 0x100000000000000 0 1", "Range"),
        (b"rd 18446744073709551615 0 1", "Range"),
        (
            b"rd 0xfffffffffff000 3 256",
            "Read 3 72057594037923840 256 []",
        ),
        (b"rd 0xffffffffffffff 0 1", "Read 0 72057594037927935 1 []"),
        (
            b"rd 3840 00000000000000000000 0x0100\r",
            "Read 0 3840 256 []",
        ),
        (b"\twr\t0x000000000000FF8  3 \t00112233445566778 ", "Data"),
        (
            b"\twr\t0x000000000000FF8  3 \t0011223344556677 ",
            "Write 3 4088 1 [0, 17, 34, 51, 68, 85, 102, 119]",
        ),
        (b"wp 010 1 aBCdEf09", "Posted 1 10 2 [171, 205, 239, 9]"),
        (b"add 0 0 01", "Atomic(Add) 0 0 1 [1]"),
        (b"and 0 0 01", "Atomic(And) 0 0 1 [1]"),
        (b"or 0 0 01", "Atomic(Or) 0 0 1 [1]"),
        (b"xor 0 0 01", "Atomic(Xor) 0 0 1 [1]"),
        (b"max 2 1 0102", "Atomic(Max) 1 2 1 [1, 2]"),
        (b"min 2 1 0102", "Atomic(Min) 1 2 1 [1, 2]"),
        (b"maxu 4 2 01020304", "Atomic(MaxU) 2 4 1 [1, 2, 3, 4]"),
        (b"minu 4 2 01020304", "Atomic(MinU) 2 4 1 [1, 2, 3, 4]"),
        (
            b"swap 8 3 0102030405060708",
            "Atomic(Swap) 3 8 1 [1, 2, 3, 4, 5, 6, 7, 8]",
        ),
    ];
    for (line, wanted) in rows {
        assert_eq!(rt; said(alloc, line)?.as_str(), wanted, "at {line:?}");
    }
    Ok(())
}

#[test]
fn scripts_are_read(rt: HostRuntime) -> Result<(), Fail> {
    let alloc = rt.alloc();
    let rows = [
        (0, "", "", "0 transactions"),
        (65536, "\n", "", "0 transactions"),
        (65535, "\n", "rd 0 0 1", "1 transactions"),
        (65536, "\n", "#", "Lines { count: 65537 }"),
        (1, "rd\n", "", "Line { line: 1, fault: Number }"),
        (65535, "#\r\n", "rd", "Line { line: 65536, fault: Number }"),
        (65537, "rd\n", "", "Lines { count: 65537 }"),
        (1024, "rd 0 0 256\r\n", "", "1024 transactions"),
        (1024, "rd 0 0 256\n", "#", "1024 transactions"),
        (
            1024,
            "rd 0 0 256\n",
            "\nwr 0 0 01",
            "Words { words: 262145 }",
        ),
        (
            1025,
            "rd 0 0 256\n",
            "rd 1 1 1",
            "Line { line: 1026, fault: Aligned }",
        ),
        (
            2,
            "wr 0x10 2 0102030405060708\nrd 0x10 2 2\r\n# twice\n",
            "\n",
            "4 transactions",
        ),
    ];
    for (count, line, end, wanted) in rows {
        let text = lines(alloc, count, line, end)?;
        assert_eq!(rt;
            read(alloc, text.as_bytes())?.as_str(),
            wanted,
            "at {count} of {line} and {end}"
        );
    }
    Ok(())
}

#[test]
fn bodies_are_read(rt: HostRuntime) -> Result<(), Fail> {
    let alloc = rt.alloc();
    let rows = [
        ("wr 0 0 ", 256, "1 transactions"),
        ("wr 0 0 ", 257, "Line { line: 1, fault: Length }"),
        ("wp 0 3 ", 2048, "1 transactions"),
        ("wp 0 3 ", 2056, "Line { line: 1, fault: Length }"),
        ("wr 0xf80 2 ", 128, "1 transactions"),
        ("wr 0xf80 2 ", 132, "Line { line: 1, fault: Page }"),
    ];
    for (head, count, wanted) in rows {
        let mut text = head.to_string(alloc)?;
        text.push_str(lines(alloc, count, "a5", "")?.as_str())?;
        assert_eq!(rt;
            read(alloc, text.as_bytes())?.as_str(),
            wanted,
            "at {count} of {head}"
        );
    }
    Ok(())
}
