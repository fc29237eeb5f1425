//! Schedules, and what the language says of each.
use crate::repeated::repeated;
use fx_text::{Pick, schedule};
use std::test::Fail;

/// Schedules, and their picks.
const SPELLED: [(&[u8], &[Pick]); 7] = [
    (b"", &[]),
    (b" \t\r\n", &[]),
    (
        b"0 c1 12",
        &[Pick::Step(0), Pick::Cancel(1), Pick::Step(12)],
    ),
    (b"\nc2\t\r3 \n", &[Pick::Cancel(2), Pick::Step(3)]),
    (b"007 c00", &[Pick::Step(7), Pick::Cancel(0)]),
    (b"4294967295", &[Pick::Step(4294967295)]),
    (b"c4294967295", &[Pick::Cancel(4294967295)]),
];

/// Texts that are refused, the number of the fault's kind, and the byte that it is at.
const REFUSED: [(&[u8], u8, u32); 21] = [
    (b"1 2X", 2, 3),
    (b"1 (2)", 2, 2),
    (b"1 -2", 2, 2),
    (b"1\x0b2", 2, 1),
    (b"1 c\0", 2, 3),
    (b"xy!", 2, 2),
    (b"4294967296!", 2, 10),
    (b"4294967296", 3, 0),
    (b"1 c4294967296", 3, 2),
    (b"1 18446744073709551617", 3, 2),
    (b"0004294967296 c", 3, 0),
    (b"1 x", 6, 2),
    (b"c", 6, 0),
    (b"1 c 2", 6, 2),
    (b"cc1", 6, 0),
    (b"1c", 6, 0),
    (b"12a", 6, 0),
    (b"c1c", 6, 0),
    (b"4294967296a", 6, 0),
    (b"c4294967296a", 6, 0),
    (b"x 4294967296 !", 6, 0),
];

/// The number of the fault's kind and where it is, or how many picks there are.
fn read(rt: &HostRuntime, text: &[u8]) -> Result<usize, (u8, u32)> {
    match schedule(rt.alloc(), text) {
        Ok(picks) => Ok(picks.len()),
        Err(fault) => Err((fault.number(), fault.at)),
    }
}

#[test]
fn reads_picks(rt: HostRuntime) -> Result<(), Fail> {
    for (text, picks) in SPELLED {
        assert_eq!(rt; schedule(rt.alloc(), text)?.as_slice(), picks);
    }
    Ok(())
}

#[test]
fn refuses_what_is_no_schedule(rt: HostRuntime) {
    for (text, kind, at) in REFUSED {
        assert_eq!(rt; read(&rt, text), Err((kind, at)));
    }
}

#[test]
fn limits_the_bytes_of_a_schedule(rt: HostRuntime) -> Result<(), Fail> {
    let alloc = rt.alloc();
    assert_eq!(rt;
        read(&rt, &repeated(alloc, b"7", b" ", 2097151, b"")?),
        Ok(1)
    );
    assert_eq!(rt;
        read(&rt, &repeated(alloc, b"x", b" ", 2097152, b"")?),
        Err((1, 2097152))
    );
    Ok(())
}

#[test]
fn limits_the_words_of_a_schedule(rt: HostRuntime) -> Result<(), Fail> {
    let alloc = rt.alloc();
    assert_eq!(rt;
        read(&rt, &repeated(alloc, b"", b"c1 ", 100000, b"\n")?),
        Ok(100000)
    );
    let cases: [(usize, &[u8], (u8, u32)); 4] = [
        (100000, b"c1", (9, 300000)),
        (100000, b"c!", (9, 300000)),
        (99999, b"c! c1", (2, 299998)),
        (99999, b"c1 \n c1", (9, 300002)),
    ];
    for (times, last, refused) in cases {
        let text = repeated(alloc, b"", b"c1 ", times, last)?;
        assert_eq!(rt; read(&rt, &text), Err(refused));
    }
    Ok(())
}

/// How many picks the first bytes of `0 c1 12` spell, none of them first, or why they spell none.
static CUT: [Result<usize, (u8, u32)>; 8] = [
    Ok(0),
    Ok(1),
    Ok(1),
    Err((6, 2)),
    Ok(2),
    Ok(2),
    Ok(3),
    Ok(3),
];

#[test]
fn reads_the_first_bytes_of_a_schedule(rt: HostRuntime) {
    let text = b"0 c1 12";
    for (len, &answer) in CUT.iter().enumerate() {
        assert_eq!(rt; read(&rt, &text[..len.min(text.len())]), answer);
    }
}
