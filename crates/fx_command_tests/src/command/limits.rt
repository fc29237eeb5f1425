//! Scripts at the edges of what a text may hold.
use super::*;
use std::thread::Builder;

/// A text of the same piece so many times, between two others.
fn repeated(
    alloc: Global,
    first: &[u8],
    piece: &[u8],
    times: usize,
    last: &[u8],
) -> Result<Vec<u8>, Fail> {
    let mut text = Vec::new(alloc);
    text.extend_from_slice(first)?;
    for _ in 0..times {
        text.extend_from_slice(piece)?;
    }
    text.extend_from_slice(last)?;
    Ok(text)
}

#[test]
fn limit_of_open_parentheses_is_100(rt: HostRuntime) -> Result<(), Fail> {
    let mut text = repeated(rt.alloc(), b"(main ", b"(handle ", 98, b"(raise 9)")?;
    for _ in 0..98 {
        text.extend_from_slice(b" e (pure e))")?;
    }
    text.extend_from_slice(b")")?;
    assert!(rt; prints(&rt, &text, ENDED, "fiber 0 succeeded 9\n"));

    let text = repeated(rt.alloc(), b"(main ", b"(handle ", 99, b"(raise 9)")?;
    assert!(rt; prints(&rt, &text, REFUSED, "refused 11 at 798\n"));
    Ok(())
}

#[test]
fn limit_of_a_text_is_65536_bytes(rt: HostRuntime) -> Result<(), Fail> {
    let script = b"(main (pure 5))";
    for (spaces, status, line) in [
        (65_521, ENDED, "fiber 0 succeeded 5\n"),
        (65_522, REFUSED, "refused 1 at 65536\n"),
        (70_000, REFUSED, "refused 1 at 65536\n"),
    ] {
        let text = repeated(rt.alloc(), script, b" ", spaces, b"")?;
        assert!(rt; prints(&rt, &text, status, line), "{spaces} spaces");
    }
    Ok(())
}

/// As much stack as a worker's thread has.
const SMALL_STACK: usize = 2 * 1024 * 1024;

/// Does a replay of this text print this line, and answer this status?
fn prints(rt: &impl Machine, text: &[u8], status: u8, line: &str) -> bool {
    match run_of(rt, "replay F", &[("F", whole(text))]) {
        Ok(ran) => ran.status == status && ran.out.as_slice() == line.as_bytes(),
        Err(_) => false,
    }
}

#[test]
fn seq_of_as_many_parts_as_a_text_holds_on_a_small_stack(rt: HostRuntime) -> Result<(), Fail> {
    let alloc = rt.alloc();
    let text = repeated(alloc, b"(main (seq", b"(pure 1)", 8190, b"))")?;
    assert!(rt; text.len() <= 65_536 && text.len() + 8 > 65_536);
    let own = rt.clone()?;
    let replay = Builder::new().stack_size(SMALL_STACK).spawn(
        &rt,
        move || prints(&own, &text, ENDED, "fiber 0 succeeded 1\n"),
    )?;
    assert!(rt; replay.join(&rt));
    Ok(())
}

/// The text of a `using` of so many resources, each with a name of three letters.
fn using_of(alloc: Global, resources: usize) -> Result<Vec<u8>, Fail> {
    let letters = b"abcdefghijklmnopqrstuvwxyz";
    let mut text = Vec::new(alloc);
    text.extend_from_slice(b"(main (using (")?;
    for n in 0..resources {
        text.push(b'(')?;
        text.push(letters[n / 676 % 26])?;
        text.push(letters[n / 26 % 26])?;
        text.push(letters[n % 26])?;
        text.extend_from_slice(b"(pure 1)(cede))")?;
    }
    text.extend_from_slice(b") (pure abc)))")?;
    Ok(text)
}

#[test]
fn using_of_3000_resources_on_a_small_stack(rt: HostRuntime) -> Result<(), Fail> {
    let alloc = rt.alloc();
    let text = using_of(alloc, 3_000)?;
    assert!(rt; text.len() <= 65_536);
    let own = rt.clone()?;
    let replay = Builder::new().stack_size(SMALL_STACK).spawn(
        &rt,
        move || prints(&own, &text, ENDED, "fiber 0 succeeded 1\n"),
    )?;
    assert!(rt; replay.join(&rt));
    Ok(())
}
