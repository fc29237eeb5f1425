//! Readers and writers that fail.
use crate::full::Full;
use fx_plain::{ENDED, PlainFault, replay_text};
use std::alloc::Global;
use std::io;
use std::io::Read;
use std::process::Abort;

/// Gives a text byte by byte, and then this error, or its end.
#[derive(Drop)]
struct Slow<'a> {
    text: &'a [u8],
    error: Option<io::ErrorKind>,
}

impl Read for Slow<'_> {
    fn read(&mut self, buf: &mut [u8]) -> io::Result<usize> {
        let Some((first, rest)) = self.text.split_first() else {
            return match self.error {
                Some(error) => Err(io::Error::from(error)),
                None => Ok(0),
            };
        };
        if buf.is_empty() {
            return Ok(0);
        }
        buf[0] = *first;
        self.text = rest;
        Ok(1)
    }
}

/// Sees that nothing is written where the reader breaks off behind this text, and that this is told.
fn assert_unread(rt: &impl Abort, alloc: Global, text: &[u8], error: io::ErrorKind) {
    let mut reader = Slow {
        text,
        error: Some(error),
    };
    let mut printed = Vec::new(alloc);
    let fault = replay_text(alloc, &mut reader, &[], &mut printed);
    let given = text.len();
    assert_eq!(rt; fault, Err(PlainFault::Read), "after {given} bytes");
    assert!(rt; printed.is_empty(), "after {given} bytes");
}

#[test]
fn reader_that_fails_or_is_interrupted_leaves_nothing_written(rt: HostRuntime) {
    let script = b"(main (pure 5))";
    for error in [io::ErrorKind::Other, io::ErrorKind::Interrupted] {
        for given in 0..=15 {
            assert_unread(&rt, rt.alloc(), &script[..given], error);
        }
    }
}

/// Sees that a writer with so much room has that much of this text, and that this is told.
fn assert_prefix(rt: &impl Abort, alloc: Global, whole: &[u8], room: usize) {
    let mut reader = Slow {
        text: b"(main (pure 5))",
        error: None,
    };
    let mut writer = Full::new(alloc, room);
    let status = replay_text(alloc, &mut reader, &[], &mut writer);
    let wanted = if room < whole.len() {
        Err(PlainFault::Write)
    } else {
        Ok(ENDED)
    };
    assert_eq!(rt; status, wanted, "room for {room}");
    writer.assert_has(rt, whole);
}

#[test]
fn writer_that_fails_has_a_prefix_of_the_text(rt: HostRuntime) {
    for room in 0..=20 {
        assert_prefix(&rt, rt.alloc(), b"fiber 0 succeeded 5\n", room);
    }
}

#[test]
fn faults_have_their_numbers(rt: HostRuntime) {
    for (fault, number) in [
        (PlainFault::Read, 1),
        (PlainFault::Write, 2),
        (PlainFault::Memory, 3),
    ] {
        assert_eq!(rt; fault.number(), number);
    }
}
