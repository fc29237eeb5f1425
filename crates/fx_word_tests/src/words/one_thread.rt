//! Two fibers on one thread.
ghost use Rattle.std.specs.Prelude.{◌<◌};
ghost use Rattle.fx_word.specs.Words.{IsOf};

use super::begin_of;
use fx_term::{Memory, Outcome};
use fx_word::{WordSeat, Words};
use std::alloc::Global;
use std::test::Fail;

/// The stamp of a request that a fiber finds before and after it is made, and the end that is peeked before
/// and after it is made, with its stamp.
type Told = (
    (Option<u64>, Option<u64>),
    (Option<(Outcome, u64)>, Option<(Outcome, u64)>),
);

fn told_of_child(alloc: Global) -> Result<Told, Memory> {
    let (words, mut main) = Words::new(alloc, 3)?;
    let mut child = words.split(&mut main, 1, &begin_of(alloc, 1));
    let before = words.look(&mut child);
    words.request(&mut main, 1, 4);
    let after = words.look(&mut child);
    let running = words.peek(&mut main, 1);
    words.finish(&mut child, Outcome::Canceled, 6);
    let ended = words.peek(&mut main, 1);
    Ok(((before, after), (running, ended)))
}

#[test]
fn request_is_seen_and_end_is_peeked(rt: HostRuntime) -> Result<(), Fail> {
    let told = told_of_child(rt.alloc())?;
    assert_eq!(rt;
        told,
        ((None, Some(4)), (None, Some((Outcome::Canceled, 6))))
    );
    Ok(())
}

/// The greatest stamp that a word holds.
const TOP: u64 = u64::MAX;

/// What the row shows, the stamps of a fiber's requests in order, and the stamp that it finds then.
type Row = (&'static str, &'static [u64], Option<u64>);

static REQUESTS: [Row; 9] = [
    ("nobody requests it", &[], None),
    ("the greatest comes first", &[9, 4], Some(9)),
    ("the greatest comes last", &[4, 9], Some(9)),
    ("from outside", &[0], Some(0)),
    ("from outside, and then by a fiber", &[0, 7], Some(7)),
    ("by a fiber, and then from outside", &[7, 0], Some(7)),
    ("the highest bit stays", &[1 << 63, 5], Some(1 << 63)),
    ("next to the top", &[TOP - 1], Some(TOP - 1)),
    ("the top", &[TOP, TOP - 1], Some(TOP)),
];

/// Requests the fiber 1 with each of these stamps.
fn request_with_each(words: &Words, seat: &mut WordSeat, stamps: &[u64])
    requires { IsOf seat.old words.now × (1 < words.now.fibers) }
    ensures { IsOf seat.new words.now }
{
    'requesting: for &stamp in stamps {
        words.request(seat, 1, stamp);
    }
}

/// The stamp that a fiber finds after such requests by another one. Nobody requests its neighbour,
/// which finds none.
fn stamp_found(alloc: Global, stamps: &[u64]) -> Result<(Option<u64>, Option<u64>), Memory> {
    let (words, mut main) = Words::new(alloc, 3)?;
    let mut child = words.split(&mut main, 1, &begin_of(alloc, 1));
    let mut neighbour = words.split(&mut main, 2, &begin_of(alloc, 2));
    request_with_each(&words, &mut main, stamps);
    let found = words.look(&mut child);
    Ok((found, words.look(&mut neighbour)))
}

#[test]
fn look_finds_the_greatest_stamp_of_the_requests(rt: HostRuntime) -> Result<(), Fail> {
    for &(shows, stamps, found) in &REQUESTS {
        assert!(rt;
            stamp_found(rt.alloc(), stamps)? == (found, None),
            "{}",
            shows
        );
    }
    Ok(())
}

/// How a fiber ends, on words that had nothing before.
fn end_as_peeked(
    alloc: Global,
    outcome: Outcome,
    stamp: u64,
) -> Result<(Option<u64>, Option<(Outcome, u64)>), Memory> {
    let (words, mut main) = Words::new(alloc, 1)?;
    words.finish(&mut main, outcome, stamp);
    let requested = words.look(&mut main);
    let ended = words.peek(&mut main, 0);
    words.close(main);
    Ok((requested, ended))
}

static ENDS: [(Outcome, u64); 6] = [
    (Outcome::Succeeded(0), 1),
    (Outcome::Succeeded(u64::MAX), 2),
    (Outcome::Errored(0), 1 << 63),
    (Outcome::Errored(7), TOP - 1),
    (Outcome::Canceled, TOP),
    (Outcome::Canceled, 3),
];

#[test]
fn each_end_is_peeked_with_its_stamp_and_requests_nobody(rt: HostRuntime) -> Result<(), Fail> {
    for &(outcome, stamp) in &ENDS {
        assert_eq!(rt;
            end_as_peeked(rt.alloc(), outcome, stamp)?,
            (None, Some((outcome, stamp)))
        );
    }
    Ok(())
}
