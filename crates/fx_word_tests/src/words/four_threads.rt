//! Four fibers, each on a thread of its own.
ghost use Rattle.std.specs.Prelude.{◌≡◌, ◌<◌, None};
ghost use Rattle.fx_word.specs.Words.{IsOf, joined_seat};
ghost use Rattle.fx_word_tests.specs.Fibers.{IsSameFiber};

use super::begin_of;
use fx_term::Outcome;
use fx_word::{WordSeat, Words};
use std::test::Fail;
use std::thread;
use std::thread::Threads;

const FIBERS: u32 = 4;

const TURNS: u32 = 4000;

/// What the fiber of this number ends with.
fn end_of(id: u32) -> Outcome {
    match id % 3 {
        0 => Outcome::Succeeded(u64::from(id) + 10),
        1 => Outcome::Errored(u64::from(id) + 20),
        _ => Outcome::Canceled,
    }
}

/// The stamp that the fiber of this number ends with.
fn end_stamp(id: u32) -> u64 {
    u64::from(id) + 30
}

/// Requests a fiber, with the stamp 1 more than its own number, if it is another one: so who finds a request
/// of its own was requested by others.
fn request_other(words: &Words, seat: &mut WordSeat, id: u32)
    requires words { IsOf seat.old words.now }
    requires below { id < words.now.fibers }
    ensures same { IsSameFiber seat.old seat.new }
    ensures running { seat.new.view.own.ended ≡ seat.old.view.own.ended }
{
    if id != seat.id() {
        let stamp = u64::from(seat.id()) + 1;
        words.request(seat, id, stamp);
    }
}

/// Requests a fiber, looks, and peeks. Whether what was learnt of the fiber's end, and the stamps that
/// were found, are right: a request's is at most the highest that there is.
fn take_turn(words: &Words, seat: &mut WordSeat, id: u32) -> bool
    requires words { IsOf seat.old words.now }
    requires below { id < words.now.fibers }
    ensures same { IsSameFiber seat.old seat.new }
    ensures running { seat.new.view.own.ended ≡ seat.old.view.own.ended }
{
    request_other(words, seat, id);
    let seen = match words.look(seat) {
        None => true,
        Some(stamp) => stamp > 0 && stamp <= 4,
    };
    match words.peek(seat, id) {
        None => seen,
        Some(found) => seen && found == (end_of(id), end_stamp(id)),
    }
}

/// All turns of a fiber, and its end.
fn run(words: &Words, mut seat: WordSeat) -> (WordSeat, bool)
    requires words { IsOf seat words.now }
    requires fibers { words.now.fibers ≡ 4 }
    requires running { seat.view.own.ended ≡ None }
    ensures { IsSameFiber seat result.0 }
{
    let mut right = true;
    'turning: for turn in 0..TURNS {
        let told = take_turn(words, &mut seat, turn % FIBERS);
        right = right && told;
    }
    let id = seat.id();
    words.finish(&mut seat, end_of(id), end_stamp(id));
    (seat, right)
}

/// Two seats, each with whether what it learnt was right.
type Two = ((WordSeat, bool), (WordSeat, bool));

fn run_two<R: Threads + Sync>(rt: &R, words: &Words, one: WordSeat, two: WordSeat) -> Two
    requires words { IsOf one words.now × IsOf two words.now }
    requires fibers { words.now.fibers ≡ 4 }
    requires running { (one.view.own.ended ≡ None) × (two.view.own.ended ≡ None) }
    ensures { IsSameFiber one result.0.0 × IsSameFiber two result.1.0 }
{
    thread::join(
        rt,
        move || -> (WordSeat, bool)
            requires { IsOf one words.now × (words.now.fibers ≡ 4) × (one.view.own.ended ≡ None) }
            ensures { IsSameFiber one result.0 }
        { run(words, one) },
        move || -> (WordSeat, bool)
            requires { IsOf two words.now × (words.now.fibers ≡ 4) × (two.view.own.ended ≡ None) }
            ensures { IsSameFiber two result.0 }
        { run(words, two) },
    )
}

fn run_four<R: Threads + Sync>(
    rt: &R,
    words: &Words,
    first: (WordSeat, WordSeat),
    second: (WordSeat, WordSeat),
) -> (Two, Two)
    requires words { IsOf first.0 words.now × IsOf first.1 words.now
        × IsOf second.0 words.now × IsOf second.1 words.now }
    requires fibers { words.now.fibers ≡ 4 }
    requires running { (first.0.view.own.ended ≡ None) × (first.1.view.own.ended ≡ None)
        × (second.0.view.own.ended ≡ None) × (second.1.view.own.ended ≡ None) }
    ensures { IsSameFiber first.0 result.0.0.0 × IsSameFiber first.1 result.0.1.0
        × IsSameFiber second.0 result.1.0.0 × IsSameFiber second.1 result.1.1.0 }
{
    let (main, one) = first;
    let (two, three) = second;
    thread::join(
        rt,
        move || -> Two
            requires { IsOf main words.now × IsOf one words.now × (words.now.fibers ≡ 4)
                × (main.view.own.ended ≡ None) × (one.view.own.ended ≡ None) }
            ensures { IsSameFiber main result.0.0 × IsSameFiber one result.1.0 }
        { run_two(rt, words, main, one) },
        move || -> Two
            requires { IsOf two words.now × IsOf three words.now × (words.now.fibers ≡ 4)
                × (two.view.own.ended ≡ None) × (three.view.own.ended ≡ None) }
            ensures { IsSameFiber two result.0.0 × IsSameFiber three result.1.0 }
        { run_two(rt, words, two, three) },
    )
}

/// The greatest stamp that this fiber was requested with by another one.
fn greatest_of_others(id: u32) -> u64 {
    if id == 3 { 3 } else { 4 }
}

/// Whether the seat finds the requests of its fiber, with their greatest stamp, and the end of each.
fn finds_all(words: &Words, seat: &mut WordSeat) -> bool
    requires words { IsOf seat.old words.now }
    requires fibers { words.now.fibers ≡ 4 }
    ensures { IsSameFiber seat.old seat.new }
{
    let mut found = words.look(seat) == Some(greatest_of_others(seat.id()));
    'finding: for id in 0..FIBERS {
        found = found && words.peek(seat, id) == Some((end_of(id), end_stamp(id)));
    }
    found
}

/// Whether what two seats learnt was right, and each of them finds the request of its fiber and the end
/// of each.
fn both_find_all(words: &Words, two: &mut Two) -> bool
    requires words { IsOf two.old.0.0 words.now × IsOf two.old.1.0 words.now }
    requires fibers { words.now.fibers ≡ 4 }
    ensures { IsSameFiber two.old.0.0 two.new.0.0 × IsSameFiber two.old.1.0 two.new.1.0 }
{
    let one = finds_all(words, &mut two.0.0);
    let other = finds_all(words, &mut two.1.0);
    one && other && two.0.1 && two.1.1
}

/// The first seat, which has taken the other one in.
fn gathered(words: &Words, two: Two) -> WordSeat
    requires words { IsOf two.0.0 words.now × IsOf two.1.0 words.now }
    ensures { result ≡ joined_seat two.0.0 two.1.0 }
{
    let ((mut seat, _), (other, _)) = two;
    words.gather(&mut seat, other);
    seat
}

/// Four fibers run, each of which requests the other three, and each seat finds what all of them did.
#[test]
fn each_seat_finds_all_requests_and_ends(rt: HostRuntime) -> Result<(), Fail> {
    let (words, mut main) = Words::new(rt.alloc(), FIBERS)?;
    let one = words.split(&mut main, 1, &begin_of(rt.alloc(), 1));
    let two = words.split(&mut main, 2, &begin_of(rt.alloc(), 2));
    let three = words.split(&mut main, 3, &begin_of(rt.alloc(), 3));
    let (mut first, mut second) = run_four(&rt, &words, (main, one), (two, three));
    let found = both_find_all(&words, &mut first) && both_find_all(&words, &mut second);
    assert!(rt; found);
    let mut main = gathered(&words, first);
    words.gather(&mut main, gathered(&words, second));
    words.close(main);
    Ok(())
}
