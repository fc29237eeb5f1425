//! Who hears how far a search has come.
use super::*;

/// A search of it goes on from four states: nobody has stepped, the queue is full, main has ended before that, or after.
const SCRIPT: &[u8] = b"(queue q 1) (main (start h (offer q 1) (offer q 2)))";

/// Hears turns, and how many.
#[derive(Drop)]
struct Listener {
    turns: usize,
    is_in_order: bool,
}

impl Progress for Listener {
    ghost hears = { λ old so_far new. Unit {0} };

    fn tell(&mut self, so_far: SoFar) {
        let is_next = so_far.expanded == self.turns && so_far.expanded < so_far.met;
        self.is_in_order = self.is_in_order && is_next;
        self.turns = self.turns.saturating_add(1);
    }
}

/// Words, how many turns are heard, and the status.
static HEARD: [(&str, usize, u8); 8] = [
    ("explore F", 0, 1),
    ("explore F progress", 4, 1),
    ("explore F 1 progress", 1, 6),
    ("explore F expect E progress", 4, 1),
    ("explore F expect E", 0, 1),
    ("explore F progress progress", 0, 2),
    ("explore F progress expect E", 0, 2),
    ("replay F progress", 0, UNREADABLE),
];

#[test]
fn turns_are_heard_where_that_is_asked_for(rt: HostRuntime) -> Result<(), Fail> {
    let texts = [("F", whole(SCRIPT)), ("E", whole(b""))];
    for &(words, turns, status) in &HEARD {
        let mut listener = Listener {
            turns: 0,
            is_in_order: true,
        };
        let ran = run_heard(&rt, words, &texts, &mut listener)?;
        assert!(rt;
            ran.status == status && ran.err.is_empty() == (status < 2 || status == 6),
            "{words}"
        );
        assert!(rt; listener.is_in_order && listener.turns == turns, "{words}");
    }
    Ok(())
}
