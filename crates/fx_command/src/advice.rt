//! What is said of a word that is no word of a form.

/// The words of the forms of terms.
const FORMS: [&str; 27] = [
    "pure",
    "raise",
    "canceled",
    "never",
    "cede",
    "seq",
    "let",
    "handle",
    "if",
    "for",
    "mask",
    "poll",
    "oncancel",
    "bracket",
    "bracketcase",
    "guarantee",
    "forcer",
    "using",
    "start",
    "join",
    "cancel",
    "first",
    "race",
    "offer",
    "take",
    "tryoffer",
    "trytake",
];

/// Names of Cats Effect, each with what it is here.
const ELSEWHERE: [(&str, &str); 45] = [
    ("adaptError", "write `handle`, with a `raise` in it"),
    ("async", "there are no callbacks here"),
    ("attempt", "write `handle`"),
    ("background", "write `start`, and `cancel` in a `guarantee`"),
    ("blocking", "write `fibers run F WORKERS`"),
    ("both", "write `start` for each, and `join`"),
    ("bracketCase", "write `bracketcase`"),
    ("bracketFull", "write `bracket`"),
    ("Deferred", "write a queue of one"),
    ("delay", "there are no effects of other kinds here"),
    ("evalOn", "write `fibers run F WORKERS`"),
    ("flatMap", "write `let`"),
    ("flatTap", "write `let`"),
    ("forceR", "write `forcer`"),
    ("foreverM", "write `for`, with a count"),
    ("guaranteeCase", "write `bracketcase`"),
    ("handleError", "write `handle`"),
    ("handleErrorWith", "write `handle`"),
    ("ifM", "write `if`"),
    ("IO", "write the form alone"),
    ("iterateUntil", "write `for`, with a count"),
    ("iterateWhile", "write `for`, with a count"),
    ("joinWith", "write `join`"),
    ("joinWithNever", "write `join`"),
    ("map", "write `let`"),
    ("onCancel", "write `oncancel`"),
    ("onError", "write `handle`, with a `raise` in it"),
    ("parTraverse", "write `start` for each, and `join`"),
    ("raceOutcome", "write `start` for each, and `first`"),
    ("racePair", "write `start` for each, and `first`"),
    ("raiseError", "write `raise`"),
    ("recoverWith", "write `handle`"),
    ("redeem", "write `handle`"),
    ("Ref", "write a queue of one"),
    ("replicateA", "write `for`"),
    ("Resource", "write `using`"),
    ("Semaphore", "write a queue of permits"),
    ("sleep", "there is no time here"),
    ("Supervisor", "write `start`, and `cancel` in a `guarantee`"),
    ("timeout", "there is no time here; write `race`"),
    ("timeoutTo", "there is no time here; write `race`"),
    ("tryOffer", "write `tryoffer`"),
    ("tryTake", "write `trytake`"),
    ("uncancelable", "write `mask`"),
    ("unit", "write `(pure 0)`"),
];

/// What to write in the place of a name of Cats Effect, if the word is one.
pub(crate) fn instead_of(word: &[u8]) -> Option<&'static str> {
    let entry = ELSEWHERE.iter().find(|entry| entry.0.as_bytes() == word)?;
    Some(entry.1)
}

/// What is left of two words after the bytes at the front that they have in common.
fn without_front<'a>(word: &'a [u8], other: &'a [u8]) -> (&'a [u8], &'a [u8]) {
    let mut left = word;
    let mut right = other;
    while let ([a, left_more @ ..], [b, right_more @ ..]) = (left, right) {
        if a != b {
            return (left, right);
        }
        left = left_more;
        right = right_more;
    }
    (left, right)
}

/// What is left of two words before the bytes at the back that they have in common.
fn without_back<'a>(word: &'a [u8], other: &'a [u8]) -> (&'a [u8], &'a [u8]) {
    let mut left = word;
    let mut right = other;
    while let ([left_more @ .., a], [right_more @ .., b]) = (left, right) {
        if a != b {
            return (left, right);
        }
        left = left_more;
        right = right_more;
    }
    (left, right)
}

/// Whether one letter more, less or other, or two letters swapped, make the one word of the other.
fn is_near(word: &[u8], other: &[u8]) -> bool {
    let (word, other) = without_front(word, other);
    match without_back(word, other) {
        ([], [_]) | ([_], []) | ([_], [_]) => true,
        ([a, b], [c, d]) => a == d && b == c,
        _ => false,
    }
}

/// The word of a form that this one is nearly.
pub(crate) fn near_form(word: &[u8]) -> Option<&'static str> {
    FORMS
        .iter()
        .copied()
        .find(|form| is_near(word, form.as_bytes()))
}
