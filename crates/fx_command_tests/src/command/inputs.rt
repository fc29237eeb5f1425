//! Texts that break off, and the numbers of what is told where one cannot be read.
use super::*;

/// The words of a call that names a text that breaks off, and what is said.
static UNREAD: [(&str, &str); 4] = [
    ("", "cannot read -\n"),
    ("check broken", "cannot read broken\n"),
    ("trace broken", "cannot read broken\n"),
    ("replay script broken", "cannot read broken\n"),
];

static TEXTS: [(&str, Text<'static>); 3] = [
    (
        "-",
        Text {
            left: b"(main",
            is_broken: true,
        },
    ),
    (
        "script",
        Text {
            left: b"(main (pure 5))",
            is_broken: false,
        },
    ),
    (
        "broken",
        Text {
            left: b"(main (pure 5))",
            is_broken: true,
        },
    ),
];

/// Sees that the call prints nothing, and says that.
fn assert_unread(rt: &impl Machine, words: &str, said: &str) -> Result<(), Fail> {
    let ran = run_of(rt, words, &TEXTS)?;
    assert!(rt; ran.has(UNREADABLE, b"", said.as_bytes()), "{words}");
    Ok(())
}

#[test]
fn text_that_breaks_off_is_named(rt: HostRuntime) -> Result<(), Fail> {
    for (words, said) in &UNREAD {
        assert_unread(&rt, words, said)?;
    }
    Ok(())
}

#[test]
fn faults_of_a_fetch_have_their_numbers(rt: HostRuntime) {
    assert_eq!(rt; FetchFault::Unreadable.number(), 1);
    assert_eq!(rt; FetchFault::Memory.number(), 2);
}
