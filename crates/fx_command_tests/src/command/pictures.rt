//! Pictures of runs by workers: from which puts and ends arrows go, what fibers are called, where they stood, and how many
//! elements queues held.
use super::*;

/// The class of such an arrow, as the text names it, in 17 bytes; and that of one from an end to who learns of it.
const ARROW: &[u8] = b"class=\"arrow put\"";

const ARROW_OF_END: &[u8] = b"class=\"arrow end\"";

/// The class of the bar of a closed place, in 14 bytes.
const MASKED: &[u8] = b"class=\"masked\"";

/// How often the text has that class: once in the legend, and once for each arrow.
fn count(text: &[u8], arrow: &[u8]) -> usize {
    text.windows(17).filter(|piece| *piece == arrow).count()
}

/// How often it has the other one: once in the legend, and once for each bar.
fn count_masked(text: &[u8]) -> usize {
    text.windows(14).filter(|piece| *piece == MASKED).count()
}

/// Does the text have these words, of which there are some?
fn has(text: &[u8], words: &[u8]) -> bool {
    !words.is_empty() && text.windows(words.len()).any(|piece| piece == words)
}

/// Does the picture of a run of this script have that class so often, by some numbers of workers?
fn has_class(rt: &impl Machine, script: &[u8], times: usize) -> Result<bool, AllocError> {
    for line in ["picture-run F 1", "picture-run F 2", "picture-run F 4"] {
        let ran = run_of(rt, line, &[("F", whole(script))])?;
        if ran.status != ENDED || count(&ran.out, ARROW) != times {
            return Ok(false);
        }
    }
    Ok(true)
}

#[test]
fn arrows_come_from_only_puts_of_a_value(rt: HostRuntime) -> Result<(), Fail> {
    let script =
        b"(queue q 2) (main (start h (seq (offer q 7) (offer q 8)) (seq (take q) (take q))))";
    assert!(rt; has_class(&rt, script, 3)?);
    Ok(())
}

#[test]
fn value_of_two_queues_has_a_put_in_each(rt: HostRuntime) -> Result<(), Fail> {
    let script =
        b"(queue p 1) (queue q 1) (main (start h (seq (offer p 7) (offer q 7)) (seq (take p) (take q))))";
    assert!(rt; has_class(&rt, script, 3)?);
    Ok(())
}

#[test]
fn arrows_come_from_two_puts_of_a_value(rt: HostRuntime) -> Result<(), Fail> {
    let script =
        b"(queue q 2) (main (start h (seq (offer q 7) (offer q 7)) (seq (take q) (take q))))";
    assert!(rt; has_class(&rt, script, 3)?);
    Ok(())
}

#[test]
fn run_is_drawn_with_names_places_and_masks(rt: HostRuntime) -> Result<(), Fail> {
    let script =
        b"(queue q 1) (main (start reader (mask p (offer q 7)) (bracket x (take q) (pure x) (pure 0))))";
    let ran = run_of(&rt, "picture-run F 1", &[("F", whole(script))])?;
    assert!(rt; ran.status == ENDED);
    assert!(rt; has(&ran.out, b">fiber 1 reader<"));
    assert!(rt; has(&ran.out, b" start 1 at 1:19<"));
    assert!(rt; has(&ran.out, b" put q 7 at 1:41 closed holds 1<"));
    assert!(rt; has(&ran.out, b" got q 7 at 1:65 closed holds 0<"));
    assert!(rt; count_masked(&ran.out) == 4);
    Ok(())
}

#[test]
fn run_is_drawn_with_who_found_the_first_of_two(rt: HostRuntime) -> Result<(), Fail> {
    let script = b"(main (start a (pure 1) (start b (pure 2) (first a b))))";
    let ran = run_of(&rt, "picture-run F 1", &[("F", whole(script))])?;
    assert!(rt; ran.status == ENDED);
    assert!(rt; count(&ran.out, ARROW_OF_END) == 2);
    assert!(rt; has(&ran.out, b" ended succeeded 1 at 1:16<"));
    Ok(())
}

#[test]
fn run_is_drawn_with_counts_of_queues(rt: HostRuntime) -> Result<(), Fail> {
    let script = b"(queue q 2) (main (seq (offer q 7) (seq (offer q 8) (take q))))";
    let ran = run_of(&rt, "picture-run F 1", &[("F", whole(script))])?;
    assert!(rt; ran.status == ENDED);
    assert!(rt; has(&ran.out, b" put q 7 at 1:24 holds 1<"));
    assert!(rt; has(&ran.out, b" put q 8 at 1:41 holds 2<"));
    assert!(rt; has(&ran.out, b" got q 7 at 1:53 holds 1<"));
    Ok(())
}
