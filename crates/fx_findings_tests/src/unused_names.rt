//! A name that is used no more costs no state, whatever it stands for.
use fx_findings::{Nobody, explore};
use fx_text::parse;
use std::alloc::Global;
use std::test::Fail;

/// Two takers: what they take has a name that nothing uses, or none.
static TAKERS: (&[u8], &[u8]) = (
    b"(queue q 4) (main (start a (let x (take q) (seq (tryoffer q 5) (tryoffer q 6))) (start b (let x (take q)
        (seq (tryoffer q 5) (tryoffer q 6))) (seq (offer q 1) (offer q 2)))))",
    b"(queue q 4) (main (start a (seq (take q) (seq (tryoffer q 5) (tryoffer q 6))) (start b (seq (take q)
        (seq (tryoffer q 5) (tryoffer q 6))) (seq (offer q 1) (offer q 2)))))",
);

/// How many reports a script has, and from how many states the search goes on.
fn searched(alloc: Global, text: &[u8]) -> Result<(usize, usize), Fail> {
    let script = parse(alloc, text)?;
    let explored = explore(alloc, &script, None, 1000, &mut Nobody)?;
    Ok((explored.findings.len(), explored.states))
}

#[test]
fn a_name_that_nothing_uses_costs_no_state(rt: HostRuntime) -> Result<(), Fail> {
    let (named, nameless) = TAKERS;
    assert_eq!(rt;
        searched(rt.alloc(), named)?,
        searched(rt.alloc(), nameless)?
    );
    Ok(())
}
