//! The forms of the nodes of small scripts, in the order in which the reader makes nodes: those of the parts of a form before
//! its own.
use fx_places::{FormPlace, PlaceFault, places};
use fx_text::parse;
use std::alloc::{AllocError, Global};
use std::test::Fail;

struct Row {
    script: &'static [u8],
    /// Of each node the word of its form, and its line and column.
    forms: &'static str,
}

static ROWS: [Row; 31] = [
    Row {
        script: b"(main (pure 5))",
        forms: "pure 1:7;",
    },
    Row {
        script: b"(main (raise 5))",
        forms: "raise 1:7;",
    },
    Row {
        script: b"(main (canceled))",
        forms: "canceled 1:7;",
    },
    Row {
        script: b"(main (never))",
        forms: "never 1:7;",
    },
    Row {
        script: b"(main (cede))",
        forms: "cede 1:7;",
    },
    Row {
        script: b"(main (seq (pure 1)))",
        forms: "pure 1:12;",
    },
    Row {
        script: b"(main (seq (pure 1) (raise 2)))",
        forms: "pure 1:12; raise 1:21; seq 1:7;",
    },
    Row {
        script: b"(main (seq (pure 1) (raise 2) (cede)))",
        forms: "pure 1:12; raise 1:21; cede 1:31; seq 1:7; seq 1:7;",
    },
    Row {
        script: b"(main (let x (pure 1) (raise x)))",
        forms: "pure 1:14; raise 1:23; let 1:7;",
    },
    Row {
        script: b"(main (handle (raise 1) e (pure e)))",
        forms: "raise 1:15; pure 1:27; handle 1:7;",
    },
    Row {
        script: b"(main (if 1 (pure 1) (raise 2)))",
        forms: "pure 1:13; raise 1:22; if 1:7;",
    },
    Row {
        script: b"(main (for i 3 (cede)))",
        forms: "cede 1:16; for 1:7;",
    },
    Row {
        script: b"(main (mask p (poll p (cede))))",
        forms: "cede 1:23; poll 1:15; mask 1:7;",
    },
    Row {
        script: b"(main (oncancel (cede) (pure 1)))",
        forms: "cede 1:17; pure 1:24; oncancel 1:7;",
    },
    Row {
        script: b"(main (bracket x (pure 1) (raise 2) (pure x)))",
        forms: "pure 1:18; raise 1:27; pure 1:37; bracket 1:7;",
    },
    Row {
        script: b"(main (bracketcase x (pure 1) (cede) (y (pure y)) (z (raise z)) (canceled)))",
        forms: "pure 1:22; cede 1:31; pure 1:41; raise 1:54; canceled 1:65; bracketcase 1:7;",
    },
    Row {
        script: b"(main (bracketcase x (pure 1) (cede) (pure (pure pure)) (seq (raise seq)) (never)))",
        forms: "pure 1:22; cede 1:31; pure 1:44; raise 1:62; never 1:75; bracketcase 1:7;",
    },
    Row {
        script: b"(main (guarantee (raise 5) (cede)))",
        forms: "raise 1:18; cede 1:28; guarantee 1:7; guarantee 1:7;",
    },
    Row {
        script: b"(main (forcer (raise 5) (cede)))",
        forms: "raise 1:15; forcer 1:7; forcer 1:7; cede 1:25; forcer 1:7;",
    },
    Row {
        script: b"(main (forcer (forcer (cede) (never)) (pure 1)))",
        forms: "cede 1:23; forcer 1:15; forcer 1:15; never 1:30; forcer 1:15; forcer 1:7; forcer 1:7; pure 1:39; forcer 1:7;",
    },
    Row {
        script: b"(main (using ((x (pure 1) (raise 2))) (cede)))",
        forms: "pure 1:18; raise 1:27; cede 1:39; using 1:7;",
    },
    Row {
        script: b"(main (using ((x (pure 1) (raise 2)) (using (pure x) (raise 3))) (cede)))",
        forms: "pure 1:18; raise 1:27; pure 1:45; raise 1:54; cede 1:66; using 1:7; using 1:7;",
    },
    Row {
        script: b"(main (start h (pure 1) (cancel h)))",
        forms: "pure 1:16; cancel 1:25; start 1:7;",
    },
    Row {
        script: b"(main (start h (cede) (join h (x (pure x)) (e (raise e)) (canceled))))",
        forms: "cede 1:16; pure 1:34; raise 1:47; canceled 1:58; join 1:23; start 1:7;",
    },
    Row {
        script: b"(main (start h (cede) (join h (never (let race (pure never) (pure race))) (join (raise join)) (canceled))))",
        forms: "cede 1:16; pure 1:48; pure 1:61; let 1:38; raise 1:81; canceled 1:95; join 1:23; start 1:7;",
    },
    Row {
        script: b"(main (start a (cede) (start b (never) (first a b))))",
        forms: "cede 1:16; never 1:32; first 1:40; start 1:23; start 1:7;",
    },
    Row {
        script: b"(queue q 1) (main (seq (offer q 1) (take q)))",
        forms: "offer 1:24; take 1:36; seq 1:19;",
    },
    Row {
        script: b"(queue q 1) (main (tryoffer q 1))",
        forms: "tryoffer 1:19;",
    },
    Row {
        script: b"(queue q 1) (main (trytake q x (pure x) (cede)))",
        forms: "pure 1:32; cede 1:41; trytake 1:19;",
    },
    Row {
        script: b"(queue q 1)\n(main\n  (seq (offer q 1)\r\n\t(take q)\n\n(cede)))",
        forms: "offer 3:8; take 4:2; cede 6:1; seq 3:3; seq 3:3;",
    },
    Row {
        script: b"( queue q 1 ) ( main ( let x\n( \n pure 1 )( raise x ) ) )",
        forms: "pure 2:1; raise 3:10; let 1:22;",
    },
];

/// The forms, in words.
fn shown(alloc: Global, places: &[FormPlace]) -> Result<String, AllocError> {
    let mut text = String::new(alloc);
    for place in places {
        let word = place.form.word();
        let line = place.position.line;
        let column = place.position.column;
        if text.len() > 0 {
            text.push(' ')?;
        }
        write!(text, "{word} {line}:{column};")?;
    }
    Ok(text)
}

/// The forms of the nodes of the text's code, in words; nothing where the text is no script, or there are no places.
fn forms_of(alloc: Global, text: &[u8]) -> Result<String, AllocError> {
    let Ok(script) = parse(alloc, text) else {
        return Ok(String::new(alloc));
    };
    match places(alloc, text, &script.code) {
        Ok(places) => shown(alloc, &places),
        Err(_) => Ok(String::new(alloc)),
    }
}

#[test]
fn each_node_has_its_form(rt: HostRuntime) -> Result<(), Fail> {
    for row in &ROWS {
        let forms = forms_of(rt.alloc(), row.script)?;
        assert!(rt; forms.as_str() == row.forms);
    }
    Ok(())
}

/// A race of two forms that are short for others.
static RACE: &[u8] = b"(main (race (guarantee (cede) (pure 1))\n(forcer (cede) (pure 2))))";

/// The forms of its parts.
static IN_RACE: &str =
    "cede 1:24; pure 1:31; guarantee 1:13; guarantee 1:13; cede 2:9; forcer 2:1; forcer 2:1; pure 2:16; forcer 2:1;";

/// How many nodes a race makes of its own.
const OF_RACE: usize = 47;

#[test]
fn race_is_the_form_of_all_that_it_is_short_for(rt: HostRuntime) -> Result<(), Fail> {
    let forms = forms_of(rt.alloc(), RACE)?;
    let mut all = String::from_str(rt.alloc(), IN_RACE)?;
    for _ in 0..OF_RACE {
        all.push_str(" race 1:7;")?;
    }
    assert!(rt; forms.as_str() == all.as_str());
    Ok(())
}

/// A text, and one of which it has not the code.
static UNFIT: [(&[u8], &[u8]); 5] = [
    (b"(main (pure 5))", b"(main (raise 5))"),
    (b"(main (seq (pure 5)))", b"(main (seq (pure 5) (pure 6)))"),
    (b"(main (seq (pure 5) (pure 6)))", b"(main (seq (pure 5)))"),
    (
        b"(main (guarantee (pure 5) (cede)))",
        b"(main (forcer (pure 5) (cede)))",
    ),
    (b"(main (pure 5)) )", b"(main (pure 5))"),
];

/// Whether the text is answered as one that does not fit the code of the other.
fn is_unfit(alloc: Global, text: &[u8], other: &[u8]) -> bool {
    if text.len() > 65_536 {
        return false;
    }
    match parse(alloc, other) {
        Ok(script) => matches!(places(alloc, text, &script.code), Err(PlaceFault::Unfit)),
        Err(_) => false,
    }
}

#[test]
fn text_of_another_code_does_not_fit(rt: HostRuntime) -> Result<(), Fail> {
    for (text, other) in &UNFIT {
        let is_unfit = is_unfit(rt.alloc(), text, other);
        assert!(rt; is_unfit);
    }
    Ok(())
}
