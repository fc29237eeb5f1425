//! Elements and words, and their texts.
use fx_svg::{Attribute, Key, Tag, Value, push_element, push_end_tag, push_start_tag, push_words};
use std::alloc::{AllocError, Global};
use std::test::Fail;

struct Row {
    words: &'static str,
    written: &'static str,
}

static ROWS: [Row; 5] = [
    Row {
        words: "",
        written: "",
    },
    Row {
        words: "a < b && \"c\" > 'd'",
        written: "a &lt; b &amp;&amp; &quot;c&quot; &gt; 'd'",
    },
    Row {
        words: "a\tb\r\nc",
        written: "a&#9;b&#13;&#10;c",
    },
    Row {
        words: "\0\u{1}\u{1f}\u{fffe}\u{ffff} \u{7f}\u{fffd}",
        written: "\u{fffd}\u{fffd}\u{fffd}\u{fffd}\u{fffd} \u{7f}\u{fffd}",
    },
    Row {
        words: "é 語 \u{1f600}",
        written: "é 語 \u{1f600}",
    },
];

#[test]
fn escapes_what_xml_names(rt: HostRuntime) -> Result<(), Fail> {
    for row in &ROWS {
        let mut text = String::new(rt.alloc());
        push_words(&mut text, row.words)?;
        assert!(rt; text.as_str() == row.written);
    }
    Ok(())
}

fn picture(alloc: Global) -> Result<String, AllocError> {
    let mut text = String::new(alloc);
    let size = [
        Attribute {
            key: Key::Width,
            value: Value::Number(18446744073709551615),
        },
        Attribute {
            key: Key::Class,
            value: Value::Words("a&b"),
        },
    ];
    push_start_tag(&mut text, Tag::Svg, &size)?;
    push_element(&mut text, Tag::Title, &[], "1 < 2")?;
    push_end_tag(&mut text, Tag::Svg)?;
    Ok(text)
}

#[test]
fn writes_elements(rt: HostRuntime) -> Result<(), Fail> {
    let wanted =
        "<svg width=\"18446744073709551615\" class=\"a&amp;b\"><title>1 &lt; 2</title>\n</svg>\n";
    assert!(rt; picture(rt.alloc())?.as_str() == wanted);
    Ok(())
}
