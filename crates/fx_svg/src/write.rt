//! Tags.
ghost use Rattle.std.specs.Prelude.{◌≡◌, ◌++◌, OnOk, string_bytes, map};
ghost use Rattle.std.specs.List.{flat_map};
ghost use Rattle.fx_svg.specs.Escaped.{escaped};
ghost use Rattle.fx_svg.specs.Content.{value_words, view_attribute, attribute_text, start_tag, end_tag, element, nothing, words, rendering};

use crate::attribute::{Attribute, Value};
use crate::escape::push_words;
use crate::tag::Tag;
use itoa::Buffer;
use std::alloc::AllocError;

/// Appends a value, escaped.
fn push_value(text: &mut String, value: Value<'_>) -> Result<(), AllocError>
    ensures { OnOk result (string_bytes text.new
        ≡ string_bytes text.old ++ escaped (value_words value.entry)) }
{
    match value {
        Value::Number(n) => push_words(text, Buffer::new().format(n)),
        Value::Words(words) => push_words(text, words),
    }
}

/// Appends a space, the name and the value.
fn push_attribute(text: &mut String, attribute: Attribute<'_>) -> Result<(), AllocError>
    ensures { OnOk result (string_bytes text.new
        ≡ string_bytes text.old ++ attribute_text (view_attribute attribute.entry)) }
{
    text.push(' ')?;
    text.push_str(attribute.key.name())?;
    text.push_str("=\"")?;
    push_value(text, attribute.value)?;
    text.push('"')
}

fn push_attributes(text: &mut String, attributes: &[Attribute<'_>]) -> Result<(), AllocError>
    ensures { OnOk result (string_bytes text.new
        ≡ string_bytes text.old ++ flat_map attribute_text (map view_attribute attributes.now)) }
{
    for attribute in attributes {
        push_attribute(text, *attribute)?;
    }
    Ok(())
}

/// Appends the start tag of an element with these attributes.
pub fn push_start_tag(
    text: &mut String,
    tag: Tag,
    attributes: &[Attribute<'_>],
) -> Result<(), AllocError>
    ensures { OnOk result (string_bytes text.new
        ≡ string_bytes text.old ++ start_tag tag (map view_attribute attributes.now)) }
{
    text.push('<')?;
    text.push_str(tag.name())?;
    push_attributes(text, attributes)?;
    text.push('>')
}

/// Appends the end tag of an element, and the end of the line.
pub fn push_end_tag(text: &mut String, tag: Tag) -> Result<(), AllocError>
    ensures { OnOk result (string_bytes text.new ≡ string_bytes text.old ++ end_tag tag) }
{
    text.push_str("</")?;
    text.push_str(tag.name())?;
    text.push_str(">\n")
}

/// Appends an element with these attributes, in which only these words stand.
pub fn push_element(
    text: &mut String,
    tag: Tag,
    attributes: &[Attribute<'_>],
    inside: &str,
) -> Result<(), AllocError>
    ensures { OnOk result (string_bytes text.new ≡ string_bytes text.old
        ++ rendering (element tag (map view_attribute attributes.now) (words inside.now))) }
{
    push_start_tag(text, tag, attributes)?;
    push_words(text, inside)?;
    push_end_tag(text, tag)
}

/// Appends an element with these attributes, in which nothing stands.
pub fn push_empty_element(
    text: &mut String,
    shape: Tag,
    attributes: &[Attribute<'_>],
) -> Result<(), AllocError>
    ensures { OnOk result (string_bytes text.new ≡ string_bytes text.old
        ++ rendering (element shape (map view_attribute attributes.now) nothing)) }
{
    push_start_tag(text, shape, attributes)?;
    push_end_tag(text, shape)
}
