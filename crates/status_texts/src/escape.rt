//! Names as they stand in the texts.

ghost use Rattle.std.specs.Prelude.{◌≡◌, ◌++◌, string_bytes, IfOk, OnOk};
ghost use Rattle.status_texts.specs.Escapes.{escape_of, escaped, label, label_escape_of};

use std::alloc::{AllocError, Global};

/// Puts a character behind the rest, as it stands in HTML.
fn push_escape(text: &mut String, c: char) -> Result<(), AllocError>
    ensures { OnOk result (string_bytes text.new ≡ string_bytes text.old ++ escape_of c) }
{
    match c {
        '&' => text.push_str("&amp;"),
        '<' => text.push_str("&lt;"),
        '>' => text.push_str("&gt;"),
        '"' => text.push_str("&quot;"),
        '\'' => text.push_str("&#39;"),
        _ => text.push(c),
    }
}

/// A name as it stands in HTML.
pub(crate) fn escaped(alloc: Global, name: &str) -> Result<String, AllocError>
    ensures { IfOk result (λ text. string_bytes text ≡ escaped name.now) }
{
    let mut text = String::new(alloc);
    for c in name.chars() {
        push_escape(&mut text, c)?;
    }
    Ok(text)
}

/// Puts a character behind the rest, as it stands in the value of a label.
fn push_label_escape(text: &mut String, c: char) -> Result<(), AllocError>
    ensures { OnOk result (string_bytes text.new ≡ string_bytes text.old ++ label_escape_of c) }
{
    match c {
        '\\' => text.push_str("\\\\"),
        '"' => text.push_str("\\\""),
        '\n' => text.push_str("\\n"),
        _ => text.push(c),
    }
}

/// A name as it stands in the value of a label.
pub(crate) fn label(alloc: Global, name: &str) -> Result<String, AllocError>
    ensures { IfOk result (λ text. string_bytes text ≡ label name.now) }
{
    let mut text = String::new(alloc);
    for c in name.chars() {
        push_label_escape(&mut text, c)?;
    }
    Ok(text)
}
