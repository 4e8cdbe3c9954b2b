//! Members of objects.

ghost use Rattle.std.specs.Prelude.{◌≡◌, ◌++◌, string_bytes, IfOk, OnOk};
ghost use Rattle.serde_json.specs.Data.{string};
ghost use Rattle.serde_json.specs.Written.{compact_text};
ghost use Rattle.std.specs.Fmt.{decimal};
ghost use Rattle.status_pages.specs.Members.{known_text, member, number_member, quoted_text, truth};
ghost use Rattle.status_pages.specs.Status.{before_of};

use serde_json::Value;
use std::alloc::{AllocError, Global};

/// A name in its quotes.
pub(crate) fn quoted(alloc: Global, name: &str) -> Result<String, AllocError>
    ensures { IfOk result (λ text. string_bytes text ≡ compact_text (string name.now)) }
{
    let name = String::from_str(alloc, name)?;
    Value::String(name).to_string(alloc)
}

/// A text in its quotes, or `null`.
pub(crate) fn quoted_text(alloc: Global, text: &Option<String>) -> Result<String, AllocError>
    ensures { IfOk result (λ written. string_bytes written ≡ quoted_text text.now) }
{
    match text {
        Some(text) => quoted(alloc, text),
        None => String::from_str(alloc, "null"),
    }
}

fn decimal_text(alloc: Global, number: u64) -> Result<String, AllocError>
    ensures { IfOk result (λ text. string_bytes text ≡ decimal number) }
{
    format!(in alloc; "{number}")
}

/// A number, or `null`.
pub(crate) fn known_text(alloc: Global, number: Option<u64>) -> Result<String, AllocError>
    ensures { IfOk result (λ text. string_bytes text ≡ known_text number) }
{
    match number {
        Some(number) => decimal_text(alloc, number),
        None => String::from_str(alloc, "null"),
    }
}

pub(crate) fn truth(is_so: bool) -> &'static str
    ensures { result.now ≡ truth is_so }
{
    if is_so { "true" } else { "false" }
}

/// What stands before the one of several with this index.
pub(crate) fn before_of(index: usize) -> &'static str
    ensures { result.now ≡ before_of index }
{
    if index == 0 { "{" } else { ",{" }
}

/// A member, behind what stands before it.
#[tactic(auto, unfolding(crate::specs::Members::member))]
pub(crate) fn push_member(
    text: &mut String,
    before: &str,
    key: &str,
    value: &str,
) -> Result<(), AllocError>
    ensures { OnOk result (string_bytes text.new ≡ string_bytes text.old ++ member before.now key.now value.now) }
{
    write!(text, "{before}\"{key}\":{value}")
}

/// A member whose value is a number.
#[tactic(auto, unfolding(crate::specs::Members::number_member))]
pub(crate) fn push_number(
    text: &mut String,
    before: &str,
    key: &str,
    number: u64,
) -> Result<(), AllocError>
    ensures { OnOk result (string_bytes text.new ≡ string_bytes text.old ++ number_member before.now key.now number) }
{
    write!(text, "{before}\"{key}\":{number}")
}
