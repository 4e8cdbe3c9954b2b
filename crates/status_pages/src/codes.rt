//! Reason Codes with their counts in JSON.

ghost use Rattle.std.specs.Prelude.{◌≡◌, ◌++◌, string_bytes, OnOk};
ghost use Rattle.status_pages.specs.Status.{code_member, with_codes};

use crate::members::{before_of, push_number};
use status_figures::CodeCount;
use std::alloc::AllocError;

/// A code and its count.
#[tactic(auto, unfolding(crate::specs::Status::code_member))]
fn push_code(text: &mut String, before: &str, code: u8, count: u64) -> Result<(), AllocError>
    ensures { OnOk result (string_bytes text.new ≡ string_bytes text.old ++ code_member before.now code count) }
{
    push_number(text, before, "code", u64::from(code))?;
    push_number(text, ",", "count", count)?;
    text.push_str("}")
}

/// All of them, with commas between them.
pub(crate) fn push_codes(text: &mut String, all: &[CodeCount]) -> Result<(), AllocError>
    ensures { OnOk result (string_bytes text.new ≡ with_codes 0 all.now (string_bytes text.old)) }
{
    for (index, one) in all.iter().enumerate() {
        push_code(text, before_of(index), one.code, one.count)?;
    }
    Ok(())
}
