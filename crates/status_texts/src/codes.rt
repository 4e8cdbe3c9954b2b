//! Reason Codes that were given, as the page and the metrics show them.

ghost use Rattle.std.specs.Prelude.{◌≡◌, ◌++◌, string_bytes, IfOk, OnOk};
ghost use Rattle.door_log.specs.Escaping.{reason_text};
ghost use Rattle.door_log.specs.Reasons.{words_of};
ghost use Rattle.status_texts.specs.Codes.{code_line, code_row, with_code_lines, with_code_rows};

use door_log::{ReasonText, words_of};
use status_figures::CodeCount;
use std::alloc::{AllocError, Global};

#[tactic(auto, unfolding(crate::specs::Codes::code_row))]
fn push_code_row(
    text: &mut String,
    before: &str,
    code: u8,
    words: &str,
    count: u64,
) -> Result<(), AllocError>
    ensures { OnOk result (string_bytes text.new ≡ string_bytes text.old ++ code_row before.now code words.now count) }
{
    let code = ReasonText(code);
    write!(
        text,
        "<tr><th>{before}{words} ({code})</th><td>{count}</td></tr>\n"
    )
}

/// Lines of the page: what each code stands for, and how often it was given.
pub(crate) fn push_code_rows(
    text: &mut String,
    before: &str,
    all: &[CodeCount],
) -> Result<(), AllocError>
    ensures { OnOk result (string_bytes text.new ≡ with_code_rows before.now all.now (string_bytes text.old)) }
{
    for one in all {
        push_code_row(text, before, one.code, words_of(one.code), one.count)?;
    }
    Ok(())
}

/// A Reason Code in its two digits.
fn code_of(alloc: Global, code: u8) -> Result<String, AllocError>
    ensures { IfOk result (λ text. string_bytes text ≡ reason_text code) }
{
    let code = ReasonText(code);
    format!(in alloc; "{code}")
}

#[tactic(auto, unfolding(crate::specs::Codes::code_line))]
fn push_code_line(text: &mut String, name: &str, code: &str, count: u64) -> Result<(), AllocError>
    ensures { OnOk result (string_bytes text.new ≡ string_bytes text.old ++ code_line name.now code.now count) }
{
    write!(text, "{name}{{code=\"{code}\"}} {count}\n")
}

/// The value of a metric for a code.
fn push_code(alloc: Global, text: &mut String, name: &str, one: CodeCount) -> Result<(), AllocError>
    ensures { OnOk result (string_bytes text.new ≡ string_bytes text.old ++ code_line name.now (reason_text one.code) one.count) }
{
    let code = code_of(alloc, one.code)?;
    push_code_line(text, name, &code, one.count)
}

/// Values of a metric, one for each code.
pub(crate) fn push_code_lines(
    alloc: Global,
    text: &mut String,
    name: &str,
    all: &[CodeCount],
) -> Result<(), AllocError>
    ensures { OnOk result (string_bytes text.new ≡ with_code_lines name.now all.now (string_bytes text.old)) }
{
    for one in all {
        push_code(alloc, text, name, *one)?;
    }
    Ok(())
}
