//! Lines of the tables of the page.

ghost use Rattle.std.specs.Prelude.{◌≡◌, ◌++◌, ◌/◌, ◌%◌, string_bytes, IfOk, OnOk};
ghost use Rattle.status_texts.specs.Rows.{cell, days_text, head_cell, label_cell, lack_class, loss_class, megabytes_text, minutes_text, number_cell, row_start, size_text, uptime_text, with_loss, with_number, with_row, with_state};

use std::alloc::{AllocError, Global};

/// The label of a line.
#[tactic(auto, unfolding(crate::specs::Rows::label_cell))]
fn push_label_cell(text: &mut String, label: &str) -> Result<(), AllocError>
    ensures { OnOk result (string_bytes text.new ≡ string_bytes text.old ++ label_cell label.now) }
{
    write!(text, "<tr><th>{label}</th>")
}

/// A label and what it is of.
#[tactic(auto, unfolding(crate::specs::Rows::with_row))]
pub(crate) fn push_row(text: &mut String, label: &str, value: &str) -> Result<(), AllocError>
    ensures { OnOk result (string_bytes text.new ≡ with_row label.now value.now (string_bytes text.old)) }
{
    push_label_cell(text, label)?;
    push_cell(text, value)?;
    text.push_str("</tr>\n")
}

/// A label and a number.
#[tactic(auto, unfolding(crate::specs::Rows::with_number))]
pub(crate) fn push_number(text: &mut String, label: &str, number: u64) -> Result<(), AllocError>
    ensures { OnOk result (string_bytes text.new ≡ with_number label.now number (string_bytes text.old)) }
{
    push_label_cell(text, label)?;
    push_number_cell(text, number)?;
    text.push_str("</tr>\n")
}

fn loss_class(number: u64) -> &'static str
    ensures { result.now ≡ loss_class number }
{
    if number == 0 { "none" } else { "apart" }
}

/// The start of a line that is green or red, by its class.
#[tactic(auto, unfolding(crate::specs::Rows::row_start))]
pub(crate) fn push_start(text: &mut String, class: &str) -> Result<(), AllocError>
    ensures { OnOk result (string_bytes text.new ≡ string_bytes text.old ++ row_start class.now) }
{
    write!(text, "<tr class=\"{class}\">")
}

/// The label in it.
#[tactic(auto, unfolding(crate::specs::Rows::head_cell))]
fn push_head_cell(text: &mut String, label: &str) -> Result<(), AllocError>
    ensures { OnOk result (string_bytes text.new ≡ string_bytes text.old ++ head_cell label.now) }
{
    write!(text, "<th>{label}</th>")
}

/// A label and a number that is a loss, which is red where there is any.
#[tactic(auto, unfolding(crate::specs::Rows::with_loss))]
pub(crate) fn push_loss(text: &mut String, label: &str, number: u64) -> Result<(), AllocError>
    ensures { OnOk result (string_bytes text.new ≡ with_loss label.now number (string_bytes text.old)) }
{
    push_start(text, loss_class(number))?;
    push_head_cell(text, label)?;
    push_number_cell(text, number)?;
    text.push_str("</tr>\n")
}

fn lack_class(lacks: bool) -> &'static str
    ensures { result.now ≡ lack_class lacks }
{
    if lacks { "apart" } else { "none" }
}

/// A label and what it is of, which is red where something lacks.
#[tactic(auto, unfolding(crate::specs::Rows::with_state))]
pub(crate) fn push_state(
    text: &mut String,
    lacks: bool,
    label: &str,
    value: &str,
) -> Result<(), AllocError>
    ensures { OnOk result (string_bytes text.new ≡ with_state lacks label.now value.now (string_bytes text.old)) }
{
    push_start(text, lack_class(lacks))?;
    push_head_cell(text, label)?;
    push_cell(text, value)?;
    text.push_str("</tr>\n")
}

/// The days and hours in so many seconds.
#[tactic(auto, unfolding(crate::specs::Rows::days_text))]
fn push_days(text: &mut String, seconds: u64) -> Result<(), AllocError>
    ensures { OnOk result (string_bytes text.new ≡ string_bytes text.old ++ days_text seconds) }
{
    let days = seconds / 86400;
    let hours = seconds / 3600 % 24;
    write!(text, "{days} d {hours} h ")
}

/// The minutes and seconds beside them.
#[tactic(auto, unfolding(crate::specs::Rows::minutes_text))]
fn push_minutes(text: &mut String, seconds: u64) -> Result<(), AllocError>
    ensures { OnOk result (string_bytes text.new ≡ string_bytes text.old ++ minutes_text seconds) }
{
    let minutes = seconds / 60 % 60;
    let rest = seconds % 60;
    write!(text, "{minutes} min {rest} s")
}

/// So many milliseconds, in days, hours, minutes and seconds.
pub(crate) fn uptime_text(alloc: Global, uptime: u64) -> Result<String, AllocError>
    ensures { IfOk result (λ text. string_bytes text ≡ uptime_text (uptime / 1000)) }
{
    let seconds = uptime / 1000;
    let mut text = String::new(alloc);
    push_days(&mut text, seconds)?;
    push_minutes(&mut text, seconds)?;
    Ok(text)
}

/// So many bytes, in megabytes.
#[tactic(auto, unfolding(crate::specs::Rows::megabytes_text))]
fn push_megabytes(text: &mut String, bytes: u64) -> Result<(), AllocError>
    ensures { OnOk result (string_bytes text.new ≡ string_bytes text.old ++ megabytes_text bytes) }
{
    let whole = bytes / 1_000_000;
    let tenths = bytes / 100_000 % 10;
    write!(text, "{whole}.{tenths} MB")
}

/// So many bytes, or these words where there are none.
pub(crate) fn size_text(alloc: Global, none: &str, bytes: Option<u64>) -> Result<String, AllocError>
    ensures { IfOk result (λ text. string_bytes text ≡ size_text none.now bytes) }
{
    let Some(bytes) = bytes else {
        return String::from_str(alloc, none);
    };
    let mut text = String::new(alloc);
    push_megabytes(&mut text, bytes)?;
    Ok(text)
}

/// A text between the others of a line.
#[tactic(auto, unfolding(crate::specs::Rows::cell))]
pub(crate) fn push_cell(text: &mut String, value: &str) -> Result<(), AllocError>
    ensures { OnOk result (string_bytes text.new ≡ string_bytes text.old ++ cell value.now) }
{
    write!(text, "<td>{value}</td>")
}

/// A number between the others of a line.
#[tactic(auto, unfolding(crate::specs::Rows::number_cell))]
pub(crate) fn push_number_cell(text: &mut String, number: u64) -> Result<(), AllocError>
    ensures { OnOk result (string_bytes text.new ≡ string_bytes text.old ++ number_cell number) }
{
    write!(text, "<td>{number}</td>")
}
