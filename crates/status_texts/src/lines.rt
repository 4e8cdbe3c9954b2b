//! Lines of Prometheus' text format.

ghost use Rattle.std.specs.Prelude.{◌≡◌, ◌++◌, codes, string_bytes, OnOk};
ghost use Rattle.status_texts.specs.Lines.{help_line, kind_line, peer_line, reason_line, value_line, with_metric};

use std::alloc::AllocError;

/// What a metric is.
#[tactic(auto, unfolding(crate::specs::Lines::help_line))]
fn push_help(text: &mut String, name: &str, help: &str) -> Result<(), AllocError>
    ensures { OnOk result (string_bytes text.new ≡ string_bytes text.old ++ help_line name.now help.now) }
{
    write!(text, "# HELP {name} {help}\n")
}

/// Of which kind it is.
#[tactic(auto, unfolding(crate::specs::Lines::kind_line))]
fn push_kind(text: &mut String, name: &str, kind: &str) -> Result<(), AllocError>
    ensures { OnOk result (string_bytes text.new ≡ string_bytes text.old ++ kind_line name.now kind.now) }
{
    write!(text, "# TYPE {name} {kind}\n")
}

/// Its value.
#[tactic(auto, unfolding(crate::specs::Lines::value_line))]
fn push_value(text: &mut String, name: &str, number: u64) -> Result<(), AllocError>
    ensures { OnOk result (string_bytes text.new ≡ string_bytes text.old ++ value_line name.now number) }
{
    write!(text, "{name} {number}\n")
}

/// Its value for a reason.
#[tactic(auto, unfolding(crate::specs::Lines::reason_line))]
pub(crate) fn push_reason(
    text: &mut String,
    name: &str,
    reason: &str,
    number: u64,
) -> Result<(), AllocError>
    ensures { OnOk result (string_bytes text.new ≡ string_bytes text.old ++ reason_line name.now reason.now number) }
{
    write!(text, "{name}{{reason=\"{reason}\"}} {number}\n")
}

/// Its value for a peer of this name, as it stands in a label.
#[tactic(auto, unfolding(crate::specs::Lines::peer_line))]
pub(crate) fn push_peer(
    text: &mut String,
    name: &str,
    peer: &str,
    number: u64,
) -> Result<(), AllocError>
    ensures { OnOk result (string_bytes text.new ≡ string_bytes text.old ++ peer_line name.now peer.now number) }
{
    write!(text, "{name}{{peer=\"{peer}\"}} {number}\n")
}

/// What a metric is and of which kind, before its values.
pub(crate) fn push_family(
    text: &mut String,
    name: &str,
    kind: &str,
    help: &str,
) -> Result<(), AllocError>
    ensures { OnOk result (string_bytes text.new ≡ string_bytes text.old ++ help_line name.now help.now ++ kind_line name.now kind.now) }
{
    push_help(text, name, help)?;
    push_kind(text, name, kind)
}

/// A metric with one value.
#[tactic(auto, unfolding(crate::specs::Lines::with_metric))]
fn push_metric(
    text: &mut String,
    name: &str,
    kind: &str,
    help: &str,
    number: u64,
) -> Result<(), AllocError>
    ensures { OnOk result (string_bytes text.new ≡ with_metric kind.now name.now help.now number (string_bytes text.old)) }
{
    push_family(text, name, kind, help)?;
    push_value(text, name, number)
}

/// One that may go up and down.
pub(crate) fn push_gauge(
    text: &mut String,
    name: &str,
    help: &str,
    number: u64,
) -> Result<(), AllocError>
    ensures { OnOk result (string_bytes text.new ≡ with_metric (codes "gauge") name.now help.now number (string_bytes text.old)) }
{
    push_metric(text, name, "gauge", help, number)
}

/// One that only goes up while the node runs.
pub(crate) fn push_counter(
    text: &mut String,
    name: &str,
    help: &str,
    number: u64,
) -> Result<(), AllocError>
    ensures { OnOk result (string_bytes text.new ≡ with_metric (codes "counter") name.now help.now number (string_bytes text.old)) }
{
    push_metric(text, name, "counter", help, number)
}
