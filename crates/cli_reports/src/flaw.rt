//! Why rows are no node's.

ghost use Rattle.std.specs.Prelude.{◌≡◌, IsErrOf, map as map_list, option_map};
ghost use Rattle.mqtt_fields.specs.Reading.{Gives};
ghost use Rattle.row_store.specs.Rows.{entry_of};
ghost use Rattle.session_rows.specs.Reading.{whole};
ghost use Rattle.node_rows.specs.Rows.{marked};
ghost use Rattle.cli_reports.specs.Flaws.{flaw_in, flaw_of, marked_flaw};

use mqtt_fields::{FieldFault, u16_at, u64_at};
use row_store::Row;
use row_store::kinds::MARK;

/// Why rows that are no node's aren't, by the mark that they begin with.
#[derive(Clone, Copy, Debug, PartialEq, Eq)]
pub enum Flaw {
    /// Memory ran out before it was known.
    NoMemory,
    /// They don't begin with a mark.
    NoMark,
    /// The mark is of a version that isn't read.
    OtherVersion(u16),
    /// The mark is of the node with this number.
    OtherNode(u16),
    /// The mark is right, and what follows isn't.
    Unsound,
}

/// The version, the node and the number at the front of a mark, and the bytes after them.
fn marked_at(bytes: &[u8]) -> Result<((u16, u16, u64), &[u8]), FieldFault>
    ensures exact { Gives (λ x. ((x.0.0, (x.0.1, x.0.2)), x.1.now)) result (marked.at bytes.now) }
    ensures no_memory { IsErrOf result FieldFault.NoMemory → ⊥ }
{
    let (version, rest) = u16_at(bytes)?;
    let (node, rest) = u16_at(rest)?;
    let (named, rest) = u64_at(rest)?;
    Ok(((version, node, named), rest))
}

/// What a mark says, where it is just these bytes.
fn whole_mark(bytes: &[u8]) -> Option<(u16, u16, u64)>
    ensures { option_map (λ x. (x.0, (x.1, x.2))) result ≡ whole marked bytes.now }
{
    match marked_at(bytes) {
        Ok((mark, [])) => Some(mark),
        Ok(_) => None,
        Err(_) => None,
    }
}

/// Why a node with this number has no rows with such a mark.
fn marked_flaw(mark: Option<(u16, u16, u64)>, id: u16) -> Flaw
    ensures { result ≡ marked_flaw id (option_map (λ x. (x.0, (x.1, x.2))) mark) }
{
    match mark {
        Some((version, node, _)) => {
            if version != 1 && version != 2 && version != 3 {
                Flaw::OtherVersion(version)
            } else if node != id {
                Flaw::OtherNode(node)
            } else {
                Flaw::Unsound
            }
        }
        None => Flaw::NoMark,
    }
}

/// Why a node with this number has no rows that begin with this one.
fn flaw_in(row: &Row, id: u16) -> Flaw
    ensures { result ≡ flaw_in id (entry_of row.now) }
{
    if row.kind == MARK && row.owner.is_empty() && row.place.is_empty() {
        marked_flaw(whole_mark(&row.value), id)
    } else {
        Flaw::NoMark
    }
}

/// Why rows that aren't those of the node with this number aren't, by what they begin with.
pub(crate) fn flaw_of(rows: &[Row], id: u16) -> Flaw
    ensures { result ≡ flaw_of id (map_list entry_of rows.now) }
{
    match rows {
        [first, ..] => flaw_in(first, id),
        [] => Flaw::Unsound,
    }
}
