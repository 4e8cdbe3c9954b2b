//! Identifiers that a node gives by itself.

ghost use Rattle.std.specs.Prelude.{◌≡◌, ◌<◌, ◌^◌, ◌↔◌, ℕ, IsTrue, IfSome, IfNone, decimal};
ghost use Rattle.std.specs.List.{list_all};
ghost use Rattle.std.specs.Char.{is_ascii_digit};
ghost use Rattle.home_table.specs.Homes.{IsWholeNumber, IsAutomatic};

/// What stands before the node's number, and a `-` after it.
const AUTO: &str = "auto";

/// The digit that no number of two or more digits begins with.
const ZERO: u8 = b'0';

/// Whether each byte is a digit.
fn has_digits(bytes: &[u8]) -> bool
    ensures { result ≡ list_all is_ascii_digit bytes.now }
{
    bytes.iter().all(|b| b.is_ascii_digit())
}

/// Whether a text is a whole number in decimal, of any length, without leading zeros.
fn is_whole_number(text: &str) -> bool
    ensures { IsTrue result ↔ IsWholeNumber text.now }
{
    let bytes = text.as_bytes();
    if bytes.is_empty() {
        return false;
    }
    if bytes.len() > 1 && bytes[0] == ZERO {
        return false;
    }
    has_digits(bytes)
}

/// The number of a node that a text spells.
fn node_number(text: &str) -> Option<u16>
    ensures some { IfSome result (λ n. (n < 2 ^ 16) × (text.now ≡ decimal n)) }
    ensures none { IfNone result ((n : ℕ) → n < 2 ^ 16 → text.now ≡ decimal n → ⊥) }
{
    if !is_whole_number(text) {
        return None;
    }
    match text.parse::<u16>() {
        Ok(n) => Some(n),
        Err(_) => None,
    }
}

/// The number in an identifier of the form that a node gives by itself.
fn automatic_number(identifier: &str) -> Option<u16>
    ensures some { IfSome result (λ n. (n < 2 ^ 16) × IsAutomatic identifier.now n) }
    ensures none { IfNone result ((n : ℕ) → n < 2 ^ 16 → ¬ (IsAutomatic identifier.now n)) }
{
    let (auto, rest) = identifier.split_once('-')?;
    if auto != AUTO {
        return None;
    }
    let (node, number) = rest.split_once('-')?;
    if !is_whole_number(number) {
        return None;
    }
    let n = node_number(node)?;
    Some(n)
}

/// The number of the node, of so many, that gives the identifier by itself.
pub(crate) fn automatic_node(identifier: &str, nodes: u16) -> Option<u16>
    ensures some { IfSome result (λ n. (n < nodes) × IsAutomatic identifier.now n) }
    ensures none { IfNone result ((n : ℕ) → n < nodes → ¬ (IsAutomatic identifier.now n)) }
{
    let n = automatic_number(identifier)?;
    if n < nodes { Some(n) } else { None }
}
