//! One line: the command that it spells.

ghost use Rattle.std.specs.Prelude.{◌≡◌, ◌≢◌, ◌∷◌, map, codes, IfOk, IfSome, IfNone};
ghost use Rattle.broker_script.specs.Line.{words, spelling, IsInRange, event_spelling, IsEventInRange};

use crate::command::Command;
use crate::event::NodeEvent;
use crate::word::{
    parse_fields, parse_hex, parse_name, parse_node, parse_number, parse_version, words_of,
};
use mqtt_fields::{LONGEST_CLIENT, LONGEST_VALUE};
use std::alloc::{AllocError, Global};

/// The event that a keyword and the words after it spell, but for `bytes`, `evict` and `move`.
fn parse_plain(keyword: &str, rest: &[&str]) -> Option<NodeEvent>
    requires not_bytes { keyword.now ≢ codes "bytes" }
    requires not_evict { keyword.now ≢ codes "evict" }
    requires not_move { keyword.now ≢ codes "move" }
    ensures some { IfSome result (λ event. IsEventInRange event
        × (keyword.now ∷ map (λ word. word.now) rest.now ≡ event_spelling event)) }
    ensures none { IfNone result ((event : _) → IsEventInRange event →
        keyword.now ∷ map (λ word. word.now) rest.now ≡ event_spelling event → ⊥) }
{
    match keyword {
        "start" => {
            let ([node], [moment]) = parse_fields::<1, 1>(rest)?;
            Some(NodeEvent::Start { node, moment })
        }
        "open" => {
            let ([node], [connection, moment]) = parse_fields::<1, 2>(rest)?;
            Some(NodeEvent::Open {
                node,
                connection,
                moment,
            })
        }
        "close" => {
            let ([node], [connection, moment]) = parse_fields::<1, 2>(rest)?;
            Some(NodeEvent::Close {
                node,
                connection,
                moment,
            })
        }
        "tick" => {
            let ([node], [moment]) = parse_fields::<1, 1>(rest)?;
            Some(NodeEvent::Tick { node, moment })
        }
        "ship" => {
            let ([node, peer], [moment]) = parse_fields::<2, 1>(rest)?;
            Some(NodeEvent::Ship { node, peer, moment })
        }
        "link" => {
            let ([node, peer], [moment]) = parse_fields::<2, 1>(rest)?;
            Some(NodeEvent::Link { node, peer, moment })
        }
        _ => None,
    }
}

/// The event that `bytes` and the words after it spell.
fn parse_bytes(alloc: Global, rest: &[&str]) -> Result<Option<NodeEvent>, AllocError>
    ensures some { IfOk result (λ r. IfSome r (λ event. IsEventInRange event
        × (codes "bytes" ∷ map (λ word. word.now) rest.now ≡ event_spelling event))) }
    ensures none { IfOk result (λ r. IfNone r ((event : _) → IsEventInRange event →
        codes "bytes" ∷ map (λ word. word.now) rest.now ≡ event_spelling event → ⊥)) }
{
    let Some((last, front)) = rest.split_last() else {
        return Ok(None);
    };
    let Some(found) = parse_fields::<1, 2>(front) else {
        return Ok(None);
    };
    let ([node], [connection, moment]) = found;
    match parse_hex(alloc, last)? {
        Some(bytes) => Ok(Some(NodeEvent::Bytes {
            node,
            connection,
            moment,
            bytes,
        })),
        None => Ok(None),
    }
}

/// The event that `evict` and the words after it spell.
fn parse_evict(alloc: Global, rest: &[&str]) -> Result<Option<NodeEvent>, AllocError>
    ensures some { IfOk result (λ r. IfSome r (λ event. IsEventInRange event
        × (codes "evict" ∷ map (λ word. word.now) rest.now ≡ event_spelling event))) }
    ensures none { IfOk result (λ r. IfNone r ((event : _) → IsEventInRange event →
        codes "evict" ∷ map (λ word. word.now) rest.now ≡ event_spelling event → ⊥)) }
{
    let [node, client, moment] = rest else {
        return Ok(None);
    };
    let Some(node) = parse_node(node) else {
        return Ok(None);
    };
    let Some(moment) = parse_number(moment) else {
        return Ok(None);
    };
    match parse_name(alloc, LONGEST_CLIENT, client)? {
        Some(client) => Ok(Some(NodeEvent::Evict {
            node,
            client,
            moment,
        })),
        None => Ok(None),
    }
}

/// The event that `move` and the words after it spell.
fn parse_move(alloc: Global, rest: &[&str]) -> Result<Option<NodeEvent>, AllocError>
    ensures some { IfOk result (λ r. IfSome r (λ event. IsEventInRange event
        × (codes "move" ∷ map (λ word. word.now) rest.now ≡ event_spelling event))) }
    ensures none { IfOk result (λ r. IfNone r ((event : _) → IsEventInRange event →
        codes "move" ∷ map (λ word. word.now) rest.now ≡ event_spelling event → ⊥)) }
{
    let [node, version, prefix, home, moment] = rest else {
        return Ok(None);
    };
    let Some(node) = parse_node(node) else {
        return Ok(None);
    };
    let Some(version) = parse_version(version) else {
        return Ok(None);
    };
    let Some(home) = parse_node(home) else {
        return Ok(None);
    };
    let Some(moment) = parse_number(moment) else {
        return Ok(None);
    };
    match parse_name(alloc, LONGEST_VALUE, prefix)? {
        Some(prefix) => Ok(Some(NodeEvent::Move {
            node,
            version,
            prefix,
            home,
            moment,
        })),
        None => Ok(None),
    }
}

/// The event that a keyword and the words after it spell.
fn parse_event(alloc: Global, keyword: &str, rest: &[&str]) -> Result<Option<NodeEvent>, AllocError>
    ensures some { IfOk result (λ r. IfSome r (λ event. IsEventInRange event
        × (keyword.now ∷ map (λ word. word.now) rest.now ≡ event_spelling event))) }
    ensures none { IfOk result (λ r. IfNone r ((event : _) → IsEventInRange event →
        keyword.now ∷ map (λ word. word.now) rest.now ≡ event_spelling event → ⊥)) }
{
    match keyword {
        "bytes" => parse_bytes(alloc, rest),
        "evict" => parse_evict(alloc, rest),
        "move" => parse_move(alloc, rest),
        _ => Ok(parse_plain(keyword, rest)),
    }
}

/// The command that `nodes` and the words after it spell.
fn parse_count(rest: &[&str]) -> Option<Command>
    ensures some { IfSome result (λ command. IsInRange command
        × (codes "nodes" ∷ map (λ word. word.now) rest.now ≡ spelling command)) }
    ensures none { IfNone result ((command : _) → IsInRange command →
        codes "nodes" ∷ map (λ word. word.now) rest.now ≡ spelling command → ⊥) }
{
    let ([nodes], []) = parse_fields::<1, 0>(rest)?;
    Some(Command::Nodes { nodes })
}

/// The command that `home` and the words after it spell.
fn parse_home(alloc: Global, rest: &[&str]) -> Result<Option<Command>, AllocError>
    ensures some { IfOk result (λ r. IfSome r (λ command. IsInRange command
        × (codes "home" ∷ map (λ word. word.now) rest.now ≡ spelling command))) }
    ensures none { IfOk result (λ r. IfNone r ((command : _) → IsInRange command →
        codes "home" ∷ map (λ word. word.now) rest.now ≡ spelling command → ⊥)) }
{
    let [prefix, node] = rest else {
        return Ok(None);
    };
    let Some(node) = parse_node(node) else {
        return Ok(None);
    };
    match parse_name(alloc, LONGEST_VALUE, prefix)? {
        Some(prefix) => Ok(Some(Command::Home { prefix, node })),
        None => Ok(None),
    }
}

/// The command that `crash` and the words after it spell.
fn parse_crash(alloc: Global, rest: &[&str]) -> Result<Option<Command>, AllocError>
    ensures some { IfOk result (λ r. IfSome r (λ command. IsInRange command
        × (codes "crash" ∷ map (λ word. word.now) rest.now ≡ spelling command))) }
    ensures none { IfOk result (λ r. IfNone r ((command : _) → IsInRange command →
        codes "crash" ∷ map (λ word. word.now) rest.now ≡ spelling command → ⊥)) }
{
    let [side, keyword, rest @ ..] = rest else {
        return Ok(None);
    };
    let Some(event) = parse_event(alloc, keyword, rest)? else {
        return Ok(None);
    };
    match *side {
        "before" => Ok(Some(Command::CrashBefore(event))),
        "after" => Ok(Some(Command::CrashAfter(event))),
        _ => Ok(None),
    }
}

/// The command that `restart` and the words after it spell.
fn parse_restart(rest: &[&str]) -> Option<Command>
    ensures some { IfSome result (λ command. IsInRange command
        × (codes "restart" ∷ map (λ word. word.now) rest.now ≡ spelling command)) }
    ensures none { IfNone result ((command : _) → IsInRange command →
        codes "restart" ∷ map (λ word. word.now) rest.now ≡ spelling command → ⊥) }
{
    let ([node], []) = parse_fields::<1, 0>(rest)?;
    Some(Command::Restart { node })
}

/// The command that `deliver` and the words after it spell.
fn parse_deliver(rest: &[&str]) -> Option<Command>
    ensures some { IfSome result (λ command. IsInRange command
        × (codes "deliver" ∷ map (λ word. word.now) rest.now ≡ spelling command)) }
    ensures none { IfNone result ((command : _) → IsInRange command →
        codes "deliver" ∷ map (λ word. word.now) rest.now ≡ spelling command → ⊥) }
{
    let ([], [frame, moment]) = parse_fields::<0, 2>(rest)?;
    Some(Command::Deliver { frame, moment })
}

/// The command that a line spells, or none.
pub(crate) fn parse_line(alloc: Global, line: &str) -> Result<Option<Command>, AllocError>
    ensures some { IfOk result (λ r. IfSome r (λ command.
        IsInRange command × (words line.now ≡ spelling command))) }
    ensures none { IfOk result (λ r. IfNone r ((command : _) →
        IsInRange command → words line.now ≡ spelling command → ⊥)) }
{
    let parts = words_of(alloc, line)?;
    let Some((keyword, rest)) = parts.split_first() else {
        return Ok(None);
    };
    match *keyword {
        "nodes" => Ok(parse_count(rest)),
        "home" => parse_home(alloc, rest),
        "crash" => parse_crash(alloc, rest),
        "restart" => Ok(parse_restart(rest)),
        "deliver" => Ok(parse_deliver(rest)),
        _ => match parse_event(alloc, keyword, rest)? {
            Some(event) => Ok(Some(Command::Event(event))),
            None => Ok(None),
        },
    }
}
