//! What calls of a session can lead to.

ghost use Rattle.std.specs.Prelude.{◌≡◌, ◌≤◌, ◌↔◌, All, IsTrue, length};
ghost use Rattle.qos_handshakes.specs.Outbox.{waiting, waits};
ghost use Rattle.session_rows.specs.Reachable.{IsReachable, IsReleasedAtTwo};

use mqtt_fields::Qos;
use qos_handshakes::{Entry, QUEUE_ROOM, Stage};

fn are_identifiers(identifiers: &[u16]) -> bool
    ensures { IsTrue result ↔ All (λ id. 1 ≤ id) identifiers.now }
{
    identifiers.iter().all(|id| *id >= 1)
}

fn is_released_at_two(entry: &Entry) -> bool
    ensures { IsTrue result ↔ IsReleasedAtTwo entry.now }
{
    match entry.stage {
        Stage::Released(_, _) => matches!(entry.delivery.qos, Qos::ExactlyOnce),
        Stage::Waiting | Stage::Published(_) => true,
    }
}

fn are_released_at_two(copies: &[(u64, Entry)]) -> bool
    ensures { IsTrue result ↔ All (λ e. IsReleasedAtTwo e.1) copies.now }
{
    copies.iter().all(|copy| is_released_at_two(&copy.1))
}

fn waits(entry: &Entry) -> bool
    ensures { result ≡ waits entry.now.stage }
{
    matches!(entry.stage, Stage::Waiting)
}

/// Whether no more copies wait than may.
fn may_wait(copies: &[(u64, Entry)]) -> bool
    ensures { IsTrue result ↔ (length (waiting copies.now) ≤ 65536) }
{
    let mut left = QUEUE_ROOM;
    for copy in copies {
        if waits(&copy.1) {
            if left == 0 {
                return false;
            }
            left -= 1;
        }
    }
    true
}

/// Whether calls can lead to these incoming identifiers and copies.
pub(crate) fn is_reachable(incoming: &[u16], copies: &[(u64, Entry)]) -> bool
    ensures { IsTrue result ↔ IsReachable incoming.now copies.now }
{
    are_identifiers(incoming) && are_released_at_two(copies) && may_wait(copies)
}
