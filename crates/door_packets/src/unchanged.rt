//! Bytes that go on as they came.

ghost use Rattle.std.specs.Prelude.{◌≡◌, List, Bool, ℕ, length, true};
ghost use Rattle.mqtt_bounds.specs.Pieces.{front_at};
ghost use Rattle.mqtt_bounds.specs.declared.front.Front.TheVariants as fronts;
ghost use Rattle.door_packets.specs.Coming.{come};
ghost use Rattle.door_packets.specs.Passing.{Passes, passes_by, told_alone};

use crate::access::{Access, Login};
use crate::client::{Client, Stage};
use crate::publish_view::{PublishView, publish_in};
use mqtt_bounds::{Front, front_of};
use mqtt_fields::LONGEST_PACKET;
use mqtt_fields::identifier::TOPIC_ALIAS;
use std::alloc::Global;

/// Whether a PUBLISH of this client goes on, and nothing is to be known of it: it names its topic, which may be written, and gives it no alias.
fn passes_by<A: Access>(access: &A, login: &Option<Login>, publish: &PublishView<'_>) -> bool
    ensures { result ≡ passes_by (A.rights access.now) login.now publish.now }
{
    match login {
        None => false,
        Some(login) => {
            publish.properties.two(TOPIC_ALIAS).is_none()
                && !publish.topic.is_empty()
                && access.may_write(login, publish.topic)
        }
    }
}

/// Whether a PUBLISH stands in front of these bytes that does.
#[tactic(auto, using(crate::proofs::Passing::passes_so))]
fn passes<A: Access>(alloc: Global, access: &A, login: &Option<Login>, bytes: &[u8]) -> bool
    ensures { result ≡ true → Passes (A.rights access.now) login.now bytes.now }
{
    match publish_in(alloc, bytes) {
        None => false,
        Some(view) => passes_by(access, login, &view),
    }
}

/// Whether the bytes are one packet.
fn is_whole(bytes: &[u8]) -> bool
    ensures { result ≡ true → front_at 1048576 bytes.now ≡ fronts.Whole (length bytes.now) }
{
    match front_of(LONGEST_PACKET, bytes) {
        Front::Whole(used) => used == bytes.len(),
        _ => false,
    }
}

/// Whether bytes that came of this client are one PUBLISH that goes on as it came, and nothing else is to be done: what is known of the client stays. Where
/// they aren't, `come` says what comes of them.
#[tactic(auto, using(crate::proofs::Passing::goes_on_so))]
pub fn goes_on<A: Access>(alloc: Global, access: &A, client: &Client, bytes: &[u8]) -> bool
    ensures { result ≡ true → (marked : List ℕ → Bool) → come (A.rights access.now) marked client.now bytes.now ≡ told_alone client.now bytes.now }
{
    match client.stage {
        Stage::Open => {
            if !client.partial.as_slice().is_empty() {
                return false;
            }
            if !is_whole(bytes) {
                return false;
            }
            passes(alloc, access, &client.login, bytes)
        }
        _ => false,
    }
}
