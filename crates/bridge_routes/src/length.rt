//! How long the frame of a message for another node is.

ghost use Rattle.std.specs.Prelude.{◌≡◌, ◌+◌, ◌*◌, ◌<◌, ◌≤◌, ◌^◌, length, flat_map};
ghost use Rattle.std.specs.Int.{w64};
ghost use Rattle.mqtt_fields.specs.Block.{properties_bytes};
ghost use Rattle.mqtt_fields.specs.Numbers.{number};
ghost use Rattle.mqtt_message.specs.Parts.{own_properties, tail};
ghost use Rattle.mqtt_message.specs.Spelling.{optional};
ghost use Rattle.mqtt_message.specs.Spellings.{message, message_tail};
ghost use Rattle.bridge_frames.specs.Forwards.{pick};
ghost use Rattle.bridge_routes.specs.Routes.{frame_length};

use bridge_frames::{Forward, Pick};
use mqtt_fields::{Place, properties_len, vbi_len};
use mqtt_message::{Message, MessageProperties};

// A property block: its length, and its properties.
#[tactic(auto, unfolding(mqtt_message::specs::Parts::own_properties, mqtt_fields::specs::Block::properties))]
fn properties_length(own: &MessageProperties) -> usize
    ensures exact { result ≡ length (own_properties.bytes own.now) }
    ensures small { result < 2 ^ 28 + 4 }
{
    let block = properties_len(Place::Publish, own.as_slice()).unwrap();
    vbi_len(block as u32) + block
}

fn deadline_length(deadline: Option<u64>) -> usize
    ensures exact { result ≡ length ((optional (number w64)).bytes deadline) }
    ensures small { result ≤ 9 }
{
    match deadline {
        Some(_) => 9,
        None => 1,
    }
}

// QoS, RETAIN, the publisher and the deadline.
#[tactic(auto, unfolding(mqtt_message::specs::Parts::tail))]
fn tail_length(message: &Message) -> usize
    ensures exact { result ≡ length (tail.bytes (message_tail message.now)) }
    ensures small { result < 2 ^ 17 }
{
    4 + message.publisher.as_str().len() + deadline_length(message.deadline)
}

#[tactic(auto, unfolding(mqtt_message::specs::Spellings::message))]
fn message_length(of: &Message) -> usize
    ensures exact { result ≡ length (message.bytes of.now) }
    ensures small { result < 2 ^ 30 }
{
    let topic = 2 + of.topic.as_str().len();
    let payload = 4 + of.payload.as_slice().len();
    topic + payload + properties_length(&of.properties) + tail_length(of)
}

fn pick_length(of: &Pick) -> usize
    ensures exact { result ≡ length (pick.bytes of.now) }
    ensures small { result < 2 ^ 18 }
{
    4 + of.client.as_str().len() + of.filter.as_filter().as_str().len()
}

fn picks_length(picks: &[Pick]) -> usize
    requires { length picks.now < 2 ^ 16 }
    ensures exact { result ≡ length (flat_map pick.bytes picks.now) }
    ensures small { result ≤ 2 ^ 18 * length picks.now }
{
    let mut total = 0;
    for pick in picks {
        total += pick_length(pick);
    }
    total
}

/// How many bytes the frame of this message takes after its length.
#[tactic(auto, unfolding(bridge_frames::specs::Forwards::forward))]
pub(crate) fn frame_length(forward: &Forward) -> usize
    ensures { result ≡ frame_length forward.now }
{
    let picks = 2 + picks_length(forward.picks.as_slice());
    14 + picks + message_length(forward.message.message())
}
