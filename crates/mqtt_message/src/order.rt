//! The order of messages, which decides where nothing else tells two apart.

ghost use Rattle.std.specs.Prelude.{◌≡◌};
ghost use Rattle.std.specs.Ordering.{nat_cmp};
ghost use Rattle.std.specs.Cmp.Lexicographic.{slice_cmp};
ghost use Rattle.std.specs.Int.{w64};
ghost use Rattle.mqtt_fields.specs.Numbers.{groups, number};
ghost use Rattle.mqtt_message.specs.Spelling.{OptionalFits};
ghost use Rattle.mqtt_message.specs.Spellings.{message};
ghost use Rattle.mqtt_fields.specs.Options.{qos_number};
ghost use Rattle.mqtt_message.specs.Encoding.{OrderOfEncodings};
ghost use Rattle.mqtt_message.specs.OwnProperties.{AreOwn};
ghost use Rattle.mqtt_message.specs.Order.{bytes_cmp, kind_rank, number_in, bytes_in, named_in, value_cmp, property_cmp, properties_cmp, block_cmp, flag_rank, deadline_rank, message_cmp};

use crate::message::Message;
use crate::properties::MessageProperties;
use mqtt_fields::{Place, Property, Value, properties_len};
use std::cmp::Ordering;

fn kind_rank(value: &Value) -> u8
    ensures { result ≡ kind_rank value.now }
{
    match value {
        Value::Byte(_) => 0,
        Value::Two(_) => 1,
        Value::Four(_) => 2,
        Value::Vbi(_) => 3,
        Value::Text(_) => 4,
        Value::Blob(_) => 5,
        Value::Pair(_, _) => 6,
    }
}

fn number_in(value: &Value) -> u32
    ensures { result ≡ number_in value.now }
{
    match value {
        Value::Byte(n) => u32::from(*n),
        Value::Two(n) => u32::from(*n),
        Value::Four(n) | Value::Vbi(n) => *n,
        _ => 0,
    }
}

fn bytes_in(value: &Value) -> &[u8]
    ensures { result.now ≡ bytes_in value.now }
{
    match value {
        Value::Text(text) => text.as_str().as_bytes(),
        Value::Blob(blob) => blob.as_bytes(),
        Value::Pair(name, _) => name.as_str().as_bytes(),
        _ => &[],
    }
}

fn named_in(value: &Value) -> &[u8]
    ensures { result.now ≡ named_in value.now }
{
    match value {
        Value::Pair(_, text) => text.as_str().as_bytes(),
        _ => &[],
    }
}

fn compare_bytes(a: &[u8], b: &[u8]) -> Ordering
    ensures { result ≡ bytes_cmp a.now b.now }
{
    a.len().cmp(&b.len()).then(a.cmp(b))
}

fn compare_values(a: &Value, b: &Value) -> Ordering
    ensures { result ≡ value_cmp a.now b.now }
{
    let kind = kind_rank(a).cmp(&kind_rank(b));
    let number = number_in(a).cmp(&number_in(b));
    let bytes = compare_bytes(bytes_in(a), bytes_in(b));
    let named = compare_bytes(named_in(a), named_in(b));
    kind.then(number.then(bytes.then(named)))
}

fn compare_properties(a: &Property, b: &Property) -> Ordering
    ensures { result ≡ property_cmp a.now b.now }
{
    a.id.cmp(&b.id).then(compare_values(&a.value, &b.value))
}

fn compare_lists(a: &[Property], b: &[Property]) -> Ordering
    ensures { result ≡ properties_cmp a.now b.now }
{
    let mut rest = a;
    let mut others = b;
    while let [first, later @ ..] = rest {
        let [other, more @ ..] = others else {
            return Ordering::Greater;
        };
        let ordering = compare_properties(first, other);
        if ordering != Ordering::Equal {
            return ordering;
        }
        rest = later;
        others = more;
    }
    if others.is_empty() {
        Ordering::Equal
    } else {
        Ordering::Less
    }
}

/// Which Variable Byte Integer of at most `more` + 1 bytes is the greater, byte by byte.
fn compare_groups(more: u8, a: usize, b: usize) -> Ordering
    ensures { result ≡ slice_cmp nat_cmp (groups more a) (groups more b) }
{
    if more == 0 {
        return a.cmp(&b);
    }
    if a < 128 && b < 128 {
        return a.cmp(&b);
    }
    if a < 128 {
        return Ordering::Less;
    }
    if b < 128 {
        return Ordering::Greater;
    }
    let low = (a % 128).cmp(&(b % 128));
    low.then(compare_groups(more - 1, a / 128, b / 128))
}

fn compare_blocks(a: &MessageProperties, b: &MessageProperties) -> Ordering
    ensures order { result ≡ block_cmp a.now b.now }
    ensures own { AreOwn a.now × AreOwn b.now }
{
    let (a, b) = (a.as_slice(), b.as_slice());
    let a_len = properties_len(Place::Publish, a).unwrap();
    let b_len = properties_len(Place::Publish, b).unwrap();
    compare_groups(3, a_len, b_len).then(compare_lists(a, b))
}

fn compare_flags(a: bool, b: bool) -> Ordering
    ensures { result ≡ nat_cmp (flag_rank a) (flag_rank b) }
{
    a.cmp(&b)
}

fn compare_deadlines(a: Option<u64>, b: Option<u64>) -> Ordering
    ensures order { result ≡ nat_cmp (deadline_rank a) (deadline_rank b) }
    ensures fits { OptionalFits (number w64) a × OptionalFits (number w64) b }
{
    match (a, b) {
        (None, None) => Ordering::Equal,
        (None, Some(_)) => Ordering::Less,
        (Some(_), None) => Ordering::Greater,
        (Some(a), Some(b)) => a.cmp(&b),
    }
}

fn compare_texts(a: &str, b: &str) -> Ordering
    ensures { result ≡ bytes_cmp a.now b.now }
{
    compare_bytes(a.as_bytes(), b.as_bytes())
}

impl Message {
    /// Which message is the greater: by topic, payload, properties, QoS, RETAIN, publisher and
    /// deadline, in turn, which is the order of the bytes of their encodings. Only equal messages
    /// are `Equal`.
    pub fn compare(&self, other: &Message) -> Ordering
        ensures fields { result ≡ message_cmp self.now other.now }
        ensures encodings { result
            ≡ slice_cmp nat_cmp (message.bytes self.now) (message.bytes other.now) }
    {
        let topic = compare_texts(self.topic.as_str(), other.topic.as_str());
        let payload = compare_bytes(self.payload.as_slice(), other.payload.as_slice());
        let properties = compare_blocks(&self.properties, &other.properties);
        let qos = self.qos.number().cmp(&other.qos.number());
        let retain = compare_flags(self.retain, other.retain);
        let publisher = compare_texts(self.publisher.as_str(), other.publisher.as_str());
        let deadline = compare_deadlines(self.deadline, other.deadline);
        let end = qos.then(retain.then(publisher.then(deadline)));
        topic.then(payload.then(properties.then(end)))
    }
}

/// Messages stand in the order of their encodings.
pub fn ordered_as_encoded()
    ensures { OrderOfEncodings }
{}
