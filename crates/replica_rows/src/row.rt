//! The rows of what a store is made of.
ghost use Rattle.std.specs.Prelude.{◌≡◌, [], ◌∷◌, IfOk, OnErr};
ghost use Rattle.row_store.specs.Rows.{entry_of, key_of};
ghost use Rattle.causal_context.specs.Spelling.{context};
ghost use Rattle.replica_bytes.specs.Values.{dot, subscription, subscription_in, kept};

use causal_context::{Context, Dot};
use mqtt_fields::NoMemory;
use mqtt_topics::TopicName;
use replica_bytes::{write_dot, write_kept, write_subscription};
use replica_store::Kept;
use row_store::Row;
use row_store::kinds::{CONTEXT, RETAINED, SUBSCRIPTION};
use std::alloc::Global;
use subscription_set::Entry;

/// The places of the dots that were taken, and of those that were seen.
pub const TAKEN: u8 = 1;

pub const SEEN: u8 = 2;

/// The place of a subscription.
pub fn place_of(alloc: Global, at: Dot) -> Result<Vec<u8>, NoMemory>
    ensures place { IfOk result (λ place. place.items ≡ dot.bytes at) }
    ensures fits { dot.Fits at }
{
    let mut place = Vec::new(alloc);
    write_dot(at, &mut place)?;
    Ok(place)
}

/// The row of the subscription at the dot.
pub fn subscription_row(alloc: Global, at: Dot, entry: &Entry) -> Result<Row, NoMemory>
    ensures row { IfOk result (λ row. entry_of row
        ≡ ((4, (entry.now.client, dot.bytes at)), subscription.bytes (subscription_in entry.now))) }
    ensures fits { dot.Fits at }
{
    let mut value = Vec::new(alloc);
    write_subscription(entry, &mut value)?;
    let owner = Vec::from_slice(alloc, entry.client().as_str().as_bytes())?;
    let place = place_of(alloc, at)?;
    Ok(Row {
        kind: SUBSCRIPTION,
        owner,
        place,
        value,
    })
}

/// The row of what is kept of the topic.
pub fn retained_row(alloc: Global, topic: &TopicName, entry: &Kept) -> Result<Row, NoMemory>
    ensures { IfOk result (λ row. entry_of row
        ≡ ((5, (topic.now, [])), (kept topic.now).bytes entry.now)) }
{
    let mut value = Vec::new(alloc);
    write_kept(topic, entry, &mut value)?;
    let owner = Vec::from_slice(alloc, topic.as_str().as_bytes())?;
    Ok(Row {
        kind: RETAINED,
        owner,
        place: Vec::new(alloc),
        value,
    })
}

/// The row of the dots at the place.
pub fn context_row(alloc: Global, at: u8, dots: &Context) -> Result<Row, NoMemory>
    ensures { IfOk result (λ row. entry_of row ≡ ((6, ([], at ∷ [])), context.bytes dots.now)) }
{
    let mut value = Vec::new(alloc);
    dots.write(&mut value)?;
    let place = Vec::from_slice(alloc, &[at])?;
    Ok(Row {
        kind: CONTEXT,
        owner: Vec::new(alloc),
        place,
        value,
    })
}
