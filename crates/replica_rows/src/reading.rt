//! A store that is read from its rows.
ghost use Rattle.std.specs.Prelude.{◌≡◌, ◌<◌, ◌⊎◌, map as map_list, T, None, [], ◌∷◌, length, OnOk, IfOk, IfErr, IsErrOf, IsOk, IsTrue};
ghost use Rattle.std.specs.FinMap as map;
ghost use Rattle.causal_context.specs.Dots.{dot_cmp};
ghost use Rattle.causal_context.specs.Spelling.{context, HasSpelling, WantsMemory};
ghost use Rattle.mqtt_fields.specs.declared.fault.FieldFault.TheVariants as faults;
ghost use Rattle.mqtt_fields.specs.Numbers.{IsText};
ghost use Rattle.mqtt_message.specs.Parts.{name};
ghost use Rattle.row_store.specs.Rows.{entry_of, key_cmp, key_of};
ghost use Rattle.replica_bytes.specs.Memory.{HasText, KeptWants};
ghost use Rattle.replica_bytes.specs.Values.{dot, subscription, subscription_in, kept};
ghost use Rattle.mqtt_fields.specs.Reading.{Finds};
ghost use Rattle.replica_rows.specs.ReadingSteps.{AreSaid, Contradicts, IsDots, IsSubscription, IsTopic, NoDots, NoSubscription, SaysMore, TakesDots, TakesSubscription, TakesTopic, Topic, AreSeenThere, row_of, said, state_of};
ghost use Rattle.replica_rows.specs.Memory.{FirstWants, RowWants, RowsWant};
ghost use Rattle.replica_rows.specs.Reading.{AreAllRowsOf, AreOfNone, IsStore};

use crate::laws::is_store;
use crate::row::{SEEN, TAKEN};
use causal_context::{Context, Dot, Lattice};
use mqtt_fields::{FieldFault, NoMemory, Text, are_bytes};
use mqtt_topics::{TopicFault, TopicName};
use replica_bytes::{content_of, dot_at, entry_of as entry_at, kept_at};
use replica_store::{Kept, ReplicaStore, RetainedMap, StoreFault};
use row_store::kinds::{CONTEXT, RETAINED, SUBSCRIPTION};
use row_store::{Row, are_rising};
use std::alloc::Global;
use std::collections::BTreeMap;
use subscription_set::{Entry, SubscriptionSet};

/// What rows say.
#[derive(Drop)]
pub(crate) struct Parts {
    pub taken: Context,
    pub seen: Context,
    pub standing: BTreeMap<Dot, Entry>,
    pub retained: RetainedMap,
}

#[tactic(auto, using(mqtt_fields::proofs::TextLaws::texts))]
fn text_of(alloc: Global, bytes: &[u8]) -> Result<Text, FieldFault>
    ensures found { Finds (λ t. t) (λ t. (bytes.now ≡ t) × IsText t) result }
    ensures no_memory { IsErrOf result FieldFault.NoMemory → IsText bytes.now }
{
    let Ok(text) = str::from_utf8(bytes) else {
        return Err(FieldFault::Malformed);
    };
    Text::new(alloc, text)
}

fn name_of(alloc: Global, bytes: &[u8]) -> Result<TopicName, FieldFault>
    ensures found { Finds (λ n. n) (λ n. (bytes.now ≡ n) × name.Fits n) result }
    ensures no_memory { IsErrOf result FieldFault.NoMemory → IsText bytes.now }
{
    let text = text_of(alloc, bytes)?;
    match TopicName::of_text(alloc, &text) {
        Ok(name) => Ok(name),
        Err(TopicFault::NoMemory) => Err(FieldFault::NoMemory),
        Err(_) => Err(FieldFault::Malformed),
    }
}

fn dot_of(place: &[u8]) -> Result<Dot, FieldFault>
    ensures found { Finds (λ d. d) (λ d. (place.now ≡ dot.bytes d) × dot.Fits d) result }
    ensures no_memory { IsErrOf result FieldFault.NoMemory → ⊥ }
{
    are_bytes(place);
    match &dot_at(place) {
        Ok((dot, rest)) => {
            if rest.is_empty() {
                Ok(*dot)
            } else {
                Err(FieldFault::Malformed)
            }
        }
        Err(fault) => Err(*fault),
    }
}

// The client's subscription whose filter, options and identifier the bytes are.
fn entry_of(alloc: Global, client: Text, bytes: &[u8]) -> Result<Entry, FieldFault>
    ensures found { Finds (λ e. e) (λ e. (e.client ≡ client) × (bytes.now ≡ subscription.bytes (subscription_in e))
        × subscription.Fits (subscription_in e)) result }
    ensures no_memory { IsErrOf result FieldFault.NoMemory → HasText bytes.now }
{
    are_bytes(bytes);
    match entry_at(alloc, client, bytes) {
        Ok((entry, [])) => Ok(entry),
        Ok(_) => Err(FieldFault::Malformed),
        Err(fault) => Err(fault),
    }
}

fn kept_of(alloc: Global, topic: &TopicName, bytes: &[u8]) -> Result<Kept, FieldFault>
    ensures found { Finds (λ k. k) (λ k. (bytes.now ≡ (kept topic.now).bytes k) × (kept topic.now).Fits k) result }
    ensures no_memory { IsErrOf result FieldFault.NoMemory → KeptWants bytes.now }
{
    are_bytes(bytes);
    match kept_at(alloc, topic, bytes) {
        Ok((kept, [])) => Ok(kept),
        Ok(_) => Err(FieldFault::Malformed),
        Err(fault) => Err(fault),
    }
}

fn dots_of(alloc: Global, bytes: &[u8]) -> Result<Context, FieldFault>
    ensures found { Finds (λ d. d) (λ d. (bytes.now ≡ context.bytes d) × HasSpelling d) result }
    ensures no_memory { IsErrOf result FieldFault.NoMemory → WantsMemory bytes.now }
{
    are_bytes(bytes);
    match Context::at(alloc, bytes) {
        Ok((dots, [])) => Ok(dots),
        Ok(_) => Err(FieldFault::Malformed),
        Err(fault) => Err(fault),
    }
}

// The subscription whose row it is, and its dot.
fn read_subscription_row(alloc: Global, row: &Row) -> Result<(Dot, Entry), FieldFault>
    requires { row.now.kind ≡ 4 }
    ensures found { Finds (λ x. x) (IsSubscription (entry_of row.now)) result }
    ensures no_memory { IsErrOf result FieldFault.NoMemory → IsText row.now.owner.items }
{
    let client = text_of(alloc, &row.owner)?;
    let dot = dot_of(&row.place)?;
    let entry = entry_of(alloc, client, &row.value)?;
    Ok((dot, entry))
}

// The topic whose row it is, and what is kept of it.
fn read_retained_row(alloc: Global, row: &Row) -> Result<(TopicName, Kept), FieldFault>
    requires { row.now.kind ≡ 5 }
    ensures found { Finds (λ x. x) (IsTopic (entry_of row.now)) result }
    ensures no_memory { IsErrOf result FieldFault.NoMemory → (row.now.place.items ≡ []) × IsText row.now.owner.items }
{
    if !row.place.is_empty() {
        return Err(FieldFault::Malformed);
    }
    let topic = name_of(alloc, &row.owner)?;
    let kept = kept_of(alloc, &topic, &row.value)?;
    Ok((topic, kept))
}

// The dots whose row it is: no dots have none.
fn read_context_row(alloc: Global, at: u8, row: &Row) -> Result<Context, FieldFault>
    requires kind { row.now.kind ≡ 6 }
    requires place { row.now.place.items ≡ at ∷ [] }
    ensures found { Finds (λ d. (at, d)) (IsDots (entry_of row.now)) result }
    ensures no_memory { IsErrOf result FieldFault.NoMemory → (row.now.owner.items ≡ []) × WantsMemory row.now.value.items }
{
    if !row.owner.is_empty() {
        return Err(FieldFault::Malformed);
    }
    let dots = dots_of(alloc, &row.value)?;
    if dots.is_empty() {
        return Err(FieldFault::Malformed);
    }
    Ok(dots)
}

// What the row says beside what stands.
fn take_subscription(
    alloc: Global,
    row: &Row,
    standing: &mut BTreeMap<Dot, Entry>,
) -> Result<(), FieldFault>
    requires { row.now.kind ≡ 4 }
    ensures ok { OnOk result (TakesSubscription (entry_of row.now)
        (map.from_entries standing.old.entries) (map.from_entries standing.new.entries)) }
    ensures bad { IfErr result (λ f. (f ≡ faults.NoMemory)
        ⊎ NoSubscription (entry_of row.now) (map.from_entries standing.old.entries)) }
    ensures no_memory { IsErrOf result FieldFault.NoMemory → RowWants (entry_of row.now) }
{
    let (dot, entry) = read_subscription_row(alloc, row)?;
    if standing.insert(dot, entry)?.is_some() {
        return Err(FieldFault::Malformed);
    }
    Ok(())
}

// What the row says beside what is kept of other topics.
#[tactic(auto, unfolding(replica_bytes::specs::Values::kept))]
fn take_topic(alloc: Global, row: &Row, retained: &mut RetainedMap) -> Result<(), FieldFault>
    requires { row.now.kind ≡ 5 }
    ensures ok { OnOk result (TakesTopic (entry_of row.now) retained.old retained.new) }
    ensures bad { IfErr result (λ f. (f ≡ faults.NoMemory)
        ⊎ ((x : Topic) → IsTopic (entry_of row.now) x → ⊥)) }
    ensures no_memory { IsErrOf result FieldFault.NoMemory → RowWants (entry_of row.now) }
{
    let (topic, kept) = read_retained_row(alloc, row)?;
    retained.put(kept.stamp, content_of(topic, kept.message))?;
    Ok(())
}

// The dots that were taken, or those that were seen, as the row says.
fn take_dots(alloc: Global, row: &Row, parts: &mut Parts) -> Result<(), FieldFault>
    requires { row.now.kind ≡ 6 }
    ensures ok { OnOk result (TakesDots (entry_of row.now) (said parts.old) (said parts.new)) }
    ensures bad { IfErr result (λ f. (f ≡ faults.NoMemory) ⊎ NoDots (entry_of row.now)) }
    ensures no_memory { IsErrOf result FieldFault.NoMemory → RowWants (entry_of row.now) }
{
    match row.place.as_slice() {
        [1] => match read_context_row(alloc, TAKEN, row) {
            Ok(taken) => {
                parts.taken = taken;
                Ok(())
            }
            Err(fault) => Err(fault),
        },
        [2] => match read_context_row(alloc, SEEN, row) {
            Ok(seen) => {
                parts.seen = seen;
                Ok(())
            }
            Err(fault) => Err(fault),
        },
        _ => Err(FieldFault::Malformed),
    }
}

// What the row says beside what those before it say.
fn take(alloc: Global, row: &Row, parts: &mut Parts) -> Result<(), FieldFault>
    ensures ok { OnOk result (row_of (said parts.old) (key_of row.now) ≡ None
        → SaysMore (entry_of row.now) (said parts.old) (said parts.new)) }
    ensures bad { IfErr result (λ f. (f ≡ faults.NoMemory)
        ⊎ Contradicts (entry_of row.now) (said parts.old)) }
    ensures begun { OnOk result (RowWants (entry_of row.now)) }
    ensures no_memory { IsErrOf result FieldFault.NoMemory → RowWants (entry_of row.now) }
{
    match row.kind {
        SUBSCRIPTION => take_subscription(alloc, row, &mut parts.standing),
        RETAINED => take_topic(alloc, row, &mut parts.retained),
        CONTEXT => take_dots(alloc, row, parts),
        _ => Err(FieldFault::Malformed),
    }
}

// What the rows say.
fn gather(alloc: Global, rows: &[Row]) -> Result<Parts, FieldFault>
    requires { T (map.is_sorted key_cmp (map_list entry_of rows.now)) }
    ensures ok { IfOk result (λ p. AreSaid (map_list entry_of rows.now) (said p)) }
    ensures bad { IfErr result (λ f. (f ≡ faults.NoMemory) ⊎ AreOfNone rows.now) }
    ensures begun { OnOk result (0 < length rows.now → FirstWants rows.now) }
    ensures no_memory { IsErrOf result FieldFault.NoMemory → FirstWants rows.now }
{
    let mut parts = Parts {
        taken: Context::new(alloc),
        seen: Context::new(alloc),
        standing: BTreeMap::new(alloc),
        retained: RetainedMap::new(alloc),
    };
    for row in rows {
        take(alloc, row, &mut parts)?;
    }
    Ok(parts)
}

// The subscriptions in the order of their dots.
fn entries_of(alloc: Global, standing: BTreeMap<Dot, Entry>) -> Result<Vec<(Dot, Entry)>, NoMemory>
    ensures { IfOk result (λ out. out.items ≡ map.entries (map.from_entries {R = dot_cmp} standing.entries)) }
{
    let mut entries = Vec::new(alloc);
    for entry in standing {
        entries.push(entry)?;
    }
    Ok(entries)
}

// The store that the parts make, if each dot of what stands was seen, and each that was taken.
fn store_of(alloc: Global, parts: Parts) -> Result<ReplicaStore, FieldFault>
    ensures ok { IfOk result (λ s. (s ≡ state_of (said parts)) × AreSeenThere (said parts)) }
    ensures bad { IfErr result (λ f. (f ≡ faults.NoMemory) ⊎ (AreSeenThere (said parts) → ⊥)) }
{
    let Parts {
        taken,
        seen,
        standing,
        retained,
    } = parts;
    let entries = entries_of(alloc, standing)?;
    if !taken.is_below(&seen) {
        return Err(FieldFault::Malformed);
    }
    match SubscriptionSet::new(seen, entries)? {
        None => Err(FieldFault::Malformed),
        Some(set) => Ok(ReplicaStore::of_parts(alloc, taken, set, retained)),
    }
}

fn store_in(alloc: Global, rows: &[Row]) -> Result<ReplicaStore, FieldFault>
    ensures ok { IfOk result (AreAllRowsOf rows.now) }
    ensures store { IfOk result IsStore }
    ensures bad { IfErr result (λ f. (f ≡ faults.NoMemory) ⊎ AreOfNone rows.now) }
    ensures no_memory { IsErrOf result FieldFault.NoMemory → 0 < length rows.now → RowsWant rows.now }
{
    if !are_rising(rows) {
        return Err(FieldFault::Malformed);
    }
    let parts = gather(alloc, rows)?;
    store_of(alloc, parts)
}

/// The store whose rows these are, in the order of their keys.
///
/// BadRow where no store has just these rows. No rows take no memory: it is wanted only where rows rise by
/// their keys, and the client, the topic or a range of the first has been read.
pub fn from_rows(alloc: Global, rows: &[Row]) -> Result<ReplicaStore, StoreFault>
    ensures ok { IfOk result (AreAllRowsOf rows.now) }
    ensures store { IfOk result IsStore }
    ensures bad { IsErrOf result StoreFault.BadRow → AreOfNone rows.now }
    ensures fault { IfErr result (λ e. (e ≡ StoreFault.NoMemory) ⊎ (e ≡ StoreFault.BadRow)) }
    ensures none { length rows.now ≡ 0 → IsOk result }
    ensures no_memory { IsErrOf result StoreFault.NoMemory → RowsWant rows.now }
{
    if rows.is_empty() {
        let none = ReplicaStore::new(alloc);
        is_store(&none);
        return Ok(none);
    }
    match store_in(alloc, rows) {
        Ok(store) => Ok(store),
        Err(FieldFault::NoMemory) => Err(StoreFault::NoMemory),
        Err(_) => Err(StoreFault::BadRow),
    }
}
