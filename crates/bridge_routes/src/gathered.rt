//! Subscriptions by their clients, and by their groups.

ghost use Rattle.std.specs.Prelude.{◌≡◌, ◌<◌, ◌≤◌, ◌+◌, ◌∷◌, drop, length, IfOk, OnOk, OnErr};
ghost use Rattle.std.specs.List.Sorted.{IsSortedByKey};
ghost use Rattle.std.specs.Ordering.{eq_by_cmp};
ghost use Rattle.std.specs.BTreeMap.{IsOrdered};
ghost use Rattle.mqtt_topics.specs.Topics.{share_name, share_filter};
ghost use Rattle.subscription_set.specs.Filing.{text_cmp};
ghost use Rattle.bridge_routes.specs.Gathered.{by_client, by_group, client_of, group_of, group_cmp};
ghost use Rattle.bridge_routes.specs.Tables.{IsPutUnder, front, referred, referents, shown};

use mqtt_fields::{NoMemory, Text};
use mqtt_topics::Filter;
use std::alloc::Global;
use std::collections::BTreeMap;
use subscription_set::Entry;

/// A client, and its subscriptions.
pub type Member<'a> = (&'a Text, &'a [&'a Entry]);

/// Puts subscriptions in the order of their clients' bytes; those of one client stay in their order. Up to 20 take no memory.
pub fn sort_by_client(entries: &mut Vec<&Entry>) -> Result<(), NoMemory>
    ensures order { OnOk result (IsSortedByKey client_of text_cmp (referents entries.new.items)) }
    ensures same { OnOk result
        (by_client (referents entries.new.items) ≡ by_client (referents entries.old.items)) }
    ensures memory { OnErr result (20 < length entries.old.items) }
{
    entries.sort_by(|a, b| a.client().cmp(b.client()))?;
    Ok(())
}

// Whether a subscription is a client's.
fn is_of(client: &Text, entry: &Entry) -> bool
    ensures { result ≡ eq_by_cmp text_cmp client.now entry.now.client }
{
    client == entry.client()
}

// How many at the front are a client's.
fn front_of(client: &Text, entries: &[&Entry]) -> usize
    ensures front { result ≡ front text_cmp client_of client.now (referents entries.now) }
    ensures within { result ≤ length entries.now }
{
    for i in 0..entries.len() {
        if !is_of(client, entries[i]) {
            return i;
        }
    }
    entries.len()
}

/// The client of the subscription in a place, with its subscriptions from there on.
pub fn member_at<'a>(entries: &'a [&'a Entry], place: usize) -> Member<'a>
    requires there { place < length entries.now }
    requires order { IsSortedByKey client_of text_cmp (referents entries.now) }
    ensures within { place + length result.1.now ≤ length entries.now }
    ensures some { 0 < length result.1.now }
    ensures first { by_client (referents (drop place entries.now))
        ≡ (result.0.now, referents result.1.now)
        ∷ by_client (referents (drop (place + length result.1.now) entries.now)) }
{
    let client = entries[place].client();
    let (_, left) = entries.split_at(place);
    let (own, _) = left.split_at(front_of(client, left));
    (client, own)
}

/// The clients, each with its subscriptions, of subscriptions in the order of their clients' bytes. Only these take memory.
pub fn by_client<'a>(alloc: Global, entries: &'a [&'a Entry]) -> Result<Vec<Member<'a>>, NoMemory>
    requires { IsSortedByKey client_of text_cmp (referents entries.now) }
    ensures members { IfOk result (λ members. referred members.items ≡ by_client (referents entries.now)) }
    ensures memory { OnErr result (0 < length entries.now) }
{
    let mut members = Vec::with_capacity(alloc, entries.len())?;
    let mut place = 0;
    while place < entries.len() {
        let (client, own) = member_at(entries, place);
        members.push((client, own))?;
        place += own.len();
    }
    Ok(members)
}

// The group of a filter: its share name and its filter.
fn group_of(alloc: Global, filter: &Filter) -> Result<(Text, Text), NoMemory>
    ensures { IfOk result (λ group. group ≡ (share_name filter.now, share_filter filter.now)) }
{
    let Some(share) = filter.as_str().strip_prefix("$share/") else {
        return Err(NoMemory);
    };
    let (name, part) = share.split_once('/').unwrap_or((share, ""));
    match (Text::new(alloc, name), Text::new(alloc, part)) {
        (Ok(name), Ok(part)) => Ok((name, part)),
        _ => Err(NoMemory),
    }
}

// Puts a subscription with those of its group.
fn put_with_group<'a>(
    alloc: Global,
    table: &mut BTreeMap<(Text, Text), Vec<&'a Entry>>,
    entry: &'a Entry,
) -> Result<(), NoMemory>
    ensures put { OnOk result (IsPutUnder group_cmp (group_of entry.now) entry.now (shown table.old.entries) (shown table.new.entries)) }
    ensures ordered { OnOk result (IsOrdered group_cmp table.new) }
{
    let group = group_of(alloc, entry.filter())?;
    let mut own = table.remove(&group).unwrap_or(Vec::new(alloc));
    own.push(entry)?;
    table.insert(group, own)?;
    Ok(())
}

/// The groups in order, each with its subscriptions. Only these take memory.
pub fn by_group<'a>(
    alloc: Global,
    entries: &[&'a Entry],
) -> Result<BTreeMap<(Text, Text), Vec<&'a Entry>>, NoMemory>
    ensures table { IfOk result (λ table.
        shown table.entries ≡ by_group (referents entries.now)) }
    ensures memory { OnErr result (0 < length entries.now) }
{
    let mut table = BTreeMap::new(alloc);
    for entry in entries {
        put_with_group(alloc, &mut table, *entry)?;
    }
    Ok(table)
}
