//! What a merge brings, found before it changes anything.
ghost use Rattle.std.specs.Prelude.{◌≡◌, ◌↔◌, ◌⊎◌, ◌<◌, IfOk, OnOk, OnErr, IsTrue, length, map as map_list};
ghost use Rattle.std.specs.Option.{option_copied};
ghost use Rattle.std.specs.FinMap as map;
ghost use Rattle.std.specs.Map.Iter.{deref_pair};
ghost use Rattle.replica_store.specs.Merging.{AllBelow, AllHeld, NoneHeld, fresh_in, greater_in, is_newer, is_greater, is_covered, with_all, without_all, KeepsOthers};

use crate::kept::Kept;
use crate::stamp::Stamp;
use crate::topics::Topics;
use mqtt_fields::NoMemory;
use mqtt_message::SharedMessage;
use mqtt_topics::TopicName;
use std::alloc::Global;

/// What a merge brings.
#[derive(Drop)]
pub struct News<'a> {
    /// The other's entries of topics that aren't here.
    pub fresh: Vec<(&'a TopicName, &'a Kept)>,
    /// Its entries that are greater than what is here.
    pub greater: Vec<(TopicName, Kept)>,
}

/// Whether an entry of this stamp and this message, or none, is greater than what its topic has.
pub fn wins(own: Option<&Kept>, stamp: Stamp, message: Option<&SharedMessage>) -> bool
    ensures { result ≡ is_newer (option_copied own.entry) (record { stamp = stamp; message = option_copied message.entry }) }
{
    match own {
        None => true,
        Some(own) => own.gives_way(stamp, message),
    }
}

// Whether the topic has an entry there that is no less.
fn is_at_most(kept: &Kept, theirs: Option<&Kept>) -> bool
    ensures { result ≡ is_covered kept.now (option_copied theirs.entry) }
{
    match theirs {
        None => false,
        Some(theirs) => !theirs.is_below(kept),
    }
}

/// Whether the other has an entry for each of these, and none of these is greater.
pub fn are_below(topics: &Topics, others: &Topics) -> bool
    ensures { IsTrue result ↔ AllBelow (map.entries topics.now) others.now }
{
    for (topic, kept) in topics.iter() {
        if !is_at_most(kept, others.get(topic)) {
            return false;
        }
    }
    true
}

// The other's entries of topics that aren't here. Only these take memory.
fn fresh<'a>(
    alloc: Global,
    topics: &Topics,
    others: &'a Topics,
) -> Result<Vec<(&'a TopicName, &'a Kept)>, NoMemory>
    ensures fresh { IfOk result (λ out.
        map_list deref_pair out.items ≡ fresh_in topics.now (map.entries others.now)) }
    ensures memory { OnErr result (0 < length (fresh_in topics.now (map.entries others.now))) }
{
    let mut out = Vec::new(alloc);
    for (topic, kept) in others.iter() {
        if topics.get(topic).is_none() {
            out.push((topic, kept))?;
        }
    }
    Ok(out)
}

// Whether there is an entry here, and this one is greater.
fn is_greater(own: Option<&Kept>, kept: &Kept) -> bool
    ensures { result ≡ is_greater (option_copied own.entry) kept.now }
{
    match own {
        None => false,
        Some(own) => own.is_below(kept),
    }
}

// Copies of the other's entries that are greater than what is here. Only these take memory.
fn greater(
    alloc: Global,
    topics: &Topics,
    others: &Topics,
) -> Result<Vec<(TopicName, Kept)>, NoMemory>
    ensures greater { IfOk result (λ out.
        out.items ≡ greater_in topics.now (map.entries others.now)) }
    ensures memory { OnErr result (0 < length (greater_in topics.now (map.entries others.now))) }
{
    let mut out = Vec::new(alloc);
    for (topic, kept) in others.iter() {
        if is_greater(topics.get(topic), kept) {
            let topic = topic.copy(alloc)?;
            let kept = kept.copy()?;
            out.push((topic, kept))?;
        }
    }
    Ok(out)
}

/// What a merge with the other brings. Where it brings nothing this takes no memory.
pub fn news_of<'a>(alloc: Global, topics: &Topics, others: &'a Topics) -> Result<News<'a>, NoMemory>
    ensures fresh { IfOk result (λ news.
        map_list deref_pair news.fresh.items ≡ fresh_in topics.now (map.entries others.now)) }
    ensures greater { IfOk result (λ news.
        news.greater.items ≡ greater_in topics.now (map.entries others.now)) }
    ensures memory { OnErr result ((0 < length (fresh_in topics.now (map.entries others.now)))
        ⊎ (0 < length (greater_in topics.now (map.entries others.now)))) }
{
    let fresh = fresh(alloc, topics, others)?;
    let greater = greater(alloc, topics, others)?;
    Ok(News { fresh, greater })
}

// Puts copies of the entries in, which alone take memory. Where it runs out some of them are in.
fn add_some(
    alloc: Global,
    topics: &mut Topics,
    fresh: &[(&TopicName, &Kept)],
) -> Result<(), NoMemory>
    ensures ok { OnOk result (topics.new ≡ with_all topics.old (map_list deref_pair fresh.now)) }
    ensures others { KeepsOthers topics.old topics.new (map_list deref_pair fresh.now) }
    ensures memory { OnErr result (0 < length fresh.now) }
{
    for (topic, kept) in fresh {
        let topic = topic.copy(alloc)?;
        let kept = kept.copy()?;
        topics.insert(topic, kept)?;
    }
    Ok(())
}

// Takes the entries of these topics out.
fn take_out(topics: &mut Topics, fresh: &[(&TopicName, &Kept)])
    ensures { topics.new ≡ without_all topics.old (map_list deref_pair fresh.now) }
{
    for (topic, _) in fresh {
        topics.remove(topic);
    }
}

/// Puts copies of the entries in, whose topics have none. Where memory runs out it takes out again
/// what it has put in.
pub fn add_fresh(
    alloc: Global,
    topics: &mut Topics,
    fresh: &[(&TopicName, &Kept)],
) -> Result<(), NoMemory>
    requires { NoneHeld topics.old (map_list deref_pair fresh.now) }
    ensures ok { OnOk result (topics.new ≡ with_all topics.old (map_list deref_pair fresh.now)) }
    ensures err { OnErr result (topics.new ≡ topics.old) }
    ensures memory { OnErr result (0 < length fresh.now) }
{
    match add_some(alloc, topics, fresh) {
        Ok(()) => Ok(()),
        Err(fault) => {
            take_out(topics, fresh);
            Err(fault)
        }
    }
}

/// Puts the entries in the places of what their topics have. It takes no memory.
pub fn put_greater(topics: &mut Topics, greater: Vec<(TopicName, Kept)>)
    requires { AllHeld topics.old greater.items }
    ensures { topics.new ≡ with_all topics.old greater.items }
{
    for (topic, kept) in greater {
        topics.replace(topic, kept);
    }
}
