//! Laws of the rows of stores. Each function does nothing: its contract is the law.
ghost use Rattle.std.specs.FinMap as map;
ghost use Rattle.mqtt_fields.specs.Numbers.{IsText};
ghost use Rattle.mqtt_message.specs.Parts.{name};
ghost use Rattle.replica_bytes.specs.Values as spec;
ghost use Rattle.subscription_set.specs.Standing.{standing};
ghost use Rattle.replica_rows.specs.ReadingSteps.{AllCanStand, AllHaveSpellings};
ghost use Rattle.replica_rows.specs.Reading.{CanStand, HaveOneReading, IsStore, TellAll};

use causal_context::Dot;
use mqtt_topics::TopicName;
use replica_bytes::kept_fits;
use replica_store::{Kept, ReplicaStore, RetainedMap};
use subscription_set::{Entry, SubscriptionSet};

/// Two stores with the same rows are the same.
pub fn rows_tell_all()
    ensures { TellAll }
{}

/// Rows are those of one store at most, so what is read of the rows of a store is the store.
pub fn rows_have_one_reading()
    ensures { HaveOneReading }
{}

#[tactic(auto, using(replica_bytes::proofs::Fits::fits))]
fn can_stand(at: Dot, entry: &Entry)
    ensures dot { spec.dot.Fits at }
    ensures client { IsText entry.now.client }
    ensures can { CanStand entry.now }
{
    let _node = at.node();
    let _number = at.number();
    let _client = entry.client().as_str();
    let _filter = entry.filter().as_str();
    let _options = entry.options().byte();
    let _identifier = entry.identifier();
    let _version = entry.version();
}

fn all_can_stand(set: &SubscriptionSet)
    ensures { AllCanStand (standing set.now) }
{
    for (at, entry) in set.entries() {
        can_stand(*at, entry);
    }
}

fn has_spelling(topic: &TopicName, kept: &Kept)
    requires { spec.IsOwn (topic.now, kept.now) }
    ensures topic { name.Fits topic.now }
    ensures kept { (spec.kept topic.now).Fits kept.now }
{
    let _text = topic.as_text().as_str();
    kept_fits(topic, kept);
}

fn all_have_spellings(retained: &RetainedMap)
    ensures { AllHaveSpellings (map.entries retained.now) }
{
    for (topic, kept) in retained.entries() {
        has_spelling(topic, kept);
    }
}

/// Each store is one whose rows can be read.
pub fn is_store(store: &ReplicaStore)
    ensures { IsStore store.now }
{
    store.has_seen();
    let _taken = store.taken().ranges();
    let _seen = store.subscriptions().seen().ranges();
    all_can_stand(store.subscriptions());
    all_have_spellings(store.retained());
}
