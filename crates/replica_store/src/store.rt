//! The shared state of a node.
ghost use Rattle.std.specs.Prelude.{◌≡◌, ◌≢◌, ◌↔◌, ◌+◌, ◌≤◌, ◌^◌, OnOk, OnErr, IfOk, IfErr, IfSome, IsNone, IsOk, [], IsErrOf, ◌⊎◌, true, false, Ok, Some, None, map as map_list};
ghost use Rattle.std.specs.Option.{option_copied};
ghost use Rattle.causal_context.specs.Lattices.{lattice_from_join};
ghost use Rattle.subscription_set.specs.Standing.{any_of, any_below};
ghost use Rattle.replica_store.specs.declared.fault.StoreFault.TheVariants.{NumbersAtEnd};
ghost use Rattle.replica_store.specs.Answers.{IsAnswer};
ghost use Rattle.replica_store.specs.Making.{NumberAtEnd, CountAtEnd, next_dot, subscribe_of, remove_of, remove_below_of, put_of};
ghost use Rattle.replica_store.specs.StateOf.{delta_of as delta};
ghost use Rattle.replica_store.specs.States.{State, TakenIsSeen, nothing, state_join, StateBelow};
ghost use Rattle.replica_store.specs.StateLattice.{state_lattice};
ghost use Rattle.std.specs.FinMap as map;

use crate::answer::answers;
use crate::content::Content;
use crate::delta::delta_of;
use crate::fault::StoreFault;
use crate::operation::Operation;
use crate::retained::RetainedMap;
use crate::stamp::Stamp;
use causal_context::{Context, Dot, Lattice};
use mqtt_fields::{NoMemory, Text};
use mqtt_message::SharedMessage;
use mqtt_topics::Filter;
use std::alloc::Global;
use std::marker::Model;
use std::mem;
use subscription_set::{Entry, SubscriptionSet};

/// The shared state of a node: the dots of the operations that it has taken, the subscriptions and
/// the retained messages. Two nodes that have taken the same operations have the same state.
/// It grows by the allocator of its constructor.
pub struct ReplicaStore {
    pub(crate) alloc: Global,
    pub(crate) taken: Context,
    pub(crate) subscriptions: SubscriptionSet,
    pub(crate) retained: RetainedMap,
}

impl Drop for ReplicaStore {
    fn drop(self) {
        let ReplicaStore {
            alloc: _alloc,
            taken: _taken,
            subscriptions: _subscriptions,
            retained: _retained,
        } = self;
    }
}

impl Model for ReplicaStore {
    ghost use Rattle.replica_store.specs.States.{State, TakenIsSeen, coded_state};

    ghost Value = { State };

    ghost coded = { coded_state };

    ghost view = { λ s. record {
      taken = s.taken;
      subscriptions = s.subscriptions;
      retained = s.retained;
    } };

    ghost invariant = { λ s. TakenIsSeen (record {
      taken = s.taken;
      subscriptions = s.subscriptions;
      retained = s.retained;
    }) };
}

impl ReplicaStore {
    /// The state of no operation.
    pub fn new(alloc: Global) -> ReplicaStore
        ensures { result ≡ nothing }
    {
        ReplicaStore {
            alloc,
            taken: Context::new(alloc),
            subscriptions: SubscriptionSet::empty(alloc),
            retained: RetainedMap::new(alloc),
        }
    }

    /// The state of these parts, where each dot that was taken was seen. It takes no memory.
    pub fn of_parts(
        alloc: Global,
        taken: Context,
        subscriptions: SubscriptionSet,
        retained: RetainedMap,
    ) -> ReplicaStore
        requires { TakenIsSeen (record { taken = taken; subscriptions = subscriptions; retained = retained }) }
        ensures { result ≡ record { taken = taken; subscriptions = subscriptions; retained = retained } }
    {
        ReplicaStore {
            alloc,
            taken,
            subscriptions,
            retained,
        }
    }

    /// The dots of the operations that were taken.
    pub fn taken(&self) -> &Context
        ensures { result.now ≡ self.now.taken }
    {
        &self.taken
    }

    /// Each dot that was taken was seen.
    pub fn has_seen(&self)
        ensures { TakenIsSeen self.now }
    {
        let _taken = &self.taken;
    }

    /// The subscriptions.
    pub fn subscriptions(&self) -> &SubscriptionSet
        ensures { result.now ≡ self.now.subscriptions }
    {
        &self.subscriptions
    }

    /// The retained messages.
    pub fn retained(&self) -> &RetainedMap
        ensures { result.now ≡ self.now.retained }
    {
        &self.retained
    }

    /// The messages that answer a new subscription to the filter, in the order of their topics:
    /// those of the topics that match and whose message is alive; none for a shared filter. Topics that
    /// can't match are passed by. It takes memory only where one answers.
    pub fn retained_for(&self, filter: &Filter, now: u64) -> Result<Vec<&SharedMessage>, NoMemory>
        ensures answer { IfOk result (λ out.
            IsAnswer filter.now now (map.entries self.now.retained) (map_list (λ r. r.now) out.items)) }
        ensures nothing { IsAnswer filter.now now (map.entries self.now.retained) [] → IsOk result }
    {
        answers(self.alloc, filter, now, self.retained.by_topic())
    }

    /// The same state once more. One of nothing takes no memory.
    pub fn copy(&self) -> Result<ReplicaStore, NoMemory>
        ensures same { IfOk result (λ copy. copy ≡ self.now) }
        ensures none { self.now ≡ nothing → IsOk result }
    {
        let taken = self.taken.copy()?;
        let subscriptions = self.subscriptions.copy()?;
        let retained = self.retained.copy()?;
        Ok(ReplicaStore {
            alloc: self.alloc,
            taken,
            subscriptions,
            retained,
        })
    }

    /// Takes the operation: the same as to join its delta.
    pub fn apply(&mut self, operation: &Operation) -> Result<(), StoreFault>
        ensures ok { OnOk result (self.new ≡ state_join self.old (delta operation.now)) }
        ensures fault { IfErr result (λ e. e ≡ StoreFault.NoMemory) }
        ensures err { OnErr result (self.new ≡ self.old) }
    {
        let delta = delta_of(self.alloc, operation)?;
        self.join(&delta)?;
        Ok(())
    }

    // The node's next dot.
    fn next_dot(&self, node: u16) -> Option<Dot>
        ensures some { IfSome result (λ dot. dot ≡ next_dot node self.now) }
        ensures none { IsNone result ↔ NumberAtEnd node self.now }
    {
        Dot::new(node, self.taken.greatest(node) + 1)
    }

    /// A Subscribe of the entry that covers what stands of its client to its filter. The store
    /// doesn't change. Only what stands takes memory.
    pub fn make_subscribe(&self, node: u16, entry: Entry) -> Result<Operation, StoreFault>
        ensures ok { IfOk result (λ o. o ≡ subscribe_of node entry self.now) }
        ensures at_end { IsErrOf result NumbersAtEnd ↔ NumberAtEnd node self.now }
        ensures memory { IsErrOf result StoreFault.NoMemory
            → any_of entry.client (Some entry.filter) self.now.subscriptions ≡ true }
        ensures fault { IfErr result (λ e. (e ≡ NumbersAtEnd) ⊎ (e ≡ StoreFault.NoMemory)) }
    {
        let Some(dot) = self.next_dot(node) else {
            return Err(StoreFault::NumbersAtEnd);
        };
        let cover = self
            .subscriptions
            .dots_of(entry.client(), Some(entry.filter()))?;
        Ok(Operation::Subscribe { dot, entry, cover })
    }

    /// A Remove that covers what stands of the client and, where one is given, to the filter;
    /// none where nothing stands, which takes no memory. The store doesn't change.
    pub fn make_remove(
        &self,
        node: u16,
        client: &Text,
        filter: Option<&Filter>,
    ) -> Result<Option<Operation>, StoreFault>
        ensures ok { IfOk result (λ o.
            o ≡ remove_of node client.now (option_copied filter.entry) self.now) }
        ensures at_end { IsErrOf result NumbersAtEnd ↔ (NumberAtEnd node self.now
            × (any_of client.now (option_copied filter.entry) self.now.subscriptions ≡ true)) }
        ensures nothing { any_of client.now (option_copied filter.entry) self.now.subscriptions ≡ false
            → result ≡ Ok None }
        ensures fault { IfErr result (λ e. (e ≡ NumbersAtEnd) ⊎ (e ≡ StoreFault.NoMemory)) }
    {
        if !self.subscriptions.stands(client, filter) {
            return Ok(None);
        }
        let Some(dot) = self.next_dot(node) else {
            return Err(StoreFault::NumbersAtEnd);
        };
        let cover = self.subscriptions.dots_of(client, filter)?;
        Ok(Some(Operation::Remove { dot, cover }))
    }

    /// A Remove that covers what stands of the client and was made under a version of the home
    /// table below this one; none where nothing does, which takes no memory. The store doesn't change.
    pub fn make_remove_below(
        &self,
        node: u16,
        client: &Text,
        version: u64,
    ) -> Result<Option<Operation>, StoreFault>
        ensures ok { IfOk result (λ o. o ≡ remove_below_of node client.now version self.now) }
        ensures at_end { IsErrOf result NumbersAtEnd ↔ (NumberAtEnd node self.now
            × (any_below client.now version self.now.subscriptions ≡ true)) }
        ensures nothing { any_below client.now version self.now.subscriptions ≡ false
            → result ≡ Ok None }
        ensures fault { IfErr result (λ e. (e ≡ NumbersAtEnd) ⊎ (e ≡ StoreFault.NoMemory)) }
    {
        if !self.subscriptions.stands_below(client, version) {
            return Ok(None);
        }
        let Some(dot) = self.next_dot(node) else {
            return Err(StoreFault::NumbersAtEnd);
        };
        let cover = self.subscriptions.dots_below(client, version)?;
        Ok(Some(Operation::Remove { dot, cover }))
    }

    /// A Put of the content with the next count. The store doesn't change. It takes no memory.
    pub fn make_put(&self, node: u16, content: Content) -> Result<Operation, StoreFault>
        ensures ok { IfOk result (λ o. o ≡ put_of node content self.now) }
        ensures at_end { IsErrOf result NumbersAtEnd ↔ (NumberAtEnd node self.now ⊎ CountAtEnd self.now) }
        ensures fault { IfErr result (λ e. e ≡ NumbersAtEnd) }
    {
        let Some(dot) = self.next_dot(node) else {
            return Err(StoreFault::NumbersAtEnd);
        };
        let count = self.retained.greatest_count().saturating_add(1);
        let Some(stamp) = Stamp::new(count, node) else {
            return Err(StoreFault::NumbersAtEnd);
        };
        Ok(Operation::Put {
            dot,
            stamp,
            content,
        })
    }
}

impl Lattice for ReplicaStore {
    ghost joined = { state_join };

    ghost Below = { StateBelow };

    ghost laws = { lattice_from_join state_lattice };

    /// Takes in the other state. Where memory runs out it stays as it was; with one that is below it
    /// takes none.
    fn join(&mut self, other: &ReplicaStore) -> Result<(), NoMemory>
        ensures ok { OnOk result (self.new ≡ state_join self.old other.now) }
        ensures err { OnErr result (self.new ≡ self.old) }
        ensures below { StateBelow other.now self.old → IsOk result }
    {
        if other.is_below(self) {
            return Ok(());
        }
        let taken = match mem::replace(&mut self.taken, Context::new(self.alloc)).prepare(
            &other.taken,
        ) {
            Ok(taken) => taken,
            Err(taken) => {
                self.taken = taken;
                return Err(NoMemory);
            }
        };
        let subscriptions = mem::replace(
            &mut self.subscriptions,
            SubscriptionSet::empty(self.alloc),
        );
        match subscriptions.prepare(&other.subscriptions) {
            Err(subscriptions) => {
                self.taken = taken.abandon();
                self.subscriptions = subscriptions;
                Err(NoMemory)
            }
            Ok(ready) => match self.retained.join(&other.retained) {
                Err(fault) => {
                    self.taken = taken.abandon();
                    self.subscriptions = ready.abandon();
                    Err(fault)
                }
                Ok(()) => {
                    self.taken = taken.commit();
                    self.subscriptions = ready.commit();
                    Ok(())
                }
            },
        }
    }

    fn is_below(&self, other: &ReplicaStore) -> bool {
        self.taken.is_below(&other.taken)
            && (self.subscriptions.is_below(&other.subscriptions)
                && self.retained.is_below(&other.retained))
    }
}
