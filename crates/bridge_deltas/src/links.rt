//! What a node keeps for the other nodes of its cluster.
ghost use Rattle.std.specs.Prelude.{[], ◌≡◌, ◌⊎◌, ◌<◌, ◌+◌, ◌-◌, ◌++◌, ◌↔◌, suc, max, length, nat_eq, if◌then◌else◌, slice_set, map, replicate, IfOk, IfErr, IfSome, IsErrOf, IsNone, IsOk, IsTrue, OnErr, OnOk};
ghost use Rattle.std.specs.FinSet as set;
ghost use Rattle.std.specs.List.{AllByRecursion};
ghost use Rattle.causal_context.specs.SetLattice.{IsSubset};
ghost use Rattle.bridge_lanes.specs.Lanes.{new_lane, with_got, with_took};
ghost use Rattle.bridge_deltas.specs.Buffer.{with_delta};
ghost use Rattle.bridge_frames.specs.declared.forward.Forward.{Forward};
ghost use Rattle.bridge_lanes.specs.Lanes.{Lanes};
ghost use Rattle.row_store.specs.declared.store.RowFault.TheVariants as faults;
ghost use Rattle.row_store.specs.Rows.{entry_of};
ghost use Rattle.bridge_lanes.specs.ChangeSteps.{IsSoundLane, message_changes, numbers_changes};
ghost use Rattle.bridge_lanes.specs.Changes.{AreLaneChanges, left_of, new_kept, now_of, told_now, told_of};
ghost use Rattle.bridge_lanes.specs.Reading.{AreLanes, AreLanesOf, IsLane, lane_in};
ghost use Rattle.bridge_lanes.specs.Rows.{each, numbers_of, rows_of, waiting_of};
ghost use Rattle.bridge_deltas.specs.Lane.{after_offer, first_frames, next_number, offer_of, told_lane};
ghost use Rattle.bridge_deltas.specs.More.{frames_after};
ghost use Rattle.bridge_deltas.specs.Links.{all_told, belief_of, kept_of, new_links, opened_links, with_kept};
ghost use Rattle.bridge_deltas.specs.Shipped.{IsShipped};

use crate::buffer::{count_confirmed, keep, shipped};
use crate::lane::Lane;
use crate::offer::Offer;
use bridge_frames::{BridgeFrame, Forward, LaneNumber};
use bridge_lanes::{ReadLane, read_lanes};
use causal_context::{Context, Lattice};
use mqtt_fields::{FieldFault, NoMemory};
use replica_store::ReplicaStore;
use row_store::{Change, Row, RowFault};
use std::alloc::Global;
use std::collections::VecDeque;
use std::marker::Model;

/// What a node keeps for its peers, the other nodes: the dots that each is known to have taken, the last
/// deltas, and numbered messages to each that wait until they have been taken there, with the number of
/// the last one that was taken here of each. It grows by the allocator of its constructor.
#[derive(Drop)]
pub struct Links {
    alloc: Global,
    node: u16,
    nodes: u16,
    beliefs: Vec<Context>,
    /// How many of the oldest deltas each peer is known to have taken.
    confirmed: Vec<usize>,
    deltas: VecDeque<ReplicaStore>,
    lanes: Vec<Lane>,
}

impl Model for Links {
    ghost use Rattle.bridge_deltas.specs.Confirmed.{AreConfirmed};
    ghost use Rattle.bridge_deltas.specs.Links.{LinksView, IsSound, coded_links};

    ghost Value = { LinksView };

    ghost coded = { coded_links };

    ghost view = { λ l. record {
      node = l.node;
      nodes = l.nodes;
      beliefs = l.beliefs.items;
      deltas = l.deltas.items;
      lanes = l.lanes.items;
    } };

    ghost invariant = { λ l. IsSound (record {
      node = l.node;
      nodes = l.nodes;
      beliefs = l.beliefs.items;
      deltas = l.deltas.items;
      lanes = l.lanes.items;
    }) × AreConfirmed l.beliefs.items l.confirmed.items l.deltas.items };
}

fn no_beliefs(alloc: Global, nodes: u16) -> Result<Vec<Context>, NoMemory>
    ensures ok { IfOk result (λ b. b.items ≡ replicate nodes set.empty) }
    ensures memory { OnErr result (0 < nodes) }
{
    let mut beliefs = Vec::new(alloc);
    for _ in 0..nodes {
        beliefs.push(Context::new(alloc))?;
    }
    Ok(beliefs)
}

fn no_counts(alloc: Global, nodes: u16) -> Result<Vec<usize>, NoMemory>
    ensures ok { IfOk result (λ c. c.items ≡ replicate nodes 0) }
    ensures memory { OnErr result (0 < nodes) }
{
    let mut counts = Vec::new(alloc);
    for _ in 0..nodes {
        counts.push(0)?;
    }
    Ok(counts)
}

// The oldest delta is gone: one fewer is counted of each peer, if any is.
fn lower_all(counts: &mut Vec<usize>)
    ensures { counts.new.items ≡ map (λ n. n - 1) counts.old.items }
{
    for i in 0..counts.len() {
        counts[i] = counts[i].saturating_sub(1);
    }
}

fn new_lanes(alloc: Global, nodes: u16) -> Result<Vec<Lane>, NoMemory>
    ensures ok { IfOk result (λ l. l.items ≡ replicate nodes new_kept) }
    ensures memory { OnErr result (0 < nodes) }
{
    let mut lanes = Vec::new(alloc);
    for _ in 0..nodes {
        lanes.push(Lane::new(alloc))?;
    }
    Ok(lanes)
}

fn tell_all(lanes: &mut Vec<Lane>)
    ensures { lanes.new.items ≡ map told_now lanes.old.items }
{
    for i in 0..lanes.len() {
        lanes[i].tell();
    }
}

fn add_messages(
    alloc: Global,
    nodes: u16,
    lanes: &Vec<Lane>,
    out: &mut Vec<Row>,
) -> Result<(), NoMemory>
    requires { length lanes.now.items ≡ nodes }
    ensures ok { OnOk result (map entry_of out.new.items
        ≡ map entry_of out.old.items ++ each (λ p k. waiting_of p k.lane) 0 lanes.now.items) }
    ensures none { each (λ p k. waiting_of p k.lane) 0 lanes.now.items ≡ [] → IsOk result }
{
    for peer in 0..nodes {
        lanes[peer as usize].append_messages(alloc, peer, out)?;
    }
    Ok(())
}

fn add_numbers(
    alloc: Global,
    nodes: u16,
    lanes: &Vec<Lane>,
    out: &mut Vec<Row>,
) -> Result<(), NoMemory>
    requires { length lanes.now.items ≡ nodes }
    ensures ok { OnOk result (map entry_of out.new.items
        ≡ map entry_of out.old.items ++ each (λ p k. numbers_of p k.lane) 0 lanes.now.items) }
    ensures none { each (λ p k. numbers_of p k.lane) 0 lanes.now.items ≡ [] → IsOk result }
{
    for peer in 0..nodes {
        lanes[peer as usize].append_numbers(alloc, peer, out)?;
    }
    Ok(())
}

fn add_message_changes(
    alloc: Global,
    nodes: u16,
    lanes: &Vec<Lane>,
    out: &mut Vec<Change>,
) -> Result<(), NoMemory>
    requires { length lanes.now.items ≡ nodes }
    ensures ok { OnOk result (map left_of out.new.items ≡ map left_of out.old.items ++ each message_changes 0 lanes.now.items) }
    ensures told { told_of lanes.now.items ≡ now_of lanes.now.items → IsOk result }
{
    for peer in 0..nodes {
        lanes[peer as usize].message_changes(alloc, peer, out)?;
    }
    Ok(())
}

fn add_numbers_changes(
    alloc: Global,
    nodes: u16,
    lanes: &Vec<Lane>,
    out: &mut Vec<Change>,
) -> Result<(), NoMemory>
    requires { length lanes.now.items ≡ nodes }
    ensures ok { OnOk result (map left_of out.new.items ≡ map left_of out.old.items ++ each numbers_changes 0 lanes.now.items) }
    ensures told { told_of lanes.now.items ≡ now_of lanes.now.items → IsOk result }
{
    for peer in 0..nodes {
        lanes[peer as usize].numbers_change(alloc, peer, out)?;
    }
    Ok(())
}

// What is told of each lane comes before what it is. This does nothing; its contract is a law.
fn are_sound(lanes: &Vec<Lane>)
    ensures { AllByRecursion IsSoundLane lanes.now.items }
{
    for i in 0..lanes.len() {
        lanes[i].is_sound();
    }
}

// The lanes are such as rows can say. This does nothing; its contract is a law.
fn are_lanes(lanes: &Vec<Lane>)
    ensures { AllByRecursion (λ k. IsLane k.lane) lanes.now.items }
{
    for i in 0..lanes.len() {
        lanes[i].is_lane();
    }
}

// The lanes that rows say.
fn lanes_of(alloc: Global, read: Vec<ReadLane>) -> Result<Vec<Lane>, NoMemory>
    requires { AllByRecursion (λ r. IsLane (lane_in r)) read.items }
    ensures ok { IfOk result (λ lanes. lanes.items ≡ map told_lane (map lane_in read.items)) }
    ensures memory { OnErr result (0 < length read.items) }
{
    let mut lanes = Vec::new(alloc);
    for lane in read {
        lanes.push(Lane::of(lane))?;
    }
    Ok(lanes)
}

// What a node keeps that has these lanes, and nothing else.
fn opened(alloc: Global, node: u16, nodes: u16, read: Vec<ReadLane>) -> Result<Links, NoMemory>
    requires { AreLanes nodes (map lane_in read.items) }
    ensures ok { IfOk result (λ l. l ≡ opened_links node nodes (map lane_in read.items)) }
    ensures memory { OnErr result (0 < nodes) }
{
    Ok(Links {
        alloc,
        node,
        nodes,
        beliefs: no_beliefs(alloc, nodes)?,
        confirmed: no_counts(alloc, nodes)?,
        deltas: VecDeque::new(alloc),
        lanes: lanes_of(alloc, read)?,
    })
}

impl Links {
    /// What the node keeps in a new cluster of so many nodes: nothing. Of no nodes it takes no memory.
    pub fn new(alloc: Global, node: u16, nodes: u16) -> Result<Links, NoMemory>
        ensures ok { IfOk result (λ l. l ≡ new_links node nodes) }
        ensures memory { OnErr result (0 < nodes) }
    {
        Ok(Links {
            alloc,
            node,
            nodes,
            beliefs: no_beliefs(alloc, nodes)?,
            confirmed: no_counts(alloc, nodes)?,
            deltas: VecDeque::new(alloc),
            lanes: new_lanes(alloc, nodes)?,
        })
    }

    /// Keeps a delta that was made or merged here; of 4,096 the oldest goes, and then it takes no memory. Where memory runs out
    /// nothing changes.
    pub fn took(&mut self, delta: ReplicaStore) -> Result<(), NoMemory>
        ensures ok { OnOk result (self.new ≡ record self.old { deltas = with_delta delta self.old.deltas }) }
        ensures err { OnErr result (self.new ≡ self.old) }
        ensures full { length self.old.deltas ≡ 4096 → IsOk result }
    {
        if keep(&mut self.deltas, delta)? {
            lower_all(&mut self.confirmed);
        }
        Ok(())
    }

    /// The peer has taken these dots. Where memory runs out nothing changes; dots that it is known to
    /// have taken take none.
    pub fn knows(&mut self, peer: u16, dots: &Context) -> Result<(), NoMemory>
        requires { peer < self.old.nodes }
        ensures ok { OnOk result (self.new ≡ record self.old {
          beliefs = slice_set self.old.beliefs peer (set.union (belief_of self.old peer) dots.now);
        }) }
        ensures err { OnErr result (self.new ≡ self.old) }
        ensures known { IsSubset dots.now (belief_of self.old peer) → IsOk result }
    {
        let place = peer as usize;
        self.beliefs[place].join(dots)?;
        let known = self.confirmed[place];
        self.confirmed[place] = count_confirmed(&self.deltas, &self.beliefs[place], known);
        Ok(())
    }

    /// The peer has taken these dots and no others, whatever was known of it. Where memory runs out nothing changes; no dots take none.
    pub fn greets(&mut self, peer: u16, dots: &Context) -> Result<(), NoMemory>
        requires { peer < self.old.nodes }
        ensures ok { OnOk result (self.new
            ≡ record self.old { beliefs = slice_set self.old.beliefs peer dots.now }) }
        ensures err { OnErr result (self.new ≡ self.old) }
        ensures none { dots.now ≡ set.empty → IsOk result }
    {
        let belief = dots.copy()?;
        let place = peer as usize;
        self.confirmed[place] = count_confirmed(&self.deltas, &belief, 0);
        self.beliefs[place] = belief;
        Ok(())
    }

    /// What to send of the store to the peer: nothing where it is known to have taken all, which takes no memory; else the join
    /// of the kept deltas of which it may lack a dot, or the whole store where it may lack one that is in
    /// none of them.
    pub fn ship(&self, peer: u16, store: &ReplicaStore) -> Result<Option<ReplicaStore>, NoMemory>
        requires { peer < self.now.nodes }
        ensures none { IfOk result (λ s. IsNone s ↔ IsSubset store.now.taken (belief_of self.now peer)) }
        ensures some { IfOk result (λ s. IfSome s
            (IsShipped (belief_of self.now peer) self.now.deltas store.now)) }
        ensures nothing { IsSubset store.now.taken (belief_of self.now peer) → IsOk result }
    {
        let belief = &self.beliefs[peer as usize];
        let confirmed = self.confirmed[peer as usize];
        shipped(self.alloc, &self.deltas, confirmed, belief, store)
    }

    /// Puts a message into the lane to the peer, where it waits under the next number. It isn't put in where
    /// 65,536 wait, or a number of 2^62 would be needed; these answers take no memory. Where memory runs
    /// out nothing changes.
    pub fn forward(&mut self, peer: u16, message: Forward) -> Result<Offer, NoMemory>
        requires { peer < self.old.nodes }
        ensures answer { IfOk result (λ offer. offer ≡ offer_of (kept_of self.old peer).lane) }
        ensures after { let k = kept_of self.old peer in IfOk result (λ offer. self.new
            ≡ with_kept peer (record k { lane = after_offer offer message k.lane }) self.old) }
        ensures err { OnErr result (self.new ≡ self.old) }
        ensures memory { let l = (kept_of self.old peer).lane in
            OnErr result (offer_of l ≡ Offer.Queued (next_number l)) }
    {
        self.lanes[peer as usize].put(message)
    }

    /// Frames of the node with the first 64 messages that wait for the peer. Only these take memory.
    pub fn waiting(&self, peer: u16) -> Result<Vec<BridgeFrame>, NoMemory>
        requires { peer < self.now.nodes }
        ensures frames { IfOk result (λ out. out.items
            ≡ first_frames self.now.node peer (kept_of self.now peer).lane) }
        ensures memory { OnErr result (0 < length (kept_of self.now peer).lane.waiting) }
    {
        self.waiting_from(self.node, peer)
    }

    /// Frames with the first 64 messages that wait for the peer, with this node as their sender: none for a node that the cluster
    /// lacks. Only these take memory.
    pub fn waiting_from(&self, from: u16, peer: u16) -> Result<Vec<BridgeFrame>, NoMemory>
        ensures frames { IfOk result (λ out. out.items
            ≡ first_frames from peer (kept_of self.now peer).lane) }
        ensures memory { OnErr result (0 < length (kept_of self.now peer).lane.waiting) }
    {
        match self.lanes.get(peer as usize) {
            Some(lane) => lane.first(self.alloc, from, peer),
            None => Ok(Vec::new(self.alloc)),
        }
    }

    /// Frames with the messages that wait for the peer under numbers above one, with this node as their sender: at most 4,096, each as long as
    /// fewer than 4,194,304 bytes of payload go before it. None for a node that the cluster lacks. Only these take memory.
    pub fn waiting_after(
        &self,
        from: u16,
        peer: u16,
        after: u64,
    ) -> Result<Vec<BridgeFrame>, NoMemory>
        ensures frames { IfOk result (λ out. out.items
            ≡ frames_after from peer after (kept_of self.now peer).lane) }
        ensures memory { let l = (kept_of self.now peer).lane in
            OnErr result (max l.gone after < l.gone + length l.waiting) }
    {
        match self.lanes.get(peer as usize) {
            Some(lane) => lane.first_after(self.alloc, from, peer, after),
            None => Ok(Vec::new(self.alloc)),
        }
    }

    /// How many messages wait for the peer: none for a node that the cluster lacks.
    pub fn waiting_count(&self, peer: u16) -> usize
        ensures { result ≡ length (kept_of self.now peer).lane.waiting }
    {
        match self.lanes.get(peer as usize) {
            Some(lane) => lane.count(),
            None => 0,
        }
    }

    /// The dots that the peer is known to have taken.
    pub fn belief(&self, peer: u16) -> &Context
        requires { peer < self.now.nodes }
        ensures { result.now ≡ belief_of self.now peer }
    {
        &self.beliefs[peer as usize]
    }

    /// The number of the last message that was taken from the peer: 0 of a node that the cluster lacks.
    pub fn last_taken(&self, peer: u16) -> LaneNumber
        ensures { result ≡ (kept_of self.now peer).lane.took }
    {
        match self.lanes.get(peer as usize) {
            Some(lane) => lane.took(),
            None => LaneNumber::of(0),
        }
    }

    /// The number before that of the first message that waits for the peer: 0 for a node that the cluster lacks.
    pub fn last_gone(&self, peer: u16) -> LaneNumber
        ensures { result ≡ (kept_of self.now peer).lane.gone }
    {
        match self.lanes.get(peer as usize) {
            Some(lane) => lane.gone(),
            None => LaneNumber::of(0),
        }
    }

    /// Whether no message was put in for the peer, and none taken of it: so it is of a node that the cluster lacks.
    pub fn is_new(&self, peer: u16) -> bool
        ensures { IsTrue result ↔ ((kept_of self.now peer).lane ≡ new_lane) }
    {
        match self.lanes.get(peer as usize) {
            Some(lane) => lane.is_new(),
            None => true,
        }
    }

    /// How many nodes there are, each with what is known of it and with lanes.
    pub fn nodes(&self) -> u16
        ensures count { result ≡ self.now.nodes }
        ensures beliefs { length self.now.beliefs ≡ result }
        ensures lanes { length self.now.lanes ≡ result }
    {
        self.nodes
    }

    /// Whether the number is that of the next message to take from the peer; then it counts as taken.
    pub fn arrived(&mut self, peer: u16, number: LaneNumber) -> bool
        requires { peer < self.old.nodes }
        ensures next { result ≡ nat_eq number (suc (kept_of self.old peer).lane.took) }
        ensures after { let k = kept_of self.old peer in self.new
            ≡ (if result then with_kept peer (record k { lane = with_took number k.lane }) self.old else self.old) }
    {
        self.lanes[peer as usize].take_next(number)
    }

    /// The peer has taken the messages up to the number, or all that were put in: these no longer wait.
    pub fn got(&mut self, peer: u16, number: LaneNumber)
        requires { peer < self.old.nodes }
        ensures { let k = kept_of self.old peer in self.new
            ≡ with_kept peer (record k { lane = with_got number k.lane }) self.old }
    {
        self.lanes[peer as usize].got(number);
    }

    /// The lanes are such as rows can say, so that what is written is read again. This does nothing; its contract is a law.
    pub fn have_rows(&self)
        ensures { AreLanes self.now.nodes (now_of self.now.lanes) }
    {
        are_lanes(&self.lanes);
    }

    /// The rows of all lanes count as told as they are.
    pub fn count_as_told(&mut self)
        ensures { self.new ≡ all_told self.old }
    {
        tell_all(&mut self.lanes);
    }

    /// The rows of the lanes, in the order of their keys. Where they have none it takes no memory.
    pub fn rows(&self) -> Result<Vec<Row>, NoMemory>
        ensures ok { IfOk result (λ rows. map entry_of rows.items ≡ rows_of (now_of self.now.lanes)) }
        ensures nothing { rows_of (now_of self.now.lanes) ≡ [] → IsOk result }
    {
        let mut out = Vec::new(self.alloc);
        add_messages(self.alloc, self.nodes, &self.lanes, &mut out)?;
        add_numbers(self.alloc, self.nodes, &self.lanes, &mut out)?;
        Ok(out)
    }

    /// The changes that lead from the rows that were told last to those of the lanes, which count as told then: each key at which
    /// these differ is named once, in the order of the keys, and no other. Where memory runs out nothing changes; where all is as it
    /// was told none is taken.
    pub fn changes(&mut self) -> Result<Vec<Change>, NoMemory>
        ensures changes { IfOk result (λ out. AreLaneChanges (told_of self.old.lanes) (now_of self.old.lanes) out.items) }
        ensures ok { OnOk result (self.new ≡ all_told self.old) }
        ensures err { OnErr result (self.new ≡ self.old) }
        ensures nothing { told_of self.old.lanes ≡ now_of self.old.lanes → IsOk result }
    {
        are_sound(&self.lanes);
        let mut out = Vec::new(self.alloc);
        add_message_changes(self.alloc, self.nodes, &self.lanes, &mut out)?;
        add_numbers_changes(self.alloc, self.nodes, &self.lanes, &mut out)?;
        tell_all(&mut self.lanes);
        Ok(out)
    }

    /// What a node keeps in a cluster of so many nodes that has these rows of lanes, in the order of their keys: the lanes, and
    /// nothing else.
    ///
    /// BadRow exactly where no lanes have just these rows. Of no nodes it takes no memory.
    pub fn from_rows(alloc: Global, node: u16, nodes: u16, rows: &[Row]) -> Result<Links, RowFault>
        ensures ok { IfOk result (λ l. (lanes : Lanes Forward) × AreLanesOf nodes (map entry_of rows.now) lanes × (l ≡ opened_links node nodes lanes)) }
        ensures bad { IsErrOf result RowFault.BadRow → (lanes : Lanes Forward) → AreLanesOf nodes (map entry_of rows.now) lanes → ⊥ }
        ensures fault { IfErr result (λ e. (e ≡ faults.NoMemory) ⊎ (e ≡ faults.BadRow)) }
        ensures memory { IsErrOf result RowFault.NoMemory → 0 < nodes }
    {
        let read = match read_lanes(alloc, nodes, rows) {
            Ok(read) => read,
            Err(FieldFault::NoMemory) => return Err(RowFault::NoMemory),
            Err(_) => return Err(RowFault::BadRow),
        };
        match opened(alloc, node, nodes, read) {
            Ok(links) => Ok(links),
            Err(NoMemory) => Err(RowFault::NoMemory),
        }
    }
}
