//! What a node keeps for the other nodes.
ghost use Rattle.std.specs.Prelude.{◌≡◌, ◌<◌, ◌+◌, true, false, None, length, max, nat_lt, IfOk, IsOk, OnErr, OnOk, if◌then◌else◌};
ghost use Rattle.std.specs.Option.{option_copied};
ghost use Rattle.std.specs.FinSet as set;
ghost use Rattle.causal_context.specs.SetLattice.{IsSubset};
ghost use Rattle.bridge_deltas.specs.Lane.{first_frames, next_number};
ghost use Rattle.bridge_deltas.specs.More.{frames_after};
ghost use Rattle.bridge_deltas.specs.Links.{all_told};
ghost use Rattle.bridge_lanes.specs.Changes.{now_of, told_of};
ghost use Rattle.bridge_lanes.specs.Reading.{AreLanes};
ghost use Rattle.node_bridge.specs.View.{IsToShip, LanesTell, belief_of, believes, gets, greets, has_lanes, is_next, keeps, known_of, lane_to, offer_to, offered, takes};

use bridge_deltas::{Links, Offer};
use bridge_frames::{BridgeFrame, Forward, Greeting, LaneNumber};
use causal_context::Context;
use mqtt_fields::NoMemory;
use replica_store::ReplicaStore;
use row_store::Change;
use std::marker::Model;

/// What a node keeps for the other nodes of its cluster: the dots that each is known to have taken, the last deltas, and the
/// lanes to and from each. A call that changes the lanes tells the changes of their rows at once. A node that the cluster lacks has
/// no lanes, and nothing is kept of it.
pub struct Bridge {
    links: Links,
}

impl Drop for Bridge {
    fn drop(self) {
        let Bridge { links: _links } = self;
    }
}

impl Model for Bridge {
    ghost use Rattle.std.specs.Prelude.{◌≡◌};
    ghost use Rattle.bridge_lanes.specs.Changes.{now_of, told_of};
    ghost use Rattle.node_bridge.specs.View.{BridgeView, coded_bridge};

    ghost Value = { BridgeView };

    ghost coded = { coded_bridge };

    ghost view = { λ b. record { beliefs = b.links.beliefs; deltas = b.links.deltas; lanes = now_of b.links.lanes } };

    ghost invariant = { λ b. told_of b.links.lanes ≡ now_of b.links.lanes };
}

// Appends the changes that lead from the rows of the lanes that were told last to those of the lanes, which count as told then, also
// where memory is wanting. Then nothing is appended. Where all is as it was told no memory is taken.
fn tell(links: &mut Links, changes: &mut Vec<Change>) -> Result<(), NoMemory>
    ensures told { links.new ≡ all_told links.old }
    ensures tells { OnOk result (LanesTell (told_of links.old.lanes) changes.old.items changes.new.items (now_of links.old.lanes)) }
    ensures err { OnErr result (changes.new.items ≡ changes.old.items) }
    ensures nothing { told_of links.old.lanes ≡ now_of links.old.lanes → IsOk result }
{
    match links.changes() {
        Ok(mut own) => {
            changes.append(&mut own)?;
            Ok(())
        }
        Err(NoMemory) => {
            links.count_as_told();
            Err(NoMemory)
        }
    }
}

impl Bridge {
    /// What a node keeps that has these lanes, whose rows were told as they are.
    pub fn of(links: Links) -> Bridge
        requires { told_of links.lanes ≡ now_of links.lanes }
        ensures { result ≡ record { beliefs = links.beliefs; deltas = links.deltas; lanes = now_of links.lanes } }
    {
        Bridge { links }
    }

    /// Keeps a delta that was made or merged here. Where memory runs out nothing changes; in the place of the oldest of 4,096 it takes
    /// none.
    pub fn keep(&mut self, delta: ReplicaStore) -> Result<(), NoMemory>
        ensures ok { OnOk result (self.new ≡ keeps delta self.old) }
        ensures err { OnErr result (self.new ≡ self.old) }
        ensures full { length self.old.deltas ≡ 4096 → IsOk result }
    {
        self.links.took(delta)
    }

    /// The peer has taken these dots. Where memory runs out nothing changes; dots that it is known to have taken take none, nor do
    /// those of a node that the cluster lacks.
    pub fn believe(&mut self, peer: u16, dots: &Context) -> Result<(), NoMemory>
        ensures ok { OnOk result (self.new ≡ believes peer dots.now self.old) }
        ensures err { OnErr result (self.new ≡ self.old) }
        ensures known { IsSubset dots.now (belief_of self.old peer) → IsOk result }
        ensures lacking { has_lanes self.old peer ≡ false → IsOk result }
    {
        if peer >= self.links.nodes() {
            return Ok(());
        }
        self.links.knows(peer, dots)
    }

    /// The peer says what it has, where a link begins. Where memory runs out nothing changes; a Hello of no dots takes none, nor does
    /// that of a node that the cluster lacks.
    pub fn greet(&mut self, peer: u16, greeting: &Greeting) -> Result<(), NoMemory>
        ensures ok { OnOk result (self.new ≡ greets peer greeting.now self.old) }
        ensures err { OnErr result (self.new ≡ self.old) }
        ensures none { greeting.now.dots ≡ set.empty → IsOk result }
        ensures lacking { has_lanes self.old peer ≡ false → IsOk result }
    {
        if peer >= self.links.nodes() {
            return Ok(());
        }
        self.links.greets(peer, &greeting.dots)
    }

    /// What to send of the store to the peer, if there is anything that it isn't known to have taken: else it takes no memory.
    pub fn to_ship(&self, peer: u16, store: &ReplicaStore) -> Result<Option<ReplicaStore>, NoMemory>
        ensures ships { IfOk result (IsToShip peer self.now store.now) }
        ensures nothing { IsToShip peer self.now store.now None → IsOk result }
    {
        if peer >= self.links.nodes() {
            return Ok(None);
        }
        self.links.ship(peer, store)
    }

    /// Puts a message into the lane to the peer, unless too many wait there or its number can't be had, and appends the changes of
    /// rows. Only a message that is put in takes memory. After want of it nothing is said of the lanes, and no change is appended.
    pub fn offer(
        &mut self,
        peer: u16,
        message: Forward,
        changes: &mut Vec<Change>,
    ) -> Result<Offer, NoMemory>
        ensures answer { IfOk result (λ offer. offer ≡ offer_to peer self.old) }
        ensures after { IfOk result (λ offer. self.new ≡ offered offer peer message self.old) }
        ensures tells { OnOk result (LanesTell self.old.lanes changes.old.items changes.new.items self.new.lanes) }
        ensures err { OnErr result (changes.new.items ≡ changes.old.items) }
        ensures memory { OnErr result (offer_to peer self.old ≡ Offer.Queued (next_number (lane_to self.old peer))) }
    {
        if peer >= self.links.nodes() {
            return Ok(Offer::Full);
        }
        let offer = self.links.forward(peer, message)?;
        tell(&mut self.links, changes)?;
        Ok(offer)
    }

    /// Frames from this node with the first 64 messages that wait for the peer. Only these take memory.
    pub fn waiting(&self, from: u16, peer: u16) -> Result<Vec<BridgeFrame>, NoMemory>
        ensures frames { IfOk result (λ out. out.items ≡ first_frames from peer (lane_to self.now peer)) }
        ensures memory { OnErr result (0 < length (lane_to self.now peer).waiting) }
    {
        self.links.waiting_from(from, peer)
    }

    /// Frames from this node with the messages that wait for the peer under numbers above one: at most 4,096, each as long as fewer than
    /// 4,194,304 bytes of payload go before it. Only these take memory.
    pub fn waiting_after(
        &self,
        from: u16,
        peer: u16,
        after: u64,
    ) -> Result<Vec<BridgeFrame>, NoMemory>
        ensures frames { IfOk result (λ out. out.items ≡ frames_after from peer after (lane_to self.now peer)) }
        ensures memory { let l = lane_to self.now peer in OnErr result (max l.gone after < l.gone + length l.waiting) }
    {
        self.links.waiting_after(from, peer, after)
    }

    /// How many messages wait for the peer.
    pub fn waiting_count(&self, peer: u16) -> usize
        ensures { result ≡ length (lane_to self.now peer).waiting }
    {
        self.links.waiting_count(peer)
    }

    /// The dots that the peer is known to have taken, where the cluster has it.
    pub fn belief(&self, peer: u16) -> Option<&Context>
        ensures { option_copied result ≡ known_of self.now peer }
    {
        if peer >= self.links.nodes() {
            return None;
        }
        Some(self.links.belief(peer))
    }

    /// Whether the number is that of the next message to take from the peer.
    pub fn is_next(&self, peer: u16, number: LaneNumber) -> bool
        ensures { result ≡ is_next peer number self.now }
    {
        let number = number.get();
        peer < self.links.nodes() && number != 0 && number - 1 == self.links.last_taken(peer).get()
    }

    /// The number of the last message that was taken from the peer.
    pub fn last_taken(&self, peer: u16) -> LaneNumber
        ensures { result ≡ (lane_to self.now peer).took }
    {
        self.links.last_taken(peer)
    }

    /// The number before that of the first message that waits for the peer.
    pub fn last_gone(&self, peer: u16) -> LaneNumber
        ensures { result ≡ (lane_to self.now peer).gone }
    {
        self.links.last_gone(peer)
    }

    /// Takes the message of the peer with this number, if it is the next, and appends the changes of rows. Only the next one takes
    /// memory. After want of it nothing is said of the lanes, and no change is appended.
    pub fn take(
        &mut self,
        peer: u16,
        number: LaneNumber,
        changes: &mut Vec<Change>,
    ) -> Result<bool, NoMemory>
        ensures next { IfOk result (λ taken. taken ≡ is_next peer number self.old) }
        ensures after { IfOk result (λ taken. self.new ≡ (if taken then takes peer number self.old else self.old)) }
        ensures tells { OnOk result (LanesTell self.old.lanes changes.old.items changes.new.items self.new.lanes) }
        ensures err { OnErr result (changes.new.items ≡ changes.old.items) }
        ensures memory { OnErr result (is_next peer number self.old ≡ true) }
    {
        if peer >= self.links.nodes() {
            return Ok(false);
        }
        let taken = self.links.arrived(peer, number);
        tell(&mut self.links, changes)?;
        Ok(taken)
    }

    /// The peer has taken the messages up to the number: these no longer wait. Appends the changes of rows. Where all of these were gone
    /// it takes no memory. After want of it nothing is said of the lanes, and no change is appended.
    pub fn got(
        &mut self,
        peer: u16,
        number: LaneNumber,
        changes: &mut Vec<Change>,
    ) -> Result<(), NoMemory>
        ensures after { OnOk result (self.new ≡ gets peer number self.old) }
        ensures tells { OnOk result (LanesTell self.old.lanes changes.old.items changes.new.items self.new.lanes) }
        ensures err { OnErr result (changes.new.items ≡ changes.old.items) }
        ensures nothing { gets peer number self.old ≡ self.old → IsOk result }
    {
        if peer >= self.links.nodes() {
            return Ok(());
        }
        self.links.got(peer, number);
        tell(&mut self.links, changes)
    }

    /// The lanes are such as rows can say. This does nothing; its contract is a law.
    pub fn are_lanes(&self)
        ensures { AreLanes (length self.now.lanes) self.now.lanes }
    {
        self.links.have_rows();
        let _nodes = self.links.nodes();
    }
}
