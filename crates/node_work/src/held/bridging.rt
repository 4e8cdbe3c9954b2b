//! What is done to what a node keeps for the other nodes.

ghost use Rattle.std.specs.Prelude.{◌≡◌, true, IfErr, IfOk, OnOk};
ghost use Rattle.node_bridge.specs.View.{LanesTell, believes, gets, greets, is_next, offer_to, offered, takes};
ghost use Rattle.node_work.specs.Held.Bridge.{missed};
ghost use Rattle.node_work.specs.Held.Sessions.{more};
ghost use Rattle.node_work.specs.declared.fault.NodeFault.TheVariants.{NoMemory};

use crate::counts::Missed;
use crate::fault::NodeFault;
use crate::held::Held;
use bridge_deltas::Offer;
use bridge_frames::{Forward, Greeting, LaneNumber};
use causal_context::Context;
use row_store::Change;

impl Held {
    /// A message for clients of another node. Here and in the calls below, the changes of the rows of lanes that this makes come
    /// after those that are there.
    pub fn offer(
        &mut self,
        peer: u16,
        message: Forward,
        changes: &mut Vec<Change>,
    ) -> Result<Offer, NodeFault>
        ensures answer { IfOk result (λ offer. offer ≡ offer_to peer self.old.bridge) }
        ensures after { IfOk result (λ offer. self.new ≡ record self.old { bridge = offered offer peer message self.old.bridge }) }
        ensures tells { OnOk result (LanesTell self.old.bridge.lanes changes.old.items changes.new.items self.new.bridge.lanes) }
        ensures fault { IfErr result (λ e. e ≡ NoMemory) }
    {
        let offer = self.bridge.offer(peer, message, changes)?;
        Ok(offer)
    }

    /// Takes the next message of another node's lane, and counts picks that are lost.
    pub fn take(
        &mut self,
        peer: u16,
        number: LaneNumber,
        lost: u64,
        changes: &mut Vec<Change>,
    ) -> Result<(), NodeFault>
        requires { is_next peer number self.old.bridge ≡ true }
        ensures ok { OnOk result (self.new ≡ record self.old { bridge = takes peer number self.old.bridge; counts = record self.old.counts { picks_lost = more lost self.old.counts.picks_lost } }) }
        ensures tells { OnOk result (LanesTell self.old.bridge.lanes changes.old.items changes.new.items self.new.bridge.lanes) }
        ensures fault { IfErr result (λ e. e ≡ NoMemory) }
    {
        self.bridge.take(peer, number, changes)?;
        self.counts.picks_lost = self.counts.picks_lost.saturating_add(lost);
        Ok(())
    }

    /// Another node has taken the messages up to the number.
    pub fn got(
        &mut self,
        peer: u16,
        number: LaneNumber,
        changes: &mut Vec<Change>,
    ) -> Result<(), NodeFault>
        ensures ok { OnOk result (self.new ≡ record self.old { bridge = gets peer number self.old.bridge }) }
        ensures tells { OnOk result (LanesTell self.old.bridge.lanes changes.old.items changes.new.items self.new.bridge.lanes) }
        ensures fault { IfErr result (λ e. e ≡ NoMemory) }
    {
        self.bridge.got(peer, number, changes)?;
        Ok(())
    }

    /// Another node has taken these dots.
    pub fn believe(&mut self, peer: u16, dots: &Context) -> Result<(), NodeFault>
        ensures ok { OnOk result (self.new ≡ record self.old { bridge = believes peer dots.now self.old.bridge }) }
        ensures fault { IfErr result (λ e. e ≡ NoMemory) }
    {
        self.bridge.believe(peer, dots)?;
        Ok(())
    }

    /// Another node says what it has, where a link begins.
    pub fn greet(&mut self, peer: u16, greeting: &Greeting) -> Result<(), NodeFault>
        ensures ok { OnOk result (self.new ≡ record self.old { bridge = greets peer greeting.now self.old.bridge }) }
        ensures fault { IfErr result (λ e. e ≡ NoMemory) }
    {
        self.bridge.greet(peer, greeting)?;
        Ok(())
    }

    /// Counts what is left out.
    pub fn miss(&mut self, what: Missed)
        ensures { self.new ≡ record self.old { counts = missed what self.old.counts } }
    {
        let counts = &mut self.counts;
        match what {
            Missed::LaneFull => counts.lane_full = counts.lane_full.saturating_add(1),
            Missed::BadFrame => counts.bad_frames = counts.bad_frames.saturating_add(1),
            Missed::FrameTooLarge => {
                counts.frames_too_large = counts.frames_too_large.saturating_add(1)
            }
            Missed::TableRefused => {
                counts.tables_refused = counts.tables_refused.saturating_add(1)
            }
        }
    }
}
