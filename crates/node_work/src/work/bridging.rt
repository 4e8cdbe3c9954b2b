//! What a node does for the other nodes.

ghost use Rattle.std.specs.Prelude.{◌≡◌, ◌≢◌, ℕ, true, List, Ok};
ghost use Rattle.bridge_frames.specs.declared.forward.Forward.{Forward};
ghost use Rattle.bridge_routes.specs.declared.plain.PlainCopy.{PlainCopy as Copy};
ghost use Rattle.node_bridge.specs.View.{is_next};
ghost use Rattle.node_work.specs.Acts.{Bridge};
ghost use Rattle.node_work.specs.Doings.{GivesFrame, Misses, PutsInLane, RoutesBy};
ghost use Rattle.node_work.specs.Handed.{IsHanded};
ghost use Rattle.node_work.specs.Held.Bridge.{Believed, Carries, Got, Greeted, Took};
ghost use Rattle.node_work.specs.Working.{ComesTo, Acting};

use crate::counts::Missed;
use crate::fault::NodeFault;
use crate::frame::written_frame;
use crate::outcome::Output;
use crate::work::Work;
use bridge_deltas::Offer;
use bridge_frames::{BridgeFrame, Forward, Greeting, LaneNumber, LinkFault};
use bridge_routes::Route;
use causal_context::Context;

impl Work {
    /// Counts what is left out. It takes no memory.
    pub fn miss(&mut self, what: Missed) -> Result<(), NodeFault>
        ensures comes { ComesTo (λ x. x) result self.old self.new (Misses what) }
        ensures same { self.new.changes ≡ self.old.changes }
        ensures done { result ≡ Ok tt }
    {
        self.held.miss(what);
        Ok(())
    }

    /// What becomes of a message at another node. Where nothing does, it takes no memory.
    pub fn route(&mut self, peer: u16, route: Route) -> Result<(), NodeFault>
        requires { peer ≢ self.old.place.id }
        ensures idle { route ≡ Route.Nothing → (result ≡ Ok tt) × (self.new ≡ self.old) }
        ensures comes { ComesTo (λ x. x) result self.old self.new (RoutesBy peer route) }
    {
        match route {
            Route::Nothing => Ok(()),
            Route::Lane(message) => self.offer(peer, message),
            Route::TooLarge => self.miss(Missed::LaneFull),
        }
    }

    /// Puts a message into the lane to another node, unless too many wait there.
    fn offer(&mut self, peer: u16, message: Forward) -> Result<(), NodeFault>
        requires { peer ≢ self.old.place.id }
        ensures { ComesTo (λ x. x) result self.old self.new (PutsInLane peer message) }
    {
        match self.held.offer(peer, message, &mut self.changes)? {
            Offer::Queued(_) => Ok(()),
            Offer::Full => self.miss(Missed::LaneFull),
            Offer::AtEnd => Err(NodeFault::NumbersAtEnd),
        }
    }

    /// Gives a frame of what the node holds to another node, unless it is too large.
    pub fn release(&mut self, frame: BridgeFrame) -> Result<(), NodeFault>
        requires from { frame.from ≡ self.old.place.id }
        requires carries { Carries self.old.held frame.to frame.body }
        ensures comes { ComesTo (λ x. x) result self.old self.new (GivesFrame frame) }
        ensures same { self.new.changes ≡ self.old.changes }
    {
        match written_frame(self.alloc, &frame) {
            Ok(frame) => self.give(Output::Frame { frame }),
            Err(LinkFault::TooLarge) => self.miss(Missed::FrameTooLarge),
            Err(_) => Err(NodeFault::NoMemory),
        }
    }

    /// Another node has taken these dots.
    pub fn believe(&mut self, peer: u16, dots: &Context) -> Result<(), NodeFault>
        ensures comes { ComesTo (λ x. x) result self.old self.new (Acting (λ p h. Bridge (Believed peer dots.now))) }
        ensures same { self.new.changes ≡ self.old.changes }
    {
        self.held.believe(peer, dots)
    }

    /// Another node says what it has, where a link begins.
    pub fn greet(&mut self, peer: u16, greeting: &Greeting) -> Result<(), NodeFault>
        ensures comes { ComesTo (λ x. x) result self.old self.new (Acting (λ p h. Bridge (Greeted peer greeting.now))) }
        ensures same { self.new.changes ≡ self.old.changes }
    {
        self.held.greet(peer, greeting)
    }

    /// Takes the next message of another node's lane, with its copies, of which so many picks are lost.
    pub fn take(&mut self, peer: u16, number: LaneNumber, lost: u64) -> Result<(), NodeFault>
        requires other { peer ≢ self.old.place.id }
        requires next { is_next peer number self.old.held.bridge ≡ true }
        ensures { (m : Forward) (copies : List Copy) → IsHanded self.old.held m copies lost
            → ComesTo (λ x. x) result self.old self.new (Acting (λ p h. Bridge (Took peer number m copies lost))) }
    {
        self.held.take(peer, number, lost, &mut self.changes)
    }

    /// Another node has taken the messages up to the number.
    pub fn got(&mut self, peer: u16, number: LaneNumber) -> Result<(), NodeFault>
        ensures { ComesTo (λ x. x) result self.old self.new (Acting (λ p h. Bridge (Got peer number))) }
    {
        self.held.got(peer, number, &mut self.changes)
    }
}
