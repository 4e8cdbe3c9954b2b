//! What nodes tell one another.

ghost use Rattle.std.specs.Prelude.{◌≡◌, ◌≢◌, false, Ok, IfErr, IfOk};
ghost use Rattle.broker_node.specs.Bridge.{Greets, Ships, ShipsLater, ShipsMore, ShipsState, ShipsMessages, Hears, HearsFrame, TakesBody, TakesHello, TellsTaken, Merges, TakesMessage, TakesNext};
ghost use Rattle.node_bridge.specs.View.{lane_to};
ghost use Rattle.node_work.specs.Doings.{GivesBody};
ghost use Rattle.node_work.specs.Frames.{is_for_node, is_other, names_nodes};
ghost use Rattle.node_work.specs.Held.Bridge.{Carries, greeting_to, hello_to};
ghost use Rattle.node_work.specs.View.{HeldView};
ghost use Rattle.node_work.specs.Working.{ComesTo};
ghost use Rattle.std.specs.Prelude.{Some};

use bridge_frames::{BridgeFrame, Forward, FrameBody, Greeting, LaneNumber, LinkFault};
use node_clients::take_forward;
use node_rows::{are_dots_among, is_state_among};
use node_work::{Missed, NodeFault, Work};
use replica_store::ReplicaStore;

fn is_other(work: &Work, peer: u16) -> bool
    ensures { result ≡ is_other work.now.place peer }
{
    peer != work.id() && peer < work.nodes()
}

/// Gives another node a frame of what the node holds.
fn give(work: &mut Work, peer: u16, body: FrameBody) -> Result<(), NodeFault>
    requires { Carries work.old.held peer body }
    ensures { (said : HeldView → FrameBody) → body ≡ said work.old.held → ComesTo (λ x. x) result work.old work.new (GivesBody peer said) }
{
    let from = work.id();
    work.release(BridgeFrame {
        from,
        to: peer,
        body,
    })
}

/// What the node says of itself to another one.
fn greeting_to(work: &Work, to: u16) -> Result<Greeting, NodeFault>
    ensures ok { IfOk result (λ g. g ≡ greeting_to to work.now.held) }
    ensures fault { IfErr result (λ e. e ≡ NodeFault.NoMemory) }
{
    let bridge = work.held().bridge();
    let gone = bridge.last_gone(to);
    let took = bridge.last_taken(to);
    let dots = work.held().store().taken().copy()?;
    Ok(Greeting { gone, took, dots })
}

fn say_hello(work: &mut Work, to: u16) -> Result<(), NodeFault>
    ensures { ComesTo (λ x. x) result work.old work.new (GivesBody to (hello_to to)) }
{
    let greeting = greeting_to(work, to)?;
    give(work, to, FrameBody::Hello(greeting))
}

/// Begins a new link to another node of the cluster: says what this node has.
pub fn greet(work: &mut Work, peer: u16) -> Result<(), NodeFault>
    ensures idle { is_other work.old.place peer ≡ false → (result ≡ Ok tt) × (work.new ≡ work.old) }
    ensures comes { ComesTo (λ x. x) result work.old work.new (Greets peer) }
{
    if !is_other(work, peer) {
        return Ok(());
    }
    say_hello(work, peer)
}

/// Sends another node of the cluster what it may lack: of the state, and then of the messages that wait for it.
pub fn ship(work: &mut Work, peer: u16) -> Result<(), NodeFault>
    ensures idle { is_other work.old.place peer ≡ false → (result ≡ Ok tt) × (work.new ≡ work.old) }
    ensures comes { ComesTo (λ x. x) result work.old work.new (Ships peer) }
{
    if !is_other(work, peer) {
        return Ok(());
    }
    ship_state(work, peer)?;
    ship_messages(work, peer)
}

fn ship_state(work: &mut Work, peer: u16) -> Result<(), NodeFault>
    ensures { ComesTo (λ x. x) result work.old work.new (ShipsState peer) }
{
    let held = work.held();
    let found = held.bridge().to_ship(peer, held.store())?;
    match found {
        None => Ok(()),
        Some(state) => give(work, peer, FrameBody::Delta(state)),
    }
}

fn ship_messages(work: &mut Work, peer: u16) -> Result<(), NodeFault>
    ensures { ComesTo (λ x. x) result work.old work.new (ShipsMessages peer) }
{
    let frames = work.held().bridge().waiting(work.id(), peer)?;
    for frame in frames {
        work.release(frame)?;
    }
    Ok(())
}

/// Sends another node of the cluster what it may lack of the state, and then of the messages that wait for it those with numbers above one.
pub fn ship_more(work: &mut Work, peer: u16, after: u64) -> Result<(), NodeFault>
    ensures idle { is_other work.old.place peer ≡ false → (result ≡ Ok tt) × (work.new ≡ work.old) }
    ensures comes { ComesTo (λ x. x) result work.old work.new (ShipsMore peer after) }
{
    if !is_other(work, peer) {
        return Ok(());
    }
    ship_state(work, peer)?;
    ship_later(work, peer, after)
}

fn ship_later(work: &mut Work, peer: u16, after: u64) -> Result<(), NodeFault>
    ensures { ComesTo (λ x. x) result work.old work.new (ShipsLater peer after) }
{
    let frames = work.held().bridge().waiting_after(work.id(), peer, after)?;
    for frame in frames {
        work.release(frame)?;
    }
    Ok(())
}

/// Takes the bytes of a frame. Bytes that are no frame, a frame that isn't for this node from another one of the cluster, and one that
/// names a node that the cluster lacks, are dropped and counted.
pub fn hear(work: &mut Work, bytes: &[u8]) -> Result<(), NodeFault>
    ensures { ComesTo (λ x. x) result work.old work.new (Hears bytes.now) }
{
    match BridgeFrame::read(work.alloc(), bytes) {
        Ok(frame) => hear_frame(work, frame),
        Err(LinkFault::BadFrame) => work.miss(Missed::BadFrame),
        Err(LinkFault::TooLarge) => work.miss(Missed::BadFrame),
        Err(_) => Err(NodeFault::NoMemory),
    }
}

/// Whether what a frame says names none but nodes of a cluster of so many.
fn names_nodes(nodes: u16, body: &FrameBody) -> bool
    ensures { result ≡ names_nodes nodes body.now }
{
    match body {
        FrameBody::Delta(state) => is_state_among(nodes, state),
        FrameBody::Know(dots) => are_dots_among(nodes, dots),
        FrameBody::Hello(greeting) => are_dots_among(nodes, &greeting.dots),
        FrameBody::Forward(..) => true,
        FrameBody::Got(_) => true,
    }
}

fn is_for(work: &Work, frame: &BridgeFrame) -> bool
    ensures { result ≡ is_for_node work.now.place frame.now }
{
    frame.to == work.id() && is_other(work, frame.from) && names_nodes(work.nodes(), &frame.body)
}

fn hear_frame(work: &mut Work, frame: BridgeFrame) -> Result<(), NodeFault>
    ensures { ComesTo (λ x. x) result work.old work.new (HearsFrame (Some frame)) }
{
    if is_for(work, &frame) {
        let BridgeFrame { from, body, .. } = frame;
        take(work, from, body)
    } else {
        work.miss(Missed::BadFrame)
    }
}

/// Takes what another node says.
fn take(work: &mut Work, from: u16, body: FrameBody) -> Result<(), NodeFault>
    requires { from ≢ work.old.place.id }
    ensures { ComesTo (λ x. x) result work.old work.new (TakesBody from body) }
{
    match body {
        FrameBody::Hello(greeting) => take_hello(work, from, &greeting),
        FrameBody::Delta(state) => merge(work, from, state),
        FrameBody::Know(dots) => work.believe(from, &dots),
        FrameBody::Forward(number, message) => take_message(work, from, number, &message),
        FrameBody::Got(number) => work.got(from, number),
    }
}

/// Takes what another node says of itself, and answers with the dots that are taken now.
fn take_hello(work: &mut Work, from: u16, greeting: &Greeting) -> Result<(), NodeFault>
    ensures { ComesTo (λ x. x) result work.old work.new (TakesHello from greeting.now) }
{
    work.greet(from, greeting)?;
    tell_taken(work, from)
}

/// Tells another node which dots are taken now.
fn tell_taken(work: &mut Work, to: u16) -> Result<(), NodeFault>
    ensures { ComesTo (λ x. x) result work.old work.new (TellsTaken to) }
{
    let taken = work.held().store().taken().copy()?;
    give(work, to, FrameBody::Know(taken))
}

/// Merges a delta, and answers with the dots that are taken now.
fn merge(work: &mut Work, from: u16, state: ReplicaStore) -> Result<(), NodeFault>
    ensures { ComesTo (λ x. x) result work.old work.new (Merges from state) }
{
    work.merge(state)?;
    tell_taken(work, from)
}

/// Takes a message where it is the next of its lane, and answers with the number of the last one that was taken.
fn take_message(
    work: &mut Work,
    from: u16,
    number: LaneNumber,
    message: &Forward,
) -> Result<(), NodeFault>
    requires { from ≢ work.old.place.id }
    ensures { ComesTo (λ x. x) result work.old work.new (TakesMessage from number message.now) }
{
    take_next(work, from, number, message)?;
    tell_got(work, from)
}

fn take_next(
    work: &mut Work,
    from: u16,
    number: LaneNumber,
    message: &Forward,
) -> Result<(), NodeFault>
    requires { from ≢ work.old.place.id }
    ensures { ComesTo (λ x. x) result work.old work.new (TakesNext from number message.now) }
{
    if work.held().bridge().is_next(from, number) {
        take_forward(work, from, number, message)
    } else {
        Ok(())
    }
}

fn tell_got(work: &mut Work, to: u16) -> Result<(), NodeFault>
    ensures { ComesTo (λ x. x) result work.old work.new (GivesBody to (λ h. FrameBody.Got (lane_to h.bridge to).took)) }
{
    let number = work.held().bridge().last_taken(to);
    give(work, to, FrameBody::Got(number))
}
