//! A client's packets, one after another, and what is done for them.

ghost use Rattle.std.specs.Prelude.{◌≡◌, ◌++◌, IfOk, OnOk};
ghost use Rattle.mqtt_packets.specs.Stream.{packet_at};
ghost use Rattle.mqtt_bounds.specs.declared.verdict.Mend.TheVariants.{Disconnect};
ghost use Rattle.door_bounds.specs.declared.step.Step.TheVariants.{Tells};
ghost use Rattle.door_bounds.specs.Walk.{begins_connect, put, refused, seen, started, told_with, too_large, took, verdict_at, with_step};

use crate::front::front_packet;
use crate::step::Step;
use mqtt_bounds::{Bounds, Mend, Verdict, bounded};
use mqtt_fields::NoMemory;
use mqtt_packets::{Bytes, Packet};
use std::alloc::Global;
use std::mem;

/// What begins a CONNECT (MQTT 5.0, 2.1.2).
const CONNECT: u8 = 0x10;

/// The greatest Remaining Length that there is: no node takes so long a packet.
const TOO_LARGE: [u8; 4] = [0xff, 0xff, 0xff, 0x7f];

/// What is done for packets so far.
#[derive(Drop)]
pub(crate) struct Walk {
    /// A CONNECT came.
    pub(crate) greeted: bool,
    pub(crate) steps: Vec<Step>,
    /// What the handler inside is told next, of packets that go on as they came.
    pub(crate) run: Vec<u8>,
}

/// Whether the packet is a CONNECT.
fn begins_connect(bytes: &[u8]) -> bool
    ensures { result ≡ begins_connect bytes.now }
{
    match bytes {
        [] => false,
        [first, ..] => *first == CONNECT,
    }
}

/// Tells of a packet by its first byte and the greatest length, so that a node ends the connection as it does for a packet that is too large.
pub(crate) fn put_too_large(bytes: &[u8], run: &mut Vec<u8>) -> Result<(), NoMemory>
    ensures { OnOk result (run.new.items ≡ run.old.items ++ too_large bytes.now) }
{
    if let [first, ..] = bytes {
        run.push(*first)?;
    }
    run.extend_from_slice(&TOO_LARGE)?;
    Ok(())
}

/// What comes of these bytes, which are a packet's. One that can't be read goes on as it came.
#[tactic(auto, using(crate::proofs::Fronts::verdict_some, crate::proofs::Fronts::verdict_none))]
fn verdict_of(alloc: Global, bounds: &Bounds, full: bool, bytes: &[u8]) -> Result<Verdict, NoMemory>
    ensures { IfOk result (λ v. v ≡ verdict_at bounds.now full (packet_at bytes.now)) }
{
    match front_packet(alloc, bytes)? {
        Some((packet, _)) => bounded(alloc, bounds, full, packet),
        None => Ok(Verdict::Goes(Mend::Nothing)),
    }
}

impl Walk {
    /// Nothing is done yet.
    pub(crate) fn new(alloc: Global, greeted: bool) -> Walk
        ensures { seen result ≡ started greeted }
    {
        Walk {
            greeted,
            steps: Vec::new(alloc),
            run: Vec::new(alloc),
        }
    }

    /// The handler inside is told what it is told next, and then this is done.
    fn push(&mut self, alloc: Global, step: Step) -> Result<(), NoMemory>
        ensures { OnOk result (seen self.new ≡ with_step (seen self.old) step) }
    {
        let run = mem::replace(&mut self.run, Vec::new(alloc));
        self.steps
            .push(Step::Tells(Bytes::new(run), Mend::Nothing))?;
        self.steps.push(step)?;
        Ok(())
    }

    /// The handler inside is told these bytes, and what it gives then is mended so.
    fn tell(&mut self, alloc: Global, bytes: &[u8], mend: Mend) -> Result<(), NoMemory>
        ensures { OnOk result (seen self.new ≡ told_with (seen self.old) bytes.now mend) }
    {
        match mend {
            Mend::Nothing => {
                self.run.extend_from_slice(bytes)?;
                Ok(())
            }
            mend => {
                let bytes = Bytes::from_slice(alloc, bytes)?;
                self.push(alloc, Step::Tells(bytes, mend))
            }
        }
    }

    /// A packet that breaks a limit doesn't go on. Before a CONNECT came it ends the connection; behind one this answers it.
    fn refuse(
        &mut self,
        alloc: Global,
        bytes: &[u8],
        answer: Option<Packet>,
    ) -> Result<(), NoMemory>
        ensures { OnOk result (seen self.new ≡ refused (seen self.old) bytes.now answer) }
    {
        if !self.greeted {
            return put_too_large(bytes, &mut self.run);
        }
        match answer {
            Some(packet) => self.push(alloc, Step::Answers(packet)),
            None => Ok(()),
        }
    }

    /// A packet whose bytes these are ends the connection with this Reason Code.
    fn end(&mut self, alloc: Global, bytes: &[u8], reason: u8) -> Result<(), NoMemory>
        ensures { OnOk result (seen self.new ≡ with_step (seen self.old) (Tells (too_large bytes.now) (Disconnect reason))) }
    {
        let mut told = Vec::new(alloc);
        put_too_large(bytes, &mut told)?;
        self.push(
            alloc,
            Step::Tells(Bytes::new(told), Mend::Disconnect(reason)),
        )
    }

    /// What is done by a verdict on a packet whose bytes these are.
    fn put(&mut self, alloc: Global, bytes: &[u8], verdict: Verdict) -> Result<(), NoMemory>
        ensures { OnOk result (seen self.new ≡ put (seen self.old) bytes.now verdict) }
    {
        match verdict {
            Verdict::Goes(mend) => self.tell(alloc, bytes, mend),
            Verdict::Becomes(packet, mend) => self.push(alloc, Step::Asks(packet, mend)),
            Verdict::Refused(answer) => self.refuse(alloc, bytes, answer),
            Verdict::Ends(reason) => self.end(alloc, bytes, reason),
        }
    }

    /// Takes a packet, whose bytes these are.
    pub(crate) fn take(
        &mut self,
        alloc: Global,
        bounds: &Bounds,
        full: bool,
        bytes: &[u8],
    ) -> Result<(), NoMemory>
        ensures { OnOk result (seen self.new ≡ took bounds.now full (seen self.old) bytes.now) }
    {
        let verdict = verdict_of(alloc, bounds, full, bytes)?;
        self.greeted = self.greeted || begins_connect(bytes);
        self.put(alloc, bytes, verdict)
    }
}
