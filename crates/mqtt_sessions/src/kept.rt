//! What outlives the connections of a session, beside its exchanges.

ghost use Rattle.std.specs.Prelude.{◌≡◌, ◌<◌, ◌^◌, Some, None, IfOk, OnErr, IsSome, MatchOption};
ghost use Rattle.std.specs.Option.{option_copied};
ghost use Rattle.mqtt_sessions.specs.Connecting.{kept_by};
ghost use Rattle.mqtt_sessions.specs.Ending as ending;
ghost use Rattle.mqtt_sessions.specs.State.{IsPublishableIf};
ghost use Rattle.mqtt_sessions.specs.Saved.{closed_of, phase_of};
ghost use Rattle.session_rows.specs.Durable.{IsMomentIf};
ghost use Rattle.mqtt_sessions.specs.declared.kept.Phase.TheVariants.{Closed};

use crate::will::{BoxedWill, boxed};
use mqtt_fields::identifier::SESSION_EXPIRY_INTERVAL;
use mqtt_fields::{NEVER_ENDS, NoMemory, Text};
use mqtt_message::{Message, Will, due};
use mqtt_packets::Connect;
use std::alloc::Global;
use std::marker::Model;

/// Whether a client is connected; else since when it isn't.
#[derive(Clone, Copy)]
pub enum Phase {
    Connected,
    Closed(u64),
}

#[derive(Drop)]
pub(crate) struct Kept {
    client: Text,
    /// In seconds.
    expiry: u32,
    phase: Phase,
    will: Option<BoxedWill>,
}

impl Model for Kept {
    ghost use Rattle.mqtt_sessions.specs.State as state;
    ghost use Rattle.mqtt_sessions.specs.State.{IsKept};

    ghost Value = { state.Kept };

    ghost view = { λ k. record { client = k.client; expiry = k.expiry; phase = k.phase; will = k.will } };

    ghost invariant = { λ k. IsKept k.will k.phase };
}

fn copy_will(alloc: Global, will: &Option<Will>) -> Result<Option<BoxedWill>, NoMemory>
    ensures same { IfOk result (λ w. w ≡ will.now) }
    ensures need { OnErr result (IsSome will.now) }
{
    match will {
        Some(will) => boxed(alloc, Some(will.copy(alloc)?)),
        None => Ok(None),
    }
}

impl Kept {
    pub(crate) fn new(client: Text) -> Kept
        ensures { result ≡ record { client = client; expiry = 0; phase = Closed 0; will = None } }
    {
        Kept {
            client,
            expiry: 0,
            phase: Phase::Closed(0),
            will: None,
        }
    }

    pub(crate) fn client(&self) -> &Text
        ensures { result.now ≡ self.now.client }
    {
        &self.client
    }

    pub(crate) fn expiry(&self) -> u32
        ensures { result ≡ self.now.expiry }
    {
        self.expiry
    }

    pub(crate) fn is_connected(&self) -> bool
        ensures { result ≡ ending.is_connected self.now.phase }
    {
        match self.phase {
            Phase::Connected => true,
            Phase::Closed(_) => false,
        }
    }

    pub(crate) fn will(&self) -> Option<&Will>
        ensures same { option_copied result ≡ self.now.will }
        ensures publishable { IsPublishableIf self.now.will }
    {
        match &self.will {
            Some(will) => Some(will),
            None => None,
        }
    }

    /// The moment since when it is closed.
    pub(crate) fn closed(&self) -> Option<u64>
        ensures { result ≡ closed_of self.now.phase }
    {
        match self.phase {
            Phase::Connected => None,
            Phase::Closed(at) => Some(at),
        }
    }

    /// As it was kept.
    pub(crate) fn open(
        alloc: Global,
        client: Text,
        expiry: u32,
        closed: Option<u64>,
        will: Option<Will>,
    ) -> Result<Kept, NoMemory>
        requires publishable { IsPublishableIf will }
        requires moment { IsMomentIf closed }
        ensures { IfOk result (λ k. k ≡ record { client = client; expiry = expiry; phase = phase_of closed; will = will }) }
    {
        let phase = match closed {
            None => Phase::Connected,
            Some(at) => Phase::Closed(at),
        };
        let will = boxed(alloc, will)?;
        Ok(Kept {
            client,
            expiry,
            phase,
            will,
        })
    }

    /// A connection begins.
    pub(crate) fn begin(&mut self, alloc: Global, connect: &Connect) -> Result<(), NoMemory>
        requires { IsPublishableIf connect.now.will }
        ensures begins { IfOk result (λ _. self.new ≡ kept_by self.old connect.now) }
        ensures need { OnErr result (IsSome connect.now.will) }
    {
        let will = copy_will(alloc, &connect.will)?;
        self.expiry = connect
            .properties
            .four(SESSION_EXPIRY_INTERVAL)
            .unwrap_or(0);
        self.phase = Phase::Connected;
        self.will = will;
        Ok(())
    }

    /// The connection is gone.
    pub(crate) fn close(&mut self, now: u64)
        requires { now < 2 ^ 62 }
        ensures { self.new ≡ record self.old { phase = Closed now } }
    {
        self.phase = Phase::Closed(now);
    }

    /// The client has ended its connection, with this code and Session Expiry Interval.
    pub(crate) fn leave(&mut self, code: u8, expiry: u32)
        ensures { self.new ≡ record self.old { expiry = expiry; will = ending.will_after code self.old.will } }
    {
        self.expiry = expiry;
        if code == 0 {
            self.will = None;
        }
    }

    /// The moment when the session ends.
    pub(crate) fn end_due(&self) -> Option<u64>
        ensures { result ≡ ending.end_due self.now }
    {
        match self.phase {
            Phase::Connected => None,
            Phase::Closed(at) => {
                if self.expiry == NEVER_ENDS {
                    None
                } else {
                    Some(at + 1000 * u64::from(self.expiry))
                }
            }
        }
    }

    /// The moment when the will is published.
    pub(crate) fn will_due(&self) -> Option<u64>
        ensures { result ≡ ending.will_due self.now }
    {
        match &self.will {
            None => None,
            Some(will) => match self.phase {
                Phase::Connected => None,
                Phase::Closed(at) => Some(due(will, at, self.expiry)),
            },
        }
    }

    /// The will's message, and the will is there no more.
    pub(crate) fn publish_will(
        &mut self,
        alloc: Global,
        now: u64,
    ) -> Result<Option<Message>, NoMemory>
        requires { now < 2 ^ 62 }
        ensures message { IfOk result (λ m. m ≡ ending.will_message self.old now) }
        ensures left { IfOk result (λ _. self.new ≡ record self.old { will = None }) }
        ensures need { OnErr result (IsSome self.old.will) }
    {
        let message = match &self.will {
            None => return Ok(None),
            Some(will) => Message::accept_will(alloc, will, &self.client, now)?,
        };
        self.will = None;
        Ok(Some(message))
    }
}
