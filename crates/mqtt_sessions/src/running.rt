//! A session that isn't spent.

ghost use Rattle.std.specs.Prelude.{◌≡◌, ◌<◌, ◌≤◌, [], Some, true, IfOk, IfErr, IfSome, OnErr};
ghost use Rattle.mqtt_sessions.specs.Lengths.{IsMeasured};
ghost use Rattle.mqtt_sessions.specs.Reaction.{Comes, answered, gives_out, nothing, refused};
ghost use Rattle.mqtt_sessions.specs.State.{cut, new_session, limit_of, heard, watched};
ghost use Rattle.mqtt_sessions.specs.declared.fault.SessionFault.TheVariants.{NoMemory as OutOfMemory};

use crate::answers::{Measured, disconnect_fits};
use crate::fault::SessionFault;
use crate::kept::Kept;
use crate::link::{Connection, heard_by, limit_of};
use crate::reaction::{Ask, Output, Reaction, ends, one};
use mqtt_fields::Text;
use qos_handshakes::{Incoming, Outgoing};
use std::alloc::Global;
use std::marker::Model;

#[derive(Drop)]
pub(crate) struct Running {
    pub(crate) kept: Kept,
    pub(crate) incoming: Incoming,
    pub(crate) outgoing: Outgoing,
    pub(crate) connection: Option<Connection>,
    /// How many bytes of PUBLISHes the connection takes from now on, where that is counted.
    pub(crate) room: Option<u64>,
    pub(crate) alloc: Global,
}

impl Model for Running {
    ghost use Rattle.mqtt_sessions.specs.State.{Tracked};

    ghost Value = { Tracked };

    ghost view = { λ s. record { state = record { kept = s.kept; outbox = s.outgoing.box; incoming = s.incoming; link = s.connection; room = s.room }; touched = s.outgoing.touched } };
}

impl Running {
    pub(crate) fn new(alloc: Global, client: Text) -> Running
        ensures { result ≡ record { state = new_session client; touched = [] } }
    {
        Running {
            kept: Kept::new(client),
            incoming: Incoming::new(alloc),
            outgoing: Outgoing::new(alloc),
            connection: None,
            room: None,
            alloc,
        }
    }

    /// The longest packet that the client takes, where it is connected.
    pub(crate) fn limit(&self) -> Option<u64>
        ensures limit { result ≡ limit_of self.now.state.link }
        ensures most { IfSome result (λ n. n ≤ 268435460) }
    {
        limit_of(&self.connection)
    }

    /// A packet came. The result is `limit`.
    pub(crate) fn hear(&mut self, now: u64) -> Option<u64>
        ensures limit { result ≡ limit_of self.old.state.link }
        ensures most { IfSome result (λ n. n ≤ 268435460) }
        ensures left { self.new.state ≡ heard self.old.state now }
        ensures outgoing { watched self.new ≡ watched self.old }
    {
        let limit = limit_of(&self.connection);
        self.connection = heard_by(self.connection.take(), now);
        limit
    }

    /// Closes the connection of a client that doesn't take an answer.
    pub(crate) fn close(&mut self, ask: Option<Ask>) -> Reaction
        ensures reacts { result ≡ record nothing { ask = ask; end = Some 0 } }
        ensures left { self.new.state ≡ cut self.old.state }
        ensures outgoing { watched self.new ≡ watched self.old }
    {
        self.connection = None;
        ends(self.alloc, ask, 0)
    }

    /// Sends an answer, or closes the connection where the client doesn't take it.
    pub(crate) fn answered(
        &mut self,
        limit: u64,
        answer: Measured,
        ask: Option<Ask>,
    ) -> Result<Reaction, SessionFault>
        requires limit { limit ≤ 268435460 }
        requires measured { IsMeasured answer }
        ensures step { IfOk result (λ r. Comes (answered limit answer.packet ask self.old.state) r self.new.state) }
        ensures fault { IfErr result (λ e. e ≡ OutOfMemory) }
        ensures want { OnErr result (gives_out (answered limit answer.packet ask self.old.state).reaction ≡ true) }
        ensures outgoing { watched self.new ≡ watched self.old }
    {
        let Measured { packet, length } = answer;
        if length <= limit {
            let packets = one(self.alloc, Output::Answer(packet))?;
            return Ok(Reaction {
                packets,
                ask,
                end: None,
                over: false,
                full: false,
            });
        }
        Ok(self.close(ask))
    }

    /// Closes the connection of a client that breaks a rule, or is silent.
    pub(crate) fn refused(&mut self, limit: u64, code: u8) -> Reaction
        requires { 0 < code }
        ensures step { Comes (refused limit code self.old.state) result self.new.state }
        ensures outgoing { watched self.new ≡ watched self.old }
    {
        self.connection = None;
        let told = if disconnect_fits(limit, code) {
            code
        } else {
            0
        };
        ends(self.alloc, None, told)
    }
}
