//! The beginning of a connection (MQTT 5.0, 3.1, 3.2 and 4.4).

ghost use Rattle.std.specs.Prelude.{◌≡◌, ◌≤◌, IfOk, OnErr, OnOk, IfErr};
ghost use Rattle.mqtt_sessions.specs.Connecting.{ConnectStep, ConnectWants};
ghost use Rattle.mqtt_sessions.specs.Reaction.{AreSpelled};
ghost use Rattle.mqtt_sessions.specs.State.{watched, IsPublishableIf};
ghost use Rattle.mqtt_sessions.specs.declared.fault.SessionFault.TheVariants.{NoMemory as OutOfMemory};
ghost use Rattle.session_rows.specs.Changes.{Follows};

use crate::answers::{connack, connack_fits};
use crate::fault::SessionFault;
use crate::link::{begin, limit_in};
use crate::reaction::{Output, Reaction, ends, one, says};
use crate::running::Running;
use crate::sending::release;
use mqtt_fields::identifier::RECEIVE_MAXIMUM;
use mqtt_packets::Connect;

impl Running {
    pub(crate) fn connect(
        &mut self,
        connect: &Connect,
        continued: bool,
        room: Option<u64>,
        now: u64,
    ) -> Result<Reaction, SessionFault>
        requires { IsPublishableIf connect.now.will }
        ensures step { IfOk result (λ r. ConnectStep connect.now continued room now self.old.state r self.new.state) }
        ensures spelled { IfOk result (λ r. AreSpelled now r.packets) }
        ensures fault { IfErr result (λ e. e ≡ OutOfMemory) }
        ensures want { OnErr result (ConnectWants connect.now continued self.old.state) }
        ensures follows { OnOk result (Follows (watched self.old) (watched self.new)) }
    {
        let limit = u64::from(limit_in(&connect.properties));
        let fits = connack_fits(limit, &connect.client, self.kept.client());
        self.kept.begin(self.alloc, connect)?;
        self.incoming.restart();
        self.outgoing
            .resume(connect.properties.two(RECEIVE_MAXIMUM).unwrap_or(65_535));
        self.room = room;
        if !fits {
            self.connection = None;
            return Ok(ends(self.alloc, None, 0));
        }
        let answer = connack(self.alloc, continued, &connect.client, self.kept.client())?;
        self.connection = Some(begin(self.alloc, connect, now));
        let mut packets = one(self.alloc, Output::Answer(answer))?;
        let ids = self.outgoing.releases(self.alloc)?;
        release(self.alloc, &mut packets, &ids)?;
        self.go_on(&mut packets, now, limit)?;
        Ok(says(packets))
    }
}
