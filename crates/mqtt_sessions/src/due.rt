//! How connections and sessions end, and what is due (MQTT 5.0, 3.1.2.10, 3.1.2.11.2 and 3.1.3.2.2).

ghost use Rattle.std.specs.Prelude.{◌≡◌, ◌<◌, ◌^◌, [], IfOk, IfErr};
ghost use Rattle.mqtt_sessions.specs.Called.{IsFault};
ghost use Rattle.mqtt_sessions.specs.Ending as ending;
ghost use Rattle.mqtt_sessions.specs.Ending.{ClosedStep, FinishStep, TickStep, TickWants, HasWill};
ghost use Rattle.mqtt_sessions.specs.Reaction.{AreSpelled, Comes};
ghost use Rattle.mqtt_sessions.specs.State.{watched, cut};

use crate::fault::SessionFault;
use crate::link::has_run_out;
use crate::reaction::{Ask, Reaction, asks, nothing};
use crate::running::Running;
use mqtt_message::Message;
use mqtt_packets::reason;

/// Whether a moment has come.
fn is_due(due: Option<u64>, now: u64) -> bool
    ensures { result ≡ ending.is_due due now }
{
    match due {
        Some(at) => at <= now,
        None => false,
    }
}

fn ask_of(message: Option<Message>) -> Option<Ask>
    ensures { result ≡ ending.ask_of message }
{
    match message {
        Some(message) => Some(Ask::Pass(message)),
        None => None,
    }
}

impl Running {
    /// The connection is gone.
    pub(crate) fn closed(&mut self, now: u64) -> Reaction
        requires { now < 2 ^ 62 }
        ensures step { ClosedStep now self.old.state result self.new.state }
        ensures spelled { AreSpelled now result.packets }
        ensures outgoing { watched self.new ≡ watched self.old }
    {
        self.connection = None;
        self.kept.close(now);
        nothing(self.alloc)
    }

    pub(crate) fn has_run_out(&self, now: u64) -> bool
        ensures { result ≡ ending.has_run_out self.now.state.link now }
    {
        has_run_out(&self.connection, now)
    }

    /// Publishes the will, if there is one.
    fn publish_will(&mut self, now: u64, over: bool) -> Result<Reaction, SessionFault>
        requires { now < 2 ^ 62 }
        ensures step { IfOk result (λ r. Comes (ending.passes_will now over self.old.state) r self.new.state) }
        ensures spelled { IfOk result (λ r. AreSpelled now r.packets) }
        ensures fault { IfErr result (λ e. IsFault (HasWill self.old.state) ⊥ e) }
        ensures outgoing { watched self.new ≡ watched self.old }
    {
        let message = self.kept.publish_will(self.alloc, now)?;
        Ok(asks(self.alloc, ask_of(message), over))
    }

    fn time_out(&mut self) -> Reaction
        ensures step { Comes (ending.timed_out self.old.state.link self.old.state) result self.new.state }
        ensures none { result.packets ≡ [] }
        ensures outgoing { watched self.new ≡ watched self.old }
    {
        match self.limit() {
            Some(limit) => self.refused(limit, reason::KEEP_ALIVE_TIMEOUT),
            None => nothing(self.alloc),
        }
    }

    /// Does one thing that is due: the Keep Alive, else the will, else the end.
    pub(crate) fn tick(&mut self, now: u64) -> Result<Reaction, SessionFault>
        requires { now < 2 ^ 62 }
        ensures step { IfOk result (λ r. TickStep now self.old.state r self.new.state) }
        ensures spelled { IfOk result (λ r. AreSpelled now r.packets) }
        ensures fault { IfErr result (λ e. IsFault (TickWants now self.old.state) ⊥ e) }
        ensures outgoing { watched self.new ≡ watched self.old }
    {
        if self.has_run_out(now) {
            return Ok(self.time_out());
        }
        if is_due(self.kept.will_due(), now) {
            return self.publish_will(now, false);
        }
        let over = is_due(self.kept.end_due(), now);
        Ok(asks(self.alloc, None, over))
    }

    fn cut(&mut self)
        ensures step { self.new.state ≡ cut self.old.state }
        ensures outgoing { watched self.new ≡ watched self.old }
    {
        self.connection = None;
    }

    /// The session ends now.
    pub(crate) fn finish(&mut self, now: u64) -> Result<Reaction, SessionFault>
        requires { now < 2 ^ 62 }
        ensures step { IfOk result (λ r. FinishStep now self.old.state r self.new.state) }
        ensures spelled { IfOk result (λ r. AreSpelled now r.packets) }
        ensures fault { IfErr result (λ e. IsFault (HasWill self.old.state) ⊥ e) }
        ensures outgoing { watched self.new ≡ watched self.old }
    {
        self.cut();
        self.publish_will(now, true)
    }
}
