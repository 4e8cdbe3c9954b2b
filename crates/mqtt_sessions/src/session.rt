//! A session over its connections.

ghost use Rattle.std.specs.Prelude.{◌≡◌, ◌≢◌, ◌<◌, ◌≤◌, ◌^◌, ℕ, [], Some, None, IfOk, IfErr, IfSome, IsErrOf, OnErr, OnOk, MatchOption, false, length, map, take};
ghost use Rattle.std.specs.Option.{option_copied};
ghost use Rattle.mqtt_packets.specs.Written.{HasSpelling};
ghost use Rattle.mqtt_topics.specs.Topics.{IsName};
ghost use Rattle.mqtt_sessions.specs.Aliases.{topic_for};
ghost use Rattle.mqtt_sessions.specs.Asking.{AnswerStep, AnswerWants};
ghost use Rattle.mqtt_sessions.specs.Called.{Called, never};
ghost use Rattle.mqtt_sessions.specs.Connecting.{ConnectStep, ConnectWants, MayConnectIf};
ghost use Rattle.mqtt_sessions.specs.Ending as ending;
ghost use Rattle.mqtt_sessions.specs.Ending.{ClosedStep, FinishStep, TickStep, TickWants, HasWill};
ghost use Rattle.mqtt_sessions.specs.Packets.{PacketEnds, PacketStep, WantsMemory};
ghost use Rattle.mqtt_sessions.specs.Reaction.{AreSpelled};
ghost use Rattle.mqtt_sessions.specs.Sending.{QueueEnds, QueueStep, QueueWants, RoomStep, RoomWants};
ghost use Rattle.mqtt_sessions.specs.Removed.{RemovalsWant, RemovesIf, removed_before};
ghost use Rattle.mqtt_sessions.specs.Saved.{Appends, ListsIf, NotesIf, OpensFrom, TellsIf, begun_session, durable_of, state_of, told_before, told_of, tracked_in};
ghost use Rattle.mqtt_sessions.specs.State.{IsPublishableIf, aliases_of, limit_of};
ghost use Rattle.mqtt_sessions.specs.declared.fault.SessionFault.TheVariants.{NoMemory as OutOfMemory};
ghost use Rattle.row_store.specs.Rows.{entry_of};
ghost use Rattle.session_rows.specs.Durable.{IsMomentIf};
ghost use Rattle.session_rows.specs.Reading.{HasClient};

use crate::fault::SessionFault;
use crate::link::{runs_out_at, topic_text};
use crate::reaction::Reaction;
use crate::saved::Live;
use mqtt_fields::Text;
use mqtt_message::Delivery;
use mqtt_packets::{Connect, Packet};
use row_store::{Change, Row, RowFault};
use session_rows::{Opened, read_session};
use std::alloc::Global;
use std::marker::Model;

/// One client's side of a server, over all its connections. Contracts see what it holds; None stands for a session that
/// is spent: it had a fault, and answers `Spent`.
pub struct Session {
    live: Option<Live>,
}

impl Drop for Session {
    fn drop(self) {
        let Session { live: _live } = self;
    }
}

impl Model for Session {
    ghost use Rattle.std.specs.Prelude.{Option};
    ghost use Rattle.mqtt_sessions.specs.Saved.{Saved};

    ghost Value = { Option Saved };

    ghost view = { λ s. s.live };
}

/// A session that goes on after what was kept.
fn open(alloc: Global, kept: Opened) -> Result<Session, SessionFault>
    requires publishable { IsPublishableIf kept.will }
    requires moment { IsMomentIf kept.closed }
    ensures ok { IfOk result (λ s. s ≡ Some (record { tracked = tracked_in kept; told = told_of (durable_of (tracked_in kept).state) })) }
    ensures fault { IfErr result (λ e. e ≡ OutOfMemory) }
{
    let live = Live::open(alloc, kept)?;
    Ok(Session { live: Some(live) })
}

impl Session {
    /// A client's session before its first connection.
    pub fn new(alloc: Global, client: Text) -> Session
        ensures { result ≡ Some (begun_session client) }
    {
        Session {
            live: Some(Live::new(alloc, client)),
        }
    }

    /// The beginning of a connection: CONNACK, and where the session is continued the PUBRELs, the resends and the queue
    /// (MQTT 5.0, 3.2 and 4.4), for which it takes so many bytes of PUBLISHes, where that is counted. Where the client doesn't take
    /// its CONNACK only a will wants memory.
    pub fn connect(
        &mut self,
        connect: &Connect,
        continued: bool,
        room: Option<u64>,
        now: u64,
    ) -> Result<Reaction, SessionFault>
        requires continued { MayConnectIf continued (state_of self.old) }
        requires will { IsPublishableIf connect.now.will }
        ensures called { Called (ConnectStep connect.now continued room now) (ConnectWants connect.now continued) never (state_of self.old) result (state_of self.new) }
        ensures spelled { IfOk result (λ r. AreSpelled now r.packets) }
        ensures notes { NotesIf self.old self.new }
    {
        let Some(mut live) = self.live.take() else {
            return Err(SessionFault::Spent);
        };
        live.stale = true;
        let reaction = live.running.connect(connect, continued, room, now)?;
        self.live = Some(live);
        Ok(reaction)
    }

    /// A copy of a message for the client. It takes memory only where it is sent at once, or joins the queue.
    pub fn queue(&mut self, delivery: Delivery, now: u64) -> Result<Reaction, SessionFault>
        ensures called { Called (QueueStep delivery now) (QueueWants delivery now) (QueueEnds delivery) (state_of self.old) result (state_of self.new) }
        ensures spelled { IfOk result (λ r. AreSpelled now r.packets) }
        ensures notes { NotesIf self.old self.new }
    {
        let Some(live) = &mut self.live else {
            return Err(SessionFault::Spent);
        };
        match live.queue(delivery, now) {
            Ok(reaction) => Ok(reaction),
            Err(fault) => {
                self.live = None;
                Err(fault)
            }
        }
    }

    /// The connection takes so many bytes of PUBLISHes at QoS 1 and 2 from now on, the last one aside, and what waits goes on. It takes
    /// memory only where something may be sent.
    pub fn make_room(&mut self, bytes: u64, now: u64) -> Result<Reaction, SessionFault>
        ensures called { Called (RoomStep bytes now) (RoomWants bytes) never (state_of self.old) result (state_of self.new) }
        ensures spelled { IfOk result (λ r. AreSpelled now r.packets) }
        ensures notes { NotesIf self.old self.new }
    {
        let Some(live) = &mut self.live else {
            return Err(SessionFault::Spent);
        };
        match live.make_room(bytes, now) {
            Ok(reaction) => Ok(reaction),
            Err(_) => {
                self.live = None;
                Err(SessionFault::NoMemory)
            }
        }
    }

    /// A packet that came. `room` is whether a retained message for a new topic would be taken. One that breaks a rule takes no
    /// memory, nor does a DISCONNECT, nor any without a connection.
    pub fn packet(
        &mut self,
        packet: &Packet,
        now: u64,
        room: bool,
    ) -> Result<Reaction, SessionFault>
        requires spelled { HasSpelling packet.now }
        requires moment { now < 2 ^ 62 }
        ensures called { Called (PacketStep packet.now now room) (WantsMemory packet.now now room) (PacketEnds packet.now) (state_of self.old) result (state_of self.new) }
        ensures spelled { IfOk result (λ r. AreSpelled now r.packets) }
        ensures notes { NotesIf self.old self.new }
    {
        let Some(live) = &mut self.live else {
            return Err(SessionFault::Spent);
        };
        match live.packet(packet, room, now) {
            Ok(reaction) => Ok(reaction),
            Err(fault) => {
                self.live = None;
                Err(fault)
            }
        }
    }

    /// The codes of the SUBSCRIBE or UNSUBSCRIBE that was asked for last, one for each filter in order: SUBACK or
    /// UNSUBACK. They take memory only where it is sent.
    pub fn answer(&mut self, id: u16, codes: &[u8]) -> Result<Reaction, SessionFault>
        requires identifier { 1 ≤ id }
        requires codes { codes.now ≢ [] }
        ensures called { Called (AnswerStep id codes.now) (AnswerWants id codes.now) never (state_of self.old) result (state_of self.new) }
        ensures spelled { IfOk result (λ r. (now : ℕ) → AreSpelled now r.packets) }
        ensures notes { NotesIf self.old self.new }
    {
        let Some(mut live) = self.live.take() else {
            return Err(SessionFault::Spent);
        };
        live.stale = true;
        let reaction = live.running.answer(id, codes)?;
        self.live = Some(live);
        Ok(reaction)
    }

    /// The connection is gone, also after a call that ended it. What is due from then on comes by `tick`. This takes no
    /// memory.
    pub fn closed(&mut self, now: u64) -> Result<Reaction, SessionFault>
        requires { now < 2 ^ 62 }
        ensures called { Called (ClosedStep now) never never (state_of self.old) result (state_of self.new) }
        ensures spelled { IfOk result (λ r. AreSpelled now r.packets) }
        ensures notes { NotesIf self.old self.new }
    {
        let Some(mut live) = self.live.take() else {
            return Err(SessionFault::Spent);
        };
        live.stale = true;
        let reaction = live.running.closed(now);
        self.live = Some(live);
        Ok(reaction)
    }

    /// Does one thing that is due: the Keep Alive, else the will, else the end. Only a will that is published wants memory.
    pub fn tick(&mut self, now: u64) -> Result<Reaction, SessionFault>
        requires { now < 2 ^ 62 }
        ensures called { Called (TickStep now) (TickWants now) never (state_of self.old) result (state_of self.new) }
        ensures spelled { IfOk result (λ r. AreSpelled now r.packets) }
        ensures notes { NotesIf self.old self.new }
    {
        let Some(mut live) = self.live.take() else {
            return Err(SessionFault::Spent);
        };
        live.stale = true;
        let reaction = live.running.tick(now)?;
        self.live = Some(live);
        Ok(reaction)
    }

    /// The session ends now; a will that waits is published first. Only a will wants memory.
    pub fn finish(&mut self, now: u64) -> Result<Reaction, SessionFault>
        requires { now < 2 ^ 62 }
        ensures called { Called (FinishStep now) HasWill never (state_of self.old) result (state_of self.new) }
        ensures spelled { IfOk result (λ r. AreSpelled now r.packets) }
        ensures notes { NotesIf self.old self.new }
    {
        let Some(mut live) = self.live.take() else {
            return Err(SessionFault::Spent);
        };
        live.stale = true;
        let reaction = live.running.finish(now)?;
        self.live = Some(live);
        Ok(reaction)
    }

    /// Whether no packet came for one and a half times the Keep Alive (MQTT 5.0, 3.1.2.10).
    pub fn run_out(&self, now: u64) -> bool
        ensures { IfSome (state_of self.now) (λ s. result ≡ ending.has_run_out s.link now) }
    {
        match &self.live {
            Some(live) => live.running.has_run_out(now),
            None => false,
        }
    }

    /// The moment from which on no packet came for one and a half times the Keep Alive (MQTT 5.0, 3.1.2.10), where that is
    /// below 2^64.
    pub fn runs_out_at(&self) -> Option<u64>
        ensures { IfSome (state_of self.now) (λ s. result ≡ ending.in_time (ending.runs_out_at s.link)) }
    {
        match &self.live {
            Some(live) => runs_out_at(&live.running.connection),
            None => None,
        }
    }

    /// The moment when the will of a closed session is published (MQTT 5.0, 3.1.3.2.2).
    pub fn will_due(&self) -> Option<u64>
        ensures { IfSome (state_of self.now) (λ s. result ≡ ending.will_due s.kept) }
    {
        match &self.live {
            Some(live) => live.running.kept.will_due(),
            None => None,
        }
    }

    /// The moment when a closed session ends (MQTT 5.0, 3.1.2.11.2).
    pub fn end_due(&self) -> Option<u64>
        ensures { IfSome (state_of self.now) (λ s. result ≡ ending.end_due s.kept) }
    {
        match &self.live {
            Some(live) => live.running.kept.end_due(),
            None => None,
        }
    }

    /// Whether no close was told since the last connection began.
    pub fn is_connected(&self) -> bool
        ensures { MatchOption (state_of self.now) (result ≡ false) (λ s. result ≡ ending.is_connected s.kept.phase) }
    {
        match &self.live {
            Some(live) => live.running.kept.is_connected(),
            None => false,
        }
    }

    /// The longest packet that the client takes, where it is connected.
    pub fn limit(&self) -> Option<u64>
        ensures { IfSome (state_of self.now) (λ s. result ≡ limit_of s.link) }
    {
        match &self.live {
            Some(live) => live.running.limit(),
            None => None,
        }
    }

    /// The topic that an alias of the client stands for on its connection (MQTT 5.0, 3.3.2.3.4).
    pub fn alias_topic(&self, alias: u16) -> Option<&str>
        ensures topic { MatchOption (state_of self.now) (result ≡ None) (λ s. option_copied result ≡ topic_for alias (aliases_of s.link)) }
        ensures name { IfSome result (λ topic. IsName topic.now) }
    {
        match &self.live {
            Some(live) => topic_text(&live.running.connection, alias),
            None => None,
        }
    }

    /// The rows of the session: its own, and one for each of its copies, by rising place.
    pub fn rows(&self) -> Result<Vec<Row>, SessionFault>
        ensures { ListsIf self.now result }
    {
        match &self.live {
            Some(live) => Ok(live.rows()?),
            None => Err(SessionFault::Spent),
        }
    }

    /// The session whose rows these are, in that order, without a connection. BadRow where no session has just these. Where the
    /// first names no client it takes no memory.
    pub fn from_rows(alloc: Global, rows: &[Row]) -> Result<Session, SessionFault>
        ensures opens { OpensFrom rows.now result }
        ensures no_memory { IsErrOf result SessionFault.NoMemory → HasClient (map entry_of rows.now) }
    {
        match read_session(alloc, rows) {
            Ok(kept) => open(alloc, kept),
            Err(RowFault::BadRow) => Err(SessionFault::BadRow),
            Err(_) => Err(SessionFault::NoMemory),
        }
    }

    /// The changes that lead from the rows that were told last, by this call or `from_rows`, to those of the session. A new
    /// session has told none. Each row that differs is named once, and no other. Where the session's own row differs, the change
    /// that leaves what was told last of it is appended to `before`.
    pub fn changes(&mut self, before: &mut Vec<Change>) -> Result<Vec<Change>, SessionFault>
        ensures tells { TellsIf self.old result self.new }
        ensures before { OnOk result (IfSome self.old (λ s. Appends (told_before s) before.old.items before.new.items)) }
        ensures begins { take (length before.old.items) before.new.items ≡ before.old.items }
    {
        let Some(live) = &mut self.live else {
            return Err(SessionFault::Spent);
        };
        match live.changes(before) {
            Ok(changes) => Ok(changes),
            Err(_) => {
                self.live = None;
                Err(SessionFault::NoMemory)
            }
        }
    }

    /// The changes after which no row that was told last is there, for a session that is over: each of these rows goes, and no
    /// other is named. Where the session's own row was told, the change that leaves it is appended to `before`. Of a session of which
    /// nothing was told, and that has no copies and had none since, it takes no memory.
    pub fn removals(self, before: &mut Vec<Change>) -> Result<Vec<Change>, SessionFault>
        ensures removes { RemovesIf self result }
        ensures before { OnOk result (IfSome self (λ s. Appends (removed_before s) before.old.items before.new.items)) }
        ensures begins { take (length before.old.items) before.new.items ≡ before.old.items }
        ensures need { OnErr result (IfSome self RemovalsWant) }
    {
        let Session { live } = self;
        let Some(mut live) = live else {
            return Err(SessionFault::Spent);
        };
        Ok(live.removals(before)?)
    }
}
