//! The table of sessions.

ghost use Rattle.std.specs.Prelude.{◌≡◌, ◌<◌, ◌^◌, [], IfOk, IfSome, IsOk, IsSome, None, OnErr, OnOk, is_some, option_and_then, ◌≤◌, ◌≢◌, ℕ};
ghost use Rattle.std.specs.FinMap as map;
ghost use Rattle.std.specs.Option.{option_copied};
ghost use Rattle.mqtt_packets.specs.Written.{HasSpelling};
ghost use Rattle.mqtt_topics.specs.Topics.{IsName};
ghost use Rattle.mqtt_sessions.specs.Aliases.{topic_for};
ghost use Rattle.mqtt_sessions.specs.Ending as ending;
ghost use Rattle.mqtt_sessions.specs.Saved.{state_of};
ghost use Rattle.mqtt_sessions.specs.State.{IsPublishableIf, aliases_of, limit_of};
ghost use Rattle.law_sessions.specs.Runs.{connects, queues, rooms, takes, answers, closes, ticks, finishes};
ghost use Rattle.session_table.specs.Calls.{GivesSpelled, GoesTo, IsSpelledIf, Asks, IsCalled, MayConnectAt, MayTurnAt, event_of, leaves, moves, on_of, reaction_of, stays};
ghost use Rattle.session_table.specs.Rows.{AllDurable, IsAllTold, LeadsOn};
ghost use Rattle.session_table.specs.Seats.{AreElsewhere, begun, connected, ends_due, run_outs, wills_due};

use crate::DueTimes;
use crate::call::{Addressed, Call, On};
use crate::listing::Listing;
use crate::seated::BoxedSeat;
use crate::table::{
    by_connection, call_in, connected_in, connection_of, elsewhere_in, put_in, take_out,
};
use crate::telling::{begin_told, leave};
use home_table::HomeTable;
use law_sessions::stays_durable;
use mqtt_fields::{NoMemory, Text};
use mqtt_message::Delivery;
use mqtt_packets::{Connect, Packet};
use mqtt_sessions::{Session, SessionFault};
use row_store::Change;
use std::alloc::Global;
use std::collections::BTreeMap;
use std::marker::Model;

/// The sessions of a node by client, each with the connection that its client is on. What is due is found without a look
/// at all of them.
pub struct Sessions {
    alloc: Global,
    seats: BTreeMap<Text, BoxedSeat>,
    listing: Listing,
}

impl Drop for Sessions {
    fn drop(self) {
        let Sessions {
            alloc: _alloc,
            seats: _seats,
            listing: _listing,
        } = self;
    }
}

impl Model for Sessions {
    ghost use Rattle.std.specs.Cmp.Lexicographic.{slice_cmp};
    ghost use Rattle.std.specs.FinMap as map;
    ghost use Rattle.std.specs.Ordering.{nat_cmp};
    ghost use Rattle.session_table.specs.Seats.{Seats, coded_seats};

    ghost Value = { Seats };

    ghost coded = { coded_seats };

    ghost use Rattle.session_table.specs.Listing.{IsKept, seats_in};

    ghost view = { λ s. seats_in (map.from_entries {R = slice_cmp nat_cmp} s.seats.entries) };

    ghost invariant = { λ s. IsKept (map.from_entries {R = slice_cmp nat_cmp} s.seats.entries) s.listing };
}

impl Sessions {
    /// No sessions.
    pub fn new(alloc: Global) -> Sessions
        ensures { result ≡ map.empty }
    {
        Sessions {
            alloc,
            seats: BTreeMap::new(alloc),
            listing: Listing {
                run_outs: DueTimes::new(alloc),
                wills: DueTimes::new(alloc),
                ends: DueTimes::new(alloc),
            },
        }
    }

    /// Whether the client has a session.
    pub fn has(&self, client: &Text) -> bool
        ensures { result ≡ is_some (map.get self.now client.now) }
    {
        self.seats.contains_key(client)
    }

    /// The connection that the client is on.
    pub fn connection(&self, client: &Text) -> Option<u64>
        ensures { result ≡ option_and_then (λ s. s.connection) (map.get self.now client.now) }
    {
        connection_of(&self.seats, client)
    }

    /// The longest packet that the client takes, where it is connected.
    pub fn limit(&self, client: &Text) -> Option<u64>
        ensures { result ≡ option_and_then (λ s. limit_of s.session.link) (map.get self.now client.now) }
    {
        match self.seats.get(client) {
            Some(seated) => seated.session.limit(),
            None => None,
        }
    }

    /// The topic that an alias of the client stands for on its connection: `Session::alias_topic`.
    pub fn alias_topic(&self, client: &Text, alias: u16) -> Option<&str>
        ensures topic { option_copied result ≡ option_and_then (λ s. topic_for alias (aliases_of s.session.link)) (map.get self.now client.now) }
        ensures name { IfSome result (λ topic. IsName topic.now) }
    {
        match self.seats.get(client) {
            Some(seated) => seated.session.alias_topic(alias),
            None => None,
        }
    }

    /// The moment when the will of the client is published, where its session is closed and has one.
    pub fn will_due(&self, client: &Text) -> Option<u64>
        ensures { result ≡ option_and_then (λ s. ending.will_due s.session.kept) (map.get self.now client.now) }
    {
        match self.seats.get(client) {
            Some(seated) => seated.session.will_due(),
            None => None,
        }
    }

    /// The moment when the session of the client ends, where it is closed and does end.
    pub fn end_due(&self, client: &Text) -> Option<u64>
        ensures { result ≡ option_and_then (λ s. ending.end_due s.session.kept) (map.get self.now client.now) }
    {
        match self.seats.get(client) {
            Some(seated) => seated.session.end_due(),
            None => None,
        }
    }

    /// How many clients have a session.
    pub fn count(&self) -> usize
        ensures { result ≡ map.len self.now }
    {
        self.seats.len()
    }

    /// What outlives the connections of each session has rows that `Session::from_rows` opens again (`durable_rows_open` in
    /// `law_sessions`), under its client. This does nothing; its contract is a law.
    pub fn are_durable(&self)
        ensures { AllDurable self.now }
    {
        let _count = self.seats.len();
        stays_durable();
    }

    /// Puts in a client's session whose rows were told, as one that was opened from them, for a client that is on no
    /// connection; where the client has one, in its place. No change of rows comes of it: they are taken to be there, and
    /// those of the session before it gone. Where memory is refused the client has none.
    pub fn insert(&mut self, client: Text, session: Session) -> Result<(), NoMemory>
        requires { IsAllTold client session }
        ensures ok { OnOk result (IfSome (state_of session)
            (λ s. self.new ≡ map.insert self.old client (record { session = s; connection = None }))) }
        ensures err { OnErr result (self.new ≡ map.remove self.old client) }
    {
        take_out(&mut self.seats, &mut self.listing, &client);
        put_in(
            &mut self.seats,
            &mut self.listing,
            self.alloc,
            client,
            session,
        )
    }

    /// A session for the client before its first connection; where the client has one, in its place. The changes of rows are
    /// appended. Where memory is refused the client has none.
    pub fn begin(&mut self, client: Text, changes: &mut Vec<Change>) -> Result<(), NoMemory>
        ensures ok { OnOk result (self.new ≡ map.insert self.old client (begun client)) }
        ensures err { OnErr result (self.new ≡ map.remove self.old client) }
        ensures leads { OnOk result (LeadsOn self.old changes.old.items changes.new.items self.new) }
    {
        self.remove(&client, changes)?;
        let session = begin_told(self.alloc, &client, changes)?;
        self.insert(client, session)
    }

    /// Takes the client's session out, and appends that its rows go. Where memory is refused for that, the session is out all
    /// the same. It takes none where there is no session.
    pub fn remove(&mut self, client: &Text, changes: &mut Vec<Change>) -> Result<(), NoMemory>
        ensures gone { self.new ≡ map.remove self.old client.now }
        ensures leads { OnOk result (LeadsOn self.old changes.old.items changes.new.items self.new) }
        ensures none { map.get self.old client.now ≡ None → IsOk result × (changes.new.items ≡ changes.old.items) }
    {
        let Some(session) = take_out(&mut self.seats, &mut self.listing, client) else {
            return Ok(());
        };
        leave(session, changes)
    }

    /// One call of the client's session, whose changes of rows are appended.
    fn call(
        &mut self,
        client: &Text,
        call: Call<'_>,
        on: On,
        changes: &mut Vec<Change>,
    ) -> Result<Option<Addressed>, SessionFault>
        requires asks { Asks call }
        requires may { MayTurnAt (event_of call) (map.get self.old client.now) }
        ensures called { IsCalled client.now (event_of call.entry) (on_of on) self.old (reaction_of result) self.new }
        ensures goes { IfOk result (GoesTo client.now self.new) }
        ensures spelled { IfOk (reaction_of result) (λ o. IfSome o (GivesSpelled (event_of call.entry))) }
        ensures leads { OnOk result (LeadsOn self.old changes.old.items changes.new.items self.new) }
    {
        match call_in(
            &mut self.seats,
            &mut self.listing,
            self.alloc,
            client,
            call,
            on,
            changes,
        ) {
            Ok(answer) => Ok(answer),
            Err(fault) => {
                take_out(&mut self.seats, &mut self.listing, client);
                Err(fault)
            }
        }
    }

    /// The client is on a new connection: `Session::connect`. Here and in the calls below the changes of rows are appended, and
    /// after a fault the client has no session, and nothing is said of the changes.
    pub fn connect(
        &mut self,
        client: &Text,
        connection: u64,
        connect: &Connect,
        continued: bool,
        room: Option<u64>,
        now: u64,
        changes: &mut Vec<Change>,
    ) -> Result<Option<Addressed>, SessionFault>
        requires continued { MayConnectAt continued (map.get self.old client.now) }
        requires will { IsPublishableIf connect.now.will }
        ensures called { IsCalled client.now (connects connect.now continued room now) (moves connection) self.old (reaction_of result) self.new }
        ensures goes { IfOk result (GoesTo client.now self.new) }
        ensures spelled { IfOk (reaction_of result) (IsSpelledIf now) }
        ensures leads { OnOk result (LeadsOn self.old changes.old.items changes.new.items self.new) }
    {
        let call = Call::Connect {
            connect,
            continued,
            room,
            now,
        };
        self.call(client, call, On::Moves(connection), changes)
    }

    /// A copy of a message for the client: `Session::queue`.
    pub fn queue(
        &mut self,
        client: &Text,
        delivery: Delivery,
        now: u64,
        changes: &mut Vec<Change>,
    ) -> Result<Option<Addressed>, SessionFault>
        ensures called { IsCalled client.now (queues delivery now) stays self.old (reaction_of result) self.new }
        ensures goes { IfOk result (GoesTo client.now self.new) }
        ensures spelled { IfOk (reaction_of result) (IsSpelledIf now) }
        ensures leads { OnOk result (LeadsOn self.old changes.old.items changes.new.items self.new) }
    {
        self.call(client, Call::Queue { delivery, now }, On::Stays, changes)
    }

    /// The client's connection takes so many bytes of PUBLISHes from now on: `Session::make_room`.
    pub fn make_room(
        &mut self,
        client: &Text,
        bytes: u64,
        now: u64,
        changes: &mut Vec<Change>,
    ) -> Result<Option<Addressed>, SessionFault>
        ensures called { IsCalled client.now (rooms bytes now) stays self.old (reaction_of result) self.new }
        ensures goes { IfOk result (GoesTo client.now self.new) }
        ensures spelled { IfOk (reaction_of result) (IsSpelledIf now) }
        ensures leads { OnOk result (LeadsOn self.old changes.old.items changes.new.items self.new) }
    {
        self.call(client, Call::Room { bytes, now }, On::Stays, changes)
    }

    /// A packet that came from the client: `Session::packet`.
    pub fn packet(
        &mut self,
        client: &Text,
        packet: &Packet,
        now: u64,
        room: bool,
        changes: &mut Vec<Change>,
    ) -> Result<Option<Addressed>, SessionFault>
        requires spelled { HasSpelling packet.now }
        requires moment { now < 2 ^ 62 }
        ensures called { IsCalled client.now (takes packet.now now room) stays self.old (reaction_of result) self.new }
        ensures goes { IfOk result (GoesTo client.now self.new) }
        ensures spelled { IfOk (reaction_of result) (IsSpelledIf now) }
        ensures leads { OnOk result (LeadsOn self.old changes.old.items changes.new.items self.new) }
    {
        self.call(
            client,
            Call::Packet { packet, now, room },
            On::Stays,
            changes,
        )
    }

    /// The codes that the client's session waits for: `Session::answer`.
    pub fn answer(
        &mut self,
        client: &Text,
        id: u16,
        codes: &[u8],
        changes: &mut Vec<Change>,
    ) -> Result<Option<Addressed>, SessionFault>
        requires identifier { 1 ≤ id }
        requires codes { codes.now ≢ [] }
        ensures called { IsCalled client.now (answers id codes.now) stays self.old (reaction_of result) self.new }
        ensures goes { IfOk result (GoesTo client.now self.new) }
        ensures spelled { (now : ℕ) → IfOk (reaction_of result) (IsSpelledIf now) }
        ensures leads { OnOk result (LeadsOn self.old changes.old.items changes.new.items self.new) }
    {
        self.call(client, Call::Answer { id, codes }, On::Stays, changes)
    }

    /// The client's connection is gone: `Session::closed`.
    pub fn closed(
        &mut self,
        client: &Text,
        now: u64,
        changes: &mut Vec<Change>,
    ) -> Result<Option<Addressed>, SessionFault>
        requires { now < 2 ^ 62 }
        ensures called { IsCalled client.now (closes now) leaves self.old (reaction_of result) self.new }
        ensures goes { IfOk result (GoesTo client.now self.new) }
        ensures spelled { IfOk (reaction_of result) (IsSpelledIf now) }
        ensures leads { OnOk result (LeadsOn self.old changes.old.items changes.new.items self.new) }
    {
        self.call(client, Call::Closed(now), On::Leaves, changes)
    }

    /// Does one thing that is due of the client's session: `Session::tick`.
    pub fn tick(
        &mut self,
        client: &Text,
        now: u64,
        changes: &mut Vec<Change>,
    ) -> Result<Option<Addressed>, SessionFault>
        requires { now < 2 ^ 62 }
        ensures called { IsCalled client.now (ticks now) stays self.old (reaction_of result) self.new }
        ensures goes { IfOk result (GoesTo client.now self.new) }
        ensures spelled { IfOk (reaction_of result) (IsSpelledIf now) }
        ensures leads { OnOk result (LeadsOn self.old changes.old.items changes.new.items self.new) }
    {
        self.call(client, Call::Tick(now), On::Stays, changes)
    }

    /// The client's session ends now: `Session::finish`. It stays in the table, for `remove`.
    pub fn finish(
        &mut self,
        client: &Text,
        now: u64,
        changes: &mut Vec<Change>,
    ) -> Result<Option<Addressed>, SessionFault>
        requires { now < 2 ^ 62 }
        ensures called { IsCalled client.now (finishes now) stays self.old (reaction_of result) self.new }
        ensures goes { IfOk result (GoesTo client.now self.new) }
        ensures spelled { IfOk (reaction_of result) (IsSpelledIf now) }
        ensures leads { OnOk result (LeadsOn self.old changes.old.items changes.new.items self.new) }
    {
        self.call(client, Call::Finish(now), On::Stays, changes)
    }

    /// The connections whose Keep Alive has run out, rising, each with its client. It takes memory only where there are some.
    pub fn run_out(&self, alloc: Global, now: u64) -> Result<Vec<(u64, Text)>, NoMemory>
        ensures due { IfOk result (λ out. out.items ≡ run_outs self.now now) }
        ensures none { run_outs self.now now ≡ [] → IsOk result }
    {
        let dues = self.listing.run_outs.due(alloc, now)?;
        by_connection(&self.seats, alloc, dues)
    }

    /// The wills that are due, each by its moment and its client, in this order. It takes memory only where there are some.
    pub fn wills(&self, alloc: Global, now: u64) -> Result<Vec<(u64, Text)>, NoMemory>
        ensures due { IfOk result (λ out. out.items ≡ wills_due self.now now) }
        ensures none { wills_due self.now now ≡ [] → IsOk result }
    {
        self.listing.wills.due(alloc, now)
    }

    /// The sessions whose end has come, each by that moment and its client, in this order. It takes memory only where there
    /// are some.
    pub fn ends(&self, alloc: Global, now: u64) -> Result<Vec<(u64, Text)>, NoMemory>
        ensures due { IfOk result (λ out. out.items ≡ ends_due self.now now) }
        ensures none { ends_due self.now now ≡ [] → IsOk result }
    {
        self.listing.ends.due(alloc, now)
    }

    /// The clients whose session was connected, by their bytes. This looks at each session, and takes memory only where
    /// there are some.
    pub fn were_connected(&self, alloc: Global) -> Result<Vec<Text>, NoMemory>
        ensures clients { IfOk result (λ out. out.items ≡ connected self.now) }
        ensures none { connected self.now ≡ [] → IsOk result }
    {
        connected_in(&self.seats, alloc)
    }

    /// The clients with sessions whose home is at another node than this, by their bytes. This looks at each session, and takes
    /// memory only where there are some.
    pub fn elsewhere(
        &self,
        alloc: Global,
        homes: &HomeTable,
        node: u16,
    ) -> Result<Vec<Text>, NoMemory>
        ensures clients { IfOk result (λ out. AreElsewhere homes.now node self.now out.items) }
        ensures none { AreElsewhere homes.now node self.now [] → IsOk result }
    {
        elsewhere_in(&self.seats, alloc, homes, node)
    }
}
