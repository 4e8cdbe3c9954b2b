//! The lanes to and from one other node.
ghost use Rattle.std.specs.Prelude.{[], ◌≡◌, ◌<◌, ◌≤◌, ◌+◌, ◌++◌, ◌^◌, ◌↔◌, suc, max, nat_eq, if◌then◌else◌, take, drop, length, map, OnOk, OnErr, IfOk, IsOk, IsTrue};
ghost use Rattle.row_store.specs.Rows.{entry_of};
ghost use Rattle.bridge_lanes.specs.ChangeSteps.{IsSoundLane, message_changes, numbers_changes};
ghost use Rattle.bridge_lanes.specs.Changes.{left_of, new_kept, told_now};
ghost use Rattle.bridge_lanes.specs.Reading.{IsLane, lane_in};
ghost use Rattle.bridge_lanes.specs.Rows.{numbers_of, waiting_of};
ghost use Rattle.bridge_lanes.specs.Lanes.{new_lane, with_got, with_took};
ghost use Rattle.bridge_deltas.specs.Lane.{after_offer, first_frames, frames_from, next_number, offer_of, told_lane};
ghost use Rattle.bridge_deltas.specs.More.{fitting, frames_after};

use crate::offer::Offer;
use bridge_frames::{BridgeFrame, Forward, FrameBody, LaneNumber};
use bridge_lanes::{
    LANE_ROOM, ReadLane, append_numbers, append_numbers_change, append_puts, append_removals,
    append_rows,
};
use mqtt_fields::{NUMBERS_END, NoMemory};
use row_store::{Change, Row};
use std::alloc::Global;
use std::collections::VecDeque;
use std::marker::Model;

/// As many messages as are sent where it isn't known what was sent.
const FIRST: usize = 64;

/// As many messages as are sent at once at most, and as many bytes of payload after which no more are.
const MOST: usize = 4096;

const MOST_BYTES: usize = 4_194_304;

/// Numbered messages to the other node, and the number of the last one that was taken of its messages.
///
/// Those that have been taken there stay until it is told that their rows go.
#[derive(Drop)]
pub(crate) struct Lane {
    /// The number of the last message that went before those that are here.
    base: u64,
    messages: VecDeque<Forward>,
    /// How many of them have been taken there.
    gone: usize,
    /// How many of them have rows.
    told: usize,
    took: u64,
    told_took: u64,
}

impl Model for Lane {
    ghost use Rattle.std.specs.Prelude.{◌<◌, ◌≤◌, ◌+◌, ◌^◌, take, drop, length};
    ghost use Rattle.std.specs.List.{AllByRecursion};
    ghost use Rattle.bridge_frames.specs.Forwards.{forward};
    ghost use Rattle.bridge_lanes.specs.Changes.{KeptLane};
    ghost use Rattle.bridge_deltas.specs.Lane.{coded_kept};

    ghost Value = { KeptLane };

    ghost coded = { coded_kept };

    ghost view = { λ l. record {
      lane = record { gone = l.base + l.gone; waiting = drop l.gone l.messages.items; took = l.took };
      told = record { gone = l.base; waiting = take l.told l.messages.items; took = l.told_took };
    } };

    ghost invariant = { λ l. (l.gone ≤ length l.messages.items) × (l.told ≤ length l.messages.items)
        × (l.base + length l.messages.items < 2 ^ 62) × (length l.messages.items ≤ l.gone + 65536)
        × (l.told_took ≤ l.took) × (l.took < 2 ^ 62) × AllByRecursion forward.Fits l.messages.items };
}

// How many messages from a place on are sent at once.
fn count_fitting(messages: &VecDeque<Forward>, place: usize) -> usize
    requires { place ≤ length messages.now.items }
    ensures count { result ≡ fitting 4096 4194304 (drop place messages.now.items) }
    ensures there { place + result ≤ length messages.now.items }
{
    let count = (messages.len() - place).min(MOST);
    let mut bytes = MOST_BYTES;
    for i in 0..count {
        if bytes == 0 {
            return i;
        }
        let message = messages[place + i].message.message();
        bytes = bytes.saturating_sub(message.payload.as_slice().len());
    }
    count
}

// Frames with so many messages from a place on, under the numbers after those that are gone.
fn frames_of(
    alloc: Global,
    from: u16,
    to: u16,
    gone: u64,
    messages: &VecDeque<Forward>,
    place: usize,
    count: usize,
) -> Result<Vec<BridgeFrame>, NoMemory>
    requires there { place + count ≤ length messages.now.items }
    requires numbers { gone + length messages.now.items < 2 ^ 62 + place }
    ensures frames { IfOk result (λ out. out.items
        ≡ frames_from from to (suc gone) (take count (drop place messages.now.items))) }
    ensures memory { OnErr result (0 < count) }
{
    let mut out = Vec::new(alloc);
    for i in 0..count {
        let message = messages[place + i].copy(alloc)?;
        let number = gone + i as u64 + 1;
        out.push(BridgeFrame {
            from,
            to,
            body: FrameBody::Forward(LaneNumber::of(number), message),
        })?;
    }
    Ok(out)
}

// Lets the first messages go.
fn let_go(messages: &mut VecDeque<Forward>, count: usize)
    requires { count ≤ length messages.old.items }
    ensures { messages.new.items ≡ drop count messages.old.items }
{
    for _ in 0..count {
        let _gone = messages.pop_front();
    }
}

impl Lane {
    /// No message has been put in, or taken.
    pub fn new(alloc: Global) -> Lane
        ensures { result ≡ new_kept }
    {
        Lane {
            base: 0,
            messages: VecDeque::new(alloc),
            gone: 0,
            told: 0,
            took: 0,
            told_took: 0,
        }
    }

    /// Whether no message has been put in, and none taken.
    pub fn is_new(&self) -> bool
        ensures { IsTrue result ↔ (self.now.lane ≡ new_lane) }
    {
        self.base == 0 && self.messages.is_empty() && self.took == 0
    }

    /// Puts a message in, unless too many wait or the numbers are at their end.
    pub fn put(&mut self, message: Forward) -> Result<Offer, NoMemory>
        ensures answer { IfOk result (λ offer. offer ≡ offer_of self.old.lane) }
        ensures after { IfOk result (λ offer. self.new
            ≡ record self.old { lane = after_offer offer message self.old.lane }) }
        ensures err { OnErr result (self.new ≡ self.old) }
        ensures memory { OnErr result (offer_of self.old.lane ≡ Offer.Queued (next_number self.old.lane)) }
    {
        if self.messages.len() - self.gone >= LANE_ROOM {
            return Ok(Offer::Full);
        }
        let number = self.base + self.messages.len() as u64 + 1;
        if number >= NUMBERS_END {
            return Ok(Offer::AtEnd);
        }
        message.has_spelling();
        self.messages.push_back(message)?;
        Ok(Offer::Queued(number))
    }

    /// Frames with the first messages that wait. Only these take memory.
    pub fn first(&self, alloc: Global, from: u16, to: u16) -> Result<Vec<BridgeFrame>, NoMemory>
        ensures frames { IfOk result (λ out. out.items ≡ first_frames from to self.now.lane) }
        ensures memory { OnErr result (0 < length self.now.lane.waiting) }
    {
        let gone = self.base + self.gone as u64;
        let count = (self.messages.len() - self.gone).min(FIRST);
        let out = frames_of(alloc, from, to, gone, &self.messages, self.gone, count)?;
        Ok(out)
    }

    /// Frames with the first messages that wait under numbers above one. Only these take memory.
    pub fn first_after(
        &self,
        alloc: Global,
        from: u16,
        to: u16,
        after: u64,
    ) -> Result<Vec<BridgeFrame>, NoMemory>
        ensures frames { IfOk result (λ out. out.items ≡ frames_after from to after self.now.lane) }
        ensures memory { OnErr result (max self.now.lane.gone after < self.now.lane.gone + length self.now.lane.waiting) }
    {
        let gone = self.base + self.gone as u64;
        let waiting = self.messages.len() - self.gone;
        let passed = after.saturating_sub(gone).min(waiting as u64) as usize;
        let place = self.gone + passed;
        let count = count_fitting(&self.messages, place);
        let last = gone + passed as u64;
        let out = frames_of(alloc, from, to, last, &self.messages, place, count)?;
        Ok(out)
    }

    /// How many messages wait.
    pub fn count(&self) -> usize
        ensures { result ≡ length self.now.lane.waiting }
    {
        self.messages.len() - self.gone
    }

    /// Whether a number is that of the next message to take; then it counts as taken.
    pub fn take_next(&mut self, number: LaneNumber) -> bool
        ensures next { result ≡ nat_eq number (suc self.old.lane.took) }
        ensures after { self.new
            ≡ (if result then record self.old { lane = with_took number self.old.lane } else self.old) }
    {
        let number = number.get();
        if number == 0 || number - 1 != self.took {
            return false;
        }
        self.took = number;
        true
    }

    /// The number before that of the first message that waits.
    pub fn gone(&self) -> LaneNumber
        ensures { result ≡ self.now.lane.gone }
    {
        LaneNumber::of(self.base + self.gone as u64)
    }

    /// The number of the last message that was taken.
    pub fn took(&self) -> LaneNumber
        ensures { result ≡ self.now.lane.took }
    {
        LaneNumber::of(self.took)
    }

    /// The other node has taken the messages up to a number, and they no longer wait.
    pub fn got(&mut self, number: LaneNumber)
        ensures { self.new ≡ record self.old { lane = with_got number self.old.lane } }
    {
        let past = number.get().saturating_sub(self.base + self.gone as u64);
        let waiting = self.messages.len() - self.gone;
        self.gone += past.min(waiting as u64) as usize;
    }

    /// The rows of the lanes have been told as they are: messages that have been taken are let go.
    pub fn tell(&mut self)
        ensures { self.new ≡ told_now self.old }
    {
        let_go(&mut self.messages, self.gone);
        self.base += self.gone as u64;
        self.gone = 0;
        self.told = self.messages.len();
        self.told_took = self.took;
    }

    /// The lanes that rows say.
    pub fn of(read: ReadLane) -> Lane
        requires { IsLane (lane_in read) }
        ensures { result ≡ told_lane (lane_in read) }
    {
        let ReadLane {
            gone,
            messages,
            took,
        } = read;
        let told = messages.len();
        Lane {
            base: gone,
            messages,
            gone: 0,
            told,
            took,
            told_took: took,
        }
    }

    /// The lanes are such as rows can say. This does nothing; its contract is a law.
    pub fn is_lane(&self)
        ensures { IsLane self.now.lane }
    {
        let _gone = self.gone;
    }

    /// Appends the rows of the messages that wait for the peer, or the first of them where memory runs out. Where none waits it takes
    /// no memory.
    pub fn append_messages(
        &self,
        alloc: Global,
        peer: u16,
        out: &mut Vec<Row>,
    ) -> Result<(), NoMemory>
        ensures ok { OnOk result (map entry_of out.new.items ≡ map entry_of out.old.items ++ waiting_of peer self.now.lane) }
        ensures begins { take (length out.old.items) out.new.items ≡ out.old.items }
        ensures none { waiting_of peer self.now.lane ≡ [] → IsOk result }
    {
        append_rows(alloc, peer, self.base, &self.messages, self.gone, out)
    }

    /// Appends the row of the numbers of the peer's lanes, if they have one: else it takes no memory. Where memory runs out `out`
    /// stays as it was.
    pub fn append_numbers(
        &self,
        alloc: Global,
        peer: u16,
        out: &mut Vec<Row>,
    ) -> Result<(), NoMemory>
        ensures ok { OnOk result (map entry_of out.new.items ≡ map entry_of out.old.items ++ numbers_of peer self.now.lane) }
        ensures err { OnErr result (out.new.items ≡ out.old.items) }
        ensures none { numbers_of peer self.now.lane ≡ [] → IsOk result }
    {
        let last_put = self.base + self.messages.len() as u64;
        append_numbers(alloc, peer, last_put, self.took, out)
    }

    /// What is told comes before what is. This does nothing; its contract is a law.
    pub fn is_sound(&self)
        ensures { IsSoundLane self.now }
    {
        let _base = self.base;
    }

    /// Appends what has changed of the rows of messages since they were told: where nothing has, no memory is taken.
    pub fn message_changes(
        &self,
        alloc: Global,
        peer: u16,
        out: &mut Vec<Change>,
    ) -> Result<(), NoMemory>
        ensures ok { OnOk result (map left_of out.new.items ≡ map left_of out.old.items ++ message_changes peer self.now) }
        ensures told { self.now.told ≡ self.now.lane → IsOk result }
    {
        append_removals(alloc, peer, self.base, self.gone.min(self.told), out)?;
        let from = self.gone.max(self.told);
        append_puts(alloc, peer, self.base, &self.messages, from, out)
    }

    /// Appends what has changed of the row of the numbers since it was told: where nothing has, no memory is taken.
    pub fn numbers_change(
        &self,
        alloc: Global,
        peer: u16,
        out: &mut Vec<Change>,
    ) -> Result<(), NoMemory>
        ensures ok { OnOk result (map left_of out.new.items ≡ map left_of out.old.items ++ numbers_changes peer self.now) }
        ensures err { OnErr result (out.new.items ≡ out.old.items) }
        ensures told { self.now.told ≡ self.now.lane → IsOk result }
    {
        let told = (self.base + self.told as u64, self.told_took);
        let now = (self.base + self.messages.len() as u64, self.took);
        append_numbers_change(alloc, peer, told, now, out)
    }
}
