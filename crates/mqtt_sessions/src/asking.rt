//! SUBSCRIBE and UNSUBSCRIBE, and their answers (MQTT 5.0, 3.8 to 3.11).

ghost use Rattle.std.specs.Prelude.{◌≡◌, ◌≢◌, ◌≤◌, ◌↔◌, ℕ, [], replicate, IsTrue, None, IfOk, IfErr, true};
ghost use Rattle.mqtt_topics.specs.Topics.{IsFilter, IsShared};
ghost use Rattle.mqtt_sessions.specs.Asking as asking;
ghost use Rattle.mqtt_sessions.specs.Asking.{AnswerStep, AnswerWants, AsksNoLocalShare, IsNoLocalShare, SubscribeStep};
ghost use Rattle.mqtt_sessions.specs.Called.{IsFault};
ghost use Rattle.mqtt_sessions.specs.Lengths.{IsMeasured};
ghost use Rattle.mqtt_sessions.specs.Reaction.{AreSpelled, Comes, gives_out};
ghost use Rattle.mqtt_sessions.specs.State.{watched};

use crate::answers::{Measured, list_fits, suback, unsuback};
use crate::fault::SessionFault;
use crate::link::{Asked, asked_of, waiting_by};
use crate::reaction::{Ask, Reaction, asks, nothing};
use crate::running::Running;
use mqtt_fields::{NoMemory, Text};
use mqtt_packets::{Subscribe, SubscribeFilter, Unsubscribe, reason};
use mqtt_topics::{Filter, TopicFault};
use std::alloc::Global;

/// Whether the text begins as a shared filter does.
fn is_shared(text: &str) -> bool
    ensures { IsTrue result ↔ IsShared text.now }
{
    text.strip_prefix("$share/").is_some()
}

/// Whether the text is a filter. Where memory is refused it is: a fault is found before.
fn is_filter(alloc: Global, text: &Text) -> bool
    ensures { IsTrue result ↔ IsFilter text.now }
{
    match Filter::parse(alloc, text.as_str()) {
        Ok(_) | Err(TopicFault::NoMemory) => true,
        Err(_) => false,
    }
}

fn is_no_local_share(alloc: Global, asked: &SubscribeFilter) -> bool
    ensures { IsTrue result ↔ IsNoLocalShare asked.now }
{
    asked.options.no_local() && is_shared(asked.filter.as_str()) && is_filter(alloc, &asked.filter)
}

/// Whether a shared filter is asked for with No Local.
fn asks_no_local_share(alloc: Global, filters: &[SubscribeFilter]) -> bool
    ensures { IsTrue result ↔ AsksNoLocalShare filters.now }
{
    for each in filters {
        if is_no_local_share(alloc, each) {
            return true;
        }
    }
    false
}

/// Packet Identifier in use, for each of so many filters.
fn in_use_codes(alloc: Global, count: usize) -> Result<Vec<u8>, NoMemory>
    ensures { IfOk result (λ codes. codes.items ≡ replicate count 145) }
{
    let codes = vec![in alloc; reason::PACKET_IDENTIFIER_IN_USE; count]?;
    Ok(codes)
}

/// SUBACK or UNSUBACK.
fn answer_of(alloc: Global, asked: Asked, id: u16, codes: Vec<u8>) -> Measured
    ensures packet { result.packet ≡ asking.answer_of asked id codes.items }
    ensures measured { IsMeasured result }
{
    match asked {
        Asked::Subscribing => suback(alloc, id, codes),
        Asked::Unsubscribing => unsuback(alloc, id, codes),
    }
}

impl Running {
    fn ask(&mut self, ask: Ask, asked: Asked) -> Reaction
        ensures step { Comes (asking.asking ask asked self.old.state) result self.new.state }
        ensures outgoing { watched self.new ≡ watched self.old }
    {
        self.connection = waiting_by(self.connection.take(), Some(asked));
        asks(self.alloc, Some(ask), false)
    }

    /// A SUBSCRIBE that breaks no rule.
    fn ask_to_subscribe(
        &mut self,
        request: &Subscribe,
        limit: u64,
    ) -> Result<Reaction, SessionFault>
        requires { limit ≤ 268435460 }
        ensures step { IfOk result (λ r. Comes (asking.subscribed request.now limit self.old.state) r self.new.state) }
        ensures fault { IfErr result (λ e. IsFault (gives_out (asking.subscribed request.now limit self.old.state).reaction ≡ true) ⊥ e) }
        ensures outgoing { watched self.new ≡ watched self.old }
    {
        if self.incoming.in_use(request.identifier) {
            let count = request.filters.as_slice().len();
            if !list_fits(limit, count) {
                return Ok(self.close(None));
            }
            let codes = in_use_codes(self.alloc, count)?;
            return self.answered(limit, suback(self.alloc, request.identifier, codes), None);
        }
        Ok(self.ask(Ask::Subscribe, Asked::Subscribing))
    }

    /// A SUBSCRIBE.
    pub(crate) fn subscribe(
        &mut self,
        request: &Subscribe,
        limit: u64,
    ) -> Result<Reaction, SessionFault>
        requires { limit ≤ 268435460 }
        ensures step { IfOk result (λ r. SubscribeStep request.now limit self.old.state r self.new.state) }
        ensures fault { IfErr result (λ e. IsFault ((AsksNoLocalShare request.now.filters → ⊥) × (gives_out (asking.subscribed request.now limit self.old.state).reaction ≡ true)) ⊥ e) }
        ensures outgoing { watched self.new ≡ watched self.old }
    {
        if asks_no_local_share(self.alloc, request.filters.as_slice()) {
            return Ok(self.refused(limit, reason::PROTOCOL_ERROR));
        }
        self.ask_to_subscribe(request, limit)
    }

    /// An UNSUBSCRIBE.
    pub(crate) fn unsubscribe(
        &mut self,
        request: &Unsubscribe,
        limit: u64,
    ) -> Result<Reaction, SessionFault>
        requires { limit ≤ 268435460 }
        ensures step { IfOk result (λ r. Comes (asking.unsubscribed request.now limit self.old.state) r self.new.state) }
        ensures fault { IfErr result (λ e. IsFault (gives_out (asking.unsubscribed request.now limit self.old.state).reaction ≡ true) ⊥ e) }
        ensures outgoing { watched self.new ≡ watched self.old }
    {
        if self.incoming.in_use(request.identifier) {
            let count = request.filters.as_slice().len();
            if !list_fits(limit, count) {
                return Ok(self.close(None));
            }
            let codes = in_use_codes(self.alloc, count)?;
            return self.answered(limit, unsuback(self.alloc, request.identifier, codes), None);
        }
        Ok(self.ask(Ask::Unsubscribe, Asked::Unsubscribing))
    }

    fn stop_waiting(&mut self)
        ensures step { self.new.state ≡ asking.waiting_for None self.old.state }
        ensures outgoing { watched self.new ≡ watched self.old }
    {
        self.connection = waiting_by(self.connection.take(), None);
    }

    /// The codes of the last packet that asked for some.
    pub(crate) fn answer(&mut self, id: u16, codes: &[u8]) -> Result<Reaction, SessionFault>
        requires identifier { 1 ≤ id }
        requires codes { codes.now ≢ [] }
        ensures step { IfOk result (λ r. AnswerStep id codes.now self.old.state r self.new.state) }
        ensures spelled { IfOk result (λ r. (now : ℕ) → AreSpelled now r.packets) }
        ensures fault { IfErr result (λ e. IsFault (AnswerWants id codes.now self.old.state) ⊥ e) }
        ensures outgoing { watched self.new ≡ watched self.old }
    {
        let Some(limit) = self.limit() else {
            return Ok(nothing(self.alloc));
        };
        let Some(asked) = asked_of(&self.connection) else {
            return Ok(nothing(self.alloc));
        };
        if !list_fits(limit, codes.len()) {
            return Ok(self.close(None));
        }
        let codes = Vec::from_slice(self.alloc, codes)?;
        self.stop_waiting();
        self.answered(limit, answer_of(self.alloc, asked, id, codes), None)
    }
}
