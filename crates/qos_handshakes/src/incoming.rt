//! What came from one client at QoS 1 and QoS 2, over all connections of its session (MQTT 5.0, 4.3.2 and 4.3.3).
ghost use Rattle.std.specs.Prelude.{◌≡◌, ◌≢◌, ◌<◌, [], true, false, IfOk, OnErr, MatchOption, is_some, None};
ghost use Rattle.qos_handshakes.specs.Incoming.{Publish1Answer, Publish2Step, ReleaseStep, identifiers_of, of_before, of_identifiers, opened, opened_here, rise};

use crate::answers::{Ack, In};
use mqtt_fields::{MOST_EXCHANGES, NoMemory};
use std::alloc::Global;
use std::collections::BTreeMap;
use std::marker::Model;

/// The QoS 2 exchanges that a client has opened.
pub struct Incoming {
    /// Whether the PUBLISH of each came on this connection.
    exchanges: BTreeMap<u16, bool>,
    /// Of how many it did.
    here: usize,
}

impl Drop for Incoming {
    fn drop(self) {
        let Incoming {
            exchanges: _exchanges,
            here: _here,
        } = self;
    }
}

impl Model for Incoming {
    ghost use Rattle.std.specs.Prelude.{◌≡◌};
    ghost use Rattle.qos_handshakes.specs.Incoming.{Received, opened_here};

    ghost Value = { Received };

    ghost view = { λ a. a.exchanges.entries };

    ghost invariant = { λ a. a.here ≡ opened_here a.exchanges.entries };
}

fn mark_of_before(exchanges: &mut BTreeMap<u16, bool>)
    ensures { exchanges.new.entries ≡ of_before exchanges.old.entries }
{
    exchanges.retain(|_, here| {
        *here = false;
        true
    });
}

fn identifiers_in(alloc: Global, exchanges: &BTreeMap<u16, bool>) -> Result<Vec<u16>, NoMemory>
    ensures all { IfOk result (λ ids. ids.items ≡ identifiers_of exchanges.now.entries) }
    ensures rise { IfOk result (λ ids. rise ids.items ≡ true) }
    ensures need { OnErr result (exchanges.now.entries ≢ []) }
{
    let mut ids = Vec::new(alloc);
    for id in exchanges.keys() {
        ids.push(*id)?;
    }
    Ok(ids)
}

impl Incoming {
    /// Of a session that has just been made.
    pub fn new(alloc: Global) -> Self
        ensures { result ≡ [] }
    {
        Incoming {
            exchanges: BTreeMap::new(alloc),
            here: 0,
        }
    }

    /// Of identifiers whose exchanges were kept open: there is no connection. None where they don't rise.
    /// Of none there is no want of memory.
    pub fn from_identifiers(
        alloc: Global,
        identifiers: Vec<u16>,
    ) -> Result<Option<Incoming>, NoMemory>
        ensures made { IfOk result (λ o. MatchOption o (rise identifiers.items ≡ false) (λ x. (rise identifiers.items ≡ true) × (x ≡ of_identifiers identifiers.items))) }
        ensures need { OnErr result (identifiers.items ≢ []) }
    {
        let mut left = identifiers;
        let mut exchanges = BTreeMap::new(alloc);
        let mut first = 65_536u32;
        while let Some(id) = left.pop() {
            if u32::from(id) >= first {
                return Ok(None);
            }
            exchanges.insert(id, false)?;
            first = u32::from(id);
        }
        Ok(Some(Incoming { exchanges, here: 0 }))
    }

    /// The identifiers in use, which rise. They are all that is kept. Of none there is no want of memory.
    pub fn identifiers(&self, alloc: Global) -> Result<Vec<u16>, NoMemory>
        ensures all { IfOk result (λ ids. ids.items ≡ identifiers_of self.now) }
        ensures rise { IfOk result (λ ids. rise ids.items ≡ true) }
        ensures need { OnErr result (self.now ≢ []) }
    {
        identifiers_in(alloc, &self.exchanges)
    }

    fn opened(&self, id: u16) -> Option<bool>
        ensures { result ≡ opened id self.now }
    {
        self.exchanges.get(&id).copied()
    }

    /// Whether an open exchange uses the identifier.
    pub fn in_use(&self, id: u16) -> bool
        ensures { result ≡ is_some (opened id self.now) }
    {
        self.opened(id).is_some()
    }

    /// A PUBLISH at QoS 2: New where it opens an exchange.
    ///
    /// NoMemory, only where the exchange is new, leaves all as it was.
    pub fn publish2(&mut self, id: u16) -> Result<In, NoMemory>
        ensures ok { IfOk result (λ answer. Publish2Step self.old id answer self.new) }
        ensures err { OnErr result (self.new ≡ self.old) }
        ensures new { OnErr result ((opened_here self.old < 100) × (opened id self.old ≡ None)) }
    {
        let known = self.opened(id);
        if known == Some(true) {
            return Ok(In::Repeat);
        }
        if self.here >= MOST_EXCHANGES {
            return Ok(In::OverMaximum);
        }
        if known.is_some() {
            return Ok(In::Repeat);
        }
        self.exchanges.insert(id, true)?;
        self.here += 1;
        Ok(In::New)
    }

    /// A PUBLISH at QoS 1: New where its message is to be passed on. It opens nothing.
    pub fn publish1(&self, id: u16) -> In
        ensures { Publish1Answer self.now id result }
    {
        if self.here >= MOST_EXCHANGES {
            return In::OverMaximum;
        }
        if self.in_use(id) {
            return In::InUse;
        }
        In::New
    }

    /// A PUBREL, which ends an exchange.
    pub fn release(&mut self, id: u16) -> Ack
        ensures { ReleaseStep self.old id result self.new }
    {
        let Some(here) = self.exchanges.remove(&id) else {
            return Ack::Unknown;
        };
        if here {
            self.here -= 1;
        }
        Ack::Done
    }

    /// A new connection: the open exchanges stay, and none was opened on it.
    pub fn restart(&mut self)
        ensures { self.new ≡ of_before self.old }
    {
        mark_of_before(&mut self.exchanges);
        self.here = 0;
    }
}
