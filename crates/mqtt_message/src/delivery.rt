//! Deliveries: a message on its way to one client.

ghost use Rattle.std.specs.Prelude.{◌≡◌, ◌+◌, ◌<◌, ◌≤◌, ◌++◌, length, take, drop, vec_len, vec_capacity, IsOk, IsErrOf, IfOk, OnOk, OnErr};
ghost use Rattle.mqtt_fields.specs.Reading.{Gives};
ghost use Rattle.mqtt_fields.specs.Numbers.{text};

use crate::field::{flag_at, put_flag, put_qos, qos_at};
use crate::identifiers::Identifiers;
use crate::message::Message;
use crate::shared::SharedMessage;
use mqtt_fields::{FieldFault, NoMemory, Qos};
use std::alloc::Global;

/// A message, and how one client is to get it.
pub struct Delivery {
    pub message: SharedMessage,
    pub qos: Qos,
    pub retain: bool,
    pub identifiers: Identifiers,
}

impl Drop for Delivery {
    fn drop(self) {
        let Delivery {
            message: _message,
            qos: _qos,
            retain: _retain,
            identifiers: _identifiers,
        } = self;
    }
}

impl Delivery {
    ghost use Rattle.mqtt_message.specs.Spellings.{delivery};

    /// The delivery at the front, and how many bytes it takes.
    ///
    /// Short where the bytes end inside it, Malformed where they spell none. Only where a
    /// string stands in front, as a topic does, is memory asked for.
    pub fn read(alloc: Global, bytes: &[u8]) -> Result<(Delivery, usize), FieldFault>
        ensures exact { Gives (λ x. (x.0, drop x.1 bytes.now)) result (delivery.at bytes.now) }
        ensures used { IfOk result (λ x. x.1 ≤ length bytes.now) }
        ensures no_memory { IsErrOf result FieldFault.NoMemory → IsOk (text.at bytes.now) }
    {
        let (delivery, rest) = Delivery::at(alloc, bytes)?;
        Ok((delivery, bytes.len() - rest.len()))
    }

    #[tactic(auto, unfolding(crate::specs::Spellings::delivery), using(crate::proofs::BeginLaws::begins))]
    fn at(alloc: Global, bytes: &[u8]) -> Result<(Delivery, &[u8]), FieldFault>
        ensures exact { Gives (λ x. (x.0, x.1.now)) result (delivery.at bytes.now) }
        ensures no_memory { IsErrOf result FieldFault.NoMemory → IsOk (text.at bytes.now) }
    {
        let (message, rest) = Message::at(alloc, bytes)?;
        let (qos, rest) = qos_at(rest)?;
        let (retain, rest) = flag_at(rest)?;
        let (identifiers, rest) = Identifiers::at(alloc, rest)?;
        let delivery = Delivery {
            message: SharedMessage::new(alloc, message)?,
            qos,
            retain,
            identifiers,
        };
        Ok((delivery, rest))
    }

    #[tactic(auto, unfolding(crate::specs::Spellings::delivery))]
    fn append(&self, out: &mut Vec<u8>) -> Result<(), NoMemory>
        ensures ok { OnOk result (out.new.items ≡ out.old.items ++ delivery.bytes self.now) }
        ensures begins { take (length out.old.items) out.new.items ≡ out.old.items }
        ensures full { OnErr result (vec_capacity out.old
            < vec_len out.old + length (delivery.bytes self.now)) }
        ensures capacity { vec_capacity out.old ≤ vec_capacity out.new }
    {
        self.message.message().append(out)?;
        put_qos(self.qos, out)?;
        put_flag(self.retain, out)?;
        self.identifiers.append(out)
    }

    /// Appends the delivery's bytes.
    pub fn write(&self, out: &mut Vec<u8>) -> Result<(), NoMemory>
        ensures ok { OnOk result (out.new.items ≡ out.old.items ++ delivery.bytes self.now) }
        ensures err { OnErr result (out.new.items ≡ out.old.items) }
        ensures full { OnErr result (vec_capacity out.old
            < vec_len out.old + length (delivery.bytes self.now)) }
        ensures capacity { vec_capacity out.old ≤ vec_capacity out.new }
    {
        let len = out.len();
        match self.append(out) {
            Ok(()) => Ok(()),
            Err(fault) => {
                out.truncate(len);
                Err(fault)
            }
        }
    }

    /// Each delivery has a spelling, so what is written is read again. This does nothing; its contract is a law.
    pub fn has_spelling(&self)
        ensures { delivery.Fits self.now }
    {
        self.message.message().has_spelling();
        let _identifiers = self.identifiers.as_slice();
    }

    /// A delivery equal to this one, which shares its message.
    pub fn copy(&self, alloc: Global) -> Result<Delivery, NoMemory>
        ensures { IfOk result (λ d. d ≡ self.now) }
    {
        Ok(Delivery {
            message: self.message.copy()?,
            qos: self.qos,
            retain: self.retain,
            identifiers: self.identifiers.copy(alloc)?,
        })
    }
}
