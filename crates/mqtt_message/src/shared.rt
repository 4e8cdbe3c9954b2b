//! Messages that several holders share.

ghost use Rattle.std.specs.Prelude.{◌≡◌, IfOk};

use crate::message::Message;
use mqtt_fields::NoMemory;
use std::alloc::Global;
use std::marker::Model;
use std::rc::Rc;

/// A message that deliveries and retained messages hold together: a copy copies no bytes. Contracts see the message.
pub struct SharedMessage {
    rc: Rc<Message, Global>,
}

impl Drop for SharedMessage {
    fn drop(self) {
        let SharedMessage { rc: _rc } = self;
    }
}

impl Model for SharedMessage {
    ghost use Rattle.mqtt_message.specs.declared.message.Message.{Message};

    ghost Value = { Message };

    ghost use Rattle.mqtt_message.specs.Codes.{coded_message};

    ghost coded = { coded_message };

    ghost view = { λ s. s.rc.value };
}

impl SharedMessage {
    /// The message, with one holder.
    pub fn new(alloc: Global, message: Message) -> Result<SharedMessage, NoMemory>
        ensures { IfOk result (λ s. s ≡ message) }
    {
        let rc = Rc::new(alloc, message)?;
        Ok(SharedMessage { rc })
    }

    /// The message.
    pub fn message(&self) -> &Message
        ensures { result.now ≡ self.now }
    {
        self.rc.as_ref()
    }

    /// The same message, with one more holder. This copies none of its bytes.
    pub fn copy(&self) -> Result<SharedMessage, NoMemory>
        ensures { IfOk result (λ s. s ≡ self.now) }
    {
        let rc = self.rc.clone()?;
        Ok(SharedMessage { rc })
    }
}
