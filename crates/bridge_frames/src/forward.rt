//! Messages for clients of another node.
ghost use Rattle.std.specs.Prelude.{◌≡◌, ◌+◌, ◌<◌, ◌≤◌, ◌++◌, length, take, vec_len, vec_capacity, IfOk, IsErrOf, OnErr, OnOk};
ghost use Rattle.mqtt_fields.specs.Reading.{Gives};
ghost use Rattle.mqtt_message.specs.Spellings.{message};
ghost use Rattle.bridge_frames.specs.Forwards as spec;
ghost use Rattle.bridge_frames.specs.Memory.{ForwardWants};
ghost use Rattle.replica_bytes.specs.Memory.{HasText};

use crate::pick::Picks;
use mqtt_fields::{FieldFault, NoMemory};
use mqtt_message::{Message, SharedMessage, flag_at, put_flag};
use std::alloc::Global;

/// A message for clients of another node.
#[derive(Drop)]
pub struct Forward {
    /// Whether it is for the clients there with plain subscriptions that match.
    pub plain: bool,
    /// The clients there that get it for a shared group.
    pub picks: Picks,
    pub message: SharedMessage,
}

fn message_at(alloc: Global, bytes: &[u8]) -> Result<(SharedMessage, &[u8]), FieldFault>
    ensures exact { Gives (λ x. (x.0, x.1.now)) result (message.at bytes.now) }
    ensures no_memory { IsErrOf result FieldFault.NoMemory → HasText bytes.now }
{
    let (message, used) = Message::read(alloc, bytes)?;
    let message = SharedMessage::new(alloc, message)?;
    Ok((message, &bytes[used..]))
}

impl Forward {
    /// The spelling at the front, and the bytes after it.
    ///
    /// Short where the bytes end inside it, Malformed where they spell none. Memory is asked for once a client of the picks, or
    /// the topic, has been read.
    #[tactic(auto, unfolding(crate::specs::Forwards::forward))]
    pub fn at(alloc: Global, bytes: &[u8]) -> Result<(Forward, &[u8]), FieldFault>
        ensures exact { Gives (λ x. (x.0, x.1.now)) result (spec.forward.at bytes.now) }
        ensures no_memory { IsErrOf result FieldFault.NoMemory → ForwardWants bytes.now }
    {
        let (plain, rest) = flag_at(bytes)?;
        let (picks, rest) = Picks::at(alloc, rest)?;
        let (message, rest) = message_at(alloc, rest)?;
        let forward = Forward {
            plain,
            picks,
            message,
        };
        Ok((forward, rest))
    }

    /// Appends the spelling, or its beginning where memory runs out.
    #[tactic(auto, unfolding(crate::specs::Forwards::forward))]
    pub fn append(&self, out: &mut Vec<u8>) -> Result<(), NoMemory>
        ensures ok { OnOk result (out.new.items ≡ out.old.items ++ spec.forward.bytes self.now) }
        ensures begins { take (length out.old.items) out.new.items ≡ out.old.items }
        ensures full { OnErr result (vec_capacity out.old < vec_len out.old + length (spec.forward.bytes self.now)) }
        ensures capacity { vec_capacity out.old ≤ vec_capacity out.new }
    {
        put_flag(self.plain, out)?;
        self.picks.append(out)?;
        self.message.message().write(out)
    }

    /// What is written is read again. This does nothing; its contract is a law.
    #[tactic(auto, unfolding(crate::specs::Forwards::forward))]
    pub fn has_spelling(&self)
        ensures { spec.forward.Fits self.now }
    {
        self.picks.has_spelling();
        self.message.message().has_spelling();
    }

    /// An equal value, which shares the message.
    pub fn copy(&self, alloc: Global) -> Result<Forward, NoMemory>
        ensures { IfOk result (λ f. f ≡ self.now) }
    {
        Ok(Forward {
            plain: self.plain,
            picks: self.picks.copy(alloc)?,
            message: self.message.copy()?,
        })
    }
}
