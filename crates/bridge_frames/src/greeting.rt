//! What a node says of itself where a link begins.
ghost use Rattle.std.specs.Prelude.{◌≡◌, ◌≢◌, ◌++◌, length, take, IfOk, IsErrOf, OnErr, OnOk};
ghost use Rattle.std.specs.FinSet as set;
ghost use Rattle.mqtt_fields.specs.Reading.{Gives};
ghost use Rattle.bridge_frames.specs.Greetings as spec;
ghost use Rattle.bridge_frames.specs.Memory.{GreetingWants};

use crate::number::{LaneNumber, number_at, put_number};
use causal_context::Context;
use mqtt_fields::{FieldFault, NoMemory, put_u16, u16_at};
use std::alloc::Global;

const FORMAT: u16 = 1;

/// What a node says of itself where a link begins.
#[derive(Drop)]
pub struct Greeting {
    /// The number before that of the first message that waits for the receiver.
    pub gone: LaneNumber,
    /// The number of the last message that the sender has taken of the receiver's lane.
    pub took: LaneNumber,
    /// The dots that the sender has taken.
    pub dots: Context,
}

// The bytes after the format.
fn format_at(bytes: &[u8]) -> Result<(u16, &[u8]), FieldFault>
    ensures exact { Gives (λ x. (x.0, x.1.now)) result (spec.format.at bytes.now) }
    ensures no_memory { IsErrOf result FieldFault.NoMemory → ⊥ }
{
    let (format, rest) = u16_at(bytes)?;
    if format != FORMAT {
        return Err(FieldFault::Malformed);
    }
    Ok((format, rest))
}

impl Greeting {
    /// The spelling at the front, and the bytes after it. Short where the bytes end inside it, Malformed where they spell none, also in
    /// another format. Memory is asked for once something of the dots has been read.
    #[tactic(auto, unfolding(crate::specs::Greetings::greeting))]
    pub(crate) fn at(alloc: Global, bytes: &[u8]) -> Result<(Greeting, &[u8]), FieldFault>
        ensures exact { Gives (λ x. (x.0, x.1.now)) result (spec.greeting.at bytes.now) }
        ensures no_memory { IsErrOf result FieldFault.NoMemory → GreetingWants bytes.now }
    {
        let (_format, rest) = format_at(bytes)?;
        let (gone, rest) = number_at(rest)?;
        let (took, rest) = number_at(rest)?;
        let (dots, rest) = Context::at(alloc, rest)?;
        let greeting = Greeting {
            gone: LaneNumber::of(gone),
            took: LaneNumber::of(took),
            dots,
        };
        Ok((greeting, rest))
    }

    /// Appends the spelling, or its beginning where memory runs out.
    #[tactic(auto, unfolding(crate::specs::Greetings::greeting), using(crate::proofs::GreetingLaws::greeting_fits))]
    pub(crate) fn append(&self, out: &mut Vec<u8>) -> Result<(), NoMemory>
        ensures ok { OnOk result (out.new.items ≡ out.old.items ++ spec.greeting.bytes self.now) }
        ensures spelling { OnOk result (spec.greeting.Fits self.now) }
        ensures begins { take (length out.old.items) out.new.items ≡ out.old.items }
    {
        put_u16(FORMAT, out)?;
        put_number(self.gone, out)?;
        put_number(self.took, out)?;
        self.dots.write(out)
    }

    /// An equal value. Of no dots it takes no memory.
    pub fn copy(&self) -> Result<Greeting, NoMemory>
        ensures ok { IfOk result (λ copy. copy ≡ self.now) }
        ensures memory { OnErr result (self.now.dots ≢ set.empty) }
    {
        Ok(Greeting {
            gone: self.gone,
            took: self.took,
            dots: self.dots.copy()?,
        })
    }
}
