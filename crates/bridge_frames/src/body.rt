//! What a frame says.
ghost use Rattle.std.specs.Prelude.{◌≡◌, ◌<◌, ◌++◌, ◌^◌, length, take, IfOk, IsErrOf, OnErr, OnOk};
ghost use Rattle.mqtt_fields.specs.Reading.{Gives};
ghost use Rattle.bridge_frames.specs.Forwards.{got_number, lane_number, numbered};
ghost use Rattle.bridge_frames.specs.Frames as spec;
ghost use Rattle.bridge_frames.specs.Memory.{BodyWants, CopyWants, ForwardWants, GreetingWants};
ghost use Rattle.causal_context.specs.Spelling as contexts;
ghost use Rattle.replica_bytes.specs.Memory as states;

use crate::forward::Forward;
use crate::greeting::Greeting;
use crate::kind::Kind;
use crate::number::{LaneNumber, number_at, put_number};
use causal_context::Context;
use mqtt_fields::{FieldFault, NUMBERS_END, NoMemory, put_u64, u64_at};
use replica_bytes::{read_store, write_store};
use replica_store::ReplicaStore;
use std::alloc::Global;

/// What a frame says.
#[derive(Drop)]
pub enum FrameBody {
    /// The first frame of a connection: what its sender says of itself.
    Hello(Greeting),
    /// A state to merge.
    Delta(ReplicaStore),
    /// The dots that its sender has taken.
    Know(Context),
    /// A message of the lane from its sender, under its number there.
    Forward(LaneNumber, Forward),
    /// What has come, up to this number.
    Got(LaneNumber),
}

// The number of a message in a lane, from 1 to 2^62 - 1.
fn lane_number_at(bytes: &[u8]) -> Result<(u64, &[u8]), FieldFault>
    ensures exact { Gives (λ x. (x.0, x.1.now)) result (lane_number.at bytes.now) }
    ensures below { IfOk result (λ x. x.0 < 2 ^ 62) }
    ensures no_memory { IsErrOf result FieldFault.NoMemory → ⊥ }
{
    let (number, rest) = u64_at(bytes)?;
    if number == 0 || number >= NUMBERS_END {
        return Err(FieldFault::Malformed);
    }
    Ok((number, rest))
}

fn append_forward(number: LaneNumber, forward: &Forward, out: &mut Vec<u8>) -> Result<(), NoMemory>
    ensures ok { OnOk result (out.new.items ≡ out.old.items ++ numbered.bytes (number, forward.now)) }
    ensures spelling { lane_number.Fits number → numbered.Fits (number, forward.now) }
    ensures begins { take (length out.old.items) out.new.items ≡ out.old.items }
{
    forward.has_spelling();
    put_u64(number.get(), out)?;
    forward.append(out)
}

impl FrameBody {
    /// An equal body. A message is shared. Of Got, of a Delta of nothing, and of a Hello and a Know of no dots it takes no memory.
    pub fn copy(&self, alloc: Global) -> Result<FrameBody, NoMemory>
        ensures ok { IfOk result (λ copy. copy ≡ self.now) }
        ensures memory { OnErr result (CopyWants self.now) }
    {
        match self {
            FrameBody::Hello(greeting) => Ok(FrameBody::Hello(greeting.copy()?)),
            FrameBody::Delta(state) => Ok(FrameBody::Delta(state.copy()?)),
            FrameBody::Know(dots) => Ok(FrameBody::Know(dots.copy()?)),
            FrameBody::Forward(number, forward) => {
                Ok(FrameBody::Forward(*number, forward.copy(alloc)?))
            }
            FrameBody::Got(number) => Ok(FrameBody::Got(*number)),
        }
    }

    pub(crate) fn kind(&self) -> Kind
        ensures { result ≡ spec.kind_of self.now }
    {
        match self {
            FrameBody::Hello(_) => Kind::Hello,
            FrameBody::Delta(_) => Kind::Delta,
            FrameBody::Know(_) => Kind::Know,
            FrameBody::Forward(_, _) => Kind::Forward,
            FrameBody::Got(_) => Kind::Got,
        }
    }

    /// Appends what follows the kind and the nodes, or its beginning.
    #[tactic(auto, using(crate::proofs::FrameLaws::context_fits))]
    pub(crate) fn append(&self, out: &mut Vec<u8>) -> Result<(), NoMemory>
        ensures ok { OnOk result (out.new.items
            ≡ out.old.items ++ (spec.body (spec.kind_of self.now)).bytes self.now) }
        ensures spelling { OnOk result (spec.IsPlain self.now
            → (spec.body (spec.kind_of self.now)).Fits self.now) }
        ensures begins { take (length out.old.items) out.new.items ≡ out.old.items }
    {
        match self {
            FrameBody::Hello(greeting) => greeting.append(out),
            FrameBody::Delta(state) => write_store(state, out),
            FrameBody::Know(dots) => dots.write(out),
            FrameBody::Forward(number, forward) => append_forward(*number, forward, out),
            FrameBody::Got(number) => put_number(*number, out),
        }
    }
}

fn hello_at(alloc: Global, bytes: &[u8]) -> Result<(FrameBody, &[u8]), FieldFault>
    ensures exact { Gives (λ x. (x.0, x.1.now)) result (spec.hello.at bytes.now) }
    ensures no_memory { IsErrOf result FieldFault.NoMemory → GreetingWants bytes.now }
{
    let (greeting, rest) = Greeting::at(alloc, bytes)?;
    Ok((FrameBody::Hello(greeting), rest))
}

fn delta_at(alloc: Global, bytes: &[u8]) -> Result<(FrameBody, &[u8]), FieldFault>
    ensures exact { Gives (λ x. (x.0, x.1.now)) result (spec.delta.at bytes.now) }
    ensures no_memory { IsErrOf result FieldFault.NoMemory → states.WantsMemory bytes.now }
{
    let (state, used) = read_store(alloc, bytes)?;
    Ok((FrameBody::Delta(state), &bytes[used..]))
}

fn know_at(alloc: Global, bytes: &[u8]) -> Result<(FrameBody, &[u8]), FieldFault>
    ensures exact { Gives (λ x. (x.0, x.1.now)) result (spec.know.at bytes.now) }
    ensures no_memory { IsErrOf result FieldFault.NoMemory → contexts.WantsMemory bytes.now }
{
    let (dots, rest) = Context::at(alloc, bytes)?;
    Ok((FrameBody::Know(dots), rest))
}

fn forward_at(alloc: Global, bytes: &[u8]) -> Result<(FrameBody, &[u8]), FieldFault>
    ensures exact { Gives (λ x. (x.0, x.1.now)) result (spec.forward.at bytes.now) }
    ensures no_memory { IsErrOf result FieldFault.NoMemory → states.After lane_number ForwardWants bytes.now }
{
    let (number, rest) = lane_number_at(bytes)?;
    let (forward, rest) = Forward::at(alloc, rest)?;
    Ok((FrameBody::Forward(LaneNumber::of(number), forward), rest))
}

fn got_at(bytes: &[u8]) -> Result<(FrameBody, &[u8]), FieldFault>
    ensures exact { Gives (λ x. (x.0, x.1.now)) result (spec.got.at bytes.now) }
    ensures no_memory { IsErrOf result FieldFault.NoMemory → ⊥ }
{
    let (number, rest) = number_at(bytes)?;
    Ok((FrameBody::Got(LaneNumber::of(number)), rest))
}

/// The body of a frame of this kind at the front, and the bytes after it.
pub(crate) fn body_at(
    alloc: Global,
    kind: Kind,
    bytes: &[u8],
) -> Result<(FrameBody, &[u8]), FieldFault>
    ensures exact { Gives (λ x. (x.0, x.1.now)) result ((spec.body kind).at bytes.now) }
    ensures no_memory { IsErrOf result FieldFault.NoMemory → BodyWants kind bytes.now }
{
    match kind {
        Kind::Hello => hello_at(alloc, bytes),
        Kind::Delta => delta_at(alloc, bytes),
        Kind::Know => know_at(alloc, bytes),
        Kind::Forward => forward_at(alloc, bytes),
        Kind::Got => got_at(bytes),
    }
}
