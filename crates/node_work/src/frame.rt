//! What nodes send to one another.

ghost use Rattle.std.specs.Prelude.{◌≡◌, ◌≤◌, ◌<◌, length, Some, IfOk, IsErrOf, OnOk};
ghost use Rattle.bridge_frames.specs.Frames.{HasSpelling, IsPlain, content, limit};
ghost use Rattle.node_work.specs.Held.Bridge.{written_frame};
ghost use Rattle.node_work.specs.Names.{frame_name, frame_kind};

use bridge_frames::{BridgeFrame, FrameBody, LinkFault};
use mqtt_fields::NoMemory;
use mqtt_packets::Bytes;
use std::alloc::Global;
use std::fmt;

/// A frame between two nodes, by their numbers, as it is sent.
#[derive(Drop)]
pub struct Frame {
    pub from: u16,
    pub to: u16,
    pub kind: FrameKind,
    pub bytes: Bytes,
}

/// The kinds of frames.
#[derive(Clone, Copy, Debug, PartialEq, Eq)]
pub enum FrameKind {
    Hello,
    Delta,
    Know,
    Forward,
    Got,
}

impl fmt::Display for FrameKind {
    ghost output = { λ kind. Some (frame_name kind) };

    fn fmt<W: fmt::Write>(&self, f: &mut fmt::Formatter<W>) -> fmt::Result {
        match self {
            FrameKind::Hello => write!(f, "hello"),
            FrameKind::Delta => write!(f, "delta"),
            FrameKind::Know => write!(f, "know"),
            FrameKind::Forward => write!(f, "forward"),
            FrameKind::Got => write!(f, "got"),
        }
    }
}

/// The kind of a frame that says this.
pub(crate) fn kind_of(body: &FrameBody) -> FrameKind
    ensures { result ≡ frame_kind body.now }
{
    match body {
        FrameBody::Hello(_) => FrameKind::Hello,
        FrameBody::Delta(_) => FrameKind::Delta,
        FrameBody::Know(_) => FrameKind::Know,
        FrameBody::Forward(_, _) => FrameKind::Forward,
        FrameBody::Got(_) => FrameKind::Got,
    }
}

/// A frame as it is sent. TooLarge where more would follow its length than may.
pub(crate) fn written_frame(alloc: Global, frame: &BridgeFrame) -> Result<Frame, LinkFault>
    ensures ok { IfOk result (λ written. written ≡ written_frame frame.now) }
    ensures small { OnOk result (length (content.bytes frame.now) ≤ limit) }
    ensures spelled { OnOk result (IsPlain frame.now.body → HasSpelling frame.now) }
    ensures large { IsErrOf result LinkFault.TooLarge → limit < length (content.bytes frame.now) }
{
    let mut bytes = Vec::new(alloc);
    frame.write(alloc, &mut bytes)?;
    Ok(Frame {
        from: frame.from,
        to: frame.to,
        kind: kind_of(&frame.body),
        bytes: Bytes::new(bytes),
    })
}

impl Frame {
    /// An equal frame.
    pub fn copy(&self, alloc: Global) -> Result<Frame, NoMemory>
        ensures { IfOk result (λ copy. copy ≡ self.now) }
    {
        Ok(Frame {
            from: self.from,
            to: self.to,
            kind: self.kind,
            bytes: self.bytes.copy(alloc)?,
        })
    }
}
