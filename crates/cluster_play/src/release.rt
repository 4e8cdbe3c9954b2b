//! What a step gives out: its lines, and its frames under their numbers.

ghost use Rattle.std.specs.Prelude.{◌≡◌, ◌≢◌, ◌++◌, ◌∷◌, ◌<◌, [], length, IfErr, OnOk, vec_len, vec_capacity};
ghost use Rattle.node_keeper.specs.declared.fault.KeeperFault.TheVariants.{Stopped};
ghost use Rattle.cluster_play.specs.declared.line.Line.TheVariants.{Down, Fault};
ghost use Rattle.cluster_play.specs.Runs.{client_line, client_lines, frame_lines};
ghost use Rattle.cluster_play.specs.Worlds.{frame_of_output, frames_in};
ghost use Rattle.cluster_play.specs.declared.fault.PlayFault.TheVariants as faults;

use crate::fault::PlayFault;
use crate::line::Line;
use broker_node::{Frame, Output};
use node_keeper::KeeperFault;
use std::alloc::Global;

/// Adds the line of a node that stopped now, or that is down, where there is room for it.
pub(crate) fn tell(lines: &mut Vec<Line>, node: u16, fault: KeeperFault)
    requires { vec_len lines.old < vec_capacity lines.old }
    ensures down { fault ≡ Stopped → lines.new.items ≡ lines.old.items ++ Down node ∷ [] }
    ensures fault { fault ≢ Stopped → lines.new.items ≡ lines.old.items ++ Fault node fault ∷ [] }
{
    let line = match fault {
        KeeperFault::Stopped => Line::Down { node },
        other => Line::Fault { node, fault: other },
    };
    lines.push_reserved(line);
}

/// Adds a line.
fn note(lines: &mut Vec<Line>, line: Line) -> Result<(), PlayFault>
    ensures ok { OnOk result (lines.new.items ≡ lines.old.items ++ line ∷ []) }
    ensures err { IfErr result (λ f. f ≡ faults.NoMemory) }
{
    lines.push(line)?;
    Ok(())
}

/// Takes an output: its line, or its frame.
fn take_output(
    node: u16,
    output: Output,
    lines: &mut Vec<Line>,
    frames: &mut Vec<Frame>,
) -> Result<(), PlayFault>
    ensures lines { OnOk result (lines.new.items ≡ lines.old.items ++ client_line node output) }
    ensures frames { OnOk result (frames.new.items ≡ frames.old.items ++ frame_of_output output) }
    ensures err { IfErr result (λ f. f ≡ faults.NoMemory) }
{
    match output {
        Output::Send { connection, bytes } => note(
            lines,
            Line::Sent {
                node,
                connection,
                bytes,
            },
        ),
        Output::Close { connection } => note(lines, Line::Closed { node, connection }),
        Output::Frame { frame } => {
            frames.push(frame)?;
            Ok(())
        }
    }
}

/// The lines of what goes to clients, and the frames, in order.
fn take_outputs(
    node: u16,
    outputs: Vec<Output>,
    lines: &mut Vec<Line>,
    frames: &mut Vec<Frame>,
) -> Result<(), PlayFault>
    ensures lines { OnOk result (lines.new.items ≡ lines.old.items ++ client_lines node outputs.items) }
    ensures frames { OnOk result (frames.new.items ≡ frames.old.items ++ frames_in outputs.items) }
    ensures err { IfErr result (λ f. f ≡ faults.NoMemory) }
{
    for output in outputs {
        take_output(node, output, lines, frames)?;
    }
    Ok(())
}

/// Gives a frame its number.
fn number_frame(
    frames: &mut Vec<Frame>,
    frame: Frame,
    lines: &mut Vec<Line>,
) -> Result<(), PlayFault>
    ensures lines { OnOk result (lines.new.items ≡ lines.old.items ++ frame_lines (length frames.old.items) (frame ∷ [])) }
    ensures frames { OnOk result (frames.new.items ≡ frames.old.items ++ frame ∷ []) }
    ensures err { IfErr result (λ f. f ≡ faults.NoMemory) }
{
    let line = Line::Frame {
        number: frames.len() as u64 + 1,
        from: frame.from,
        to: frame.to,
        kind: frame.kind,
    };
    frames.push(frame)?;
    note(lines, line)
}

/// Gives frames their numbers, in order.
fn number_frames(
    frames: &mut Vec<Frame>,
    new: Vec<Frame>,
    lines: &mut Vec<Line>,
) -> Result<(), PlayFault>
    ensures lines { OnOk result (lines.new.items ≡ lines.old.items ++ frame_lines (length frames.old.items) new.items) }
    ensures frames { OnOk result (frames.new.items ≡ frames.old.items ++ new.items) }
    ensures err { IfErr result (λ f. f ≡ faults.NoMemory) }
{
    for frame in new {
        number_frame(frames, frame, lines)?;
    }
    Ok(())
}

/// Releases the outputs of a step: what goes to clients first, and then the frames.
pub(crate) fn release(
    alloc: Global,
    node: u16,
    outputs: Vec<Output>,
    frames: &mut Vec<Frame>,
    lines: &mut Vec<Line>,
) -> Result<(), PlayFault>
    ensures lines { OnOk result (lines.new.items
        ≡ lines.old.items ++ (client_lines node outputs.items ++ frame_lines (length frames.old.items) (frames_in outputs.items))) }
    ensures frames { OnOk result (frames.new.items ≡ frames.old.items ++ frames_in outputs.items) }
    ensures err { IfErr result (λ f. f ≡ faults.NoMemory) }
{
    let mut new = Vec::new(alloc);
    take_outputs(node, outputs, lines, &mut new)?;
    number_frames(frames, new, lines)
}
