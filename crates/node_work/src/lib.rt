//! What a node of the cluster holds, and each small thing that it does in a step.
#![tactic(auto)]

mod counts;
mod fault;
mod frame;
mod granted;
mod held;
mod outcome;
mod packets;
mod work;

pub use counts::{Counts, Missed};
pub use fault::NodeFault;
pub use frame::{Frame, FrameKind};
pub use granted::{Asked, Granted};
pub use held::Held;
pub use held::connections::Came;
pub use outcome::{Outcome, Output};
pub use packets::{disconnect, refused};
pub use work::Work;
