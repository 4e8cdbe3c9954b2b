//! Scripts that are run in memory, and what running them over anything else takes: the steps of a script, one after another, over
//! whatever plays a step.
#![tactic(auto)]

mod faults;
mod homes;
mod player;
mod run;
mod steps;

pub use faults::of_step;
pub use player::Player;
pub use run::{Start, begin, run_script, run_steps, run_text};
