//! What a program takes of its machine.

use status_figures::Usage;

/// Tells what a program takes of its machine.
pub trait Machine {
    /// What it takes now, where that can be told.
    fn usage(&mut self) -> Usage;
}

/// Nobody can tell.
#[derive(Drop)]
pub struct NoMachine;

impl Machine for NoMachine {
    fn usage(&mut self) -> Usage {
        Usage::unknown()
    }
}
