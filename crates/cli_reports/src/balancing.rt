//! What HAProxy needs for a table of homes, printed to whoever asks.

use crate::balancer::balancer_text;
use crate::checking::print_text;
use cli_files::{configuration_bytes, homes_of, unread};
use cli_stops::{Ending, RunFault, Stop};
use std::io::Write;

/// Prints a backend of HAProxy that sends each client to its home, by the table of homes of a configuration.
pub fn balance<W: Write>(rt: &HostRuntime, configuration: &str, out: &mut W) -> Result<(), Ending> {
    let bytes = match configuration_bytes(rt, configuration) {
        Ok(bytes) => bytes,
        Err(answer) => return Err(unread(rt.alloc(), configuration, answer)),
    };
    let (homes, listed) = homes_of(rt.alloc(), configuration, &bytes)?;
    match balancer_text(rt.alloc(), &homes, &listed) {
        Ok(text) => print_text(&text, out),
        Err(_) => Err(Ending::from(Stop::Run(RunFault::NoMemory))),
    }
}
