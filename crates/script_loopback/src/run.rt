//! Scripts that are run through sockets.

use crate::loopback::Loopback;
use broker_sockets::Sockets;
use cli_stops::Stop;
use script_runs::{Start, begin, run_steps};
use std::alloc::Global;
use std::io::Write;

/// Runs a script as `run_text` does, but clients' bytes and frames pass through sockets of this machine: the same is written,
/// unless a socket fails or bytes don't come.
pub fn loop_text<S: Sockets, O: Write, E: Write>(
    alloc: Global,
    sockets: &mut S,
    script: &[u8],
    out: &mut O,
    err: &mut E,
) -> u8 {
    match loop_script(alloc, sockets, script, out) {
        Ok(()) => 0,
        Err(stop) => stop.tell(out, err),
    }
}

/// Runs a script with clients' bytes and frames through sockets.
pub fn loop_script<S: Sockets, O: Write>(
    alloc: Global,
    sockets: &mut S,
    script: &[u8],
    out: &mut O,
) -> Result<(), Stop> {
    let Start {
        commands,
        nodes,
        cluster,
    } = begin(alloc, script)?;
    let mut player = Loopback::new(alloc, cluster, nodes, sockets)?;
    run_steps(alloc, commands, nodes, &mut player, out)
}
