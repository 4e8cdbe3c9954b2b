//! Calls, each of whose allocations is refused in turn: calls that read and write bytes, parse texts and look up topics; and calls of sets
//! of dots, replicated state, rows and sessions. `examples/refuse.c` refuses them; where nothing does, each call is made once.
#![tactic(auto)]

mod calls;
mod contexts;
mod packets;
mod replicas;
mod row_calls;
mod sessions;
mod spelled;
mod spellings;
mod state_calls;
mod texts;
mod tries;

use crate::calls::CALLS;
use crate::state_calls::CALLS as STATE_CALLS;
use std::io;
use std::process::ExitCode;
use trial_refusals::{Call, sweep};

/// Tells of a call. Whether it is as it should be.
fn tell_of<C: Call>(rt: &HostRuntime, name: &str, call: &C) -> io::Result<bool> {
    match sweep(rt.alloc(), call) {
        Ok(refused) => {
            println!(rt; "call {name}: {refused} refused")?;
            Ok(true)
        }
        Err(failure) => {
            let text = failure.text();
            println!(rt; "call {name}: FAILED: {text}")?;
            Ok(false)
        }
    }
}

fn main(rt: HostRuntime) -> io::Result<ExitCode> {
    let mut are_right = true;
    for (name, call) in CALLS {
        are_right = tell_of(&rt, name, &call)? && are_right;
    }
    for (name, call) in STATE_CALLS {
        are_right = tell_of(&rt, name, &call)? && are_right;
    }
    if are_right {
        Ok(ExitCode::SUCCESS)
    } else {
        Ok(ExitCode::FAILURE)
    }
}
