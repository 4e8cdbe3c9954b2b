//! The rows refuse the first call, then in another run the second, and so on, until a run ends with none refused.

use crate::trial::Trial;
use std::alloc::Global;
use std::process::Abort;

/// How many steps the client's path has.
const STEPS: usize = 6;

/// The steps before this one, which a node that was opened again takes anew: it starts, and the client connects.
const AGAIN: usize = 2;

/// Takes one step; where the rows refuse it, the node is opened again, and takes the step after those that come anew. Whether
/// they have refused it.
fn take(rt: &impl Abort, trial: &mut Trial, step: usize) -> bool {
    let held = trial.holdings();
    if trial.step(rt, step) {
        return false;
    }
    trial.reopen(rt, held);
    for earlier in 0..step.min(AGAIN) {
        assert!(rt; trial.step(rt, earlier));
    }
    assert!(rt; trial.step(rt, step));
    true
}

/// How often the rows refuse a step of a whole path.
fn refusals(rt: &impl Abort, trial: &mut Trial) -> u64 {
    let mut refusals: u64 = 0;
    for step in 0..STEPS {
        if take(rt, trial, step) {
            refusals = refusals.saturating_add(1);
        }
    }
    assert!(rt; trial.holdings() == (1, 1));
    refusals
}

/// A whole path, whose rows refuse the call of this number.
fn run(rt: &impl Abort, alloc: Global, refused: u64) -> u64 {
    let mut trial = Trial::open(rt, alloc, refused);
    let refusals = refusals(rt, &mut trial);
    drop(trial);
    refusals
}

#[test]
fn a_refused_call_stops_the_node_until_it_is_opened_again(rt: HostRuntime) {
    // An opening without rows loads, puts the mark and loads; four of the client's steps put their rows once, and the one that
    // changes nothing that lasts asks for nothing.
    for (refused, refusals) in (1..).zip([0, 0, 0, 1, 1, 1, 1, 0, 0]) {
        assert_eq!(rt; run(&rt, rt.alloc(), refused), refusals, "call {refused}");
    }
}
