//! One allocation of a run is refused, and the run goes on: want of memory is a crash before the step at which it comes.

ghost use Rattle.std.specs.Prelude.{◌≡◌, ◌⊎◌, ◌↔◌, IsTrue};
ghost use Rattle.node_keeper.specs.declared.fault.KeeperFault.TheVariants as faults;

use crate::failure::{Failure, ensure};
use crate::notes::Notes;
use crate::recovery::recover;
use crate::run::Run;
use cluster_play::Step;
use node_keeper::KeeperFault;
use row_store::RowFault;
use std::alloc::Global;
use trial_refusals::{can_refuse, has_ended, refuse};

/// What comes of a step.
#[derive(Clone, Copy, PartialEq, Eq)]
pub enum Came {
    /// It is taken.
    Done,
    /// This node, or its rows, wanted memory.
    Refused { node: u16 },
    /// What plays the nodes wanted memory.
    Spends,
    /// It had wanted memory before.
    Spent,
}

/// Whether a node's fault is want of memory, its own or that of its rows.
pub fn wants_memory(fault: KeeperFault) -> bool
    ensures { IsTrue result ↔ ((fault ≡ faults.NoMemory) ⊎ (fault ≡ faults.Rows RowFault.NoMemory)) }
{
    match fault {
        KeeperFault::NoMemory | KeeperFault::Rows(RowFault::NoMemory) => true,
        _ => false,
    }
}

/// What the fault of a node comes to; any other one than want of memory is noted.
pub fn came_of(node: u16, fault: KeeperFault, told: &mut Notes) -> Came {
    if wants_memory(fault) {
        return Came::Refused { node };
    }
    let kind = match fault {
        KeeperFault::NumbersAtEnd => b'n',
        KeeperFault::Stopped => b'd',
        _ => b'r',
    };
    told.add(kind, node, 0, &[]);
    Came::Done
}

/// Nodes that are played step by step.
pub trait Played {
    /// The nodes of a run, which aren't opened yet.
    fn new(alloc: Global, run: &Run) -> Result<Self, Failure>;

    /// Opens those that aren't.
    fn open(&mut self) -> Came;

    /// Takes a step, and notes what is given out. Nothing else takes memory here.
    fn take(&mut self, step: &Step, told: &mut Notes) -> Came;

    /// Whether a node that has stopped answers so.
    fn has_stopped(&mut self, node: u16) -> bool;

    /// The node goes down.
    fn crash(&mut self, node: u16);

    /// Opens a node from its rows, and notes them and what it holds. How many rows can be seen; none where it isn't opened.
    fn reopen(&mut self, node: u16, held: &mut Notes) -> Option<usize>;
}

/// What a run tells.
#[derive(Drop)]
struct Tale {
    /// What is given out.
    told: Notes,
    /// The rows of the node that went down.
    left: Notes,
    /// What the nodes have at the end.
    ends: Notes,
}

impl Tale {
    fn new(alloc: Global) -> Result<Tale, Failure> {
        let told = Notes::new(alloc)?;
        let left = Notes::new(alloc)?;
        let ends = Notes::new(alloc)?;
        Ok(Tale { told, left, ends })
    }

    fn goes_as(&self, other: &Tale) -> bool {
        self.told.are_same(&other.told) && self.ends.are_same(&other.ends)
    }
}

/// Where a run stops, and why.
#[derive(Clone, Copy)]
struct Stop {
    /// The step; none while the nodes are opened.
    at: Option<usize>,
    came: Came,
}

/// Takes the steps from one to another, up to the first that isn't taken.
fn play<P: Played>(played: &mut P, run: &Run, from: usize, to: usize, told: &mut Notes) -> Stop {
    for at in from..to {
        let Some(step) = run.steps.get(at) else {
            break;
        };
        let came = played.take(step, told);
        if came != Came::Done {
            return Stop { at: Some(at), came };
        }
    }
    Stop {
        at: Some(to),
        came: Came::Done,
    }
}

/// Opens the nodes, and takes the steps up to one.
fn begin<P: Played>(played: &mut P, run: &Run, to: usize, told: &mut Notes) -> Stop {
    let came = played.open();
    if came != Came::Done {
        return Stop { at: None, came };
    }
    play(played, run, 0, to, told)
}

/// Takes the steps from one on, and notes what the nodes have then.
fn finish<P: Played>(
    played: &mut P,
    run: &Run,
    from: usize,
    tale: &mut Tale,
) -> Result<(), Failure> {
    let stop = play(played, run, from, run.steps.len(), &mut tale.told);
    ensure(stop.came == Came::Done, Failure::Onward)?;
    for node in 0..run.homes.nodes() {
        let count = played.reopen(node, &mut tale.ends);
        ensure(count.is_some(), Failure::Onward)?;
    }
    Ok(())
}

/// A node is down: it is opened from its rows, its clients come again, and the run goes on from a step.
fn go_on<P: Played>(
    alloc: Global,
    played: &mut P,
    run: &Run,
    (at, node): (usize, u16),
    tale: &mut Tale,
) -> Result<(), Failure> {
    let count = played.reopen(node, &mut tale.left);
    ensure(count.is_some(), Failure::Changed)?;
    recover(alloc, played, run, (at, node), &mut tale.told)?;
    finish(played, run, at, tale)
}

/// A whole run; where a place is given, a crash takes that node before that step.
fn run_whole<P: Played>(
    alloc: Global,
    played: &mut P,
    run: &Run,
    crash: Option<(usize, u16)>,
    tale: &mut Tale,
) -> Result<(), Failure> {
    let at = match crash {
        Some((at, _)) => at,
        None => run.steps.len(),
    };
    let stop = begin(played, run, at, &mut tale.told);
    ensure(stop.came == Came::Done, Failure::Unready)?;
    match crash {
        Some((at, node)) => {
            played.crash(node);
            go_on(alloc, played, run, (at, node), tale)
        }
        None => finish(played, run, at, tale),
    }
}

/// What a run without any refusal tells, with such a crash or without.
fn right<P: Played + Drop>(
    alloc: Global,
    run: &Run,
    crash: Option<(usize, u16)>,
) -> Result<Tale, Failure> {
    let mut tale = Tale::new(alloc)?;
    let mut played = P::new(alloc, run)?;
    let ran = run_whole(alloc, &mut played, run, crash, &mut tale);
    drop(played);
    match ran {
        Ok(()) => Ok(tale),
        Err(failure) => Err(failure),
    }
}

/// What runs without any refusal tell: one without a crash, and one with the last crash that was asked for.
#[derive(Drop)]
struct Rights {
    plain: Tale,
    crash: Option<(usize, u16)>,
    crashed: Tale,
}

/// Makes sure that the run with this crash is there.
fn provide<P: Played + Drop>(
    alloc: Global,
    run: &Run,
    crash: (usize, u16),
    rights: &mut Rights,
) -> Result<(), Failure> {
    if rights.crash != Some(crash) {
        let tale = right::<P>(alloc, run, Some(crash))?;
        rights.crashed = tale;
        rights.crash = Some(crash);
    }
    Ok(())
}

/// Whether every step is answered by Spent.
fn is_spent<P: Played>(played: &mut P, run: &Run, told: &mut Notes) -> bool {
    for step in run.steps.iter() {
        if played.take(step, told) != Came::Spent {
            return false;
        }
    }
    true
}

/// No node has stopped: the run is that without any refusal.
fn after_all<P: Played>(
    played: &mut P,
    run: &Run,
    tale: &mut Tale,
    rights: &Rights,
) -> Result<(), Failure> {
    finish(played, run, run.steps.len(), tale)?;
    ensure(tale.goes_as(&rights.plain), Failure::Other)
}

/// A node wasn't opened: its rows are none, or the mark alone, and it is opened from them.
fn after_opening<P: Played>(
    played: &mut P,
    run: &Run,
    node: u16,
    tale: &mut Tale,
    rights: &Rights,
) -> Result<(), Failure> {
    let count = played.reopen(node, &mut tale.left);
    ensure(count.is_some_and(|rows| rows <= 1), Failure::Changed)?;
    let stop = begin(played, run, 0, &mut tale.told);
    ensure(stop.came == Came::Done, Failure::Onward)?;
    finish(played, run, 0, tale)?;
    ensure(tale.goes_as(&rights.plain), Failure::Onward)
}

/// A node has stopped at a step.
fn after_step<P: Played + Drop>(
    alloc: Global,
    played: &mut P,
    run: &Run,
    crash: (usize, u16),
    tale: &mut Tale,
    rights: &mut Rights,
) -> Result<(), Failure> {
    ensure(played.has_stopped(crash.1), Failure::Unstopped)?;
    go_on(alloc, played, run, crash, tale)?;
    provide::<P>(alloc, run, crash, rights)?;
    ensure(tale.left.are_same(&rights.crashed.left), Failure::Changed)?;
    ensure(tale.goes_as(&rights.crashed), Failure::Onward)
}

/// What has to hold after a run that stopped so.
fn settle<P: Played + Drop>(
    alloc: Global,
    played: &mut P,
    run: &Run,
    stop: Stop,
    tale: &mut Tale,
    rights: &mut Rights,
) -> Result<(), Failure> {
    match (stop.came, stop.at) {
        (Came::Done, _) => after_all(played, run, tale, rights),
        (Came::Refused { node }, Some(at)) => {
            after_step(alloc, played, run, (at, node), tale, rights)
        }
        (Came::Refused { node }, None) => after_opening(played, run, node, tale, rights),
        (Came::Spends, _) => {
            let is_spent = is_spent(played, run, &mut tale.told);
            ensure(is_spent, Failure::Unstopped)
        }
        (Came::Spent, _) => Err(Failure::Other),
    }
}

/// Plays the run while the allocation of this number is refused. Whether it makes fewer.
fn try_run<P: Played + Drop>(
    alloc: Global,
    played: &mut P,
    run: &Run,
    number: usize,
    tale: &mut Tale,
    rights: &mut Rights,
) -> Result<bool, Failure> {
    refuse(alloc, number);
    let stop = begin(played, run, run.steps.len(), &mut tale.told);
    let ended = has_ended(alloc);
    ensure(!ended || stop.came == Came::Done, Failure::Unrefused)?;
    settle(alloc, played, run, stop, tale, rights)?;
    Ok(ended)
}

fn attempt<P: Played + Drop>(
    alloc: Global,
    run: &Run,
    number: usize,
    rights: &mut Rights,
) -> Result<bool, Failure> {
    let mut tale = Tale::new(alloc)?;
    let mut played = P::new(alloc, run)?;
    let tried = try_run(alloc, &mut played, run, number, &mut tale, rights);
    drop(played);
    tried
}

/// More allocations than a run makes.
const MOST: usize = 1_000_000;

/// How many allocations of a run were refused; where that can't be asked for, it is played once.
pub fn sweep<P: Played + Drop>(alloc: Global, run: &Run) -> Result<usize, Failure> {
    let mut rights = Rights {
        plain: right::<P>(alloc, run, None)?,
        crash: None,
        crashed: Tale::new(alloc)?,
    };
    let most: usize = if can_refuse(alloc) { MOST } else { 2 };
    for number in 1..most {
        if attempt::<P>(alloc, run, number, &mut rights)? {
            return Ok(number - 1);
        }
    }
    Ok(0)
}
