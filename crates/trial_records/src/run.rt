//! Scripts as runs.

use crate::failure::Failure;
use broker_script::Command;
use cli_stops::RunFault;
use cluster_play::{Cluster, Step, Trace};
use home_table::{HomeTable, nodes_text};
use script_runs::{Player, Start, begin, run_steps};
use std::alloc::{AllocError, Global};

/// What is played: the homes of its nodes, and its steps.
#[derive(Drop)]
pub struct Run {
    pub homes: HomeTable,
    pub steps: Vec<Step>,
    /// Its nodes go on after want of memory, as none may.
    pub goes_on: bool,
}

/// Steps that are kept in place of being played.
#[derive(Drop)]
struct Kept {
    alloc: Global,
    steps: Vec<Step>,
    cluster: Cluster,
}

impl Player for Kept {
    fn step(&mut self, step: Step) -> Result<Trace, RunFault> {
        match self.steps.push(step) {
            Ok(()) => Ok(Trace {
                lines: Vec::new(self.alloc),
            }),
            Err(_) => Err(RunFault::NoMemory),
        }
    }

    fn cluster(&self) -> &Cluster {
        &self.cluster
    }
}

/// The rows of the table of homes of a script with so many nodes.
fn table_text(alloc: Global, nodes: u16, commands: &[Command]) -> Result<String, AllocError> {
    let mut text = nodes_text(alloc, nodes)?;
    for command in commands {
        if let Command::Home { prefix, node } = command {
            writeln!(
                &mut text,
                "[[home]]\nprefix = \"{prefix}\"\nnode = \"n{node}\""
            )?;
        }
    }
    Ok(text)
}

fn table(alloc: Global, start: &Start) -> Option<HomeTable> {
    let text = table_text(alloc, start.nodes, &start.commands).ok()?;
    HomeTable::parse(alloc, text.as_str()).ok()
}

fn steps(alloc: Global, start: Start) -> Option<Vec<Step>> {
    let Start {
        commands,
        nodes,
        cluster,
    } = start;
    let mut kept = Kept {
        alloc,
        steps: Vec::new(alloc),
        cluster,
    };
    let mut out: Vec<u8> = Vec::new(alloc);
    let ran = run_steps(alloc, commands, nodes, &mut kept, &mut out);
    let Kept { steps, .. } = kept;
    match ran {
        Ok(()) => Some(steps),
        Err(_) => None,
    }
}

/// The run of a script.
pub fn read_run(alloc: Global, script: &[u8], goes_on: bool) -> Result<Run, Failure> {
    let Ok(start) = begin(alloc, script) else {
        return Err(Failure::Unready);
    };
    let table = table(alloc, &start);
    let steps = steps(alloc, start);
    match (table, steps) {
        (Some(homes), Some(steps)) => Ok(Run {
            homes,
            steps,
            goes_on,
        }),
        _ => Err(Failure::Unready),
    }
}
