//! Scripts that are run.

use crate::faults::of_step;
use crate::homes::tables_of;
use crate::player::{Plain, Player};
use crate::steps::Scene;
use broker_script::{Command, parse_script};
use cli_stops::{RunFault, Stop};
use cluster_play::Cluster;
use home_table::HomeTable;
use std::alloc::{AllocError, Global};
use std::fmt::Display;
use std::io::Write;

/// Runs a script: the lines of its steps go to `out`, each step's before the next one runs, and a
/// fault to `err`. Answers the exit status.
pub fn run_text<O: Write, E: Write>(alloc: Global, script: &[u8], out: &mut O, err: &mut E) -> u8 {
    match run_script(alloc, script, out) {
        Ok(()) => 0,
        Err(stop) => stop.tell(out, err),
    }
}

/// Runs a script in memory.
pub fn run_script<O: Write>(alloc: Global, script: &[u8], out: &mut O) -> Result<(), Stop> {
    let Start {
        commands,
        nodes,
        cluster,
    } = begin(alloc, script)?;
    let mut player = Plain::new(cluster);
    run_steps(alloc, commands, nodes, &mut player, out)
}

/// A script's lines, the number of its nodes, and the cluster before the first step.
#[derive(Drop)]
pub struct Start {
    pub commands: Vec<Command>,
    pub nodes: u16,
    pub cluster: Cluster,
}

/// What a script begins with: its lines, read whole, and a cluster of its nodes.
pub fn begin(alloc: Global, script: &[u8]) -> Result<Start, Stop> {
    let commands = parse_script(alloc, script)?;
    let nodes = match commands.first() {
        Some(Command::Nodes { nodes }) => *nodes,
        _ => 0,
    };
    let tables = tables_of(alloc, nodes, commands.as_slice())?;
    let cluster = cluster_of(alloc, tables)?;
    Ok(Start {
        commands,
        nodes,
        cluster,
    })
}

/// A cluster with these tables.
fn cluster_of(alloc: Global, tables: Vec<HomeTable>) -> Result<Cluster, RunFault> {
    match Cluster::new(alloc, tables) {
        Ok(cluster) => Ok(cluster),
        Err(fault) => Err(of_step(fault)),
    }
}

/// Plays the step of each line, each step's lines written before the next one, and tells what the nodes hold at the end.
pub fn run_steps<P: Player, O: Write>(
    alloc: Global,
    commands: Vec<Command>,
    nodes: u16,
    player: &mut P,
    out: &mut O,
) -> Result<(), Stop> {
    let mut scene = Scene::new(alloc, nodes);
    for command in commands {
        if let Some(step) = scene.step_of(alloc, command)? {
            let trace = player.step(step)?;
            write_lines(alloc, trace.lines.as_slice(), out)?;
        }
    }
    write_end(alloc, player.cluster(), nodes, out)
}

/// Writes one line for each of these, all at once.
fn write_lines<T: Display, O: Write>(alloc: Global, lines: &[T], out: &mut O) -> Result<(), Stop> {
    let mut text = String::new(alloc);
    for line in lines {
        writeln!(&mut text, "{line}")?;
    }
    write_text(&text, out)
}

fn write_text<O: Write>(text: &String, out: &mut O) -> Result<(), Stop> {
    match out.write_all(text.as_bytes()) {
        Ok(()) => Ok(()),
        Err(_) => Err(Stop::Run(RunFault::Output)),
    }
}

/// What a node holds.
fn push_node(text: &mut String, cluster: &Cluster, node: u16) -> Result<(), AllocError> {
    match cluster.holdings(node) {
        Some((subscriptions, retained)) => writeln!(
            text,
            "node {node} subscriptions {subscriptions} retained {retained}"
        ),
        None => writeln!(text, "node {node} down"),
    }
}

/// Whether two nodes have taken the same; nothing where one of them is down.
fn push_pair(text: &mut String, cluster: &Cluster, i: u16, j: u16) -> Result<(), AllocError> {
    match cluster.same_taken(i, j) {
        Some(true) => writeln!(text, "taken {i} {j} equal"),
        Some(false) => writeln!(text, "taken {i} {j} differ"),
        None => Ok(()),
    }
}

/// What each node holds, and which of them have taken the same.
fn end_text(alloc: Global, cluster: &Cluster, nodes: u16) -> Result<String, AllocError> {
    let mut text = String::new(alloc);
    for node in 0..nodes {
        push_node(&mut text, cluster, node)?;
    }
    for i in 0..nodes {
        for j in i + 1..nodes {
            push_pair(&mut text, cluster, i, j)?;
        }
    }
    Ok(text)
}

fn write_end<O: Write>(
    alloc: Global,
    cluster: &Cluster,
    nodes: u16,
    out: &mut O,
) -> Result<(), Stop> {
    let text = end_text(alloc, cluster, nodes)?;
    write_text(&text, out)
}
