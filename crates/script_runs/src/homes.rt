//! The table of homes that a script stands for.

use broker_script::Command;
use cli_stops::{RunFault, Stop};
use home_table::{HomeTable, nodes_text};
use std::alloc::Global;

/// A table for each of so many nodes, all with the homes of a script.
pub fn tables_of(alloc: Global, nodes: u16, commands: &[Command]) -> Result<Vec<HomeTable>, Stop> {
    let text = table_text(alloc, nodes, commands)?;
    let table = HomeTable::parse(alloc, text.as_str()).map_err(RunFault::from)?;
    let mut tables = Vec::new(alloc);
    for _ in 0..nodes {
        tables.push(table.copy()?)?;
    }
    Ok(tables)
}

/// The home of the client identifiers that begin with a prefix.
#[derive(Drop)]
pub struct Home {
    pub prefix: String,
    pub node: u16,
}

/// A script's table with another version, in which a home takes the place of that of the same prefix, or is one more.
pub fn moved_table(
    alloc: Global,
    nodes: u16,
    homes: &[Home],
    version: u32,
    moved: &Home,
) -> Result<HomeTable, Stop> {
    let rows = nodes_text(alloc, nodes)?;
    let mut text = format!(in alloc; "version = {version}\n{rows}")?;
    for home in homes {
        if home.prefix != moved.prefix {
            push_home(alloc, &mut text, home.prefix.as_str(), home.node)?;
        }
    }
    push_home(alloc, &mut text, moved.prefix.as_str(), moved.node)?;
    Ok(HomeTable::parse(alloc, text.as_str()).map_err(RunFault::from)?)
}

/// The rows of the table: nodes `n0` and so on, each with ports of its own, and the homes.
fn table_text(alloc: Global, nodes: u16, commands: &[Command]) -> Result<String, Stop> {
    let mut text = nodes_text(alloc, nodes)?;
    for command in commands {
        if let Command::Home { prefix, node } = command {
            push_home(alloc, &mut text, prefix.as_str(), *node)?;
        }
    }
    Ok(text)
}

/// Adds the row of a home.
fn push_home(alloc: Global, text: &mut String, prefix: &str, node: u16) -> Result<(), Stop> {
    let prefix = escaped(alloc, prefix)?;
    writeln!(text, "[[home]]\nprefix = \"{prefix}\"\nnode = \"n{node}\"")?;
    Ok(())
}

/// A text as it stands between the quotes of TOML.
fn escaped(alloc: Global, text: &str) -> Result<String, Stop> {
    let mut out = String::new(alloc);
    for c in text.chars() {
        if c == '"' || c == '\\' {
            out.push('\\')?;
        }
        out.push(c)?;
    }
    Ok(out)
}
