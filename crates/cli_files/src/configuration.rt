//! The configuration that a node is started with.

ghost use Rattle.std.specs.Prelude.{◌≡◌, ◌<◌, length, map, Ok, IfOk, IfErr};
ghost use Rattle.home_table.specs.Configurations.{configuration};
ghost use Rattle.home_table.specs.Table.{reading};
ghost use Rattle.cli_stops.specs.declared.stop.Stop.TheVariants.{Configuration};
ghost use Rattle.cli_files.specs.Flaws.{IsFlaw, IsRefused};
ghost use Rattle.cli_files.specs.Listed.{AreHomes, placed};
ghost use Rattle.cli_stops.specs.Faults.{table_fault};

use crate::file::read_file;
use crate::flaw::flaw_of;
use crate::homes::{Home, listed};
use broker_script::LONGEST_FILE;
use cli_stops::{Answer, Cause, Ending, Found, Stop, answer_of, table_fault};
use home_table::{HomeTable, TableFault, configure};
use std::alloc::Global;
use std::str;

/// The end of a program whose configuration can't be had.
fn refused(alloc: Global, path: &str, fault: TableFault, found: Found) -> Ending
    ensures stop { result.stop ≡ Configuration fault }
{
    Ending {
        stop: Stop::Configuration(fault),
        cause: Cause::reading(alloc, path, found),
    }
}

/// The configuration that a text is, with the number of the node of a name, or its fault and what is wrong with it.
fn configured(
    alloc: Global,
    text: &str,
    node: &str,
) -> Result<(HomeTable, u16), (TableFault, Found)>
    ensures configured { IfOk result (λ place. configuration text.now node.now ≡ Ok place) }
    ensures below { IfOk result (λ place. place.1 < length place.0.nodes) }
    ensures refused { IfErr result (λ flaw. IsRefused text.now node.now flaw.0) }
    ensures flaw { IfErr result (λ flaw. IsFlaw flaw.0 text.now node.now flaw.1) }
{
    match configure(alloc, text, node) {
        Ok(place) => Ok(place),
        Err(fault) => {
            let found = flaw_of(alloc, text, node, fault);
            Err((fault, found))
        }
    }
}

/// The bytes of the file of a configuration; of one that is too long only the first ones, and one too many.
pub fn configuration_bytes(rt: &HostRuntime, path: &str) -> Result<Vec<u8>, Answer> {
    match read_file(rt, path, LONGEST_FILE) {
        Ok(bytes) => Ok(bytes),
        Err(error) => Err(answer_of(&error)),
    }
}

/// The text that these bytes are, or why they are none of a configuration.
fn text_in(bytes: &[u8]) -> Result<&str, Found>
    ensures { IfOk result (λ text. text.now ≡ bytes.now) }
{
    if bytes.len() > LONGEST_FILE {
        return Err(Found::TooLong(LONGEST_FILE as u64));
    }
    match str::from_utf8(bytes) {
        Ok(text) => Ok(text),
        Err(_) => Err(Found::NotText),
    }
}

/// The table of homes of a configuration that these bytes are, and the number of the named node, or its fault and what is wrong with it.
pub fn configuration_in(
    alloc: Global,
    bytes: &[u8],
    node: &str,
) -> Result<(HomeTable, u16), (TableFault, Found)>
    ensures configured { IfOk result (λ place. configuration bytes.now node.now ≡ Ok place) }
    ensures below { IfOk result (λ place. place.1 < length place.0.nodes) }
{
    match text_in(bytes) {
        Ok(text) => configured(alloc, text, node),
        Err(found) => Err((TableFault::Syntax, found)),
    }
}

/// The table of homes of the configuration that these bytes of a file are, and the number of the named node.
pub fn configuration_of(
    alloc: Global,
    path: &str,
    bytes: &[u8],
    node: &str,
) -> Result<(HomeTable, u16), Ending>
    ensures configured { IfOk result (λ place. configuration bytes.now node.now ≡ Ok place) }
    ensures below { IfOk result (λ place. place.1 < length place.0.nodes) }
{
    match configuration_in(alloc, bytes, node) {
        Ok(place) => Ok(place),
        Err((fault, found)) => Err(refused(alloc, path, fault, found)),
    }
}

/// The table of homes that these bytes of a file are, with its homes in the order of the file.
pub fn homes_of(alloc: Global, path: &str, bytes: &[u8]) -> Result<(HomeTable, Vec<Home>), Ending>
    ensures table { IfOk result (λ l. reading bytes.now ≡ Ok l.0) }
    ensures homes { IfOk result (λ l. AreHomes l.0 (map placed l.1.items)) }
{
    let text = match text_in(bytes) {
        Ok(text) => text,
        Err(found) => return Err(refused(alloc, path, TableFault::Syntax, found)),
    };
    match listed(alloc, text) {
        Ok(listed) => Ok(listed),
        Err(fault) => {
            let found = flaw_of(alloc, text, "", fault);
            Err(refused(alloc, path, fault, found))
        }
    }
}

/// The end of a program that can't read the file of its configuration.
pub fn unread(alloc: Global, path: &str, answer: Answer) -> Ending
    ensures stop { result.stop ≡ Configuration (table_fault answer) }
{
    refused(alloc, path, table_fault(answer), Found::Answered(answer))
}

/// The table of homes of the configuration in a file, and the number of the named node.
pub fn read_configuration(
    rt: &HostRuntime,
    path: &str,
    node: &str,
) -> Result<(HomeTable, u16), Ending>
    ensures { IfOk result (λ place. place.1 < length place.0.nodes) }
{
    match configuration_bytes(rt, path) {
        Ok(bytes) => configuration_of(rt.alloc(), path, &bytes, node),
        Err(answer) => Err(unread(rt.alloc(), path, answer)),
    }
}
