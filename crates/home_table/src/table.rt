//! Home tables.

ghost use Rattle.std.specs.Prelude.{ℕ, ◌≡◌, ◌≤◌, ◌<◌, ◌⊎◌, ◌%◌, ◌||◌, map, length, sum, is_some, true, false, option_map, Some, None, Ok, Err, IfOk, IfErr, slice_get};
ghost use Rattle.std.specs.List.{list_any};
ghost use Rattle.std.specs.Str.{bytes_eq};
ghost use Rattle.std.specs.FinMap as finite;
ghost use Rattle.toml.specs.Errors.{IsBlank};
ghost use Rattle.home_table.specs.Table.{IsTable, stands_twice, number_of, is_unknown, home_of_row, table_of, reading};
ghost use Rattle.home_table.specs.Homes.{IsHome};

use crate::automatic::automatic_node;
use crate::fault::TableFault;
use crate::prefixes::Prefixes;
use crate::rows::{HomeEntry, NodeEntry, read_document, read_rows, read_version};
use mqtt_fields::{NoMemory, Text};
use std::alloc::Global;
use std::marker::Model;
use std::rc::Rc;

/// What the holders of a table share.
#[derive(Drop)]
struct Shared {
    version: u32,
    nodes: Vec<NodeEntry>,
    prefixes: Prefixes,
}

/// The nodes of a cluster in their order, numbered from 0, and the homes of the identifiers that begin with a prefix.
pub struct HomeTable {
    shared: Rc<Shared, Global>,
}

impl Drop for HomeTable {
    fn drop(self) {
        let HomeTable { shared: _shared } = self;
    }
}

impl Model for HomeTable {
    ghost use Rattle.home_table.specs.Table.{Table, IsTable, coded_table};

    ghost Value = { Table };

    ghost coded = { coded_table };

    ghost view = { λ t. record { version = t.shared.value.version; nodes = t.shared.value.nodes.items; homes = t.shared.value.prefixes } };

    ghost invariant = { λ t. IsTable (record { version = t.shared.value.version; nodes = t.shared.value.nodes.items; homes = t.shared.value.prefixes }) };
}

/// Whether a node has the name.
fn has_name(nodes: &[NodeEntry], name: &str) -> bool
    ensures { result ≡ list_any (λ n. bytes_eq n.name name.now) nodes.now }
{
    nodes.iter().any(|n| n.name.as_str() == name)
}

/// Whether two nodes have one name.
fn names_twice(nodes: &[NodeEntry]) -> bool
    ensures { result ≡ stands_twice (map (λ n. n.name) nodes.now) }
{
    for (i, node) in nodes.iter().enumerate() {
        if has_name(&nodes[..i], node.name.as_str()) {
            return true;
        }
    }
    false
}

/// The place of the first node of a name.
fn place_of(nodes: &[NodeEntry], name: &str) -> Option<usize>
    ensures { result ≡ number_of nodes.now name.now }
{
    nodes.iter().position(|n| n.name.as_str() == name)
}

/// The number of the node of a name.
fn number_of(nodes: &[NodeEntry], name: &str) -> Option<u16>
    requires { length nodes.now ≤ 64 }
    ensures { result ≡ number_of nodes.now name.now }
{
    let place = place_of(nodes, name)?;
    Some(place as u16)
}

/// Whether a home's node isn't there.
fn has_unknown(nodes: &[NodeEntry], homes: &[HomeEntry]) -> bool
    requires { length nodes.now ≤ 64 }
    ensures { result ≡ list_any (is_unknown nodes.now) homes.now }
{
    homes
        .iter()
        .any(|h| number_of(nodes, h.node.as_str()).is_none())
}

/// The prefixes of the homes, each at its node.
fn place_homes(
    alloc: Global,
    nodes: &[NodeEntry],
    homes: &[HomeEntry],
) -> Result<Prefixes, TableFault>
    requires { length nodes.now ≤ 64 }
    ensures placed { IfOk result (λ p. p ≡ finite.from_entries (map (home_of_row nodes.now) homes.now)) }
    ensures once { IfOk result (λ _. stands_twice (map (λ h. h.prefix) homes.now) ≡ false) }
    ensures fault { IfErr result (λ e. (e ≡ TableFault.NoMemory)
        ⊎ ((e ≡ TableFault.TwiceNamed) × (stands_twice (map (λ h. h.prefix) homes.now) ≡ true))) }
{
    let mut prefixes = Prefixes::new(alloc);
    for home in homes {
        let prefix = home.prefix.as_str().as_bytes();
        if prefixes.get(prefix).is_some() {
            return Err(TableFault::TwiceNamed);
        }
        let node = number_of(nodes, home.node.as_str()).unwrap_or(0);
        prefixes.add(prefix, node)?;
    }
    Ok(prefixes)
}

/// The sum of the bytes, modulo the number of nodes.
fn sum_place(identifier: &[u8], nodes: u16) -> u16
    requires { 0 < nodes }
    ensures { result ≡ sum identifier.now % nodes }
{
    let mut total = 0u32;
    for b in identifier {
        total = (total + u32::from(*b)) % u32::from(nodes);
    }
    total as u16
}

impl HomeTable {
    /// The table of some rows, or their first fault.
    fn of(
        alloc: Global,
        version: u32,
        nodes: Vec<NodeEntry>,
        homes: &[HomeEntry],
    ) -> Result<HomeTable, TableFault>
        requires { length nodes.items ≤ 64 }
        ensures table { IfOk result (λ t. table_of version nodes.items homes.now ≡ Ok t) }
        ensures fault { IfErr result (λ e. (e ≡ TableFault.NoMemory) ⊎ (table_of version nodes.items homes.now ≡ Err e)) }
        ensures none { length nodes.items ≡ 0 → result ≡ Err TableFault.NoNodes }
    {
        if nodes.is_empty() {
            return Err(TableFault::NoNodes);
        }
        if names_twice(nodes.as_slice()) {
            return Err(TableFault::TwiceNamed);
        }
        let prefixes = place_homes(alloc, nodes.as_slice(), homes)?;
        if has_unknown(nodes.as_slice(), homes) {
            return Err(TableFault::UnknownNode);
        }
        let shared = Rc::new(
            alloc,
            Shared {
                version,
                nodes,
                prefixes,
            },
        )?;
        Ok(HomeTable { shared })
    }

    /// The table that a text is in TOML: an array `node` of tables with `name`, `address` and `bridge`, and, which may both be
    /// missing, an array `home` of tables with `prefix` and `node` and a `version`, which is then 0. A fault is the first of the text, in the order
    /// of `TableFault`; `NoMemory` may stand for a later one. A text of white space and comments alone has no nodes, which takes no memory.
    pub fn parse(alloc: Global, text: &str) -> Result<HomeTable, TableFault>
        ensures table { IfOk result (λ t. reading text.now ≡ Ok t) }
        ensures fault { IfErr result (λ e. (e ≡ TableFault.NoMemory) ⊎ (reading text.now ≡ Err e)) }
        ensures blank { IsBlank text.now → result ≡ Err TableFault.NoNodes }
    {
        let document = read_document(alloc, text)?;
        let version = read_version(&document)?;
        let (nodes, homes) = read_rows(alloc, &document)?;
        HomeTable::of(alloc, version, nodes, homes.as_slice())
    }

    /// The version of the table: of two, the one with the greater version is the newer.
    pub fn version(&self) -> u32
        ensures { result ≡ self.now.version }
    {
        self.shared.as_ref().version
    }

    /// How many nodes there are: 1 to 64. They are numbered from 0.
    pub fn nodes(&self) -> u16
        ensures count { result ≡ length self.now.nodes }
        ensures some { 0 < result }
        ensures few { result ≤ 64 }
    {
        self.shared.as_ref().nodes.len() as u16
    }

    /// The home of a client identifier, sought in the order of the rule.
    fn sought_home(&self, identifier: &str) -> u16
        ensures home { IsHome self.now identifier.now result }
        ensures below { result < length self.now.nodes }
    {
        let shared = self.shared.as_ref();
        let nodes = shared.nodes.len() as u16;
        if let Some(node) = automatic_node(identifier, nodes) {
            return node;
        }
        let bytes = identifier.as_bytes();
        match shared.prefixes.longest(bytes) {
            Some(node) => node,
            None => sum_place(bytes, nodes),
        }
    }

    /// The number of the node that is the home of a client identifier: there is one, and no other.
    pub fn home_of(&self, identifier: &str) -> u16
        ensures home { IsHome self.now identifier.now result }
        ensures alone { (node : ℕ) → IsHome self.now identifier.now node → node ≡ result }
        ensures below { result < length self.now.nodes }
    {
        let _shared = &self.shared;
        self.sought_home(identifier)
    }

    /// The address at which clients reach a node: what MQTT 5.0, 4.11 calls a server reference.
    pub fn reference(&self, node: u16) -> &str
        requires { node < length self.now.nodes }
        ensures { option_map (λ n. n.address) (slice_get self.now.nodes node) ≡ Some result.now }
    {
        self.shared.as_ref().nodes[node as usize].address.as_str()
    }

    /// The address at which clients reach a node, as a text of MQTT.
    pub fn address(&self, node: u16) -> &Text
        requires { node < length self.now.nodes }
        ensures { option_map (λ n. n.address) (slice_get self.now.nodes node) ≡ Some result.now }
    {
        &self.shared.as_ref().nodes[node as usize].address
    }

    /// The address at which the other nodes reach a node.
    pub fn bridge(&self, node: u16) -> &str
        requires { node < length self.now.nodes }
        ensures { option_map (λ n. n.bridge) (slice_get self.now.nodes node) ≡ Some result.now }
    {
        self.shared.as_ref().nodes[node as usize].bridge.as_str()
    }

    /// The name of a node.
    pub fn name(&self, node: u16) -> &str
        requires { node < length self.now.nodes }
        ensures { option_map (λ n. n.name) (slice_get self.now.nodes node) ≡ Some result.now }
    {
        self.shared.as_ref().nodes[node as usize].name.as_str()
    }

    /// A table has 1 to 64 nodes, and each of its prefixes is at one of them.
    pub fn is_table(&self)
        ensures { IsTable self.now }
    {
        let _shared = &self.shared;
    }

    /// The number of the node of a name.
    pub fn find(&self, name: &str) -> Option<u16>
        ensures { result ≡ number_of self.now.nodes name.now }
    {
        number_of(self.shared.as_ref().nodes.as_slice(), name)
    }

    /// The same table, with one more holder.
    pub fn copy(&self) -> Result<HomeTable, NoMemory>
        ensures { IfOk result (λ t. t ≡ self.now) }
    {
        let shared = self.shared.clone()?;
        Ok(HomeTable { shared })
    }
}
