//! Tables of homes, and the faults of texts that are none.

use home_table::{HomeTable, TableFault, nodes_text};
use std::alloc::Global;
use std::process::Abort;

/// Homes by prefixes of which one begins with the other.
const HOMES: &str =
    "[[home]]\nprefix = \"d\"\nnode = \"n0\"\n\n[[home]]\nprefix = \"de\"\nnode = \"n1\"\n";

/// The table of two nodes and those homes, as a copy.
fn table(rt: &impl Abort, alloc: Global) -> HomeTable {
    let mut text = nodes_text(alloc, 2).expect(rt, "memory");
    text.push_str(HOMES).expect(rt, "memory");
    let table = HomeTable::parse(alloc, text.as_str()).expect(rt, "a table");
    table.copy().expect(rt, "memory")
}

#[test]
fn homes_and_addresses(rt: HostRuntime) {
    let table = table(&rt, rt.alloc());
    for (identifier, home) in [
        ("dog", 0),
        ("dev", 1),
        ("de", 1),
        ("auto-1-4", 1),
        ("auto-0-18446744073709551616", 0),
        ("auto-1-0", 1),
        ("auto-2-4", 1),
        ("auto-01-4", 0),
        ("auto-1-04", 0),
        ("auto-1-", 0),
        ("a", 1),
        ("b", 0),
        ("", 0),
    ] {
        assert_eq!(rt; table.home_of(identifier), home, "of {identifier}");
    }
    assert_eq!(rt; table.nodes(), 2);
    assert_eq!(rt; table.reference(1), "127.0.0.1:1884");
    assert_eq!(rt; table.bridge(0), "127.0.0.1:2883");
    assert_eq!(rt; table.find("n1"), Some(1));
    assert_eq!(rt; table.find("n9"), None);
    drop(table);
}

/// Why a text is no table, if it is none.
fn fault_of(alloc: Global, text: &str) -> Option<TableFault> {
    HomeTable::parse(alloc, text).err()
}

#[test]
fn faults(rt: HostRuntime) {
    let node = "[[node]]\nname = \"n0\"\naddress = \"a\"\nbridge = \"b\"\n";
    for (before, text, fault) in [
        ("", "", TableFault::NoNodes),
        ("", "node = []", TableFault::NoNodes),
        ("", "node = 1", TableFault::Syntax),
        ("", "node", TableFault::Syntax),
        (
            "",
            "[[home]]\nprefix = \"d\"\nnode = \"n0\"\n",
            TableFault::NoNodes,
        ),
        (node, "[other]\n", TableFault::Syntax),
        (node, "port = 1\n", TableFault::Syntax),
        (
            node,
            "[[node]]\nname = \"n1\"\naddress = \"a\"\n",
            TableFault::Syntax,
        ),
        (
            node,
            "[[node]]\nname = \"N1\"\naddress = \"a\"\nbridge = \"b\"\n",
            TableFault::Syntax,
        ),
        (
            node,
            "[[home]]\nprefix = \"\\u0000\"\nnode = \"n0\"\n",
            TableFault::Syntax,
        ),
        (node, node, TableFault::TwiceNamed),
        (
            node,
            "[[home]]\nprefix = \"d\"\nnode = \"n9\"\n[[home]]\nprefix = \"d\"\nnode = \"n0\"\n",
            TableFault::TwiceNamed,
        ),
        (
            node,
            "[[home]]\nprefix = \"\"\nnode = \"n9\"\n",
            TableFault::UnknownNode,
        ),
    ] {
        let whole = format!(in rt.alloc(); "{before}{text}").expect(&rt, "memory");
        let found = fault_of(rt.alloc(), whole.as_str());
        assert_eq!(rt; found, Some(fault), "of {whole}");
    }
}

/// The version of the table that a text is, or why it is none.
fn version_in(alloc: Global, text: &str) -> Result<u32, TableFault> {
    let table = HomeTable::parse(alloc, text)?;
    Ok(table.version())
}

#[test]
fn versions(rt: HostRuntime) {
    let node = "[[node]]\nname = \"n0\"\naddress = \"a\"\nbridge = \"b\"\n";
    for (key, version) in [
        ("", Ok(0)),
        ("version = 0\n", Ok(0)),
        ("version = 1\n", Ok(1)),
        ("version = 4294967295\n", Ok(4_294_967_295)),
        ("version = 4294967296\n", Err(TableFault::Syntax)),
        ("version = -1\n", Err(TableFault::Syntax)),
        ("version = 1.0\n", Err(TableFault::Syntax)),
        ("version = \"1\"\n", Err(TableFault::Syntax)),
    ] {
        let text = format!(in rt.alloc(); "{key}{node}").expect(&rt, "memory");
        let found = version_in(rt.alloc(), text.as_str());
        assert_eq!(rt; found, version, "with {key}");
    }
}

#[test]
fn a_table_has_as_many_as_64_nodes(rt: HostRuntime) {
    for (nodes, fault) in [
        (0, Some(TableFault::NoNodes)),
        (64, None),
        (65, Some(TableFault::Syntax)),
    ] {
        let text = nodes_text(rt.alloc(), nodes).expect(&rt, "memory");
        let found = fault_of(rt.alloc(), text.as_str());
        assert_eq!(rt; found, fault, "with {nodes}");
    }
}

/// A table of one node with a home, whose name and values have so many bytes: a name, two addresses, and a prefix.
fn text_of(rt: &impl Abort, alloc: Global, lengths: [usize; 4]) -> String {
    let [name, address, bridge, prefix] = lengths;
    let name = "n".repeat(alloc, name).expect(rt, "memory");
    let address = "a".repeat(alloc, address).expect(rt, "memory");
    let bridge = "b".repeat(alloc, bridge).expect(rt, "memory");
    let prefix = "p".repeat(alloc, prefix).expect(rt, "memory");
    let text = format!(in alloc;
        "[[node]]\nname = \"{name}\"\naddress = \"{address}\"\nbridge = \"{bridge}\"\n[[home]]\nprefix = \"{prefix}\"\nnode = \"{name}\"\n"
    );
    text.expect(rt, "memory")
}

#[test]
fn names_and_values_have_an_end(rt: HostRuntime) {
    let syntax = Some(TableFault::Syntax);
    for (lengths, fault) in [
        ([1, 1, 1, 0], None),
        ([32, 255, 255, 255], None),
        ([0, 1, 1, 1], syntax),
        ([33, 1, 1, 1], syntax),
        ([1, 256, 1, 1], syntax),
        ([1, 1, 256, 1], syntax),
        ([1, 1, 1, 256], syntax),
    ] {
        let text = text_of(&rt, rt.alloc(), lengths);
        let found = fault_of(rt.alloc(), text.as_str());
        assert_eq!(rt; found, fault, "of {text}");
    }
}
