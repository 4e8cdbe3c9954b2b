//! Worked examples: tables of homes, and the backend of HAProxy for each.

use cli_files::{Home, homes_of};
use cli_reports::balancer_text;
use std::alloc::Global;
use std::process::Abort;

/// Two nodes, one of which has a name in the place of its IP address.
const NODES: &str =
    "version = 7\n[[node]]\nname = \"left\"\naddress = \"10.0.0.1:1883\"\nbridge = \"10.0.0.1:2883\"\n[[node]]\nname = \"right\"\naddress = \"right.example:1883\"\nbridge = \"10.0.0.2:2883\"\n";

/// How each text begins.
const OPENING: &str =
    "# Sends each client to its home, by version 7 of the table of homes.\nbackend homes\n    mode tcp\n    balance leastconn\n    option persist\n    tcp-request inspect-delay 10s\n    tcp-request content reject unless { req.payload(0,0),mqtt_is_valid }\n    tcp-request content set-var(txn.id) req.payload(0,0),mqtt_field_value(connect,client_identifier)\n";

/// What the nodes have given.
const GIVEN: &str =
    "    use-server left if { var(txn.id) -m reg ^auto-0-[0-9] } !{ var(txn.id) -m reg ^auto-0-(0.|.*[^0-9]) }\n    use-server right if { var(txn.id) -m reg ^auto-1-[0-9] } !{ var(txn.id) -m reg ^auto-1-(0.|.*[^0-9]) }\n";

/// The nodes with their addresses.
const SERVERS: &str =
    "    server left 10.0.0.1:1883 check\n    server right right.example:1883 check\n";

/// The text for a table with these rows of homes.
fn text_of(rt: &impl Abort, alloc: Global, rows: &str) -> String {
    let table = format!(in alloc; "{NODES}{rows}").expect(rt, "memory");
    let (homes, listed) = homes_of(alloc, "homes.toml", table.as_bytes())
        .ok()
        .expect(rt, "a table");
    balancer_text(alloc, &homes, &listed).expect(rt, "memory")
}

/// Whether the text for a table with these rows of homes has these lines for them, and each identifier begins with a prefix.
fn sends(rt: &impl Abort, alloc: Global, rows: &str, lines: &str) -> bool {
    let text = text_of(rt, alloc, rows);
    let expected = format!(in alloc; "{OPENING}{GIVEN}{lines}{SERVERS}").expect(rt, "memory");
    text.as_str() == expected.as_str()
}

#[test]
fn prefixes_lead_home(rt: HostRuntime) {
    let alloc = rt.alloc();
    let rest = "    use-server left if { var(txn.id),length gt 0 }\n";
    for (rows, lines) in [
        ("[[home]]\nprefix = \"\"\nnode = \"left\"\n", rest),
        (
            "[[home]]\nprefix = \"\"\nnode = \"left\"\n[[home]]\nprefix = \"d\"\nnode = \"left\"\n[[home]]\nprefix = \"de\"\nnode = \"right\"\n",
            "    use-server right if { var(txn.id) -m beg -- de }\n    use-server left if { var(txn.id) -m beg -- d }\n    use-server left if { var(txn.id),length gt 0 }\n",
        ),
        (
            "[[home]]\nprefix = \"} K\u{fc}\"\nnode = \"right\"\n[[home]]\nprefix = \"\"\nnode = \"left\"\n",
            "    use-server right if { var(txn.id),hex,lower -m beg 7d204bc3bc }\n    use-server left if { var(txn.id),length gt 0 }\n",
        ),
    ] {
        assert!(rt; sends(&rt, alloc, rows, lines), "{rows}");
    }
}

/// How many lines of a text begin so.
fn lines_with(text: &str, front: &str) -> usize {
    text.lines().filter(|line| line.starts_with(front)).count()
}

#[test]
fn sums_lead_home(rt: HostRuntime) {
    let alloc = rt.alloc();
    let text = text_of(&rt, alloc, "[[home]]\nprefix = \"d\"\nnode = \"left\"\n");
    let sum = "    tcp-request content set-var(txn.sum) var(txn.id),bytes(";
    assert!(rt; lines_with(text.as_str(), sum) == 256);
    let last =
        "    tcp-request content set-var(txn.sum) var(txn.id),bytes(255,1),be2dec(,1),add(txn.sum) if { var(txn.id),length gt 255 }";
    assert!(rt; lines_with(text.as_str(), last) == 1);
    let rests = "    use-server right if { var(txn.id),length gt 0 } { var(txn.sum),mod(2) eq 1 }";
    assert!(rt; lines_with(text.as_str(), rests) == 1);
    drop(text);
}

#[test]
fn addresses_are_words(rt: HostRuntime) {
    let alloc = rt.alloc();
    let table = "[[node]]\nname = \"n0\"\naddress = \"a b\"\nbridge = \"b\"\n";
    let found = homes_of(alloc, "homes.toml", table.as_bytes());
    let (homes, listed) = found.ok().expect(&rt, "a table");
    let none: &[Home] = &[];
    assert!(rt; listed.as_slice() == none);
    let text = balancer_text(alloc, &homes, &listed).expect(&rt, "memory");
    let server = "    server n0 \\x61\\x20\\x62 check";
    assert!(rt; lines_with(text.as_str(), server) == 1);
    drop((homes, listed, text));
}
