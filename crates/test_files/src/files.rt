//! A file that is looked at while a node runs.

use cli_files::{TableFile, TableSource};
use cli_stops::Answer;
use door_tables::Tables;
use home_table::HomeTable;
use std::alloc::Global;
use std::process::Abort;

/// The table in force: version 1, with every client at n0 whose identifier begins with `m`.
const FIRST: &str =
    "version = 1\n[[node]]\nname = \"n0\"\naddress = \"127.0.0.1:1883\"\nbridge = \"127.0.0.1:2883\"\n[[node]]\nname = \"n1\"\naddress = \"127.0.0.1:1884\"\nbridge = \"127.0.0.1:2884\"\n[[home]]\nprefix = \"m\"\nnode = \"n0\"\n";

/// Each of these is the content of the file from one look on.
const SECOND: &str =
    "version = 2\n[[node]]\nname = \"n0\"\naddress = \"127.0.0.1:1883\"\nbridge = \"127.0.0.1:2883\"\n[[node]]\nname = \"n1\"\naddress = \"127.0.0.1:1884\"\nbridge = \"127.0.0.1:2884\"\n[[home]]\nprefix = \"m\"\nnode = \"n1\"\n";

/// Another bridge of n1.
const BRIDGE: &str =
    "version = 3\n[[node]]\nname = \"n0\"\naddress = \"127.0.0.1:1883\"\nbridge = \"127.0.0.1:2883\"\n[[node]]\nname = \"n1\"\naddress = \"127.0.0.1:1884\"\nbridge = \"127.0.0.1:2885\"\n";

/// Another address of n0.
const ADDRESS: &str =
    "version = 3\n[[node]]\nname = \"n0\"\naddress = \"127.0.0.1:1886\"\nbridge = \"127.0.0.1:2883\"\n[[node]]\nname = \"n1\"\naddress = \"127.0.0.1:1884\"\nbridge = \"127.0.0.1:2884\"\n";

/// n0 and n1 have changed their places.
const TURNED: &str =
    "version = 3\n[[node]]\nname = \"n1\"\naddress = \"127.0.0.1:1884\"\nbridge = \"127.0.0.1:2884\"\n[[node]]\nname = \"n0\"\naddress = \"127.0.0.1:1883\"\nbridge = \"127.0.0.1:2883\"\n";

/// n0 alone.
const ALONE: &str =
    "version = 3\n[[node]]\nname = \"n0\"\naddress = \"127.0.0.1:1883\"\nbridge = \"127.0.0.1:2883\"\n";

/// Answers one after another, and the last one again and again. None: there is no file.
#[derive(Drop)]
struct Listed<'a> {
    alloc: Global,
    contents: &'a [Option<&'a str>],
    next: usize,
}

impl TableSource for Listed<'_> {
    fn read(&mut self) -> Result<Vec<u8>, Answer> {
        let last = self.contents.len().saturating_sub(1);
        let place = self.next.min(last);
        self.next = self.next.saturating_add(1);
        match self.contents.get(place) {
            Some(Some(text)) => match Vec::from_slice(self.alloc, text.as_bytes()) {
                Ok(bytes) => Ok(bytes),
                Err(_) => Err(Answer::NoMemory),
            },
            _ => Err(Answer::NotThere),
        }
    }
}

/// Looks eight times at n0's file, which has these contents, a second apart and in between: whether just these lines are written, the last refusal is this, and
/// so many tables are offered.
fn tells(
    rt: &impl Abort,
    alloc: Global,
    contents: &[Option<&str>],
    lines: &str,
    refusal: Option<&str>,
    offered: u32,
) -> bool {
    let mut error = Vec::new(alloc);
    let in_force = Vec::from_slice(alloc, FIRST.as_bytes()).expect(rt, "memory");
    let mut homes = HomeTable::parse(alloc, FIRST).expect(rt, "a table");
    let source = Listed {
        alloc,
        contents,
        next: 0,
    };
    let mut file = TableFile::new(alloc, source, "homes.toml", ("n0", 0), in_force, &mut error);
    let mut count = 0u32;
    for at in 10..26u64 {
        if let Some(other) = file.offer(at * 500, &homes) {
            count = count.saturating_add(1);
            homes = other;
        }
    }
    let last = file.refusal() == refusal;
    drop((file, homes));
    let told = error.as_slice() == lines.as_bytes();
    drop(error);
    last && told && count == offered
}

#[test]
fn a_newer_table_is_taken_once(rt: HostRuntime) {
    let alloc = rt.alloc();
    let taken = "broker: homes.toml is taken: version 2\n";
    let first = Some(FIRST);
    let second = Some(SECOND);
    assert!(rt; tells(&rt, alloc, &[first, second], taken, None, 1));
    // at once, and again after it was gone
    assert!(rt; tells(&rt, alloc, &[second], taken, None, 1));
    assert!(rt; tells(&rt, alloc, &[second, second, None, second], taken, None, 1));
    // nothing is taken that stays for one look
    assert!(rt; tells(&rt, alloc, &[first, second, first], "", None, 0));
    assert!(rt; tells(&rt, alloc, &[first], "", None, 0));
}

#[test]
fn another_table_is_refused_once(rt: HostRuntime) {
    let alloc = rt.alloc();
    for (content, reason) in [
        (None, "no such file or folder"),
        (Some("version = "), "line 1 is not TOML"),
        (Some("version = 2"), "it names no node"),
        (
            Some(ALONE),
            "it has 1 nodes, and the table in force has another number",
        ),
        (
            Some(TURNED),
            "this node is node 1 in it, counted from 0, and not so in the table in force",
        ),
        (
            Some(ADDRESS),
            "it has another address for this node, which needs a restart",
        ),
        (
            Some(BRIDGE),
            "it has another bridge for node 1, counted from 0, which needs a restart",
        ),
    ] {
        let line = format!(in alloc; "broker: homes.toml is not taken: {reason}\n").expect(
            &rt, "memory",
        );
        assert!(rt; tells(&rt, alloc, &[content], line.as_str(), Some(reason), 0));
        // it is told no more once the file is the one in force
        let back = [content, content, Some(FIRST)];
        assert!(rt; tells(&rt, alloc, &back, line.as_str(), None, 0));
    }
}

#[test]
fn an_older_table_is_refused(rt: HostRuntime) {
    let alloc = rt.alloc();
    let lines =
        "broker: homes.toml is taken: version 2\nbroker: homes.toml is not taken: its version 1 is not greater than that of the table in force\n";
    let reason = "its version 1 is not greater than that of the table in force";
    let contents = [Some(SECOND), Some(SECOND), Some(FIRST)];
    assert!(rt; tells(&rt, alloc, &contents, lines, Some(reason), 1));
}
