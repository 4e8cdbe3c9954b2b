//! Worked examples: texts, names of nodes, and what they are as a configuration.

use home_table::{TableFault, configure, push_node};
use std::alloc::Global;
use std::process::Abort;

/// A home at a node that isn't there.
const ELSEWHERE: &str = "[[home]]\nprefix = \"d\"\nnode = \"n9\"\n";

/// The rows of nodes, in this order, and what follows them.
fn text_of(rt: &impl Abort, alloc: Global, nodes: &[u16], rest: &str) -> String {
    let mut text = String::new(alloc);
    for node in nodes {
        push_node(&mut text, *node).expect(rt, "memory");
    }
    text.push_str(rest).expect(rt, "memory");
    text
}

/// What a text and a name configure: the number of the node, and where it has its clients and the other nodes.
fn check(
    rt: &impl Abort,
    alloc: Global,
    text: &str,
    node: &str,
    expected: Result<(u16, &str, &str), TableFault>,
) {
    let configured = configure(alloc, text, node);
    let shown = match &configured {
        Ok((table, number)) => Ok((*number, table.reference(*number), table.bridge(*number))),
        Err(fault) => Err(*fault),
    };
    assert_eq!(rt; shown, expected, "of {node} in {text}");
    drop(configured);
}

#[test]
fn configurations(rt: HostRuntime) {
    let first = ("127.0.0.1:1883", "127.0.0.1:2883");
    let second = ("127.0.0.1:1884", "127.0.0.1:2884");
    for (nodes, rest, node, found) in [
        ([0, 1].as_slice(), "", "n0", Ok((0, first.0, first.1))),
        ([0, 1].as_slice(), "", "n1", Ok((1, second.0, second.1))),
        ([1, 0].as_slice(), "", "n1", Ok((0, second.0, second.1))),
        ([0, 1].as_slice(), "", "n2", Err(TableFault::UnknownNode)),
        ([0, 1].as_slice(), "", "", Err(TableFault::UnknownNode)),
        (
            [0].as_slice(),
            ELSEWHERE,
            "n0",
            Err(TableFault::UnknownNode),
        ),
        ([0, 0].as_slice(), "", "n9", Err(TableFault::TwiceNamed)),
        ([].as_slice(), "node = 1", "n0", Err(TableFault::Syntax)),
        ([].as_slice(), "", "n0", Err(TableFault::NoNodes)),
    ] {
        let text = text_of(&rt, rt.alloc(), nodes, rest);
        check(&rt, rt.alloc(), text.as_str(), node, found);
        drop(text);
    }
}
