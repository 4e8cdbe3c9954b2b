//! Scripts that are read, and the faults of those that aren't.

use broker_script::{Command, LONGEST_FILE, NodeEvent, ScriptFault, parse_script};
use std::alloc::Global;
use std::process::Abort;

const CONNECT: &str = "nodes 2\n# c\n\nstart 0 0\nstart 1 0\nopen 1 1 0\n\
    bytes 1 1 0 100e00044d5154540502003c00000161\nship 1 0 0\ndeliver 1 0\n";

fn is(command: &Command, wanted: Command) -> bool {
    let same = *command == wanted;
    drop(wanted);
    same
}

fn fault_of(alloc: Global, script: &[u8]) -> Option<ScriptFault> {
    parse_script(alloc, script).err()
}

fn read(rt: &impl Abort, alloc: Global, script: &[u8]) -> Vec<Command> {
    parse_script(alloc, script).expect(rt, "a script")
}

#[test]
fn reads_commands(rt: HostRuntime) {
    let connect = hex::decode(rt.alloc(), "100e00044d5154540502003c00000161").expect(&rt, "memory");
    let commands = read(&rt, rt.alloc(), CONNECT.as_bytes());
    assert_eq!(rt; commands.len(), 7);
    assert!(rt; is(&commands[0], Command::Nodes { nodes: 2 }));
    assert!(rt;
        is(
            &commands[2],
            Command::Event(NodeEvent::Start { node: 1, moment: 0 })
        )
    );
    assert!(rt;
        is(
            &commands[3],
            Command::Event(NodeEvent::Open {
                node: 1,
                connection: 1,
                moment: 0
            })
        )
    );
    assert!(rt;
        is(
            &commands[4],
            Command::Event(NodeEvent::Bytes {
                node: 1,
                connection: 1,
                moment: 0,
                bytes: connect
            })
        )
    );
    assert!(rt;
        is(
            &commands[5],
            Command::Event(NodeEvent::Ship {
                node: 1,
                peer: 0,
                moment: 0
            })
        )
    );
    assert!(rt;
        is(
            &commands[6],
            Command::Deliver {
                frame: 1,
                moment: 0
            }
        )
    );
    let last = read(&rt, rt.alloc(), b"nodes 8\nstart 7 18446744073709551615");
    assert_eq!(rt; last.len(), 2);
    assert!(rt;
        is(
            &last[1],
            Command::Event(NodeEvent::Start {
                node: 7,
                moment: u64::MAX
            })
        )
    );
}

#[test]
fn reads_clients(rt: HostRuntime) {
    let longest = "a".repeat(rt.alloc(), 256).expect(&rt, "memory");
    for client in ["a", "!#~", longest.as_str()] {
        let script = format!(in rt.alloc(); "nodes 1\nevict 0 {client} 0").expect(&rt, "memory");
        let commands = read(&rt, rt.alloc(), script.as_str().as_bytes());
        assert_eq!(rt; commands.len(), 2);
        assert!(rt;
            is(
                &commands[1],
                Command::Event(NodeEvent::Evict {
                    node: 0,
                    client: String::from_str(rt.alloc(), client).expect(&rt, "memory"),
                    moment: 0
                })
            )
        );
    }
    let script = format!(in rt.alloc(); "nodes 1\n\nevict 0 {longest}a 0\n").expect(&rt, "memory");
    assert!(rt; fault_of(rt.alloc(), script.as_str().as_bytes()) == Some(ScriptFault::Line(3)));
}

#[test]
fn reads_homes(rt: HostRuntime) {
    let longest = "a".repeat(rt.alloc(), 255).expect(&rt, "memory");
    let script = format!(in rt.alloc(); "nodes 2\nhome {longest} 1\nhome \"\\ 0\n").expect(
        &rt, "memory",
    );
    let commands = read(&rt, rt.alloc(), script.as_str().as_bytes());
    assert_eq!(rt; commands.len(), 3);
    assert!(rt;
        is(
            &commands[2],
            Command::Home {
                prefix: String::from_str(rt.alloc(), "\"\\").expect(&rt, "memory"),
                node: 0
            }
        )
    );
    let script = format!(in rt.alloc(); "nodes 2\nhome {longest}a 1\n").expect(&rt, "memory");
    assert!(rt; fault_of(rt.alloc(), script.as_str().as_bytes()) == Some(ScriptFault::Line(2)));
}

#[test]
fn reads_moves(rt: HostRuntime) {
    let longest = "a".repeat(rt.alloc(), 255).expect(&rt, "memory");
    let script = format!(in rt.alloc(); "nodes 2\nmove 0 4294967295 {longest} 1 7\n").expect(
        &rt, "memory",
    );
    let commands = read(&rt, rt.alloc(), script.as_str().as_bytes());
    assert_eq!(rt; commands.len(), 2);
    assert!(rt;
        is(
            &commands[1],
            Command::Event(NodeEvent::Move {
                node: 0,
                version: 4294967295,
                prefix: longest,
                home: 1,
                moment: 7
            })
        )
    );
    let longer = "a".repeat(rt.alloc(), 256).expect(&rt, "memory");
    let script = format!(in rt.alloc(); "nodes 2\nmove 0 1 {longer} 1 7\n").expect(&rt, "memory");
    assert!(rt; fault_of(rt.alloc(), script.as_str().as_bytes()) == Some(ScriptFault::Line(2)));
}

/// Each event, also in a crash line: the same event before and after it.
#[test]
fn reads_crashes(rt: HostRuntime) {
    for event in [
        "start 0 0",
        "open 0 1 0",
        "bytes 0 1 0 c000",
        "close 0 1 0",
        "ship 0 1 0",
        "link 0 1 0",
        "tick 0 0",
        "evict 0 a 0",
        "move 0 1 a 1 0",
    ] {
        let script = format!(in rt.alloc();
            "nodes 2\n{event}\ncrash before {event}\ncrash after {event}\n"
        ).expect(&rt, "memory");
        let commands = read(&rt, rt.alloc(), script.as_str().as_bytes());
        assert_eq!(rt; commands.len(), 4);
        match (&commands[1], &commands[2], &commands[3]) {
            (Command::Event(own), Command::CrashBefore(before), Command::CrashAfter(after)) => {
                assert!(rt; own == before && own == after, "{event}");
            }
            _ => assert!(rt; false, "{event}"),
        }
    }
    let script = b"nodes 2\ncrash after tick 1 5\nrestart 1\nrestart 0";
    let commands = read(&rt, rt.alloc(), script);
    assert_eq!(rt; commands.len(), 4);
    assert!(rt;
        is(
            &commands[1],
            Command::CrashAfter(NodeEvent::Tick { node: 1, moment: 5 })
        )
    );
    assert!(rt; is(&commands[2], Command::Restart { node: 1 }));
    assert!(rt; is(&commands[3], Command::Restart { node: 0 }));
}

#[test]
fn refuses_what_is_no_text(rt: HostRuntime) {
    for script in [b"nodes 2\n# \xc8\n", b"nodes 0\n# \x80\n"] {
        assert!(rt; fault_of(rt.alloc(), script) == Some(ScriptFault::NotText));
    }
    let mut long = vec![in rt.alloc(); b'#'; LONGEST_FILE + 1].expect(&rt, "memory");
    assert!(rt; fault_of(rt.alloc(), long.as_slice()) == Some(ScriptFault::NotText));
    long.pop();
    assert!(rt; fault_of(rt.alloc(), long.as_slice()) == Some(ScriptFault::Line(1)));
}

#[test]
fn names_faults(rt: HostRuntime) {
    for (text, line) in [
        ("nodes 0", 1),
        ("nodes 9", 1),
        ("", 1),
        ("# a\n\n# b\n", 1),
        ("start 0 0", 1),
        ("nodes 2\nstart 2 0", 2),
        ("nodes 2\nstart 65536 0", 2),
        ("nodes 2\nship 0 2 0", 2),
        ("nodes 2\nlink 0 2 0", 2),
        ("nodes 2\nlink 2 0 0", 2),
        ("nodes 2\nlink 0 1", 2),
        ("nodes 2\nstart 1 00", 2),
        ("nodes 2\nstart 01 0", 2),
        ("nodes 2\nstart +1 0", 2),
        ("nodes 2\nstart 1  0", 2),
        ("nodes 2\n start 1 0", 2),
        ("nodes 2\nstart 1 0 ", 2),
        ("nodes 2\nstart 1 0\r\n", 2),
        ("nodes 2\r\nstart 1 0\n", 1),
        ("nodes 2\nbytes 1 1 0 AB", 2),
        ("nodes 2\nbytes 1 1 0 abc", 2),
        ("nodes 2\nbytes 1 1 0 ", 2),
        ("nodes 1\n\nopen 0 1 18446744073709551616", 3),
        ("nodes 2\nevict 2 a 0", 2),
        ("nodes 2\nevict 0 a\x01 0", 2),
        ("nodes 2\nevict 0 \x7f 0", 2),
        ("nodes 2\nevict 0  0", 2),
        ("nodes 2\nevict 0 a", 2),
        ("nodes 2\nevict 0 a b 0", 2),
        ("nodes 2\nmove 2 1 a 0 0", 2),
        ("nodes 2\nmove 0 1 a 2 0", 2),
        ("nodes 2\ncrash before move 0 1 a 2 0", 2),
        ("nodes 2\nmove 0 4294967296 a 0 0", 2),
        ("nodes 2\nmove 0 01 a 0 0", 2),
        ("nodes 2\nmove 0 1 \x7f 0 0", 2),
        ("nodes 2\nmove 0 1 a 0", 2),
        ("nodes 2\nhome a 2", 2),
        ("nodes 2\nhome a 0 0", 2),
        ("nodes 2\nhome  0", 2),
        ("nodes 2\nhome \x7f 0", 2),
        ("nodes 2\nhome a 0\nhome b 1\nhome a 1", 4),
        ("nodes 2\nhome a 0\nstart 0 0\nhome b 0", 4),
        ("home a 0\nnodes 2", 1),
        ("nodes 2\nclose 2 1 0", 2),
        ("nodes 2\nclose 1 0", 2),
        ("nodes 2\ntick 2 0", 2),
        ("nodes 2\ntick 1 1 0", 2),
        ("nodes 1\nnodes 1", 2),
        ("nodes 1\nbegin 0 0", 2),
        ("nodes 1\ncrash", 2),
        ("nodes 1\ncrash before", 2),
        ("nodes 1\ncrash before ", 2),
        ("nodes 1\ncrash start 0 0", 2),
        ("nodes 1\ncrash during start 0 0", 2),
        ("nodes 1\ncrash before  start 0 0", 2),
        ("nodes 1\ncrash before start 0", 2),
        ("nodes 1\nbefore start 0 0", 2),
        ("nodes 1\ncrash before deliver 1 0", 2),
        ("nodes 1\ncrash after deliver 1 0", 2),
        ("nodes 1\ncrash after crash after start 0 0", 2),
        ("nodes 1\ncrash before restart 0", 2),
        ("nodes 1\ncrash before nodes 1", 2),
        ("nodes 1\ncrash before home a 0", 2),
        ("nodes 2\ncrash before start 2 0", 2),
        ("nodes 2\ncrash after ship 0 2 0", 2),
        ("nodes 2\ncrash after link 0 2 0", 2),
        ("crash before start 0 0", 1),
        ("nodes 2\ncrash before start 0 0\nhome a 0", 3),
        ("nodes 2\nrestart 1\nrestart 2", 3),
        ("nodes 2\nrestart 1 0", 2),
        ("nodes 2\nrestart", 2),
        ("nodes 2\nrestart 01", 2),
        ("restart 0", 1),
        ("nodes 2\nrestart 1\nhome a 0", 3),
    ] {
        let fault = fault_of(rt.alloc(), text.as_bytes());
        assert_eq!(rt; fault, Some(ScriptFault::Line(line)), "{text}");
    }
}

#[test]
fn prints_commands(rt: HostRuntime) {
    let script =
        b"nodes 2\nhome d 1\nopen 1 10 0\nbytes 1 10 5 00ff7a\nclose 1 10 6\ntick 0 7\nship 0 1 7\nlink 1 0 7\ndeliver 3 9\nevict 1 c-1 8\nmove 0 4294967295 d 1 9\nstart 0 20\n\
        crash before bytes 1 10 5 00ff7a\ncrash after ship 0 1 7\ncrash before link 1 0 7\nrestart 1\n";
    let mut printed = String::new(rt.alloc());
    for command in read(&rt, rt.alloc(), script).iter() {
        let line = format!(in rt.alloc(); "{command}\n").expect(&rt, "memory");
        printed.push_str(line.as_str()).expect(&rt, "memory");
    }
    assert_eq!(rt; printed.as_str().as_bytes(), script.as_slice());
}

#[test]
fn prints_faults(rt: HostRuntime) {
    for (fault, want) in [
        (ScriptFault::NotText, "broker: script"),
        (ScriptFault::Line(12), "broker: script line 12"),
        (ScriptFault::NoMemory, "broker: run: NoMemory"),
    ] {
        let text = format!(in rt.alloc(); "{fault}").expect(&rt, "memory");
        assert_eq!(rt; text.as_str(), want);
    }
}
