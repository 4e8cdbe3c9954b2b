//! Worked examples: command lines, and the tasks that they ask for or the statuses that they end with.

use broker_command::{AskedDrop, AskedLimits, AskedService, AskedUsers, Task, task_of};
use std::alloc::Global;
use std::process::Abort;

/// The words of a command line.
fn words_of(rt: &impl Abort, alloc: Global, line: &str) -> Vec<String> {
    let mut words = Vec::new(alloc);
    for word in line.split_whitespace() {
        let word = String::from_str(alloc, word).expect(rt, "memory");
        words.push(word).expect(rt, "memory");
    }
    words
}

/// A task in one line, or the status and whether help goes to the standard output.
fn told(rt: &impl Abort, alloc: Global, line: &str) -> String {
    let words = words_of(rt, alloc, line);
    let text = match task_of(alloc, &words) {
        Ok(Task::Play { script }) => format!(in alloc; "play {script}"),
        Ok(Task::Loopback { script }) => format!(in alloc; "loopback {script}"),
        Ok(
            Task::Serve(
                AskedService {
                    configuration,
                    node,
                    database,
                    turns,
                    most_clients,
                    connect_within,
                    limits,
                    users,
                    mqtt3,
                    log,
                    status,
                    status_hosts,
                    listen,
                    bridge_listen,
                    from_anywhere,
                },
            ),
        ) => {
            let waits = (status_hosts, listen, bridge_listen, from_anywhere);
            let options = (turns, most_clients, connect_within, mqtt3, log, status);
            let AskedLimits {
                most_memory,
                longest_packet,
                most_filters,
                most_levels,
                most_properties,
                longest_expiry,
                careful,
            } = limits;
            let AskedUsers {
                users,
                permissions,
                anonymous,
            } = users;
            let users = (users, permissions, anonymous);
            let packets = (longest_packet, most_filters, most_levels, most_properties);
            let limits = (most_memory, packets, longest_expiry, careful);
            if users != (None, None, false) {
                format!(in alloc; "node {configuration} {node} {database} {options:?} {users:?}")
            } else if waits != (None, None, None, false) {
                format!(in alloc; "node {configuration} {node} {database} {options:?} {waits:?}")
            } else if limits == (None, (None, None, None, None), None, false) {
                format!(in alloc; "node {configuration} {node} {database} {options:?}")
            } else {
                format!(in alloc; "node {configuration} {node} {database} {options:?} {limits:?}")
            }
        }
        Ok(Task::Password { name }) => format!(in alloc; "password {name}"),
        Ok(
            Task::Check {
                configuration,
                node,
                database,
            },
        ) => { format!(in alloc; "check {configuration} {node} {database}") }
        Ok(
            Task::DropRows(
                AskedDrop {
                    configuration,
                    node,
                    database,
                    session,
                    queue,
                    lane,
                },
            ),
        ) => {
            format!(in alloc;
                "drop {configuration} {node} {database} ({session:?}, {queue:?}, {lane:?})"
            )
        }
        Ok(Task::Balancer { configuration }) => format!(in alloc; "balancer {configuration}"),
        Err(stop) => {
            let mut out: Vec<u8> = Vec::new(alloc);
            let mut err: Vec<u8> = Vec::new(alloc);
            let status = stop.tell(&mut out, &mut err);
            let streams = (1 < out.len(), 1 < err.len());
            format!(in alloc; "{status} {streams:?}")
        }
    };
    text.expect(rt, "memory")
}

#[test]
fn reads_command_lines(rt: HostRuntime) {
    let alloc = rt.alloc();
    let lines = [
        ("play a.script", "play a.script"),
        ("loopback a.script", "loopback a.script"),
        (
            "serve c.toml n0 d.db --turns 1",
            "node c.toml n0 d.db (Some(1), None, None, false, false, None)",
        ),
        (
            "serve --turns=1000000000 c.toml n0 d.db",
            "node c.toml n0 d.db (Some(1000000000), None, None, false, false, None)",
        ),
        (
            "serve c.toml n0 d.db --turns 1 --most-clients 500",
            "node c.toml n0 d.db (Some(1), Some(500), None, false, false, None)",
        ),
        (
            "serve --connect-within=1 c.toml n0 d.db --most-clients=1000000000 --turns 1",
            "node c.toml n0 d.db (Some(1), Some(1000000000), Some(1), false, false, None)",
        ),
        (
            "serve c.toml --log n0 d.db --turns 1 --most-clients 2",
            "node c.toml n0 d.db (Some(1), Some(2), None, false, true, None)",
        ),
        (
            "serve c.toml n0 d.db --status 127.0.0.1:8080 --turns 1",
            "node c.toml n0 d.db (Some(1), None, None, false, false, Some(\"127.0.0.1:8080\"))",
        ),
        (
            "serve c.toml n0 d.db --turns 1 --status=here --log",
            "node c.toml n0 d.db (Some(1), None, None, false, true, Some(\"here\"))",
        ),
        (
            "serve c.toml n0 d.db --turns 1 --mqtt3",
            "node c.toml n0 d.db (Some(1), None, None, true, false, None)",
        ),
        (
            "run c.toml n0 d.db",
            "node c.toml n0 d.db (None, None, None, false, false, None)",
        ),
        (
            "run c.toml --log n0 --most-clients 2 d.db --connect-within=5 --status here",
            "node c.toml n0 d.db (None, Some(2), Some(5), false, true, Some(\"here\"))",
        ),
        (
            "run c.toml n0 d.db --careful",
            "node c.toml n0 d.db (None, None, None, false, false, None) (None, (None, None, None, None), None, true)",
        ),
        (
            "run c.toml n0 d.db --most-memory 500 --longest-packet=65536 --most-filters 9 --most-levels 8 --most-properties 7 --longest-expiry 3600",
            "node c.toml n0 d.db (None, None, None, false, false, None) (Some(500), (Some(65536), Some(9), Some(8), Some(7)), Some(3600), false)",
        ),
        (
            "run c.toml n0 d.db --listen 0.0.0.0:1883 --bridge-listen=[::]:2883",
            "node c.toml n0 d.db (None, None, None, false, false, None) (None, Some(\"0.0.0.0:1883\"), Some(\"[::]:2883\"), false)",
        ),
        (
            "serve c.toml n0 d.db --turns 1 --bridge-listen here",
            "node c.toml n0 d.db (Some(1), None, None, false, false, None) (None, None, Some(\"here\"), false)",
        ),
        (
            "run c.toml n0 d.db --status here --status-host=n0.example,status.example",
            "node c.toml n0 d.db (None, None, None, false, false, Some(\"here\")) (Some(\"n0.example,status.example\"), None, None, false)",
        ),
        (
            "run c.toml n0 d.db --bridge-from-anywhere",
            "node c.toml n0 d.db (None, None, None, false, false, None) (None, None, None, true)",
        ),
        (
            "run c.toml n0 d.db --users u --permissions=p",
            "node c.toml n0 d.db (None, None, None, false, false, None) (Some(\"u\"), Some(\"p\"), false)",
        ),
        (
            "serve c.toml n0 d.db --turns 1 --users u --anonymous",
            "node c.toml n0 d.db (Some(1), None, None, false, false, None) (Some(\"u\"), None, true)",
        ),
        ("password alice", "password alice"),
        ("check c.toml n0 d.db", "check c.toml n0 d.db"),
        (
            "drop c.toml n0 d.db --queue a",
            "drop c.toml n0 d.db (None, Some(\"a\"), None)",
        ),
        (
            "drop c.toml n0 d.db --session a --lane n1",
            "drop c.toml n0 d.db (Some(\"a\"), None, Some(\"n1\"))",
        ),
        ("drop --help", "0 (true, false)"),
        ("balancer c.toml", "balancer c.toml"),
        ("balancer --help", "0 (true, false)"),
        ("check --help", "0 (true, false)"),
        ("--help", "0 (true, false)"),
        ("--version", "0 (true, false)"),
        ("-V", "0 (true, false)"),
        ("help", "0 (true, false)"),
        ("serve --help", "0 (true, false)"),
        ("run --help", "0 (true, false)"),
        ("loopback --help", "0 (true, false)"),
    ];
    for (line, expected) in lines {
        let found = told(&rt, alloc, line);
        assert_eq!(rt; found.as_str(), expected, "{line}");
    }
}

#[test]
fn refuses_command_lines(rt: HostRuntime) {
    let alloc = rt.alloc();
    let lines = [
        ("", "2 (false, true)"),
        ("play", "2 (false, true)"),
        ("play a b", "2 (false, true)"),
        ("loopback", "2 (false, true)"),
        ("run a", "2 (false, true)"),
        ("run c.toml n0 d.db --turns 1", "2 (false, true)"),
        ("runs c.toml n0 d.db", "2 (false, true)"),
        ("serve c.toml n0 d.db", "2 (false, true)"),
        ("serve c.toml n0 --turns 1", "2 (false, true)"),
        ("serve c.toml n0 d.db --turns 0", "2 (false, true)"),
        ("serve c.toml n0 d.db --turns 1000000001", "2 (false, true)"),
        ("serve c.toml n0 d.db --turns many", "2 (false, true)"),
        (
            "serve c.toml n0 d.db --turns 1 --most-clients 0",
            "2 (false, true)",
        ),
        (
            "serve c.toml n0 d.db --turns 1 --most-clients some",
            "2 (false, true)",
        ),
        (
            "serve c.toml n0 d.db --turns 1 --most-clients",
            "2 (false, true)",
        ),
        (
            "serve c.toml n0 d.db --turns 1 --connect-within 0",
            "2 (false, true)",
        ),
        (
            "serve c.toml n0 d.db --turns 1 --connect-within 1s",
            "2 (false, true)",
        ),
        (
            "serve c.toml n0 d.db --turns 1 --connect-within 1000000001",
            "2 (false, true)",
        ),
        ("run c.toml n0 d.db --most-memory 0", "2 (false, true)"),
        ("run c.toml n0 d.db --longest-packet 1k", "2 (false, true)"),
        ("run c.toml n0 d.db --most-filters", "2 (false, true)"),
        ("run c.toml n0 d.db --careful=yes", "2 (false, true)"),
        ("check c.toml n0 d.db --careful", "2 (false, true)"),
        ("run c.toml n0 d.db --listen", "2 (false, true)"),
        ("check c.toml n0 d.db --listen here", "2 (false, true)"),
        ("run --version", "2 (false, true)"),
        ("serve c.toml n0 d.db --turns 1 --status", "2 (false, true)"),
        (
            "serve c.toml n0 d.db --turns 1 --log yes",
            "2 (false, true)",
        ),
        (
            "serve c.toml n0 d.db --turns 1 --log=yes",
            "2 (false, true)",
        ),
        ("check c.toml n0 d.db --most-clients 1", "2 (false, true)"),
        ("check c.toml n0 d.db --log", "2 (false, true)"),
        ("check c.toml n0", "2 (false, true)"),
        ("check c.toml n0 d.db --turns 1", "2 (false, true)"),
        ("drop c.toml n0 --queue a", "2 (false, true)"),
        ("drop c.toml n0 d.db --queue", "2 (false, true)"),
        ("drop c.toml n0 d.db --retained a", "2 (false, true)"),
        ("balancer", "2 (false, true)"),
        ("balancer c.toml n0", "2 (false, true)"),
        ("balancer c.toml --listen here", "2 (false, true)"),
    ];
    for (line, expected) in lines {
        let found = told(&rt, alloc, line);
        assert_eq!(rt; found.as_str(), expected, "{line}");
    }
}
