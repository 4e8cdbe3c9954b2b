//! What a node that can't be served leaves on standard error: the fixed line of its end, and then a line with what was tried and what
//! was found.

use crate::served::for_one_turn;
use node_server::ListenAt;
use row_database::{Wary, open_rows};
use serve_node::{Named, serve};
use sqlite::Connection;
use std::alloc::Global;
use std::fs;
use std::net::TcpListener;
use trial_databases::HOMES;

/// A node at addresses that aren't its own or aren't addresses.
fn homes_at(alloc: Global, address: &str, bridge: &str) -> Option<String> {
    let text = format!(in alloc;
        "[[node]]\nname = \"n0\"\naddress = \"{address}\"\nbridge = \"{bridge}\"\n"
    );
    text.ok()
}

/// What serving a node for one turn ends with that waits at these addresses, with its status told at an address or nowhere, and nothing where
/// all went well.
fn told_at<'x>(
    rt: &HostRuntime,
    names: (&str, &str, &str),
    at: ListenAt<'x>,
    status: Option<&'x str>,
) -> String {
    let (configuration, node, database) = names;
    let names = Named {
        configuration,
        node,
        database,
    };
    let mut service = for_one_turn(status);
    service.at = at;
    let text = match serve(rt, names, None, service) {
        Ok(()) => Ok(String::new(rt.alloc())),
        Err(ending) => format!(in rt.alloc(); "{ending}"),
    };
    match text {
        Ok(text) => text,
        Err(_) => String::new(rt.alloc()),
    }
}

fn is_told(rt: &HostRuntime, names: (&str, &str, &str), text: &str) -> bool {
    told_at(rt, names, ListenAt::table(), None).as_str() == text
}

/// Writes a database that has a table of another program.
fn write_foreign(rt: &HostRuntime, path: &str) -> bool {
    match Connection::open(rt, path) {
        Ok(mut conn) => conn.execute_batch("CREATE TABLE other (x INTEGER)").is_ok(),
        Err(_) => false,
    }
}

#[test]
fn a_configuration_that_is_none_is_told(rt: HostRuntime) {
    for (text, node, cause) in [
        (
            "[[node]]\nname = \n",
            "n0",
            "Syntax\nbroker: reading flawed.toml: line 2 is not TOML",
        ),
        (
            "[[node]]\nname = 1\n",
            "n0",
            "Syntax\nbroker: reading flawed.toml: it is TOML, but no table of homes",
        ),
        (
            "",
            "n0",
            "NoNodes\nbroker: reading flawed.toml: it names no node",
        ),
        (
            HOMES,
            "n2",
            "UnknownNode\nbroker: reading flawed.toml: it does not name the node n2",
        ),
    ] {
        fs::write(&rt, "flawed.toml", text).expect(&rt, "a file");
        let text = format!(in rt.alloc(); "broker: configuration: {cause}").expect(&rt, "memory");
        assert!(rt;
            is_told(&rt, ("flawed.toml", node, "no.db"), text.as_str()),
            "{cause}"
        );
    }
    assert!(rt;
        is_told(
            &rt,
            ("no.toml", "n0", "no.db"),
            "broker: configuration: Syntax\nbroker: reading no.toml: no such file or folder"
        )
    );
}

#[test]
fn a_database_that_is_none_is_told(rt: HostRuntime) {
    fs::write(&rt, "causes.toml", HOMES).expect(&rt, "a file");
    fs::write(&rt, "text.db", "no database, but a text of some length").expect(&rt, "a file");
    assert!(rt; write_foreign(&rt, "foreign.db"));
    assert!(rt; is_told(&rt, ("causes.toml", "n0", "own.db"), ""));
    for (node, database, cause) in [
        (
            "n0",
            "nowhere/no.db",
            "opening the database nowhere/no.db: no such file or folder",
        ),
        ("n0", ".", "opening the database .: it is a folder"),
        (
            "n0",
            "text.db",
            "opening the database text.db: it is no database, or damaged",
        ),
        (
            "n0",
            "foreign.db",
            "opening the database foreign.db: it is the database of another program",
        ),
        (
            "n1",
            "own.db",
            "the rows in own.db: they are those of node 0 of the table, counted from 0",
        ),
    ] {
        let text = format!(in rt.alloc(); "broker: run: Rows\nbroker: {cause}").expect(
            &rt, "memory",
        );
        assert!(rt;
            is_told(&rt, ("causes.toml", node, database), text.as_str()),
            "{cause}"
        );
    }
}

#[test]
fn a_database_that_is_open_is_told(rt: HostRuntime) {
    fs::write(&rt, "open.toml", HOMES).expect(&rt, "a file");
    let rows = open_rows(&rt, "open.db", Wary)
        .ok()
        .expect(&rt, "a database");
    assert!(rt;
        is_told(
            &rt,
            ("open.toml", "n0", "open.db"),
            "broker: run: Rows\nbroker: opening the database open.db: a program that runs has it open"
        )
    );
    drop(rows);
}

#[test]
fn an_address_that_is_none_is_told(rt: HostRuntime) {
    let listener = TcpListener::bind(&rt, "127.0.0.1:0").expect(&rt, "a listener");
    let taken = listener.local_addr().expect(&rt, "its address");
    let taken = format!(in rt.alloc(); "{taken}").expect(&rt, "memory");
    for (address, bridge, place, cause) in [
        (
            taken.as_str(),
            "127.0.0.1:0",
            taken.as_str(),
            "the address is in use",
        ),
        (
            "localhost:1883",
            "127.0.0.1:0",
            "localhost:1883",
            "it is no IP address with a port",
        ),
        (
            "127.0.0.1:0",
            "192.0.2.1:2883",
            "192.0.2.1:2883",
            "the address is none of this machine",
        ),
    ] {
        let homes = homes_at(rt.alloc(), address, bridge).expect(&rt, "memory");
        fs::write(&rt, "taken.toml", homes.as_str()).expect(&rt, "a file");
        let text = format!(in rt.alloc();
            "broker: run: Socket\nbroker: waiting at {place}: {cause}"
        ).expect(&rt, "memory");
        assert!(rt;
            is_told(&rt, ("taken.toml", "n0", "taken.db"), text.as_str()),
            "{cause}"
        );
    }
}

/// Whether serving n0 ends with this text where it is to wait at these addresses.
fn ends_at<'x>(
    rt: &HostRuntime,
    clients: Option<&'x str>,
    nodes: Option<&'x str>,
    text: &str,
) -> bool {
    let names = ("listen.toml", "n0", "listen.db");
    let at = ListenAt { clients, nodes };
    told_at(rt, names, at, None).as_str() == text
}

#[test]
fn an_address_to_wait_at_that_is_none_is_told(rt: HostRuntime) {
    let any = Some("127.0.0.1:0");
    let named = "node.example:1883";
    let homes = homes_at(rt.alloc(), named, named).expect(&rt, "memory");
    fs::write(&rt, "listen.toml", homes.as_str()).expect(&rt, "a file");
    assert!(rt;
        ends_at(
            &rt,
            Some("192.0.2.1:1883"),
            any,
            "broker: run: Socket\nbroker: waiting at 192.0.2.1:1883: the address is none of this machine"
        )
    );
    assert!(rt;
        ends_at(
            &rt,
            any,
            Some("here"),
            "broker: run: Socket\nbroker: waiting at here: it is no IP address with a port"
        )
    );
}

#[test]
fn an_address_for_the_status_that_is_none_is_told(rt: HostRuntime) {
    let listener = TcpListener::bind(&rt, "127.0.0.1:0").expect(&rt, "a listener");
    let taken = listener.local_addr().expect(&rt, "its address");
    let taken = format!(in rt.alloc(); "{taken}").expect(&rt, "memory");
    let any = "127.0.0.1:0";
    let homes = homes_at(rt.alloc(), any, any).expect(&rt, "memory");
    fs::write(&rt, "status.toml", homes.as_str()).expect(&rt, "a file");
    let names = ("status.toml", "n0", "status.db");
    assert!(rt; told_at(&rt, names, ListenAt::table(), Some(any)).is_empty());
    for (status, cause) in [
        (taken.as_str(), "the address is in use"),
        ("localhost", "it is no IP address with a port"),
    ] {
        let text = format!(in rt.alloc();
            "broker: run: Socket\nbroker: waiting at {status}: {cause}"
        ).expect(&rt, "memory");
        assert!(rt;
            told_at(&rt, names, ListenAt::table(), Some(status)) == text,
            "{cause}"
        );
    }
}
