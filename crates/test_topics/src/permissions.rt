//! What rules come to.

use mqtt_access::{Access, ClientRule, Permissions, Request, RuleIndex, Scope, TopicRule};
use mqtt_fields::Text;
use mqtt_topics::Filter;
use std::alloc::Global;
use std::process::Abort;

/// For whom a rule is: clients without a user name, a user, or all.
#[derive(Clone, Copy)]
enum For {
    Nobody,
    User(&'static str),
    All,
}

const RULES: [(For, Access, &str); 9] = [
    (For::Nobody, Access::Read, "$SYS/#"),
    (For::User("ann"), Access::Write, "sensors/+/temperature"),
    (For::User("ann"), Access::Read, "sensors/#"),
    (For::User("ann"), Access::Deny, "sensors/secret/#"),
    (For::User("ann"), Access::ReadWrite, "room 1/door"),
    (For::User("bob"), Access::ReadWrite, "#"),
    (For::All, Access::ReadWrite, "users/%u/#"),
    (For::All, Access::Write, "clients/%c/state"),
    (For::All, Access::Deny, "users/%u/locked"),
];

const CLIENTS: [(&str, &str, bool); 3] = [
    ("ann", "ann-", true),
    ("ann", "other", false),
    ("bob", "bob", false),
];

/// Filters and topics, and whether they match (MQTT 5.0, 4.7.1 and 4.7.2).
const MATCHES: [(&str, &str, bool); 27] = [
    ("sport/tennis/player1", "sport/tennis/player1", true),
    ("sport/tennis/player1", "sport/tennis/player2", false),
    ("sport/tennis/player1", "sport/tennis/player10", false),
    ("sport/tennis/player1/#", "sport/tennis/player1", true),
    (
        "sport/tennis/player1/#",
        "sport/tennis/player1/ranking",
        true,
    ),
    (
        "sport/tennis/player1/#",
        "sport/tennis/player1/score/wimbledon",
        true,
    ),
    ("sport/tennis/player1/#", "sport/tennis/player10", false),
    ("sport/tennis/player1/#", "sport/tennis", false),
    ("sport/tennis/+", "sport/tennis/player1", true),
    ("sport/tennis/+", "sport/tennis/player1/ranking", false),
    ("sport/tennis/+", "sport/golf/player1", false),
    ("sport/+", "sport", false),
    ("sport/+", "sport/", true),
    ("sport/+/player1", "sport/tennis/player1", true),
    ("sport/+/player1", "sport//player1", true),
    ("sport/+/player1", "sport/tennis/player2", false),
    ("sport/+/player1", "sport/tennis/indoor/player1", false),
    ("sport/+/+", "sport/tennis/", true),
    ("sport/+/+", "sport/tennis", false),
    ("sport/+/#", "sport/tennis", true),
    ("sport/+/#", "sport", false),
    ("+/+", "/finance", true),
    ("/+", "/finance", true),
    ("+", "/finance", false),
    ("$SYS/+", "$SYS/broker", true),
    ("+/broker", "$SYS/broker", false),
    ("#", "$SYS/broker", false),
];

fn text(rt: &impl Abort, alloc: Global, text: &str) -> Text {
    Text::new(alloc, text).ok().expect(rt, "a text")
}

fn scope_of(rt: &impl Abort, alloc: Global, who: For) -> Scope {
    match who {
        For::Nobody => Scope::Nameless,
        For::User(name) => Scope::User(text(rt, alloc, name)),
        For::All => Scope::Pattern,
    }
}

fn rule(rt: &impl Abort, alloc: Global, who: For, access: Access, filter: &str) -> TopicRule {
    let filter = text(rt, alloc, filter);
    TopicRule {
        scope: scope_of(rt, alloc, who),
        access,
        filter: Filter::parse(alloc, filter.as_str())
            .ok()
            .expect(rt, "a filter"),
    }
}

fn rules(rt: &impl Abort, alloc: Global) -> Permissions {
    let mut topics = Vec::new(alloc);
    for (who, access, filter) in RULES {
        let rule = rule(rt, alloc, who, access, filter);
        topics.push(rule).ok().expect(rt, "memory");
    }
    let mut clients = Vec::new(alloc);
    for (user, identifier, is_prefix) in CLIENTS {
        let rule = ClientRule {
            user: Some(text(rt, alloc, user)),
            identifier: text(rt, alloc, identifier),
            is_prefix,
        };
        clients.push(rule).ok().expect(rt, "memory");
    }
    Permissions { topics, clients }
}

/// One rule, which lets clients without a user name read.
fn reading(rt: &impl Abort, alloc: Global, filter: &str) -> Permissions {
    let mut topics = Vec::new(alloc);
    let rule = rule(rt, alloc, For::Nobody, Access::Read, filter);
    topics.push(rule).ok().expect(rt, "memory");
    Permissions {
        topics,
        clients: Vec::new(alloc),
    }
}

#[test]
fn topics_are_written_and_read_by_rules(rt: HostRuntime) {
    let p = rules(&rt, rt.alloc());
    let ann = Some("ann");
    assert!(&rt; p.may_write(ann, "ann-1", "sensors/roof/temperature"));
    assert!(&rt; !p.may_write(ann, "ann-1", "sensors/roof/humidity"));
    assert!(&rt; p.may_read(ann, "ann-1", "sensors/roof/humidity"));
    assert!(&rt; p.may_read(ann, "ann-1", "sensors"));
    assert!(&rt; !p.may_read(ann, "ann-1", "sensors/secret/a"));
    assert!(&rt; !p.may_write(ann, "ann-1", "sensors/secret/temperature"));
    assert!(&rt; p.may_write(ann, "ann-1", "room 1/door"));
    assert!(&rt; !p.may_read(ann, "ann-1", "$SYS/broker"));
    assert!(&rt; p.may_read(None, "c", "$SYS/broker"));
    assert!(&rt; !p.may_read(None, "c", "sensors/roof"));
    assert!(&rt; !p.may_read(Some("carl"), "c", "sensors/roof"));
    assert!(&rt; p.may_read(Some("bob"), "bob", "sensors/secret/a"));
    assert!(&rt; !p.may_read(Some("bob"), "bob", "$SYS/broker"));
}

#[test]
fn patterns_hold_the_names_of_clients(rt: HostRuntime) {
    let p = rules(&rt, rt.alloc());
    assert!(&rt; p.may_write(Some("carl"), "c", "users/carl/a/b"));
    assert!(&rt; !p.may_write(Some("carl"), "c", "users/bob/a"));
    assert!(&rt; !p.may_write(Some("carl"), "c", "users/carl/locked"));
    assert!(&rt; p.may_write(Some("carl"), "c", "clients/c/state"));
    assert!(&rt; !p.may_read(Some("carl"), "c", "clients/c/state"));
    assert!(&rt; p.may_write(None, "c", "clients/c/state"));
    assert!(&rt; !p.may_write(None, "", "clients//state"));
    // a name that holds a wildcard or a separator fills no place, and what is denied by its place is all
    assert!(&rt; !p.may_write(Some("+"), "c", "users/carl/a"));
    assert!(&rt; !p.may_write(Some("#"), "c", "clients/c/state"));
    assert!(&rt; !p.may_write(None, "a/b", "clients/a/b/state"));
    assert!(&rt; !p.may_write(None, "$c", "clients/$c/state"));
}

#[test]
fn filters_are_covered_by_rules(rt: HostRuntime) {
    let p = rules(&rt, rt.alloc());
    let bob = Some("bob");
    assert!(&rt; p.may_subscribe(None, "c", "$SYS/#"));
    assert!(&rt; p.may_subscribe(None, "c", "$SYS/broker/+"));
    assert!(&rt; p.may_subscribe(None, "c", "$share/g/$SYS/+"));
    assert!(&rt; !p.may_subscribe(None, "c", "#"));
    assert!(&rt; !p.may_subscribe(None, "c", "+/broker"));
    // bob's `#` has all topics but those that begin with `$`, and users/bob/locked
    assert!(&rt; p.may_subscribe(bob, "bob", "sensors/#"));
    assert!(&rt; p.may_subscribe(bob, "bob", "users/+"));
    assert!(&rt; !p.may_subscribe(bob, "bob", "#"));
    assert!(&rt; !p.may_subscribe(bob, "bob", "users/+/locked"));
    assert!(&rt; !p.may_subscribe(bob, "bob", "users/bob/#"));
    assert!(&rt; !p.may_subscribe(bob, "bob", "$SYS/#"));
    assert!(&rt; !p.may_subscribe(bob, "bob", "$share/g/#"));
    assert!(&rt; p.may_subscribe(bob, "bob", "$share/g/sensors/#"));
    // ann's sensors/# is cut by what is denied
    assert!(&rt; !p.may_subscribe(Some("ann"), "ann-1", "sensors/#"));
    assert!(&rt; !p.may_subscribe(Some("ann"), "ann-1", "sensors/+/a"));
    assert!(&rt; p.may_subscribe(Some("ann"), "ann-1", "sensors/roof/#"));
    assert!(&rt; p.may_subscribe(Some("ann"), "ann-1", "sensors/roof"));
}

#[test]
fn all_levels_are_those_of_plus_and_hash(rt: HostRuntime) {
    let alloc = rt.alloc();
    let p = reading(&rt, alloc, "+/#");
    assert!(&rt; p.may_subscribe(None, "c", "#"));
    assert!(&rt; p.may_subscribe(None, "c", "+"));
    assert!(&rt; p.may_subscribe(None, "c", "a/#"));
    assert!(&rt; !p.may_subscribe(None, "c", "$a/#"));
    let p = reading(&rt, alloc, "a/+");
    assert!(&rt; p.may_subscribe(None, "c", "a/+"));
    assert!(&rt; p.may_subscribe(None, "c", "a/b"));
    assert!(&rt; !p.may_subscribe(None, "c", "a/#"));
    assert!(&rt; !p.may_subscribe(None, "c", "a"));
    assert!(&rt; !p.may_subscribe(None, "c", "a/b/c"));
    let p = reading(&rt, alloc, "a/#");
    assert!(&rt; p.may_subscribe(None, "c", "a"));
    assert!(&rt; p.may_subscribe(None, "c", "a/+/c/#"));
    assert!(&rt; !p.may_subscribe(None, "c", "+/b"));
}

/// Whether a rule of this filter alone lets a client read a topic.
fn lets_read(rt: &impl Abort, alloc: Global, filter: &str, topic: &str) -> bool {
    let index = RuleIndex::of(alloc, reading(rt, alloc, filter)).expect(rt, "memory");
    index.may(&None, "c", Request::Read(topic))
}

#[test]
fn rules_match_as_the_standard_says(rt: HostRuntime) {
    for (filter, topic, matches) in MATCHES {
        assert!(&rt; lets_read(&rt, rt.alloc(), filter, topic) == matches);
    }
}

#[test]
fn users_connect_under_their_identifiers(rt: HostRuntime) {
    let p = rules(&rt, rt.alloc());
    assert!(&rt; p.may_connect(Some("ann"), "ann-1"));
    assert!(&rt; p.may_connect(Some("ann"), "other"));
    assert!(&rt; !p.may_connect(Some("ann"), "other2"));
    assert!(&rt; !p.may_connect(Some("ann"), "bob"));
    assert!(&rt; p.may_connect(Some("bob"), "bob"));
    assert!(&rt; !p.may_connect(Some("bob"), "bob2"));
    assert!(&rt; p.may_connect(Some("carl"), "anything"));
    assert!(&rt; p.may_connect(None, "anything"));
}

#[test]
fn rules_are_found_by_their_users(rt: HostRuntime) {
    let alloc = rt.alloc();
    let index = RuleIndex::of(alloc, rules(&rt, alloc)).expect(&rt, "memory");
    let ann = Some(text(&rt, alloc, "ann"));
    let bob = Some(text(&rt, alloc, "bob"));
    let carl = Some(text(&rt, alloc, "carl"));
    assert!(&rt; index.may(&ann, "ann-1", Request::Write("sensors/roof/temperature")));
    assert!(&rt; !index.may(&ann, "ann-1", Request::Write("sensors/roof/humidity")));
    assert!(&rt; index.may(&ann, "ann-1", Request::Read("sensors")));
    assert!(&rt; !index.may(&ann, "ann-1", Request::Read("sensors/secret/a")));
    assert!(&rt; index.may(&ann, "ann-1", Request::Write("users/ann/a")));
    assert!(&rt; !index.may(&ann, "ann-1", Request::Write("users/ann/locked")));
    assert!(&rt; index.may(&ann, "ann-1", Request::Subscribe("sensors/roof/#")));
    assert!(&rt; !index.may(&ann, "ann-1", Request::Subscribe("sensors/#")));
    assert!(&rt; index.may(&None, "c", Request::Read("$SYS/broker")));
    assert!(&rt; !index.may(&carl, "c", Request::Read("$SYS/broker")));
    assert!(&rt; index.may(&carl, "c", Request::Write("clients/c/state")));
    assert!(&rt; index.may(&bob, "bob", Request::Read("sensors/secret/a")));
    assert!(&rt; index.may_connect(&ann, "ann-1"));
    assert!(&rt; !index.may_connect(&ann, "bob"));
    assert!(&rt; index.may_connect(&carl, "bob"));
}
