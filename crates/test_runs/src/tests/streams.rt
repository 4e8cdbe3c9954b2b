//! A stream in any pieces, a packet of many filters, and many exchanges at QoS 2.

use super::check;
use std::alloc::Global;
use std::process::Abort;

const STREAM: &str = "100e00044d5154540502003c000001613106000174006f6e820700010000017400";

const ANSWERS: &str =
    "sent 0 1 200e00000b2100642200102700100000\nsent 0 1 900400010000\nsent 0 1 3106000174006f6e\nnode 0 subscriptions 1 retained 1\n";

/// A script that sends the stream in two pieces, cut after so many digits.
fn cut_after(rt: &impl Abort, alloc: Global, digits: usize) -> String {
    let (front, back) = STREAM.split_at_checked(digits).expect(rt, "a cut");
    let script = format!(in alloc;
        "nodes 1\nstart 0 0\nopen 0 1 0\nbytes 0 1 0 {front}\nbytes 0 1 0 {back}\n"
    );
    script.expect(rt, "memory")
}

#[test]
fn takes_a_stream_in_any_pieces(rt: HostRuntime) {
    for bytes in 1..33 {
        let script = cut_after(&rt, rt.alloc(), 2 * bytes);
        check(
            &rt,
            rt.alloc(),
            "a cut stream",
            script.as_str(),
            (0, ANSWERS, ""),
        );
    }
}

/// Four digits as the hexadecimal text of their characters.
fn digits(rt: &impl Abort, alloc: Global, number: u32) -> String {
    let mut text = String::new(alloc);
    for digit in [
        number / 1000 % 10,
        number / 100 % 10,
        number / 10 % 10,
        number % 10,
    ] {
        write!(&mut text, "3{digit}").expect(rt, "memory");
    }
    text
}

/// Adds to a text.
fn add(rt: &impl Abort, text: &mut String, more: &str) {
    text.push_str(more).expect(rt, "memory");
}

/// A script in which client `a` has connected, up to the last line's end.
fn connected(rt: &impl Abort, alloc: Global) -> String {
    let mut script = String::new(alloc);
    let lines = "nodes 1\nstart 0 0\nopen 0 1 0\nbytes 0 1 0 100e00044d5154540502003c00000161";
    add(rt, &mut script, lines);
    script
}

/// What is written of that.
fn accepted(rt: &impl Abort, alloc: Global) -> String {
    let mut out = String::new(alloc);
    add(rt, &mut out, "sent 0 1 200e00000b2100642200102700100000\n");
    out
}

#[test]
fn refuses_the_filter_after_a_thousand(rt: HostRuntime) {
    let alloc = rt.alloc();
    let mut script = connected(&rt, alloc);
    let mut out = accepted(&rt, alloc);
    add(&rt, &mut script, "\nbytes 0 1 0 82e236000100");
    add(&rt, &mut out, "sent 0 1 90ec07000100");
    for k in 0..1001 {
        let name = digits(&rt, alloc, k);
        write!(&mut script, "0004{name}00").expect(&rt, "memory");
        add(&rt, &mut out, if k < 1000 { "00" } else { "97" });
    }
    add(&rt, &mut script, "\n");
    add(&rt, &mut out, "\nnode 0 subscriptions 1000 retained 0\n");
    check(
        &rt,
        alloc,
        "1,001 filters",
        script.as_str(),
        (0, out.as_str(), ""),
    );
}

/// The PUBLISH of `x` at QoS 2 under a new identifier, and its PUBREC.
fn add_exchange(rt: &impl Abort, alloc: Global, script: &mut String, out: &mut String, k: u32) {
    let identifier = digits(rt, alloc, k);
    let (_, low) = identifier.split_at_checked(4).expect(rt, "digits");
    write!(script, "3407000174{low}0078").expect(rt, "memory");
    write!(out, "sent 0 1 5002{low}\n").expect(rt, "memory");
}

#[test]
fn ends_a_connection_at_its_101st_exchange(rt: HostRuntime) {
    let alloc = rt.alloc();
    let mut script = connected(&rt, alloc);
    let mut out = accepted(&rt, alloc);
    for k in 0..100 {
        add_exchange(&rt, alloc, &mut script, &mut out, k);
    }
    add(&rt, &mut script, "340700017400010078\n");
    let end = "sent 0 1 e00193\nclosed 0 1\nnode 0 subscriptions 0 retained 0\n";
    add(&rt, &mut out, end);
    check(
        &rt,
        alloc,
        "101 exchanges",
        script.as_str(),
        (0, out.as_str(), ""),
    );
}

/// The PUBLISH of `x` at QoS 1 with RETAIN to the topic of these five digits.
fn add_retained(rt: &impl Abort, alloc: Global, script: &mut String, k: u32) {
    let low = digits(rt, alloc, k % 10_000);
    let high = 0x30 + k / 10_000;
    write!(script, "330b0005{high:02x}{low}00010078").expect(rt, "memory");
}

/// A hundred thousand topics are given a message, a thousand in each piece, and then one more.
fn add_topics(rt: &impl Abort, alloc: Global, script: &mut String, out: &mut String) {
    for k in 0..100_001 {
        if k % 1_000 == 0 {
            add(rt, script, "\nbytes 0 1 0 ");
        }
        add_retained(rt, alloc, script, k);
        let answer = if k < 100_000 {
            "sent 0 1 40020001\n"
        } else {
            "sent 0 1 4003000197\n"
        };
        add(rt, out, answer);
    }
    add(rt, script, "\n");
}

#[test]
fn refuses_the_topic_after_a_hundred_thousand(rt: HostRuntime) {
    let alloc = rt.alloc();
    let mut script = connected(&rt, alloc);
    let mut out = accepted(&rt, alloc);
    add_topics(&rt, alloc, &mut script, &mut out);
    add(&rt, &mut out, "node 0 subscriptions 0 retained 100000\n");
    check(
        &rt,
        alloc,
        "100,001 topics",
        script.as_str(),
        (0, out.as_str(), ""),
    );
}
