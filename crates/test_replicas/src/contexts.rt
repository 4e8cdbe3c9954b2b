//! The worked examples, and contexts beside a plain program: a rising list of dots.

use crate::values::{context, dot};
use causal_context::{Context, Dot, Joining, Lattice};
use mqtt_fields::FieldFault;
use std::alloc::Global;
use std::process::Abort;

#[test]
fn dots(rt: HostRuntime) {
    assert!(rt; Dot::new(0, 0).is_none());
    assert!(rt; Dot::new(0, 1 << 62).is_none());
    let last = Dot::new(65535, (1 << 62) - 1);
    assert_eq!(rt;
        last.map(|d| (d.node(), d.number())),
        Some((65535, 4_611_686_018_427_387_903))
    );
}

fn written(rt: &impl Abort, alloc: Global, context: &Context) -> Vec<u8> {
    let mut out = Vec::new(alloc);
    context.write(&mut out).expect(rt, "memory");
    out
}

fn is_written(rt: &impl Abort, alloc: Global, context: &Context, want: &[u8]) -> bool {
    written(rt, alloc, context).as_slice() == want && context.bytes_len() == want.len()
}

// How many bytes are read of the context's and a further one, if they give the same context.
fn read_again(rt: &impl Abort, alloc: Global, context: &Context) -> Option<usize> {
    let mut out = written(rt, alloc, context);
    out.push(9).expect(rt, "memory");
    let (again, used) = Context::read(alloc, &out).expect(rt, "a context");
    again.same(context).then_some(used)
}

#[test]
fn three_ranges(rt: HostRuntime) {
    let context = context(&rt, rt.alloc(), &[(1, 1), (1, 2), (1, 4), (0, 7)]);
    assert_eq!(rt; context.ranges().len(), 3);
    assert!(rt; !context.is_empty());
    assert!(rt; !context.contains(dot(&rt, 1, 3)));
    assert!(rt; context.contains(dot(&rt, 1, 4)));
    let greatest = [0, 1, 2].map(|node| context.greatest(node));
    assert_eq!(rt; greatest, [7, 4, 0]);
    let want = [
        0, 0, 0, 3, //
        0, 0, 0, 0, 0, 0, 0, 0, 0, 7, 0, 0, 0, 0, 0, 0, 0, 7, //
        0, 1, 0, 0, 0, 0, 0, 0, 0, 1, 0, 0, 0, 0, 0, 0, 0, 2, //
        0, 1, 0, 0, 0, 0, 0, 0, 0, 4, 0, 0, 0, 0, 0, 0, 0, 4,
    ];
    assert!(rt; is_written(&rt, rt.alloc(), &context, &want));
    assert_eq!(rt; read_again(&rt, rt.alloc(), &context), Some(58));
    assert!(rt; context.copy().expect(&rt, "memory").same(&context));
    drop(context);
}

// The dots 1 to 100,000 of node 1, the last one first.
fn falling(rt: &impl Abort, alloc: Global) -> Context {
    let mut run = Context::new(alloc);
    for number in (1..=100_000).rev() {
        run.insert(dot(rt, 1, number)).expect(rt, "memory");
    }
    run
}

// The numbers of the ranges, if there are two.
fn spans(context: &Context) -> Option<[(u64, u64); 2]> {
    match context.ranges() {
        [a, b] => Some([(a.first, a.last), (b.first, b.last)]),
        _ => None,
    }
}

fn prepared(rt: &impl Abort, a: &Context, b: &Context) -> Joining {
    match a.copy().expect(rt, "memory").prepare(b) {
        Ok(joining) => joining,
        Err(_) => rt.panic("memory"),
    }
}

// Whether `left` and `middle` join to `run`, in place and as a new context.
fn join_to(rt: &impl Abort, left: &mut Context, middle: &Context, run: &Context) -> bool {
    left.join(middle).expect(rt, "memory");
    left.same(run) && left.joined(middle).expect(rt, "memory").same(run)
}

#[test]
fn a_falling_run(rt: HostRuntime) {
    let run = falling(&rt, rt.alloc());
    let want = [
        0, 0, 0, 1, 0, 1, 0, 0, 0, 0, 0, 0, 0, 1, 0, 0, 0, 0, 0, 1, 0x86, 0xa0,
    ];
    assert!(rt; is_written(&rt, rt.alloc(), &run, &want));

    let middle = context(&rt, rt.alloc(), &[(1, 50_000)]);
    let mut left = run.minus(&middle).expect(&rt, "memory");
    assert_eq!(rt; spans(&left), Some([(1, 49_999), (50_001, 100_000)]));
    assert!(rt; left.is_below(&run));
    assert!(rt; !run.is_below(&left));
    let joining = prepared(&rt, &left, &middle);
    assert!(rt; !joining.had(dot(&rt, 1, 50_000)));
    assert!(rt; joining.had(dot(&rt, 1, 50_001)));
    assert!(rt; join_to(&rt, &mut left, &middle, &run));
    drop(joining);
    drop([run, middle, left]);
}

#[test]
fn other_spellings(rt: HostRuntime) {
    let touching = [
        0, 0, 0, 2, //
        0, 1, 0, 0, 0, 0, 0, 0, 0, 1, 0, 0, 0, 0, 0, 0, 0, 2, //
        0, 1, 0, 0, 0, 0, 0, 0, 0, 3, 0, 0, 0, 0, 0, 0, 0, 4,
    ];
    let empty = [
        0, 0, 0, 1, 0, 1, 0, 0, 0, 0, 0, 0, 0, 2, 0, 0, 0, 0, 0, 0, 0, 1,
    ];
    let zero = [
        0, 0, 0, 1, 0, 1, 0, 0, 0, 0, 0, 0, 0, 0, 0, 0, 0, 0, 0, 0, 0, 1,
    ];
    let large = [
        0, 0, 0, 1, 0, 1, 0, 0, 0, 0, 0, 0, 0, 1, 0x40, 0, 0, 0, 0, 0, 0, 0,
    ];
    let falling = [
        0, 0, 0, 2, //
        0, 1, 0, 0, 0, 0, 0, 0, 0, 1, 0, 0, 0, 0, 0, 0, 0, 1, //
        0, 0, 0, 0, 0, 0, 0, 0, 0, 1, 0, 0, 0, 0, 0, 0, 0, 1,
    ];
    let short = [
        0, 0, 0, 1, 0, 1, 0, 0, 0, 0, 0, 0, 0, 1, 0, 0, 0, 0, 0, 0, 0,
    ];
    let rows: [(&[u8], FieldFault); 7] = [
        (&touching, FieldFault::Malformed),
        (&empty, FieldFault::Malformed),
        (&zero, FieldFault::Malformed),
        (&large, FieldFault::Malformed),
        (&falling, FieldFault::Malformed),
        (&short, FieldFault::Short),
        (&[0, 0, 0], FieldFault::Short),
    ];
    for (bytes, want) in rows {
        let read = Context::read(rt.alloc(), bytes).err();
        assert_eq!(rt; read, Some(want), "{bytes:?}");
    }
}

// The plain program: a rising list of dots.
fn put_in(rt: &impl Abort, dots: &mut Vec<Dot>, dot: Dot) {
    if let Err(place) = dots.binary_search(&dot) {
        if dots.insert(place, dot).is_err() {
            rt.panic("memory");
        }
    }
}

fn plain_union(rt: &impl Abort, alloc: Global, a: &[Dot], b: &[Dot]) -> Vec<Dot> {
    let mut both = Vec::from_slice(alloc, a).expect(rt, "memory");
    for dot in b {
        put_in(rt, &mut both, *dot);
    }
    both
}

fn plain_minus(rt: &impl Abort, alloc: Global, a: &[Dot], b: &[Dot]) -> Vec<Dot> {
    let mut left = Vec::new(alloc);
    for dot in a {
        if b.binary_search(dot).is_err() {
            left.push(*dot).expect(rt, "memory");
        }
    }
    left
}

fn dots_of(rt: &impl Abort, alloc: Global, context: &Context) -> Vec<Dot> {
    let mut dots = Vec::new(alloc);
    for range in context.ranges() {
        for number in range.first..=range.last {
            dots.push(dot(rt, range.node, number)).expect(rt, "memory");
        }
    }
    dots
}

// Whether a joining that was made ready gives the joined context, or `a` again.
fn is_made_ready(rt: &impl Abort, a: &Context, b: &Context, both: &Context) -> bool {
    prepared(rt, a, b).commit().same(both) && prepared(rt, a, b).abandon().same(a)
}

// Whether what is joined, and what is left of `a` without `b`, are those of the plain program.
fn is_plain(rt: &impl Abort, alloc: Global, a: &Context, b: &Context) -> bool {
    let plain_a = dots_of(rt, alloc, a);
    let plain_b = dots_of(rt, alloc, b);
    let both = a.joined(b).expect(rt, "memory");
    let left = dots_of(rt, alloc, &a.minus(b).expect(rt, "memory"));
    let holds = dots_of(rt, alloc, &both) == plain_union(rt, alloc, &plain_a, &plain_b)
        && left == plain_minus(rt, alloc, &plain_a, &plain_b)
        && a.is_below(b) == left.is_empty()
        && a.same(b) == (plain_a == plain_b)
        && is_made_ready(rt, a, b, &both);
    drop((both, [plain_a, plain_b, left]));
    holds
}

/// Two contexts, and the dots of the first one.
#[derive(Drop)]
struct Pair {
    a: Context,
    b: Context,
    plain: Vec<Dot>,
}

impl Pair {
    fn put(&mut self, rt: &impl Abort, dot: Dot, in_a: bool) {
        if in_a {
            self.a.insert(dot).expect(rt, "memory");
            put_in(rt, &mut self.plain, dot);
        } else {
            self.b.insert(dot).expect(rt, "memory");
        }
    }

    fn is_plain(&self, rt: &impl Abort, alloc: Global) -> bool {
        dots_of(rt, alloc, &self.a) == self.plain
            && is_plain(rt, alloc, &self.a, &self.b)
            && is_plain(rt, alloc, &self.b, &self.a)
    }
}

#[test]
fn as_the_plain_program(rt: HostRuntime) {
    let mut pair = Pair {
        a: Context::new(rt.alloc()),
        b: Context::new(rt.alloc()),
        plain: Vec::new(rt.alloc()),
    };
    let mut seed: u16 = 7;
    for _ in 0..300 {
        seed = seed.wrapping_mul(1109).wrapping_add(12345);
        let dot = dot(&rt, seed / 256 % 3, u64::from(seed % 90) + 1);
        pair.put(&rt, dot, seed / 1024 % 2 == 0);
        assert!(rt; pair.is_plain(&rt, rt.alloc()));
    }
    drop(pair);
}
