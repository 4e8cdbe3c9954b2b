//! Sets of dots: a falling run, and sets of many ranges.
ghost use Rattle.std.specs.Prelude.{◌<◌};

use bench_clock::{Failure, Stopwatch, ensure};
use causal_context::{Context, Dot};
use std::alloc::Global;

const DOTS: u64 = 100_000;

fn dot(number: u64) -> Result<Dot, Failure> {
    Dot::new(1, number).ok_or(Failure::Answer)
}

fn insert(context: &mut Context, number: u64) -> Result<(), Failure> {
    let dot = dot(number)?;
    Ok(context.insert(dot)?)
}

// The dots from the greatest down, which make one range.
fn falling(rt: &HostRuntime) -> Result<(), Failure> {
    let mut context = Context::new(rt.alloc());
    let watch = Stopwatch::start(rt)?;
    for number in (1..=DOTS).rev() {
        insert(&mut context, number)?;
    }
    watch.print(rt, "contexts, falling inserts", DOTS)?;
    ensure(context.ranges().len() == 1)
}

// Each fourth dot from the first on: a range for each.
fn apart(alloc: Global, first: u64) -> Result<Context, Failure>
    requires { first < 4 }
{
    let mut context = Context::new(alloc);
    for place in 0..DOTS {
        insert(&mut context, first + 4 * place)?;
    }
    Ok(context)
}

// Whether the set has the dot is asked for each number up to the greatest.
fn look_ups(rt: &HostRuntime, context: &Context) -> Result<(), Failure> {
    let watch = Stopwatch::start(rt)?;
    let mut found = 0u64;
    for number in 1..=4 * DOTS {
        if context.contains(dot(number)?) {
            found = found.saturating_add(1);
        }
    }
    watch.print(rt, "contexts, contains in 100000 ranges", 4 * DOTS)?;
    ensure(found == DOTS)
}

// How many ranges both have.
fn joined(a: &Context, b: &Context) -> Result<usize, Failure> {
    Ok(a.joined(b)?.ranges().len())
}

fn joins(rt: &HostRuntime, a: &Context, b: &Context) -> Result<(), Failure> {
    let watch = Stopwatch::start(rt)?;
    for _ in 0..10 {
        ensure(joined(a, b)? == 200_000)?;
    }
    watch.print(rt, "contexts, join of 100000 ranges with 100000", 10)?;
    Ok(())
}

/// The figures of contexts.
pub fn run(rt: &HostRuntime) -> Result<(), Failure> {
    falling(rt)?;
    let a = apart(rt.alloc(), 1)?;
    look_ups(rt, &a)?;
    let b = apart(rt.alloc(), 3)?;
    joins(rt, &a, &b)
}
