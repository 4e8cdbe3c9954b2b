//! Moments: what a steady clock tells, and how much turns read that take long.

use crate::echo::{Echo, hub_of};
use broker_sockets::{Clock, Clocks, SteadyClock, Times};
use std::process::Abort;
use std::test::Fail;
use trial_fakes::FakeSockets;

/// The moment at which the clocks of these tests begin, in 2026.
const BEGIN: u64 = 1795000000000;

/// Two hours.
const HOURS: u64 = 7200000;

/// Clocks that tell these times, one pair after another: the system's, and the monotonic one.
#[derive(Drop)]
struct Listed<'a> {
    times: &'a [(u64, u64)],
}

impl<'a> Clocks for Listed<'a> {
    ghost reads = { λ _ _ _. Unit {0} };

    fn read(&mut self) -> Times {
        let Some((first, others)) = self.times.split_first() else {
            return Times {
                system: 0,
                monotonic: 0,
            };
        };
        self.times = others;
        Times {
            system: first.0,
            monotonic: first.1,
        }
    }
}

/// What a steady clock tells at the last of these times.
fn last_of(rt: &impl Abort, times: &[(u64, u64)]) -> u64 {
    let mut clock = SteadyClock::new(Listed { times });
    let mut told = 0;
    for _ in 0..times.len() {
        let now = clock.now();
        assert!(rt; told <= now);
        told = now;
    }
    told
}

#[test]
fn a_steady_clock_goes_on_evenly(rt: HostRuntime) -> Result<(), Fail> {
    let times = [
        (BEGIN, 7),
        (BEGIN + 10, 17),
        // the program stood still for a minute, and goes on
        (BEGIN + 60_010, 60_017),
        (BEGIN + 61_010, 61_017),
        // the system's clock is set back by two hours
        (BEGIN + 61_110 - HOURS, 61_117),
        (BEGIN + 62_110 - HOURS, 62_117),
        // and forward by four
        (BEGIN + 63_110 + HOURS, 63_117),
        // and back, but to a moment that wasn't told yet
        (BEGIN + 4_900, 64_117),
        (BEGIN + 4_910, 64_127),
    ];
    let told = [0, 10, 1260, 2510, 2610, 3610, 4860, 4900, 4910];
    for (place, since) in told.iter().enumerate() {
        let first = times.get(..=place).expect(&rt, "a time");
        assert_eq!(rt; last_of(&rt, first), BEGIN + *since, "{place}");
    }
    Ok(())
}

#[test]
fn a_lag_goes_in_four_times_its_length(rt: HostRuntime) -> Result<(), Fail> {
    let mut times = Vec::new(rt.alloc());
    times.push((BEGIN, 0)).expect(&rt, "memory");
    for second in 60..300 {
        let passed = second * 1000;
        times.push((BEGIN + passed, passed)).expect(&rt, "memory");
    }
    // it lags 58.75 seconds after the first minute, which are gone 235 seconds later
    for (second, lag) in [(60, 58_750), (61, 58_500), (294, 250), (295, 0), (299, 0)] {
        let first = times.get(..second - 58).expect(&rt, "a time");
        let system = BEGIN + second as u64 * 1000;
        let told = last_of(&rt, first).checked_add(lag).expect(&rt, "a sum");
        assert_eq!(rt; told, system, "{second}");
    }
    Ok(())
}

#[test]
fn turns_that_take_long_read_less(rt: HostRuntime) -> Result<(), Fail> {
    let alloc = rt.alloc();
    let mut network = FakeSockets::new(alloc);
    let mut hub = hub_of(&rt, alloc, &mut network, Vec::new(alloc));
    let sends = vec![in alloc; b'.'; 70000].expect(&rt, "memory");
    let end = network.client(1, &sends, 100000, 100000);
    let end = end.expect(&rt, "memory");
    let mut echo = Echo::new(alloc);
    // half of 65,536 and of that after 101 milliseconds, 512 more after 100, and what is left
    for (at, came) in [
        (0, 0),
        (101, 32768),
        (202, 49152),
        (302, 66048),
        (403, 70000),
    ] {
        assert!(rt; hub.turn(&mut network, &mut echo, at).is_ok());
        assert_eq!(rt; network.came(end).len(), came, "{at}");
    }
    Ok(())
}
