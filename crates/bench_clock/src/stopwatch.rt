//! The time that calls take.
ghost use Rattle.std.specs.Prelude.{◌<◌, IfOk};

use std::io;
use std::time::Instant;

/// A moment, and what is printed of the time since then.
#[derive(Clone, Copy)]
pub struct Stopwatch {
    start: Instant,
}

impl Stopwatch {
    /// A stopwatch that starts now.
    pub fn start(rt: &HostRuntime) -> io::Result<Stopwatch> {
        Ok(Stopwatch {
            start: Instant::now(rt)?,
        })
    }

    // The nanoseconds since the start, at least 1.
    fn nanos(&self, rt: &HostRuntime) -> io::Result<u64>
        ensures { IfOk result (λ n. 0 < n) }
    {
        let nanos = self.start.elapsed(rt)?.as_nanos();
        Ok(u64::try_from(nanos).unwrap_or(u64::MAX).max(1))
    }

    /// Prints that so many calls were made, and their time.
    pub fn print(&self, rt: &HostRuntime, name: &str, count: u64) -> io::Result<()> {
        let nanos = self.nanos(rt)?;
        let millis = nanos / 1_000_000;
        let each = nanos / count.max(1);
        let rate = u128::from(count) * 1_000_000_000 / u128::from(nanos);
        println!(rt; "{name}: {count} in {millis} ms, {each} ns each, {rate} per second")
    }

    /// Prints that so many packets of so many bytes in all went through, and their time.
    pub fn print_bytes(
        &self,
        rt: &HostRuntime,
        name: &str,
        count: u64,
        bytes: u64,
    ) -> io::Result<()> {
        let nanos = self.nanos(rt)?;
        let millis = nanos / 1_000_000;
        let rate = u128::from(count) * 1_000_000_000 / u128::from(nanos);
        let megabytes = u128::from(bytes) * 1000 / u128::from(nanos);
        println!(rt; "{name}: {count} in {millis} ms, {rate} per second, {megabytes} MB per second")
    }
}
