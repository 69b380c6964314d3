//! How long something takes.

use std::io::Write;
use std::time::{Duration, Instant};

/// Now, by the system's clock: none if it has none.
pub fn now(rt: &HostRuntime) -> Option<Instant> {
    Instant::now(rt).ok()
}

/// Prints on standard error how long a part took that began at `start`, and how many things it was about. Gives its nanoseconds.
/// Without a clock each part takes no time.
pub fn tell(rt: &HostRuntime, name: &str, count: u64, start: Option<Instant>) -> u64 {
    let took = match (start, now(rt)) {
        (Some(start), Some(end)) => end.duration_since(start),
        _ => Duration::ZERO,
    };
    let (seconds, micros) = (took.as_secs(), took.subsec_micros());
    let _ = writeln!(rt.stderr(), "{name} {count} {seconds}.{micros:06}");
    let nanos = seconds.saturating_mul(1_000_000_000);
    nanos.saturating_add(u64::from(took.subsec_nanos()))
}
