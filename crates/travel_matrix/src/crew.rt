//! Who works rows out.

ghost use Rattle.std.specs.Prelude.{◌<◌};

use std::alloc::Global;
use std::thread::Threads;

/// Who works rows out: at most `workers` workers, each in a thread of its own.
#[derive(Drop)]
pub struct Crew<'a, R: Threads> {
    pub alloc: Global,
    pub rt: &'a R,
    pub workers: u8,
    pub ghost some: { 0 < workers },
}
