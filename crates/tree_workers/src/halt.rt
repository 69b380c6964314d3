//! The flag that says that workers are to stop.

ghost use Rattle.std.specs.Prelude.{◌≡◌, false};
ghost use Rattle.std.specs.Sync.Mutex.{mutex_guard_value};

use std::sync::{Mutex, MutexGuard, Wait};

/// A flag that says that workers are to stop. They look at it before each claim.
#[derive(Drop)]
pub struct Halt {
    flag: Mutex<bool>,
}

/// The leave to claim one source: the lock of a flag that isn't set. The flag can't be set before it is let go.
#[derive(Drop)]
pub(crate) struct Leave<'a> {
    flag: MutexGuard<'a, bool>,
    ghost unset: { mutex_guard_value flag ≡ false },
}

impl Halt {
    /// A flag that isn't set.
    pub fn new() -> Halt {
        Halt {
            flag: Mutex::new(false),
        }
    }

    /// Sets the flag: from now on no source is claimed, and those that are being built end.
    pub fn now<R: Wait>(&self, rt: &R) {
        *self.flag.lock(rt) = true;
    }

    /// The leave to claim one source; none once the flag is set.
    pub(crate) fn leave<'a, R: Wait>(&'a self, rt: &R) -> Option<Leave<'a>> {
        let flag = self.flag.lock(rt);
        if *flag {
            return None;
        }
        Some(Leave { flag })
    }
}
