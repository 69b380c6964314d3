//! A disk that isn't there.

ghost use Rattle.std.specs.Prelude.{◌≡◌, ◌+◌, min};
ghost use Rattle.disk_model.specs.Disk.{empty_disk, last_count};

use disk_model::{Disk, DiskFault};

/// A disk of which each call fails.
#[derive(Drop)]
pub struct Nowhere {
    failures: u64,
}

impl Nowhere {
    /// No call of it was made.
    pub fn new() -> Nowhere {
        Nowhere { failures: 0 }
    }

    // The fault of one more call.
    fn fault(&mut self) -> DiskFault
        ensures { self.new.failures ≡ min (self.old.failures + 1) last_count }
    {
        self.failures = self.failures.saturating_add(1);
        DiskFault::Failed
    }
}

impl Disk for Nowhere {
    ghost state = { λ _. empty_disk };

    ghost honest = { λ _. ⊥ };

    ghost failures = { λ disk. disk.failures };

    ghost told_to_fail = { λ _. Unit {0} };

    fn len(&mut self) -> Result<u64, DiskFault> {
        Err(self.fault())
    }

    fn read_at(&mut self, _pos: u64, _buf: &mut [u8]) -> Result<usize, DiskFault> {
        Err(self.fault())
    }

    fn write_at(&mut self, _pos: u64, _bytes: &[u8]) -> Result<(), DiskFault> {
        Err(self.fault())
    }

    fn sync(&mut self) -> Result<(), DiskFault> {
        Err(self.fault())
    }

    fn cut(&mut self, _len: u64) -> Result<(), DiskFault> {
        Err(self.fault())
    }

    fn failures(&self) -> u64 {
        self.failures
    }

    ghost may_stay = { λ disk honest. absurd honest };
}
