//! What every disk promises.

ghost use Rattle.std.specs.Prelude.{◌≡◌, ◌≤◌, ◌↔◌, ℕ, length, IfOk, IsErr};
ghost use Rattle.disk_model.specs.Image.{IsOutcome};
ghost use Rattle.disk_model.specs.Disk.{State, Writes, Cuts, Syncs, Gives, Counts};

use crate::fault::DiskFault;

/// One file, read and written by places, which are counted in bytes from 0. A crash may come at any moment, inside a
/// call too.
///
/// What a call does is promised of a disk that is honest. On any disk a call that failed is counted, and no other, and one
/// that is told to fail fails.
pub trait Disk {
    /// What reads give, and what a crash may leave, now and at each earlier moment.
    ghost state: { Self → State };

    /// The disk does as it says.
    ghost honest: { Self → Type 0 };

    /// How many calls have failed.
    ghost failures: { Self → ℕ };

    /// The next call is told to fail.
    ghost told_to_fail: { Self → Type 0 };

    /// The length of the file, in bytes. A fault changes nothing.
    fn len(&mut self) -> Result<u64, DiskFault>
        ensures counted { Counts result (failures self.old) (failures self.new) }
        ensures told { told_to_fail self.old → IsErr result }
        ensures honest { honest self.old ↔ honest self.new }
        ensures same { honest self.old → state self.new ≡ state self.old }
        ensures length { honest self.old → IfOk result (λ n. n ≡ length (state self.old).read) };

    /// Reads some of the bytes from a place on into the front of the buffer, and says how many. Of an honest disk a
    /// buffer that isn't empty gets none only at the end of the file. What the rest of the buffer holds is left open;
    /// after a fault the whole buffer, and the file is as before.
    fn read_at(&mut self, pos: u64, buf: &mut [u8]) -> Result<usize, DiskFault>
        ensures counted { Counts result (failures self.old) (failures self.new) }
        ensures told { told_to_fail self.old → IsErr result }
        ensures honest { honest self.old ↔ honest self.new }
        ensures fits { IfOk result (λ n. n ≤ length buf.old) }
        ensures same { honest self.old → state self.new ≡ state self.old }
        ensures bytes { honest self.old → IfOk result (Gives (state self.old).read pos buf.old buf.new) };

    /// Writes all of the bytes from a place on, which is at most the end of the file: over what is there, and past the
    /// end. Until the next sync a crash may leave any bytes in their place. A write that failed was done in part, in any
    /// way, or not at all.
    fn write_at(&mut self, pos: u64, bytes: &[u8]) -> Result<(), DiskFault>
        requires { honest self.old → pos ≤ length (state self.old).read }
        ensures counted { Counts result (failures self.old) (failures self.new) }
        ensures told { told_to_fail self.old → IsErr result }
        ensures honest { honest self.old ↔ honest self.new }
        ensures written { honest self.old → Writes pos bytes.now result (state self.old) (state self.new) };

    /// Brings to the disk what was written and cut: after it a crash leaves what reads give, until the next write or cut.
    /// A fault changes nothing.
    fn sync(&mut self) -> Result<(), DiskFault>
        ensures counted { Counts result (failures self.old) (failures self.new) }
        ensures told { told_to_fail self.old → IsErr result }
        ensures honest { honest self.old ↔ honest self.new }
        ensures synced { honest self.old → Syncs result (state self.old) (state self.new) };

    /// Cuts the file to a length, in bytes, which is at most the one that it has. A cut that failed was done in part, in
    /// any way, or not at all.
    fn cut(&mut self, len: u64) -> Result<(), DiskFault>
        requires { honest self.old → len ≤ length (state self.old).read }
        ensures counted { Counts result (failures self.old) (failures self.new) }
        ensures told { told_to_fail self.old → IsErr result }
        ensures honest { honest self.old ↔ honest self.new }
        ensures cut { honest self.old → Cuts len result (state self.old) (state self.new) };

    /// How many calls have failed so far. At 2^64 - 1 the count stays.
    fn failures(&self) -> u64
        ensures { result ≡ failures self.now };

    /// What reads give is among what a crash may leave.
    ghost may_stay: { (disk : Self) → honest disk → IsOutcome (state disk).now (state disk).read };
}
