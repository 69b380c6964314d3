//! Calls that are made one after the other, over any disk.

ghost use Rattle.std.specs.Prelude.{◌≡◌, ◌↔◌, ◌≤◌, ◌<◌, ◌+◌, ◌^◌, length, take, drop, OnOk};
ghost use Rattle.disk_model.specs.Calls.{WritesAndSyncs, CutsAndSyncs, FailsByCalls, FailsByReads};

use crate::disk::Disk;
use crate::fault::{DiskFault, ReadFault};

/// Writes the bytes from a place on, which is at most the end of the file, and brings them to the disk.
pub fn write_and_sync<D: Disk>(disk: &mut D, pos: u64, bytes: &[u8]) -> Result<(), DiskFault>
    requires { D.honest disk.old → pos ≤ length (D.state disk.old).read }
    ensures honest { D.honest disk.old ↔ D.honest disk.new }
    ensures failed { FailsByCalls result (D.failures disk.old) (D.failures disk.new) }
    ensures written { D.honest disk.old → WritesAndSyncs pos bytes.now result (D.state disk.old) (D.state disk.new) }
{
    match disk.write_at(pos, bytes) {
        Ok(()) => disk.sync(),
        Err(fault) => Err(fault),
    }
}

/// Cuts the file to a length that is at most the one that it has, and brings that to the disk.
pub fn cut_and_sync<D: Disk>(disk: &mut D, len: u64) -> Result<(), DiskFault>
    requires { D.honest disk.old → len ≤ length (D.state disk.old).read }
    ensures honest { D.honest disk.old ↔ D.honest disk.new }
    ensures failed { FailsByCalls result (D.failures disk.old) (D.failures disk.new) }
    ensures cut { D.honest disk.old → CutsAndSyncs len result (D.state disk.old) (D.state disk.new) }
{
    match disk.cut(len) {
        Ok(()) => disk.sync(),
        Err(fault) => Err(fault),
    }
}

// How many bytes are read at once.
const PIECE: usize = 4096;

/// The bytes from a place on, up to a number of them or to the end of the file, in place of what `out` has. They are read
/// piece by piece, so that no more memory is taken than the file has bytes, whatever the number says.
pub fn read_up_to<D: Disk>(
    disk: &mut D,
    pos: u64,
    count: u64,
    out: &mut Vec<u8>,
) -> Result<(), ReadFault>
    requires { pos + count < 2 ^ 64 }
    ensures honest { D.honest disk.old ↔ D.honest disk.new }
    ensures same { D.honest disk.old → D.state disk.new ≡ D.state disk.old }
    ensures bytes { D.honest disk.old → OnOk result (out.new.items ≡ take count (drop pos (D.state disk.old).read)) }
    ensures short { OnOk result (length out.new.items ≤ count) }
    ensures failed { FailsByReads result (D.failures disk.old) (D.failures disk.new) }
{
    out.clear();
    let mut piece = [0u8; PIECE];
    for _ in 0..count {
        let left = count - out.len() as u64;
        let ask = if left < PIECE as u64 {
            left as usize
        } else {
            PIECE
        };
        if ask == 0 {
            return Ok(());
        }
        let at = pos + out.len() as u64;
        let Ok(got) = disk.read_at(at, &mut piece[..ask]) else {
            return Err(ReadFault::Failed);
        };
        if got == 0 {
            return Ok(());
        }
        if out.extend_from_slice(&piece[..got]).is_err() {
            return Err(ReadFault::Memory);
        }
    }
    Ok(())
}
