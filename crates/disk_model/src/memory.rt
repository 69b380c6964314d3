//! A disk in memory, which keeps every call.

ghost use Rattle.std.specs.Prelude.{◌≡◌, ◌≤◌, ◌<◌, ◌+◌, ◌^◌, ◌==◌, nat_le, true, false, ℕ, length, min, vec_len, vec_capacity, is_err, IfOk, IfErr, IsErr, OnOk, OnErr, MatchResult};
ghost use Rattle.std.specs.Option.{SomeIff};
ghost use Rattle.disk_model.specs.Image.{IsLength, IsOutcome, with_write, with_cut};
ghost use Rattle.disk_model.specs.Disk.{empty_disk, next_state, spliced_bytes, last_count, after_write, after_cut, after_sync, Writes, Cuts, Syncs, Gives, Counts};
ghost use Rattle.disk_model.specs.Crash.{CanCrash, open_count, filled_bytes, after_crash};
ghost use Rattle.disk_model.specs.Memory.{state_after};
ghost use Rattle.disk_model.specs.CrashImage.{image_of};

use crate::disk::Disk;
use crate::fault::DiskFault;
use crate::image::CrashImage;
use crate::plan::{Plan, next_call};
use std::alloc::{AllocError, Global};

/// A call that may change what reads give or what a crash leaves, with its bytes.
#[derive(Debug, Drop)]
pub enum Call {
    Written(u64, Vec<u8>),
    TornWrite(u64, Vec<u8>),
    Cut(u64),
    TornCut(u64),
    Synced,
    Crashed(Vec<u8>),
}

/// A file in memory, for tests of what stands on a disk. It is honest. A call fails if it was set to fail: what reads give
/// stays, but a crash may leave a write or a cut done in part. Or it fails if there is no memory for it, and then nothing
/// is done.
///
/// It keeps every call that changes something, with its bytes, so that what a crash may leave is known at each moment.
#[derive(Debug, Drop)]
pub struct MemDisk {
    alloc: Global,
    bytes: Vec<u8>,
    image: CrashImage,
    calls: Vec<Call>,
    failures: u64,
    plan: Plan,
    ghost reads: { bytes.items ≡ (state_after calls.items).read },
    ghost leaves: { image_of image ≡ (state_after calls.items).now },
    ghost sound: { IsOutcome (state_after calls.items).now (state_after calls.items).read },
}

// Puts bytes in place of those from a place on.
fn splice(old: &mut Vec<u8>, at: usize, bytes: &[u8])
    requires within { at ≤ vec_len old.old }
    requires room { vec_len old.old + length bytes.now ≤ vec_capacity old.old }
    ensures { old.new.items ≡ spliced_bytes at bytes.now old.old.items }
{
    let (over, behind) = bytes.split_at(bytes.len().min(old.len() - at));
    old.extend_from_slice(behind).unwrap();
    old[at..at + over.len()].copy_from_slice(over);
}

impl MemDisk {
    ghost use Rattle.disk_model.specs.MemDisk.{state_of, failures_of, is_told};

    /// An empty file with nothing unsynced. No call is told to fail.
    pub fn new(alloc: Global) -> Self
        ensures state { state_of result ≡ empty_disk }
        ensures failures { failures_of result ≡ 0 }
        ensures told { (n : ℕ) → is_told result n ≡ false }
    {
        MemDisk {
            alloc,
            bytes: Vec::new(alloc),
            image: CrashImage::empty(alloc),
            calls: Vec::new(alloc),
            failures: 0,
            plan: Plan::Never,
        }
    }

    /// Tells the nth call from now to fail, counted from 1, and no other. `failures` is no such call.
    pub fn fail_at(&mut self, n: u64)
        ensures state { state_of self.new ≡ state_of self.old }
        ensures failures { failures_of self.new ≡ failures_of self.old }
        ensures told { (k : ℕ) → is_told self.new k ≡ (k == n) }
    {
        self.plan = Plan::At(n);
    }

    /// Tells the nth call from now, counted from 1, and all later ones to fail.
    pub fn stop_at(&mut self, n: u64)
        ensures state { state_of self.new ≡ state_of self.old }
        ensures failures { failures_of self.new ≡ failures_of self.old }
        ensures told { (k : ℕ) → is_told self.new k ≡ nat_le n k }
    {
        self.plan = Plan::From(n);
    }

    /// How many places below a length are open: a crash may leave any bytes there. None if it can't leave that length.
    /// It takes no memory.
    pub fn open_bytes(&self, len: u64) -> Option<u64>
        ensures { SomeIff result (IsLength (state_of self.now).now len) (open_count (state_of self.now).now 0 len) }
    {
        self.image.open_bytes(len)
    }

    /// A crash that leaves `len` bytes: the open ones from the fill, in rising order, the others as they were at the
    /// last sync. No call is told to fail any more.
    ///
    /// `Err` gives the disk as it was: if a crash can't leave that length, the fill has too few bytes, or memory is
    /// refused.
    pub fn crash(self, len: u64, fill: &[u8]) -> Result<MemDisk, MemDisk>
        ensures crashed { IfOk result (λ disk. CanCrash (state_of self).now len fill.now
            × (state_of disk ≡ after_crash (filled_bytes (state_of self).now 0 len fill.now) (state_of self))) }
        ensures outcome { IfOk result (λ disk. IsOutcome (state_of self).now (state_of disk).read) }
        ensures failures { MatchResult result (λ disk. failures_of disk ≡ failures_of self) (λ disk. failures_of disk ≡ failures_of self) }
        ensures told { MatchResult result (λ disk. (n : ℕ) → is_told disk n ≡ false) (λ disk. (n : ℕ) → is_told disk n ≡ is_told self n) }
        ensures err { IfErr result (λ disk. state_of disk ≡ state_of self) }
    {
        let mut disk = self;
        match disk.image.left(disk.alloc, len, fill) {
            Ok(Some(bytes)) => match disk.restart(bytes) {
                Ok(()) => Ok(disk),
                Err(_) => Err(disk),
            },
            _ => Err(disk),
        }
    }
}

impl MemDisk {
    ghost use Rattle.disk_model.specs.MemDisk.{state_of, failures_of, is_told, IsOneCallOn};

    // Whether this call is told to fail.
    fn fails(&mut self) -> bool
        ensures told { result ≡ is_told self.old 1 }
        ensures later { IsOneCallOn self.old self.new }
        ensures state { state_of self.new ≡ state_of self.old }
        ensures failures { failures_of self.new ≡ failures_of self.old }
    {
        let (fails, later) = next_call(self.plan);
        self.plan = later;
        fails
    }

    // Counts a call that failed.
    fn fault(&mut self) -> DiskFault
        ensures plan { self.new.plan ≡ self.old.plan }
        ensures state { state_of self.new ≡ state_of self.old }
        ensures failures { failures_of self.new ≡ min (failures_of self.old + 1) last_count }
    {
        self.failures = self.failures.saturating_add(1);
        DiskFault::Failed
    }

    fn write(&mut self, pos: u64, bytes: &[u8]) -> Result<(), AllocError>
        requires { pos ≤ length (state_of self.old).read }
        ensures plan { self.new.plan ≡ self.old.plan }
        ensures failures { failures_of self.new ≡ failures_of self.old }
        ensures ok { OnOk result (state_of self.new ≡ after_write pos bytes.now (state_of self.old)) }
        ensures err { OnErr result (state_of self.new ≡ state_of self.old) }
    {
        let kept = bytes.to_vec(self.alloc)?;
        self.bytes.reserve(bytes.len())?;
        self.image.make_room()?;
        self.calls.push(Call::Written(pos, kept))?;
        splice(&mut self.bytes, pos as usize, bytes);
        self.image.note_write(pos, bytes.len() as u64);
        Ok(())
    }

    // A write that fails with nothing done, but of which that isn't known.
    fn tear_write(&mut self, pos: u64, bytes: &[u8]) -> Result<(), AllocError>
        requires { pos ≤ length (state_of self.old).read }
        ensures plan { self.new.plan ≡ self.old.plan }
        ensures failures { failures_of self.new ≡ failures_of self.old }
        ensures ok { OnOk result (state_of self.new
            ≡ next_state (state_of self.old).read (with_write pos (length bytes.now) (state_of self.old).now) (state_of self.old)) }
        ensures err { OnErr result (state_of self.new ≡ state_of self.old) }
    {
        let kept = bytes.to_vec(self.alloc)?;
        self.image.make_room()?;
        self.calls.push(Call::TornWrite(pos, kept))?;
        self.image.note_write(pos, bytes.len() as u64);
        Ok(())
    }

    fn shorten(&mut self, len: u64) -> Result<(), AllocError>
        ensures plan { self.new.plan ≡ self.old.plan }
        ensures failures { failures_of self.new ≡ failures_of self.old }
        ensures ok { OnOk result (state_of self.new ≡ after_cut len (state_of self.old)) }
        ensures err { OnErr result (state_of self.new ≡ state_of self.old) }
    {
        self.calls.push(Call::Cut(len))?;
        self.bytes.truncate(len as usize);
        self.image.note_cut(len);
        Ok(())
    }

    // A cut that fails with nothing done, but of which that isn't known.
    fn tear_cut(&mut self, len: u64) -> Result<(), AllocError>
        ensures plan { self.new.plan ≡ self.old.plan }
        ensures failures { failures_of self.new ≡ failures_of self.old }
        ensures ok { OnOk result (state_of self.new
            ≡ next_state (state_of self.old).read (with_cut len (state_of self.old).now) (state_of self.old)) }
        ensures err { OnErr result (state_of self.new ≡ state_of self.old) }
    {
        self.calls.push(Call::TornCut(len))?;
        self.image.note_cut(len);
        Ok(())
    }

    fn settle(&mut self) -> Result<(), AllocError>
        ensures plan { self.new.plan ≡ self.old.plan }
        ensures failures { failures_of self.new ≡ failures_of self.old }
        ensures ok { OnOk result (state_of self.new ≡ after_sync (state_of self.old)) }
        ensures err { OnErr result (state_of self.new ≡ state_of self.old) }
    {
        let image = CrashImage::settled(self.alloc, &self.bytes)?;
        self.calls.push(Call::Synced)?;
        self.image = image;
        Ok(())
    }

    // A crash that left these bytes.
    fn restart(&mut self, bytes: Vec<u8>) -> Result<(), AllocError>
        ensures failures { failures_of self.new ≡ failures_of self.old }
        ensures ok { OnOk result (state_of self.new ≡ after_crash bytes.items (state_of self.old)) }
        ensures told { OnOk result ((n : ℕ) → is_told self.new n ≡ false) }
        ensures err { OnErr result (state_of self.new ≡ state_of self.old) }
        ensures told_as_before { OnErr result ((n : ℕ) → is_told self.new n ≡ is_told self.old n) }
    {
        let image = CrashImage::settled(self.alloc, &bytes)?;
        let kept = bytes.to_vec(self.alloc)?;
        self.calls.push(Call::Crashed(kept))?;
        self.bytes = bytes;
        self.image = image;
        self.plan = Plan::Never;
        Ok(())
    }
}

impl Disk for MemDisk {
    ghost use Rattle.disk_model.specs.MemDisk.{state_of, failures_of, is_told, IsOneCallOn};

    ghost state = { state_of };

    ghost honest = { λ _. Unit {0} };

    ghost failures = { failures_of };

    ghost told_to_fail = { λ disk. is_told disk 1 ≡ true };

    ghost may_stay = { λ disk h. disk.sound };

    // It fails only if it was set to fail.
    fn len(&mut self) -> Result<u64, DiskFault>
        ensures counted { Counts result (failures_of self.old) (failures_of self.new) }
        ensures same { state_of self.new ≡ state_of self.old }
        ensures length { IfOk result (λ n. n ≡ length (state_of self.old).read) }
        ensures told { is_err result ≡ is_told self.old 1 }
        ensures later { IsOneCallOn self.old self.new }
    {
        if self.fails() {
            return Err(self.fault());
        }
        Ok(self.bytes.len() as u64)
    }

    // It fails only if it was set to fail.
    fn read_at(&mut self, pos: u64, buf: &mut [u8]) -> Result<usize, DiskFault>
        ensures counted { Counts result (failures_of self.old) (failures_of self.new) }
        ensures fits { IfOk result (λ n. n ≤ length buf.old) }
        ensures same { state_of self.new ≡ state_of self.old }
        ensures bytes { IfOk result (Gives (state_of self.old).read pos buf.old buf.new) }
        ensures told { is_err result ≡ is_told self.old 1 }
        ensures later { IsOneCallOn self.old self.new }
    {
        if self.fails() {
            return Err(self.fault());
        }
        if pos >= self.bytes.len() as u64 {
            return Ok(0);
        }
        let rest = &self.bytes[pos as usize..];
        let count = rest.len().min(buf.len());
        buf[..count].copy_from_slice(&rest[..count]);
        Ok(count)
    }

    // One that is told to fail leaves what reads give; one that finds no memory does nothing.
    fn write_at(&mut self, pos: u64, bytes: &[u8]) -> Result<(), DiskFault>
        requires { pos ≤ length (state_of self.old).read }
        ensures counted { Counts result (failures_of self.old) (failures_of self.new) }
        ensures written { Writes pos bytes.now result (state_of self.old) (state_of self.new) }
        ensures reads { OnErr result ((state_of self.new).read ≡ (state_of self.old).read) }
        ensures no_memory { is_told self.old 1 ≡ false → OnErr result (state_of self.new ≡ state_of self.old) }
        ensures told { is_told self.old 1 ≡ true → IsErr result }
        ensures later { IsOneCallOn self.old self.new }
    {
        if self.fails() {
            let _ = self.tear_write(pos, bytes);
            return Err(self.fault());
        }
        match self.write(pos, bytes) {
            Ok(()) => Ok(()),
            Err(_) => Err(self.fault()),
        }
    }

    fn sync(&mut self) -> Result<(), DiskFault>
        ensures counted { Counts result (failures_of self.old) (failures_of self.new) }
        ensures synced { Syncs result (state_of self.old) (state_of self.new) }
        ensures told { is_told self.old 1 ≡ true → IsErr result }
        ensures later { IsOneCallOn self.old self.new }
    {
        if self.fails() {
            return Err(self.fault());
        }
        match self.settle() {
            Ok(()) => Ok(()),
            Err(_) => Err(self.fault()),
        }
    }

    // One that is told to fail leaves what reads give; one that finds no memory does nothing.
    fn cut(&mut self, len: u64) -> Result<(), DiskFault>
        requires { len ≤ length (state_of self.old).read }
        ensures counted { Counts result (failures_of self.old) (failures_of self.new) }
        ensures cut { Cuts len result (state_of self.old) (state_of self.new) }
        ensures reads { OnErr result ((state_of self.new).read ≡ (state_of self.old).read) }
        ensures no_memory { is_told self.old 1 ≡ false → OnErr result (state_of self.new ≡ state_of self.old) }
        ensures told { is_told self.old 1 ≡ true → IsErr result }
        ensures later { IsOneCallOn self.old self.new }
    {
        if self.fails() {
            let _ = self.tear_cut(len);
            return Err(self.fault());
        }
        match self.shorten(len) {
            Ok(()) => Ok(()),
            Err(_) => Err(self.fault()),
        }
    }

    fn failures(&self) -> u64 {
        self.failures
    }
}
