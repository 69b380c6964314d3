//! A file of the operating system as a disk.

ghost use Rattle.std.specs.Prelude.{◌≡◌, ◌+◌, min, IfOk};
ghost use Rattle.disk_model.specs.Disk.{last_count};
ghost use Rattle.file_premise.specs.Premise.{granted_gives};
ghost use Rattle.disk_model.specs.Image.{IsOutcome};
ghost use Rattle.disk_model.specs.File.{failures_in, file_state, IsHonestFile};

use crate::disk::Disk;
use crate::fault::{DiskFault, FileFault};
use std::fs::{File, OpenOptions, TryLockError};
use std::io;
use std::os::unix::fs::FileExt;
use std::rt::Files;

/// A file of the operating system.
///
/// No contract can say what such a file holds. So it is proved only that each call that failed is counted and that a read says no
/// more bytes than its buffer has. That the file does as an honest disk does is a premise, `IsHonestFile`. It says that a read gives what
/// was written last, and that after `sync` the bytes and the length stand through a crash. No proof can open that premise, and nothing
/// shows it. If a reader grants it, each clause that begins with `honest` holds of the file, with some state that no clause names.
///
/// A second process that writes the file would break that. So a disk that writes holds the system's exclusive lock of its
/// file, and disks that only read share one. No disk writes while another has the file open. The system drops the lock
/// when the disk is dropped and when its process ends, in whatever way: a crash leaves no lock behind. The lock binds only
/// those that ask for it. A file on a network share may break the premise too, and so may a drive that answers before it has written.
/// On a full disk a write fails and may have been done in part, as any write that fails.
///
/// Opening a file brings its name to the disk too, so that a crash can't lose a file that was just made. If the path is a link, that is the
/// name of the link.
#[derive(Drop)]
pub struct FileDisk {
    file: File,
    failures: u64,
}

// The folder in which a file of that path lies.
fn folder_of(path: &str) -> &str {
    match path.rsplit_once('/') {
        Some(("", _)) => "/",
        Some((folder, _)) => folder,
        None => ".",
    }
}

// Brings the name of a file to the disk.
fn sync_name<R: Files<File = File>>(rt: &R, path: &str) -> io::Result<()> {
    File::open(rt, folder_of(path))?.sync_all()
}

// Why a lock wasn't given.
fn lock_fault(error: &TryLockError) -> FileFault {
    match error {
        TryLockError::WouldBlock => FileFault::InUse,
        TryLockError::Error(_) => FileFault::Failed,
    }
}

// Opens the file, locks it, and brings its name to the disk.
fn open_file<R: Files<File = File>>(rt: &R, path: &str) -> Result<File, FileFault> {
    let mut options = OpenOptions::new();
    options.read(true).write(true).create(true);
    let Ok(file) = options.open(rt, path) else {
        return Err(FileFault::Failed);
    };
    match file.try_lock() {
        Ok(()) => match sync_name(rt, path) {
            Ok(()) => Ok(file),
            Err(_) => Err(FileFault::Failed),
        },
        Err(error) => Err(lock_fault(&error)),
    }
}

// Opens the file to read it, and shares its lock with others that read.
fn open_shared<R: Files<File = File>>(rt: &R, path: &str) -> Result<File, FileFault> {
    let Ok(file) = File::open(rt, path) else {
        return Err(FileFault::Failed);
    };
    match file.try_lock_shared() {
        Ok(()) => Ok(file),
        Err(error) => Err(lock_fault(&error)),
    }
}

impl FileDisk {
    /// Opens a file for reading and writing, and makes it empty if it isn't there. The file is locked as long as the
    /// disk lives: `InUse` comes if it is open as a disk already, in this process or another. `Failed` comes if the
    /// system refuses, as for a folder or without leave to write, or if the folder that the file lies in can't be synced.
    pub fn open<R: Files<File = File>>(rt: &R, path: &str) -> Result<FileDisk, FileFault>
        ensures { IfOk result (λ disk. failures_in disk ≡ 0) }
    {
        let file = open_file(rt, path)?;
        Ok(FileDisk { file, failures: 0 })
    }

    /// Opens a file to read it only, which takes no leave to write it. Any number of disks may read a file at once. Each
    /// write and each cut fails. `InUse` comes if a disk that writes has the file open; `Failed` comes if there is no such
    /// file, or the system refuses.
    pub fn open_to_read<R: Files<File = File>>(rt: &R, path: &str) -> Result<FileDisk, FileFault>
        ensures { IfOk result (λ disk. failures_in disk ≡ 0) }
    {
        let file = open_shared(rt, path)?;
        Ok(FileDisk { file, failures: 0 })
    }

    // Counts a call that failed.
    fn fault(&mut self) -> DiskFault
        ensures counted { failures_in self.new ≡ min (failures_in self.old + 1) last_count }
        ensures file { self.new.file ≡ self.old.file }
    {
        self.failures = self.failures.saturating_add(1);
        DiskFault::Failed
    }
}

impl Disk for FileDisk {
    ghost state = { file_state };

    ghost honest = { IsHonestFile };

    ghost failures = { failures_in };

    ghost told_to_fail = { λ _. ⊥ };

    ghost may_stay = { λ disk h. granted_gives disk.file (IsOutcome (file_state disk).now (file_state disk).read) h };

    fn len(&mut self) -> Result<u64, DiskFault> {
        match self.file.metadata() {
            Ok(data) => Ok(data.len()),
            Err(_) => Err(self.fault()),
        }
    }

    fn read_at(&mut self, pos: u64, buf: &mut [u8]) -> Result<usize, DiskFault> {
        match self.file.read_at(buf, pos) {
            Ok(count) => Ok(count),
            Err(_) => Err(self.fault()),
        }
    }

    fn write_at(&mut self, pos: u64, bytes: &[u8]) -> Result<(), DiskFault> {
        match self.file.write_all_at(bytes, pos) {
            Ok(()) => Ok(()),
            Err(_) => Err(self.fault()),
        }
    }

    fn sync(&mut self) -> Result<(), DiskFault> {
        match self.file.sync_all() {
            Ok(()) => Ok(()),
            Err(_) => Err(self.fault()),
        }
    }

    fn cut(&mut self, len: u64) -> Result<(), DiskFault> {
        match self.file.set_len(len) {
            Ok(()) => Ok(()),
            Err(_) => Err(self.fault()),
        }
    }

    fn failures(&self) -> u64 {
        self.failures
    }
}
