//! The files of stores on the operating system.

use disk_model::{FileDisk, FileFault};
use file_kinds::is_begun;
use store_files::Disks;

/// The files of the runtime. Nothing is claimed of what is there.
#[derive(Clone, Copy)]
pub struct HostDisks<'r> {
    pub rt: &'r HostRuntime,
}

impl<'r> Disks for HostDisks<'r> {
    type Store = FileDisk;

    ghost opens = { λ _ _ _. Unit {0} };

    fn open_store(&self, path: &str, only_reads: bool) -> Result<FileDisk, FileFault> {
        if only_reads {
            match FileDisk::open_to_read(self.rt, path) {
                Ok(mut disk) => {
                    if let Ok(true) = is_begun(&mut disk) {
                        return Ok(disk);
                    }
                }
                Err(FileFault::InUse) => return Err(FileFault::InUse),
                Err(FileFault::Failed) => {}
            }
        }
        FileDisk::open(self.rt, path)
    }

    fn open_to_read(&self, path: &str) -> Result<FileDisk, FileFault> {
        FileDisk::open_to_read(self.rt, path)
    }
}
