//! Where the files of stores lie.

ghost use Rattle.store_files.specs.Disks.{Opens};

use disk_model::{Disk, FileFault};

/// Opens the files of stores.
pub trait Disks {
    /// The disk of a store.
    type Store: Disk + Drop + Send;

    /// What opening a file may give.
    ghost opens: { Self → Opens Self.Store };

    /// Opens the file of a store. To read only, it may be opened beside others that read.
    fn open_store(&self, path: &str, only_reads: bool) -> Result<Self::Store, FileFault>
        ensures { opens self.now path.now result };

    /// Opens the file of a store to read it, beside others that read. A file that isn't there isn't made: that is `Failed`.
    fn open_to_read(&self, path: &str) -> Result<Self::Store, FileFault>
        ensures { opens self.now path.now result };
}
