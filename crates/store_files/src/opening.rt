//! Opens the file of a store.

ghost use Rattle.std.specs.Prelude.{◌≡◌, IfOk, IfErr};
ghost use Rattle.store_files.specs.Disks.{disks_of};
ghost use Rattle.store_files.specs.Files.{IsKeptOut, IsNoticed, IsReady, of_file};
ghost use Rattle.store_terms.specs.Stores.{form_over};

use crate::disks::Disks;
use disk_model::{Disk, FileFault, ReadFault};
use faults::Fault;
use feed_basis::Basis;
use file_kinds::{FileKind, file_kind};
use shown_ids::Shown;
use std::alloc::Global;
use std::io::Write;
use store_faults::RecoverFault;
use streams::Stream;
use timetable::Rides;

// Why a file isn't opened, as the program prints it.
fn file_fault<'a>(fault: FileFault) -> Fault<'a>
    ensures { result ≡ of_file fault }
{
    match fault {
        FileFault::InUse => Fault::StoreInUse,
        FileFault::Failed => Fault::Store(RecoverFault::Device),
    }
}

/// How the file of a store is opened.
#[derive(Clone, Copy)]
pub enum Access {
    /// It is made if it isn't there. To read only, it may be opened beside others that read.
    Made { only_reads: bool },
    /// It is there, and is only read.
    There,
}

// Opens the file as a disk.
fn open_disk<D: Disks>(disks: &D, path: &str, access: Access) -> Result<D::Store, FileFault>
    ensures { D.opens disks.now path.now result }
{
    match access {
        Access::Made { only_reads } => disks.open_store(path, only_reads),
        Access::There => disks.open_to_read(path),
    }
}

/// The file of a store, and what it is for: the timetable of the basis, and journeys of at most `rides` rides.
#[derive(Clone, Copy)]
pub struct StoreFile<'a> {
    pub path: &'a str,
    pub basis: &'a Basis,
    pub rides: Rides,
}

/// The disk of a file in which a store may be opened.
pub struct Ready<D: Disk> {
    pub disk: D,
    /// The file holds no store yet: opening one begins it.
    pub is_new: bool,
}

/// Opens the file as a disk, and looks at it. It gives the disk if a store of what the file is for may be opened there. Any other file is
/// left as it is. The disk comes back with each fault, if there is one.
pub fn open_ready<D: Disks>(
    alloc: Global,
    disks: &D,
    file: &StoreFile<'_>,
    access: Access,
) -> Result<Ready<D::Store>, (Fault<'static>, Option<D::Store>)>
    ensures ready { IfOk result (λ ready. IsReady (disks_of (D.opens disks.now) D.Store.honest D.Store.state D.Store.failures)
        (form_over file.now.basis.now file.now.rides) file.now.path.now ready.disk ready.is_new) }
    ensures kept_out { IfErr result (λ e. IsKeptOut (disks_of (D.opens disks.now) D.Store.honest D.Store.state D.Store.failures)
        (form_over file.now.basis.now file.now.rides) file.now.path.now e.0 e.1) }
{
    let mut disk = match open_disk(disks, file.path, access) {
        Ok(disk) => disk,
        Err(fault) => return Err((file_fault(fault), None)),
    };
    match file_kind(alloc, &mut disk, file.basis.timetable(), file.rides) {
        Ok(FileKind::New) => Ok(Ready { disk, is_new: true }),
        Ok(FileKind::Old) => Ok(Ready {
            disk,
            is_new: false,
        }),
        Ok(FileKind::GateDamaged) => Err((Fault::GateDamaged, Some(disk))),
        Ok(FileKind::Foreign) => Err((Fault::Store(RecoverFault::NotAStore), Some(disk))),
        Err(ReadFault::Failed) => Err((Fault::Store(RecoverFault::Device), Some(disk))),
        Err(ReadFault::Memory) => Err((Fault::Memory, Some(disk))),
    }
}

/// Says on standard error that a store is begun in the file of that path, if it holds none yet.
pub fn say_new<E: Write + Drop>(path: &str, is_new: bool, err: &mut Stream<E>)
    ensures { IsNoticed path.now is_new err.old err.new }
{
    if is_new {
        err.say(format_args!("tp: a new store is begun in {}\n", Shown(path)));
    }
}
