//! The files of a feed that names are read from.

ghost use Rattle.std.specs.Prelude.{IfOk};
ghost use Rattle.feed_names.specs.Texts.{IsSheetOf};

use gtfs_text::{Sheet, SheetFault};
use std::alloc::{AllocError, Global};
use std::io::ErrorKind;
use std::{format, fs};

// The bytes of the file of that name in the folder: none if it can't be read. It fails only if memory runs out.
fn bytes_of(
    rt: &HostRuntime,
    alloc: Global,
    folder: &str,
    name: &str,
) -> Result<Option<Vec<u8>>, AllocError> {
    let path = format!(in alloc; "{folder}/{name}")?;
    match fs::read(rt, path.as_str()) {
        Ok(bytes) => Ok(Some(bytes)),
        Err(error) => match error.kind() {
            ErrorKind::OutOfMemory => Err(AllocError),
            _ => Ok(None),
        },
    }
}

/// The sheet of a file's bytes, none if one of its records isn't UTF-8. It fails only if memory runs out.
pub fn sheet_of(alloc: Global, bytes: Vec<u8>) -> Result<Option<Sheet>, AllocError>
    ensures { IfOk result (IsSheetOf bytes.items) }
{
    match Sheet::read(alloc, bytes) {
        Ok(sheet) => Ok(Some(sheet)),
        Err(SheetFault::BadRecord(_)) => Ok(None),
        Err(SheetFault::Memory) => Err(AllocError),
    }
}

/// The sheet of the file of that name in a feed's folder; none if it isn't there, can't be read, or has a record that isn't UTF-8. That is
/// no fault here, and ids stand for names. It fails only if memory runs out.
pub fn open_names(
    rt: &HostRuntime,
    alloc: Global,
    folder: &str,
    name: &str,
) -> Result<Option<Sheet>, AllocError> {
    match bytes_of(rt, alloc, folder, name)? {
        Some(bytes) => sheet_of(alloc, bytes),
        None => Ok(None),
    }
}
