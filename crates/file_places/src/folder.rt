//! Folders that aren't there.

use shown_ids::Shown;
use std::alloc::{AllocError, Global};
use std::io::ErrorKind;
use std::{format, fs};

// The line of a folder that the system reports nothing of.
fn error_line(alloc: Global, folder: &str, kind: ErrorKind) -> Result<String, AllocError> {
    match kind {
        ErrorKind::NotFound => format!(in alloc; "There is no folder \"{}\".\n", Shown(folder)),
        ErrorKind::OutOfMemory => Err(AllocError),
        _ => Ok(String::new(alloc)),
    }
}

/// The line of a folder that isn't there, or is a file: nothing of any other. It fails only if memory runs out.
pub fn folder_hint(rt: &HostRuntime, alloc: Global, folder: &str) -> Result<String, AllocError> {
    match fs::metadata(rt, folder) {
        Ok(found) if found.is_dir() => Ok(String::new(alloc)),
        Ok(_) => format!(in alloc;
            "\"{}\" is a file: unzip a zipped feed, and name the folder.\n",
            Shown(folder)
        ),
        Err(error) => error_line(alloc, folder, error.kind()),
    }
}
