//! Bytes that are opened as a store, and bytes that are read as one of the first version.

use super::first::HEADER;
use disk_model::{Disk, MemDisk};
use pattern_tree::PatternTree;
use recovery::{Recovered, read_v1, recover};
use sample_feed::narrowed;
use sample_store::{bytes_of, header_of, put_section};
use section_store::Version;
use std::alloc::Global;
use std::sync::Arc;
use std::test::Fail;
use store_faults::RecoverFault;
use timetable::{Rides, Timetable};
use tree_codec::encode;

/// What comes of opening bytes: the file was begun; it is as it was and has a number of trees; or it is refused for what its bytes are. A
/// fresh file that is only read has no trees.
#[derive(Clone, Copy, Debug, PartialEq, Eq)]
pub enum Answer {
    Begun,
    List(usize),
    Refused(RecoverFault),
}

/// What files are opened for: a timetable, the most rides, the version, and the header of a file of them.
#[derive(Drop)]
pub struct Opening {
    pub table: Arc<Timetable>,
    pub rides: Rides,
    pub version: Version,
    pub header: Vec<u8>,
}

// Whether the file is these open sections, a closed gate, and anything after it.
fn is_list(file: &[u8], sections: &[u8]) -> bool {
    let gate = file.strip_prefix(sections).and_then(|rest| rest.first());
    gate.is_some_and(|gate| *gate != 0xA5)
}

// Whether the file is fresh.
fn is_fresh(file: &[u8]) -> bool {
    file.len() < 15 || file.first() != Some(&0xA5)
}

// That the file was refused for what its bytes are, which are as they were.
fn refused(
    alloc: Global,
    bytes: &[u8],
    fault: RecoverFault,
    disk: MemDisk,
) -> Result<Answer, Fail> {
    if fault == RecoverFault::Device || fault == RecoverFault::Memory {
        return Err(Fail::new("the fault says nothing of the bytes"));
    }
    let mut disk = disk;
    if bytes_of(alloc, &mut disk)?.as_slice() != bytes {
        return Err(Fail::new("a refused file was changed"));
    }
    Ok(Answer::Refused(fault))
}

impl Opening {
    /// For that timetable, and at most `rides` rides.
    pub fn new(alloc: Global, table: Timetable, rides: Rides) -> Result<Self, Fail> {
        let header = header_of(alloc, &table, rides.number())?;
        Ok(Opening {
            table: Arc::new(alloc, table)?,
            rides,
            version: Version::Second,
            header,
        })
    }

    /// The same of the first version. The header is that of the sample feed's timetable for three rides.
    pub fn old(alloc: Global, table: Timetable, rides: Rides) -> Result<Self, Fail> {
        Ok(Opening {
            table: Arc::new(alloc, table)?,
            rides,
            version: Version::First,
            header: HEADER.to_vec(alloc)?,
        })
    }

    // The header and the open sections of these trees.
    fn sections(&self, alloc: Global, trees: &[PatternTree]) -> Result<Vec<u8>, Fail> {
        let mut file = self.header.to_vec(alloc)?;
        for tree in trees {
            let mut text = Vec::new(alloc);
            encode(tree, &mut text)?;
            let text = match self.version {
                Version::First => narrowed(alloc, &text)?,
                Version::Second => text,
            };
            put_section(&mut file, &text)?;
        }
        Ok(file)
    }

    // That the bytes stand for these trees.
    fn list(&self, alloc: Global, bytes: &[u8], trees: &[PatternTree]) -> Result<Answer, Fail> {
        if is_list(bytes, &self.sections(alloc, trees)?) {
            Ok(Answer::List(trees.len()))
        } else {
            Err(Fail::new("the bytes stand for another list"))
        }
    }

    // What the bytes were opened as, if the disk has `after` then.
    fn opened(
        &self,
        alloc: Global,
        before: &[u8],
        after: &[u8],
        trees: &[PatternTree],
    ) -> Result<Answer, Fail> {
        if is_fresh(before) {
            let is_begun = after.strip_prefix(self.header.as_slice()) == Some([0].as_slice());
            return if trees.is_empty() && is_begun {
                Ok(Answer::Begun)
            } else {
                Err(Fail::new("a fresh file wasn't begun"))
            };
        }
        if before != after {
            return Err(Fail::new("an opened file was changed"));
        }
        self.list(alloc, before, trees)
    }

    // What comes of opening the disk, which has these bytes.
    fn recovered(&self, alloc: Global, bytes: &[u8], disk: MemDisk) -> Result<Answer, Fail> {
        match recover(alloc, disk, &self.table, self.rides) {
            Ok(Recovered { store, trees }) => {
                let mut disk = store.into_disk();
                let after = bytes_of(alloc, &mut disk)?;
                self.opened(alloc, bytes, &after, &trees)
            }
            Err((fault, disk)) => refused(alloc, bytes, fault, disk),
        }
    }

    // What comes of reading the disk, which has these bytes, as a store of the first version.
    fn read(&self, alloc: Global, bytes: &[u8], disk: MemDisk) -> Result<Answer, Fail> {
        match read_v1(alloc, disk, &self.table, self.rides) {
            Ok((mut disk, trees)) => {
                if bytes_of(alloc, &mut disk)?.as_slice() != bytes {
                    return Err(Fail::new("a file that was read was changed"));
                }
                if is_fresh(bytes) && trees.is_empty() {
                    return Ok(Answer::List(0));
                }
                self.list(alloc, bytes, &trees)
            }
            Err((fault, disk)) => refused(alloc, bytes, fault, disk),
        }
    }

    /// What comes of opening these bytes, or of reading them as a store of the first version. It fails if an answer says nothing of them,
    /// and if they don't stand for the trees that are given.
    pub fn answer(&self, alloc: Global, bytes: &[u8]) -> Result<Answer, Fail> {
        let mut disk = MemDisk::new(alloc);
        disk.write_at(0, bytes)?;
        match self.version {
            Version::First => self.read(alloc, bytes, disk),
            Version::Second => self.recovered(alloc, bytes, disk),
        }
    }
}
