//! What a crash may leave, kept as bytes and numbers.

ghost use Rattle.std.specs.Prelude.{◌≡◌, ◌≤◌, ◌<◌, ◌+◌, ◌^◌, [], ℕ, length, IfOk, OnOk, MatchOption, vec_len, vec_capacity};
ghost use Rattle.std.specs.Option.{SomeIff};
ghost use Rattle.disk_model.specs.Image.{IsLength, settled_image, with_write, with_cut};
ghost use Rattle.disk_model.specs.Crash.{CanCrash, is_covered, is_open, open_count, filled_bytes};

use std::alloc::{AllocError, Global};

/// The file as it was at the last sync, the least and the greatest length since, and the ranges written since, the oldest
/// first, each by its first place and its number of bytes.
#[derive(Debug, Drop)]
pub struct CrashImage {
    synced: Vec<u8>,
    least: u64,
    greatest: u64,
    ranges: Vec<(u64, u64)>,
    ghost reached: { least ≤ vec_len synced },
}

impl CrashImage {
    ghost use Rattle.disk_model.specs.CrashImage.{image_of, HasRoom};

    // After a sync of these bytes.
    pub fn settled(alloc: Global, bytes: &[u8]) -> Result<CrashImage, AllocError>
        ensures { IfOk result (λ image. image_of image ≡ settled_image bytes.now) }
    {
        let synced = bytes.to_vec(alloc)?;
        let ranges = Vec::new(alloc);
        let len = bytes.len() as u64;
        Ok(CrashImage {
            synced,
            least: len,
            greatest: len,
            ranges,
        })
    }

    // Before the first call.
    pub fn empty(alloc: Global) -> CrashImage
        ensures { image_of result ≡ settled_image [] }
    {
        CrashImage {
            synced: Vec::new(alloc),
            least: 0,
            greatest: 0,
            ranges: Vec::new(alloc),
        }
    }

    // Takes the memory that one write needs.
    pub fn make_room(&mut self) -> Result<(), AllocError>
        ensures same { image_of self.new ≡ image_of self.old }
        ensures room { OnOk result (HasRoom self.new) }
    {
        self.ranges.reserve(1)
    }

    // A write, done or done in part.
    pub fn note_write(&mut self, at: u64, count: u64)
        requires room { HasRoom self.old }
        requires fits { at + count < 2 ^ 64 }
        ensures { image_of self.new ≡ with_write at count (image_of self.old) }
    {
        self.ranges.push((at, count)).unwrap();
        self.greatest = self.greatest.max(at + count);
    }

    // A cut, done or done in part.
    pub fn note_cut(&mut self, len: u64)
        ensures { image_of self.new ≡ with_cut len (image_of self.old) }
    {
        self.least = self.least.min(len);
    }

    // Whether the place was written since the last sync.
    fn is_covered(&self, place: u64) -> bool
        ensures { result ≡ is_covered place (image_of self.now).ranges }
    {
        self.ranges
            .iter()
            .any(|range| range.0 <= place && place - range.0 < range.1)
    }

    // Whether a crash may leave any byte at this place.
    fn is_open(&self, place: u64) -> bool
        ensures { result ≡ is_open (image_of self.now) place }
    {
        self.least <= place || self.is_covered(place)
    }

    // How many places below a length are open; none if a crash can't leave that length.
    pub fn open_bytes(&self, len: u64) -> Option<u64>
        ensures { SomeIff result (IsLength (image_of self.now) len) (open_count (image_of self.now) 0 len) }
    {
        if len < self.least || self.greatest < len {
            return None;
        }
        let mut open = 0;
        for place in 0..len {
            if self.is_open(place) {
                open += 1;
            }
        }
        Some(open)
    }

    // The bytes that a crash leaves, of that length, the open ones from the fill in rising order. None if it can't
    // leave that length or the fill is too short.
    pub fn left(&self, alloc: Global, len: u64, fill: &[u8]) -> Result<Option<Vec<u8>>, AllocError>
        ensures { IfOk result (λ left. MatchOption left (¬ CanCrash (image_of self.now) len fill.now)
            (λ bytes. CanCrash (image_of self.now) len fill.now × (bytes.items ≡ filled_bytes (image_of self.now) 0 len fill.now))) }
    {
        match self.open_bytes(len) {
            Some(open) if open <= fill.len() as u64 => Ok(Some(self.fill(alloc, len, fill)?)),
            _ => Ok(None),
        }
    }

    fn fill(&self, alloc: Global, len: u64, fill: &[u8]) -> Result<Vec<u8>, AllocError>
        requires { CanCrash (image_of self.now) len fill.now }
        ensures { IfOk result (λ bytes. bytes.items ≡ filled_bytes (image_of self.now) 0 len fill.now) }
    {
        let mut bytes = Vec::new(alloc);
        let mut used = 0;
        for place in 0..len {
            if self.is_open(place) {
                bytes.push(fill[used])?;
                used += 1;
            } else {
                bytes.push(self.synced[place as usize])?;
            }
        }
        Ok(bytes)
    }
}
