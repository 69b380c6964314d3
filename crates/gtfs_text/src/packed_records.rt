//! Packed records, one after the other.

ghost use Rattle.std.specs.Prelude.{◌≡◌, ◌≤◌, ◌-◌, [], ◌∷◌, ◌++◌, drop, get_or, length, take, IfOk, OnErr, OnOk};

use std::alloc::{AllocError, Global};
use std::marker::Model;

/// Packed records, one after the other, so that all of their text stands in one piece. A `ByteRecord` of `csv` has the same, but each crate
/// that names a sheet would load the modules of `csv` and `serde` for it.
#[derive(Drop)]
pub(crate) struct PackedRecords {
    text: Vec<u8>,
    // Where each record ends in the text.
    ends: Vec<usize>,
}

impl Model for PackedRecords {
    ghost use Rattle.std.specs.Prelude.{ℕ, List, length};
    ghost use Rattle.gtfs_text.specs.Packed.{pieces, AreEnds};

    ghost Value = { List (List ℕ) };

    ghost view = { λ a. pieces 0 a.text.items a.ends.items };

    ghost invariant = { λ a. AreEnds 0 a.ends.items (length a.text.items) };
}

// A text from one place to another.
fn part(text: &[u8], start: usize, end: usize) -> &[u8]
    requires order { start ≤ end }
    requires within { end ≤ length text.now }
    ensures { result.now ≡ take (end - start) (drop start text.now) }
{
    &text[start..end]
}

impl PackedRecords {
    /// None. There is room for a text of this many bytes.
    pub fn with_capacity(alloc: Global, bytes: usize) -> Result<PackedRecords, AllocError>
        ensures { IfOk result (λ records. records ≡ []) }
    {
        Ok(PackedRecords {
            text: Vec::with_capacity(alloc, bytes)?,
            ends: Vec::new(alloc),
        })
    }

    /// Adds a record. If memory is refused, the records stay as they were.
    pub fn push(&mut self, record: &[u8]) -> Result<(), AllocError>
        ensures added { OnOk result (self.new ≡ self.old ++ record.now ∷ []) }
        ensures kept { OnErr result (self.new ≡ self.old) }
    {
        let end = self.text.len() + record.len();
        self.ends.push(end)?;
        match self.text.extend_from_slice(record) {
            Ok(()) => Ok(()),
            Err(refused) => {
                self.ends.pop();
                Err(refused)
            }
        }
    }

    /// How many there are.
    pub fn len(&self) -> usize
        ensures { result ≡ length self.now }
    {
        self.ends.len()
    }

    /// The record of this number, from 0; nothing if there is no such record.
    pub fn get(&self, number: usize) -> &[u8]
        ensures { result.now ≡ get_or self.now number [] }
    {
        if number >= self.ends.len() {
            return b"";
        }
        let start = if number == 0 {
            0
        } else {
            self.ends[number - 1]
        };
        part(&self.text, start, self.ends[number])
    }
}
