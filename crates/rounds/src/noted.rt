//! Lines that are noted for a scan.

ghost use Rattle.std.specs.Prelude.{◌≡◌, ℕ, ◌<◌, ◌≤◌, ◌⊎◌, ◌++◌, ◌∷◌, [], IfOk, length, replicate, slice_index, vec_len, vec_capacity};
ghost use Rattle.std.specs.List.{Contains};
ghost use Rattle.rounds.specs.Noted.{no_position};

use lines::LinePosition;
use std::alloc::{AllocError, Global};
use std::marker::Model;

/// More than any position of a line.
const NO_POSITION: u16 = u16::MAX;

/// The earliest position of each line from which on to scan it, and which lines have one. Once it is made it takes no memory.
#[derive(Drop)]
pub struct Noted {
    earliest: Vec<u16>,
    lines: Vec<u32>,
}

impl Model for Noted {
    ghost use Rattle.std.specs.Prelude.{ℕ, List, vec_capacity};
    ghost use Rattle.rounds.specs.Noted.{IsNoted};

    ghost Value = { List ℕ };

    ghost view = { λ a. a.earliest.items };

    ghost invariant = { λ a. IsNoted a.earliest.items a.lines.items (vec_capacity a.lines) };
}

// Puts the line at the end of the list, which has room.
fn list(line: u32, listed: &mut Vec<u32>)
    requires { vec_len listed.old < vec_capacity listed.old }
    ensures items { listed.new.items ≡ listed.old.items ++ line ∷ [] }
    ensures room { vec_capacity listed.old ≤ vec_capacity listed.new }
{
    let pushed = listed.push(line);
    pushed.unwrap();
}

// Takes the positions of these lines away.
fn clear(listed: &[u32], earliest: &mut [u16])
    requires { (l : ℕ) → Contains listed.now l → l < length earliest.old }
    ensures { (l : ℕ) → (slice_index earliest.new l ≡ no_position)
        ⊎ (¬ Contains listed.now l × (slice_index earliest.new l ≡ slice_index earliest.old l)) }
{
    for line in listed {
        earliest[*line as usize] = NO_POSITION;
    }
}

impl Noted {
    /// None of `lines` lines.
    pub fn none(alloc: Global, lines: usize) -> Result<Self, AllocError>
        ensures { IfOk result (λ noted. length noted ≡ lines) }
    {
        Ok(Noted {
            earliest: vec![in alloc; NO_POSITION; lines]?,
            lines: Vec::with_capacity(alloc, lines)?,
        })
    }

    /// Forgets all.
    pub fn clear(&mut self)
        ensures { length self.new ≡ length self.old }
    {
        clear(&self.lines, &mut self.earliest);
        self.lines.clear();
    }

    /// Lowers the earliest position of the line.
    pub fn note(&mut self, at: LinePosition)
        requires { at.line < length self.old }
        ensures lower { (l : ℕ) → slice_index self.new l ≤ slice_index self.old l }
        ensures noted { slice_index self.new at.line ≤ at.position }
        ensures size { length self.new ≡ length self.old }
    {
        let line = at.line as usize;
        let before = self.earliest[line];
        if at.position < before {
            if before == NO_POSITION {
                list(at.line, &mut self.lines);
            }
            self.earliest[line] = at.position;
        }
    }

    /// The lines that are noted, each once.
    pub fn lines(&self) -> &[u32]
        ensures all { (l : ℕ) → slice_index self.now l < no_position → l < length self.now → Contains result.now l }
        ensures within { (l : ℕ) → Contains result.now l → l < length self.now }
    {
        &self.lines
    }

    /// The earliest position of the line.
    pub fn position(&self, line: usize) -> usize
        requires { line < length self.now }
        ensures { result ≡ slice_index self.now line }
    {
        self.earliest[line] as usize
    }
}
