//! Guesses that shorten the search for an instance to board.

ghost use Rattle.std.specs.Prelude.{◌≡◌, IfSome, Some, nat_le};
ghost use Rattle.std.specs.List.{AllPairs, position as first_index};
ghost use Rattle.lines.specs.Lines.{AreNoLater};

use lines::Times;
use std::alloc::{AllocError, Global};
use std::marker::Model;

/// How many instances a search looks at from the one that was guessed.
const REACH: usize = 6;

/// For each line a guess which of its instances one boards: the one that was boarded last. A search tests it, so that any guess
/// will do. Once they are made they take no memory.
#[derive(Drop)]
pub struct Guesses {
    instances: Vec<usize>,
}

impl Model for Guesses {
    ghost use Rattle.std.specs.Prelude.{ℕ, List};

    ghost Value = { List ℕ };

    ghost view = { λ a. a.instances.items };
}

impl Guesses {
    /// The first instance of each of `lines` lines.
    pub fn new(alloc: Global, lines: usize) -> Result<Self, AllocError> {
        Ok(Guesses {
            instances: vec![in alloc; 0; lines]?,
        })
    }

    /// The guess for the line.
    pub fn of(&self, line: usize) -> usize {
        match self.instances.get(line) {
            Some(instance) => *instance,
            None => 0,
        }
    }

    /// Guesses this instance of the line from now on.
    pub fn put(&mut self, line: usize, instance: usize) {
        if line < self.instances.len() {
            self.instances[line] = instance;
        }
    }
}

/// Which of the times, which never fall, is the first that departs at `ready` or later, if that is near the one that is guessed.
pub fn near(times: &[Times], ready: u32, guess: usize) -> Option<usize>
    requires { AllPairs AreNoLater times.now }
    ensures { IfSome result (λ first. first_index (λ times. nat_le ready times.departure) times.now ≡ Some first) }
{
    let mut place = guess;
    for _ in 0..REACH {
        if place >= times.len() {
            return None;
        }
        if times[place].departure < ready {
            place += 1;
        } else if place == 0 || times[place - 1].departure < ready {
            return Some(place);
        } else {
            place -= 1;
        }
    }
    None
}
