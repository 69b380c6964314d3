//! The seats at a shared ledger.

ghost use Rattle.std.specs.Prelude.{◌≡◌, ◌≤◌, IfOk};
ghost use Rattle.shared_ledger.specs.Seats.{all_seats};

use std::alloc::{AllocError, Global};

/// A place at the shared ledger, of one worker or of the one that stores. There is one of each number.
#[derive(Debug, Drop)]
pub struct Seat {
    number: u8,
}

impl Seat {
    /// Its number, from 0.
    pub fn number(&self) -> u8
        ensures { result ≡ self.now.number }
    {
        self.number
    }
}

// `seats` seats.
pub(crate) fn seats_of(alloc: Global, seats: usize) -> Result<Vec<Seat>, AllocError>
    requires { seats ≤ 256 }
    ensures { IfOk result (λ list. list.items ≡ all_seats seats) }
{
    let mut list = Vec::with_capacity(alloc, seats)?;
    for number in 0..seats {
        list.push_reserved(Seat {
            number: number as u8,
        });
    }
    Ok(list)
}
