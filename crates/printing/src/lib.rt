//! What a command came to, on standard output and standard error: as lines, or in a format that a teller gives the text of. And all faults
//! of a feed, as lines.
#![tactic(auto)]

mod asked;
mod fault;
mod finishing;
mod listing;
mod output;
mod report;
mod teller;
mod told;

pub use asked::{Asked, copy_of};
pub use fault::{Voice, tell_fault, voice_of};
pub use finishing::{NO_MEMORY, UNWRITTEN, finish, print, say_no_memory, say_unwritten, show};
pub use listing::fault_report;
pub use output::Streams;
pub use report::{FaultReport, ListedFault};
pub use teller::{Teller, tells_legs};
pub use told::Told;
