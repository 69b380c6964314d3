//! How many sources of a part are stored.

use progress::{Done, Progress};

/// Passes on how many sources of a part are stored: `others` stored ones are of other parts, and the part has `of` stops.
#[derive(Drop)]
pub struct Counted<'a, P: Progress> {
    pub progress: &'a mut P,
    pub others: usize,
    pub of: usize,
}

impl<'a, P: Progress> Progress for Counted<'a, P> {
    fn reached(&mut self, what: Done, times: usize, _of: usize) {
        self.progress
            .reached(what, times.saturating_sub(self.others), self.of);
    }

    fn ended(&mut self) {
        self.progress.ended();
    }
}
