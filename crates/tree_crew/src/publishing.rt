//! Who shows stored trees, and reports how many there are.

use crate::audience::Audience;
use board::{Stored, Writer};
use flusher::Notice;
use pattern_tree::Finished;
use progress::{Done, Progress};
use section_store::Receipt;
use std::alloc::Global;
use std::sync::Wait;

/// Who shows stored trees on a board, if there is an audience, and reports how many of `stops` stops are stored. A tree for which memory is
/// refused isn't shown before the store is opened again.
pub(crate) struct Publisher<'a, R: Wait, P: Progress> {
    pub(crate) rt: &'a R,
    pub(crate) alloc: Global,
    pub(crate) stops: usize,
    pub(crate) progress: &'a mut P,
    pub(crate) audience: Audience,
    pub(crate) writer: Writer,
}

impl<'a, R: Wait, P: Progress> Notice for Publisher<'a, R, P> {
    ghost use Rattle.section_store.specs.Sections.{sources};
    ghost use Rattle.std.specs.Prelude.{◌≡◌, refl};
    ghost use Rattle.tree_crew.specs.Flushed.{ShowsTo};
    ghost use Rattle.tree_crew.specs.Showing.{shows_to_same, told_in_turn};

    ghost form = { λ p. p.writer.origin.form };

    ghost shows = { λ p. sources p.writer.told.list };

    ghost goes = { λ p q. (q.audience ≡ p.audience) × ShowsTo p.audience p.writer q.writer };

    ghost stays = { λ p. (refl, shows_to_same p.audience p.writer) };

    ghost goes_in_turn = { λ p q r first second. told_in_turn p.audience q.audience r.audience p.writer q.writer r.writer first second };

    fn stored(&mut self, tree: Finished, receipt: Receipt) {
        let stored = receipt.number().saturating_add(1);
        self.progress.reached(Done::Stored, stored, self.stops);
        if !self.audience.sees() {
            return;
        }
        let Ok(stored) = Stored::new(self.alloc, tree, receipt) else {
            return;
        };
        let _published = self.writer.publish(self.rt, stored);
    }
}
