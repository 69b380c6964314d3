//! The trees of the stored sources, as they are asked.

ghost use Rattle.std.specs.Prelude.{◌≡◌, ℕ, None, Some, IfOk, List, slice_index_or, slice_set, length};
ghost use Rattle.std.specs.Option.{option_copied};
ghost use Rattle.std.specs.List.{All};
ghost use Rattle.section_store.specs.Sections.{Form, sources};
ghost use Rattle.section_store.specs.Lasting.{IsExact};
ghost use Rattle.store_excerpt.specs.Board.{IsBoardOf, AreOf, AreExact, AreWholeAmong, IsWholeAmong};

use pattern_query::Patterns;
use pattern_tree::PatternTree;
use std::alloc::{AllocError, Global};
use std::marker::Model;
use timetable::StopId;

/// For each stop the patterns of its tree, if they are there.
#[derive(Drop)]
pub struct Board {
    slots: Vec<Option<Patterns>>,
}

impl Model for Board {
    ghost use Rattle.std.specs.Prelude.{List, Option};
    ghost use Rattle.pattern_tree.specs.Content.{Content};

    ghost Value = { List (Option Content) };

    ghost view = { λ b. b.slots.items };
}

impl Board {
    // A board with a slot for each of `stops` stops.
    fn empty(alloc: Global, stops: usize) -> Result<Board, AllocError>
        ensures long { IfOk result (λ board. length board ≡ stops) }
        ensures bare { IfOk result (λ board. (s : ℕ) → slice_index_or board s None ≡ None) }
    {
        let mut slots = Vec::with_capacity(alloc, stops)?;
        for _ in 0..stops {
            slots.push_reserved(None);
        }
        Ok(Board { slots })
    }

    /// The board of these trees, of a timetable of `stops` stops. It fails only if memory runs out.
    pub fn of(alloc: Global, stops: usize, trees: Vec<PatternTree>) -> Result<Board, AllocError>
        ensures long { IfOk result (λ board. length board ≡ stops) }
        ensures shows { IfOk result (IsBoardOf stops (sources trees.items)) }
        ensures same { IfOk result (AreOf trees.items) }
        ensures right { (form : Form) → All (IsExact form) trees.items → IfOk result (AreExact form) }
        ensures whole { (form : Form) (froms : List ℕ) → All (IsWholeAmong form froms) trees.items
            → IfOk result (AreWholeAmong form froms) }
    {
        let mut board = Board::empty(alloc, stops)?;
        for tree in trees {
            board.show(Patterns::of(alloc, &tree)?);
        }
        Ok(board)
    }

    /// Puts patterns in the slot of their source, if it has one.
    pub fn show(&mut self, patterns: Patterns)
        ensures { self.new ≡ slice_set self.old patterns.source (Some patterns) }
    {
        if let Some(slot) = self.slots.get_mut(patterns.source().number()) {
            *slot = Some(patterns);
        }
    }

    /// The patterns of a source, if they are there. It takes no memory.
    pub fn patterns(&self, source: StopId) -> Option<&Patterns>
        ensures { option_copied result ≡ slice_index_or self.now source None }
    {
        match self.slots.get(source.number()) {
            Some(Some(patterns)) => Some(patterns),
            _ => None,
        }
    }
}
