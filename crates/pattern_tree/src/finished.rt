//! Trees that are done.

ghost use Rattle.std.specs.Prelude.{◌≡◌, ◌↔◌, IsTrue, MatchResult};
ghost use Rattle.std.specs.Arc.{arc_value};

use crate::fault::TreeFault;
use crate::tree::PatternTree;
use std::alloc::Global;
use std::marker::Model;
use std::sync::Arc;
use timetable::{Rides, Timetable};

/// The tree of a stop with the timetable and the most rides that it was made for. By its type the tree is complete and earned
/// for them.
#[derive(Drop)]
pub struct Finished {
    table: Arc<Timetable>,
    rides: Rides,
    tree: PatternTree,
}

impl Model for Finished {
    ghost use Rattle.std.specs.Arc.{arc_value};
    ghost use Rattle.pattern_tree.specs.Finished.{FinishedTree, IsFinished};

    ghost Value = { FinishedTree };

    ghost view = { λ f. record { table = arc_value f.table; rides = f.rides; tree = f.tree } };

    ghost invariant = { λ f. IsFinished (record { table = arc_value f.table; rides = f.rides; tree = f.tree }) };
}

impl Finished {
    ghost use Rattle.pattern_tree.specs.Finished.{IsFinished};

    /// The tree with its timetable and the most rides of its journeys. It is the caller's to know that it is finished: the
    /// crate that builds trees does.
    pub fn new(table: Arc<Timetable>, rides: Rides, tree: PatternTree) -> Finished
        requires { IsFinished (record { table = arc_value table; rides = rides; tree = tree }) }
        ensures { result ≡ record { table = arc_value table; rides = rides; tree = tree } }
    {
        Finished { table, rides, tree }
    }

    /// The tree.
    pub fn tree(&self) -> &PatternTree
        ensures value { result.now ≡ self.now.tree }
        ensures finished { IsFinished self.now }
    {
        &self.tree
    }

    /// The timetable that the tree is for.
    pub fn timetable(&self) -> &Arc<Timetable>
        ensures value { arc_value result.now ≡ self.now.table }
        ensures finished { IsFinished self.now }
    {
        &self.table
    }

    /// The most rides of the journeys that the tree is for.
    pub fn k(&self) -> Rides
        ensures value { result ≡ self.now.rides }
        ensures finished { IsFinished self.now }
    {
        self.rides
    }

    /// Whether the tree is for this timetable and `k` rides. The timetables are compared by value, so both are read whole if they are the
    /// same.
    pub fn is_for(&self, table: &Timetable, k: Rides) -> bool
        ensures { IsTrue result ↔ ((self.now.table ≡ table.now) × (self.now.rides ≡ k)) }
    {
        self.rides == k && self.table.is_same(table)
    }

    /// A copy of the tree, for the same timetable in the same memory. The only fault is that memory ran out.
    pub fn try_copy(&self, alloc: Global) -> Result<Finished, TreeFault>
        ensures { MatchResult result (λ copy. copy ≡ self.now) (λ fault. fault ≡ TreeFault.Memory) }
    {
        let tree = self.tree.copy_to(alloc)?;
        let table = Arc::try_clone(&self.table)?;
        Ok(Finished {
            table,
            rides: self.rides,
            tree,
        })
    }

    /// The tree, let out of its timetable.
    pub fn into_tree(self) -> PatternTree
        ensures value { result ≡ self.tree }
        ensures finished { IsFinished self }
    {
        self.tree
    }
}
