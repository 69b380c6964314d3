//! Building the trees of sources.

ghost use Rattle.std.specs.Prelude.{◌<◌};
ghost use Rattle.timetable.specs.Table.{stops_of};
ghost use Rattle.rounds.specs.Scratch.{IsMadeFor};

use pattern_building::build;
use pattern_query::Patterns;
use pattern_tree::{Arena, TreeFault};
use rounds::Scratch;
use std::alloc::{AllocError, Global};
use timetable::{StopId, Timetable};
use tree_codec::encode;

/// How large a tree is.
#[derive(Clone, Copy, Debug)]
pub struct TreeSize {
    pub nodes: u32,
    pub ends: u32,
}

/// The trees that were built: the patterns of each, and the texts of all, one after the other.
#[derive(Drop)]
pub struct Trees {
    pub patterns: Vec<Patterns>,
    pub texts: Vec<u8>,
}

impl Trees {
    /// No trees.
    pub fn new(alloc: Global) -> Trees {
        Trees {
            patterns: Vec::new(alloc),
            texts: Vec::new(alloc),
        }
    }
}

/// Builds the tree of a stop in the arena, for journeys of at most as many rides as the scratch has, and adds it to the trees. Its size.
pub fn build_tree(
    alloc: Global,
    arena: &Arena,
    timetable: &Timetable,
    source: StopId,
    scratch: &mut Scratch,
    trees: &mut Trees,
) -> Result<TreeSize, TreeFault>
    requires table { IsMadeFor scratch.old timetable.now }
    requires known { source < stops_of timetable.now }
    ensures { IsMadeFor scratch.new timetable.now }
{
    let tree = build(arena.bump(), alloc, timetable, source, scratch)?;
    let size = TreeSize {
        nodes: tree.nodes(),
        ends: tree.ends(),
    };
    let patterns = Patterns::of(alloc, &tree)?;
    trees.patterns.push(patterns).map_err(AllocError::from)?;
    encode(&tree, &mut trees.texts)?;
    Ok(size)
}
