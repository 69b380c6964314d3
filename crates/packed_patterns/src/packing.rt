//! The nodes of a tree in one list, each with the number of the node before it.

ghost use Rattle.std.specs.Prelude.{◌≡◌, ◌+◌, ◌≤◌, ◌++◌, length, map, OnOk};
ghost use Rattle.pattern_tree.specs.Forest.{forest, levels, node_count};
ghost use Rattle.pattern_tree.specs.Branch.{branches};
ghost use Rattle.packed_patterns.specs.Patterns.{IsPacked, Packs, beginning_at, ending, path_to};

use arrayvec::ArrayVec;
use pattern_tree::{MOST_NODES, Node};
use std::alloc::{AllocError, Allocator};
use timetable::StopId;

/// The rides of a pattern: the stops of boarding and alighting.
pub type Path = ArrayVec<(StopId, StopId), 8>;

/// A beginning of patterns: the stops of its last ride, and the number of the beginning before that ride. Beginnings are counted from 1,
/// and 0 is the number of none.
#[derive(Clone, Copy)]
pub struct Beginning {
    pub board: StopId,
    pub alight: StopId,
    pub before: u32,
}

/// A pattern: the number of the beginning that has all its rides, and a stop at which it ends.
#[derive(Clone, Copy)]
pub struct Pattern {
    pub end: StopId,
    pub last: u32,
}

// The beginning of that number, if there is one.
fn beginning_of(beginnings: &[Beginning], number: u32) -> Option<Beginning>
    ensures { result ≡ beginning_at beginnings.now number }
{
    if number == 0 {
        return None;
    }
    beginnings.get(number as usize - 1).copied()
}

// Adds the last rides of the beginning of that number to a path, no more than `most` of them.
fn put_path(beginnings: &[Beginning], number: u32, most: u8, path: &mut Path)
    requires { length path.old.items + most ≤ 8 }
    ensures { path.new.items ≡ path.old.items ++ path_to most beginnings.now number }
{
    if most == 0 {
        return;
    }
    let Some(beginning) = beginning_of(beginnings, number) else {
        return;
    };
    put_path(beginnings, beginning.before, most - 1, path);
    path.push((beginning.board, beginning.alight));
}

/// The rides of the beginning of that number.
pub fn rides_of(beginnings: &[Beginning], number: u32) -> Path
    ensures { result.items ≡ path_to 8 beginnings.now number }
{
    let mut path = Path::new();
    put_path(beginnings, number, 8, &mut path);
    path
}

// Adds the patterns of a beginning, one for each of its ends.
fn pack_ends<A: Allocator>(
    ends: &[StopId],
    last: u32,
    patterns: &mut Vec<Pattern, A>,
) -> Result<(), AllocError>
    ensures { OnOk result (patterns.new.items ≡ patterns.old.items ++ map (ending last) ends.now) }
{
    for end in ends {
        patterns.push(Pattern { end: *end, last })?;
    }
    Ok(())
}

/// Adds the nodes of `level` and all below them, which go on from the beginning of that number, and their patterns.
pub(crate) fn pack_level<A: Allocator, B: Allocator>(
    level: &[Node<B>],
    before: u32,
    beginnings: &mut Vec<Beginning, A>,
    patterns: &mut Vec<Pattern, A>,
) -> Result<(), AllocError>
    requires packed { IsPacked beginnings.old.items patterns.old.items }
    requires before { before ≤ length beginnings.old.items }
    requires deep { length (path_to 8 beginnings.old.items before) + levels (forest (branches level.now)) ≤ 8 }
    requires few { length beginnings.old.items + node_count (forest (branches level.now)) ≤ MOST_NODES }
    ensures { OnOk result (Packs beginnings.old.items patterns.old.items before (forest (branches level.now))
        beginnings.new.items patterns.new.items) }
{
    for node in level {
        beginnings.push(Beginning {
            board: node.board,
            alight: node.alight,
            before,
        })?;
        let last = beginnings.len() as u32;
        pack_ends(&node.ends, last, patterns)?;
        if !node.next.is_empty() {
            pack_level(&node.next, last, beginnings, patterns)?;
        }
    }
    Ok(())
}
