//! Trees in each kind of memory.

ghost use Rattle.std.specs.Prelude.{◌≡◌};
ghost use Rattle.std.specs.Arc.{arc_value};
ghost use Rattle.timetable.specs.Table.{stops_of};

use pattern_building::{build, finish};
use pattern_tree::{Arena, PatternTree, TreeFault, Visitor};
use rounds::{Rides, Scratch};
use sample_feed::demo;
use std::alloc::{Allocator, Global};
use std::fmt::Write;
use std::mem;
use std::sync::Arc;
use std::test::Fail;
use timetable::{StopId, Timetable};

// Each pair of a tree as a line of text: from which stop to which each ride goes, and the end.
#[derive(Drop)]
struct Shown {
    text: String,
}

impl Visitor for Shown {
    ghost shows = { λ _ _ _. Unit {0} };

    fn visit(&mut self, path: &[(StopId, StopId)], end: StopId) {
        for (board, alight) in path {
            let _ = write!(self.text, "{}-{} ", board.number(), alight.number());
        }
        let _ = writeln!(self.text, "to {}", end.number());
    }
}

// Whether a tree has these pairs, in the order of a walk.
fn has_pairs<A: Allocator>(global: Global, tree: &PatternTree<A>, wanted: &str) -> bool {
    let mut shown = Shown {
        text: String::new(global),
    };
    tree.walk(&mut shown);
    shown.text.as_str() == wanted
}

// From A one rides to B, C and D, changes at B to D, and walks from C to E.
const OF_A: &str = "0-1 to 1\n0-1 1-3 to 3\n0-2 to 2\n0-2 to 4\n0-3 to 3\n";

const OF_B: &str = "1-2 to 2\n1-2 to 4\n1-3 to 3\n";

// Whether the tree of A of the sample feed is right that is built in this memory.
fn builds<A: Allocator + Clone>(
    alloc: A,
    global: Global,
    table: &Timetable,
) -> Result<bool, TreeFault>
    requires { stops_of table.now ≡ 5 }
{
    let mut scratch = Scratch::new(global, table, Rides::new(3))?;
    let tree = build(alloc, global, table, StopId::new(0), &mut scratch)?;
    Ok(has_pairs(global, &tree, OF_A))
}

#[test]
fn a_tree_in_each_memory(rt: HostRuntime) -> Result<(), Fail> {
    let table = demo(&rt)?;
    let arena = Arena::new(rt.alloc())?;
    assert!(rt; builds(rt.alloc(), rt.alloc(), &table)?);
    assert!(rt; builds(arena.bump(), rt.alloc(), &table)?);
    Ok(())
}

// Whether the finished trees of A and of B are right, made one after the other in one arena.
fn makes(alloc: Global, table: &Arc<Timetable>, arena: &mut Arena) -> Result<bool, TreeFault>
    requires { stops_of (arc_value table.now) ≡ 5 }
{
    let k = Rides::new(3);
    let mut scratch = Scratch::new(alloc, table, k)?;
    let of_a = finish(alloc, table, StopId::new(0), k, &mut scratch, arena)?;
    let of_b = finish(alloc, table, StopId::new(1), k, &mut scratch, arena)?;
    Ok(has_pairs(alloc, of_a.tree(), OF_A) && has_pairs(alloc, &of_b.into_tree(), OF_B))
}

// An arena is as it was after each tree, or takes new memory if something that was forgotten holds it.
#[test]
fn finished_trees(rt: HostRuntime) -> Result<(), Fail> {
    let table = Arc::new(rt.alloc(), demo(&rt)?)?;
    let mut arena = Arena::new(rt.alloc())?;
    let before = arena.bump().allocated_bytes();
    assert!(rt; makes(rt.alloc(), &table, &mut arena)?);
    assert_eq!(rt; arena.bump().allocated_bytes(), before);
    let mut forgotten = Vec::new(arena.bump());
    forgotten.push(7_u64)?;
    mem::forget(forgotten);
    assert!(rt; makes(rt.alloc(), &table, &mut arena)?);
    Ok(())
}

// Whether two pairs go into a tree once each, and it has no others of their paths and ends.
fn takes_pairs(tree: &mut PatternTree) -> Result<bool, TreeFault> {
    let (a, b, d) = (StopId::new(0), StopId::new(1), StopId::new(3));
    let whole = [(a, b), (b, d)];
    let first = [(a, b)];
    let are_new = tree.insert(&whole, d)? && tree.insert(&first, b)?;
    let are_old = !tree.insert(&whole, d)? && !tree.insert(&first, b)?;
    let has_both = tree.contains(&whole, d) && tree.contains(&first, b);
    let has_others = tree.contains(&whole, b) || tree.contains(&first, d);
    Ok(are_new && are_old && has_both && !has_others)
}

const TWO_PAIRS: &str = "0-1 to 1\n0-1 1-3 to 3\n";

// Whether a tree has these pairs, and a copy of it in other memory.
fn is_copied<A: Allocator + Clone>(
    global: Global,
    alloc: A,
    tree: &PatternTree,
) -> Result<bool, TreeFault> {
    let copy = tree.copy_to(alloc)?;
    Ok(has_pairs(global, tree, TWO_PAIRS) && has_pairs(global, &copy, TWO_PAIRS))
}

#[test]
fn pairs_put_one_by_one(rt: HostRuntime) -> Result<(), Fail> {
    let mut tree = PatternTree::new_in(rt.alloc(), StopId::new(0));
    assert!(rt; takes_pairs(&mut tree)?);
    let arena = Arena::new(rt.alloc())?;
    assert!(rt; is_copied(rt.alloc(), arena.bump(), &tree)?);
    assert!(rt; is_copied(rt.alloc(), rt.alloc(), &tree)?);
    Ok(())
}
