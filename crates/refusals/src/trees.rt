//! Trees: made whole, pair by pair, and copied.

ghost use Rattle.std.specs.Prelude.{◌≡◌, ◌<◌};
ghost use Rattle.std.specs.Arc.{arc_value};
ghost use Rattle.timetable.specs.Table.{stops_of};

use crate::seen::Seen;
use pattern_building::finish;
use pattern_tree::{Arena, Finished, PatternTree, TreeFault};
use rounds::Scratch;
use sample_store::Sample;
use std::alloc::Global;
use std::test::Fail;
use timetable::{Rides, StopId};

// What a tree answers if it has no memory.
const NO_MEMORY: &str = "N2 Memory";

// What stands then.
const SAME: &str = "the same pairs";

// The pairs of A's tree: from A one rides to B, on from there to D, to C, walks on to E, and rides to D.
const PAIRS: u8 = 5;

// The stops A, B, C, D and E.
fn stops() -> [StopId; 5] {
    [
        StopId::new(0),
        StopId::new(1),
        StopId::new(2),
        StopId::new(3),
        StopId::new(4),
    ]
}

// Puts the pair of that number in.
fn insert(tree: &mut PatternTree, number: u8) -> Result<bool, TreeFault> {
    let [a, b, c, d, e] = stops();
    match number {
        0 => tree.insert(&[(a, b)], b),
        1 => tree.insert(&[(a, b), (b, d)], d),
        2 => tree.insert(&[(a, c)], c),
        3 => tree.insert(&[(a, c)], e),
        _ => tree.insert(&[(a, d)], d),
    }
}

// Whether the pair of that number is there.
fn contains(tree: &PatternTree, number: u8) -> bool {
    let [a, b, c, d, e] = stops();
    match number {
        0 => tree.contains(&[(a, b)], b),
        1 => tree.contains(&[(a, b), (b, d)], d),
        2 => tree.contains(&[(a, c)], c),
        3 => tree.contains(&[(a, c)], e),
        _ => tree.contains(&[(a, d)], d),
    }
}

// Whether a tree has exactly the first `count` pairs.
fn has_first(tree: &PatternTree, count: u8) -> bool {
    tree.ends() == u32::from(count) && (0..count).all(|number| contains(tree, number))
}

// Puts the pair of that number into a tree that has those before it.
fn inserted_next(tree: &mut PatternTree, number: u8) -> Seen
    requires { number < 5 }
{
    match insert(tree, number) {
        Ok(true) => Seen::right_if(has_first(tree, number + 1), "the pairs after insert"),
        Err(TreeFault::Memory) => {
            let stood = has_first(tree, number);
            let is_new = insert(tree, number) == Ok(true);
            Seen::again(
                NO_MEMORY,
                SAME,
                stood && is_new && has_first(tree, number + 1),
            )
        }
        _ => Seen::Wrong("insert"),
    }
}

/// The pairs of A's tree, put into a tree one by one.
pub fn inserted(alloc: Global) -> Seen {
    let mut tree = PatternTree::new_in(alloc, StopId::new(0));
    let mut seen = Seen::Right;
    for number in 0..PAIRS {
        seen = inserted_next(&mut tree, number).after(seen);
    }
    seen
}

// How a tree that should be A's was made; none if memory was refused.
fn seen_of(made: Result<PatternTree, TreeFault>) -> Option<Seen> {
    match made {
        Ok(tree) => Some(Seen::right_if(has_first(&tree, PAIRS), "A's tree")),
        Err(TreeFault::Memory) => None,
        Err(_) => Some(Seen::Wrong("another fault of a tree")),
    }
}

/// A's tree, copied.
pub fn copied(alloc: Global) -> Result<Seen, Fail> {
    let mut tree = PatternTree::new_in(alloc, StopId::new(0));
    for number in 0..PAIRS {
        insert(&mut tree, number)?;
    }
    Ok(match seen_of(tree.copy_to(alloc)) {
        Some(seen) => seen,
        None => {
            let stood = has_first(&tree, PAIRS);
            let again = seen_of(tree.copy_to(alloc));
            Seen::again(NO_MEMORY, SAME, stood && again == Some(Seen::Right))
        }
    })
}

// The same of a finished tree.
fn seen_of_finished(made: Result<Finished, TreeFault>) -> Option<Seen> {
    match made {
        Ok(tree) => Some(Seen::right_if(has_first(tree.tree(), PAIRS), "A's tree")),
        Err(TreeFault::Memory) => None,
        Err(_) => Some(Seen::Wrong("another fault of finish")),
    }
}

/// A's tree, finished in an arena. The scratch and the arena serve once more after a fault.
pub fn finished(alloc: Global, sample: &Sample) -> Result<Seen, Fail>
    requires { stops_of (arc_value sample.now.table) ≡ 5 }
{
    let (a, k) = (StopId::new(0), Rides::new(3));
    let table = &sample.table;
    let mut scratch = Scratch::new(alloc, table, k)?;
    let mut arena = Arena::new(alloc)?;
    let first = finish(alloc, table, a, k, &mut scratch, &mut arena);
    Ok(match seen_of_finished(first) {
        Some(seen) => seen,
        None => {
            let again = finish(alloc, table, a, k, &mut scratch, &mut arena);
            let is_right = seen_of_finished(again) == Some(Seen::Right);
            Seen::again(NO_MEMORY, "the same scratch and arena", is_right)
        }
    })
}
