//! The nodes of a tree.

use std::alloc::Allocator;
use timetable::StopId;

/// A beginning of patterns, by its last ride: where one boards and alights, the stops at which the pattern that it
/// makes up ends, and the rides that can come next. On its own a node promises nothing; what holds of those of a tree
/// stands at `PatternTree::first`.
#[derive(Drop)]
pub struct Node<A: Allocator> {
    pub board: StopId,
    pub alight: StopId,
    /// The stops at which the pattern ends, after the ride or after a walk.
    pub ends: Vec<StopId, A>,
    /// The rides that can come next.
    pub next: Vec<Node<A>, A>,
}
