//! Growth by one pair. Whatever may be refused for want of memory comes before the first change.

ghost use Rattle.std.specs.Prelude.{◌≡◌, IfOk, OnOk, OnErr};
ghost use Rattle.pattern_tree.specs.Forest.{forest, IsOrdered, Rises};
ghost use Rattle.pattern_tree.specs.Branch.{branch, branches};
ghost use Rattle.pattern_tree.specs.Added.{chain_of, with_end, with_pair};

use crate::node::Node;
use crate::siblings::index_of;
use std::alloc::{AllocError, Allocator};
use timetable::StopId;

/// A node for `step`, with one node for each of `later` below it, the last with `end`.
fn chain<A: Allocator + Clone>(
    alloc: &A,
    step: &(StopId, StopId),
    later: &[(StopId, StopId)],
    end: StopId,
) -> Result<Node<A>, AllocError>
    ensures { IfOk result (λ n. branch n ≡ chain_of step.now later.now end) }
{
    let mut ends = Vec::new(alloc.clone()?);
    let mut next = Vec::new(alloc.clone()?);
    match later.split_first() {
        None => ends.push(end)?,
        Some((below, rest)) => next.push(chain(alloc, below, rest, end)?)?,
    }
    Ok(Node {
        board: step.0,
        alight: step.1,
        ends,
        next,
    })
}

/// Puts `end` among ends that rise.
fn add_end<A: Allocator>(ends: &mut Vec<StopId, A>, end: StopId) -> Result<(), AllocError>
    requires { Rises ends.old.items }
    ensures ok { OnOk result (ends.new.items ≡ with_end end ends.old.items) }
    ensures err { OnErr result (ends.new.items ≡ ends.old.items) }
{
    if let Err(at) = ends.binary_search(&end) {
        ends.insert(at, end)?;
    }
    Ok(())
}

/// Puts the pair of the path `step` and `later` and of `end` in below `level`.
pub(crate) fn add<A: Allocator + Clone>(
    level: &mut Vec<Node<A>, A>,
    step: &(StopId, StopId),
    later: &[(StopId, StopId)],
    end: StopId,
) -> Result<(), AllocError>
    requires { IsOrdered (forest (branches level.old.items)) }
    ensures ok { OnOk result (forest (branches level.new.items) ≡ with_pair step.now later.now end (forest (branches level.old.items))) }
    ensures err { OnErr result (branches level.new.items ≡ branches level.old.items) }
{
    match index_of(level, step) {
        Err(at) => {
            let node = chain(level.allocator(), step, later, end)?;
            level.insert(at, node)?;
        }
        Ok(at) => {
            let node = &mut level[at];
            match later.split_first() {
                None => add_end(&mut node.ends, end)?,
                Some((below, rest)) => add(&mut node.next, below, rest, end)?,
            }
        }
    }
    Ok(())
}
