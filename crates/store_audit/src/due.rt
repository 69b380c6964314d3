//! A tree that is to be audited.

ghost use Rattle.std.specs.Prelude.{IfOk, IfSome};
ghost use Rattle.section_store.specs.Sections.{form_of};
ghost use Rattle.store_audit.specs.Hands.{IsAuditOf, IsDone, IsHeldTree, IsTakenDifference};

use auditing::{Difference, first_difference};
use direct_connections::Network;
use pattern_query::Patterns;
use pattern_tree::PatternTree;
use std::alloc::{AllocError, Allocator, Global};
use timetable::{Rides, StopId};

/// What the audit of a tree came to: where its answers differ first from those of the timetable. None if they don't.
#[derive(Clone, Copy, Debug, PartialEq, Eq)]
pub struct TreeAudit {
    pub source: StopId,
    pub difference: Option<Difference>,
}

/// A tree that is to be audited, and where its answers differ first, if it is audited. It isn't before, nor if memory is refused for it.
#[derive(Drop)]
pub(crate) struct Due {
    pub(crate) patterns: Patterns,
    pub(crate) is_audited: bool,
    pub(crate) difference: Option<Difference>,
}

// Where the answers from the patterns of a source differ first. A source that the timetable doesn't have has no event, so no difference.
// It fails only if memory runs out.
fn difference_of(
    alloc: Global,
    network: &Network,
    rides: Rides,
    patterns: &Patterns,
) -> Result<Option<Difference>, AllocError>
    ensures { IfOk result (IsTakenDifference (form_of network.now rides) patterns.now) }
{
    if patterns.source().number() >= network.timetable().stops() {
        return Ok(None);
    }
    first_difference(alloc, network, patterns, rides)
}

impl Due {
    /// A tree that isn't audited yet. It fails only if memory runs out.
    pub(crate) fn of<A: Allocator>(alloc: Global, tree: &PatternTree<A>) -> Result<Due, AllocError>
        ensures { IfOk result (IsHeldTree tree.now) }
    {
        let patterns = Patterns::of(alloc, tree)?;
        Ok(Due {
            patterns,
            is_audited: false,
            difference: None,
        })
    }

    /// Audits it.
    pub(crate) fn audit(&mut self, alloc: Global, network: &Network, rides: Rides)
        ensures { IsDone (form_of network.now rides) self.old self.new }
    {
        match difference_of(alloc, network, rides, &self.patterns) {
            Ok(difference) => {
                self.difference = difference;
                self.is_audited = true;
            }
            Err(_) => self.is_audited = false,
        }
    }

    /// Its audit; none if it isn't audited.
    pub(crate) fn audited(&self) -> Option<TreeAudit>
        ensures { IfSome result (IsAuditOf self.now) }
    {
        if !self.is_audited {
            return None;
        }
        Some(TreeAudit {
            source: self.patterns.source(),
            difference: self.difference,
        })
    }
}
