//! Who builds.

ghost use Rattle.std.specs.Prelude.{◌<◌, ◌≤◌};

use crate::audience::Audience;
use stop_parts::Part;
use tree_workers::{Gate, Halt};

/// The number of the workers, the part of the stops that they build, and the gate that is called before and after each build. Each worker
/// looks at the flag `stop` before it claims a source. The audience sees each tree once it is stored.
#[derive(Drop)]
pub struct Crew<'a, G: Gate> {
    pub workers: usize,
    pub part: Part,
    pub gate: &'a G,
    pub stop: &'a Halt,
    pub audience: Audience,
    pub ghost some: { 0 < workers },
    pub ghost most: { workers ≤ 64 },
}
