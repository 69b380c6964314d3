//! The trees that a question is answered from.

ghost use Rattle.std.specs.Prelude.{◌≡◌, ℕ, Option, IfSome};
ghost use Rattle.std.specs.Option.{option_copied};
ghost use Rattle.pattern_tree.specs.Content.{Content};

use crate::Patterns;
use timetable::StopId;

/// The patterns of some sources.
pub trait Trees {
    /// The patterns of each source, if they are there.
    ghost held: { Self → ℕ → Option Content };

    /// The patterns of a source, if they are there. It takes no memory.
    fn patterns(&self, source: StopId) -> Option<&Patterns>
        ensures value { option_copied result ≡ held self.now source }
        ensures source { IfSome result (λ patterns. patterns.now.source ≡ source) };
}
