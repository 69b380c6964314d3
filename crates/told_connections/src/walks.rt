//! The way on foot between places.

ghost use Rattle.std.specs.Prelude.{◌≡◌, ℕ, ◌≤◌, ◌⊎◌, Some};
ghost use Rattle.std.specs.List.{Contains};
ghost use Rattle.timetable.specs.Journeys.{IsLeast, foot};
ghost use Rattle.told_connections.specs.Windows.{IsWalk};

use crate::telling::foot;
use timetable::{StopId, Timetable};

// The shorter one, if there is one.
fn shorter(one: Option<u32>, other: Option<u32>) -> Option<u32>
    ensures one { (a : ℕ) → one ≡ Some a → (x : ℕ) × (result ≡ Some x) × (x ≤ a) }
    ensures other { (b : ℕ) → other ≡ Some b → (x : ℕ) × (result ≡ Some x) × (x ≤ b) }
    ensures either { (x : ℕ) → result ≡ Some x → (one ≡ Some x) ⊎ (other ≡ Some x) }
{
    match (one, other) {
        (Some(a), Some(b)) => { if b < a { Some(b) } else { Some(a) } }
        (Some(a), None) => Some(a),
        (None, other) => other,
    }
}

// The seconds of the shortest way on foot from a stop to one of these.
fn least_from(table: &Timetable, from: StopId, tos: &[StopId]) -> Option<u32>
    ensures { IsLeast (λ w. (t : ℕ) × Contains tos.now t × (foot table.now from t ≡ Some w)) result }
{
    let mut least = None;
    for to in tos {
        least = shorter(least, foot(table, from, *to));
    }
    least
}

/// The seconds of the shortest way on foot from one of the first stops to one of the others, if there is one.
pub(crate) fn least_walk(table: &Timetable, froms: &[StopId], tos: &[StopId]) -> Option<u32>
    ensures { IsLeast (IsWalk table.now froms.now tos.now) result }
{
    let mut least = None;
    for from in froms {
        least = shorter(least, least_from(table, *from, tos));
    }
    least
}
