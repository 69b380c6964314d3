//! The stops of rides.

ghost use Rattle.std.specs.Prelude.{◌≡◌, ◌<◌, ◌≤◌, ◌∷◌, length};

use rounds::Path;
use timetable::StopId;

/// The path of these rides.
pub(crate) fn path_of(rides: &[(StopId, StopId)]) -> Path
    requires { length rides.now ≤ 8 }
    ensures { result.items ≡ rides.now }
{
    let mut path = Path::new();
    for ride in rides {
        path.push(*ride);
    }
    path
}

/// The path of a ride and then of these.
pub(crate) fn path_from(first: (StopId, StopId), rides: &[(StopId, StopId)]) -> Path
    requires { length rides.now < 8 }
    ensures { result.items ≡ first ∷ rides.now }
{
    let mut path = Path::new();
    path.push(first);
    for ride in rides {
        path.push(*ride);
    }
    path
}
