//! Seconds on foot.

ghost use Rattle.std.specs.Prelude.{◌≡◌, ◌+◌, ◌*◌, ◌≤◌, length, IfSome};
ghost use Rattle.timetable.specs.Table.{IsTable};
ghost use Rattle.timetable.specs.Journeys.{foot};
ghost use Rattle.pattern_query.specs.Leaving.{walked, on_foot};

use crate::answer::Point;
use direct_connections::Network;
use timetable::StopId;

/// The seconds on foot from a stop to a stop, if one can walk there: 0 from a stop to itself.
pub fn foot(network: &Network, from: StopId, to: StopId) -> Option<u32>
    ensures value { result ≡ foot network.now from to }
    ensures short { IfSome result (λ seconds. seconds ≤ 86_400) }
    ensures valid { IsTable network.now }
{
    let table = network.timetable();
    if from == to {
        return Some(0);
    }
    table.walk(from, to)
}

/// The seconds on foot from a stop to another, by the rides of the path.
pub(crate) fn walk_along(
    network: &Network,
    from: StopId,
    path: &[(StopId, StopId)],
    to: StopId,
) -> u32
    requires { length path.now ≤ 8 }
    ensures value { result ≡ walked network.now from path.now to }
    ensures short { result ≤ 86_400 * (length path.now + 1) }
{
    let Some((step, rest)) = path.split_first() else {
        return foot(network, from, to).unwrap_or(0);
    };
    let seconds = foot(network, from, step.0).unwrap_or(0);
    seconds + walk_along(network, step.1, rest, to)
}

/// The seconds on foot of a journey.
pub fn walk_of(network: &Network, point: &Point) -> u32
    ensures { result ≡ on_foot network.now point.now }
{
    let path = point.path(network.timetable());
    walk_along(network, point.from(), path.as_slice(), point.to())
}
