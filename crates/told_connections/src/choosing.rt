//! Which of the connections that are found are reported.

ghost use Rattle.std.specs.Prelude.{◌≡◌};
ghost use Rattle.told_connections.specs.Next.{Chooses, enough_of};

use connections::First;

/// How many connections are enough, if no number is asked for: if an hour of the window ends with as many, the rest of the window isn't
/// searched.
pub const ENOUGH: usize = 1_000;

/// How many connections are searched for.
pub(crate) fn enough_for(next: Option<u16>) -> usize
    ensures { result ≡ enough_of next }
{
    match next {
        Some(number) => usize::from(number),
        None => ENOUGH,
    }
}

/// Those of the first connections of a window that are reported: as many as are asked for, if a number is. Its moment is then the departure
/// of the first one that is left out, if one was found.
pub(crate) fn chosen(first: First, next: Option<u16>) -> First
    ensures { Chooses next first.connections.items first.next result.connections.items result.next }
{
    let Some(number) = next else {
        return first;
    };
    let First {
        mut connections,
        next,
    } = first;
    let number = usize::from(number);
    let next = match connections.get(number) {
        Some(left_out) => left_out.departure,
        None => next,
    };
    connections.truncate(number);
    First { connections, next }
}
