//! Answers to questions between two places.

ghost use Rattle.std.specs.Prelude.{◌≤◌, MatchResult};
ghost use Rattle.pattern_query.specs.Questions.{IsAnswer, IsRefusal};
ghost use Rattle.pattern_query.specs.Gathered.{IsTo, AddsAsked};

use crate::last::leave_last;
use crate::places::stops_of;
use crate::refusal::Refusal;
use crate::trees::Trees;
use crate::{Answer, BestSoFar, Patterns};
use direct_connections::Network;
use feed_ids::Names;
use timetable::{LATEST_MOMENT, StopId};

// Puts in the journeys of the patterns to each of the stops.
fn search_to(
    network: &Network,
    patterns: &Patterns,
    tos: &[StopId],
    depart: u32,
    best: &mut BestSoFar,
)
    requires early { depart ≤ LATEST_MOMENT }
    ensures { AddsAsked network.now (IsTo patterns.now tos.now) depart best.old best.new }
{
    for to in tos {
        best.search(network, patterns, *to, depart);
    }
}

/// The best journeys between two places, each a stop or a station by its id, at a moment. Of all journeys of the trees of the first place's
/// stops to the second place's stops, there is one for each of the numbers that no other's beat, by rising rides. If the trees are
/// complete, these are the best numbers of all journeys between these stops. A station without stops gives no journeys.
///
/// Of several journeys of the trees with the same numbers the answer has one that leaves last, and of those one that walks least. If the
/// trees are complete, none of all journeys between these stops leaves later with the same numbers.
///
/// It is refused if an id names nothing, the first before the second; else if the moment isn't covered; else if a tree isn't
/// there, with the id of the first stop that lacks one. The names are those of the timetable's feed. It takes no
/// memory.
pub fn ask_on<'a, T: Trees>(
    network: &Network,
    names: &'a Names,
    trees: &T,
    from: &'a str,
    to: &'a str,
    depart: u32,
) -> Result<Answer, Refusal<'a>>
    ensures { MatchResult result (IsAnswer network.now names.now (T.held trees.now) from.now to.now depart)
        (IsRefusal network.now names.now (T.held trees.now) from.now to.now depart) }
{
    let Some(start) = names.place(from) else {
        return Err(Refusal::UnknownStop(from));
    };
    let Some(end) = names.place(to) else {
        return Err(Refusal::UnknownStop(to));
    };
    if !network.timetable().covers(depart) {
        return Err(Refusal::NotCovered);
    }
    let (froms, tos) = (stops_of(&start), stops_of(&end));
    let mut best = BestSoFar::new();
    for source in froms {
        let Some(patterns) = trees.patterns(*source) else {
            return Err(Refusal::NotStored(names.stop(*source)));
        };
        search_to(network, patterns, tos, depart, &mut best);
    }
    leave_last(network, trees, froms, tos, depart, &mut best);
    Ok(best.answer())
}
