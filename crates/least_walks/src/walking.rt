//! The ways that begin with a walk or a change.

ghost use Rattle.std.specs.Prelude.{◌≡◌, ◌<◌, ◌≤◌, [], IfOk, OnOk};
ghost use Rattle.std.specs.List.{Contains};
ghost use Rattle.timetable.specs.Table.{stops_of};
ghost use Rattle.least_walks.specs.Ways.{Gathers, WalksTo, HopsTo, HopsAmong, Anywhere};

use crate::way::Way;
use crate::ways::{Ways, row_at};
use direct_connections::Network;
use pattern_query::foot;
use std::alloc::{AllocError, Global};
use timetable::StopId;

/// The way of the last walk, from a stop to another, to be there by then. It fails only if memory runs out.
pub(crate) fn last_walk(
    alloc: Global,
    network: &Network,
    from: StopId,
    to: StopId,
    by: u32,
    bound: u32,
) -> Result<Ways, AllocError>
    ensures { IfOk result (Gathers (WalksTo network.now from to by) 0 bound []) }
{
    let mut ways = Ways::new(alloc);
    if let Some(seconds) = foot(network, from, to) {
        if let Some(moment) = by.checked_sub(seconds) {
            ways.offer(0, bound, Way::on_foot(moment, seconds))?;
        }
    }
    Ok(ways)
}

// Adds the ways of the row with `seconds` before them, of which `feet` are on foot.
fn add_hops(
    row: &[Way],
    seconds: u32,
    feet: u32,
    since: u32,
    bound: u32,
    ways: &mut Ways,
) -> Result<(), AllocError>
    ensures { OnOk result (Gathers (HopsTo seconds feet (Contains row.now)) since bound ways.old ways.new) }
{
    for way in row {
        let Some(moment) = way.moment().checked_sub(seconds) else {
            continue;
        };
        let Some(walked) = feet.checked_add(way.walked()) else {
            continue;
        };
        ways.offer(since, bound, way.after_hop(moment, walked))?;
    }
    Ok(())
}

/// The ways on from a stop, before any ride or after one. One changes there or walks, and then takes a way of the rows that begins with a
/// ride. Each can be taken at `since` or later, and has less than `bound` seconds on foot. It fails only if memory runs out.
pub(crate) fn hops_from(
    alloc: Global,
    network: &Network,
    ridden: bool,
    from: StopId,
    boards: &[Ways],
    since: u32,
    bound: u32,
) -> Result<Ways, AllocError>
    requires from { from < stops_of network.now }
    ensures { IfOk result (Gathers (HopsAmong network.now ridden from Anywhere boards.now) since bound []) }
{
    let table = network.timetable();
    let mut ways = Ways::new(alloc);
    let stay = if ridden { table.change(from) } else { Some(0) };
    if let Some(seconds) = stay {
        add_hops(row_at(boards, from), seconds, 0, since, bound, &mut ways)?;
    }
    for walk in table.walks_from(from) {
        let row = row_at(boards, walk.to);
        add_hops(row, walk.seconds, walk.seconds, since, bound, &mut ways)?;
    }
    Ok(ways)
}
