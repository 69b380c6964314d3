//! The ways that begin with a ride.

ghost use Rattle.std.specs.Prelude.{◌≡◌, ℕ, ◌<◌, [], length, IfOk, OnOk};
ghost use Rattle.std.specs.List.{All, Contains};
ghost use Rattle.timetable.specs.Table.{IsTable};
ghost use Rattle.least_walks.specs.Ways.{Gathers, RidesTo, RidesAmong, StopsFrom, Anywhere, ways_at};
ghost use Rattle.least_walks.specs.Layers.{AreBoards};

use crate::way::Way;
use crate::ways::{Ways, row_at};
use direct_connections::Network;
use lines::Halt;
use std::alloc::{AllocError, Global};
use timetable::StopId;

// Adds the ways of the last rides from a stop to a stop that are in time for one of the ways on from there.
fn add_rides(
    network: &Network,
    board: StopId,
    alight: StopId,
    row: &[Way],
    bound: u32,
    ways: &mut Ways,
) -> Result<(), AllocError>
    requires short { All (λ w. length w.path < 8) row.now }
    ensures { OnOk result (Gathers (RidesTo network.now board alight (Contains row.now)) 0 bound ways.old ways.new) }
{
    for way in row {
        if let Some(ride) = network.latest_ride(board, alight, way.moment()) {
            ways.offer(0, bound, way.after_ride((board, alight), ride.departure))?;
        }
    }
    Ok(())
}

// Adds the ways of the rides from a stop to those of a line's halts from this position on.
fn add_line(
    network: &Network,
    board: StopId,
    halts: &[Halt],
    first: usize,
    alights: &[Ways],
    bound: u32,
    ways: &mut Ways,
) -> Result<(), AllocError>
    requires short { (p : ℕ) → All (λ w. length w.path < 8) (ways_at alights.now p) }
    ensures { OnOk result (Gathers (RidesAmong network.now board (StopsFrom halts.now first) alights.now) 0 bound ways.old ways.new) }
{
    for position in first..halts.len() {
        let alight = halts[position].stop;
        let row = row_at(alights, alight);
        add_rides(network, board, alight, row, bound, ways)?;
    }
    Ok(())
}

// The ways on from a stop that begin with a ride.
fn boards_at(
    alloc: Global,
    network: &Network,
    board: StopId,
    alights: &[Ways],
    bound: u32,
) -> Result<Ways, AllocError>
    requires short { (p : ℕ) → All (λ w. length w.path < 8) (ways_at alights.now p) }
    ensures { IfOk result (Gathers (RidesAmong network.now board Anywhere alights.now) 0 bound []) }
{
    let lines = network.lines();
    let mut ways = Ways::new(alloc);
    for at in lines.positions_at(board) {
        let halts = lines.line(at.line as usize).halts();
        let first = at.position as usize + 1;
        add_line(network, board, halts, first, alights, bound, &mut ways)?;
    }
    Ok(ways)
}

/// For each stop the ways on from there that begin with a ride, after which one of the ways on from its stop of alighting follows. Each
/// has less than `bound` seconds on foot. It fails only if memory runs out.
pub(crate) fn boards_of(
    alloc: Global,
    network: &Network,
    alights: &[Ways],
    bound: u32,
) -> Result<Vec<Ways>, AllocError>
    requires short { (p : ℕ) → All (λ w. length w.path < 8) (ways_at alights.now p) }
    ensures boards { IfOk result (λ rows. AreBoards network.now bound alights.now rows.items) }
    ensures valid { IsTable network.now }
{
    let stops = network.timetable().stops();
    let mut rows = Vec::with_capacity(alloc, stops)?;
    for number in 0..stops {
        let stop = StopId::new(number as u32);
        rows.push(boards_at(alloc, network, stop, alights, bound)?)?;
    }
    Ok(rows)
}
