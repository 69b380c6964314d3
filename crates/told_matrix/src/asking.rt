//! What a table is asked for.

ghost use Rattle.std.specs.Prelude.{◌≡◌, ◌<◌, IfErr, IfOk};
ghost use Rattle.std.specs.List.{All};
ghost use Rattle.timetable.specs.Table.{stops_of};
ghost use Rattle.told_matrix.specs.Asked.{AreStops, IsMatrix, IsNoMatrix, IsUnknownIn};

use crate::place::Place;
use answering::covered_moment;
use faults::Fault;
use feed_basis::Basis;
use pattern_query::Refusal;
use std::alloc::Global;
use std::slice;

/// What a table is asked for: the ids of the stops to leave from and of those to go to, each in their order, and the first and the last
/// moment to leave at, in seconds from the start of the first covered day. None for a moment that is none.
#[derive(Clone, Copy)]
pub struct Asked<'i, 'a> {
    pub origins: &'i [&'a str],
    pub goals: &'i [&'a str],
    pub first: Option<u32>,
    pub last: Option<u32>,
}

impl<'i, 'a> Asked<'i, 'a> {
    /// What is asked for by these ids and these moments.
    pub fn new(
        origins: &'i [&'a str],
        goals: &'i [&'a str],
        first: Option<u32>,
        last: Option<u32>,
    ) -> Asked<'i, 'a>
        ensures origins { result.origins.now ≡ origins.now }
        ensures goals { result.goals.now ≡ goals.now }
        ensures first { result.first ≡ first }
        ensures last { result.last ≡ last }
    {
        Asked {
            origins,
            goals,
            first,
            last,
        }
    }
}

/// The stops of a table, and its window.
#[derive(Drop)]
pub struct Matrix<'a> {
    pub origins: Vec<Place<'a>>,
    pub goals: Vec<Place<'a>>,
    pub first: u32,
    pub last: u32,
}

// The stops of ids, in their order, or the first id that no stop has.
fn places_of<'a>(alloc: Global, basis: &Basis, ids: &[&'a str]) -> Result<Vec<Place<'a>>, Fault<'a>>
    ensures stops { IfOk result (λ places. AreStops basis.now ids.now places.items) }
    ensures known { IfOk result (λ places. All (λ place. place.stop < stops_of basis.now.timetable) places.items) }
    ensures fault { IfErr result (IsUnknownIn basis.now ids.now) }
{
    let mut places = Vec::with_capacity(alloc, ids.len())?;
    for id in ids {
        let Some(stop) = basis.stop_named(id) else {
            return Err(Fault::Question(Refusal::UnknownStop(id)));
        };
        let place = Place { id, stop };
        places.extend_from_slice(slice::from_ref(&place))?;
    }
    Ok(places)
}

/// The stops of a table and its window. It fails at the first id to leave from that no stop has, or else at the first such id to go to, or
/// else if one of the moments isn't covered; or if memory runs out. A station is no stop.
pub fn matrix_of<'a>(
    alloc: Global,
    basis: &Basis,
    asked: &Asked<'_, 'a>,
) -> Result<Matrix<'a>, Fault<'a>>
    ensures matrix { IfOk result (IsMatrix basis.now asked.now) }
    ensures known { IfOk result (λ matrix. All (λ place. place.stop < stops_of basis.now.timetable) matrix.origins.items) }
    ensures fault { IfErr result (IsNoMatrix basis.now asked.now) }
{
    let origins = places_of(alloc, basis, asked.origins)?;
    let goals = places_of(alloc, basis, asked.goals)?;
    let Some(first) = covered_moment(basis, asked.first) else {
        return Err(Fault::Question(Refusal::NotCovered));
    };
    let Some(last) = covered_moment(basis, asked.last) else {
        return Err(Fault::Question(Refusal::NotCovered));
    };
    Ok(Matrix {
        origins,
        goals,
        first,
        last,
    })
}
