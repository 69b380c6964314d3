//! The connections of windows.

use connections::{Connection, Window, ask_connections, scan_connections};
use direct_connections::Network;
use pattern_building::build;
use pattern_query::{Patterns, Trees};
use rounds::{Rides, Scratch};
use sample_feed::demo;
use std::sync::Arc;
use std::test::Fail;
use timetable::StopId;

// From A, from a moment to a moment, to a stop: the departures, the arrivals and the rides, worked by hand. T1 leaves A at 08:00 and is at
// C at 08:30, four minutes from E; by a change at B one is at D at 08:40. T3 leaves A at 08:05 and is at D at 09:00.
const CASES: [(u32, u32, u32, &[(u32, u32, u8)]); 7] = [
    (
        28_800,
        29_400,
        3,
        &[(28_800, 31_200, 2), (29_100, 32_400, 1)],
    ),
    (28_800, 29_099, 3, &[(28_800, 31_200, 2)]),
    (28_801, 29_100, 3, &[(29_100, 32_400, 1)]),
    (29_101, 90_000, 3, &[]),
    (29_100, 28_800, 3, &[]),
    (0, u32::MAX, 4, &[(28_800, 30_840, 1)]),
    (0, u32::MAX, 0, &[]),
];

// The patterns of one source.
#[derive(Clone, Copy)]
struct One<'a>(&'a Patterns);

impl Trees for One<'_> {
    ghost use Rattle.std.specs.Prelude.{◌==◌, None, Some, cond};

    ghost held = { λ one s. cond (one.0.now.source == s) (Some one.0.now) None };

    fn patterns(&self, source: StopId) -> Option<&Patterns> {
        if self.0.source() == source {
            Some(self.0)
        } else {
            None
        }
    }
}

// Whether a connection has these numbers, and as many rides as they say.
fn has_numbers(connection: &Connection, numbers: (u32, u32, u8)) -> bool {
    let journey = &connection.journey;
    let (departure, arrival, rides) = numbers;
    connection.departure == departure
        && journey.arrival() == arrival
        && journey.rides() == rides
        && journey.legs().len() == rides as usize
}

// Whether a list has these numbers, one after the other.
fn are_these(list: &[Connection], wanted: &[(u32, u32, u8)]) -> bool {
    list.len() == wanted.len()
        && list
            .iter()
            .zip(wanted)
            .all(|(connection, numbers)| has_numbers(connection, *numbers))
}

#[test]
fn connections_by_rounds(rt: HostRuntime) -> Result<(), Fail> {
    let network = Network::of(rt.alloc(), Arc::new(rt.alloc(), demo(&rt)?)?)?;
    for (first, last, to, wanted) in CASES {
        let mut scratch = Scratch::new(rt.alloc(), network.timetable(), Rides::new(3))?;
        let window = Window { first, last };
        let (from, to) = (StopId::new(0), StopId::new(to));
        if to.number() >= network.timetable().stops() {
            return Err(Fail::new("another number of stops"));
        }
        let found = scan_connections(rt.alloc(), &network, &mut scratch, from, to, window)?;
        assert!(rt; are_these(&found, wanted));
    }
    Ok(())
}

#[test]
fn connections_by_a_tree(rt: HostRuntime) -> Result<(), Fail> {
    let network = Network::of(rt.alloc(), Arc::new(rt.alloc(), demo(&rt)?)?)?;
    let table = network.timetable();
    let mut scratch = Scratch::new(rt.alloc(), table, Rides::new(3))?;
    let tree = build(rt.alloc(), rt.alloc(), table, StopId::new(0), &mut scratch)?;
    let patterns = Patterns::of(rt.alloc(), &tree)?;
    for (first, last, to, wanted) in CASES {
        let window = Window { first, last };
        let (froms, tos) = ([StopId::new(0)], [StopId::new(to)]);
        let trees = One(&patterns);
        let found = ask_connections(rt.alloc(), &network, &trees, &froms, &tos, window)?;
        assert!(rt; are_these(&found, wanted));
    }
    Ok(())
}
