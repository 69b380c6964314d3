//! What a feed's files say, and what is passed over.

use gtfs_tables::Tables;
use sample_feed::{Feed, tables_of};
use std::test::Fail;

// The station of A stands after it; X is no stop, the second transfer is in a seat, and a call has no stop.
const SMALL: Feed<'static> = Feed {
    stops: "stop_id,location_type,parent_station\nA,,S\nB,0,\n,,\nX,2,\nS,1,\n",
    trips: "trip_id,service_id\nT1,WK\nT2,SA\nT3,WK\n",
    calendar_dates: "service_id,date,exception_type\nSA,20240106,1\nSA,20240113,1\n",
    stop_times: "trip_id,stop_id,stop_sequence,arrival_time,departure_time\nT1,B,9,08:10:00,\nT1,A,1,08:00:00,08:00:00\nT1,,4,,\n",
    transfers: "from_stop_id,to_stop_id,transfer_type,min_transfer_time\nA,B,2,120\nA,B,4,\n",
    ..Feed::SAMPLE
};

// How many stops, stations, services, trips, rows of each calendar, calls of the first trip, transfers, and rows of stop times and
// of transfers that were passed over.
fn counts(tables: &Tables) -> [usize; 10] {
    let calls = if tables.trips().is_empty() {
        0
    } else {
        tables.calls(0).len()
    };
    let skipped = tables.skipped();
    [
        tables.stops().len(),
        tables.stations().len(),
        tables.services().len(),
        tables.trips().len(),
        tables.calendar().len(),
        tables.calendar_dates().len(),
        calls,
        tables.transfers().len(),
        skipped.calls,
        skipped.transfers,
    ]
}

#[test]
fn rows_of_a_feed(rt: HostRuntime) -> Result<(), Fail> {
    let tables = tables_of(&rt, SMALL)?;
    assert!(rt; counts(&tables) == [2, 1, 2, 3, 1, 2, 2, 1, 1, 1]);
    Ok(())
}
