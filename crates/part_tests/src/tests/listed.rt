//! All faults of a feed.

use feed_faults::list_faults;
use gtfs_tables::FaultKind::{DuplicateKey, UnknownReference};
use gtfs_tables::FeedFile::{Stops, Transfers};
use gtfs_tables::{FeedFault, Files};
use sample_feed::Feed;
use std::hash::RandomState;
use std::test::Fail;

// The id A comes twice, and there is no stop X.
const FAULTY: Feed<'static> = Feed {
    stops: "stop_id\nA\nB\nC\nD\nE\nA\n",
    transfers: "from_stop_id,to_stop_id,transfer_type,min_transfer_time\nB,B,2,120\nC,X,2,240\n",
    ..Feed::SAMPLE
};

#[test]
fn two_faults(rt: HostRuntime) -> Result<(), Fail> {
    let files = Files {
        stops: Some(FAULTY.stops.as_bytes()),
        trips: Some(FAULTY.trips.as_bytes()),
        calendar: Some(FAULTY.calendar.as_bytes()),
        calendar_dates: Some(FAULTY.calendar_dates.as_bytes()),
        stop_times: Some(FAULTY.stop_times.as_bytes()),
        transfers: Some(FAULTY.transfers.as_bytes()),
        frequencies: None,
    };
    let wanted = [
        FeedFault::new(DuplicateKey, Stops, 6),
        FeedFault::new(UnknownReference, Transfers, 2),
    ];
    let list = list_faults(rt.alloc(), RandomState::new(&rt)?, files)?;
    assert!(rt; list.faults.as_slice() == &wanted[..]);
    assert!(rt; list.more == 0 && !list.unread);
    Ok(())
}
