//! Walks and changes by the rows of a station.

use sample_feed::{Feed, Span, table_of};
use std::test::Fail;
use timetable::StopId;

// C and D are children of S. Between stops of S one changes or walks in a minute, but doesn't walk from C to D.
const STATION: Feed<'static> = Feed {
    stops: "stop_id,location_type,parent_station\nA,,\nB,,\nC,,S\nD,,S\nE,,\nS,1,\n",
    transfers: "from_stop_id,to_stop_id,transfer_type,min_transfer_time\nB,B,2,120\nC,E,2,240\nS,S,2,60\nC,D,3,\n",
    ..Feed::SAMPLE
};

#[test]
fn by_a_station(rt: HostRuntime) -> Result<(), Fail> {
    let table = table_of(&rt, STATION, Span::TUESDAY)?;
    let (c, d, e) = (StopId::new(2), StopId::new(3), StopId::new(4));
    assert_eq!(rt; table.walk(c, d), None);
    assert_eq!(rt; table.walk(d, c), Some(60));
    assert_eq!(rt; table.change(c), Some(60));
    assert_eq!(rt; table.change(d), Some(60));
    assert_eq!(rt; table.walk(c, e), Some(240));
    assert_eq!(rt; table.change(e), Some(0));
    Ok(())
}
