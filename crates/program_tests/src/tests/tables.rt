//! Tables of travel times, over files of stops that can't be read and an output that refuses.

use super::runs::{Given, left_by};
use std::str;
use std::test::Fail;

// At 07:59:59 one waits a second for the trip, which takes 600, and at 08:00:01 it is gone: so of three seconds the median is 601.
const TABLE: &str =
    "from_id,to_id,least,median,greatest\r\nA,A,0,0,0\r\nA,B,600,601,\r\nB,A,,,\r\nB,B,0,0,0\r\n";

// The table between the stops of two files.
fn words<'a>(from: &'a str, to: &'a str) -> [&'a str; 16] {
    [
        "tp",
        "matrix",
        "--feed",
        "feed",
        "--date",
        "20240102",
        "--rides",
        "1",
        "--from-file",
        from,
        "--to-file",
        to,
        "--at",
        "07:59:59",
        "--until",
        "08:00:01",
    ]
}

// Of each place at which the output refuses, the bytes before it stand there.
#[test]
fn a_table_up_to_where_it_is_refused(rt: HostRuntime) -> Result<(), Fail> {
    for room in 0..=TABLE.len() {
        let mut given = Given::new(&rt)?;
        given.room = room;
        let left = left_by(&rt, &rt, &words("stops", "stops"), given);
        assert_eq!(rt; left.out.as_slice(), &TABLE.as_bytes()[..room]);
        assert_eq!(rt; left.status, if room < TABLE.len() { 8 } else { 0 });
    }
    Ok(())
}

// The first file that isn't read is reported, and nothing is printed.
#[test]
fn files_of_stops_that_are_not_read(rt: HostRuntime) -> Result<(), Fail> {
    let rows = [
        ("broken", "nowhere", 6, "tp: L1 ReadFailed broken\n"),
        ("nowhere", "broken", 6, "tp: L1 ReadFailed nowhere\n"),
        ("stops", "broken", 6, "tp: L1 ReadFailed broken\n"),
        ("stops", "nowhere", 6, "tp: L1 ReadFailed nowhere\n"),
        ("starved", "nowhere", 7, "tp: Memory\n"),
        ("stops", "starved", 7, "tp: Memory\n"),
    ];
    for (from, to, status, fault) in rows {
        let left = left_by(&rt, &rt, &words(from, to), Given::new(&rt)?);
        assert_eq!(rt;
            str::from_utf8(left.err.as_slice())?.starts_with(fault),
            true
        );
        assert_eq!(rt; left.out.len(), 0);
        assert_eq!(rt; left.status, status);
    }
    Ok(())
}
