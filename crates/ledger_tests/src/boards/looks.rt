//! Looks before and after a tree is shown, between trees, and once the board is closed.

ghost use Rattle.std.specs.Prelude.{◌≡◌};

use super::setting::{Showing, opened, stored, tree};
use board::{Reader, open};
use sample_feed::demo;
use std::alloc::{AllocError, Global};
use std::sync::Arc;
use std::test::Fail;
use timetable::{Rides, StopId};

// How many trees are published one after the other.
const PUBLISHED: u64 = 1_000;

// Whether the reader finds the tree of a stop, and how many trees are shown; none if the look is refused.
fn finds(reader: Reader, source: StopId) -> (Reader, Option<(bool, u64)>)
    ensures { result.0.told.book ≡ reader.told.book }
{
    match reader.look() {
        Err(reader) => (reader, None),
        Ok(view) => {
            let found = view
                .patterns(source)
                .is_some_and(|patterns| patterns.source() == source);
            let count = view.told().count();
            (view.leave(), Some((found, count)))
        }
    }
}

// Looks with each reader; whether each found this.
fn all_find(
    alloc: Global,
    readers: Vec<Reader>,
    expected: Option<(bool, u64)>,
) -> Result<(Vec<Reader>, bool), AllocError> {
    let mut back = Vec::new(alloc);
    let mut right = true;
    for reader in readers {
        let (reader, found) = finds(reader, StopId::default());
        right = right && found == expected;
        back.push(reader)?;
    }
    Ok((back, right))
}

#[test]
fn found_once_told(rt: HostRuntime) -> Result<(), Fail> {
    let alloc = rt.alloc();
    let table = Arc::new(alloc, demo(&rt)?)?;
    let b = tree(alloc, &table, 1)?;
    let source = b.tree().source();
    let stored = stored(alloc, b)?;
    let (mut writer, reader) = opened(&rt, alloc, &table)?;
    let (mut reader, before) = finds(reader, source);
    let shown = writer.publish(&rt, stored).is_ok();
    reader.learn(&writer.tell());
    let (reader, after) = finds(reader, source);
    writer.close(&rt);
    let (_reader, closed) = finds(reader, source);
    assert!(rt; shown);
    assert_eq!(rt;
        (before, after, closed),
        (Some((false, 0)), Some((true, 1)), None)
    );
    Ok(())
}

// After each publish a look shows one tree more.
#[test]
fn each_look_shows_what_was_published(rt: HostRuntime) -> Result<(), Fail> {
    let alloc = rt.alloc();
    let table = Arc::new(alloc, demo(&rt)?)?;
    let tree = tree(alloc, &table, 0)?;
    let (writer, reader) = opened(&rt, alloc, &table)?;
    let mut showing = Showing { writer, tree };
    let mut reader = reader;
    let mut right = true;
    for number in 1..=PUBLISHED {
        let shown = showing.show_one(&rt, alloc);
        let (back, found) = finds(reader, StopId::default());
        reader = back;
        right = right && shown && found == Some((true, number));
    }
    showing.close(&rt);
    assert!(rt; right);
    Ok(())
}

// Each of the readers that a board was opened for may look, until it is closed.
#[test]
fn each_reader_looks_until_the_end(rt: HostRuntime) -> Result<(), Fail> {
    let alloc = rt.alloc();
    let table = Arc::new(alloc, demo(&rt)?)?;
    for places in [1, 64] {
        let (writer, readers) = open(alloc, &rt, &table, Rides::new(3), Vec::new(alloc), places)?;
        let looked = all_find(alloc, readers, Some((false, 0)));
        writer.close(&rt);
        let (readers, before) = looked?;
        let (readers, after) = all_find(alloc, readers, None)?;
        assert!(rt; before && after && readers.len() == places);
    }
    Ok(())
}
