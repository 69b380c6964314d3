//! Calls with the replies that they get by the table, made one after the other. A call to which memory is refused is made once
//! more, so with the Nth allocation failing a history is the same, whatever N is.

ghost use Rattle.std.specs.Prelude.{◌<◌, ◌≡◌};
ghost use Rattle.std.specs.Arc.{arc_value};
ghost use Rattle.timetable.specs.Table.{stops_of};

use pattern_building::finish;
use pattern_tree::{Arena, Finished, TreeFault};
use rounds::Scratch;
use sample_feed::{demo, of_calls};
use std::alloc::{AllocError, Global};
use std::sync::Arc;
use std::test::Fail;
use timetable::{Rides, StopId, Timetable};
use work_ledger::{Call, Fault, Ledger, Outcome, Refusal, Reply};

/// A finished tree of a stop.
pub fn tree(
    alloc: Global,
    table: &Arc<Timetable>,
    k: u8,
    source: u32,
) -> Result<Finished, TreeFault>
    requires stops { stops_of (arc_value table.now) ≡ 5 }
    requires source { source < 5 }
    requires some { 0 < k }
    requires few { k < 9 }
{
    let k = Rides::new(k);
    let mut scratch = Scratch::new(alloc, table, k)?;
    let mut arena = Arena::new(alloc)?;
    finish(
        alloc,
        table,
        StopId::new(source),
        k,
        &mut scratch,
        &mut arena,
    )
}

// Hands in the first tree of the source; it comes back to the others if it is refused.
fn hand_in(
    ledger: &mut Ledger,
    trees: &mut Vec<Finished>,
    seat: u8,
    source: StopId,
) -> Result<(), AllocError> {
    let Some(at) = trees.iter().position(|t| t.tree().source() == source) else {
        return Ok(());
    };
    let back = match ledger.hand_in(seat, trees.swap_remove(at)) {
        Err((Refusal::Memory, tree)) => ledger.hand_in(seat, tree),
        other => other,
    };
    if let Err((_, tree)) = back {
        trees.push(tree).map_err(|_| AllocError)?;
    }
    Ok(())
}

// Makes the call, and once more if memory was refused.
fn call(ledger: &mut Ledger, trees: &mut Vec<Finished>, call: Call) -> Result<(), AllocError> {
    match call {
        Call::Claim(seat) => {
            if ledger.claim(seat).is_err() {
                ledger.claim(seat)?;
            }
        }
        Call::HandIn(seat, source, _) => hand_in(ledger, trees, seat, source)?,
        Call::GiveBack(seat, source) => {
            if ledger.give_back(seat, source) == Err(Fault::Memory) {
                let _ = ledger.give_back(seat, source);
            }
        }
        Call::Take => {
            if ledger.take().is_err() {
                ledger.take()?;
            }
        }
        Call::Ack(source, outcome) => {
            if ledger.ack(source, outcome) == Err(Fault::Memory) {
                let _ = ledger.ack(source, outcome);
            }
        }
        Call::Stop => {
            if ledger.stop().is_err() {
                ledger.stop()?;
            }
        }
    }
    Ok(())
}

// Whether these calls, made in turn, make just this history.
fn makes(
    ledger: &mut Ledger,
    trees: &mut Vec<Finished>,
    entries: &[(Call, Reply)],
) -> Result<bool, AllocError> {
    for (made, _) in entries {
        call(ledger, trees, *made)?;
    }
    let history = ledger.history();
    Ok(
        history.len() == entries.len()
            && history.iter().zip(entries).all(|(entry, (call, reply))| entry.call == *call
                && entry.reply == *reply),
    )
}

// Two seats with room for one tree, until no source is given out.
#[test]
fn two_seats(rt: HostRuntime) -> Result<(), Fail> {
    let table = Arc::new(rt.alloc(), demo(&rt)?)?;
    let mut trees = Vec::new(rt.alloc());
    trees.push(tree(rt.alloc(), &table, 3, 0)?)?;
    trees.push(tree(rt.alloc(), &table, 3, 1)?)?;
    let mut ledger = Ledger::new(rt.alloc(), &table, Rides::new(3), &[], 1)?;
    let (a, b) = (StopId::new(0), StopId::new(1));
    let entries = [
        (Call::Claim(0), Reply::Source(a)),
        (Call::Claim(1), Reply::Source(b)),
        (Call::HandIn(0, b, true), Reply::NotYours),
        (Call::HandIn(0, a, true), Reply::Done),
        (Call::HandIn(1, b, true), Reply::Full),
        (Call::Take, Reply::Tree(a)),
        (Call::HandIn(1, b, true), Reply::Done),
        (Call::Stop, Reply::Done),
        (Call::Claim(0), Reply::Closed),
        (Call::Take, Reply::Tree(b)),
        (Call::Take, Reply::Closed),
        (Call::Ack(a, Outcome::Keep), Reply::Done),
        (Call::Ack(a, Outcome::Keep), Reply::NotYours),
    ];
    assert!(rt; makes(&mut ledger, &mut trees, &entries)?);
    Ok(())
}

// The replies that are left, over a ledger that compares timetables by value: three sources are stored, one is dropped, one is
// handed in.
#[test]
fn other_replies(rt: HostRuntime) -> Result<(), Fail> {
    let table = Arc::new(rt.alloc(), demo(&rt)?)?;
    let equal = Arc::new(rt.alloc(), table.try_copy(rt.alloc())?)?;
    let other = Arc::new(rt.alloc(), of_calls(&rt, "")?)?;
    let (a, b, c) = (StopId::new(0), StopId::new(1), StopId::new(2));
    let mut trees = Vec::new(rt.alloc());
    trees.push(tree(rt.alloc(), &table, 2, 0)?)?;
    trees.push(tree(rt.alloc(), &table, 3, 1)?)?;
    trees.push(tree(rt.alloc(), &other, 3, 2)?)?;
    let stored = [StopId::new(4), c, StopId::new(3)];
    let mut ledger = Ledger::new(rt.alloc(), &equal, Rides::new(3), &stored, 1)?;
    let entries = [
        (Call::Take, Reply::Empty),
        (Call::Claim(7), Reply::Source(a)),
        (Call::HandIn(7, a, false), Reply::OtherTimetable),
        (Call::HandIn(7, c, false), Reply::OtherTimetable),
        (Call::GiveBack(8, a), Reply::NotYours),
        (Call::GiveBack(7, a), Reply::Done),
        (Call::GiveBack(7, a), Reply::NotYours),
        (Call::Claim(7), Reply::Source(b)),
        (Call::Claim(7), Reply::Closed),
        (Call::Take, Reply::Empty),
        (Call::HandIn(7, b, true), Reply::Done),
        (Call::Take, Reply::Tree(b)),
        (Call::Ack(b, Outcome::Discard), Reply::Done),
        (Call::Ack(a, Outcome::Keep), Reply::NotYours),
        (Call::Take, Reply::Closed),
    ];
    assert!(rt; makes(&mut ledger, &mut trees, &entries)?);
    Ok(())
}
