//! A ledger of the sample feed's sources, with room for one waiting tree.

use crate::seen::Seen;
use pattern_tree::Finished;
use sample_store::Sample;
use std::alloc::{AllocError, Global};
use std::test::Fail;
use timetable::{Rides, StopId};
use work_ledger::{Call, Claimed, Fault, Ledger, Outcome, Refusal, Reply};

// The trees that aren't handed in yet.
type Trees = Vec<Finished>;

// Hands in the tree of the source, which comes back to the others if it is refused.
fn hand_in(
    ledger: &mut Ledger,
    trees: &mut Trees,
    seat: u8,
    source: StopId,
) -> Result<(), AllocError> {
    let Some(at) = trees.iter().position(|t| t.tree().source() == source) else {
        return Err(AllocError);
    };
    let Err((refusal, tree)) = ledger.hand_in(seat, trees.swap_remove(at)) else {
        return Ok(());
    };
    trees.push(tree).map_err(|_| AllocError)?;
    if refusal == Refusal::Memory {
        return Err(AllocError);
    }
    Ok(())
}

// Makes a call. An `Err` is want of memory.
fn make(ledger: &mut Ledger, trees: &mut Trees, call: Call) -> Result<(), AllocError> {
    match call {
        Call::Claim(seat) => {
            let _claimed = ledger.claim(seat)?;
        }
        Call::HandIn(seat, source, _) => hand_in(ledger, trees, seat, source)?,
        Call::Take => {
            let _taken = ledger.take()?;
        }
        Call::Stop => ledger.stop()?,
        Call::GiveBack(seat, source) => {
            if ledger.give_back(seat, source) == Err(Fault::Memory) {
                return Err(AllocError);
            }
        }
        Call::Ack(source, outcome) => {
            if ledger.ack(source, outcome) == Err(Fault::Memory) {
                return Err(AllocError);
            }
        }
    }
    Ok(())
}

// Whether the history is these entries.
fn has_history(ledger: &Ledger, entries: &[(Call, Reply)]) -> bool {
    let history = ledger.history();
    history.len() == entries.len()
        && history.iter().zip(entries).all(|(entry, (call, reply))| entry.call == *call
            && entry.reply == *reply)
}

// Makes the call of the entry of that number after those before it. If memory is refused, the history and what can be seen of the queue
// must be as before, and the call is made once more. Its reply, and those of all later calls, are as if nothing had been refused.
fn make_next(
    ledger: &mut Ledger,
    trees: &mut Trees,
    entries: &[(Call, Reply)],
    number: usize,
) -> Seen {
    let (Some(before), Some(whole), Some((call, _))) = (
        entries.get(..number),
        entries.get(..=number),
        entries.get(number),
    ) else {
        return Seen::Wrong("no such entry");
    };
    let queue = (ledger.is_full(), ledger.awaits_tree());
    if make(ledger, trees, *call).is_ok() {
        return Seen::right_if(has_history(ledger, whole), "another entry");
    }
    let stood = has_history(ledger, before) && queue == (ledger.is_full(), ledger.awaits_tree());
    let made = make(ledger, trees, *call).is_ok();
    let is_right = stood && made && has_history(ledger, whole);
    Seen::again("L1 Memory", "the same history", is_right)
}

/// Two seats, until no source is given out.
pub fn two_seats(alloc: Global, sample: &Sample) -> Result<Seen, Fail> {
    let mut trees = Vec::with_capacity(alloc, 5)?;
    for tree in sample.trees.iter().take(2) {
        trees.push(tree.try_copy(alloc)?)?;
    }
    let mut ledger = Ledger::new(alloc, &sample.table, Rides::new(3), &[], 1)?;
    let (a, b) = (StopId::new(0), StopId::new(1));
    let entries = [
        (Call::Claim(0), Reply::Source(a)),
        (Call::Claim(1), Reply::Source(b)),
        (Call::HandIn(0, b, true), Reply::NotYours),
        (Call::HandIn(0, a, true), Reply::Done),
        (Call::HandIn(1, b, true), Reply::Full),
        (Call::Take, Reply::Tree(a)),
        (Call::HandIn(1, b, true), Reply::Done),
        (Call::Stop, Reply::Done),
        (Call::Claim(0), Reply::Closed),
        (Call::Take, Reply::Tree(b)),
        (Call::Take, Reply::Closed),
        (Call::Ack(a, Outcome::Keep), Reply::Done),
        (Call::Ack(a, Outcome::Keep), Reply::NotYours),
    ];
    let mut seen = Seen::Right;
    for number in 0..entries.len() {
        seen = make_next(&mut ledger, &mut trees, &entries, number).after(seen);
    }
    Ok(seen)
}

/// A claimed source is given back at once, whatever memory there is.
pub fn gives_back(alloc: Global, sample: &Sample) -> Result<Seen, Fail> {
    let mut ledger = Ledger::new(alloc, &sample.table, Rides::new(3), &[], 1)?;
    for _ in 0..sample.table.stops() {
        let claimed = match ledger.claim(0) {
            Ok(claimed) => claimed,
            Err(_) => ledger.claim(0)?,
        };
        let Claimed::Source(source) = claimed else {
            return Ok(Seen::Wrong("no source to claim"));
        };
        if ledger.give_back(0, source).is_err() {
            return Ok(Seen::Wrong("a source that wasn't taken back"));
        }
    }
    Ok(Seen::Right)
}
