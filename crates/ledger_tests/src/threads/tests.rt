//! Many seats at once: what each was answered, beside the history.

use crate::threads::meeting::{NineAtWork, four_seats, nine_seats};
use crate::threads::setting::{bare_stops, ledger};
use std::alloc::{AllocError, Global};
use std::marker::Brand;
use std::sync::{Arc, Wait};
use std::test::Fail;
use std::thread::Threads;
use timetable::Timetable;
use work_ledger::{Call, Entry, Reply};

// The seat whose call it is, if only the seat `storer` takes and acknowledges.
fn seat_of(entry: &Entry, storer: usize) -> usize {
    match entry.call {
        Call::Claim(seat) | Call::HandIn(seat, _, _) | Call::GiveBack(seat, _) => usize::from(seat),
        Call::Take | Call::Ack(_, _) | Call::Stop => storer,
    }
}

// Whether who made the call waits, and is answered nothing yet.
fn waits(entry: &Entry) -> bool {
    entry.reply == Reply::Full || entry.reply == Reply::Empty
}

// Whether the replies that the seat got are just its entries in the history, in their order, but for those at which it waited.
fn is_history(history: &[Entry], seat: usize, storer: usize, told: &[Entry]) -> bool {
    let mut told = told.iter();
    for entry in history {
        if seat_of(entry, storer) == seat && !waits(entry) && told.next() != Some(entry) {
            return false;
        }
    }
    told.next().is_none()
}

// Whether the reply is the one that the call gets after the one before it.
fn is_right(before: Option<Reply>, entry: &Entry) -> bool {
    let done = match entry.call {
        Call::Claim(_) => return matches!(entry.reply, Reply::Source(_) | Reply::Closed),
        Call::Take => return matches!(entry.reply, Reply::Tree(_) | Reply::Closed),
        Call::Stop => return false,
        Call::HandIn(_, _, _) => true,
        Call::GiveBack(_, source) => before == Some(Reply::Source(source)),
        Call::Ack(source, _) => before == Some(Reply::Tree(source)),
    };
    entry.reply == if done { Reply::Done } else { Reply::NotYours }
}

// Whether each reply is right.
fn are_right(told: &[Entry]) -> bool {
    let mut before = None;
    for entry in told {
        if !is_right(before, entry) {
            return false;
        }
        before = Some(entry.reply);
    }
    true
}

// The numbers of the sources that were given out.
fn given_out(alloc: Global, history: &[Entry]) -> Result<Vec<usize>, AllocError> {
    let mut given = Vec::new(alloc);
    for entry in history {
        if let Reply::Source(source) = entry.reply {
            given.push(source.number())?;
        }
    }
    Ok(given)
}

// Whether each of `stops` sources was given out just once.
fn each_once(alloc: Global, history: &[Entry], stops: usize) -> Result<bool, AllocError> {
    let mut given = given_out(alloc, history)?;
    given.sort_unstable();
    Ok(
        given.len() == stops
            && given
                .iter()
                .zip(0..stops)
                .all(|(source, stop)| *source == stop),
    )
}

// Whether no seat has an entry but the first `seats` seats.
fn are_of(history: &[Entry], seats: usize) -> bool {
    history.iter().all(|entry| seat_of(entry, 0) < seats)
}

// Whether what seats were answered, of the numbers from `first` on, is right and just the history.
fn count(history: &[Entry], first: usize, storer: usize, told: &[Vec<Entry>]) -> bool {
    for number in 0..told.len() {
        let told = &told[number];
        let seat = first.saturating_add(number);
        if !are_right(told) || !is_history(history, seat, storer, told) {
            return false;
        }
    }
    true
}

// Four seats, of which the first takes a tree each time it handed one in, so that no call waits. Whether all that they were answered is
// right and just the history, in which each of `stops` sources is given out once.
fn four_count<R: Threads + Wait + Sync>(
    rt: &R,
    alloc: Global,
    table: &Arc<Timetable>,
    stops: usize,
) -> Result<bool, AllocError> {
    let seats = four_seats::<Brand, _>(rt, alloc, table, ledger(alloc, table, 256)?)?;
    let history = seats.history.as_slice();
    let agree = count(history, 0, 0, &seats.told)
        && are_of(history, 4)
        && !history.iter().any(waits);
    each_once(alloc, history, stops).map(|once| once && agree)
}

#[test]
fn shared_counts(rt: HostRuntime) -> Result<(), Fail> {
    let alloc = rt.alloc();
    let table = bare_stops(&rt, 120)?;
    assert!(rt; four_count(&rt, alloc, &table, 120)?);
    Ok(())
}

// Whether all that the nine seats were answered is right and just the history.
fn nine_agree(seats: &NineAtWork) -> bool {
    let history = seats.history.as_slice();
    count(history, 0, 8, &seats.first)
        && count(history, 4, 8, &seats.second)
        && are_right(&seats.last)
        && is_history(history, 8, 8, &seats.last)
        && are_of(history, 9)
}

// Eight seats, beside a ninth that stores, with room for one tree: whether they agree, and each of `stops` sources is given out once.
fn nine_count<R: Threads + Wait + Sync>(
    rt: &R,
    alloc: Global,
    table: &Arc<Timetable>,
    stops: usize,
) -> Result<bool, AllocError> {
    let seats = nine_seats::<Brand, _>(rt, alloc, table, ledger(alloc, table, 1)?)?;
    let agree = nine_agree(&seats);
    each_once(alloc, &seats.history, stops).map(|once| once && agree)
}

// Ten times over 10,000 sources.
#[test]
fn each_source_once(rt: HostRuntime) -> Result<(), Fail> {
    let alloc = rt.alloc();
    let table = bare_stops(&rt, 10_000)?;
    for _ in 0..10_u32 {
        assert!(rt; nine_count(&rt, alloc, &table, 10_000)?);
    }
    Ok(())
}
