//! Workers that meet at one ledger, each in a thread of its own.

ghost use Rattle.std.specs.Prelude.{◌≡◌, ◌<◌, ◌≤◌};

use crate::threads::setting::Workshop;
use crate::threads::working::Worker;
use shared_ledger::{Basis, Seat, Shared};
use std::alloc::{AllocError, Global};
use std::sync::{Arc, Wait};
use std::thread;
use std::thread::Threads;
use timetable::Timetable;
use work_ledger::{Entry, Ledger};

// The number of the ninth seat, which stores.
const STORER: u8 = 8;

// How many trees each seat hands in at most.
const HANDED_IN: u32 = 15;

/// What four seats were answered, and the history that was made meanwhile.
#[derive(Drop)]
pub struct FourAtWork {
    pub told: [Vec<Entry>; 4],
    pub history: Vec<Entry>,
}

/// What eight seats were answered, what a ninth that stores was answered, and the history that was made meanwhile.
#[derive(Drop)]
pub struct NineAtWork {
    pub first: [Vec<Entry>; 4],
    pub second: [Vec<Entry>; 4],
    pub last: Vec<Entry>,
    pub history: Vec<Entry>,
}

/// The ledger with `seats` seats.
pub fn opened<B: Basis>(
    alloc: Global,
    ledger: Ledger,
    seats: usize,
) -> Result<(Shared<B>, Vec<Seat>), AllocError>
    requires table { ledger.table ≡ B.table }
    requires rides { ledger.rides ≡ B.rides }
    requires some { 0 < seats }
    requires most { seats ≤ 256 }
{
    Shared::open(alloc, ledger, seats).map_err(|(_ledger, fault)| fault)
}

/// The history so far.
pub fn history<B: Basis, R: Wait>(
    rt: &R,
    alloc: Global,
    shared: &Shared<B>,
    seat: &Seat,
) -> Result<Vec<Entry>, AllocError> {
    let mut history = Vec::new(alloc);
    for number in 0..shared.entries(rt, seat) {
        if let Some(entry) = shared.entry(rt, seat, number) {
            history.push(entry)?;
        }
    }
    Ok(history)
}

// How often one looks for what others are to do.
const LONG: u32 = 10_000_000;

/// Looks until the history has `entries` entries; whether it came to that.
pub fn comes_to<B: Basis, R: Wait>(
    rt: &R,
    shared: &Shared<B>,
    seat: &Seat,
    entries: usize,
) -> bool {
    for _ in 0..LONG {
        if shared.entries(rt, seat) >= entries {
            return true;
        }
        thread::yield_now();
    }
    false
}

// Works at a seat to the end. The seat of number `storer` stores too.
fn work<B: Basis, R: Wait>(
    rt: &R,
    alloc: Global,
    shared: &Shared<B>,
    table: &Arc<Timetable>,
    storer: u8,
    seat: Seat,
) -> Vec<Entry> {
    let stores = seat.number() == storer;
    let mut worker = Worker::new(rt, alloc, shared, seat);
    if let Ok(mut workshop) = Workshop::new(alloc, table) {
        worker.work(&mut workshop, HANDED_IN, stores);
    }
    worker.leave()
}

// Stores until no tree comes.
fn store_all<B: Basis, R: Wait>(
    rt: &R,
    alloc: Global,
    shared: &Shared<B>,
    seat: Seat,
) -> Vec<Entry> {
    let mut worker = Worker::new(rt, alloc, shared, seat);
    for _ in 0..u32::MAX {
        if !worker.store() {
            break;
        }
    }
    worker.leave()
}

// Two seats at once.
fn pair<B: Basis + Send + Sync, R: Threads + Wait + Sync>(
    rt: &R,
    alloc: Global,
    shared: &Shared<B>,
    table: &Arc<Timetable>,
    storer: u8,
    seats: [Seat; 2],
) -> (Vec<Entry>, Vec<Entry>) {
    let [a, b] = seats;
    thread::join(
        rt,
        || work(rt, alloc, shared, table, storer, a),
        || work(rt, alloc, shared, table, storer, b),
    )
}

// Four seats at once.
fn four<B: Basis + Send + Sync, R: Threads + Wait + Sync>(
    rt: &R,
    alloc: Global,
    shared: &Shared<B>,
    table: &Arc<Timetable>,
    storer: u8,
    seats: [Seat; 4],
) -> [Vec<Entry>; 4] {
    let [a, b, c, d] = seats;
    let ((a, b), (c, d)) = thread::join(
        rt,
        || pair(rt, alloc, shared, table, storer, [a, b]),
        || pair(rt, alloc, shared, table, storer, [c, d]),
    );
    [a, b, c, d]
}

// Eight seats at once.
fn eight<B: Basis + Send + Sync, R: Threads + Wait + Sync>(
    rt: &R,
    alloc: Global,
    shared: &Shared<B>,
    table: &Arc<Timetable>,
    storer: u8,
    seats: ([Seat; 4], [Seat; 4]),
) -> ([Vec<Entry>; 4], [Vec<Entry>; 4]) {
    let (first, second) = seats;
    thread::join(
        rt,
        || four(rt, alloc, shared, table, storer, first),
        || four(rt, alloc, shared, table, storer, second),
    )
}

// Eight seats at once, and one that stores.
fn eight_and_one<B: Basis + Send + Sync, R: Threads + Wait + Sync>(
    rt: &R,
    alloc: Global,
    shared: &Shared<B>,
    table: &Arc<Timetable>,
    workers: ([Seat; 4], [Seat; 4]),
    storer: Seat,
) -> (([Vec<Entry>; 4], [Vec<Entry>; 4]), Vec<Entry>) {
    thread::join(
        rt,
        || eight(rt, alloc, shared, table, STORER, workers),
        || store_all(rt, alloc, shared, storer),
    )
}

// The next four seats, which are the last in the list, from the first of them on.
fn next_four(seats: &mut Vec<Seat>) -> Option<[Seat; 4]> {
    let (d, c, b, a) = (seats.pop()?, seats.pop()?, seats.pop()?, seats.pop()?);
    Some([a, b, c, d])
}

/// Four seats work at once, of which the first stores too.
pub fn four_seats<B: Basis + Send + Sync, R: Threads + Wait + Sync>(
    rt: &R,
    alloc: Global,
    table: &Arc<Timetable>,
    ledger: Ledger,
) -> Result<FourAtWork, AllocError>
    requires table { ledger.table ≡ B.table }
    requires rides { ledger.rides ≡ B.rides }
{
    let (shared, mut seats) = opened::<B>(alloc, ledger, 5)?;
    let (Some(reader), Some(workers)) = (seats.pop(), next_four(&mut seats)) else {
        return Err(AllocError);
    };
    let told = four(rt, alloc, &shared, table, 0, workers);
    let history = history(rt, alloc, &shared, &reader)?;
    Ok(FourAtWork { told, history })
}

/// Eight seats work at once, and a ninth stores.
pub fn nine_seats<B: Basis + Send + Sync, R: Threads + Wait + Sync>(
    rt: &R,
    alloc: Global,
    table: &Arc<Timetable>,
    ledger: Ledger,
) -> Result<NineAtWork, AllocError>
    requires table { ledger.table ≡ B.table }
    requires rides { ledger.rides ≡ B.rides }
{
    let (shared, mut seats) = opened::<B>(alloc, ledger, 10)?;
    let (Some(reader), Some(last), Some(second), Some(first)) = (
        seats.pop(),
        seats.pop(),
        next_four(&mut seats),
        next_four(&mut seats),
    ) else {
        return Err(AllocError);
    };
    let ((first, second), last) = eight_and_one(rt, alloc, &shared, table, (first, second), last);
    let history = history(rt, alloc, &shared, &reader)?;
    Ok(NineAtWork {
        first,
        second,
        last,
        history,
    })
}
