//! Seats that wait, and what ends it.

ghost use Rattle.std.specs.Prelude.{◌≡◌};

use crate::threads::meeting::{comes_to, history, opened};
use crate::threads::setting::{Workshop, bare_stops, ledger};
use crate::threads::working::Worker;
use shared_ledger::{Basis, Seat, Shared};
use std::alloc::Global;
use std::marker::Brand;
use std::sync::{Arc, Wait};
use std::test::Fail;
use std::thread;
use std::thread::Threads;
use timetable::{StopId, Timetable};
use work_ledger::{Call, Entry, Ledger, Reply};

// What a seat met that handed in one tree: what it was answered, and the source of the tree that came back.
#[derive(Drop)]
struct Met {
    told: Vec<Entry>,
    back: Option<StopId>,
}

// Claims a source and hands its tree in.
fn hand_in_one<B: Basis, R: Wait>(
    rt: &R,
    alloc: Global,
    shared: &Shared<B>,
    table: &Arc<Timetable>,
    seat: Seat,
) -> Met {
    let mut worker = Worker::new(rt, alloc, shared, seat);
    let mut back = None;
    if let Ok(mut workshop) = Workshop::new(alloc, table)
        && let Some(source) = worker.claim()
        && let Some(tree) = workshop.tree(source)
    {
        back = worker.hand_in(tree).map(|tree| tree.tree().source());
    }
    let told = worker.leave();
    Met { told, back }
}

fn entry(call: Call, reply: Reply) -> Entry {
    Entry { call, reply }
}

// Two that waited for room, and the history.
#[derive(Drop)]
struct Crowd {
    one: Met,
    other: Met,
    history: Vec<Entry>,
}

// Two seats at once, of which each hands in one tree.
fn both<B: Basis + Send + Sync, R: Threads + Wait + Sync>(
    rt: &R,
    alloc: Global,
    shared: &Shared<B>,
    table: &Arc<Timetable>,
    a: Seat,
    b: Seat,
) -> (Met, Met) {
    thread::join(
        rt,
        || hand_in_one(rt, alloc, shared, table, a),
        || hand_in_one(rt, alloc, shared, table, b),
    )
}

// A tree fills the queue, two wait with theirs, and the last seat closes the ledger. It fails if they don't come to wait.
fn fill_and_close<B: Basis + Send + Sync, R: Threads + Wait + Sync>(
    rt: &R,
    alloc: Global,
    table: &Arc<Timetable>,
    ledger: Ledger,
) -> Result<Crowd, Fail>
    requires table { ledger.table ≡ B.table }
    requires rides { ledger.rides ≡ B.rides }
{
    let (shared, mut seats) = opened::<B>(alloc, ledger, 4)?;
    let shared = &shared;
    let (Some(closer), Some(b), Some(a), Some(first)) = (
        seats.pop(),
        seats.pop(),
        seats.pop(),
        seats.pop(),
    ) else {
        return Err(Fail::new("too few seats"));
    };
    let _first = hand_in_one(rt, alloc, shared, table, first);
    let ((one, other), waited) = thread::join(
        rt,
        || both(rt, alloc, shared, table, a, b),
        || {
            let waited = comes_to(rt, shared, &closer, 6);
            shared.close(rt, &closer);
            waited
        },
    );
    if !waited {
        return Err(Fail::new("nobody waits"));
    }
    let history = history(rt, alloc, shared, &closer)?;
    Ok(Crowd {
        one,
        other,
        history,
    })
}

// How often an entry stands there.
fn count(entries: &[Entry], wanted: &Entry) -> usize {
    entries.iter().filter(|entry| **entry == *wanted).count()
}

// Whether the seat was answered that its tree found no room, and has it back; and whether the history has its claim, and its asking once
// before the ledger was closed and once since.
fn has_its_tree_back(met: &Met, seat: u8, before: &[Entry], since: &[Entry]) -> bool {
    let Some(source) = met.back else {
        return false;
    };
    let claimed = entry(Call::Claim(seat), Reply::Source(source));
    let full = entry(Call::HandIn(seat, source, true), Reply::Full);
    let [first, second] = met.told.as_slice() else {
        return false;
    };
    *first == claimed
        && *second == full
        && count(before, &claimed) == 1
        && count(before, &full) == 1
        && count(since, &full) == 1
}

// One tree fills the queue, and two seats wait with theirs, when a fourth closes the ledger. Both go on with their trees.
#[test]
fn closed_at_a_full_queue(rt: HostRuntime) -> Result<(), Fail> {
    let alloc = rt.alloc();
    let table = bare_stops(&rt, 5)?;
    let crowd = fill_and_close::<Brand, _>(&rt, alloc, &table, ledger(alloc, &table, 1)?)?;
    assert_eq!(rt; crowd.history.len(), 9);
    let (before, since) = crowd.history.split_at(6);
    assert!(rt; count(since, &entry(Call::Stop, Reply::Done)) == 1);
    assert!(rt; has_its_tree_back(&crowd.one, 1, before, since));
    assert!(rt; has_its_tree_back(&crowd.other, 2, before, since));
    Ok(())
}

// Whether a take answers that no tree will come.
fn none_comes<B: Basis, R: Wait>(rt: &R, shared: &Shared<B>, seat: &Seat) -> bool {
    matches!(shared.take(rt, seat), Ok(None))
}

// What came of a take that waited: whether it answered that no tree will come, and the history.
#[derive(Drop)]
struct Lone {
    none: bool,
    history: Vec<Entry>,
}

// A take waits for the tree of a source that is claimed, if one `is_claimed`. Then the ledger is closed, and the source given back. It
// fails if the take doesn't come to wait.
fn closed_while_empty<B: Basis + Send + Sync, R: Threads + Wait + Sync>(
    rt: &R,
    alloc: Global,
    ledger: Ledger,
    is_claimed: bool,
) -> Result<Lone, Fail>
    requires table { ledger.table ≡ B.table }
    requires rides { ledger.rides ≡ B.rides }
{
    let (shared, mut seats) = opened::<B>(alloc, ledger, 3)?;
    let shared = &shared;
    let (Some(closer), Some(a), Some(taker)) = (seats.pop(), seats.pop(), seats.pop()) else {
        return Err(Fail::new("too few seats"));
    };
    let mut worker = Worker::new(rt, alloc, shared, a);
    let source = if is_claimed { worker.claim() } else { None };
    let (none, waited) = thread::join(
        rt,
        || none_comes(rt, shared, &taker),
        || {
            let waited = comes_to(rt, shared, &closer, if is_claimed { 2 } else { 1 });
            shared.close(rt, &closer);
            if let Some(source) = source {
                worker.give_back(source);
            }
            waited
        },
    );
    if !waited {
        return Err(Fail::new("nobody waits"));
    }
    let history = history(rt, alloc, shared, &closer)?;
    Ok(Lone { none, history })
}

// Whether the take answered that no tree will come, after just these calls: it asked once before the ledger was closed, and once when no
// source was claimed any longer.
fn waits_for_the_last(lone: &Lone, is_claimed: bool) -> bool {
    let history = lone.history.as_slice();
    if !is_claimed {
        return lone.none
            && history
                == [
                    entry(Call::Take, Reply::Empty),
                    entry(Call::Stop, Reply::Done),
                    entry(Call::Take, Reply::Closed),
                ]
                .as_slice();
    }
    let Some(
        Entry {
            reply: Reply::Source(source),
            ..
        },
    ) = history.first()
    else {
        return false;
    };
    lone.none
        && history
            == [
                entry(Call::Claim(1), Reply::Source(*source)),
                entry(Call::Take, Reply::Empty),
                entry(Call::Stop, Reply::Done),
                entry(Call::GiveBack(1, *source), Reply::Done),
                entry(Call::Take, Reply::Closed),
            ]
            .as_slice()
}

// A take that waits answers that no tree will come once the ledger is closed, and no source is claimed.
#[test]
fn closed_at_an_empty_queue(rt: HostRuntime) -> Result<(), Fail> {
    let alloc = rt.alloc();
    let table = bare_stops(&rt, 5)?;
    for is_claimed in [false, true] {
        let ledger = ledger(alloc, &table, 1)?;
        let lone = closed_while_empty::<Brand, _>(&rt, alloc, ledger, is_claimed)?;
        assert!(rt; waits_for_the_last(&lone, is_claimed));
    }
    Ok(())
}

// Ends with a source that it claimed.
fn end_early<B: Basis, R: Wait>(mut worker: Worker<'_, B, R>) -> Option<StopId> {
    worker.claim()
}

// A take waits, and all other seats are left: by a worker that ends without a word, by one that is let go, and by a call. It fails if the
// take doesn't come to wait.
fn all_left<B: Basis + Send + Sync, R: Threads + Wait + Sync>(
    rt: &R,
    alloc: Global,
    ledger: Ledger,
) -> Result<Lone, Fail>
    requires table { ledger.table ≡ B.table }
    requires rides { ledger.rides ≡ B.rides }
{
    let (shared, mut seats) = opened::<B>(alloc, ledger, 4)?;
    let shared = &shared;
    let (Some(c), Some(b), Some(a), Some(taker)) = (
        seats.pop(),
        seats.pop(),
        seats.pop(),
        seats.pop(),
    ) else {
        return Err(Fail::new("too few seats"));
    };
    let (none, waited) = thread::join(
        rt,
        || none_comes(rt, shared, &taker),
        || {
            let waited = comes_to(rt, shared, &c, 1);
            let _source = end_early(Worker::new(rt, alloc, shared, a));
            drop(Worker::new(rt, alloc, shared, b));
            shared.leave(rt, c);
            waited
        },
    );
    if !waited {
        return Err(Fail::new("nobody waits"));
    }
    let history = history(rt, alloc, shared, &taker)?;
    Ok(Lone { none, history })
}

// Whether the take answered that no tree will come, though a source is claimed: it asked once before the others left, and once since.
fn waits_for_all(lone: &Lone) -> bool {
    let history = lone.history.as_slice();
    let Some(
        Entry {
            reply: Reply::Source(source),
            ..
        },
    ) = history.get(1)
    else {
        return false;
    };
    lone.none
        && history
            == [
                entry(Call::Take, Reply::Empty),
                entry(Call::Claim(1), Reply::Source(*source)),
                entry(Call::Take, Reply::Empty),
            ]
            .as_slice()
}

// A take that waits answers that no tree will come once all others have left, however they did.
#[test]
fn left_by_all_others(rt: HostRuntime) -> Result<(), Fail> {
    let alloc = rt.alloc();
    let table = bare_stops(&rt, 5)?;
    let lone = all_left::<Brand, _>(&rt, alloc, ledger(alloc, &table, 1)?)?;
    assert!(rt; waits_for_all(&lone));
    Ok(())
}
