//! What orders are replied.

use super::town::{ask, build, is_front, life_of, town_of};
use disk_model::MemDisk;
use planner_life::{End, Life, Reply, run_life};
use section_store::PutFault;
use std::test::Fail;
use store_faults::RecoverFault;
use timetable::Rides;

// What is replied to an order; an answer by the arrivals and rides of its journeys.
#[derive(Clone, Copy)]
enum Wanted {
    Stored,
    AlreadyStored,
    UnknownStop,
    NotCovered,
    NotStored,
    Answer(&'static [(u32, u8)]),
}

fn is_wanted(reply: &Reply, wanted: Wanted) -> bool {
    match (reply, wanted) {
        (Reply::Answer(answer), Wanted::Answer(wanted)) => {
            answer.points().len() == wanted.len()
                && answer.points().iter().zip(wanted).all(|(point, numbers)| (
                    point.arrival(),
                    point.rides(),
                ) == *numbers)
        }
        (Reply::NotPut(fault), Wanted::AlreadyStored) => *fault == PutFault::AlreadyStored,
        (Reply::Stored(_), Wanted::Stored)
        | (Reply::UnknownStop, Wanted::UnknownStop)
        | (Reply::NotCovered, Wanted::NotCovered)
        | (Reply::NotStored, Wanted::NotStored) => true,
        _ => false,
    }
}

// Whether a life that recovered the first `recovered` stops came to its end with just these replies.
fn has_replies(life: &Life<MemDisk>, recovered: usize, wanted: &[Wanted]) -> bool {
    is_front(life, recovered)
        && life.end == End::Done
        && life.replies.len() == wanted.len()
        && life
            .replies
            .iter()
            .zip(wanted)
            .all(|(reply, wanted)| is_wanted(reply, *wanted))
}

// From A at 08:00:00 one is at D at 09:00:00 by one ride, and at 08:40:00 by two. A second later the train that the two begin
// with has left.
const REPLIES: [Wanted; 9] = [
    Wanted::NotStored,
    Wanted::Stored,
    Wanted::AlreadyStored,
    Wanted::UnknownStop,
    Wanted::Answer(&[(32_400, 1), (31_200, 2)]),
    Wanted::Answer(&[(32_400, 1)]),
    Wanted::UnknownStop,
    Wanted::NotCovered,
    Wanted::NotStored,
];

#[test]
fn orders_in_turn(rt: HostRuntime) -> Result<(), Fail> {
    let alloc = rt.alloc();
    let table = town_of(&rt)?;
    let orders = [
        ask(0, 3, 28_800),
        build(0),
        build(0),
        build(5),
        ask(0, 3, 28_800),
        ask(0, 3, 28_801),
        ask(0, 5, 28_800),
        ask(0, 3, 604_800),
        ask(1, 3, 28_800),
    ];
    let life = life_of(alloc, &table, MemDisk::new(alloc), &orders);
    assert!(rt; has_replies(&life, 0, &REPLIES));
    Ok(())
}

const LATER: [Wanted; 2] = [
    Wanted::Answer(&[(32_400, 1), (31_200, 2)]),
    Wanted::AlreadyStored,
];

// A later life answers from what an earlier one stored.
#[test]
fn answers_of_a_later_life(rt: HostRuntime) -> Result<(), Fail> {
    let alloc = rt.alloc();
    let table = town_of(&rt)?;
    let first = life_of(alloc, &table, MemDisk::new(alloc), &[build(0), build(1)]);
    let later = life_of(alloc, &table, first.disk, &[ask(0, 3, 28_800), build(1)]);
    assert!(rt; has_replies(&later, 2, &LATER));
    Ok(())
}

// A file is of no other number of rides.
#[test]
fn a_life_of_other_rides(rt: HostRuntime) -> Result<(), Fail> {
    let alloc = rt.alloc();
    let table = town_of(&rt)?;
    let first = life_of(alloc, &table, MemDisk::new(alloc), &[build(0)]);
    let other = run_life(alloc, first.disk, &table, Rides::new(2), &[build(2)]);
    assert!(rt; other.recovered.is_none() && other.replies.is_empty());
    assert_eq!(rt; other.end, End::Recover(RecoverFault::OtherRides));
    Ok(())
}
