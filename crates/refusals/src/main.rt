//! Calls to which memory may be refused, each with what it answers and what stands then. The program is run under a `malloc` that refuses
//! one request after the other.
#![tactic(auto)]

ghost use Rattle.std.specs.Prelude.{◌≡◌};
ghost use Rattle.std.specs.Arc.{arc_value};
ghost use Rattle.timetable.specs.Table.{stops_of};

mod cores;
mod ledger;
mod planners;
mod seen;
mod stores;
mod trees;

use crate::cores::put_by_steps;
use crate::ledger::{gives_back, two_seats};
use crate::planners::opened;
use crate::seen::Seen;
use crate::stores::{put, recovered};
use crate::trees::{copied, finished, inserted};
use sample_store::Sample;
use std::io::Write;
use std::sync::Wait;
use std::test::Fail;

// Prints how a call went.
fn show(rt: &HostRuntime, call: &str, seen: Seen) {
    let _ = writeln!(rt.stdout(), "{call}: {seen}");
}

// Makes the calls over trees and their files.
fn make_first(rt: &HostRuntime, sample: &Sample) -> Result<(), Fail>
    requires { stops_of (arc_value sample.now.table) ≡ 5 }
{
    let alloc = rt.alloc();
    show(rt, "finish", finished(alloc, sample)?);
    show(rt, "insert", inserted(alloc));
    show(rt, "copy_to", copied(alloc)?);
    show(rt, "put", put(alloc, sample)?);
    show(rt, "recover", recovered(alloc, sample)?);
    Ok(())
}

// Makes those over a ledger and planners.
fn make_later<R: Wait>(rt: &HostRuntime, waits: &R, sample: &Sample) -> Result<(), Fail> {
    let alloc = rt.alloc();
    show(rt, "ledger", two_seats(alloc, sample)?);
    show(rt, "give_back", gives_back(alloc, sample)?);
    show(rt, "run", put_by_steps(alloc, sample)?);
    show(rt, "Planner::open", opened(rt, waits, sample)?);
    Ok(())
}

fn main(rt: HostRuntime) -> Result<(), Fail> {
    let sample = Sample::new(&rt)?;
    make_first(&rt, &sample)?;
    make_later(&rt, &rt, &sample)
}
