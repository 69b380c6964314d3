//! The threads in which trees are built.

ghost use Rattle.std.specs.Prelude.{◌≡◌, ◌<◌, ◌≤◌, ◌+◌, [], MatchOption};
ghost use denote.Param.Send.{IsSend, IsSync};
ghost use Rattle.section_store.specs.Sections.{form_of};
ghost use Rattle.tree_crew.specs.Flushed.{Flushed, ShowsTo};

use crate::audience::Audience;
use crate::crew::Crew;
use crate::flushing::flush_desk;
use crate::held::Held;
use crate::parted::Parted;
use crate::taking::Taker;
use disk_model::Disk;
use flusher::FlushEnd;
use planner::{Desk, Planner};
use progress::Progress;
use section_store::Step;
use shared_ledger::{Basis, Seat, Shared};
use std::alloc::Global;
use std::sync::{Mutex, Wait};
use std::thread;
use std::thread::Threads;
use tree_workers::{Gate, Workshop, work};
use work_ledger::Ledger;

// Starts `workers` workers, and stores what they hand in, as the seat says. All of them have ended when this returns. The end is none if
// no thread could be made; then nothing was done.
fn run<
    B: Basis + Parted + Send + Sync,
    D: Disk + Drop,
    R: Threads + Wait + Sync,
    G: Gate + Sync,
    P: Progress,
>(
    workshop: &Workshop<'_, B, R, G>,
    workers: usize,
    seat: &Seat,
    taker: Taker<'_, B, R>,
    progress: &mut P,
    audience: Audience,
    desk: Desk<D>,
) -> (Desk<D>, Option<FlushEnd>)
    requires ready { desk.next ≡ Step.WriteBody }
    requires fresh { (taker.taken.items ≡ []) × (taker.acked.items ≡ []) }
    requires form { form_of B.table B.rides ≡ desk.form }
    ensures flushed { MatchOption result.1
        (result.0 ≡ desk)
        (λ end. Flushed B.part D.honest D.state D.failures end desk result.0) }
    ensures shown { ShowsTo audience desk.board result.0.board }
{
    let rt = workshop.rt;
    let held = Held::new(rt, desk);
    thread::scope(
        thread::scope_env(),
        rt,
        move |scope| -> (Desk<D>, Option<FlushEnd>)
            requires { IsSync R.row × IsSync G.row × IsSend B.row × (held.desk.next ≡ Step.WriteBody) × (taker.taken.items ≡ [])
                × (taker.acked.items ≡ []) × (form_of B.table B.rides ≡ held.desk.form) }
            ensures { MatchOption result.1
                (result.0 ≡ held.entry.desk)
                (λ end. Flushed B.part D.honest D.state D.failures end held.entry.desk result.0)
                × ShowsTo audience held.entry.desk.board result.0.board }
        {
            let mut started = false;
            for _ in 0..workers {
                let thread = scope.spawn(move || work(workshop));
                if thread.is_ok() {
                    started = true;
                } else {
                    workshop.leave_seat();
                }
            }
            let desk = held.into_desk();
            if !started {
                return (desk, None);
            }
            let (desk, end) = flush_desk(rt, workshop.alloc, taker, desk, progress, audience);
            workshop.shared.close(rt, seat);
            (desk, Some(end))
        },
    )
}

// How many workers build: no more than trees may be missing, of the crew's at most.
fn workers_for<D: Disk, G: Gate>(crew: &Crew<'_, G>, desk: &Desk<D>, stops: usize) -> usize
    ensures some { 0 < result }
    ensures most { result ≤ 64 }
{
    let missing = stops.saturating_sub(desk.stored().len());
    let most = missing.min(crew.part.among(stops));
    crew.workers.min(most.max(1))
}

// The ledger under a lock, with the seats of the workers, and that of who stores.
#[derive(Drop)]
struct Seated<B: Basis> {
    shared: Shared<B>,
    seats: Mutex<Vec<Seat>>,
    seat: Seat,
}

// Puts the ledger under a lock, with a seat for each of the `workers` workers. None if memory is refused.
fn with_seats<B: Basis>(alloc: Global, ledger: Ledger, workers: usize) -> Option<Seated<B>>
    requires table { ledger.table ≡ B.table }
    requires rides { ledger.rides ≡ B.rides }
    requires most { workers ≤ 64 }
{
    let Ok((shared, mut seats)) = Shared::<B>::open(alloc, ledger, workers + 1) else {
        return None;
    };
    let seat = seats.pop()?;
    Some(Seated {
        shared,
        seats: Mutex::new(seats),
        seat,
    })
}

// Builds trees in the workshop by `workers` of the crew's workers, and stores those of its part, as the seat says.
fn run_at<
    B: Basis + Parted + Send + Sync,
    D: Disk + Drop,
    R: Threads + Wait + Sync,
    G: Gate + Sync,
    P: Progress,
>(
    workshop: &Workshop<'_, B, R, G>,
    workers: usize,
    seat: &Seat,
    crew: &Crew<'_, G>,
    progress: &mut P,
    desk: Desk<D>,
) -> (Desk<D>, Option<FlushEnd>)
    requires form { form_of B.table B.rides ≡ desk.form }
    requires part { crew.now.part ≡ B.part }
    requires ready { desk.next ≡ Step.WriteBody }
    ensures flushed { MatchOption result.1
        (result.0 ≡ desk)
        (λ end. Flushed B.part D.honest D.state D.failures end desk result.0) }
    ensures shown { ShowsTo crew.now.audience desk.board result.0.board }
{
    let stops = workshop.network.timetable().stops();
    let taken = Taker::new(
        workshop.alloc,
        workshop.rt,
        workshop.shared,
        seat,
        crew.part,
        stops,
    );
    let Ok(taker) = taken else {
        return (desk, None);
    };
    run(
        workshop,
        workers,
        seat,
        taker,
        progress,
        crew.audience,
        desk,
    )
}

/// Builds trees in the crew's threads, as the ledger gives out their sources, and stores those of the crew's part. No more threads are made
/// than trees may be missing. None if memory is refused or no thread could be made, and then nothing was done.
pub fn run_over<
    B: Basis + Parted + Send + Sync,
    D: Disk + Drop,
    R: Threads + Wait + Sync,
    G: Gate + Sync,
    P: Progress,
>(
    rt: &R,
    alloc: Global,
    planner: &Planner,
    ledger: Ledger,
    crew: &Crew<'_, G>,
    progress: &mut P,
    desk: Desk<D>,
) -> (Desk<D>, Option<FlushEnd>)
    requires table { ledger.table ≡ B.table }
    requires rides { ledger.rides ≡ B.rides }
    requires form { form_of B.table B.rides ≡ desk.form }
    requires part { crew.now.part ≡ B.part }
    requires own { planner.now.form ≡ form_of B.table B.rides }
    requires ready { desk.next ≡ Step.WriteBody }
    ensures flushed { MatchOption result.1
        (result.0 ≡ desk)
        (λ end. Flushed B.part D.honest D.state D.failures end desk result.0) }
    ensures shown { ShowsTo crew.now.audience desk.board result.0.board }
{
    let workers = workers_for(crew, &desk, ledger.timetable().stops());
    let Some(seated) = with_seats::<B>(alloc, ledger, workers) else {
        return (desk, None);
    };
    let workshop = Workshop {
        rt,
        alloc,
        network: planner.network(),
        rides: planner.k(),
        shared: &seated.shared,
        seats: &seated.seats,
        gate: crew.gate,
        stop: crew.stop,
    };
    run_at(&workshop, workers, &seated.seat, crew, progress, desk)
}
