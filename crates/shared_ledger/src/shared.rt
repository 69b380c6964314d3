//! The ledger under its lock.

ghost use Rattle.std.specs.Prelude.{◌≡◌, ◌<◌, ◌≤◌, IfErr, IfOk, IfSome};
ghost use Rattle.std.specs.Arc.{arc_value};
ghost use Rattle.shared_ledger.specs.Seats.{all_seats};

use crate::basis::Basis;
use crate::desk::Desk;
use crate::seat::{Seat, seats_of};
use pattern_tree::Finished;
use std::alloc::{AllocError, Global};
use std::sync::{Arc, Condvar, Mutex, Wait};
use timetable::{Rides, StopId, Timetable};
use work_ledger::{Claimed, Compared, Entry, Fault, Ledger, Outcome, Refusal, Taken};

/// A ledger that several threads share. Each call is one of the ledger's, made under the lock, and what that one promises holds of it. The
/// history under the lock is one that a single thread could have made.
///
/// Who hands in waits at `room`, and who takes at `trees`. A place that comes free wakes one who hands in, and a tree wakes those who take.
#[derive(Drop)]
pub struct Shared<B: Basis> {
    desk: Mutex<Desk<B>>,
    room: Condvar,
    trees: Condvar,
    table: Arc<Timetable>,
    rides: Rides,
    others: usize,
    ghost table_is: { arc_value table ≡ B.table },
    ghost rides_is: { rides ≡ B.rides },
}

impl<B: Basis> Shared<B> {
    /// The ledger under a lock, with `seats` seats. The ledger comes back if memory is refused.
    pub fn open(
        alloc: Global,
        ledger: Ledger,
        seats: usize,
    ) -> Result<(Shared<B>, Vec<Seat>), (Ledger, AllocError)>
        requires table { ledger.table ≡ B.table }
        requires rides { ledger.rides ≡ B.rides }
        requires some { 0 < seats }
        requires most { seats ≤ 256 }
        ensures seats { IfOk result (λ r. r.1.items ≡ all_seats seats) }
        ensures back { IfErr result (λ r. r.0 ≡ ledger) }
    {
        let Ok(table) = Arc::try_clone(ledger.timetable()) else {
            return Err((ledger, AllocError));
        };
        let list = match seats_of(alloc, seats) {
            Ok(list) => list,
            Err(fault) => return Err((ledger, fault)),
        };
        let rides = ledger.k();
        let shared = Shared {
            desk: Mutex::new(Desk::new(ledger)),
            room: Condvar::new(),
            trees: Condvar::new(),
            table,
            rides,
            others: seats - 1,
        };
        Ok((shared, list))
    }

    /// Gives a free source to the seat. Once the ledger is closed it answers Closed without an entry.
    pub fn claim<R: Wait>(&self, rt: &R, seat: &Seat) -> Result<Claimed, AllocError> {
        self.desk.lock(rt).claim(seat.number())
    }

    /// Hands in the tree of a source that the seat claimed. It waits for room, each time with an entry that the ledger was full, until the
    /// ledger is closed. A refused tree comes back. The tree is compared with the ledger's timetable before the lock is taken, so both are
    /// read whole. Who knows that they are the same calls `hand_in_own`.
    pub fn hand_in<R: Wait>(
        &self,
        rt: &R,
        seat: &Seat,
        tree: Finished,
    ) -> Result<(), (Refusal, Finished)>
        ensures back { IfErr result (λ r. r.1 ≡ tree) }
    {
        self.hand_in_compared(rt, seat, Compared::new(tree, &self.table, self.rides))
    }

    /// Hands in as `hand_in` does a tree that is known to be for the ledger's timetable and rides. So it reads no timetable.
    pub fn hand_in_own<R: Wait>(
        &self,
        rt: &R,
        seat: &Seat,
        tree: Finished,
    ) -> Result<(), (Refusal, Finished)>
        requires own { (tree.table ≡ B.table) × (tree.rides ≡ B.rides) }
        ensures back { IfErr result (λ r. r.1 ≡ tree) }
    {
        self.hand_in_compared(rt, seat, Compared::own(tree, &self.table, self.rides))
    }

    // Hands in a tree that was compared with the ledger's timetable and rides.
    fn hand_in_compared<R: Wait>(
        &self,
        rt: &R,
        seat: &Seat,
        tree: Compared,
    ) -> Result<(), (Refusal, Finished)>
        requires table { tree.table ≡ B.table }
        requires rides { tree.rides ≡ B.rides }
        ensures back { IfErr result (λ r. r.1 ≡ tree.tree) }
    {
        let mut kept = tree;
        let mut desk = self.desk.lock(rt);
        for _ in rt.forever() {
            match desk.hand_in(seat.number(), kept) {
                Ok(()) => {
                    self.trees.notify_all();
                    return Ok(());
                }
                Err((Refusal::Full, back)) if !desk.is_closed() => kept = back,
                Err((refusal, back)) => {
                    self.room.notify_one();
                    return Err((refusal, back.into_tree()));
                }
            }
            desk = self.room.wait_while(rt, desk, |desk| desk.lacks_room());
        }
        unreachable!()
    }

    /// Gives a claimed source up.
    pub fn give_back<R: Wait>(&self, rt: &R, seat: &Seat, source: StopId) -> Result<(), Fault> {
        let answer = self.desk.lock(rt).give_back(seat.number(), source);
        self.trees.notify_all();
        answer
    }

    /// Takes the tree that has waited longest. It waits for one, each time with an entry that the ledger was empty. None if no tree will
    /// come: the ledger says so, or all other seats were left. It is for the ledger's timetable and rides.
    pub fn take<R: Wait>(&self, rt: &R, _seat: &Seat) -> Result<Option<Finished>, AllocError>
        ensures own { IfOk result (λ taken. IfSome taken (λ tree. (tree.table ≡ B.table) × (tree.rides ≡ B.rides))) }
    {
        let others = self.others;
        let mut desk = self.desk.lock(rt);
        for _ in rt.forever() {
            match desk.take()? {
                Taken::Tree(tree) => {
                    self.room.notify_one();
                    return Ok(Some(tree));
                }
                Taken::Closed => return Ok(None),
                Taken::Empty if desk.were_left(others) => return Ok(None),
                Taken::Empty => {}
            }
            desk = self
                .trees
                .wait_while(rt, desk, |desk| desk.lacks_tree(others));
        }
        unreachable!()
    }

    /// Says what became of a source that was taken.
    pub fn ack<R: Wait>(
        &self,
        rt: &R,
        _seat: &Seat,
        source: StopId,
        outcome: Outcome,
    ) -> Result<(), Fault> {
        self.desk.lock(rt).ack(source, outcome)
    }

    /// From now on no source is given out.
    pub fn stop<R: Wait>(&self, rt: &R, _seat: &Seat) -> Result<(), AllocError> {
        let answer = self.desk.lock(rt).stop();
        self.trees.notify_all();
        answer
    }

    /// Stops the ledger, and lets nobody wait for room from now on. Without memory for the entry the ledger isn't stopped, but no claim
    /// reaches it all the same.
    pub fn close<R: Wait>(&self, rt: &R, _seat: &Seat) {
        let _stopped = self.desk.lock(rt).close();
        self.room.notify_all();
        self.trees.notify_all();
    }

    /// The seat makes no more calls.
    pub fn leave<R: Wait>(&self, rt: &R, _seat: Seat) {
        self.count_left(rt);
    }

    // One seat more is left.
    fn count_left<R: Wait>(&self, rt: &R) {
        self.desk.lock(rt).leave();
        self.trees.notify_all();
    }

    /// Sits down at a seat, which is left however its worker ends.
    pub fn sit<'a, R: Wait>(&'a self, rt: &'a R, seat: Seat) -> Sitting<'a, B, R> {
        Sitting {
            shared: self,
            rt,
            seat,
        }
    }

    /// How many entries the history has.
    pub fn entries<R: Wait>(&self, rt: &R, _seat: &Seat) -> usize {
        self.desk.lock(rt).history().len()
    }

    /// A copy of the entry of that number, from 0; none past the end.
    pub fn entry<R: Wait>(&self, rt: &R, _seat: &Seat, number: usize) -> Option<Entry> {
        self.desk.lock(rt).history().get(number).copied()
    }
}

/// Who sits at a seat. The seat is left when this is let go.
pub struct Sitting<'a, B: Basis, R: Wait> {
    shared: &'a Shared<B>,
    rt: &'a R,
    seat: Seat,
}

impl<'a, B: Basis, R: Wait> Sitting<'a, B, R> {
    /// The seat.
    pub fn seat(&self) -> &Seat
        ensures { result.now ≡ self.now.seat }
    {
        &self.seat
    }
}

impl<'a, B: Basis, R: Wait> Drop for Sitting<'a, B, R> {
    fn drop(self) {
        let Self {
            shared,
            rt,
            seat: _seat,
        } = self;
        shared.count_left(rt);
    }
}
