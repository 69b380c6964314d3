//! Who works at a seat, and what it is answered.

use crate::threads::setting::Workshop;
use pattern_tree::Finished;
use shared_ledger::{Basis, Seat, Shared, Sitting};
use std::alloc::Global;
use std::sync::Wait;
use timetable::StopId;
use work_ledger::{Call, Claimed, Entry, Fault, Outcome, Refusal, Reply};

// More than there are sources.
const MOST_TURNS: u32 = 1 << 16;

/// Who works at a seat, with the calls that it made and the replies that it got. A call to which memory is refused is no call.
#[derive(Drop)]
pub struct Worker<'a, B: Basis, R: Wait> {
    shared: &'a Shared<B>,
    rt: &'a R,
    sitting: Sitting<'a, B, R>,
    told: Vec<Entry>,
}

impl<'a, B: Basis, R: Wait> Worker<'a, B, R> {
    /// Who sits down at the seat.
    pub fn new(rt: &'a R, alloc: Global, shared: &'a Shared<B>, seat: Seat) -> Self {
        Worker {
            shared,
            rt,
            sitting: shared.sit(rt, seat),
            told: Vec::new(alloc),
        }
    }

    fn note(&mut self, call: Call, reply: Reply) {
        let _ = self.told.push(Entry { call, reply });
    }

    /// Claims a source; none if no source is given out.
    pub fn claim(&mut self) -> Option<StopId> {
        let seat = self.sitting.seat();
        let call = Call::Claim(seat.number());
        match self.shared.claim(self.rt, seat).ok()? {
            Claimed::Source(source) => {
                self.note(call, Reply::Source(source));
                Some(source)
            }
            Claimed::Closed => {
                self.note(call, Reply::Closed);
                None
            }
        }
    }

    /// Hands a tree in. A refused tree comes back.
    pub fn hand_in(&mut self, tree: Finished) -> Option<Finished> {
        let seat = self.sitting.seat();
        let source = tree.tree().source();
        let call = Call::HandIn(seat.number(), source, true);
        let (refusal, tree) = match self.shared.hand_in(self.rt, seat, tree) {
            Ok(()) => {
                self.note(call, Reply::Done);
                return None;
            }
            Err(refused) => refused,
        };
        match refusal {
            Refusal::Memory => {}
            Refusal::NotYours => self.note(call, Reply::NotYours),
            Refusal::Full => self.note(call, Reply::Full),
            Refusal::OtherTimetable => {
                let call = Call::HandIn(self.sitting.seat().number(), source, false);
                self.note(call, Reply::OtherTimetable);
            }
        }
        Some(tree)
    }

    // Notes what came of a call that is done or isn't the seat's to make.
    fn note_done(&mut self, call: Call, answer: Result<(), Fault>) {
        match answer {
            Ok(()) => self.note(call, Reply::Done),
            Err(Fault::NotYours) => self.note(call, Reply::NotYours),
            Err(Fault::Memory) => {}
        }
    }

    /// Gives a source back.
    pub fn give_back(&mut self, source: StopId) {
        let seat = self.sitting.seat();
        let call = Call::GiveBack(seat.number(), source);
        let answer = self.shared.give_back(self.rt, seat, source);
        self.note_done(call, answer);
    }

    /// Takes a tree, and keeps it; its source. None if no tree will come.
    pub fn take(&mut self) -> Option<StopId> {
        let seat = self.sitting.seat();
        let Some(tree) = self.shared.take(self.rt, seat).ok()? else {
            self.note(Call::Take, Reply::Closed);
            return None;
        };
        let source = tree.tree().source();
        self.note(Call::Take, Reply::Tree(source));
        Some(source)
    }

    /// Says that the tree of a source that was taken is kept.
    pub fn ack(&mut self, source: StopId) {
        let seat = self.sitting.seat();
        let call = Call::Ack(source, Outcome::Keep);
        let answer = self.shared.ack(self.rt, seat, source, Outcome::Keep);
        self.note_done(call, answer);
    }

    /// Claims until no source is given out. Hands in the trees of the first `most` sources and gives the others back; then tries to give
    /// back what isn't its own any longer. Who stores takes a tree after each that it hands in.
    pub fn work(&mut self, workshop: &mut Workshop, most: u32, stores: bool) {
        for turn in 0..MOST_TURNS {
            let Some(source) = self.claim() else {
                break;
            };
            let tree = if turn < most {
                workshop.tree(source)
            } else {
                None
            };
            match tree {
                None => self.give_back(source),
                Some(tree) => {
                    self.hand_in(tree);
                    if stores {
                        self.store();
                    }
                }
            }
            self.give_back(source);
        }
    }

    /// Takes a tree, and says twice that it is kept; whether a tree came.
    pub fn store(&mut self) -> bool {
        let Some(source) = self.take() else {
            return false;
        };
        self.ack(source);
        self.ack(source);
        true
    }

    /// Leaves the seat; what it was answered.
    pub fn leave(self) -> Vec<Entry> {
        let Worker {
            shared: _,
            rt: _,
            sitting: _sitting,
            told,
        } = self;
        told
    }
}
