//! What lies under the lock of a shared ledger.

ghost use Rattle.std.specs.Prelude.{◌≡◌, ◌↔◌, ◌+◌, ◌<◌, ◌≤◌, ◌^◌, ◌++◌, ◌∷◌, [], length, IsTrue, IfErr, IfOk, OnErr, OnOk, Ok, true, false};
ghost use Rattle.work_ledger.specs.Book.{Made, state_of, first_of};
ghost use Rattle.work_ledger.specs.Object.{Legal, MayCome};
ghost use Rattle.work_ledger.specs.Replies.{claim_reply, Takes, Refuses, TurnsAway};

use crate::basis::Basis;
use std::alloc::AllocError;
use std::marker::PhantomData;
use timetable::StopId;
use work_ledger::{Call, Claimed, Compared, Entry, Fault, Ledger, Outcome, Refusal, Reply, Taken};

/// The ledger, whether it is closed, and how many seats were left. Each call is one call of the ledger, with its reply.
#[derive(Drop)]
pub struct Desk<B: Basis> {
    ledger: Ledger,
    closed: bool,
    left: usize,
    of: PhantomData<B>,
    ghost table: { ledger.table ≡ B.table },
    ghost rides: { ledger.rides ≡ B.rides },
}

impl<B: Basis> Desk<B> {
    /// The desk of a ledger, at which all sit.
    pub fn new(ledger: Ledger) -> Desk<B>
        requires table { ledger.table ≡ B.table }
        requires rides { ledger.rides ≡ B.rides }
        ensures ledger { result.ledger ≡ ledger }
        ensures open { (result.closed ≡ false) × (result.left ≡ 0) }
    {
        Desk {
            ledger,
            closed: false,
            left: 0,
            of: PhantomData,
        }
    }

    /// A claim of the ledger; once closed, Closed without asking it.
    pub fn claim(&mut self, seat: u8) -> Result<Claimed, AllocError>
        ensures open { self.old.closed ≡ false
            → IfOk result (λ r. Made self.old.ledger (Call.Claim seat) (claim_reply r) self.new.ledger) }
        ensures closed { self.old.closed ≡ true → (result ≡ Ok Claimed.Closed) × (self.new.ledger ≡ self.old.ledger) }
        ensures memory { OnErr result (self.new.ledger ≡ self.old.ledger) }
        ensures same { (self.new.closed ≡ self.old.closed) × (self.new.left ≡ self.old.left) }
    {
        if self.closed {
            return Ok(Claimed::Closed);
        }
        self.ledger.claim(seat)
    }

    /// A tree is handed in that was compared with the ledger's timetable.
    pub fn hand_in(&mut self, seat: u8, tree: Compared) -> Result<(), (Refusal, Compared)>
        requires table { tree.table ≡ B.table }
        requires rides { tree.rides ≡ B.rides }
        ensures made { OnOk result
            (Made self.old.ledger (Call.HandIn seat tree.tree.tree.source true) Reply.Done self.new.ledger) }
        ensures last { OnOk result (self.new.ledger.trees ≡ self.old.ledger.trees ++ tree.tree ∷ []) }
        ensures refused { IfErr result (λ r. TurnsAway self.old.ledger seat tree.tree r.0 self.new.ledger) }
        ensures back { IfErr result (λ r. r.1 ≡ tree) }
        ensures same { (self.new.closed ≡ self.old.closed) × (self.new.left ≡ self.old.left) }
    {
        self.ledger.hand_in_compared(seat, tree)
    }

    /// A claimed source is given up.
    pub fn give_back(&mut self, seat: u8, source: StopId) -> Result<(), Fault>
        ensures done { OnOk result (Made self.old.ledger (Call.GiveBack seat source) Reply.Done self.new.ledger) }
        ensures refused { IfErr result (λ f. Refuses self.old.ledger (Call.GiveBack seat source) f self.new.ledger) }
        ensures same { (self.new.closed ≡ self.old.closed) × (self.new.left ≡ self.old.left) }
    {
        self.ledger.give_back(seat, source)
    }

    /// The tree that has waited longest is taken.
    pub fn take(&mut self) -> Result<Taken, AllocError>
        ensures taken { IfOk result (λ t. Takes self.old.ledger t self.new.ledger) }
        ensures memory { OnErr result (self.new.ledger ≡ self.old.ledger) }
        ensures same { (self.new.closed ≡ self.old.closed) × (self.new.left ≡ self.old.left) }
    {
        self.ledger.take()
    }

    /// What became of a source that was taken.
    pub fn ack(&mut self, source: StopId, outcome: Outcome) -> Result<(), Fault>
        ensures done { OnOk result (Made self.old.ledger (Call.Ack source outcome) Reply.Done self.new.ledger) }
        ensures refused { IfErr result (λ f. Refuses self.old.ledger (Call.Ack source outcome) f self.new.ledger) }
        ensures same { (self.new.closed ≡ self.old.closed) × (self.new.left ≡ self.old.left) }
    {
        self.ledger.ack(source, outcome)
    }

    /// From now on the ledger gives no source out.
    pub fn stop(&mut self) -> Result<(), AllocError>
        ensures made { OnOk result (Made self.old.ledger Call.Stop Reply.Done self.new.ledger) }
        ensures memory { OnErr result (self.new.ledger ≡ self.old.ledger) }
        ensures same { (self.new.closed ≡ self.old.closed) × (self.new.left ≡ self.old.left) }
    {
        self.ledger.stop()
    }

    /// Stops the ledger, and from now on no claim asks it and nobody waits at Full. If memory is refused for the entry, the ledger
    /// isn't stopped, and no claim asks it all the same.
    pub fn close(&mut self) -> Result<(), AllocError>
        ensures made { OnOk result (Made self.old.ledger Call.Stop Reply.Done self.new.ledger) }
        ensures memory { OnErr result (self.new.ledger ≡ self.old.ledger) }
        ensures closed { (self.new.closed ≡ true) × (self.new.left ≡ self.old.left) }
    {
        self.closed = true;
        self.ledger.stop()
    }

    /// One seat more is left.
    pub fn leave(&mut self)
        ensures left { self.old.left + 1 < 2 ^ 64 → self.new.left ≡ self.old.left + 1 }
        ensures same { (self.new.ledger ≡ self.old.ledger) × (self.new.closed ≡ self.old.closed) }
    {
        self.left = self.left.saturating_add(1);
    }

    /// Whether it is closed.
    pub fn is_closed(&self) -> bool
        ensures { result ≡ self.now.closed }
    {
        self.closed
    }

    /// Whether `seats` seats were left.
    pub fn were_left(&self, seats: usize) -> bool
        ensures { IsTrue result ↔ (seats ≤ self.now.left) }
    {
        seats <= self.left
    }

    /// Whether who hands in a tree of its own waits: no room is left, and the desk isn't closed.
    pub fn lacks_room(&self) -> bool
        ensures { IsTrue result ↔ ((length self.now.ledger.trees ≡ self.now.ledger.room) × (self.now.closed ≡ false)) }
    {
        self.ledger.is_full() && !self.closed
    }

    /// Whether who takes waits: no tree waits, one may come, and not all of `seats` seats were left.
    pub fn lacks_tree(&self, seats: usize) -> bool
        ensures { IsTrue result ↔ (((self.now.ledger.trees ≡ []) × MayCome (state_of self.now.ledger)) × (self.now.left < seats)) }
    {
        self.ledger.awaits_tree() && self.left < seats
    }

    /// What was called and replied so far.
    pub fn history(&self) -> &[Entry]
        ensures entries { result.now ≡ self.now.ledger.history }
        ensures legal { Legal self.now.ledger.room (first_of self.now.ledger) self.now.ledger.history (state_of self.now.ledger) }
    {
        self.ledger.history()
    }
}
