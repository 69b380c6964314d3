//! Why a program gives no answer.

ghost use Rattle.std.specs.Prelude.{◌≡◌, Some, option_map};
ghost use Rattle.faults.specs.Advice.{advice_of};
ghost use Rattle.faults.specs.Faults.{status_of};
ghost use Rattle.faults.specs.Texts.{fault_text};

use crate::advice::advice_of;
use crate::migrating::{Side, StoreFault};
use crate::texts::write_fault;
use gtfs_tables::{FaultKind, FeedFault};
use pattern_query::Refusal;
use pattern_tree::TreeFault;
use service_days::DayFault;
use std::alloc::AllocError;
use std::fmt;
use store_faults::RecoverFault;

/// A fault of the words, the feed, its days, the store or the question, shown as the programs print it: its code and name,
/// and an id so that it stays on its line.
#[derive(Clone, Copy)]
pub enum Fault<'a> {
    BadDate,
    BadTime,
    /// The system gave no randomness for hash keys under which ids are looked up, so nothing of the feed was read.
    NoRandomness,
    Feed(FeedFault),
    Days(DayFault),
    /// The file isn't the store of this timetable and these rides, or is damaged, or the system refused it.
    Store(RecoverFault),
    /// The first byte of the store's file is damaged.
    GateDamaged,
    /// Another process holds the file of the store.
    StoreInUse,
    /// The device failed while a tree was put into the store.
    PutFailed,
    /// One of the two files of a migration isn't used.
    Migration(Side, StoreFault),
    /// The new file of a migration has trees that aren't the first ones of the old one.
    OtherList,
    /// With one more tree the file that a migration or a merge writes would pass its limit.
    FileTooLarge,
    /// The store of a part of a merge isn't used: its file, and why.
    Part(&'a str, StoreFault),
    /// The file of a part of a merge has another tree of a stop than that of a part before it.
    OtherTree {
        stop: &'a str,
        part: &'a str,
        before: &'a str,
    },
    Question(Refusal<'a>),
    TooLarge,
    Memory,
}

impl<'a> Fault<'a> {
    /// The status to end with: 1 for the feed and its days, also if nothing was read for want of randomness, 2 for the words, 3 for
    /// a stop whose tree would be too large, 4 for the store, 6 for the question, 7 for want of memory.
    pub fn status(&self) -> u8
        ensures { result ≡ status_of self.now }
    {
        match self {
            Fault::NoRandomness | Fault::Feed(_) | Fault::Days(_) => 1,
            Fault::BadDate | Fault::BadTime => 2,
            Fault::TooLarge => 3,
            Fault::Store(_) | Fault::GateDamaged | Fault::StoreInUse | Fault::PutFailed => 4,
            Fault::Migration(..) | Fault::OtherList | Fault::FileTooLarge => 4,
            Fault::Part(..) | Fault::OtherTree { .. } => 4,
            Fault::Question(_) => 6,
            Fault::Memory => 7,
        }
    }

    /// What the fault means and what to do about it, as a line to print below it. These have one: faults of the store, a stop whose tree
    /// isn't in it, a date or time that is none, days out of their range or not covered, and want of randomness.
    pub fn advice(&self) -> Option<&'static str>
        ensures { option_map (λ text. text.now) result ≡ advice_of self.now }
    {
        advice_of(self)
    }
}

impl fmt::Display for Fault<'_> {
    ghost output = { λ fault. Some (fault_text fault) };

    fn fmt<W: fmt::Write>(&self, f: &mut fmt::Formatter<W>) -> fmt::Result {
        write_fault(f, self)
    }
}

impl<'a> From<FeedFault> for Fault<'a> {
    ghost use Rattle.std.specs.Prelude.{◌≡◌};
    ghost use Rattle.faults.specs.Faults.{of_feed};

    ghost from_gives = { λ f e. e ≡ of_feed f };

    fn from(fault: FeedFault) -> Fault<'a> {
        match fault.kind {
            FaultKind::Memory => Fault::Memory,
            _ => Fault::Feed(fault),
        }
    }
}

impl<'a> From<DayFault> for Fault<'a> {
    ghost use Rattle.std.specs.Prelude.{◌≡◌};
    ghost use Rattle.faults.specs.Faults.{of_days};

    ghost from_gives = { λ f e. e ≡ of_days f };

    fn from(fault: DayFault) -> Fault<'a> {
        match fault {
            DayFault::Memory => Fault::Memory,
            _ => Fault::Days(fault),
        }
    }
}

impl<'a> From<RecoverFault> for Fault<'a> {
    ghost use Rattle.std.specs.Prelude.{◌≡◌};
    ghost use Rattle.faults.specs.Faults.{of_store};

    ghost from_gives = { λ f e. e ≡ of_store f };

    fn from(fault: RecoverFault) -> Fault<'a> {
        match fault {
            RecoverFault::Memory => Fault::Memory,
            _ => Fault::Store(fault),
        }
    }
}

impl<'a> From<TreeFault> for Fault<'a> {
    ghost use Rattle.std.specs.Prelude.{◌≡◌};
    ghost use Rattle.faults.specs.Faults.{of_tree};

    ghost from_gives = { λ f e. e ≡ of_tree f };

    fn from(fault: TreeFault) -> Fault<'a> {
        match fault {
            TreeFault::TooLarge => Fault::TooLarge,
            TreeFault::Memory => Fault::Memory,
        }
    }
}

impl<'a> From<AllocError> for Fault<'a> {
    ghost use Rattle.std.specs.Prelude.{◌≡◌};
    ghost use Rattle.faults.specs.declared.fault.Fault.TheVariants.{Memory};

    ghost from_gives = { λ _ e. e ≡ Memory };

    fn from(_e: AllocError) -> Fault<'a> {
        Fault::Memory
    }
}
