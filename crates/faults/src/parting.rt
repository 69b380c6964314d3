//! Faults of the parts that a merge puts together.

ghost use Rattle.std.specs.Prelude.{◌≡◌, option_map};
ghost use Rattle.std.specs.Fmt.{WritesOnOk};
ghost use Rattle.faults.specs.Advice.{part_advice, read_advice};
ghost use Rattle.faults.specs.Faults.{in_part, of_part};
ghost use Rattle.faults.specs.Texts.{other_tree_text, part_text};

use crate::advice::{DAMAGED, GATE_DAMAGED, IN_USE, OLD_VERSION};
use crate::fault::Fault;
use crate::migrating::{CHANGED, MIGRATED_RIDES, MIGRATED_TIMETABLE, StoreFault, write_cause};
use shown_ids::Shown;
use std::fmt;
use store_faults::RecoverFault;

pub const PART_NOT_A_STORE: &str =
    "That file is no store of this program, and was left as it is: give the file that the part's build made.";

pub const PART_DEVICE: &str =
    "That file can't be read: see that it is there, and that you may read it.";

pub const OTHER_TREE: &str =
    "The second file has another tree of that stop than the first, so nothing was stored: audit that stop in both.";

// What to do about a file of a part that isn't the store of a part.
fn read_advice(fault: &RecoverFault) -> Option<&'static str>
    ensures { option_map (λ text. text.now) result ≡ read_advice fault.now }
{
    match fault {
        RecoverFault::NotAStore => Some(PART_NOT_A_STORE),
        RecoverFault::OldVersion => Some(OLD_VERSION),
        RecoverFault::OtherTimetable => Some(MIGRATED_TIMETABLE),
        RecoverFault::OtherRides => Some(MIGRATED_RIDES),
        RecoverFault::Damaged(_) => Some(DAMAGED),
        RecoverFault::Device => Some(PART_DEVICE),
        RecoverFault::Memory => None,
    }
}

/// What to do about a part whose file isn't used.
pub(crate) fn part_advice(fault: &StoreFault) -> Option<&'static str>
    ensures { option_map (λ text. text.now) result ≡ part_advice fault.now }
{
    match fault {
        StoreFault::GateDamaged => Some(GATE_DAMAGED),
        StoreFault::InUse => Some(IN_USE),
        StoreFault::Changed => Some(CHANGED),
        StoreFault::Recover(fault) => read_advice(fault),
    }
}

/// Writes why the file of a part isn't used, and which one it is.
pub(crate) fn write_part<W: fmt::Write>(
    f: &mut fmt::Formatter<W>,
    path: &str,
    fault: &StoreFault,
) -> fmt::Result
    ensures { WritesOnOk W.write_str_gives f.old result (part_text path.now fault.now) f.new }
{
    write_cause(f, fault)?;
    write!(f, " {}", Shown(path))
}

/// Writes of which stop the file of a part has another tree than that of a part before it.
pub(crate) fn write_other_tree<W: fmt::Write>(
    f: &mut fmt::Formatter<W>,
    stop: &str,
    part: &str,
    before: &str,
) -> fmt::Result
    ensures { WritesOnOk W.write_str_gives f.old result (other_tree_text stop.now part.now before.now) f.new }
{
    let (stop, part, before) = (Shown(stop), Shown(part), Shown(before));
    write!(f, "M2 OtherTree {stop} {before} {part}")
}

/// The fault of a part's file that recovery refused, with its path. Want of memory has no path, as no file is at fault.
pub fn of_part<'a>(path: &'a str, fault: RecoverFault) -> Fault<'a>
    ensures { result ≡ of_part path.entry fault }
{
    match fault {
        RecoverFault::Memory => Fault::Memory,
        _ => Fault::Part(path, StoreFault::Recover(fault)),
    }
}

/// A fault of a store's file, if it is that of a part. Any other fault is as it was.
pub fn in_part<'a>(path: &'a str, fault: Fault<'a>) -> Fault<'a>
    ensures { result ≡ in_part path.entry fault.entry }
{
    match fault {
        Fault::Store(fault) => Fault::Part(path, StoreFault::Recover(fault)),
        Fault::GateDamaged => Fault::Part(path, StoreFault::GateDamaged),
        Fault::StoreInUse => Fault::Part(path, StoreFault::InUse),
        _ => fault,
    }
}
