//! From a list of faults to what is printed of them.

ghost use Rattle.std.specs.Prelude.{IfOk};
ghost use Rattle.printing.specs.Listed.{IsReportOf};

use crate::report::{FaultReport, ListedFault};
use crate::teller::Teller;
use command_line::Given;
use faults::Fault;
use file_faults::FaultList;
use std::alloc::{AllocError, Global};

/// The faults of a list, in its order, with the lines that the teller adds to those of each. What the words say is the folder of the feed,
/// whose files are looked into once for all faults. It fails only if memory runs out.
pub fn fault_report<T: Teller>(
    alloc: Global,
    teller: &T,
    folder: &str,
    given: &Given<'_>,
    list: &FaultList,
) -> Result<FaultReport, AllocError>
    ensures { IfOk result (IsReportOf T.telling given.now list.now) }
{
    let places = teller.places(alloc, folder, &list.faults)?;
    let mut faults = Vec::new(alloc);
    for (at, fault) in list.faults.iter().enumerate() {
        faults.push(ListedFault {
            fault: *fault,
            beneath: teller.place_hint(alloc, &places, at, given, &Fault::Feed(*fault))?,
        })?;
    }
    Ok(FaultReport {
        faults,
        more: list.more,
    })
}
