//! Which stops a store has and lacks.

ghost use Rattle.std.specs.Prelude.{◌≡◌, ◌<◌, IfOk};
ghost use Rattle.precomputing.specs.Missing.{is_missing, missing_of};
ghost use Rattle.stop_parts.specs.Parts.{whole};
ghost use Rattle.timetable.specs.Table.{stops_of};
ghost use Rattle.store_terms.specs.Counts.{CountsStored};

use answer_lines::Built;
use disk_model::Disk;
use feed_basis::Basis;
use precomputing::count_in;
use section_store::SectionStore;
use std::alloc::{AllocError, Global};
use stop_parts::Part;
use stop_parts::laws::whole_has_all;
use store_terms::ids;
use timetable::StopId;

// Whether the store lacks the tree of the stop.
fn lacks<E: Disk>(store: &SectionStore<E>, stop: StopId) -> bool
    requires { stop < stops_of store.now.form.table }
    ensures { result ≡ is_missing whole store.now.stored stop }
{
    whole_has_all();
    !store.has(stop)
}

// The stops of the timetable whose trees the store lacks, in the order of their numbers.
fn lacking<E: Disk>(alloc: Global, store: &SectionStore<E>) -> Result<Vec<StopId>, AllocError>
    ensures { IfOk result (λ stops. stops.items ≡ missing_of whole (stops_of store.now.form.table) store.now.stored) }
{
    let mut lacking = Vec::new(alloc);
    for number in 0..store.form().timetable().stops() {
        let stop = StopId::new(number as u32);
        if lacks(store, stop) {
            lacking.push(stop)?;
        }
    }
    Ok(lacking)
}

/// How many stops of the basis have their trees in the store, of how many, and the ids of the others, in the order of their numbers. It
/// fails only if memory runs out.
pub(crate) fn counted<'a, E: Disk>(
    alloc: Global,
    basis: &'a Basis,
    store: &SectionStore<E>,
) -> Result<Built<'a>, AllocError>
    requires { store.now.form.table ≡ basis.now.timetable }
    ensures { IfOk result (CountsStored basis.now whole store.now.stored) }
{
    let whole = Part::whole();
    let lacking = lacking(alloc, store)?;
    Ok(Built {
        stored: count_in(whole, store.stored()),
        of: whole.among(basis.timetable().stops()),
        missing: ids(alloc, basis, &lacking)?,
    })
}
