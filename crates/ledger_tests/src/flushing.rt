//! Flushes of the sample feed's trees to a store in memory.

ghost use Rattle.std.specs.Prelude.{◌<◌, ◌≤◌, ◌+◌, ◌≡◌, length, vec_len, vec_capacity, IfOk};
ghost use Rattle.std.specs.Arc.{arc_value};
ghost use Rattle.timetable.specs.Table.{stops_of};
ghost use Rattle.section_store.specs.Sections.{form_of};
ghost use Rattle.section_store.specs.declared.version.Version.TheVariants.{Second};

use crate::tests::tree;
use disk_model::MemDisk;
use flusher::{Ack, FlushEnd, Intake, Notice, flush};
use pattern_tree::Finished;
use sample_feed::demo;
use section_store::{Form, Receipt, SectionStore, Step, begin};
use std::alloc::{AllocError, Global};
use std::sync::Arc;
use std::test::Fail;
use timetable::{Rides, StopId, Timetable};
use work_ledger::Outcome;

// Trees that wait, the last of them the next, which are for one timetable and rides. And the sources that were taken, and what became of
// them.
#[derive(Drop)]
struct Waiting {
    form: Form,
    trees: Vec<Finished>,
    taken: Vec<StopId>,
    acks: Vec<Ack>,
    closed: bool,
    ghost written: { form.version ≡ Second },
    ghost fewer: { length acks.items ≤ length taken.items },
    ghost room: { vec_len taken + vec_len trees ≤ vec_capacity taken },
    ghost room_for_acks: { vec_capacity taken ≤ vec_capacity acks },
}

impl Waiting {
    fn new(alloc: Global, form: Form, trees: Vec<Finished>) -> Result<Waiting, AllocError>
        requires { form.version ≡ Second }
        ensures { IfOk result (λ waiting. waiting.form ≡ form) }
    {
        let taken = Vec::with_capacity(alloc, trees.len())?;
        let acks = Vec::with_capacity(alloc, taken.capacity())?;
        Ok(Waiting {
            form,
            trees,
            taken,
            acks,
            closed: false,
        })
    }
}

impl Intake for Waiting {
    ghost use Rattle.std.specs.Prelude.{length};

    ghost form = { λ w. w.form };

    ghost taken = { λ w. w.taken.items };

    ghost acked = { λ w. w.acks.items };

    ghost closed = { λ w. w.closed };

    ghost left = { λ w. length w.trees.items };

    ghost fewer = { λ w. w.fewer };

    fn take(&mut self) -> Option<Finished> {
        match self.trees.pop() {
            Some(tree) if self.form.is_of(&tree) => {
                self.closed = false;
                self.taken.push_reserved(tree.tree().source());
                Some(tree)
            }
            _ => {
                self.closed = true;
                None
            }
        }
    }

    fn ack(&mut self, ack: Ack) {
        self.acks.push_reserved(ack);
    }
}

// Who hears of the trees, and the numbers of the receipts.
#[derive(Drop)]
struct Heard {
    form: Form,
    numbers: Vec<usize>,
}

impl Notice for Heard {
    ghost form = { λ h. h.form };

    ghost goes = { λ old new. Unit {0} };

    ghost stays = { λ h. tt };

    ghost goes_in_turn = { λ old mid new first second. tt };

    fn stored(&mut self, _tree: Finished, receipt: Receipt) {
        let _ = self.numbers.push(receipt.number());
    }
}

// A store in memory, of whose disk the call `fails_at` fails, and who hears of its trees.
fn store_and_heard(
    alloc: Global,
    table: &Arc<Timetable>,
    fails_at: u64,
) -> Result<(SectionStore<MemDisk>, Heard), Fail>
    ensures ready { IfOk result (λ r. r.0.next ≡ Step.WriteBody) }
    ensures form { IfOk result (λ r. (r.1.form ≡ r.0.form) × (r.0.form ≡ form_of (arc_value table.now) 3)) }
{
    let rides = Rides::new(3);
    let Ok(mut store) = begin(alloc, MemDisk::new(alloc), table, rides) else {
        return Err(Fail::new("the store wasn't begun"));
    };
    store.fail_at(fails_at);
    let form = Form::new(Arc::try_clone(table)?, rides);
    let heard = Heard {
        form,
        numbers: Vec::new(alloc),
    };
    Ok((store, heard))
}

// The trees of A, B, C and D, between them one of A again; the first to be taken last.
fn trees_waiting(alloc: Global, table: &Arc<Timetable>) -> Result<Waiting, Fail>
    requires { stops_of (arc_value table.now) ≡ 5 }
    ensures { IfOk result (λ waiting. waiting.form ≡ form_of (arc_value table.now) 3) }
{
    let mut trees = Vec::new(alloc);
    for source in [2, 3, 0, 1, 0] {
        trees.push(tree(alloc, table, 3, source)?)?;
    }
    let form = Form::new(Arc::try_clone(table)?, Rides::new(3));
    Ok(Waiting::new(alloc, form, trees)?)
}

// What became of each, by its outcome, and which receipts were heard of.
fn told(waiting: &Waiting, heard: &Heard) -> (usize, usize, usize) {
    let kept = waiting
        .acks
        .iter()
        .filter(|ack| ack.outcome == Outcome::Keep)
        .count();
    (waiting.acks.len(), kept, heard.numbers.len())
}

#[test]
fn stored_as_they_come(rt: HostRuntime) -> Result<(), Fail> {
    let alloc = rt.alloc();
    let table = Arc::new(alloc, demo(&rt)?)?;
    let mut waiting = trees_waiting(alloc, &table)?;
    let (mut store, mut heard) = store_and_heard(alloc, &table, 0)?;
    let end = flush(&mut store, &mut waiting, &mut heard);
    assert!(rt; end == FlushEnd::Drained && waiting.closed);
    assert_eq!(rt; told(&waiting, &heard), (5, 4, 4));
    assert!(rt;
        store.stored()
            == [
                StopId::new(0),
                StopId::new(1),
                StopId::new(3),
                StopId::new(2)
            ]
            .as_slice()
    );
    Ok(())
}

// Each put makes four calls; the second of the second put fails.
#[test]
fn ends_where_the_device_fails(rt: HostRuntime) -> Result<(), Fail> {
    let alloc = rt.alloc();
    let table = Arc::new(alloc, demo(&rt)?)?;
    let mut waiting = trees_waiting(alloc, &table)?;
    let (mut store, mut heard) = store_and_heard(alloc, &table, 6)?;
    let end = flush(&mut store, &mut waiting, &mut heard);
    assert!(rt; end == FlushEnd::DeviceFailed && waiting.taken.len() == 2);
    assert_eq!(rt; told(&waiting, &heard), (1, 1, 1));
    assert!(rt; store.stored() == [StopId::new(0)].as_slice());
    Ok(())
}
