//! A store: a file to which trees are put.

ghost use Rattle.std.specs.Prelude.{◌≡◌, ◌<◌, ◌==◌, ℕ};
ghost use Rattle.disk_model.specs.MemDisk.{state_of, failures_of, is_told};
ghost use Rattle.timetable.specs.Table.{stops_of};
ghost use Rattle.section_store.specs.Going.{IsKept};
ghost use Rattle.section_store.specs.Sources.{IsSetOf, is_among};

use crate::form::Form;
use crate::step::Step;
use crate::stop_set::StopSet;
use crate::version::Version;
use disk_model::{Disk, MemDisk};
use std::alloc::Global;
use std::marker::Model;
use timetable::StopId;

/// A file of finished trees, and what is known of it: what it is a store of, where the closed gate stands, how long the
/// section that was written after it is and whose, and whose trees are stored, in order and as a set. The bytes of a
/// section are made in a buffer that is kept. By its type the file of an honest disk has what it should, at each call of a put.
#[derive(Drop)]
pub struct SectionStore<D: Disk> {
    pub(crate) disk: D,
    pub(crate) form: Form,
    pub(crate) place: u64,
    pub(crate) extent: u64,
    pub(crate) source: StopId,
    pub(crate) stored: Vec<StopId>,
    pub(crate) present: StopSet,
    pub(crate) next: Step,
    pub(crate) body: Vec<u8>,
}

impl<D: Disk> Model for SectionStore<D> {
    ghost use Rattle.std.specs.Prelude.{vec_len, vec_capacity};
    ghost use Rattle.section_store.specs.Stages.{IsStore};
    ghost use Rattle.section_store.specs.StoreView.{StoreView};

    ghost Value = { StoreView D };

    ghost view = { λ s. record {
      form = s.form;
      stored = s.stored.items;
      next = s.next;
      place = s.place;
      extent = s.extent;
      source = s.source;
      disk = s.disk;
    } };

    ghost invariant = { λ s. IsStore (D.honest s.disk) s.form s.stored.items s.present (vec_len s.stored) (vec_capacity s.stored) s.next
        s.place s.extent s.source (D.state s.disk) };
}

impl<D: Disk> SectionStore<D> {
    /// A store as it was found in a file: these sources are stored, `present` is their set, and the closed gate stands at
    /// `place`.
    pub fn resume(
        alloc: Global,
        disk: D,
        form: Form,
        stored: Vec<StopId>,
        present: StopSet,
        place: u64,
    ) -> Self
        requires kept { D.honest disk → IsKept form place stored.items (D.state disk) }
        requires version { form.version ≡ Version.Second }
        requires set { IsSetOf (stops_of form.table) present stored.items }
        ensures disk { result.disk ≡ disk }
        ensures form { result.form ≡ form }
        ensures place { result.place ≡ place }
        ensures stored { result.stored ≡ stored.items }
        ensures next { result.next ≡ Step.WriteBody }
    {
        SectionStore {
            disk,
            form,
            place,
            extent: 0,
            source: StopId::default(),
            stored,
            present,
            next: Step::WriteBody,
            body: Vec::new(alloc),
        }
    }

    /// Between puts the file of an honest disk holds trees of the stored sources, whatever came before. Nothing is run.
    pub fn is_kept(&self)
        ensures { D.honest self.now.disk → self.now.next ≡ Step.WriteBody
            → IsKept self.now.form self.now.place self.now.stored (D.state self.now.disk) }
    {
        let _place = &self.place;
    }

    /// Whose trees are stored, in storing order.
    pub fn stored(&self) -> &[StopId]
        ensures { result.now ≡ self.now.stored }
    {
        &self.stored
    }

    /// Whether the tree of a stop of the timetable is stored, by one look.
    pub fn has(&self, stop: StopId) -> bool
        ensures { stop < stops_of self.now.form.table → result ≡ is_among stop self.now.stored }
    {
        self.present.contains(stop)
    }

    /// The disk.
    pub fn disk(&self) -> &D
        ensures { result.now ≡ self.now.disk }
    {
        &self.disk
    }

    /// The disk, given back.
    pub fn into_disk(self) -> D
        ensures { result ≡ self.disk }
    {
        self.disk
    }

    /// The timetable and the most rides that the trees are for.
    pub fn form(&self) -> &Form
        ensures { result.now ≡ self.now.form }
    {
        &self.form
    }

    /// Which call of the disk comes next.
    pub fn next_step(&self) -> Step
        ensures { result ≡ self.now.next }
    {
        self.next
    }
}

impl SectionStore<MemDisk> {
    /// Makes the nth call of the disk from now, counted from 1, fail.
    pub fn fail_at(&mut self, n: u64)
        ensures state { state_of self.new.disk ≡ state_of self.old.disk }
        ensures failures { failures_of self.new.disk ≡ failures_of self.old.disk }
        ensures told { (k : ℕ) → is_told self.new.disk k ≡ (k == n) }
        ensures same { (self.new.place ≡ self.old.place) × (self.new.next ≡ self.old.next) × (self.new.form ≡ self.old.form) }
        ensures section { (self.new.extent ≡ self.old.extent) × (self.new.source ≡ self.old.source) }
        ensures stored { self.new.stored ≡ self.old.stored }
    {
        self.disk.fail_at(n);
    }
}
