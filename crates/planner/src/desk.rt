//! An open store, and the board on which its trees are shown.

ghost use Rattle.std.specs.Prelude.{◌≡◌, ◌<◌};
ghost use Rattle.std.specs.List.{All};
ghost use Rattle.timetable.specs.Table.{stops_of};
ghost use Rattle.section_store.specs.Sources.{is_among};
ghost use Rattle.planner.specs.Desk.{IsDesk};

use board::{Told, Writer};
use disk_model::Disk;
use section_store::SectionStore;
use std::marker::Model;
use std::sync::Wait;
use timetable::StopId;

/// An open store, and the writer of the board on which stored trees are shown. End it by `into_disk`.
pub struct Desk<D: Disk> {
    store: SectionStore<D>,
    writer: Writer,
}

impl<D: Disk> Model for Desk<D> {
    ghost use Rattle.planner.specs.Desk.{DeskView, IsDesk};

    ghost Value = { DeskView D };

    ghost view = { λ d. record {
      form = d.store.form;
      stored = d.store.stored;
      next = d.store.next;
      place = d.store.place;
      disk = d.store.disk;
      board = d.writer;
    } };

    ghost invariant = { λ d. IsDesk d.store.form d.store.stored d.writer };
}

impl<D: Disk> Desk<D> {
    /// The desk of a store and of the board on which trees of it are shown.
    pub fn new(store: SectionStore<D>, writer: Writer) -> Desk<D>
        requires { IsDesk store.form store.stored writer }
        ensures { result ≡ record {
          form = store.form;
          stored = store.stored;
          next = store.next;
          place = store.place;
          disk = store.disk;
          board = writer;
        } }
    {
        Desk { store, writer }
    }

    /// The store, and the writer of the board.
    pub fn apart(self) -> (SectionStore<D>, Writer)
        ensures desk { IsDesk self.form self.stored self.board }
        ensures are { self ≡ record {
          form = result.0.form;
          stored = result.0.stored;
          next = result.0.next;
          place = result.0.place;
          disk = result.0.disk;
          board = result.1;
        } }
    {
        let Desk { store, writer } = self;
        (store, writer)
    }

    /// The stops whose trees are stored, in storing order.
    pub fn stored(&self) -> &[StopId]
        ensures stored { result.now ≡ self.now.stored }
        ensures known { All (λ s. s < stops_of self.now.form.table) self.now.stored }
    {
        let _writer = &self.writer;
        self.store.stored()
    }

    /// Whether the tree of a stop of the timetable is stored, by one look.
    pub fn has(&self, stop: StopId) -> bool
        ensures { stop < stops_of self.now.form.table → result ≡ is_among stop self.now.stored }
    {
        let _writer = &self.writer;
        self.store.has(stop)
    }

    /// The list of the trees that were shown by now, for readers to learn.
    pub fn tell(&self) -> Told
        ensures { result ≡ self.now.board.told }
    {
        let _store = &self.store;
        self.writer.tell()
    }

    /// The disk of the store, given back. It ends the board, and waits for readers that are looking; later looks are refused.
    pub fn into_disk<R: Wait>(self, rt: &R) -> D
        ensures { result ≡ self.disk }
    {
        let Desk { store, writer } = self;
        writer.close(rt);
        store.into_disk()
    }
}
