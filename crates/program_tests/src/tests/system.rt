//! A system in memory, and files of stores there.

use super::feed::{Failure, Source, feed, list_of};
use super::teller::Saying;
use disk_model::{FileFault, MemDisk};
use gtfs_tables::Files;
use program_system::System;
use progress::Silent;
use std::alloc::Global;
use std::cell::Cell;
use std::hash::RandomState;
use std::io;
use std::sync::Wait;
use std::thread::Threads;
use store_files::Disks;

/// One feed in each folder.
#[derive(Drop)]
pub struct FakeSystem<'t, T: Threads + Wait + Sync> {
    pub threads: &'t T,
    pub teller: Saying,
    pub hash_keys: Option<RandomState>,
    /// The file of the feed whose reader fails, if one does.
    pub failure: Failure,
}

impl<'t, T: Threads + Wait + Sync> System for FakeSystem<'t, T> {
    ghost use Rattle.std.specs.Prelude.{is_some};

    type Reader = Source;

    type Threads = T;

    type Meter = Silent;

    type Teller = Saying;

    ghost world = { λ system. record {
      holds = λ _ _. ⊥;
      lists = λ _ _. Unit {0};
      has = λ _ _. ⊥;
      keyed = is_some system.hash_keys;
    } };

    fn threads(&self) -> &T {
        self.threads
    }

    fn teller(&self) -> Saying {
        self.teller
    }

    fn meter(&self, _shown: bool) -> Silent {
        Silent
    }

    fn hash_keys(&self) -> Option<RandomState> {
        self.hash_keys
    }

    fn open_feed(&self, _alloc: Global, _folder: &str) -> io::Result<Files<Source>> {
        Ok(feed(self.failure))
    }

    fn open_list(&self, path: &str) -> io::Result<Source> {
        list_of(path)
    }

    fn list_folder(&self, _folder: &str) -> io::Result<Option<Vec<String>>> {
        Ok(None)
    }
}

/// One store, and one file to be read only. The disk of each is handed out once.
#[derive(Drop)]
pub struct FakeDisks {
    pub store: Cell<Result<MemDisk, FileFault>>,
    pub old: Cell<Result<MemDisk, FileFault>>,
}

impl Disks for FakeDisks {
    type Store = MemDisk;

    ghost opens = { λ _ _ _. Unit {0} };

    fn open_store(&self, _path: &str, _only_reads: bool) -> Result<MemDisk, FileFault> {
        self.store.replace(Err(FileFault::Failed))
    }

    fn open_to_read(&self, _path: &str) -> Result<MemDisk, FileFault> {
        self.old.replace(Err(FileFault::Failed))
    }
}
