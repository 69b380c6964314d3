//! The system that a program is started on.

use crate::meter::Meter;
use crate::teller::FolderTeller;
use feed_files::{FeedReader, list_folder, open_feed};
use gtfs_tables::Files;
use program_system::System;
use std::alloc::Global;
use std::hash::RandomState;
use std::sync::Wait;
use std::thread::Threads;
use std::{fs, io};

/// The files, the randomness and the threads of the runtime. Nothing is claimed of what is there.
#[derive(Drop)]
pub struct HostSystem<'r, T: Threads + Wait + Sync> {
    rt: &'r HostRuntime,
    threads: &'r T,
    // Keys under which ids are looked up; none if the system gave no randomness for them.
    keys: Option<RandomState>,
}

impl<'r, T: Threads + Wait + Sync> HostSystem<'r, T> {
    /// The system of the runtime, with workers in such threads.
    pub fn new(rt: &'r HostRuntime, threads: &'r T) -> Self {
        HostSystem {
            rt,
            threads,
            keys: RandomState::new(rt).ok(),
        }
    }
}

impl<'r, T: Threads + Wait + Sync> System for HostSystem<'r, T> {
    ghost use Rattle.std.specs.Prelude.{is_some};

    type Reader = FeedReader;

    type Threads = T;

    type Meter = Meter<'r>;

    type Teller = FolderTeller<'r>;

    ghost world = { λ system. record {
      holds = λ _ _. ⊥;
      lists = λ _ _. Unit {0};
      has = λ _ _. ⊥;
      keyed = is_some system.keys;
    } };

    fn threads(&self) -> &T {
        self.threads
    }

    fn teller(&self) -> FolderTeller<'r> {
        FolderTeller::new(self.rt)
    }

    fn meter(&self, shown: bool) -> Meter<'r> {
        Meter::new(self.rt, shown)
    }

    fn hash_keys(&self) -> Option<RandomState> {
        self.keys
    }

    fn open_feed(&self, alloc: Global, folder: &str) -> io::Result<Files<FeedReader>> {
        open_feed(self.rt, alloc, folder)
    }

    fn open_list(&self, path: &str) -> io::Result<FeedReader> {
        Ok(FeedReader::Opened(fs::open(self.rt, path)?))
    }

    fn list_folder(&self, folder: &str) -> io::Result<Option<Vec<String>>> {
        list_folder(self.rt, folder)
    }
}
