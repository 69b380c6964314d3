//! The system that the program runs on.

ghost use Rattle.std.specs.Prelude.{◌≡◌, ℕ, List, IfOk, Some, is_some};
ghost use Rattle.gtfs_tables.specs.Feed.{Feed, AreReaders};
ghost use Rattle.program_system.specs.World.{World};

use gtfs_tables::Files;
use printing::Teller;
use progress::Progress;
use std::alloc::Global;
use std::hash::RandomState;
use std::io;
use std::io::Read;
use std::sync::Wait;
use std::thread::Threads;

/// What the program finds on its system: folders of feeds, files that list stops, threads and randomness. It also has who makes texts in
/// formats, and who reports the progress of a long work. A call is made at its turn, or not at all.
pub trait System {
    /// Reads a file of a feed, or one that lists stops.
    type Reader: Read + Drop;

    /// In which workers build.
    type Threads: Threads + Wait + Sync;

    /// Reports the progress of a long work.
    type Meter: Progress + Drop;

    /// Makes the texts of formats.
    type Teller: Teller;

    /// What is there.
    ghost world: { Self → World };

    fn threads(&self) -> &Self::Threads;

    fn teller(&self) -> Self::Teller;

    /// Who reports progress; `shown` is whether the words ask for that.
    fn meter(&self, shown: bool) -> Self::Meter;

    /// Keys under which ids are looked up; none if the system gives no randomness.
    fn hash_keys(&self) -> Option<RandomState>
        ensures { is_some result ≡ (world self.now).keyed };

    /// Opens the files of the feed in a folder. It fails only if memory runs out.
    fn open_feed(&self, alloc: Global, folder: &str) -> io::Result<Files<Self::Reader>>
        ensures { IfOk result (λ files. (feed : Feed) → (world self.now).holds folder.now feed
            → AreReaders Self.Reader.remaining files feed) };

    /// Opens a file that lists stops.
    fn open_list(&self, path: &str) -> io::Result<Self::Reader>
        ensures { IfOk result (λ reader. (bytes : List ℕ) → (world self.now).has path.now bytes
            → Self.Reader.remaining reader ≡ Some bytes) };

    /// The names in a folder; none if the system doesn't list it. It fails only if memory runs out.
    fn list_folder(&self, folder: &str) -> io::Result<Option<Vec<String>>>
        ensures { IfOk result ((world self.now).lists folder.now) };
}
