//! What questions are asked of.

ghost use Rattle.std.specs.Prelude.{◌≡◌, ◌∷◌, ◌<◌, ◌≤◌, [], true, IfOk, IfErr, IfSome, OnOk, is_some, option_map};
ghost use Rattle.std.specs.Arc.{arc_value};
ghost use Rattle.answer_lines.specs.Moments.{TellsMoment};
ghost use Rattle.feed_basis.specs.Basis.{AreTablesOf, IsBasis, IsSound, IsTold};
ghost use Rattle.feed_basis.specs.BasisFaults.{IsBasisFault, IsKeyedFault};
ghost use Rattle.feed_basis.specs.Ids.{stop_alone};
ghost use Rattle.feed_ids.specs.Groups.{group};
ghost use Rattle.feed_ids.specs.Names.{KnowsStops};
ghost use Rattle.feed_timetable.specs.Answers.{IsFault, IsTimetable};
ghost use Rattle.feed_timetable.specs.Names.{AreNamesOf};
ghost use Rattle.gtfs_tables.specs.Feed.{Feed, AreReaders};
ghost use Rattle.service_days.specs.Answers.{IsMoment};
ghost use Rattle.timetable.specs.Table.{IsTable, stops_of};

use answer_lines::{DayTime, day_time};
use civil_dates::Date;
use direct_connections::Network;
use faults::Fault;
use feed_ids::{Groups, Names};
use feed_timetable::{assemble, names_of, repeats_of};
use gtfs_tables::{FeedFault, Files, Frequency, Tables, read_tables};
use options::Settings;
use service_days::Cover;
use service_span::{Idle, idle_of};
use std::alloc::{AllocError, Global};
use std::hash::RandomState;
use std::io::Read;
use std::marker::Model;
use std::sync::Arc;
use timetable::{StopId, Timetable};

/// A feed's timetable on the covered days, with the ids of its stops, stations and trips, and the rows that repeat trips. It also knows
/// whether no trip runs on these days.
#[derive(Drop)]
pub struct Basis {
    timetable: Arc<Timetable>,
    names: Arc<Names>,
    repeats: Groups<Frequency>,
    cover: Cover,
    idle: Option<Idle>,
}

impl Model for Basis {
    ghost use Rattle.std.specs.Arc.{arc_value};
    ghost use Rattle.feed_basis.specs.Basis.{BasisData, IsSound};

    ghost Value = { BasisData };

    ghost view = { λ b. record {
      timetable = arc_value b.timetable;
      names = arc_value b.names;
      repeats = b.repeats;
      cover = b.cover;
      idle = b.idle;
    } };

    ghost invariant = { λ b.
        IsSound (record {
          timetable = arc_value b.timetable;
          names = arc_value b.names;
          repeats = b.repeats;
          cover = b.cover;
          idle = b.idle;
        }) };
}

impl Basis {
    /// The timetable on the covered days.
    pub fn timetable(&self) -> &Timetable
        ensures value { result.now ≡ self.now.timetable }
        ensures valid { IsTable result.now }
        ensures sound { IsSound self.now }
    {
        &self.timetable
    }

    /// The timetable, for one more that holds it.
    pub fn shared(&self) -> &Arc<Timetable>
        ensures { arc_value result.now ≡ self.now.timetable }
    {
        &self.timetable
    }

    /// The timetable with its lines and direct connections. It fails only if memory runs out.
    pub fn network(&self, alloc: Global) -> Result<Network, AllocError>
        ensures { IfOk result (λ network. network ≡ self.now.timetable) }
    {
        let timetable = Arc::try_clone(&self.timetable)?;
        Network::of(alloc, timetable)
    }

    /// The ids of the feed's stops, stations and trips.
    pub fn names(&self) -> &Names
        ensures value { result.now ≡ self.now.names }
        ensures sound { IsSound self.now }
    {
        &self.names
    }

    /// The ids, for one more that holds them.
    pub fn shared_names(&self) -> &Arc<Names>
        ensures value { arc_value result.now ≡ self.now.names }
        ensures sound { IsSound self.now }
    {
        &self.names
    }

    /// The stop of an id: a station is no stop.
    pub fn stop_named(&self, id: &str) -> Option<StopId>
        ensures value { option_map (λ stop. stop ∷ []) result ≡ stop_alone self.now.names id.now }
        ensures stop { IfSome result (λ stop. stop < stops_of self.now.timetable) }
    {
        self.names.stop_named(id)
    }

    /// The rows of frequencies.txt that repeat a trip, by its number, in file order; none if it runs at its own times.
    pub fn repeats(&self, trip: u32) -> &[Frequency]
        ensures { result.now ≡ group self.now.repeats trip }
    {
        self.repeats.of(trip as usize)
    }

    /// The covered days.
    pub fn cover(&self) -> &Cover
        ensures { result.now ≡ self.now.cover }
    {
        &self.cover
    }

    /// That no trip runs on a covered day, with the first and the last day of service; none if some trip runs on one.
    pub fn idle(&self) -> Option<Idle>
        ensures { result ≡ self.now.idle }
    {
        self.idle
    }

    /// The service day and its time that a moment is.
    pub fn day_time(&self, moment: u32) -> DayTime
        ensures { TellsMoment self.now.cover moment result }
    {
        day_time(&self.cover, moment)
    }

    /// The moment of a time of a day, in seconds from the start of the first covered day. None if the day isn't covered, or the
    /// time is past 167:59:59.
    pub fn moment(&self, day: Date, seconds: u32) -> Option<u32>
        ensures { IsMoment self.now.cover day seconds result }
    {
        self.cover.moment(day, seconds)
    }

    /// The moment of a time that `day_time` gave, also of one past 167:59:59; none if the day isn't covered.
    pub fn told(&self, day: Date, seconds: u32) -> Option<u32>
        ensures { IsTold self.now.cover day seconds result }
    {
        self.cover.moment(day, 0)?.checked_add(seconds)
    }
}

// The timetable of a feed's tables on the covered days, which others may hold too.
fn shared_timetable(
    alloc: Global,
    tables: &Tables,
    cover: &Cover,
    default_walk: u32,
) -> Result<Arc<Timetable>, FeedFault>
    requires { default_walk ≤ 86_400 }
    ensures valid { IfOk result (λ timetable. IsTable (arc_value timetable)) }
    ensures ok { IfOk result (λ timetable. IsTimetable tables.now cover.now default_walk (arc_value timetable)) }
    ensures fault { IfErr result (IsFault tables.now cover.now default_walk) }
{
    let timetable = assemble(alloc, tables, cover, default_walk)?;
    Ok(Arc::new(alloc, timetable)?)
}

// The ids of a feed's tables, which others may hold too.
fn shared_names(
    alloc: Global,
    hash_keys: RandomState,
    tables: &Tables,
) -> Result<Arc<Names>, AllocError>
    ensures known { IfOk result (λ names. KnowsStops (arc_value names)) }
    ensures named { IfOk result (λ names. AreNamesOf tables.now (arc_value names)) }
{
    let names = names_of(alloc, hash_keys, tables)?;
    names.know_their_stops();
    Ok(Arc::new(alloc, names)?)
}

// The timetable of a feed's tables on the days from the first one on.
fn basis_over<'a>(
    alloc: Global,
    hash_keys: RandomState,
    settings: &Settings<'a>,
    first: Date,
    tables: &Tables,
) -> Result<Basis, Fault<'a>>
    ensures basis { (feed : Feed) → AreTablesOf feed tables.now → IfOk result (IsBasis feed settings.now first) }
    ensures fault { (feed : Feed) → AreTablesOf feed tables.now → IfErr result (IsKeyedFault feed settings.now first) }
{
    let cover = Cover::new(first, settings.days, settings.zone)?;
    let timetable = shared_timetable(alloc, tables, &cover, settings.default_walk)?;
    let idle = idle_of(alloc, tables, &cover)?;
    let names = shared_names(alloc, hash_keys, tables)?;
    let repeats = repeats_of(alloc, tables)?;
    Ok(Basis {
        timetable,
        names,
        repeats,
        cover,
        idle,
    })
}

/// What questions are asked of, over the feed's files and the days from the first one on. It is given only if every test of the feed
/// holds and the settings' zone is one. Ids are looked up under `hash_keys`: if the system gave no randomness for them, that is the
/// fault, and nothing is read.
pub fn basis_of<'a, R: Read + Drop>(
    alloc: Global,
    hash_keys: Option<RandomState>,
    settings: &Settings<'a>,
    first: Date,
    files: Files<R>,
) -> Result<Basis, Fault<'a>>
    ensures basis { (feed : Feed) → AreReaders R.remaining files feed → IfOk result (IsBasis feed settings.now first) }
    ensures keyed { OnOk result (is_some hash_keys ≡ true) }
    ensures fault { (feed : Feed) → AreReaders R.remaining files feed
        → IfErr result (IsBasisFault (is_some hash_keys) feed settings.now first) }
{
    let Some(hash_keys) = hash_keys else {
        return Err(Fault::NoRandomness);
    };
    let tables = read_tables(alloc, hash_keys, files)?;
    basis_over(alloc, hash_keys, settings, first, &tables)
}
