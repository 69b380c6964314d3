//! What is measured, part by part.

ghost use Rattle.std.specs.Prelude.{◌≡◌, ◌<◌, None, Err};
ghost use Rattle.gtfs_text.specs.Values.{date_of};
ghost use Rattle.timetable.specs.Table.{stops_of};
ghost use Rattle.rounds.specs.Scratch.{IsMadeFor as IsScratchFor};
ghost use Rattle.faults.specs.declared.fault.Fault.TheVariants.{BadDate};

use crate::asking::{ask_direct, ask_plain, ask_rounds, ask_trees};
use crate::building::{Trees, build_tree};
use crate::clock::{now, tell};
use crate::storing::measure_store;
use crate::texts::{Rewritten, read_texts, write_texts};
use crate::total::times_faster;
use crate::words::Measure;
use civil_dates::Date;
use direct_connections::Network;
use faults::Fault;
use feed_files::open_feed;
use feed_timetable::assemble;
use gtfs_tables::{Tables, read_tables};
use gtfs_text::date;
use lines::Lines;
use options::Settings;
use pattern_query::Patterns;
use pattern_tree::Arena;
use rounds::{Rides, Scratch};
use service_days::Cover;
use std::alloc::{AllocError, Global};
use std::hash::RandomState;
use std::io::Write;
use std::sync::Arc;
use std::time::Instant;
use timetable::{StopId, Timetable};

// The feed's tables.
fn read(rt: &HostRuntime, folder: &str) -> Result<Tables, Fault<'static>> {
    let alloc = rt.alloc();
    let Ok(hash_keys) = RandomState::new(rt) else {
        return Err(Fault::NoRandomness);
    };
    let Ok(files) = open_feed(rt, alloc, folder) else {
        return Err(Fault::Memory);
    };
    Ok(read_tables(alloc, hash_keys, files)?)
}

// The timetable of the days from the first one on.
fn timetable_of(
    alloc: Global,
    tables: &Tables,
    first: Date,
    settings: &Settings<'_>,
) -> Result<Timetable, Fault<'static>> {
    let cover = Cover::new(first, settings.days, settings.zone)?;
    Ok(assemble(alloc, tables, &cover, settings.default_walk)?)
}

// Measures how a timetable comes about.
fn measure_making(
    rt: &HostRuntime,
    first: Date,
    settings: &Settings<'_>,
) -> Result<Timetable, Fault<'static>> {
    let start = now(rt);
    let tables = read(rt, settings.feed)?;
    tell(rt, "read", tables.trips().len() as u64, start);

    let start = now(rt);
    let timetable = timetable_of(rt.alloc(), &tables, first, settings)?;
    tell(rt, "assemble", timetable.instances().len() as u64, start);
    Ok(timetable)
}

// Measures rides from a stop to a stop: by the lines, and looking at each trip.
fn measure_rides(rt: &HostRuntime, network: &Network, job: &Measure<'_>) {
    let start = now(rt);
    let direct = ask_direct(network, job.direct, job.seed);
    let fast = tell(rt, "direct", u64::from(job.direct), start);

    let start = now(rt);
    let plain = ask_plain(network.timetable(), job.plain, job.seed);
    let slow = tell(rt, "plain_direct", u64::from(job.plain), start);
    let times = times_faster(slow, job.plain, fast, job.direct);
    let _ = writeln!(rt.stderr(), "times_faster {times}");

    let _ = writeln!(rt.stdout(), "direct {direct}\nplain_direct {plain}");
}

// Measures the best journeys between any stops, from `start` on.
fn measure_journeys(
    rt: &HostRuntime,
    timetable: &Timetable,
    scratch: &mut Scratch,
    job: &Measure<'_>,
    start: Option<Instant>,
) -> Result<(), AllocError>
    requires { IsScratchFor scratch.old timetable.now }
    ensures { IsScratchFor scratch.new timetable.now }
{
    let scan = ask_rounds(timetable, scratch, timetable.stops(), job.queries, job.seed)?;
    tell(rt, "scan", u64::from(job.queries), start);
    let _ = writeln!(rt.stdout(), "scan {scan}");
    Ok(())
}

// Measures the tree of a stop, which is built in the arena's memory, and keeps its patterns and its text.
fn measure_tree(
    rt: &HostRuntime,
    timetable: &Timetable,
    source: StopId,
    scratch: &mut Scratch,
    arena: &mut Arena,
    trees: &mut Trees,
) -> Result<(), Fault<'static>>
    requires made { IsScratchFor scratch.old timetable.now }
    requires known { source < stops_of timetable.now }
    ensures { IsScratchFor scratch.new timetable.now }
{
    let alloc = rt.alloc();
    let start = now(rt);
    let size = build_tree(alloc, arena, timetable, source, scratch, trees)?;
    arena.renew(alloc)?;
    let number = source.number();
    tell(rt, "tree", number as u64, start);
    let _ = writeln!(rt.stdout(), "tree {number} {} {}", size.nodes, size.ends);
    Ok(())
}

// Measures the trees of the first sources, one after the other, and keeps them.
fn measure_trees(
    rt: &HostRuntime,
    timetable: &Timetable,
    scratch: &mut Scratch,
    arena: &mut Arena,
    trees: &mut Trees,
    sources: u32,
) -> Result<(), Fault<'static>>
    requires { IsScratchFor scratch.old timetable.now }
    ensures { IsScratchFor scratch.new timetable.now }
{
    let sources = timetable.stops().min(sources as usize);
    let start = now(rt);
    for number in 0..sources {
        let source = StopId::new(number as u32);
        measure_tree(rt, timetable, source, scratch, arena, trees)?;
    }
    tell(rt, "build", sources as u64, start);
    Ok(())
}

// Measures questions from the sources of the trees: from the trees, and the same ones by the rounds.
fn measure_answers(
    rt: &HostRuntime,
    network: &Network,
    scratch: &mut Scratch,
    trees: &[Patterns],
    job: &Measure<'_>,
) -> Result<(), AllocError>
    requires { IsScratchFor scratch.old network.now }
{
    let (queries, seed) = (job.queries, job.seed);
    let start = now(rt);
    let asked = ask_trees(network, trees, queries, seed);
    let fast = tell(rt, "ask", u64::from(queries), start);

    let start = now(rt);
    let scanned = ask_rounds(network.timetable(), scratch, trees.len(), queries, seed)?;
    let slow = tell(rt, "scan_same", u64::from(queries), start);
    let times = times_faster(slow, queries, fast, queries);
    let _ = writeln!(rt.stderr(), "ask_times_faster {times}");

    let _ = writeln!(rt.stdout(), "ask {asked}\nscan_same {scanned}");
    Ok(())
}

// Measures how the trees' texts are read, and how they are written again.
fn measure_texts(rt: &HostRuntime, stops: usize, trees: &Trees) -> Result<(), AllocError> {
    let alloc = rt.alloc();
    let texts = trees.texts.as_slice();
    let bytes = texts.len();

    let start = now(rt);
    let read = read_texts(alloc, texts, stops, trees.patterns.len())?;
    tell(rt, "decode", bytes as u64, start);

    let start = now(rt);
    let written = write_texts(alloc, &read)?;
    tell(rt, "encode", written.len() as u64, start);

    let rewritten = Rewritten {
        trees: read.len(),
        bytes: written.len(),
        same: written.as_slice() == texts,
    };
    let _ = writeln!(rt.stdout(), "texts {rewritten}");
    Ok(())
}

// Measures searches for journeys: by the rounds, and from the trees of the first stops. Without trees nothing is asked of them.
fn measure_searches(
    rt: &HostRuntime,
    network: &Network,
    job: &Measure<'_>,
) -> Result<(), Fault<'static>> {
    let alloc = rt.alloc();
    let timetable = network.timetable();
    let mut arena = Arena::new(alloc)?;
    let start = now(rt);
    let mut scratch = Scratch::new(alloc, timetable, Rides::new(job.settings.rides))?;
    measure_journeys(rt, timetable, &mut scratch, job, start)?;

    let mut trees = Trees::new(alloc);
    measure_trees(
        rt,
        timetable,
        &mut scratch,
        &mut arena,
        &mut trees,
        job.sources,
    )?;
    if !trees.patterns.is_empty() {
        let patterns = trees.patterns.as_slice();
        measure_answers(rt, network, &mut scratch, patterns, job)?;
        measure_texts(rt, timetable.stops(), &trees)?;
    }
    Ok(())
}

// Measures how the lines come about, and how they do with the direct connections.
fn measure_network(rt: &HostRuntime, timetable: Timetable) -> Result<Network, AllocError> {
    let alloc = rt.alloc();
    let start = now(rt);
    let lines = Lines::of(alloc, &timetable)?;
    tell(rt, "lines", lines.lines().len() as u64, start);

    let timetable = Arc::new(alloc, timetable).map_err(AllocError::from)?;
    let start = now(rt);
    let network = Network::of(alloc, timetable)?;
    tell(rt, "network", network.timetable().stops() as u64, start);
    Ok(network)
}

/// Measures all parts: how long each took goes to standard error, what the answers add up to, and how large the trees are, to standard
/// output. No contract says what a clock gives or what a system's streams take.
pub fn measure(rt: &HostRuntime, job: &Measure<'_>) -> Result<(), Fault<'static>>
    ensures date { date_of job.now.settings.date.now ≡ None → result ≡ Err BadDate }
{
    let Some(first) = date(job.settings.date) else {
        return Err(Fault::BadDate);
    };
    let timetable = measure_making(rt, first, &job.settings)?;
    let network = measure_network(rt, timetable)?;
    measure_rides(rt, &network, job);
    measure_searches(rt, &network, job)?;
    match job.store {
        Some(path) => {
            let rides = Rides::new(job.settings.rides);
            measure_store(rt, network.shared(), rides, job.sources, path)
        }
        None => Ok(()),
    }
}
