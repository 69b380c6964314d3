//! What the benchmark's words say.

ghost use Rattle.std.specs.Prelude.{◌≡◌, [], IfOk, IfErr, IfSome, IfNone, OnOk, map};
ghost use Rattle.clap.specs.Words.{rows_of, found_of, matches_of, fault_of, FailsBy};
ghost use Rattle.options.specs.Made.{IsMade};
ghost use Rattle.options.specs.Statuses.{IsStatus};
ghost use Rattle.bench.specs.CommandLine.{bench_app, IsMeasure, NamesNothing};

use clap::{ArgMatches, Command, Error};
use options::{Settings, Word, common, number_of, refuse, settings_of, text_of, with_words};
use std::alloc::Global;
use std::io::Write;

const ABOUT: &str =
    "Reads a feed, asks it random questions, and says how long each part takes: on standard error a line \
NAME COUNT SECONDS for each part, on standard output how many questions had an answer and the sum of their arrivals, and the nodes \
and ends of each tree.";

const DIRECT: &str = "How many questions for one ride are asked, up to 10000000";

const PLAIN: &str = "How many of these are answered by looking at each trip, too, up to 1000000";

const QUERIES: &str =
    "How many questions for the best journeys are asked, and of the trees once more, up to 1000000";

const SEED: &str = "Where the random numbers begin: the same seed asks the same questions";

const SOURCES: &str =
    "The trees of how many sources are built and asked, from the first stop on, up to 1000000";

const STORE: &str = "The file of a store, to which the trees of the sources are put";

/// What to measure.
#[derive(Clone, Copy)]
pub struct Measure<'a> {
    pub settings: Settings<'a>,
    /// How many questions for one ride are asked.
    pub direct: u32,
    /// How many of these are answered by looking at each trip, too.
    pub plain: u32,
    /// How many questions for the best journeys are asked.
    pub queries: u32,
    /// Where the random numbers begin.
    pub seed: u32,
    /// The trees of how many sources are built.
    pub sources: u32,
    /// The file of a store, if one is measured.
    pub store: Option<&'a str>,
}

// The benchmark's own words.
const WORDS: [Word; 6] = [
    Word::Number("direct", "N", "100000", 0, 10_000_000, DIRECT),
    Word::Number("plain", "N", "100", 0, 1_000_000, PLAIN),
    Word::Number("queries", "N", "1000", 0, 1_000_000, QUERIES),
    Word::Number("seed", "S", "1", 0, u32::MAX, SEED),
    Word::Number("sources", "N", "0", 0, 1_000_000, SOURCES),
    Word::Optional("store", "FILE", STORE),
];

// The benchmark's command line.
fn command<'a>(alloc: Global) -> Result<Command<'a>, Error>
    ensures { IsMade bench_app result }
{
    with_words(alloc, common(alloc, "bench", ABOUT)?, &WORDS)
}

// What the words match of the command line.
fn found<'a>(alloc: Global, words: &'a [&'a str]) -> Result<ArgMatches<'a>, Error>
    ensures rows { IfOk result (λ m. rows_of (found_of m) ≡ matches_of bench_app (map (λ w. w.now) words.entry.now)) }
    ensures faults { FailsBy (fault_of bench_app (map (λ w. w.now) words.entry.now)) result }
{
    command(alloc)?.try_get_matches_from(words)
}

// What the words say to measure: none if a word isn't there, or is out of its range.
fn measure_of<'a>(found: &ArgMatches<'a>) -> Option<Measure<'a>>
    ensures measure { IfSome result (IsMeasure (rows_of (found_of found.now))) }
    ensures none { IfNone result (NamesNothing (rows_of (found_of found.now))) }
{
    let settings = settings_of(found)?;
    let direct = number_of(found, "direct")?;
    let plain = number_of(found, "plain")?;
    let queries = number_of(found, "queries")?;
    let seed = number_of(found, "seed")?;
    let sources = number_of(found, "sources")?;
    Some(Measure {
        settings,
        direct,
        plain,
        queries,
        seed,
        sources,
        store: text_of(found, "store"),
    })
}

/// Reads the words of the benchmark, the first of which is its name: what they say to measure, with exactly their values. An `Err` is the
/// status to end with, and what the user is to read stands in `err`. That is the help that was asked for with status 0, a fault of words
/// with 2, want of memory with 7.
pub fn read_words<'a, E: Write>(
    alloc: Global,
    words: &'a [&'a str],
    err: &mut E,
) -> Result<Measure<'a>, u8>
    ensures measure { IfOk result (IsMeasure (matches_of bench_app (map (λ w. w.now) words.entry.now))) }
    ensures faultless { OnOk result (fault_of bench_app (map (λ w. w.now) words.entry.now) ≡ []) }
    ensures status { IfErr result (IsStatus (fault_of bench_app (map (λ w. w.now) words.entry.now))
        (NamesNothing (matches_of bench_app (map (λ w. w.now) words.entry.now)))) }
{
    match found(alloc, words) {
        Ok(found) => measure_of(&found).ok_or(2),
        Err(error) => Err(refuse("bench", &error, err)),
    }
}
