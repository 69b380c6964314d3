//! How many workers the words ask for.

ghost use Rattle.std.specs.Prelude.{IfNone, IfSome};
ghost use Rattle.clap.specs.Words.{rows_of, found_of};
ghost use Rattle.option_words.specs.AuditWords.{AsksAuditors};
ghost use Rattle.option_words.specs.WorkerWords.{HasWorkers, LacksWorkers};
ghost use Rattle.option_words.specs.declared.workers.Workers.{Workers as WorkersData};

use crate::workers::Workers;
use clap::ArgMatches;
use options::{byte_of, text_of};

// How many workers audit, if the words don't say: as many as build then.
const AUDITORS: u8 = 2;

/// How many workers the words ask for: none if they don't say, or the number is out of its range.
pub fn workers_of(found: &ArgMatches<'_>) -> Option<Workers>
    ensures workers { IfSome result (HasWorkers (rows_of (found_of found.now))) }
    ensures none { IfNone result (LacksWorkers (rows_of (found_of found.now))) }
{
    let number = byte_of(found, "workers")?;
    if number < 1 || number > 64 {
        return None;
    }
    Some(Workers { number })
}

/// How many workers audit all trees: none if the number is out of its range.
pub(crate) fn auditors_of(found: &ArgMatches<'_>) -> Option<Workers>
    ensures workers { IfSome result (AsksAuditors (rows_of (found_of found.now))) }
    ensures none { IfNone result ((workers : WorkersData) → ¬ AsksAuditors (rows_of (found_of found.now)) workers) }
{
    match text_of(found, "workers") {
        Some(_) => workers_of(found),
        None => Some(Workers { number: AUDITORS }),
    }
}
