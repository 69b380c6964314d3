//! Which stored trees are audited.

ghost use Rattle.std.specs.Prelude.{IfNone, IfSome};
ghost use Rattle.clap.specs.Words.{rows_of, found_of};
ghost use Rattle.option_words.specs.AuditWords.{AuditsOf};
ghost use Rattle.option_words.specs.declared.audited.Audited.{Audited as AuditedData};

use crate::asked_workers::auditors_of;
use crate::workers::Workers;
use clap::ArgMatches;
use options::{flag_of, text_of};

/// Which stored trees are audited.
#[derive(Clone, Copy)]
pub enum Audited<'a> {
    /// The tree of a stop, by the stop's id.
    Stop(&'a str),
    /// All trees.
    All {
        workers: Workers,
        /// Whether progress is reported, even if standard error is no terminal.
        progress: bool,
    },
}

/// The trees that the words of an audit mean. None if they name no stop and don't say all, or both, or have a word for all beside a stop.
pub fn audited_of<'m, 'a>(found: &'m ArgMatches<'a>) -> Option<Audited<'m>>
    ensures audited { IfSome result (AuditsOf (rows_of (found_of found.now))) }
    ensures none { IfNone result ((audited : AuditedData) → ¬ AuditsOf (rows_of (found_of found.now)) audited) }
{
    let all = flag_of(found, "all");
    let progress = flag_of(found, "progress");
    match text_of(found, "from") {
        Some(from) => {
            if all || progress || text_of(found, "workers").is_some() {
                return None;
            }
            Some(Audited::Stop(from))
        }
        None => {
            if !all {
                return None;
            }
            let workers = auditors_of(found)?;
            Some(Audited::All { workers, progress })
        }
    }
}
