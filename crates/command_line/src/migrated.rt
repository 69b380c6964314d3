//! From which file to which a store is taken over.

ghost use Rattle.std.specs.Prelude.{◌≡◌, IfNone, IfSome};
ghost use Rattle.clap.specs.Words.{Text, rows_of, found_of};
ghost use Rattle.command_line.specs.Jobs.{store_option, task_name};
ghost use Rattle.command_line.specs.MigrationWords.{TakesOver};
ghost use Rattle.command_line.specs.declared.job.Task.{Task};

use clap::ArgMatches;
use options::text_of;

/// The option that names the file of the store, for the task of a command's name: to migrate is to write another file.
pub(crate) fn store_option(name: &str) -> &'static str
    ensures { (task : Task) → name.now ≡ task_name task → result.now ≡ store_option task }
{
    match name {
        "migrate" => "to",
        _ => "store",
    }
}

/// The file of the version before. None if the words name none, or the same text for the new one.
pub(crate) fn old_store_of<'m, 'a>(found: &'m ArgMatches<'a>) -> Option<&'m str>
    ensures old { IfSome result (λ old. TakesOver (rows_of (found_of found.now)) old.now) }
    ensures none { IfNone result ((old : Text) → ¬ TakesOver (rows_of (found_of found.now)) old) }
{
    let old = text_of(found, "store")?;
    match text_of(found, "to") {
        Some(new) if new == old => None,
        _ => Some(old),
    }
}
