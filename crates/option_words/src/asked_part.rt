//! Which part of the stops the words ask for.

ghost use Rattle.std.specs.Prelude.{IfNone, IfSome};
ghost use Rattle.clap.specs.Words.{Text, rows_of, found_of};
ghost use Rattle.option_words.specs.PartWords.{AsksPart, NamesPart, IsMisnamedPart};
ghost use Rattle.stop_parts.specs.Parts.{Share};

use clap::ArgMatches;
use gtfs_text::whole;
use options::text_of;
use stop_parts::Part;

// The part that a text names.
fn named_part(text: &str) -> Option<Part>
    ensures part { IfSome result (NamesPart text.now) }
    ensures none { IfNone result ((part : Share) → ¬ NamesPart text.now part) }
{
    let (first, last) = text.split_once('/')?;
    let index = whole(first)?;
    let count = whole(last)?;
    Part::new(index, count)
}

/// The part of the stops that the words ask for: all stops, if they name none. None if what they name is no part.
pub fn part_of(found: &ArgMatches<'_>) -> Option<Part>
    ensures part { IfSome result (AsksPart (rows_of (found_of found.now))) }
    ensures none { IfNone result ((part : Share) → ¬ AsksPart (rows_of (found_of found.now)) part) }
{
    match text_of(found, "part") {
        Some(text) => named_part(text),
        None => Some(Part::whole()),
    }
}

/// The text that the words name as a part, if it names none.
pub fn misnamed_part<'a>(found: &ArgMatches<'a>) -> Option<&'a str>
    ensures text { IfSome result (λ text. IsMisnamedPart (rows_of (found_of found.now)) text.now) }
    ensures none { IfNone result ((text : Text) → ¬ IsMisnamedPart (rows_of (found_of found.now)) text) }
{
    match text_of(found, "part") {
        Some(text) if named_part(text).is_none() => Some(text),
        _ => None,
    }
}
