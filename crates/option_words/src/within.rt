//! Which connections the words ask for.

ghost use Rattle.std.specs.Prelude.{◌≡◌, ◌↔◌, IfErr, IfNone, IfOk, IfSome, IsTrue, Option, codes, ℕ};
ghost use Rattle.jiff_core.specs.declared.civil.date.Date.{Date as DateData};
ghost use Rattle.clap.specs.Words.{rows_of, found_of};
ghost use Rattle.option_words.specs.Days.{HasNoTime, IsNamedDay};
ghost use Rattle.option_words.specs.WithinWords.{HasNext, IsNextOf, IsUntilOf, NamesUntil, within_of};

use crate::word_fault::WordFault;
use civil_dates::Date;
use clap::ArgMatches;
use gtfs_text::time;
use options::{number_of, text_of};
use questions::{Until, Within};

// The greatest number of connections that can be asked for.
const MOST: u16 = 1_000;

/// Whether a last time to leave at is named, if a day is named for it.
pub fn names_until(found: &ArgMatches<'_>) -> bool
    ensures { IsTrue result ↔ NamesUntil (rows_of (found_of found.now)) }
{
    text_of(found, "until-on").is_none() || text_of(found, "until").is_some()
}

// The number of connections that is named; none if it is out of its range.
fn number_next(found: &ArgMatches<'_>) -> Option<u16>
    ensures next { IfSome result (HasNext (rows_of (found_of found.now))) }
    ensures none { IfNone result ((number : ℕ) → ¬ HasNext (rows_of (found_of found.now)) number) }
{
    let number = u16::try_from(number_of(found, "next")?).ok()?;
    if number < 1 || number > MOST {
        return None;
    }
    Some(number)
}

/// How many connections are asked for at most, if a number is named; none if that is out of its range.
pub(crate) fn next_of(found: &ArgMatches<'_>) -> Option<Option<u16>>
    ensures next { IfSome result (IsNextOf (rows_of (found_of found.now))) }
    ensures none { IfNone result ((number : Option ℕ) → ¬ IsNextOf (rows_of (found_of found.now)) number) }
{
    match text_of(found, "next") {
        Some(_) => Some(Some(number_next(found)?)),
        None => Some(None),
    }
}

/// The last time to leave at, if one is named. It is of the day `last`, that of `--until-on` or else the day to leave on. It may be none.
pub(crate) fn until_of(found: &ArgMatches<'_>, last: Date) -> Result<Option<Until>, WordFault>
    ensures until { IfOk result (λ until. (day : DateData) → IsNamedDay (rows_of (found_of found.now)) (codes "until-on") day last
        → IsUntilOf (rows_of (found_of found.now)) day until) }
    ensures fault { IfErr result (λ fault. (fault ≡ WordFault.BadUntil) × HasNoTime (rows_of (found_of found.now)) (codes "until")) }
{
    let Some(text) = text_of(found, "until") else {
        return Ok(None);
    };
    match time(text) {
        Some(seconds) => Ok(Some(Until { day: last, seconds })),
        None => Err(WordFault::BadUntil),
    }
}

/// The connections that are asked for, if a last time or a number of them is named.
pub(crate) fn within_of(until: Option<Until>, next: Option<u16>) -> Option<Within>
    ensures { result ≡ within_of until next }
{
    match (until, next) {
        (None, None) => None,
        _ => Some(Within { until, next }),
    }
}
