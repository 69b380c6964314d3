//! The words of a question.

ghost use Rattle.std.specs.Prelude.{IfOk, IfErr, IfSome, IfNone, Some};
ghost use Rattle.clap.specs.Words.{Text, rows_of, found_of};
ghost use Rattle.option_words.specs.Days.{HasNoDate, IsNamedDay};
ghost use Rattle.option_words.specs.Questions.{HasPlaces};
ghost use Rattle.option_words.specs.Questions.{ArePlaces, AreTimesIn, IsDayIn, IsFaultOf, LacksDayIn, LacksPlaces, LacksTimes};

use crate::within::{names_until, next_of, until_of, within_of};
use crate::word_fault::WordFault;
use civil_dates::Date;
use clap::ArgMatches;
use gtfs_text::{date, time};
use options::text_of;
use questions::Question;

// The ids and the time of a question, as they are written.
#[derive(Clone, Copy)]
struct Places<'a> {
    from: &'a str,
    to: &'a str,
    at: &'a str,
    // How many connections are asked for at most.
    next: Option<u16>,
}

// The question's texts, of which the option `start` has the place to leave from, and `goal` that to go to. None if one of its words isn't
// there, the number of connections is out of its range, or a day is named for a last time that isn't.
fn places_of<'m, 'a>(found: &'m ArgMatches<'a>, start: &str, goal: &str) -> Option<Places<'m>>
    ensures places { IfSome result (ArePlaces start.now goal.now (rows_of (found_of found.now))) }
    ensures none { IfNone result (LacksPlaces start.now goal.now (rows_of (found_of found.now))) }
{
    let from = text_of(found, start)?;
    let to = text_of(found, goal)?;
    let at = text_of(found, "at")?;
    let next = next_of(found)?;
    if !names_until(found) {
        return None;
    }
    Some(Places { from, to, at, next })
}

// The day that an option names, or else the other one; none if the option's text is no day.
fn named_day(found: &ArgMatches<'_>, option: &str, other: Date) -> Option<Date>
    ensures day { IfSome result (IsNamedDay (rows_of (found_of found.now)) option.now other) }
    ensures none { IfNone result (HasNoDate (rows_of (found_of found.now)) option.now) }
{
    match text_of(found, option) {
        None => Some(other),
        Some(text) => date(text),
    }
}

// The day to leave on: none if it is none, or the first covered day `first` is none.
fn day_of(found: &ArgMatches<'_>, first: Option<Date>) -> Option<Date>
    ensures day { IfSome result (IsDayIn (rows_of (found_of found.now)) first) }
    ensures none { IfNone result (LacksDayIn (rows_of (found_of found.now)) first) }
{
    let first = first?;
    named_day(found, "on", first)
}

// The question of these texts, with its days and times read from the words; `first` is the first covered day. Its day may be none, or else
// the day of its last time, or else its time, or else its last time.
fn question_of<'a>(
    places: Places<'a>,
    found: &ArgMatches<'_>,
    first: Option<Date>,
) -> Result<Question<'a>, WordFault>
    requires { (start : Text) × (goal : Text) × ArePlaces start goal (rows_of (found_of found.now)) places }
    ensures places { (start goal : Text) → ArePlaces start goal (rows_of (found_of found.now)) places.entry
        → IfOk result (HasPlaces start goal (rows_of (found_of found.now))) }
    ensures times { IfOk result (λ question. AreTimesIn (rows_of (found_of found.now)) first (Some question)) }
    ensures fault { IfErr result (LacksTimes (rows_of (found_of found.now)) first) }
{
    let Some(day) = day_of(found, first) else {
        return Err(WordFault::BadDate);
    };
    let Some(last) = named_day(found, "until-on", day) else {
        return Err(WordFault::BadLastDay);
    };
    let Some(seconds) = time(places.at) else {
        return Err(WordFault::BadTime);
    };
    match until_of(found, last) {
        Ok(until) => Ok(Question {
            from: places.from,
            to: places.to,
            day,
            seconds,
            within: within_of(until, places.next),
        }),
        Err(fault) => Err(fault),
    }
}

/// The question of the words, of which the option `start` has the place to leave from, and `goal` that to go to. Its days and times are
/// read; `first` is the first covered day.
pub fn asked_of<'m, 'a>(
    found: &'m ArgMatches<'a>,
    start: &str,
    goal: &str,
    first: Option<Date>,
) -> Result<Question<'m>, WordFault>
    ensures places { IfOk result (HasPlaces start.now goal.now (rows_of (found_of found.now))) }
    ensures times { IfOk result (λ question. AreTimesIn (rows_of (found_of found.now)) first (Some question)) }
    ensures fault { IfErr result
        (IsFaultOf (HasPlaces start.now goal.now (rows_of (found_of found.now))) Some (rows_of (found_of found.now)) first) }
{
    match places_of(found, start, goal) {
        Some(places) => question_of(places, found, first),
        None => Err(WordFault::NoJob),
    }
}
