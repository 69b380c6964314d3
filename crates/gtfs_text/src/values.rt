//! The values that fields spell, by their types (GTFS Schedule reference, "Field types").

ghost use Rattle.std.specs.Prelude.{◌≡◌, ◌<◌, ◌≤◌, ◌^◌, ◌&&◌, true, None, Some, length, drop, nat_le, if◌then◌else◌, option_map};
ghost use Rattle.std.specs.List.{list_all};
ghost use Rattle.std.specs.Char.{is_ascii_digit};
ghost use Rattle.gtfs_text.specs.Values.{date_of, day_of, ymd, decimal, is_digits, whole_of, time_of, is_time, is_sixtieth, seconds_of};

use crate::clock::usual_time;
use civil_dates::Date;

// The number that these digits spell.
fn decimal(digits: &[u8]) -> u32
    requires few { length digits.now ≤ 9 }
    requires digits { list_all is_ascii_digit digits.now ≡ true }
    ensures value { result ≡ decimal digits.now }
    ensures bound { result < 10 ^ length digits.now }
{
    let mut number = 0;
    for digit in digits {
        number = 10 * number + (*digit - b'0') as u32;
    }
    number
}

fn all_digits(text: &[u8]) -> bool
    ensures { result ≡ list_all is_ascii_digit text.now }
{
    text.iter().all(|byte| byte.is_ascii_digit())
}

// Whether this is from `least` to `most` digits and nothing else.
fn is_digits(least: usize, most: usize, text: &[u8]) -> bool
    ensures { result ≡ is_digits least most text.now }
{
    least <= text.len() && text.len() <= most && all_digits(text)
}

/// The number of a "Non-negative integer" of at most nine digits; None if the text is no such number.
/// Signs, spaces and digits of other scripts make it none. Zeros may stand before the number.
pub fn whole(text: &str) -> Option<u32>
    ensures { result ≡ whole_of text.now }
{
    let bytes = text.as_bytes();
    if is_digits(1, 9, bytes) {
        Some(decimal(bytes))
    } else {
        None
    }
}

// The hours that one to three digits spell, if they are at most 167.
fn hours(text: &[u8]) -> Option<u32>
    ensures { result ≡ (if is_digits 1 3 text.now && nat_le (decimal text.now) 167 then Some (decimal text.now) else None) }
{
    if let [tens, ones] = text
        && tens.is_ascii_digit()
        && ones.is_ascii_digit()
    {
        return Some(10 * (*tens - b'0') as u32 + (*ones - b'0') as u32);
    }
    if !is_digits(1, 3, text) {
        return None;
    }
    let hours = decimal(text);
    if hours <= 167 { Some(hours) } else { None }
}

// The minutes or the seconds that `:` and two digits spell, if they are at most 59.
fn sixtieth(text: &[u8]) -> Option<u32>
    ensures { result ≡ (if is_sixtieth text.now then Some (decimal (drop 1 text.now)) else None) }
{
    let [b':', tens, ones] = text else {
        return None;
    };
    if !tens.is_ascii_digit() || !ones.is_ascii_digit() {
        return None;
    }
    let number = 10 * (*tens - b'0') as u32 + (*ones - b'0') as u32;
    if number <= 59 { Some(number) } else { None }
}

// The seconds of the hours, minutes and seconds that these texts spell.
fn seconds_of(hours_text: &[u8], minutes_text: &[u8], seconds_text: &[u8]) -> Option<u32>
    ensures { result ≡ (if is_time hours_text.now minutes_text.now seconds_text.now
        then Some (seconds_of hours_text.now minutes_text.now seconds_text.now) else None) }
{
    let hours = hours(hours_text)?;
    let minutes = sixtieth(minutes_text)?;
    let seconds = sixtieth(seconds_text)?;
    Some(3600 * hours + 60 * minutes + seconds)
}

// The seconds of any text that is a time.
fn any_time(text: &[u8]) -> Option<u32>
    ensures { result ≡ time_of text.now }
{
    let (hours, rest) = text.split_at(text.len().saturating_sub(6));
    let (minutes, seconds) = rest.split_at(rest.len().min(3));
    seconds_of(hours, minutes, seconds)
}

/// The seconds that a "Time" counts from noon minus 12 hours of its service day; None if the text is no time.
/// A time is one to three digits of hours, at most 167, then `:MM:SS`.
pub fn time(text: &str) -> Option<u32>
    ensures { result ≡ time_of text.now }
{
    let bytes = text.as_bytes();
    match usual_time(bytes) {
        Some(seconds) => Some(seconds),
        None => any_time(bytes),
    }
}

// The day of the calendar whose year, month and day these digits spell.
fn day(year: &[u8], month: &[u8], day: &[u8]) -> Option<Date>
    ensures { option_map ymd result ≡ day_of year.now month.now day.now }
{
    if !is_digits(4, 4, year) || !is_digits(2, 2, month) || !is_digits(2, 2, day) {
        return None;
    }
    let (year, month, day) = (decimal(year), decimal(month), decimal(day));
    match Date::new(year as i16, month as i8, day as i8) {
        Ok(date) => Some(date),
        Err(_) => None,
    }
}

/// The day of a "Date", `YYYYMMDD` with a year from 0000 to 9999; None if the text names no day of the calendar.
pub fn date(text: &str) -> Option<Date>
    ensures { option_map ymd result ≡ date_of text.now }
{
    let bytes = text.as_bytes();
    let (year, rest) = bytes.split_at(bytes.len().min(4));
    let (month, rest) = rest.split_at(rest.len().min(2));
    day(year, month, rest)
}
