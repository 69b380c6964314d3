//! What the words say of the options.

ghost use Rattle.std.specs.Prelude.{◌≡◌, ◌^◌, ◌↔◌, IsTrue, IfSome, IfNone, option_map};
ghost use Rattle.clap.specs.Words.{rows_of, found_of, first_of};
ghost use Rattle.options.specs.Settings.{HasSettings, LacksSettings};
ghost use Rattle.options.specs.Values.{HasFlag, HasNumber};

use crate::settings::Settings;
use clap::ArgMatches;

/// The text that the words have for an option; none if they have none.
pub fn text_of<'a>(found: &ArgMatches<'a>, option: &str) -> Option<&'a str>
    ensures { option_map (λ text. text.now) result ≡ first_of option.now (rows_of (found_of found.now)) }
{
    found.get_str(option)
}

/// Whether the words have an option that takes no value.
pub fn flag_of(found: &ArgMatches<'_>, option: &str) -> bool
    ensures { IsTrue result ↔ HasFlag (rows_of (found_of found.now)) option.now }
{
    text_of(found, option) == Some("true")
}

/// The number below 2^32 that the words have for an option; none if they have no text for it, or one that spells no such
/// number.
pub fn number_of(found: &ArgMatches<'_>, option: &str) -> Option<u32>
    ensures { HasNumber (2 ^ 32) (rows_of (found_of found.now)) option.now result }
{
    found.get_one::<u32>(option)
}

/// The number below 256 that the words have for an option; none if they have no text for it, or one that spells no such
/// number.
pub fn byte_of(found: &ArgMatches<'_>, option: &str) -> Option<u8>
    ensures { HasNumber 256 (rows_of (found_of found.now)) option.now result }
{
    found.get_one::<u8>(option)
}

/// The settings among the words of a command that has the options of `common`. None only if a word isn't there, or is out
/// of its range.
pub fn settings_of<'a>(found: &ArgMatches<'a>) -> Option<Settings<'a>>
    ensures settings { IfSome result (HasSettings (rows_of (found_of found.now))) }
    ensures none { IfNone result (LacksSettings (rows_of (found_of found.now))) }
{
    let feed = text_of(found, "feed")?;
    let date = text_of(found, "date")?;
    let days = byte_of(found, "days")?;
    let zone = text_of(found, "zone")?;
    let rides = byte_of(found, "rides")?;
    let default_walk = number_of(found, "default-walk")?;
    if rides < 1 || rides > 8 || default_walk > 86_400 {
        return None;
    }
    Some(Settings {
        feed,
        date,
        days,
        zone,
        rides,
        default_walk,
    })
}
