//! How an answer is printed.

ghost use Rattle.std.specs.Prelude.{IfSome, IfNone};
ghost use Rattle.clap.specs.Words.{rows_of, found_of};
ghost use Rattle.option_words.specs.Formats.{IsPlainStyle, IsStyle, NamesNoStyle};
ghost use Rattle.option_words.specs.declared.format.Style.{Style as StyleData};

use clap::ArgMatches;
use options::{flag_of, text_of};

/// A format that an answer is printed in beside its lines.
#[derive(Clone, Copy, PartialEq, Eq)]
pub enum Format {
    /// With names, for people.
    Names,
    /// As an object of JSON.
    Json,
    /// As GeoJSON, for a map.
    GeoJson,
    /// As CSV (RFC 4180), for a table: only of the stops that one reaches.
    Csv,
}

/// How an answer is printed.
#[derive(Clone, Copy)]
pub enum Style {
    /// As lines of ids.
    Lines,
    /// In a format, with its rides and walks.
    Told(Format),
}

/// How the words of the command `name` say that the answer is printed: none if they name a format that the command hasn't. `--names` says
/// nothing beside a format for machines.
pub fn style_of(name: &str, found: &ArgMatches<'_>) -> Option<Style>
    ensures style { IfSome result (IsStyle name.now (rows_of (found_of found.now))) }
    ensures none { IfNone result (NamesNoStyle name.now (rows_of (found_of found.now))) }
{
    match text_of(found, "format").unwrap_or("lines") {
        "lines" if flag_of(found, "names") => Some(Style::Told(Format::Names)),
        "lines" => Some(Style::Lines),
        "json" => Some(Style::Told(Format::Json)),
        "geojson" => Some(Style::Told(Format::GeoJson)),
        "csv" if name == "reach" => Some(Style::Told(Format::Csv)),
        _ => None,
    }
}

/// The style in which a check is printed: none if the words name another format than lines or JSON. A feed as a whole has no map.
pub fn plain_style_of(found: &ArgMatches<'_>) -> Option<Style>
    ensures style { IfSome result (IsPlainStyle (rows_of (found_of found.now))) }
    ensures none { IfNone result ((style : StyleData) → ¬ IsPlainStyle (rows_of (found_of found.now)) style) }
{
    match text_of(found, "format").unwrap_or("lines") {
        "lines" => Some(Style::Lines),
        "json" => Some(Style::Told(Format::Json)),
        _ => None,
    }
}
