//! A row of stops.txt, as it is listed.

ghost use Rattle.std.specs.Prelude.{◌<◌, length};

use gtfs_text::Sheet;
use shown_ids::Shown;
use std::fmt;

/// A stop or a station of stops.txt. They are in the order of their names, and of their ids if the names are the same. Each text is
/// empty if the row has none.
#[derive(Clone, Copy, PartialEq, Eq, PartialOrd, Ord)]
pub struct StopRow<'a> {
    /// `stop_name`.
    pub name: &'a str,
    /// `stop_id`.
    pub id: &'a str,
    /// `parent_station`: the id of the station that the stop belongs to.
    pub station: &'a str,
    /// `stop_lat`, as it is written.
    pub latitude: &'a str,
    /// `stop_lon`, as it is written.
    pub longitude: &'a str,
}

// Shown as the program lists it, with a tab between two texts.
impl fmt::Display for StopRow<'_> {
    fn fmt<W: fmt::Write>(&self, f: &mut fmt::Formatter<W>) -> fmt::Result {
        write!(
            f,
            "{}\t{}\t{}\t{}\t{}",
            Shown(self.id),
            Shown(self.name),
            Shown(self.station),
            Shown(self.latitude),
            Shown(self.longitude)
        )
    }
}

/// The columns of stops.txt that are listed.
#[derive(Clone, Copy)]
pub struct Columns {
    name: Option<usize>,
    id: Option<usize>,
    station: Option<usize>,
    latitude: Option<usize>,
    longitude: Option<usize>,
}

impl Columns {
    /// Where the sheet has them.
    pub fn of(sheet: &Sheet) -> Columns {
        Columns {
            name: sheet.column("stop_name"),
            id: sheet.column("stop_id"),
            station: sheet.column("parent_station"),
            latitude: sheet.column("stop_lat"),
            longitude: sheet.column("stop_lon"),
        }
    }

    /// The stop or station of a row.
    pub fn stop_of<'a>(&self, sheet: &'a Sheet, row: usize) -> StopRow<'a>
        requires { row < length sheet.now }
    {
        StopRow {
            name: text_in(sheet, row, self.name),
            id: text_in(sheet, row, self.id),
            station: text_in(sheet, row, self.station),
            latitude: text_in(sheet, row, self.latitude),
            longitude: text_in(sheet, row, self.longitude),
        }
    }
}

/// What a row has in a column: nothing if there is no such column.
pub(crate) fn text_in<'a>(sheet: &'a Sheet, row: usize, column: Option<usize>) -> &'a str
    requires { row < length sheet.now }
{
    match column {
        Some(column) => sheet.field(row, column),
        None => "",
    }
}
