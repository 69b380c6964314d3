//! The stops of a station.

use crate::stop::{Columns, StopRow, text_in};
use gtfs_text::Sheet;
use std::alloc::{AllocError, Global};

/// The stops of the station that has the id, in the order of the file; none if no station has it. It fails only if memory runs out.
pub fn station_stops<'a>(
    alloc: Global,
    sheet: &'a Sheet,
    id: &str,
) -> Result<Option<Vec<StopRow<'a>>>, AllocError> {
    let columns = Columns::of(sheet);
    let kinds = sheet.column("location_type");
    let mut is_station = false;
    let mut stops = Vec::new(alloc);
    for before in 0..sheet.rows() {
        let stop = columns.stop_of(sheet, before + 1);
        match text_in(sheet, before + 1, kinds) {
            "1" => is_station = is_station || stop.id == id,
            "" | "0" if stop.station == id => stops.push(stop)?,
            _ => {}
        }
    }
    Ok(if is_station { Some(stops) } else { None })
}
