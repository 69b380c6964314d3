//! Answers, reports and faults in formats beside lines, with the names that the feed's folder has.

ghost use Rattle.printing.specs.Tellings.{any_text};

use crate::clock::Clock;
use crate::replies::{Lookup, MEMORY_REFUSED, reply_text};
use answer_lines::{Answer, Reach, Report, TimedStops};
use command_line::{Given, Plan};
use connection_lines::Connections;
use fault_places::{fault_json, hint};
use faults::Fault;
use feed_basis::Basis;
use feed_names::{NameSheets, Names, open_names};
use feed_report::FeedReport;
use feed_texts::{BuildCount, ListedStop, StopList};
use file_faults::FaultList;
use file_places::{FaultParts, hint_at, list_json, parts_of_all};
use gtfs_tables::{FaultKind, FeedFault, FeedFile};
use itineraries::{Found, itinerary_of};
use option_words::{Format, StopSearch};
use options::Settings;
use printing::{Asked, Teller};
use questions::Question;
use reply_lines::Reply;
use sheet_texts::{
    asked_by, feed_text, found_text, line, listed_by_ids, reach_text, stops_text, times_text,
    told_text,
};
use std::alloc::{AllocError, Global};
use std::slice;

// The text of what was found, with the names that the sheets have.
fn itinerary_text(
    alloc: Global,
    format: Format,
    sheets: &NameSheets,
    asked: &Asked<'_, '_>,
    basis: &Basis,
    found: &Found<'_>,
) -> Result<String, AllocError> {
    let clock = Clock::of(asked.settings.zone);
    let asked = asked_by(asked.command, &asked.question, format);
    let itinerary = itinerary_of(alloc, basis, &clock, sheets, &asked, found)?;
    told_text(alloc, format, itinerary)
}

/// Tells answers with names from the files of a feed's folder, which are read for each answer, and once for all replies to lines.
#[derive(Clone, Copy)]
pub struct FolderTeller<'r> {
    rt: &'r HostRuntime,
}

impl<'r> FolderTeller<'r> {
    /// Reads the files by this runtime.
    pub(crate) fn new(rt: &'r HostRuntime) -> FolderTeller<'r> {
        FolderTeller { rt }
    }

    // The sheets of the folder that names are read from.
    fn sheets(&self, alloc: Global, folder: &str) -> Result<NameSheets, AllocError> {
        Ok(NameSheets {
            stops: open_names(self.rt, alloc, folder, "stops.txt")?,
            trips: open_names(self.rt, alloc, folder, "trips.txt")?,
            routes: open_names(self.rt, alloc, folder, "routes.txt")?,
        })
    }

    // The names of the whole feed.
    fn names(&self, alloc: Global, folder: &str) -> Result<Names, AllocError> {
        Names::all(alloc, &self.sheets(alloc, folder)?)
    }

    // The text of what was found, with the names that the folder has.
    fn itinerary(
        &self,
        alloc: Global,
        format: Format,
        asked: &Asked<'_, '_>,
        basis: &Basis,
        found: Found<'_>,
    ) -> Result<String, AllocError> {
        let sheets = self.sheets(alloc, asked.settings.feed)?;
        itinerary_text(alloc, format, &sheets, asked, basis, &found)
    }

    // The stops of these ids, with the names that the folder has.
    fn listed_by_ids(
        &self,
        alloc: Global,
        folder: &str,
        ids: &[&str],
    ) -> Result<Vec<ListedStop>, AllocError> {
        let sheets = self.sheets(alloc, folder)?;
        listed_by_ids(alloc, &sheets, ids)
    }

    // The text of the stops that one reaches, with the names that the folder has.
    fn reach(
        &self,
        alloc: Global,
        format: Format,
        command: &str,
        settings: &Settings<'_>,
        reach: &Reach<'_>,
    ) -> Result<String, AllocError> {
        let sheets = self.sheets(alloc, settings.feed)?;
        let clock = Clock::of(settings.zone);
        reach_text(alloc, format, command, &clock, &sheets, reach)
    }

    // The text of the travel times to stops, with the names that the folder has.
    fn timed(
        &self,
        alloc: Global,
        format: Format,
        command: &str,
        settings: &Settings<'_>,
        times: &TimedStops<'_>,
    ) -> Result<String, AllocError> {
        let sheets = self.sheets(alloc, settings.feed)?;
        let clock = Clock::of(settings.zone);
        times_text(alloc, format, command, &clock, &sheets, times)
    }

    // The stops and stations that are searched for, as they are printed: none if there is no sheet of stops.
    fn found(&self, alloc: Global, search: &StopSearch<'_>) -> Result<Option<String>, AllocError> {
        let sheets = NameSheets {
            stops: open_names(self.rt, alloc, search.feed, "stops.txt")?,
            trips: None,
            routes: None,
        };
        found_text(alloc, &sheets, search)
    }
}

// Nothing is claimed of the texts: tests say what they are.
impl Teller for FolderTeller<'_> {
    type Lookup = Lookup;

    type Places = FaultParts;

    ghost telling = { any_text };

    fn answer(
        &self,
        alloc: Global,
        format: Format,
        asked: &Asked<'_, '_>,
        basis: &Basis,
        answer: &Answer,
    ) -> Result<String, AllocError> {
        self.itinerary(alloc, format, asked, basis, Found::Answer(answer))
    }

    fn connections(
        &self,
        alloc: Global,
        format: Format,
        asked: &Asked<'_, '_>,
        basis: &Basis,
        connections: &Connections,
    ) -> Result<String, AllocError> {
        self.itinerary(alloc, format, asked, basis, Found::Connections(connections))
    }

    fn report(
        &self,
        alloc: Global,
        format: Format,
        command: &str,
        settings: &Settings<'_>,
        report: &Report<'_>,
    ) -> Result<String, AllocError> {
        let built = match report {
            Report::Reached(reach) => return self.reach(alloc, format, command, settings, reach),
            Report::Timed(times) => return self.timed(alloc, format, command, settings, times),
            Report::Built(built) => Some(BuildCount {
                stored: built.stored,
                of: built.of,
            }),
            _ => None,
        };
        let list = StopList {
            command,
            built,
            stops: self.listed_by_ids(alloc, settings.feed, report.stops())?,
            more: None,
        };
        stops_text(alloc, format, &list)
    }

    // There is no map of a feed as a whole, so each format is JSON here.
    fn feed(
        &self,
        alloc: Global,
        _format: Format,
        _folder: &str,
        report: &FeedReport,
    ) -> Result<String, AllocError> {
        feed_text(alloc, report)
    }

    // There is no map of a feed as a whole, so each format is JSON here.
    fn fault_list(
        &self,
        alloc: Global,
        _format: Format,
        folder: &str,
        list: &FaultList,
    ) -> Result<String, AllocError> {
        line(list_json(self.rt, alloc, folder, list)?)
    }

    fn places(
        &self,
        alloc: Global,
        folder: &str,
        faults: &[FeedFault],
    ) -> Result<FaultParts, AllocError> {
        parts_of_all(self.rt, alloc, folder, faults)
    }

    fn place_hint(
        &self,
        alloc: Global,
        places: &FaultParts,
        at: usize,
        _given: &Given<'_>,
        _fault: &Fault<'_>,
    ) -> Result<Option<String>, AllocError> {
        Ok(Some(hint_at(alloc, places, at)?))
    }

    fn stops(&self, alloc: Global, search: &StopSearch<'_>) -> Result<String, Fault<'static>> {
        match self.found(alloc, search) {
            Ok(Some(text)) => Ok(text),
            Ok(None) => Err(Fault::Feed(FeedFault::new(
                FaultKind::MissingFile,
                FeedFile::Stops,
                0,
            ))),
            Err(_) => Err(Fault::Memory),
        }
    }

    fn lookup(&self, alloc: Global, plan: &Plan<'_>) -> Result<Lookup, AllocError> {
        let zone = String::from_str(alloc, plan.settings.zone)?;
        let names = self.names(alloc, plan.settings.feed)?;
        Ok(Lookup { names, zone })
    }

    fn reply(
        &self,
        alloc: Global,
        format: Format,
        lookup: &Lookup,
        basis: &Basis,
        question: &Option<Question<'_>>,
        reply: &Reply<'_>,
    ) -> Result<String, AllocError> {
        reply_text(alloc, format, lookup, basis, question, reply)
    }

    fn memory_refused(&self, _format: Format) -> &'static str {
        MEMORY_REFUSED
    }

    fn fault(
        &self,
        alloc: Global,
        format: Format,
        given: &Given<'_>,
        fault: &Fault<'_>,
    ) -> Option<String> {
        if let Format::Names = format {
            return None;
        }
        line(fault_json(self.rt, alloc, given, fault).ok()?).ok()
    }

    fn hint(&self, alloc: Global, given: &Given<'_>, fault: &Fault<'_>) -> Option<String> {
        hint(self.rt, alloc, given, fault).ok()
    }
}
