//! The lines of a feed's faults.

ghost use Rattle.std.specs.Prelude.{◌≡◌, Some, flat_map};
ghost use Rattle.std.specs.Fmt.{WritesOnOk};
ghost use Rattle.printing.specs.Reports.{listed_text, more_text, report_text};

use faults::{Fault, FaultLines};
use gtfs_rows::FeedFault;
use std::fmt;

/// A fault of a feed, and the lines that are added to its own: what the feed has at its place.
#[derive(Drop)]
pub struct ListedFault {
    pub fault: FeedFault,
    /// Each line has its end; none if there is nothing to add.
    pub beneath: Option<String>,
}

/// Faults of a feed, shown as the program prints them: of each the lines that standard error has of one fault, and `more N` if there are
/// N more.
#[derive(Drop)]
pub struct FaultReport {
    pub faults: Vec<ListedFault>,
    pub more: usize,
}

// A fault, with the lines that are added to its own.
fn write_listed<W: fmt::Write>(f: &mut fmt::Formatter<W>, listed: &ListedFault) -> fmt::Result
    ensures { WritesOnOk W.write_str_gives f.old result (listed_text listed.now) f.new }
{
    let fault = Fault::Feed(listed.fault);
    let lines = FaultLines(&fault);
    match &listed.beneath {
        Some(beneath) => write!(f, "{lines}{beneath}"),
        None => write!(f, "{lines}"),
    }
}

// The faults, one after the other.
fn write_faults<W: fmt::Write>(f: &mut fmt::Formatter<W>, faults: &[ListedFault]) -> fmt::Result
    ensures { WritesOnOk W.write_str_gives f.old result (flat_map listed_text faults.now) f.new }
{
    for listed in faults {
        write_listed(f, listed)?;
    }
    Ok(())
}

// How many more there are, if there are any.
fn write_more<W: fmt::Write>(f: &mut fmt::Formatter<W>, more: usize) -> fmt::Result
    ensures { WritesOnOk W.write_str_gives f.old result (more_text more) f.new }
{
    if more == 0 {
        return Ok(());
    }
    writeln!(f, "more {more}")
}

impl fmt::Display for FaultReport {
    ghost output = { λ report. Some (report_text report) };

    fn fmt<W: fmt::Write>(&self, f: &mut fmt::Formatter<W>) -> fmt::Result {
        write_faults(f, &self.faults)?;
        write_more(f, self.more)
    }
}
