//! What a feed has.

ghost use Rattle.std.specs.Prelude.{◌≡◌, true};
ghost use Rattle.gtfs_tables.specs.Feed.{Feed, AreReaders};
ghost use Rattle.faults.specs.declared.fault.Fault.TheVariants as faults;
ghost use Rattle.feed_report.specs.Counts.{IsCheckFault};
ghost use Rattle.feed_commands.specs.Checks.{AreStops, IsChecked, IsFeedTold, IsFolderChecked, IsListTold, IsRefusedFeed};

use command_line::{FeedCheck, Given};
use faults::Fault;
use feed_faults::laws::first_is_reported;
use feed_faults::{FaultList, list_faults};
use feed_report::{FeedReport, counts_of};
use gtfs_tables::{FeedFault, Files};
use option_words::{StopSearch, Style};
use printing::{Teller, Told, fault_report};
use program_system::System;
use std::alloc::Global;

// What the feed in a folder has, in the style.
fn told_feed<T: Teller>(
    alloc: Global,
    teller: &T,
    style: Style,
    folder: &str,
    report: FeedReport,
) -> Result<Told<'static>, Fault<'static>>
    ensures { IsFeedTold T.telling style report result }
{
    match style {
        Style::Lines => Ok(Told::Feed(report)),
        Style::Told(format) => match teller.feed(alloc, format, folder, &report) {
            Ok(text) => Ok(Told::Text { text, status: 0 }),
            Err(_) => Err(Fault::Memory),
        },
    }
}

// All faults of the feed in a folder, in the style.
fn told_faults<T: Teller>(
    alloc: Global,
    teller: &T,
    style: Style,
    folder: &str,
    list: &FaultList,
) -> Result<Told<'static>, Fault<'static>>
    ensures { IsListTold T.telling style folder.entry list.now result }
{
    match style {
        Style::Lines => {
            match fault_report(alloc, teller, folder, &Given::folder(folder), list) {
                Ok(report) => Ok(Told::FeedFaults(report)),
                Err(_) => Err(Fault::Memory),
            }
        }
        Style::Told(format) => match teller.fault_list(alloc, format, folder, list) {
            Ok(text) => Ok(Told::Text { text, status: 1 }),
            Err(_) => Err(Fault::Memory),
        },
    }
}

// All faults of the feed, whose files are opened anew; or the fault that was found first, if all files can be read now and have none.
fn list_all<S: System>(
    alloc: Global,
    system: &S,
    check: &FeedCheck<'_>,
    first: FeedFault,
) -> Result<Told<'static>, Fault<'static>>
    requires { check.now.all ≡ true }
    ensures { (feed : Feed) → (S.world system.now).holds check.now.feed.now feed
        → IsCheckFault (S.world system.now).keyed feed (faults.Feed first)
        → IsRefusedFeed S.Teller.telling (S.world system.now).keyed feed check.now result }
{
    let Some(hash_keys) = system.hash_keys() else {
        return Err(Fault::NoRandomness);
    };
    let files = match system.open_feed(alloc, check.feed) {
        Ok(files) => files,
        Err(_) => return Err(Fault::Memory),
    };
    let list = match list_faults(alloc, hash_keys, files) {
        Ok(list) => list,
        Err(_) => return Err(Fault::Memory),
    };
    first_is_reported();
    if list.faults.is_empty() && !list.unread {
        return Err(Fault::Feed(first));
    }
    told_faults(alloc, &system.teller(), check.style, check.feed, &list)
}

// The report of a feed that is at fault: that fault, or all of them.
fn refused<S: System>(
    alloc: Global,
    system: &S,
    check: &FeedCheck<'_>,
    fault: Fault<'static>,
) -> Result<Told<'static>, Fault<'static>>
    ensures { (feed : Feed) → (S.world system.now).holds check.now.feed.now feed
        → IsCheckFault (S.world system.now).keyed feed fault.entry
        → IsRefusedFeed S.Teller.telling (S.world system.now).keyed feed check.now result }
{
    if !check.all {
        return Err(fault);
    }
    match fault {
        Fault::Feed(first) => list_all(alloc, system, check, first),
        fault => Err(fault),
    }
}

// What the feed has, and what else is among the names in its folder, which are looked for only if it is without fault; or its fault, or all
// of them.
fn check_files<S: System>(
    alloc: Global,
    system: &S,
    check: &FeedCheck<'_>,
    files: Files<S::Reader>,
) -> Result<Told<'static>, Fault<'static>>
    ensures { (feed : Feed) → (S.world system.now).holds check.now.feed.now feed → AreReaders S.Reader.remaining files feed
        → IsChecked S.Teller.telling ((S.world system.now).lists check.now.feed.now) (S.world system.now).keyed feed check.now result }
{
    let counts = match counts_of(alloc, system.hash_keys(), check.date, files) {
        Ok(counts) => counts,
        Err(fault) => return refused(alloc, system, check, fault),
    };
    match system.list_folder(check.feed) {
        Ok(names) => told_feed(
            alloc,
            &system.teller(),
            check.style,
            check.feed,
            FeedReport { counts, names },
        ),
        Err(_) => Err(Fault::Memory),
    }
}

/// What the feed in a folder has, and what else is there, as it is asked for. Memory may run out as the files of the feed are opened.
pub fn check<S: System>(
    alloc: Global,
    system: &S,
    check: &FeedCheck<'_>,
) -> Result<Told<'static>, Fault<'static>>
    ensures { IsFolderChecked (S.world system.now) S.Teller.telling check.now result }
{
    match system.open_feed(alloc, check.feed) {
        Ok(files) => check_files(alloc, system, check, files),
        Err(_) => Err(Fault::Memory),
    }
}

/// The stops and stations that are searched for.
pub fn stops<T: Teller>(
    alloc: Global,
    teller: &T,
    search: &StopSearch<'_>,
) -> Result<Told<'static>, Fault<'static>>
    ensures { AreStops T.telling search.now result }
{
    match teller.stops(alloc, search) {
        Ok(text) => Ok(Told::Text { text, status: 0 }),
        Err(fault) => Err(fault),
    }
}
