//! The texts of the help.

pub(crate) const VERSION: &str = "0.1.0";

pub(crate) const ABOUT: &str = "Plans journeys over a GTFS Schedule feed.";

pub(crate) const MORE: &str = "\
Example: tp scan --feed demo/feed-m --date 20240102 --from A --to D --at 08:00:00

An answer is lines of ids. With --names, scan and ask print rides and walks with names, for people.
With --format json, all commands but matrix, audit, migrate and merge print JSON. With --format geojson, stops,
scan, reach, build, list, ask and serve print GeoJSON for a map. With --format csv, reach prints a table.

A fault is a line on standard error. `tp help faults` lists the faults and the statuses.";

pub(crate) const FAULTS: &str = "Lists the faults that tp reports, and its statuses";

/// The faults that the program reports, and the statuses that it ends with.
pub const FAULT_TABLE: &str = "\
A fault is a line on standard error: its code and its name, and for a fault of the feed the file and
the row. Row 0 is the header or the whole file. For a file of migrate, old or new stands before the
code, and for a part of merge or a file of stops its name stands at the end. The faults are:
  F1 MissingFile       DIR lacks the file: unpack a zipped feed first
  F2 MissingColumn     the header lacks a column that the file must have
  F3 BadField          the row has a text that its column doesn't take
  F4 DuplicateKey      the row has the key of a row before it
  F5 UnknownReference  the row names a stop, station or trip that isn't in the feed
  F6 TimesDecrease     the row arrives or leaves before an earlier time of its trip
  F7 TooMany           a limit is passed: the README lists them
  F8 BadCsv            the record isn't UTF-8
  F9 ReadFailed        the file can't be read, or DIR is no folder: unpack a zipped feed first
  F10 EndTimeMissing   the first or the last call of a trip has no times
  NoRandomness         the system gives no randomness: nothing of the feed was read
  S1 BadRange          --days is 1 to 14, and days lie from 1900-01-01 to 9998-12-31
  S2 BadZone           --zone is a POSIX rule, as CET-1CEST,M3.5.0,M10.5.0/3
  S3 ZoneJump          by --zone a day lasts less than 1 or more than 172,800 seconds
  A1 BadDate           --date, --on and --until-on are days of the calendar, as 20240102
  A2 BadTime           --at and --until are times up to 167:59:59, as 08:00:00
  Z1 NotAStore         FILE is no store of this program: name another, or delete it
  Z2 OtherTimetable    FILE was built from another feed, --date, --days, --zone or --default-walk
  Z3 OtherRides        FILE was built with another --rides
  Z4 Damaged           FILE is damaged from that section on: delete it and build again
  Z5 Device            FILE can't be made, read or written, or another process has it open
  Z7 OldVersion        FILE is a store of the version before: take it over by migrate
  Z8 Changed           PART gave other bytes than before: see that nothing else writes it
  M1 OtherList         the trees of NEW aren't the first ones of OLD: name another file
  M2 OtherTree         the second PART has another tree of the stop than the first: audit both
  P2 TooLarge          NEW or OUT would be too large with one more tree: what was stored stands
  P3 Device            FILE can't be written any more: what was stored before stands
  Q1 UnknownStop       no stop has that stop_id; only ask and serve take a station's as well
  Q2 NotCovered        the time isn't within the covered days
  Q3 NotStored         FILE lacks the tree of the stop: build with the same options first
  L1 ReadFailed        the FILE of stops can't be read
  L2 BadText           the FILE of stops isn't UTF-8
  L3 TooLarge          the FILE of stops is larger than 67,108,864 bytes

Statuses: 0 done, 1 the feed or its days are at fault, or there is no randomness, 2 the command-line
arguments are at fault, 3 the build left out stops whose trees would be too large, or had no memory
for them, or no part of a merge has them, 4 the store is at fault, 5 an audit found a difference, 6
the question is at fault (an unknown stop, a day that isn't covered, a tree that isn't stored, a file
of stops that isn't read), 7 out of memory, 8 standard output refused a write.";

pub(crate) const CHECK: &str = "Prints what a feed has, or its first fault, or all its faults";

pub(crate) const CHECK_MORE: &str = "\
Prints how many stops, stations, services, trips, calls, transfers and frequencies the feed has, and
how many rows of stop_times.txt and transfers.txt were skipped; then `missing FILE` for each
optional file that isn't there, and `unread NAME` for what else is in the folder, or `unlisted` if
that can't be listed. If the feed is at fault, only its first fault is reported. A service counts if
a trip names it. Of the days it prints the first and the last day of service, and how many trips run
on each of seven days: those around --date, or else the first ones from the first day of service on.
With --all it lists all faults of the feed on standard output, the first 1,000 of them, and `more N`
for the others.

Example: tp check --feed demo/feed-m";

pub(crate) const CHECK_ALL: &str = "List all faults of the feed, not the first only";

pub(crate) const WEEK: &str =
    "The day around which trips are counted, three days before it and after it";

pub(crate) const PLAIN_FORMAT: &str = "lines, or json for machines";

pub(crate) const FEED: &str = "The folder of the feed's files";

pub(crate) const DIRECT: &str =
    "The soonest arrival by one ride from a stop to a stop, without walks";

pub(crate) const DIRECT_MORE: &str = "\
--rides and --default-walk change nothing here.

Example: tp direct --feed demo/feed-m --date 20240102 --from A --to D --at 08:00:00";

pub(crate) const SCAN: &str =
    "The best arrivals from a stop to a stop by walks and at most K rides";

pub(crate) const SCAN_MORE: &str = "\
It prints a line for each number of rides that arrives earlier than all with fewer. With --until it
prints the connections instead: for each departure from --at until then what arrives earlier than all
that leave later and have no more rides, as `depart DATE TIME arrive DATE TIME rides N`. The way on
foot is `walk seconds N`. With --next N it prints the first N of them, by departure and then by
arrival. If the last line is `more from DATE TIME`, all that leave before that are printed.

Example: tp scan --feed demo/feed-m --date 20240102 --from A --to D --at 08:00:00";

pub(crate) const REACH: &str =
    "The stops that one reaches from a stop by walks and at most K rides";

pub(crate) const REACH_MORE: &str = "\
It prints a line for each stop that one reaches, `ID arrive DATE TIME rides N`: the soonest arrival, and
the fewest rides with which one arrives then; by arrival, then in the order of stops.txt. The first is
the stop itself, with no ride. With --within it prints only the stops that one reaches in that time.

With --until it prints how long one is on the way, over all seconds from --at until then at which one may
leave: `ID least S median S greatest S`, in seconds, in the order of stops.txt. It is `none` if one
doesn't get there at half of the seconds, or at each of them. A stop is within a time if its least is.

Example: tp reach --feed demo/feed-m --date 20240102 --from A --at 08:00:00 --within 30";

pub(crate) const MATRIX: &str =
    "A table of the travel times from many stops to many stops by walks and at most K rides";

pub(crate) const MATRIX_MORE: &str = "\
Each file lists stops: an id on each line. It prints CSV: a line for each stop to leave from and each
stop to go to, in the order of the files, with how long one is on the way who leaves from --at until
--until, over all seconds: the least, the median and the greatest number of seconds. A number is empty
if one doesn't get there at any second, at half of them, or at each of them. Without --until they are
those of the one second --at. The ids are tested before the first line is printed.

Example: tp matrix --feed demo/feed-m --date 20240102 --from-file a.txt --to-file b.txt --at 08:00:00
             --until 09:00:00";

pub(crate) const FROM_FILE: &str = "The file of the stops to leave from, an id on each line";

pub(crate) const TO_FILE: &str = "The file of the stops to go to, an id on each line";

pub(crate) const MATRIX_UNTIL: &str =
    "The last time of the day to leave at; it is --at if not given";

pub(crate) const ROW_WORKERS: &str =
    "How many stops to leave from are worked out in parallel, each in a thread of its own, 1 to 64";

pub(crate) const MATRIX_PROGRESS: &str =
    "Report how far the table is, even if standard error is no terminal";

pub(crate) const REACH_UNTIL: &str =
    "Print how long one is on the way who leaves from --at until this time of the day";

pub(crate) const REACH_FORMAT: &str =
    "lines, json for machines, geojson for a map, or csv for a table";

pub(crate) const REACH_FROM: &str = "The id of the stop to leave from";

pub(crate) const WITHIN: &str =
    "Print only the stops that one reaches within that many minutes, 0 to 20160";

pub(crate) const BUILD: &str =
    "Builds the pattern trees of all stops that the store lacks, and stores each";

pub(crate) const BUILD_MORE: &str = "\
It may be stopped at any moment, as by Ctrl-C: what was stored stands, and the same command goes on.
It prints `stored N of M`, and `missing ID` for each stop whose tree would be too large, or for which
memory was refused; the status is 3 then. While it builds, it reports on standard error how far it
is, if that is a terminal. With --part it builds one of N parts of the stops and counts only these,
so that N machines can share a feed, each with a store of its own.

Example: tp build --feed demo/feed-m --date 20240102 --store demo.store";

pub(crate) const SERVE: &str =
    "Replies to questions line by line, while the missing trees are built";

pub(crate) const SERVE_MORE: &str = "\
Each line of standard input is a question: the ids of two stops or stations, a date and a time, with
tabs between them. A second time may follow: it asks for the connections until then, as --until. The
reply is what ask prints, or `refused` and why there is no answer, and then a line with only a dot.
It is written before the next line is read. With --format json or geojson each reply is one line:
what ask prints in that format, or a fault as an object. A stop whose tree isn't stored yet is
refused as Q3 NotStored: ask again later. At the end of the input no new tree is begun, and standard
error has `stored N of M`; the status is 3 if trees are missing.

Example: tp serve --feed demo/feed-m --date 20240102 --store demo.store < questions.tsv";

pub(crate) const LIST: &str = "The stops whose trees are stored, in the order of storing";

pub(crate) const LIST_MORE: &str = "\
The ids, one a line.

Example: tp list --feed demo/feed-m --date 20240102 --store demo.store";

pub(crate) const ASK: &str =
    "The best journeys between stops or stations by walks and at most K rides";

pub(crate) const ASK_MORE: &str = "\
It prints a line for each number of rides that arrives earlier than all with fewer. With --until or
--next it prints connections instead, as scan does. The answer comes from the store, which has the
patterns of the best journeys of each stop: build it first, with the same options.

Example: tp ask --feed demo/feed-m --date 20240102 --store demo.store --from A --to E --at 08:00:00";

pub(crate) const ASK_USAGE: &str = "\
tp ask [OPTIONS] --feed <DIR> --date <YYYYMMDD> --store <FILE>
              --from <STOP> --to <STOP> --at <HH:MM:SS>";

pub(crate) const FROM: &str = "The id of the stop to leave from, for ask also of a station";

pub(crate) const TO: &str = "The id of the stop to go to, for ask also of a station";

pub(crate) const AT: &str = "The time of the day to leave at; hours up to 167";

pub(crate) const UNTIL: &str =
    "Print the connections that leave from --at until this time of the day";

pub(crate) const UNTIL_ON: &str = "The covered day of --until, if it isn't the day to leave on";

pub(crate) const NEXT: &str = "Print the first N connections, 1 to 1000, up to --until if given";

pub(crate) const ON: &str = "The covered day to leave on, if it isn't the first";

pub(crate) const LEGS: &str = "Print the rides and walks of each journey below its line";

pub(crate) const AUDIT: &str = "Whether stored trees answer as the timetable does";

pub(crate) const AUDIT_MORE: &str = "\
It compares the stored tree of a stop with the timetable: at each moment worth leaving the stop at, and
to each stop, the best journeys of one ride or more. It prints `audit ID ok`, or `audit ID differs
TARGET DATE TIME` for the first moment and there the first stop whose answers differ; the status is 5
then. With --all it prints the line of each stored stop, in the order of storing, and the status is 5
if one differs. Meanwhile it reports on standard error how far it is, if that is a terminal. It may be
stopped at any moment, as nothing is written.

Example: tp audit --feed demo/feed-m --date 20240102 --store demo.store --from A";

pub(crate) const AUDIT_USAGE: &str = "\
tp audit [OPTIONS] --feed <DIR> --date <YYYYMMDD> --store <FILE> <--from <STOP>|--all>";

pub(crate) const AUDITED: &str = "The id of the stop whose tree is compared";

pub(crate) const AUDIT_ALL: &str = "Compare the trees of all stored stops";

pub(crate) const AUDITORS: &str =
    "With --all: how many trees are compared in parallel, 1 to 64 (2 if not given)";

pub(crate) const AUDIT_PROGRESS: &str =
    "With --all: report how far it is, even if standard error is no terminal";

pub(crate) const MIGRATE_PROGRESS: &str =
    "Report how far the migration is, even if standard error is no terminal";

pub(crate) const MIGRATE: &str =
    "Takes the trees of a store of the version before over into a new file";

pub(crate) const MIGRATE_MORE: &str = "\
It stores the trees of OLD in NEW, in the same order and in the form of this version. OLD is only read.
The options are those of its build. It prints `migrated N of N`: how many trees OLD has. It may be
stopped at any moment, and the same command goes on: NEW may have the first trees of OLD, and no others.

Example: tp migrate --feed demo/feed-m --date 20240102 --store old.store --to new.store";

pub(crate) const OLD_STORE: &str = "The file of the version before, which is only read";

pub(crate) const NEW_STORE: &str = "The file of this version, which is made if it isn't there";

pub(crate) const MERGE: &str = "Puts the stores of the parts of a build together in one file";

pub(crate) const MERGE_MORE: &str = "\
It stores the trees of each PART in OUT, in the order of stops.txt: the file that one build by one
worker makes. Each PART is only read. The options are those of the builds. A stop that OUT has keeps
its tree, and one of two parts is taken once. It prints `stored N of M`, and `missing ID` for each
stop that no part has; the status is 3 then. It may be stopped at any moment, and the same command
goes on. A part of another feed or other options is refused before anything is stored.

Example: tp merge --feed demo/feed-m --date 20240102 --store all.store part0.store part1.store";

pub(crate) const MERGED_STORE: &str = "The file of all trees, which is made if it isn't there";

pub(crate) const PART_FILES: &str = "The files of the parts, which are only read";

pub(crate) const MERGE_PROGRESS: &str =
    "Report how far the merge is, even if standard error is no terminal";

pub(crate) const STORE: &str = "The file of the stored trees, which is made if it isn't there";

pub(crate) const NAMES: &str = "Print the rides and walks with names, for people";

pub(crate) const FORMAT: &str = "lines, json for machines, or geojson for a map";

pub(crate) const STOPS: &str = "The stops and stations whose id or name contains a text";

pub(crate) const STOPS_MORE: &str = "\
Prints a line for each, with tabs between: its id, its name, the id of its station, its latitude and
its longitude, empty if the feed has none; by name, then by id. Case and accents don't count. If
there are more than 20 stops, it prints the first 20 and `more N`.

Example: tp stops --feed demo/feed-m a";

pub(crate) const TEXT: &str = "What the id or name contains; all stops without it";

pub(crate) const ALL: &str = "Print all of them";

pub(crate) const HEADER: &str = "Print a line with the names of the fields first";

pub(crate) const WORKERS: &str =
    "How many trees are built in parallel, each in a thread of its own, 1 to 64";

pub(crate) const PART: &str =
    "I/N: build only each Nth stop of stops.txt, from number I on, which is 0 to N - 1";

pub(crate) const PROGRESS: &str =
    "Report how far the build is, even if standard error is no terminal";
