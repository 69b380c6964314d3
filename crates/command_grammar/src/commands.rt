//! The commands, and the words that each takes.

use crate::grammar::Grammar;
use crate::texts::{
    ALL, ASK, ASK_MORE, ASK_USAGE, AT, AUDIT, AUDIT_ALL, AUDIT_MORE, AUDIT_PROGRESS, AUDIT_USAGE,
    AUDITED, AUDITORS, BUILD, BUILD_MORE, CHECK, CHECK_ALL, CHECK_MORE, DIRECT, DIRECT_MORE,
    FAULT_TABLE, FAULTS, FEED, FORMAT, FROM, FROM_FILE, HEADER, LEGS, LIST, LIST_MORE, MATRIX,
    MATRIX_MORE, MATRIX_PROGRESS, MATRIX_UNTIL, MERGE, MERGE_MORE, MERGE_PROGRESS, MERGED_STORE,
    MIGRATE, MIGRATE_MORE, MIGRATE_PROGRESS, NAMES, NEW_STORE, NEXT, OLD_STORE, ON, PART,
    PART_FILES, PLAIN_FORMAT, PROGRESS, REACH, REACH_FORMAT, REACH_FROM, REACH_MORE, REACH_UNTIL,
    ROW_WORKERS, SCAN, SCAN_MORE, SERVE, SERVE_MORE, STOPS, STOPS_MORE, STORE, TEXT, TO, TO_FILE,
    UNTIL, UNTIL_ON, WEEK, WITHIN, WORKERS,
};
use options::Word;

// Checks a feed.
const CHECK_WORDS: [Word; 4] = [
    Word::Required("feed", "DIR", FEED),
    Word::Optional("date", "YYYYMMDD", WEEK),
    Word::Flag("all", CHECK_ALL),
    Word::Optional("format", "FORMAT", PLAIN_FORMAT),
];

// Lists stops.
const STOPS_WORDS: [Word; 5] = [
    Word::Required("feed", "DIR", FEED),
    Word::Flag("all", ALL),
    Word::Flag("header", HEADER),
    Word::Optional("format", "FORMAT", FORMAT),
    Word::Text("text", "TEXT", TEXT),
];

// Answers by one ride.
const DIRECT_WORDS: [Word; 4] = [
    Word::Required("from", "STOP", FROM),
    Word::Required("to", "STOP", TO),
    Word::Required("at", "HH:MM:SS", AT),
    Word::Optional("format", "FORMAT", FORMAT),
];

// Answers from rounds.
const SCAN_WORDS: [Word; 9] = [
    Word::Required("from", "STOP", FROM),
    Word::Required("to", "STOP", TO),
    Word::Required("at", "HH:MM:SS", AT),
    Word::Optional("format", "FORMAT", FORMAT),
    Word::Optional("until", "HH:MM:SS", UNTIL),
    Word::Optional("until-on", "YYYYMMDD", UNTIL_ON),
    Word::Ranged("next", "N", 1, 1_000, NEXT),
    Word::Flag("legs", LEGS),
    Word::Flag("names", NAMES),
];

// Lists where one can be.
const REACH_WORDS: [Word; 7] = [
    Word::Required("from", "STOP", REACH_FROM),
    Word::Required("at", "HH:MM:SS", AT),
    Word::Optional("on", "YYYYMMDD", ON),
    Word::Optional("until", "HH:MM:SS", REACH_UNTIL),
    Word::Optional("until-on", "YYYYMMDD", UNTIL_ON),
    Word::Ranged("within", "MINUTES", 0, 20_160, WITHIN),
    Word::Optional("format", "FORMAT", REACH_FORMAT),
];

// Prints travel times between the stops of two files.
const MATRIX_WORDS: [Word; 8] = [
    Word::Required("from-file", "FILE", FROM_FILE),
    Word::Required("to-file", "FILE", TO_FILE),
    Word::Required("at", "HH:MM:SS", AT),
    Word::Optional("on", "YYYYMMDD", ON),
    Word::Optional("until", "HH:MM:SS", MATRIX_UNTIL),
    Word::Optional("until-on", "YYYYMMDD", UNTIL_ON),
    Word::Number("workers", "N", "2", 1, 64, ROW_WORKERS),
    Word::Flag("progress", MATRIX_PROGRESS),
];

// Stores pattern trees.
const BUILD_WORDS: [Word; 5] = [
    Word::Required("store", "FILE", STORE),
    Word::Number("workers", "N", "2", 1, 64, WORKERS),
    Word::Flag("progress", PROGRESS),
    Word::Optional("part", "PART", PART),
    Word::Optional("format", "FORMAT", FORMAT),
];

// Lists the stored stops.
const LIST_WORDS: [Word; 2] = [
    Word::Required("store", "FILE", STORE),
    Word::Optional("format", "FORMAT", FORMAT),
];

// Answers from pattern trees.
const ASK_WORDS: [Word; 11] = [
    Word::Required("from", "STOP", FROM),
    Word::Required("to", "STOP", TO),
    Word::Required("at", "HH:MM:SS", AT),
    Word::Optional("format", "FORMAT", FORMAT),
    Word::Required("store", "FILE", STORE),
    Word::Optional("on", "YYYYMMDD", ON),
    Word::Optional("until", "HH:MM:SS", UNTIL),
    Word::Optional("until-on", "YYYYMMDD", UNTIL_ON),
    Word::Ranged("next", "N", 1, 1_000, NEXT),
    Word::Flag("legs", LEGS),
    Word::Flag("names", NAMES),
];

// Replies to questions while pattern trees are stored.
const SERVE_WORDS: [Word; 3] = [
    Word::Required("store", "FILE", STORE),
    Word::Number("workers", "N", "2", 1, 64, WORKERS),
    Word::Optional("format", "FORMAT", FORMAT),
];

// Compares stored trees with the timetable: that of a stop, or all.
const AUDIT_WORDS: [Word; 5] = [
    Word::Required("store", "FILE", STORE),
    Word::Optional("from", "STOP", AUDITED),
    Word::Flag("all", AUDIT_ALL),
    Word::Ranged("workers", "N", 1, 64, AUDITORS),
    Word::Flag("progress", AUDIT_PROGRESS),
];

// Takes over a store of the version before.
const MIGRATE_WORDS: [Word; 3] = [
    Word::Required("store", "OLD", OLD_STORE),
    Word::Required("to", "NEW", NEW_STORE),
    Word::Flag("progress", MIGRATE_PROGRESS),
];

// Puts the stores of parts together.
const MERGE_WORDS: [Word; 3] = [
    Word::Required("store", "OUT", MERGED_STORE),
    Word::Flag("progress", MERGE_PROGRESS),
    Word::Texts("part", "PART", PART_FILES),
];

/// The commands of the program, in the order of its help.
pub(crate) const COMMANDS: [Grammar; 14] = [
    Grammar {
        name: "check",
        about: CHECK,
        has_days: false,
        words: &CHECK_WORDS,
        more: CHECK_MORE,
        usage: None,
    },
    Grammar {
        name: "stops",
        about: STOPS,
        has_days: false,
        words: &STOPS_WORDS,
        more: STOPS_MORE,
        usage: None,
    },
    Grammar {
        name: "direct",
        about: DIRECT,
        has_days: true,
        words: &DIRECT_WORDS,
        more: DIRECT_MORE,
        usage: None,
    },
    Grammar {
        name: "scan",
        about: SCAN,
        has_days: true,
        words: &SCAN_WORDS,
        more: SCAN_MORE,
        usage: None,
    },
    Grammar {
        name: "reach",
        about: REACH,
        has_days: true,
        words: &REACH_WORDS,
        more: REACH_MORE,
        usage: None,
    },
    Grammar {
        name: "matrix",
        about: MATRIX,
        has_days: true,
        words: &MATRIX_WORDS,
        more: MATRIX_MORE,
        usage: None,
    },
    Grammar {
        name: "build",
        about: BUILD,
        has_days: true,
        words: &BUILD_WORDS,
        more: BUILD_MORE,
        usage: None,
    },
    Grammar {
        name: "list",
        about: LIST,
        has_days: true,
        words: &LIST_WORDS,
        more: LIST_MORE,
        usage: None,
    },
    Grammar {
        name: "ask",
        about: ASK,
        has_days: true,
        words: &ASK_WORDS,
        more: ASK_MORE,
        usage: Some(ASK_USAGE),
    },
    Grammar {
        name: "serve",
        about: SERVE,
        has_days: true,
        words: &SERVE_WORDS,
        more: SERVE_MORE,
        usage: None,
    },
    Grammar {
        name: "audit",
        about: AUDIT,
        has_days: true,
        words: &AUDIT_WORDS,
        more: AUDIT_MORE,
        usage: Some(AUDIT_USAGE),
    },
    Grammar {
        name: "migrate",
        about: MIGRATE,
        has_days: true,
        words: &MIGRATE_WORDS,
        more: MIGRATE_MORE,
        usage: None,
    },
    Grammar {
        name: "merge",
        about: MERGE,
        has_days: true,
        words: &MERGE_WORDS,
        more: MERGE_MORE,
        usage: None,
    },
    Grammar {
        name: "faults",
        about: FAULTS,
        has_days: false,
        words: &[],
        more: FAULT_TABLE,
        usage: None,
    },
];
