//! Reports: on a store, or on where one can be.

ghost use Rattle.std.specs.Prelude.{◌≡◌, Some};
ghost use Rattle.std.specs.Fmt.{WritesOnOk};
ghost use Rattle.std.specs.List.{flat_map};
ghost use Rattle.answer_lines.specs.Audits.{audit_line, has_difference};
ghost use Rattle.answer_lines.specs.Reports.{built_status, id_line, listed_by, report_status, report_text};

use crate::audit::Audit;
use crate::reach::Reach;
use crate::timed::TimedStops;
use shown_ids::Shown;
use std::fmt;

/// What a build came to.
#[derive(Drop)]
pub struct Built<'a> {
    /// How many stops have their tree in the store.
    pub stored: usize,
    /// How many stops there are.
    pub of: usize,
    /// The ids of the stops whose trees aren't stored.
    pub missing: Vec<&'a str>,
}

/// A report, shown as the program prints it: lines, each with its end. A list of no stops has no line.
#[derive(Drop)]
pub enum Report<'a> {
    /// The ids of the stops whose trees are stored, in the order in which they were: one a line.
    Stored(Vec<&'a str>),
    /// What a build came to: `stored N of M`, and `missing ID` for each stop whose tree would be too large.
    Built(Built<'a>),
    /// What an audit of a stored tree came to, on one line.
    Audited(Audit<'a>),
    /// What the audits of all stored trees came to, in the order in which the trees were stored: one a line.
    AuditedAll(Vec<Audit<'a>>),
    /// What a migration came to: `migrated N of N`.
    Migrated {
        /// How many trees the old store has, and the new one too.
        count: usize,
    },
    /// The stops that one reaches: one a line.
    Reached(Reach<'a>),
    /// How long one is on the way to stops: one a line.
    Timed(TimedStops<'a>),
}

impl Built<'_> {
    /// The status to end with: 3 if a stop has no tree, else 0.
    pub fn status(&self) -> u8
        ensures { result ≡ built_status self.now }
    {
        if self.missing.is_empty() { 0 } else { 3 }
    }
}

impl<'a> Report<'a> {
    /// The ids of the stops that a store has, or that a build left: other reports list none.
    pub fn stops(&self) -> &[&'a str]
        ensures { result.now ≡ listed_by self.now }
    {
        match self {
            Report::Stored(ids) => ids.as_slice(),
            Report::Built(built) => built.missing.as_slice(),
            Report::Audited(_)
            | Report::AuditedAll(_)
            | Report::Migrated { .. }
            | Report::Reached(_)
            | Report::Timed(_) => &[],
        }
    }

    /// The status to end with: 0 if all is done, 3 if a build left stops without a tree, 5 if an audit found a difference.
    pub fn status(&self) -> u8
        ensures { result ≡ report_status self.now }
    {
        match self {
            Report::Stored(_) => 0,
            Report::Built(built) => built.status(),
            Report::Audited(audit) => audit.status(),
            Report::AuditedAll(audits) => { if has_difference(audits) { 5 } else { 0 } }
            Report::Migrated { .. } | Report::Reached(_) | Report::Timed(_) => 0,
        }
    }
}

impl fmt::Display for Report<'_> {
    ghost output = { λ report. Some (report_text report) };

    fn fmt<W: fmt::Write>(&self, f: &mut fmt::Formatter<W>) -> fmt::Result {
        match self {
            Report::Stored(ids) => write_ids(f, "", ids),
            Report::Built(built) => {
                writeln!(f, "stored {} of {}", built.stored, built.of)?;
                write_ids(f, "missing ", &built.missing)
            }
            Report::Audited(audit) => writeln!(f, "{audit}"),
            Report::AuditedAll(audits) => write_audits(f, audits),
            Report::Migrated { count } => writeln!(f, "migrated {count} of {count}"),
            Report::Reached(reach) => write!(f, "{reach}"),
            Report::Timed(times) => write!(f, "{times}"),
        }
    }
}

// Whether one of the audits found a difference.
fn has_difference(audits: &[Audit<'_>]) -> bool
    ensures { result ≡ has_difference audits.now }
{
    audits.iter().any(|audit| audit.differing.is_some())
}

// A line for each audit.
fn write_audits<W: fmt::Write>(f: &mut fmt::Formatter<W>, audits: &[Audit<'_>]) -> fmt::Result
    ensures { WritesOnOk W.write_str_gives f.old result (flat_map audit_line audits.now) f.new }
{
    for audit in audits {
        writeln!(f, "{audit}")?;
    }
    Ok(())
}

// A line for each id, with this in front.
fn write_ids<W: fmt::Write>(f: &mut fmt::Formatter<W>, front: &str, ids: &[&str]) -> fmt::Result
    ensures { WritesOnOk W.write_str_gives f.old result (flat_map (λ id. id_line front.now id.now) ids.now) f.new }
{
    for id in ids {
        writeln!(f, "{front}{}", Shown(id))?;
    }
    Ok(())
}
