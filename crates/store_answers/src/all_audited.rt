//! Whether the answers from each stored tree are those of the timetable.

ghost use Rattle.std.specs.Prelude.{◌↔◌, IfErr, IfOk, MatchResult};
ghost use Rattle.std.specs.List.{All, AllZip};
ghost use Rattle.timetable.specs.Table.{stops_of};
ghost use Rattle.store_answers.specs.Audited.{IsAllAudited};
ghost use Rattle.store_answers.specs.Lines.{TellsOne};
ghost use Rattle.store_audit.specs.TreeAudits.{IsKnown};
ghost use Rattle.store_terms.specs.Stores.{IsUntold, OnlyFailing};

use crate::audited::told;
use answer_lines::{Audit, Report};
use disk_model::Disk;
use faults::Fault;
use feed_basis::Basis;
use option_words::Workers;
use progress::Progress;
use section_store::going_laws::goes_on;
use std::alloc::{AllocError, Global};
use std::slice;
use std::thread::Threads;
use store_audit::{Crew, TreeAudit, audit_store};
use timetable::Rides;

// What the audits of trees came to, in their order, with the ids of stops and by the days of the basis. It fails only if memory runs out.
fn all_told<'a>(
    alloc: Global,
    basis: &'a Basis,
    audits: &[TreeAudit],
) -> Result<Vec<Audit<'a>>, AllocError>
    requires { All (IsKnown (stops_of basis.now.timetable)) audits.now }
    ensures { IfOk result (λ all. AllZip (TellsOne basis.now) audits.now all.items) }
{
    let mut all = Vec::with_capacity(alloc, audits.len())?;
    for audit in audits {
        let from = basis.names().stop(audit.source);
        let line = told(basis, from, audit.difference);
        all.extend_from_slice(slice::from_ref(&line))?;
    }
    Ok(all)
}

/// Audits all trees that the file of the disk has, in the order in which they were stored. It finds where the answers of one ride or more
/// of each differ first from those of the timetable. N workers audit in parallel. The file is recovered, and a fresh one begun. All trees
/// are in memory then, and are let go as they are audited. `progress` is given how many are audited. The disk comes back.
pub fn audit_all<'a, D: Disk, R: Threads + Sync, P: Progress>(
    alloc: Global,
    rt: &R,
    basis: &'a Basis,
    rides: Rides,
    workers: Workers,
    disk: D,
    progress: &mut P,
) -> (Result<Report<'a>, Fault<'a>>, D)
    ensures audited { D.honest disk → MatchResult result.0 (IsAllAudited basis.now rides (D.state disk) (D.state result.1))
        (IsUntold basis.now rides (D.state disk) (D.state result.1)) }
    ensures device { IfErr result.0 (OnlyFailing (D.failures disk) (D.failures result.1)) }
    ensures honest { D.honest disk ↔ D.honest result.1 }
{
    goes_on();
    let Ok(network) = basis.network(alloc) else {
        return (Err(Fault::Memory), disk);
    };
    let crew = Crew {
        alloc,
        rt,
        network: &network,
        rides,
        workers: workers.number,
    };
    let (audits, disk) = audit_store(&crew, disk, progress);
    progress.ended();
    let audits = match audits {
        Ok(audits) => audits,
        Err(why) => return (Err(Fault::from(why)), disk),
    };
    match all_told(alloc, basis, &audits) {
        Ok(all) => (Ok(Report::AuditedAll(all)), disk),
        Err(_) => (Err(Fault::Memory), disk),
    }
}
