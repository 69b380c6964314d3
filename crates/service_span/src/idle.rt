//! Whether no trip runs on the covered days.

ghost use Rattle.std.specs.Prelude.{IfOk};
ghost use Rattle.service_span.specs.Idle.{IsIdle};

use crate::span::{Span, span_of};
use crate::trips::running_trips;
use gtfs_tables::Tables;
use service_days::Cover;
use std::alloc::{AllocError, Global};

/// That no trip runs on a covered day.
#[derive(Clone, Copy)]
pub struct Idle {
    /// The first and the last day of service, wherever they lie; none if the feed has no day of service.
    pub span: Option<Span>,
}

/// Whether no service that a trip names runs on a covered day: none if one does. The day before the first covered day doesn't count.
pub fn idle_of(alloc: Global, tables: &Tables, cover: &Cover) -> Result<Option<Idle>, AllocError>
    ensures { IfOk result (IsIdle tables.now cover.now) }
{
    let running = cover.running_days(alloc, tables)?;
    for day in 0..cover.days() {
        if running_trips(tables.trips(), &running, day + 1) > 0 {
            return Ok(None);
        }
    }
    Ok(Some(Idle {
        span: span_of(alloc, tables)?,
    }))
}
