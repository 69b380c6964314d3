//! What is known after a number of rides.

ghost use Rattle.std.specs.Prelude.{◌≡◌, ℕ, ◌<◌, ◌≤◌, IfOk, length, None};
ghost use Rattle.timetable.specs.Table.{IsTable, stops_of};
ghost use Rattle.timetable.specs.Journeys.{foot, link};
ghost use Rattle.lines.specs.Lines.{AreLines};
ghost use Rattle.rounds.specs.Mark.{AllShort, AllEarly, at};
ghost use Rattle.rounds.specs.Serving.{Served};
ghost use Rattle.stop_labels.specs.Row.{SameRow, arrivals_of, settled_of};
ghost use Rattle.rounds.specs.Layers.{IsSized, IsBegunNext, IsBelow, Begins, Changes, Joined, Stepped, Ridden};

use crate::guesses::Guesses;
use crate::noted::Noted;
use crate::serving::ride_lines;
use crate::walking::{Stay, walk_from, walk_on};
use lines::Lines;
use std::alloc::{AllocError, Global};
use stop_labels::{Label, Row};
use timetable::{LATEST_MOMENT, StopId, Timetable};

/// What is known of each stop after a number of rides: when one alights there and when one may board there next.
#[derive(Drop)]
pub struct Layer {
    pub rode: Row,
    pub ready: Row,
    // Guesses for the scans whose rides alight here.
    pub guesses: Guesses,
}

// Lowers each label to that of the same stop in `below`, if those that weren't lowered there are no sooner than here.
fn join(below: &Row, row: &mut Row)
    requires size { length below.now.marks ≡ length row.old.marks }
    requires early { AllEarly LATEST_MOMENT below.now.marks }
    requires rest { IsBelow (settled_of below.now) row.old.marks }
    ensures joined { Joined below.now.marks row.old.marks row.new.marks }
    ensures same { SameRow row.old row.new }
{
    for stop in below.lowered() {
        if let Some(label) = below.label(*stop) {
            row.lower_to(*stop, label);
        }
    }
}

impl Layer {
    /// Nothing is known yet, of `stops` stops and `lines` lines.
    pub fn empty(alloc: Global, stops: usize, lines: usize) -> Result<Self, AllocError>
        ensures { IfOk result (IsSized stops) }
    {
        Ok(Layer {
            guesses: Guesses::new(alloc, lines)?,
            rode: Row::empty(alloc, stops)?,
            ready: Row::empty(alloc, stops)?,
        })
    }

    /// Forgets all.
    pub fn forget(&mut self)
        ensures sized { (stops : ℕ) → IsSized stops self.old → IsSized stops self.new }
        ensures rode { (stop : ℕ) → at self.new.rode.marks stop ≡ None }
        ensures ready { (stop : ℕ) → at self.new.ready.marks stop ≡ None }
    {
        self.rode.forget();
        self.ready.forget();
    }

    /// Settles what is known, and lowers where one may board who is at the stop at the moment and walks.
    pub fn begin(&mut self, table: &Timetable, source: StopId, depart: u32)
        requires source { source < stops_of table.now }
        requires early { depart ≤ LATEST_MOMENT }
        requires sized { IsSized (stops_of table.now) self.old }
        ensures sized { IsSized (stops_of table.now) self.new }
        ensures valid { IsTable table.now }
        ensures begun { (r : ℕ) → Begins table.now source depart r self.old self.new }
    {
        self.rode.settle();
        self.ready.settle();
        let start = Label::start(depart);
        walk_from(table, Stay::Free, source, &start, &mut self.ready);
    }

    /// Lowers where one may board by the changes of those who alight. Who rides on from here needs them, and nobody else does.
    pub fn change(&mut self, table: &Timetable)
        requires sized { IsSized (stops_of table.now) self.old }
        requires early { AllEarly LATEST_MOMENT self.old.rode.marks }
        requires linked { Stepped (link table.now) (settled_of self.old.rode) self.old.ready.marks }
        ensures { Changes table.now self.old self.new }
    {
        walk_on(table, Stay::Change, &self.rode, &mut self.ready);
    }
}

/// What comes of a layer by one ride more, in the layer `after` it, and of the journeys that end then. The rides of one who is
/// ready as in the row `known` are done in the first of these layers.
pub fn ride_on(
    table: &Timetable,
    lines: &Lines,
    known: &Row,
    before: &Layer,
    after: &mut Layer,
    noted: &mut Noted,
    round: &mut Row,
)
    requires valid { IsTable table.now }
    requires lines { AreLines table.now lines.now }
    requires known { length known.now.marks ≡ stops_of table.now }
    requires before { IsSized (stops_of table.now) before.now }
    requires after { IsSized (stops_of table.now) after.old }
    requires noted { length noted.old ≡ length lines.now.lines }
    requires round { length round.old.marks ≡ stops_of table.now }
    requires short { AllShort 7 before.now.ready.marks }
    requires early { AllEarly LATEST_MOMENT before.now.rode.marks }
    requires rode { AllEarly LATEST_MOMENT after.old.rode.marks }
    requires served { Served table.now (arrivals_of known.now) before.now.rode.marks }
    requires next { IsBegunNext table.now before.now after.old }
    requires walked { Stepped (foot table.now) (settled_of after.old.rode) round.old.marks }
    ensures ridden { Ridden table.now before.now after.old after.new round.old round.new }
    ensures same { length noted.new ≡ length noted.old }
{
    join(&before.rode, &mut after.rode);
    ride_lines(
        table,
        lines,
        &before.ready,
        known,
        noted,
        &mut after.guesses,
        &mut after.rode,
    );
    walk_on(table, Stay::Free, &after.rode, round);
}
