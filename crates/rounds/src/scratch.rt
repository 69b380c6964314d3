//! Runs of the rounds, one after the other.

ghost use Rattle.std.specs.Prelude.{◌≡◌, ℕ, suc, ◌+◌, ◌≤◌, ◌<◌, IfOk, length, map, None, ⊤};
ghost use Rattle.std.specs.Arc.{arc_value};
ghost use Rattle.std.specs.List.{All};
ghost use Rattle.std.specs.Borrow.{sem, follows_so};
ghost use mathlib.Core.Option.{none};
ghost use Rattle.timetable.specs.Table.{Table, IsTable, stops_of};
ghost use Rattle.lines.specs.Lines.{AreLines};
ghost use Rattle.timetable.specs.Front.{AreFront};
ghost use Rattle.rounds.specs.contracts.scratch.Scratch.{the_row};
ghost use Rattle.rounds.specs.Answers.{AreRounds};
ghost use Rattle.stop_events.specs.Events.{AreEvents};
ghost use Rattle.rounds.specs.Mark.{at, arrival_in, moment_in};
ghost use Rattle.stop_labels.specs.Row.{RowData, arrivals_of, settled_of};
ghost use Rattle.rounds.specs.Layers.{IsSized, IsSettled, Begins, AreKept, DoneTo, RodeTo, layer_at, round_at};
ghost use Rattle.rounds.specs.Scratch.{IsMadeFor, IsAlike, MayGoOn, GoesOn, Remembers, rides_of, rounds_of, source_of, kept_of, before_of};

use crate::best::points;
use crate::layer::{Layer, ride_on};
use crate::noted::Noted;
use crate::view::RoundView;
use arrayvec::ArrayVec;
use lines::Lines;
use std::alloc::{AllocError, Global};
use std::sync::Arc;
use stop_events::departures;
use stop_labels::Row;
use timetable::{LATEST_MOMENT, Numbers, Rides, StopId, Timetable};

/// Runs of the rounds over one timetable, one after the other. It keeps what the last run found, for the view of it.
pub struct Scratch {
    rides: Rides,
    lines: Arc<Lines>,
    layers: Vec<Layer>,
    // The lines that a run notes meanwhile.
    noted: Noted,
    source: StopId,
    rounds: Vec<Row>,
}

// A drop by hand is one call at each exit of a function that holds the value. A derived one is many (docs/CHECKING.md).
impl Drop for Scratch {
    fn drop(self) {
        let Scratch {
            rides: _,
            lines: _,
            layers: _,
            noted: _,
            source: _,
            rounds: _,
        } = self;
    }
}

// As many rounds as rides, with no labels.
fn no_rounds(alloc: Global, stops: usize, rides: Rides) -> Result<Vec<Row>, AllocError>
    ensures count { IfOk result (λ rounds. length rounds.items ≡ rides) }
    ensures sizes { IfOk result (λ rounds. All (λ row. length row.marks ≡ stops) rounds.items) }
{
    let count = rides.number();
    let mut rounds = Vec::with_capacity(alloc, count as usize)?;
    for _ in 0..count {
        rounds.push(Row::empty(alloc, stops)?)?;
    }
    Ok(rounds)
}

// A layer before any ride, and one for each ride.
fn no_layers(
    alloc: Global,
    stops: usize,
    lines: usize,
    rides: Rides,
) -> Result<Vec<Layer>, AllocError>
    ensures count { IfOk result (λ layers. length layers.items ≡ rides + 1) }
    ensures sized { IfOk result (λ layers. All (IsSized stops) layers.items) }
{
    let count = rides.number() as usize + 1;
    let mut layers = Vec::with_capacity(alloc, count)?;
    for _ in 0..count {
        layers.push(Layer::empty(alloc, stops, lines)?)?;
    }
    Ok(layers)
}

// Forgets all layers.
fn forget_layers(layers: &mut [Layer])
    ensures sized { (stops : ℕ) → All (IsSized stops) layers.old → All (IsSized stops) layers.new }
    ensures rode { (r stop : ℕ) → r < length layers.old → at (layer_at layers.new r).rode.marks stop ≡ None }
    ensures ready { (r stop : ℕ) → r < length layers.old → at (layer_at layers.new r).ready.marks stop ≡ None }
{
    for layer in layers.iter_mut() {
        layer.forget();
    }
}

// Forgets all rounds.
fn forget_rounds(rounds: &mut [Row])
    ensures sizes { (stops : ℕ) → All (λ row. length row.marks ≡ stops) rounds.old → All (λ row. length row.marks ≡ stops) rounds.new }
    ensures empty { (r stop : ℕ) → r < length rounds.old → at (round_at rounds.new r).marks stop ≡ None }
{
    for round in rounds.iter_mut() {
        round.forget();
    }
}

// Settles all rounds.
fn settle_rounds(rounds: &mut [Row])
    ensures { (r : ℕ) → r < length rounds.old → IsSettled (round_at rounds.old r) (round_at rounds.new r) }
{
    for round in rounds.iter_mut() {
        round.settle();
    }
}

// Begins a run in each layer.
fn begin_layers(table: &Timetable, source: StopId, depart: u32, layers: &mut [Layer])
    requires source { source < stops_of table.now }
    requires early { depart ≤ LATEST_MOMENT }
    requires sized { All (IsSized (stops_of table.now)) layers.old }
    requires some { 0 < length layers.old }
    ensures valid { IsTable table.now }
    ensures begun { (r : ℕ) → r < length layers.old → Begins table.now source depart r (layer_at layers.old r) (layer_at layers.new r) }
{
    for layer in layers.iter_mut() {
        layer.begin(table, source, depart);
    }
}

// The row of one who was ready one ride before that; before the first ride nobody alights.
fn known(layers: &[Layer], index: usize) -> &Row
    requires { index < length layers.now }
    ensures first { index ≡ 0 → result.now ≡ (layer_at layers.now 0).rode }
    ensures later { (r : ℕ) → index ≡ suc r → result.now ≡ (layer_at layers.now r).ready }
{
    if index == 0 {
        return &layers[0].rode;
    }
    &layers[index - 1].ready
}

// Where and when the journeys of a run start.
#[derive(Clone, Copy)]
struct Start {
    source: StopId,
    depart: u32,
}

// What comes of one layer by one ride more, if all are done up to it.
fn ride_from(
    table: &Timetable,
    lines: &Lines,
    start: &Start,
    index: usize,
    layers: &mut [Layer],
    noted: &mut Noted,
    rounds: &mut [Row],
)
    requires lines { AreLines table.now lines.now }
    requires valid { IsTable table.now }
    requires noted { length noted.old ≡ length lines.now.lines }
    requires few { index < 8 }
    requires index { index < length rounds.old }
    requires done { DoneTo table.now start.now.source start.now.depart index layers.old rounds.old }
    ensures rode { RodeTo table.now start.now.source start.now.depart (index + 1) layers.new rounds.new }
    ensures settled { (r : ℕ) → (round_at rounds.new r).settled ≡ (round_at rounds.old r).settled }
    ensures same { length noted.new ≡ length noted.old }
{
    let (front, back) = layers.split_at_mut(index + 1);
    let front: &[Layer] = front;
    ride_on(
        table,
        lines,
        known(front, index),
        &front[index],
        &mut back[0],
        noted,
        &mut rounds[index],
    );
}

// What comes of one layer by the changes of those who alight, if all are done up to the rides there.
fn change_at(table: &Timetable, start: &Start, index: usize, layers: &mut [Layer], rounds: &[Row])
    requires valid { IsTable table.now }
    requires index { index < length rounds.now }
    requires rode { RodeTo table.now start.now.source start.now.depart index layers.old rounds.now }
    ensures { DoneTo table.now start.now.source start.now.depart index layers.new rounds.now }
{
    layers[index].change(table);
}

// What comes of each layer by one ride more, one after the other. Nobody changes if no ride follows.
fn ride_layers(
    table: &Timetable,
    lines: &Lines,
    start: &Start,
    layers: &mut [Layer],
    noted: &mut Noted,
    rounds: &mut [Row],
)
    requires lines { AreLines table.now lines.now }
    requires valid { IsTable table.now }
    requires noted { length noted.old ≡ length lines.now.lines }
    requires few { length rounds.old ≤ 8 }
    requires begun { RodeTo table.now start.now.source start.now.depart 0 layers.old rounds.old }
    ensures rode { RodeTo table.now start.now.source start.now.depart (length rounds.old) layers.new rounds.new }
    ensures settled { (r : ℕ) → (round_at rounds.new r).settled ≡ (round_at rounds.old r).settled }
    ensures same { length noted.new ≡ length noted.old }
{
    for index in 0..rounds.len() {
        change_at(table, start, index, layers, rounds);
        ride_from(table, lines, start, index, layers, noted, rounds);
    }
}

// A run over all layers, which keeps their labels.
fn run_layers(
    table: &Timetable,
    lines: &Lines,
    source: StopId,
    depart: u32,
    layers: &mut [Layer],
    noted: &mut Noted,
    rounds: &mut [Row],
)
    requires lines { AreLines table.now lines.now }
    requires source { source < stops_of table.now }
    requires early { depart ≤ LATEST_MOMENT }
    requires noted { length noted.old ≡ length lines.now.lines }
    requires few { length rounds.old ≤ 8 }
    requires count { length layers.old ≡ suc (length rounds.old) }
    requires sized { All (IsSized (stops_of table.now)) layers.old }
    requires kept { IsTable table.now → AreKept table.now source depart layers.old rounds.old }
    ensures rode { RodeTo table.now source depart (length rounds.old) layers.new rounds.new }
    ensures settled { (r : ℕ) → r < length rounds.old → (stop : ℕ)
        → settled_of (round_at rounds.new r) stop ≡ arrivals_of (round_at rounds.old r) stop }
    ensures same { length noted.new ≡ length noted.old }
{
    settle_rounds(rounds);
    begin_layers(table, source, depart, layers);
    let start = Start { source, depart };
    ride_layers(table, lines, &start, layers, noted, rounds);
}

impl Scratch {
    /// For runs over this timetable, of journeys of at most `rides` rides. It makes the timetable's lines, and fails only if memory runs
    /// out.
    pub fn new(alloc: Global, table: &Timetable, rides: Rides) -> Result<Self, AllocError>
        ensures table { IfOk result (λ scratch. IsMadeFor scratch table.now) }
        ensures rides { IfOk result (λ scratch. rides_of scratch ≡ rides) }
    {
        let lines = Arc::new(alloc, Lines::of(alloc, table)?)?;
        Scratch::over(alloc, table, lines, rides)
    }

    /// The same over lines that were made for the timetable before, and that others may hold too: those of threads that run over one
    /// timetable at once. It fails only if memory runs out.
    pub fn over(
        alloc: Global,
        table: &Timetable,
        lines: Arc<Lines>,
        rides: Rides,
    ) -> Result<Self, AllocError>
        requires { AreLines table.now (arc_value lines) }
        ensures table { IfOk result (λ scratch. IsMadeFor scratch table.now) }
        ensures rides { IfOk result (λ scratch. rides_of scratch ≡ rides) }
    {
        let stops = table.stops();
        let count = lines.lines().len();
        Ok(Scratch {
            rides,
            layers: no_layers(alloc, stops, count, rides)?,
            rounds: no_rounds(alloc, stops, rides)?,
            noted: Noted::none(alloc, count)?,
            source: StopId::new(0),
            lines,
        })
    }

    /// The most rides of a run's journeys.
    pub fn rides(&self) -> Rides
        ensures { result ≡ rides_of self.now }
    {
        self.rides
    }

    /// The events of a stop of the timetable, strictly rising: the moments that are worth leaving it at. It fails only if memory runs out.
    pub fn departures(
        &self,
        alloc: Global,
        table: &Timetable,
        source: StopId,
    ) -> Result<Vec<u32>, AllocError>
        requires table { IsMadeFor self.now table.now }
        requires source { source < stops_of table.now }
        ensures { IfOk result (λ moments. AreEvents table.now source moments.items) }
    {
        departures(alloc, table, &self.lines, source)
    }

    /// Forgets all labels. The runs that follow and keep labels are from this stop.
    pub fn restart(&mut self, source: StopId)
        ensures same { IsAlike self.old self.new }
        ensures source { source_of self.new ≡ source }
        ensures kept { (table : Table) (d : ℕ) → IsMadeFor self.old table → MayGoOn table d self.new }
        ensures none { (rides t : ℕ) → arrival_in (kept_of self.new) rides t ≡ None }
    {
        self.source = source;
        forget_layers(&mut self.layers);
        forget_rounds(&mut self.rounds);
    }

    fn fill(&mut self, table: &Timetable, depart: u32)
        requires table { IsMadeFor self.old table.now }
        requires source { source_of self.old < stops_of table.now }
        requires early { depart ≤ LATEST_MOMENT }
        requires kept { MayGoOn table.now depart self.old }
        ensures on { GoesOn table.now depart self.old self.new }
        ensures before { (rides t : ℕ)
            → moment_in (map (λ (row : RowData). row.settled) self.new.rounds.items) rides t ≡ arrival_in (kept_of self.old) rides t }
    {
        run_layers(
            table,
            &self.lines,
            self.source,
            depart,
            &mut self.layers,
            &mut self.noted,
            &mut self.rounds,
        );
    }

    fn view(&self) -> RoundView<'_>
        ensures rounds { rounds_of result ≡ kept_of self.now }
        ensures before { before_of result ≡ map (λ (row : RowData). row.settled) self.now.rounds.items }
    {
        RoundView::of(&self.rounds)
    }

    /// The rounds from the stop of the last restart at this moment, as `run` has them, by a run that keeps the labels of the
    /// runs since then. The moment is no later than that of the last of these. The view says which arrivals this run lowered.
    ///
    /// It fails only if memory runs out; then the next call is `restart`, or one that begins with it.
    pub fn run_kept(&mut self, table: &Timetable, depart: u32) -> Result<RoundView<'_>, AllocError>
        requires table { IsMadeFor self.old table.now }
        requires source { source_of self.old < stops_of table.now }
        requires early { depart ≤ LATEST_MOMENT }
        requires kept { MayGoOn table.now depart self.old }
        ensures* on { sem 𝓛 (follows_so the_row the_row self.entry.ghost_name none (λ _ _. ⊤) (GoesOn table.now depart self.old)) }
        ensures right { IfOk result (λ view. AreRounds table.now (source_of self.old) depart (rides_of self.old) (rounds_of view)) }
        ensures before { IfOk result (Remembers (kept_of self.old)) }
    {
        self.fill(table, depart);
        Ok(self.view())
    }

    /// The rounds from a stop at a moment of at most `LATEST_MOMENT`. For each number of rides up to that of the scratch and each stop they
    /// have the least arrival, and, if one more ride is sooner, the pattern of such a journey.
    ///
    /// It fails only if memory runs out. A scratch serves any stops and moments in turn, also after an error.
    pub fn run(
        &mut self,
        table: &Timetable,
        source: StopId,
        depart: u32,
    ) -> Result<RoundView<'_>, AllocError>
        requires table { IsMadeFor self.old table.now }
        requires source { source < stops_of table.now }
        requires early { depart ≤ LATEST_MOMENT }
        ensures* same { sem 𝓛 (follows_so the_row the_row self.entry.ghost_name none (λ _ _. ⊤) (λ after. IsAlike self.old after)) }
        ensures right { IfOk result (λ view. AreRounds table.now source depart (rides_of self.old) (rounds_of view)) }
    {
        self.restart(source);
        self.run_kept(table, depart)
    }

    /// The best numbers from a stop to a stop at a moment of at most `LATEST_MOMENT`, as `scan` has them, among journeys
    /// of at most as many rides as the scratch has. It fails only if memory runs out, and serves further runs, also after
    /// an error.
    pub fn scan(
        &mut self,
        table: &Timetable,
        from: StopId,
        to: StopId,
        depart: u32,
    ) -> Result<ArrayVec<Numbers, 9>, AllocError>
        requires table { IsMadeFor self.old table.now }
        requires from { from < stops_of table.now }
        requires to { to < stops_of table.now }
        requires early { depart ≤ LATEST_MOMENT }
        ensures same { IsAlike self.old self.new }
        ensures right { IfOk result (λ points. AreFront table.now (rides_of self.old) from to depart points.items) }
    {
        let rides = self.rides;
        let view = self.run(table, from, depart)?;
        Ok(points(table, &view, from, to, depart, rides))
    }
}
