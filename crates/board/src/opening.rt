//! Opens a board.

ghost use Rattle.std.specs.Prelude.{◌≡◌, ◌<◌, ◌≤◌, [], IfOk, IfSome, drop, false, Some, length};
ghost use Rattle.std.specs.Arc.{arc_value};
ghost use Rattle.std.specs.List.{All, AllZip};
ghost use Rattle.timetable.specs.Table.{stops_of};
ghost use Rattle.section_store.specs.Sections.{form_of};
ghost use Rattle.left_right.specs.Sides.{view};
ghost use Rattle.board.specs.Board.{IsBoard, opened_board};
ghost use Rattle.board.specs.Trees.{IsSameTree};

use crate::history::{History, Told};
use crate::origin::Origin;
use crate::reader::Reader;
use crate::rule::Copies;
use crate::shared_patterns::SharedPatterns;
use crate::shown::{Change, Shown};
use crate::writer::{Writer, show};
use pattern_tree::PatternTree;
use section_store::Form;
use std::alloc::{AllocError, Global};
use std::snapshot::Snapshot;
use std::sync::{Arc, Wait};
use timetable::{Rides, Timetable};

// The patterns of each tree. A tree is let go as soon as they are made.
fn shared_trees(alloc: Global, trees: Vec<PatternTree>) -> Result<Vec<SharedPatterns>, AllocError>
    ensures { IfOk result (λ shared. AllZip IsSameTree trees.items shared.items) }
{
    let mut shared = Vec::new(alloc);
    for tree in trees {
        shared.push(SharedPatterns::of(alloc, &tree)?)?;
    }
    Ok(shared)
}

// A list of these trees, and all that is known of it; none if there are too many to be counted.
fn list_of(trees: &[SharedPatterns]) -> Option<(History, Told)>
    ensures book { IfSome result (λ r. r.0.count.book ≡ r.1.book) }
    ensures list { IfSome result (λ r. r.1.list ≡ trees.now) }
{
    let (history, mut told) = History::new();
    for tree in trees {
        if !told.add(&history, tree) {
            return None;
        }
    }
    Some((history, told))
}

// One of the copies of what is shown first.
fn first_copy(
    alloc: Global,
    table: &Arc<Timetable>,
    rides: Rides,
    opened: &Told,
    trees: &[SharedPatterns],
) -> Result<Shown, AllocError>
    requires { opened.now.list ≡ trees.now }
    ensures { IfOk result (λ shown. shown ≡ opened_board (record { form = form_of (arc_value table.now) rides; opened = opened.now })) }
{
    let form = Form::new(Arc::try_clone(table)?, rides);
    let origin = Origin {
        form,
        opened: opened.again(),
    };
    let mut shown = Shown::bare(alloc, origin, table.stops())?;
    for tree in trees {
        shown.show(tree.try_clone()?);
    }
    Ok(shown)
}

// The copies, once the first was shown and their writer knows what it was opened for. Two changes have gone through them, so there is
// room for those of a publish.
fn shown_first<R: Wait>(
    rt: &R,
    alloc: Global,
    first: Shown,
    second: Shown,
    readers: usize,
) -> Result<Copies, AllocError>
    requires readers { (0 < readers) × (readers ≤ 64) }
    requires alike { second ≡ first }
    requires board { IsBoard first }
    ensures shown { IfOk result (λ copies. copies.desk.shown.value ≡ first) }
    ensures knows { IfOk result (λ copies. view copies.desk.place ≡ Some first.origin) }
    ensures idle { IfOk result (λ copies. drop copies.behind copies.log.items ≡ []) }
{
    let copies = Copies::new(alloc, first, second, readers)?;
    let (copies, shown) = show(rt, copies, Change::Nothing);
    if shown {
        let (copies, shown) = show(rt, copies, Change::Nothing);
        if shown {
            return Ok(copies);
        }
        let _last = copies.take(rt);
        return Err(AllocError);
    }
    let _last = copies.take(rt);
    Err(AllocError)
}

// The copies, once these trees are shown, and what they were opened for.
fn opened_copies<R: Wait>(
    rt: &R,
    alloc: Global,
    table: &Arc<Timetable>,
    rides: Rides,
    opened: &Told,
    trees: &[SharedPatterns],
    readers: usize,
) -> Result<(Copies, Snapshot<Origin>), AllocError>
    requires readers { (0 < readers) × (readers ≤ 64) }
    requires list { opened.now.list ≡ trees.now }
    ensures origin { IfOk result (λ r. r.1.value ≡ record { form = form_of (arc_value table.now) rides; opened = opened.now }) }
    ensures shown { IfOk result (λ r. r.0.desk.shown.value ≡ opened_board r.1.value) }
    ensures knows { IfOk result (λ r. view r.0.desk.place ≡ Some r.1.value) }
    ensures idle { IfOk result (λ r. drop r.0.behind r.0.log.items ≡ []) }
{
    let first = first_copy(alloc, table, rides, opened, trees)?;
    let second = first_copy(alloc, table, rides, opened, trees)?;
    let origin = Snapshot::of(first.origin());
    let copies = shown_first(rt, alloc, first, second, readers)?;
    Ok((copies, origin))
}

// The writer of a board with these trees, before it has readers.
fn opened_writer<R: Wait>(
    rt: &R,
    alloc: Global,
    table: &Arc<Timetable>,
    rides: Rides,
    trees: &[SharedPatterns],
    readers: usize,
) -> Result<Writer, AllocError>
    requires readers { (0 < readers) × (readers ≤ 64) }
    ensures form { IfOk result (λ w. w.origin.form ≡ form_of (arc_value table.now) rides) }
    ensures trees { IfOk result (λ w. w.told.list ≡ trees.now) }
    ensures opened { IfOk result (λ w. (w.origin.opened ≡ w.told) × (w.halted ≡ false)) }
{
    let Some((history, told)) = list_of(trees) else {
        return Err(AllocError);
    };
    let (copies, origin) = opened_copies(rt, alloc, table, rides, &told, trees, readers)?;
    Ok(Writer::new(copies, history, told, origin))
}

// As many readers as `readers` says.
fn seats(alloc: Global, writer: &mut Writer, readers: usize) -> Result<Vec<Reader>, AllocError>
    ensures count { IfOk result (λ seats. length seats.items ≡ readers) }
    ensures each { IfOk result (λ seats.
        All (λ reader. reader ≡ record { origin = writer.old.origin; told = writer.old.told }) seats.items) }
    ensures same { writer.new ≡ writer.old }
{
    let mut seats = Vec::new(alloc);
    for _ in 0..readers {
        seats.push(writer.seat()?)?;
    }
    Ok(seats)
}

/// Opens a board for the trees of that timetable and of journeys of at most `rides` rides, with those that are stored already, as the board
/// shows them, and with that number of readers. All that publishing and looking need is made here. It fails if memory runs out, or if a
/// reader finds no place; `rt` is for closing the board then.
pub fn open_shared<R: Wait>(
    alloc: Global,
    rt: &R,
    table: &Arc<Timetable>,
    rides: Rides,
    trees: Vec<SharedPatterns>,
    readers: usize,
) -> Result<(Writer, Vec<Reader>), AllocError>
    requires readers { (0 < readers) × (readers ≤ 64) }
    ensures form { IfOk result (λ r. r.0.origin.form ≡ form_of (arc_value table.now) rides) }
    ensures trees { IfOk result (λ r. r.0.told.list ≡ trees.items) }
    ensures opened { IfOk result (λ r. (r.0.origin.opened ≡ r.0.told) × (r.0.halted ≡ false)) }
    ensures count { IfOk result (λ r. length r.1.items ≡ readers) }
    ensures each { IfOk result (λ r. All (λ reader. reader ≡ record { origin = r.0.origin; told = r.0.told }) r.1.items) }
{
    let mut writer = opened_writer(rt, alloc, table, rides, &trees, readers)?;
    match seats(alloc, &mut writer, readers) {
        Ok(readers) => Ok((writer, readers)),
        Err(fault) => {
            writer.close(rt);
            Err(fault)
        }
    }
}

/// The same, of trees as a store has them.
pub fn open<R: Wait>(
    alloc: Global,
    rt: &R,
    table: &Arc<Timetable>,
    rides: Rides,
    trees: Vec<PatternTree>,
    readers: usize,
) -> Result<(Writer, Vec<Reader>), AllocError>
    requires readers { (0 < readers) × (readers ≤ 64) }
    ensures form { IfOk result (λ r. r.0.origin.form ≡ form_of (arc_value table.now) rides) }
    ensures trees { IfOk result (λ r. AllZip IsSameTree trees.items r.0.told.list) }
    ensures opened { IfOk result (λ r. (r.0.origin.opened ≡ r.0.told) × (r.0.halted ≡ false)) }
    ensures count { IfOk result (λ r. length r.1.items ≡ readers) }
    ensures each { IfOk result (λ r. All (λ reader. reader ≡ record { origin = r.0.origin; told = r.0.told }) r.1.items) }
{
    let shared = shared_trees(alloc, trees)?;
    open_shared(alloc, rt, table, rides, shared, readers)
}
