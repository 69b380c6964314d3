//! The rows of a file that are about ids.

ghost use Rattle.std.specs.Prelude.{◌≡◌, ℕ, List, true, IfOk};
ghost use Rattle.gtfs_text.specs.Sheets.{column_of};
ghost use Rattle.feed_names.specs.Rows.{first_row, first_row_in, is_among, is_member, row_of};

use gtfs_text::Sheet;
use std::alloc::{AllocError, Global};
use std::collections::{BTreeMap, BTreeSet};

// The ids, to be looked up.
fn set_of<'a>(alloc: Global, ids: &[&'a str]) -> Result<BTreeSet<&'a str>, AllocError>
    ensures { IfOk result (λ set. (id : List ℕ) → is_member set id ≡ is_among ids.now id) }
{
    let mut set = BTreeSet::new(alloc);
    for id in ids {
        set.insert(*id)?;
    }
    Ok(set)
}

// For each of the ids that are asked for the number of the first row that has it in the column, if one does.
fn rows_by<'a>(
    alloc: Global,
    sheet: &'a Sheet,
    column: usize,
    ids: &[&str],
) -> Result<BTreeMap<&'a str, usize>, AllocError>
    ensures { IfOk result (λ rows. (id : List ℕ) → is_among ids.now id ≡ true → row_of rows id ≡ first_row sheet.now column id) }
{
    let asked = set_of(alloc, ids)?;
    let mut rows = BTreeMap::new(alloc);
    let mut row = sheet.rows();
    'rows: while row > 0 {
        let id = sheet.field(row, column);
        if asked.contains(id) {
            rows.insert(id, row)?;
        }
        row -= 1;
    }
    Ok(rows)
}

/// For each of these ids the number of the first row that has it in the column of this name, if one does. Rows are numbered from 1. It
/// fails only if memory runs out. The time grows with the rows, not with the rows times the ids.
pub fn first_rows<'a>(
    alloc: Global,
    sheet: &'a Sheet,
    key: &str,
    ids: &[&str],
) -> Result<BTreeMap<&'a str, usize>, AllocError>
    ensures { IfOk result (λ rows. (id : List ℕ) → is_among ids.now id ≡ true
        → row_of rows id ≡ first_row_in sheet.now (column_of sheet.now key.now) id) }
{
    match sheet.column(key) {
        Some(column) => rows_by(alloc, sheet, column, ids),
        None => Ok(BTreeMap::new(alloc)),
    }
}
