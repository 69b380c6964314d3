//! Whose ledger it is.

use std::marker::Brand;

/// The timetable and the most rides that a ledger is for. What lies under a lock is known only by its type, so the type names them. A
/// caller picks them when it opens a ledger.
pub trait Basis {
    ghost use Rattle.std.specs.Prelude.{ℕ};
    ghost use Rattle.timetable.specs.Table.{Table};

    /// The timetable.
    ghost table: { Table };

    /// The most rides.
    ghost rides: { ℕ };
}

impl Basis for Brand {
    ghost use Rattle.shared_ledger.specs.Bare.{bare_table};

    ghost table = { bare_table };

    ghost rides = { 0 };
}
