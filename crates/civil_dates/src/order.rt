//! The order of dates: by the day that comes first.

ghost use Rattle.std.proofs.Common.{rules};
ghost use Rattle.std.specs.Cmp.{partial_order_from_own_ties};
ghost use Rattle.std.specs.Cmp.Rules.{comparing};
ghost use Rattle.std.specs.Ordering.{on, int_eq, int_cmp, as_partial_cmp};
ghost use Rattle.jiff_core.specs.Date.{epoch_day};

use crate::date::Date;
use crate::jiff_dates::plain;
use std::cmp::Ordering;

impl PartialEq for Date {
    ghost eq = { on epoch_day int_eq };

    ghost laws = { Prim.search (comparing, rules) };

    fn eq(&self, other: &Date) -> bool {
        plain(*self) == plain(*other)
    }
}

impl Eq for Date {
    ghost laws = { Prim.search (comparing, rules) };
}

impl Ord for Date {
    ghost cmp = { on epoch_day int_cmp };

    ghost total = { Prim.search (comparing, rules) };

    ghost matches_partial_cmp = { Prim.search (comparing, rules) };

    ghost matches_eq = { Prim.search (comparing, rules) };

    fn cmp(&self, other: &Date) -> Ordering {
        plain(*self).cmp(&plain(*other))
    }
}

impl PartialOrd for Date {
    ghost partial_cmp = { as_partial_cmp (on epoch_day int_cmp) };

    ghost laws = { partial_order_from_own_ties (Prim.search (comparing, rules))
        (Prim.search (comparing, rules)) };

    fn partial_cmp(&self, other: &Date) -> Option<Ordering> {
        Some(self.cmp(other))
    }
}
