//! Which calls of a disk in memory are to fail.

ghost use Rattle.std.specs.Prelude.{◌≡◌, ◌<◌, ◌+◌, ℕ};
ghost use Rattle.disk_model.specs.Plan.{is_told_by};

/// Which of the calls still to come are to fail. They are counted from 1.
#[derive(Clone, Copy, Debug)]
pub enum Plan {
    Never,
    At(u64),
    From(u64),
}

// Whether the next call is to fail, and the plan for those after it.
pub fn next_call(plan: Plan) -> (bool, Plan)
    ensures told { result.0 ≡ is_told_by plan 1 }
    ensures later { (n : ℕ) → 0 < n → is_told_by result.1 n ≡ is_told_by plan (n + 1) }
{
    match plan {
        Plan::Never => (false, Plan::Never),
        Plan::At(n) if n <= 1 => (n == 1, Plan::Never),
        Plan::At(n) => (false, Plan::At(n - 1)),
        Plan::From(n) if n <= 1 => (true, plan),
        Plan::From(n) => (false, Plan::From(n - 1)),
    }
}
