//! Where a moment lies among others.

ghost use Rattle.std.specs.Prelude.{◌≤◌, length};
ghost use Rattle.std.specs.List.Sorted.{IsStrictlyIncreasing};
ghost use Rattle.reaching.specs.Steps.{LiesAt, SplitsAt};

/// How many of the moments, which rise, are no later than this one.
pub(crate) fn count_up_to(moments: &[u32], moment: u32) -> usize
    requires { IsStrictlyIncreasing moments.now }
    ensures within { result ≤ length moments.now }
    ensures split { SplitsAt moments.now moment result }
{
    moments.partition_point(|each| *each <= moment)
}

/// How many of the moments, which rise, are before this one.
pub(crate) fn count_before(moments: &[u32], moment: u32) -> usize
    requires { IsStrictlyIncreasing moments.now }
    ensures within { result ≤ length moments.now }
    ensures lies { LiesAt moments.now result moment }
{
    if moment == 0 {
        return 0;
    }
    count_up_to(moments, moment - 1)
}
