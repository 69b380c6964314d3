//! What holds of every merge. Nothing is run.

ghost use Rattle.merging.specs.Laws.{AnyOrder, RunsAgain};

/// Of the trees it doesn't matter in which order they are given, nor that some are given twice, if no two of one stop differ.
pub fn any_order()
    ensures { AnyOrder }
{}

/// Whatever a stop leaves, a merge that is run again goes on to the same list.
pub fn runs_again()
    ensures { RunsAgain }
{}
