ghost use Rattle.ir_forms.specs.inside.Laws.{ChecksChangeNothing, CleanChangesNothing, RunsInOrder};
ghost use Rattle.ir_forms.specs.inside.Laws.{KeepsWords, StandsWithNoTurn};

/// A run that no check ends is the run with fewer checks: where a run is tame and clean, the run
/// without checks is the same.
pub fn checks_change_nothing()
    ensures { ChecksChangeNothing }
{}

/// Code after code goes on where the first goes on.
pub fn statements_run_in_order()
    ensures { RunsInOrder }
{}

/// A run with no turn left has not ended, also where no code is left.
pub fn nothing_ends_without_a_turn()
    ensures { StandsWithNoTurn }
{}

/// A clean run of a hyper program is its run without the check.
pub fn clean_runs_are_runs()
    ensures { CleanChangesNothing }
{}

/// A block that fits leaves words where it begins with words: registers below 2^64, bytes in memory
/// and in the input, and memory of its size.
pub fn blocks_keep_words()
    ensures { KeepsWords }
{}
