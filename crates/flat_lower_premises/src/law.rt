//! That flat programs fit.

ghost use Rattle.flat_lower_premises.specs.inside.Laws.{FewBlocks, FewStatements, FitsOfAnyLength, LoweredFits};

/// The flat program of a source as typing gives it, with at most 8 parameters a function, with its
/// jumps in loops and switches and with second sizes that are words, fits but for its length: each
/// operation is of a fitting form, each variable one of its function's, each call has the arguments
/// that its function takes, jumps stand in loops, and globals and frames lie inside data memory.
pub fn flat_programs_fit_at_any_length()
    ensures { FitsOfAnyLength }
{}

/// The flat program of any source has at most four statements for each function and each node.
pub fn statements_are_few()
    ensures { FewStatements }
{}

/// And at most six blocks for each of them are made of it, where each function has six besides its
/// body's.
pub fn blocks_are_few()
    ensures { FewBlocks }
{}

/// So the flat program of a source with at most 4,194,304 functions and nodes fits.
pub fn flat_programs_fit()
    ensures { LoweredFits }
{}
