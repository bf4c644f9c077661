ghost use Rattle.hyper_build.specs.inside.CallsClaim.{CallsClaim};
ghost use Rattle.hyper_build.specs.inside.Followed.{FollowedClaim};
ghost use Rattle.hyper_build.specs.inside.Laws.{BuildGivesBlocks, BuildKeepsMeaning, KeepsSmallIfs};
ghost use Rattle.hyper_build.specs.inside.Laws.{GivesAssigned, KeepsAssigned};
ghost use Rattle.hyper_build.specs.inside.Smallness.{AssignedAreLittle, CutBlocksAreLittle};
ghost use Rattle.hyper_build.specs.inside.Annotated.{PlainClaim};
ghost use Rattle.hyper_build.specs.inside.Reached.{EmissionPutsBlocks};
ghost use Rattle.hyper_build.specs.inside.BackwardProgram.{EmissionBuilds};
ghost use Rattle.hyper_build.specs.inside.FunctionParts.{EntriesBegin};

/// Calls of a built program do what the flat program's calls do, in all their endings.
pub fn calls_follow()
    ensures { CallsClaim }
{}

/// A block that makes a call or a system call is followed by the block that goes on.
pub fn blocks_are_followed()
    ensures { FollowedClaim }
{}

/// For every plan and every faithful layout, with or without the check of faults, a program's blocks
/// do what the flat program does: they end as it ends, within two blocks a turn and six more, and
/// have not ended where it has not.
pub fn built_programs_keep_meaning()
    ensures { BuildKeepsMeaning }
{}

/// The blocks of a program that fits fit, lead to blocks of the program, are followed, and are no more
/// than its code says, whatever the plan.
pub fn built_programs_are_blocks()
    ensures { BuildGivesBlocks }
{}

/// Where a plan cuts at every place each block is small, with a test only at its end between two jumps,
/// or saves or restores one group, or holds one small if alone.
pub fn cut_blocks_are_little()
    ensures { CutBlocksAreLittle }
{}

/// Under every plan the blocks of a program have at least as many filled if-items as it has small ifs.
pub fn small_ifs_are_filled()
    ensures { KeepsSmallIfs }
{}

/// A plan changes nothing but what calls keep.
pub fn plans_change_nothing()
    ensures { PlainClaim }
{}

/// What `assign` gives is as `build` wants it: its blocks do what the program does whose calls keep only
/// what must be kept.
pub fn assigned_programs_keep_meaning()
    ensures meaning { KeepsAssigned }
    ensures blocks { GivesAssigned }
    ensures little { AssignedAreLittle }
{}

/// Emission before code puts out the blocks of annotated code, and leaves the rest of the block before
/// them, where labels and numbers suffice and its loops have the last notes.
pub fn emission_puts_blocks()
    ensures { EmissionPutsBlocks }
{}

/// The blocks that emission puts out of a program, by numbers that are found forward, are those of the
/// definition, for every list of answers, all groups and every program.
pub fn emission_builds_programs()
    ensures { EmissionBuilds }
{}

/// The blocks of a program are three and then function by function, those of each from its entry on; for every
/// list of answers, all groups and every program.
pub fn entries_begin_functions()
    ensures { EntriesBegin }
{}
