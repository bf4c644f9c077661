ghost use Rattle.c_compile_blocks.specs.inside.Choosers.{CasesAreFew};
ghost use Rattle.c_compile_blocks.specs.inside.Limits.{CutProgramsFit, LittleBlocksFit, OnlyMemoryRefuses};
ghost use Rattle.c_compile_blocks.specs.inside.Limits.{PlainBlocksStay, SmallBlocksFit, SmallIfsFit};

/// A block has no more cases than there are choices of a bit for each of its choosers.
pub fn cases_are_few()
    ensures { CasesAreFew }
{}

/// A small block, one that saves or restores a group, and one that holds a small if alone, is within every limit of
/// a machine block, and its cases are few; to the first two no null has to be added.
pub fn little_blocks_fit()
    ensures fit { LittleBlocksFit }
    ensures stay { PlainBlocksStay }
{}

/// So is every small block: one of at most three items that do something, one test and two exits, whatever stands in
/// its legs, around its if-item and behind its test.
pub fn small_blocks_fit()
    ensures { SmallBlocksFit }
{}

/// A block of one small if, with any exit behind it, is within every limit, too.
pub fn small_ifs_fit()
    ensures { SmallIfsFit }
{}

/// So is each block of an assigned program whose plan cuts everywhere.
pub fn cut_programs_fit()
    ensures { CutProgramsFit }
{}

/// Such a block is completed and given targets, unless memory is wanting.
pub fn only_memory_refuses()
    ensures { OnlyMemoryRefuses }
{}
