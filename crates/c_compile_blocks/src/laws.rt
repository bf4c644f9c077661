ghost use Rattle.c_compile_blocks.specs.inside.Laws.{GivesEmitted, UsesSlots};

/// The machine blocks that the passes make of a narrowed program are what the layout takes, whatever
/// permutation each is placed by: so their image means the program.
pub fn machine_blocks_are_emitted()
    ensures { GivesEmitted }
{}

/// The used slots of a block of m instructions in the image are those to which its placing took the
/// first m.
pub fn placed_blocks_use_slots()
    ensures { UsesSlots }
{}
