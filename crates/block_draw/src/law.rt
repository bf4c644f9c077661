//! What is said of drawings beside what they are. Nothing of it does anything when it runs.

ghost use Rattle.block_draw.specs.inside.Laws.{SlotsStandApart};

/// No two slots have one place.
pub fn slots_stand_apart()
    ensures { SlotsStandApart }
{}
