ghost use Rattle.flow_ease.specs.inside.Laws.{EasesItself, EasesOn, MeansByTables};

/// A block may stand for itself.
pub fn blocks_stand_for_themselves()
    ensures { EasesItself }
{}

/// What a pass makes of what a pass made may stand for the first block.
pub fn passes_follow_each_other()
    ensures { EasesOn }
{}

/// A block whose tables come to what another's tables come to means what the other means.
pub fn tables_give_meaning()
    ensures { MeansByTables }
{}
