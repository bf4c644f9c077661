ghost use Rattle.flow_guards.specs.inside.Laws.{KeepsComplete, KeepsLabels, KeepsMeaning};
ghost use Rattle.flow_guards.specs.inside.Laws.{KeepsNodes, KeepsRegular};

/// On every path of the unguarded block each output has its one token.
pub fn unguarding_keeps_completeness()
    ensures { KeepsComplete }
{}

/// The unguarded block means what the block means.
pub fn unguarding_keeps_meaning()
    ensures { KeepsMeaning }
{}

/// Registers, numbers, operands and guards stay as the passes behind want them.
pub fn unguarding_keeps_regularity()
    ensures { KeepsRegular }
{}

/// Labels may be resolved before or after nodes lose their guards.
pub fn unguarding_keeps_labels()
    ensures { KeepsLabels }
{}

/// Each node keeps its place, its operation and its immediate.
pub fn nodes_stay_where_they_stand()
    ensures { KeepsNodes }
{}
