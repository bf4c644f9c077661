ghost use Rattle.flow_fold.specs.inside.Laws.{DrawsReplace, FoldsReplace, ReplacesItself, ReplacesOn, SharesReplace};
ghost use Rattle.flow_fold.specs.inside.Laws.{SweepsAllReplace, SweepsReplace};

/// A block may stand for itself.
pub fn blocks_replace_themselves()
    ensures { ReplacesItself }
{}

/// One pass may follow another.
pub fn replacements_follow()
    ensures { ReplacesOn }
{}

/// A block with a folded node may stand for the block.
pub fn foldings_replace()
    ensures { FoldsReplace }
{}

/// A block whose writes take what copies copy may stand for the block.
pub fn drawings_replace()
    ensures { DrawsReplace }
{}

/// A block without a node that nothing names may stand for the block.
pub fn sweepings_replace()
    ensures { SweepsReplace }
{}

/// A block without all nodes that nothing which stays names may stand for the block.
pub fn sweepings_at_once_replace()
    ensures { SweepsAllReplace }
{}

/// A block with a copy in the place of a node that has a twin may stand for the block.
pub fn sharings_replace()
    ensures { SharesReplace }
{}
