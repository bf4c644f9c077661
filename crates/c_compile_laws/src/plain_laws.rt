ghost use Rattle.c_compile_laws.specs.inside.PlainLaws.{AssignsPlainIfs, AssignsSmallIfs, LowersPlainIfs};

/// The flat program of a typed program has at least as many small ifs as that has plain ifs.
pub fn lowering_keeps_plain_ifs()
    ensures { LowersPlainIfs }
{}

/// A flat program whose calls keep what any lists say has as many small ifs as the flat program.
pub fn assigning_keeps_small_ifs()
    ensures { AssignsSmallIfs }
{}

/// So the flat program whose calls keep what any lists say has at least as many small ifs as the typed program has
/// plain ifs.
pub fn plain_ifs_are_assigned()
    ensures { AssignsPlainIfs }
{}
