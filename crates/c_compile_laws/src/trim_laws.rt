ghost use Rattle.c_compile_laws.specs.inside.TrimLaws.{TrimmedFits, TrimmedKeepsAssigned, TrimmedKeepsSmallIfs};

/// The passes take what is left of a program whose blocks fit, lead to its blocks, and are few enough.
pub fn trimmed_programs_fit()
    ensures { TrimmedFits }
{}

/// What is left of the blocks of a program does what they do.
pub fn trimmed_programs_keep_assigned()
    ensures { TrimmedKeepsAssigned }
{}

/// It has as many filled ifs as the program has small ones.
pub fn trimmed_programs_keep_small_ifs()
    ensures { TrimmedKeepsSmallIfs }
{}
