//! That programs are no larger than their texts allow.

ghost use Rattle.flat_lower_premises.specs.inside.Sizes.{BlocksAreFew, PassesAreShort, ProgramsAreSmall};
ghost use Rattle.flat_lower_premises.specs.inside.Sizes.{ProgramsHaveRoom, UnitsAreSmall};

/// A translation unit has no more functions, statements and expressions together than its text has
/// tokens (C17 6.5 to 6.9).
pub fn units_are_small()
    ensures { UnitsAreSmall }
{}

/// The typed program of an accepted unit has at most twice as many functions, statements and
/// expressions, conversions among them (C17 6.3).
pub fn programs_are_small()
    ensures { ProgramsAreSmall }
{}

/// So the typed program of an accepted text of at most 8,192 tokens has at most 4,194,304
/// functions, statements and expressions.
pub fn programs_have_room()
    ensures { ProgramsHaveRoom }
{}

/// A pass through a function of an accepted unit's typed program costs no more than the text has
/// tokens.
pub fn passes_are_short()
    ensures { PassesAreShort }
{}

/// At most twelve blocks a token are made of an accepted unit's flat program.
pub fn blocks_are_few()
    ensures { BlocksAreFew }
{}
