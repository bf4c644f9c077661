//! The limits of the forms and the numbers of variables, as the code has them.

ghost use Rattle.std.specs.Prelude.{◌≡◌};
ghost use Rattle.ir_forms.specs.inside.Limits as limits;

/// How many bytes the frames of all active calls may take (docs/LANGUAGE.md: above them a run is Deep).
pub const STACK_BYTES: u64 = 1_048_576;

/// How many labels there are: a label is below this, as is the number of chunks that an offset goes on
/// (docs/MACHINE.md, "The image").
pub const LABELS: u32 = 524_288;

/// How many statements a flat program may have, each function counting one.
pub const MOST_STATEMENTS: u32 = 16_777_216;

/// The number of temporary 0 of a flat function; temporary t is `FIRST_TEMPORARY + t`. Scalars are
/// below it.
pub const FIRST_TEMPORARY: u16 = 64;

/// The number of scratch variable 0; scratch variable s is `FIRST_SCRATCH + s`.
pub const FIRST_SCRATCH: u16 = 80;

/// How many variables there are: 64 scalars, 16 temporaries and 8 scratch variables.
pub const VARIABLES: u16 = 88;

/// The limits and the numbers of the code are those of the definitions. It does nothing when it runs.
pub fn constants_are_the_definitions()
    ensures stack_bytes { STACK_BYTES ≡ limits.stack_bytes }
    ensures labels { LABELS ≡ limits.label_count }
    ensures statements { MOST_STATEMENTS ≡ limits.most_statements }
    ensures first_temporary { FIRST_TEMPORARY ≡ limits.first_temporary }
    ensures first_scratch { FIRST_SCRATCH ≡ limits.first_scratch }
    ensures variables { VARIABLES ≡ limits.variable_count }
{}
