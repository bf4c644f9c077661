ghost use Rattle.std.specs.Prelude.{◌≡◌, IfOk};
ghost use Rattle.ir_forms.specs.inside.FlatViews.{program_of};
ghost use Rattle.flat_lower.specs.inside.Statements.{lowered_program};
ghost use Rattle.flat_lower.specs.inside.Keeps.{Means};

use crate::functions::lower_funcs;
use crate::globals::{addresses_of, image_of};
use base::Memory;
use c_tree::TypedProgram;
use ir_forms::FlatProgram;
use std::alloc::Global;

// The flat form of a program.
fn flat_of(alloc: Global, program: &TypedProgram) -> Result<FlatProgram, Memory>
    ensures ok { IfOk result (λ flat. program_of flat ≡ lowered_program program.now) }
{
    let globals = program.globals.as_slice();
    let addresses = addresses_of(alloc, globals)?;
    let functions = lower_funcs(
        alloc,
        globals,
        addresses.as_slice(),
        program.main,
        program.functions.as_slice(),
    )?;
    let bytes = image_of(alloc, globals)?;
    Ok(FlatProgram {
        functions,
        bytes,
        main: program.main,
    })
}

/// The flat program of a typed program, which does what the program means.
///
/// Want of memory is the only error, and a number that has no room in the flat form counts as that:
/// a parameter or scalar beyond 255, a function's arrays beyond 2^32 - 1 bytes, the number of a
/// place that the program has not, or an expression more than 255 operands deep.
pub fn lower(alloc: Global, program: &TypedProgram) -> Result<FlatProgram, Memory>
    ensures ok { IfOk result (λ flat. program_of flat ≡ lowered_program program.now) }
    ensures meaning { IfOk result (λ flat. Means program.now (program_of flat)) }
{
    let flat = flat_of(alloc, program)?;
    Ok(flat)
}
