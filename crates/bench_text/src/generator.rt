ghost use Rattle.std.specs.Prelude.{◌≡◌, ◌++◌, IfOk};
ghost use Rattle.bench_text.specs.Text.{function, functions, call, calls, bench_text};

use crate::parts::{
    call_end_part, call_name_part, function_body_part, function_end_part, function_name_part,
    head_part, main_end_part, main_head_part,
};
use std::alloc::{AllocError, Global};

// Appends function k.
fn add_function(alloc: Global, text: &mut Vec<u8>, k: u32) -> Result<(), AllocError>
    ensures { IfOk result (λ _. text.new.items ≡ text.old.items ++ function k) }
{
    let number = k.to_string(alloc)?;
    text.extend_from_slice(function_name_part())?;
    text.extend_from_slice(number.as_bytes())?;
    text.extend_from_slice(function_body_part())?;
    text.extend_from_slice(number.as_bytes())?;
    text.extend_from_slice(function_end_part())
}

// Appends the functions below a number.
fn add_functions(alloc: Global, text: &mut Vec<u8>, count: u32) -> Result<(), AllocError>
    ensures { IfOk result (λ _. text.new.items ≡ text.old.items ++ functions count) }
{
    for k in 0..count {
        add_function(alloc, text, k)?;
    }
    Ok(())
}

// Appends the call of function k.
fn add_call(alloc: Global, text: &mut Vec<u8>, k: u32) -> Result<(), AllocError>
    ensures { IfOk result (λ _. text.new.items ≡ text.old.items ++ call k) }
{
    let number = k.to_string(alloc)?;
    text.extend_from_slice(call_name_part())?;
    text.extend_from_slice(number.as_bytes())?;
    text.extend_from_slice(call_end_part())
}

// Appends the calls of the functions below a number.
fn add_calls(alloc: Global, text: &mut Vec<u8>, count: u32) -> Result<(), AllocError>
    ensures { IfOk result (λ _. text.new.items ≡ text.old.items ++ calls count) }
{
    for k in 0..count {
        add_call(alloc, text, k)?;
    }
    Ok(())
}

/// The text with so many functions. Want of memory is the only error.
pub fn bench_text(alloc: Global, count: u32) -> Result<Vec<u8>, AllocError>
    ensures { IfOk result (λ text. text.items ≡ bench_text count) }
{
    let mut text = Vec::from_slice(alloc, head_part())?;
    add_functions(alloc, &mut text, count)?;
    text.extend_from_slice(main_head_part())?;
    add_calls(alloc, &mut text, count)?;
    text.extend_from_slice(main_end_part())?;
    Ok(text)
}
