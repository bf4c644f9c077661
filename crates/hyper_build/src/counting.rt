//! How many blocks cuts begin, and how many statements there are; sums that do not fit are want of memory.

ghost use Rattle.std.specs.Prelude.{◌≡◌, ◌+◌, IfOk};
ghost use Rattle.ir_forms.specs.inside.FlatFits as flat;
ghost use Rattle.ir_forms.specs.inside.FlatViews.{code_of, step_of};
ghost use Rattle.hyper_build.specs.inside.Parts as parts;
ghost use Rattle.hyper_build.specs.inside.Passing as passing;
ghost use Rattle.hyper_build.specs.inside.Sizes as sizes;

use crate::calling::argument_cuts;
use crate::functions::parameter_cuts;
use base::{Items, Memory};
use ir_forms::{Arg, FlatStmt};

/// The sum of two numbers.
pub fn plus(a: u32, b: u32) -> Result<u32, Memory>
    ensures { IfOk result (λ n. n ≡ a + b) }
{
    match a.checked_add(b) {
        None => Err(Memory),
        Some(n) => Ok(n),
    }
}

/// A statement and the statements of its two parts.
fn with_parts(one: u32, other: u32) -> Result<u32, Memory>
    ensures { IfOk result (λ n. n ≡ 1 + (one + other)) }
{
    let both = plus(one, other)?;
    plus(1, both)
}

/// A length as a number of blocks.
fn narrow(n: usize) -> Result<u32, Memory>
    ensures { IfOk result (λ m. m ≡ n) }
{
    if n <= 4_294_967_295 {
        Ok(n as u32)
    } else {
        Err(Memory)
    }
}

/// The blocks that a cut begins.
pub fn cut_size(ends: bool) -> u32
    ensures { result ≡ parts.cut_size ends }
{
    if ends { 1 } else { 0 }
}

/// The blocks that the groups of a call begin, where it ends its block behind each or behind none.
#[tactic(auto, using(crate::proofs::Moving::chain_all, crate::proofs::Moving::chain_none))]
pub fn groups_size(small: bool, groups: &[Items<u16>]) -> Result<u32, Memory>
    ensures { IfOk result (λ n. n ≡ parts.chain_size small groups.now) }
{
    if small { narrow(groups.len()) } else { Ok(0) }
}

/// The blocks that a call's arguments begin.
#[tactic(auto, using(crate::proofs::ArgumentSizes::argument_more))]
pub fn arguments_size(small: bool, args: &[Arg]) -> Result<u32, Memory>
    ensures { IfOk result (λ n. n ≡ sizes.arguments_size small args.now) }
{
    let mut blocks = 0;
    let mut at = args.len();
    while at > 0 {
        at -= 1;
        blocks = plus(cut_size(argument_cuts(small, at)), blocks)?;
    }
    Ok(blocks)
}

/// The blocks that a function's parameters begin.
pub fn parameters_size(small: bool, params: u8) -> Result<u32, Memory>
    ensures { IfOk result (λ n. n
        ≡ parts.moved_size (passing.parameter_cuts small) 0 (passing.parameter_moves 0 params)) }
{
    let mut blocks = 0;
    let mut at = params;
    while at > 0 {
        at -= 1;
        blocks = plus(cut_size(parameter_cuts(small, at as usize)), blocks)?;
    }
    Ok(blocks)
}

/// The statements of a statement, itself and those in its parts.
#[cycle(steps)]
pub fn steps_in(s: &FlatStmt) -> Result<u32, Memory>
    ensures { IfOk result (λ n. n ≡ flat.steps_in (step_of s.now)) }
{
    match s {
        FlatStmt::If { yes, no, .. } => {
            let one = steps_of(yes.as_slice())?;
            let other = steps_of(no.as_slice())?;
            let all = with_parts(one, other)?;
            Ok(all)
        }
        FlatStmt::Loop { body, post } => {
            let one = steps_of(body.as_slice())?;
            let other = steps_of(post.as_slice())?;
            let all = with_parts(one, other)?;
            Ok(all)
        }
        _ => Ok(1),
    }
}

/// The statements of code.
#[cycle(steps)]
pub fn steps_of(stmts: &[FlatStmt]) -> Result<u32, Memory>
    ensures { IfOk result (λ n. n ≡ flat.steps_of (code_of stmts.now)) }
{
    let mut steps = 0;
    let mut at = stmts.len();
    while at > 0 {
        at -= 1;
        let more = steps_in(&stmts[at])?;
        steps = plus(more, steps)?;
    }
    Ok(steps)
}
