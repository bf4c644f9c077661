//! Loops' tests, with which the rest of the block goes on.

ghost use Rattle.std.specs.Prelude.{◌≡◌, ◌&&◌, OnOk, IfOk, drop};
ghost use Rattle.ir_forms.specs.inside.FlatFits as flat;
ghost use Rattle.ir_forms.specs.inside.FlatViews.{code_of};
ghost use Rattle.ir_forms.specs.inside.HyperViews.{tail_of};
ghost use Rattle.ir_forms.specs.inside.HyperRuns as hyper;
ghost use Rattle.hyper_build.specs.inside.Backward.{emission_of};
ghost use Rattle.hyper_build.specs.inside.BackwardCode as code;
ghost use Rattle.hyper_build.specs.inside.BackwardStatements.{leaving};
ghost use Rattle.hyper_build.specs.inside.Emitted.{rest_of};
ghost use Rattle.hyper_build.specs.inside.Merging as merging;
ghost use Rattle.hyper_build.specs.inside.Parts as parts;

use crate::emitting::{Emitting, fall, put_rest};
use crate::exits::exit_of;
use crate::operands::source;
use crate::rest::{Rest, closed, jump, put_set};
use crate::straight::{both, put_if};
use base::{Boxed, Items, Memory};
use ir_forms::{Arg, Exit, FlatStmt, HyperBlock, Source, Tail};
use std::alloc::Global;
use trips_isa::Op;

/// The register in which a loop's test is kept.
const TEST: u8 = 92;

/// Whether no statement stands at a place, or behind it.
#[tactic(auto, using(crate::proofs::LoopTests::some_behind, crate::proofs::LoopTests::none_behind))]
pub fn is_last(stmts: &[FlatStmt], at: usize) -> bool
    ensures { result ≡ flat.is_empty (code_of (drop at stmts.now)) }
{
    if at < stmts.len() { false } else { true }
}

/// Whether statements are a break alone.
pub fn is_break(stmts: &[FlatStmt]) -> bool
    ensures { result ≡ code.is_break_code (code_of stmts.now) }
{
    match exit_of(stmts, 0, 1, 0) {
        None => false,
        Some(to) => to == 1,
    }
}

/// Whether an if, which the plan joins or not, is the test of a loop: it is the last statement of the loop's body,
/// and its second leg is a break alone.
pub fn is_loop_test(last: bool, joined: bool, no: &[FlatStmt]) -> bool
    ensures { result ≡ last && (joined && code.is_break_code (code_of no.now)) }
{
    both(last, both(joined, is_break(no)))
}

/// The end of a block that goes on as a test says: to a tail, or by a jump.
#[tactic(auto, using(crate::proofs::Emits::fork_is))]
fn fork(alloc: Global, tail: Tail, out: u32) -> Result<Rest, Memory>
    ensures { IfOk result (λ rest. rest_of rest ≡ merging.fork (tail_of tail) out) }
{
    let yes = Boxed::new(alloc, tail)?;
    let no = Boxed::new(alloc, Tail::Leave(Exit::Jump(out)))?;
    Ok(Rest {
        items: Items::new(alloc),
        tail: Tail::Test {
            test: Source::Reg(TEST),
            yes,
            no,
        },
    })
}

/// A rest where a test holds, and else a jump.
fn merged(rest: Rest, alloc: Global, arg: Arg, out: u32) -> Result<Rest, Memory>
    ensures { IfOk result (λ r. rest_of r
        ≡ merging.merged merging.test_register (parts.source arg) (rest_of rest) (hyper.jump out)) }
{
    let test = source(arg)?;
    let HyperBlock { items, tail } = closed(rest);
    let mut merged = fork(alloc, tail, out)?;
    put_if(&mut merged, Source::Reg(TEST), items, Items::new(alloc))?;
    put_set(&mut merged, TEST, Op::Mov, test, Source::Const(0))?;
    Ok(merged)
}

/// A loop's test before its leg: what follows is done where it holds, and else the loop is left.
pub fn put_merged(emitting: &mut Emitting, alloc: Global, arg: Arg, out: u32) -> Result<(), Memory>
    ensures { OnOk result (emission_of emitting.new
        ≡ leaving (merging.merged merging.test_register (parts.source arg)
        (emission_of emitting.old).rest (hyper.jump out)) (emission_of emitting.old)) }
{
    let rest = std::mem::replace(&mut emitting.rest, jump(alloc, 0));
    let rest = merged(rest, alloc, arg, out)?;
    fall(emitting);
    put_rest(emitting, rest);
    Ok(())
}
