//! The nodes of a block's end: each exit is a branch under its scope.
ghost use Rattle.std.specs.Prelude.{◌≡◌, ◌+◌, ◌++◌, [], ◌∷◌, length, suc, IfOk, OnOk};
ghost use Rattle.ir_forms.specs.declared.hyper.Exit.TheVariants as exits;
ghost use Rattle.predication.specs.inside.Operands.{constant_of};
ghost use Rattle.predication.specs.inside.Tails.{exit_touched, half_end, tail_touched};
ghost use Rattle.predication.specs.inside.Emits.{Adds, env_of};
ghost use Rattle.predication.specs.inside.Ends.{address_of, branched, ending_of, exit_labelled};
ghost use Rattle.predication.specs.inside.Ends.{label, leaving_of, tail_labelled, work_after};

use crate::emitting::{name_entry, take_number};
use crate::joining::{guard_of, meet};
use crate::naming::names_of_leg;
use crate::nodes::{push, push_mov};
use crate::reading::{one, operand, tested};
use crate::work::{Names, Work};
use base::{Items, Memory};
use ir_forms::{Exit, FlowSource, Guard, LABELS, Source, Tail};
use std::alloc::Global;
use trips_isa::Op;

// EXITS

// A branch, with the label that it names or 0. A label is below `LABELS`, or `convert` was not called.
fn push_branch(
    alloc: Global,
    work: &mut Work,
    guard: Option<Guard>,
    op: Op,
    to: u32,
    left: Items<FlowSource>,
) -> Result<(), Memory>
    ensures { OnOk result (work.new ≡ branched work.old guard op to left) }
{
    if to >= LABELS {
        return Err(Memory);
    }
    let number = take_number(work)?;
    push(work, op, to as i32, number, guard, left, Items::new(alloc))?;
    Ok(())
}

// Half of the address of a block to come back to, which its label stands for. It is below `LABELS` too.
fn push_half(
    alloc: Global,
    work: &mut Work,
    op: Op,
    back: u32,
    left: Items<FlowSource>,
) -> Result<u32, Memory>
    ensures at { IfOk result (λ k. k ≡ length work.old.nodes) }
    ensures adds { OnOk result (Adds work.old work.new
        (constant_of op (half_end + back) left ∷ [])) }
{
    if back >= LABELS {
        return Err(Memory);
    }
    push(
        work,
        op,
        (65536 + back) as i32,
        0,
        None,
        left,
        Items::new(alloc),
    )
}

// The address of a block to come back to, where the exit is taken.
fn push_address(
    alloc: Global,
    work: &mut Work,
    guard: Option<Guard>,
    back: u32,
) -> Result<u32, Memory>
    ensures at { IfOk result (λ k. k ≡ suc (suc (length work.old.nodes))) }
    ensures adds { OnOk result (Adds work.old work.new
        (address_of guard (length work.old.nodes) back)) }
{
    let upper = push_half(alloc, work, Op::Genu, back, Items::new(alloc))?;
    let given = one(alloc, FlowSource::Node(upper))?;
    let lower = push_half(alloc, work, Op::App, back, given)?;
    let given = one(alloc, FlowSource::Node(lower))?;
    push_mov(alloc, work, guard, given)
}

// A call: register 2 becomes the address of the block to come back to.
fn call(
    alloc: Global,
    work: &mut Work,
    names: &mut Names,
    guard: Option<Guard>,
    to: u32,
    back: u32,
) -> Result<(), Memory>
    ensures work { OnOk result (work.new
        ≡ work_after work.old (leaving_of guard work.old names.old (exits.Call to (label back)))) }
    ensures env { OnOk result (env_of names.new.entries
        ≡ (leaving_of guard work.old names.old (exits.Call to (label back))).env) }
    ensures sets { OnOk result (names.new.sets ≡ names.old.sets ++ 2 ∷ []) }
{
    let at = push_address(alloc, work, guard, back)?;
    push_branch(alloc, work, guard, Op::Callo, to, Items::new(alloc))?;
    name_entry(alloc, names, 2, at)?;
    Ok(())
}

// A return to the address in register 2.
fn return_to(
    alloc: Global,
    work: &mut Work,
    names: &Names,
    guard: Option<Guard>,
) -> Result<(), Memory>
    ensures { OnOk result (work.new
        ≡ work_after work.old (leaving_of guard work.old names.now exits.Return)) }
{
    let left = operand(alloc, work, names, Source::Reg(2))?;
    push_branch(alloc, work, guard, Op::Ret, 0, left)?;
    Ok(())
}

// One exit.
fn leave(
    alloc: Global,
    work: &mut Work,
    names: &mut Names,
    guard: Option<Guard>,
    exit: Exit,
) -> Result<(), Memory>
    ensures work { OnOk result (work.new
        ≡ work_after work.old (leaving_of guard work.old names.old (exit_labelled exit))) }
    ensures env { OnOk result (env_of names.new.entries
        ≡ (leaving_of guard work.old names.old (exit_labelled exit)).env) }
    ensures sets { OnOk result (names.new.sets
        ≡ names.old.sets ++ exit_touched (exit_labelled exit)) }
{
    match exit {
        Exit::Jump(to) => push_branch(alloc, work, guard, Op::Bro, to, Items::new(alloc))?,
        Exit::Call { to, back } => call(alloc, work, names, guard, to, back)?,
        Exit::Return => return_to(alloc, work, names, guard)?,
        Exit::System(_) => push_branch(alloc, work, guard, Op::Scall, 0, Items::new(alloc))?,
    }
    Ok(())
}

// TAILS

/// The end of a block: both legs of a test one after the other, and then what they set.
pub fn finish(
    tail: &Tail,
    alloc: Global,
    work: &mut Work,
    names: &mut Names,
    guard: Option<Guard>,
) -> Result<(), Memory>
    ensures work { OnOk result (work.new
        ≡ work_after work.old (ending_of guard work.old names.old (tail_labelled tail.now))) }
    ensures env { OnOk result (env_of names.new.entries
        ≡ (ending_of guard work.old names.old (tail_labelled tail.now)).env) }
    ensures sets { OnOk result (names.new.sets
        ≡ names.old.sets ++ tail_touched (tail_labelled tail.now)) }
{
    match tail {
        Tail::Leave(exit) => {
            leave(alloc, work, names, guard, *exit)?;
            Ok(())
        }
        Tail::Test { test, yes, no } => {
            let at = tested(alloc, work, names, guard, *test)?;
            let mut first = names_of_leg(alloc, names.entries.as_slice())?;
            finish(yes.get(), alloc, work, &mut first, Some(guard_of(at, true)))?;
            let mut second = names_of_leg(alloc, names.entries.as_slice())?;
            finish(
                no.get(),
                alloc,
                work,
                &mut second,
                Some(guard_of(at, false)),
            )?;
            meet(alloc, work, at, names, &first, &second)?;
            Ok(())
        }
    }
}
