//! Whole programs.

ghost use Rattle.std.specs.Prelude.{◌≡◌, ◌+◌, ◌∷◌, map, IfOk, OnOk};
ghost use Rattle.ir_forms.specs.inside.FlatViews.{function_of, program_of};
ghost use Rattle.ir_forms.specs.inside.HyperViews.{block_of, blocks_of};
ghost use Rattle.ir_forms.specs.inside.Frames as frames;
ghost use Rattle.hyper_build.specs.inside.Emitted.{out_of};
ghost use Rattle.hyper_build.specs.inside.Routines as routines;
ghost use Rattle.hyper_build.specs.inside.BackwardProgram as program;
ghost use Rattle.hyper_build.specs.inside.Laws.{plan_of, built_program};

use crate::counting::plus;
use crate::emitting::Emitting;
use crate::functions::put_functions;
use crate::ground::Site;
use crate::numbering::{Numbering, number_functions};
use crate::plan::CutPlan;
use crate::rest::{closed, jump, put_set};
use crate::singles::{END, leave};
use base::{Items, Memory};
use ir_forms::{Exit, FlatProgram, HyperBlock, HyperProgram, Source};
use reg_assign::Assigned;
use std::alloc::Global;
use trips_isa::Op;

/// The bytes that all active frames may take.
const FRAME_LIMIT: u64 = 1_048_576;

/// The bytes that globals may take here; data memory is smaller.
const MOST_BYTES: usize = 1 << 40;

/// The block that a full stack leads to.
const FULL: u32 = 2;

/// Where the frames begin.
fn frames_at(bytes: &[u8]) -> Result<u64, Memory>
    ensures { IfOk result (λ n. n ≡ frames.frames_at bytes.now) }
{
    if bytes.len() < MOST_BYTES {
        Ok((bytes.len() as u64 + 7) / 8 * 8)
    } else {
        Err(Memory)
    }
}

/// Where they end.
#[tactic(auto, unfolding(ir_forms::specs::inside::Frames::frame_limit))]
fn frames_end(base: u64) -> Result<u64, Memory>
    ensures { IfOk result (λ n. n ≡ base + frames.frame_limit) }
{
    match base.checked_add(FRAME_LIMIT) {
        None => Err(Memory),
        Some(end) => Ok(end),
    }
}

/// A block that makes a system call and goes on behind itself.
fn system_block(alloc: Global, call: u64, label: u32) -> Result<HyperBlock, Memory>
    ensures { IfOk result (λ b. block_of b ≡ routines.system_block call label) }
{
    let mut rest = leave(alloc, Exit::System(plus(label, 1)?));
    put_set(&mut rest, 0, Op::Mov, Source::Const(call), Source::Const(0))?;
    Ok(closed(rest))
}

/// Block 0: the stack is empty, and main is called.
fn start_block(alloc: Global, base: u64, main: u32) -> Result<HyperBlock, Memory>
    ensures { IfOk result (λ b. block_of b ≡ routines.start_block base main) }
{
    let mut rest = leave(
        alloc,
        Exit::Call {
            to: main,
            back: END,
        },
    );
    put_set(&mut rest, 1, Op::Mov, Source::Const(base), Source::Const(0))?;
    Ok(closed(rest))
}

/// A block before those that are put out.
#[tactic(auto, using(crate::proofs::Emits::out_pushed))]
fn push_block(out: &mut Items<HyperBlock>, block: HyperBlock) -> Result<(), Memory>
    ensures { OnOk result (out_of out.new ≡ block_of block ∷ out_of out.old) }
{
    out.push(block)?;
    Ok(())
}

/// The first three blocks, before those that are put out.
fn put_first(out: &mut Items<HyperBlock>, alloc: Global, base: u64, main: u32) -> Result<(), Memory>
    ensures { OnOk result (out_of out.new ≡ program.first_blocks base main (out_of out.old)) }
{
    push_block(out, system_block(alloc, 4, FULL)?)?;
    push_block(out, system_block(alloc, 3, END)?)?;
    push_block(out, start_block(alloc, base, main)?)
}

/// The program of blocks that are put out.
fn program_of_all(out: Items<HyperBlock>) -> HyperProgram
    ensures { blocks_of result ≡ out_of out }
{
    let mut blocks = out.into_vec();
    blocks.reverse();
    HyperProgram {
        blocks: Items::from_vec(blocks),
    }
}

/// The blocks of functions, the last first, behind which nothing is put out.
fn functions_emitted(
    flat: &FlatProgram,
    alloc: Global,
    site: &Site,
    numbering: Numbering,
    end: u64,
) -> Result<Items<HyperBlock>, Memory>
    ensures { IfOk result (λ out. out_of out
        ≡ (program.functions_out end site.now (map function_of flat.now.functions)
        (program.emission_end numbering)).out) }
{
    let Numbering {
        label,
        place,
        calls,
        notes,
    } = numbering;
    let mut emitting = Emitting {
        label,
        place,
        calls,
        notes,
        out: Items::new(alloc),
        rest: jump(alloc, 0),
    };
    put_functions(flat.functions.as_slice(), &mut emitting, alloc, site, end)?;
    let Emitting {
        label: _,
        place: _,
        calls: _,
        notes: _,
        out,
        rest: _,
    } = emitting;
    Ok(out)
}

/// The blocks of a program, the last first.
fn emitted(
    flat: &FlatProgram,
    alloc: Global,
    plan: &CutPlan,
    groups: &Items<Items<Items<u16>>>,
) -> Result<Items<HyperBlock>, Memory>
    ensures { IfOk result (λ out. out_of out
        ≡ program.emitted_program plan.now.cuts plan.now.joins groups.now (program_of flat.now)) }
{
    let base = frames_at(flat.bytes.as_slice())?;
    let end = frames_end(base)?;
    let none = Items::new(alloc);
    let bare = Site {
        plan,
        groups,
        entries: &none,
        frame: 0,
        arrays: 0,
    };
    let mut numbering = Numbering {
        label: 3,
        place: 0,
        calls: 0,
        notes: Items::new(alloc),
    };
    let entries = number_functions(flat.functions.as_slice(), &mut numbering, &bare, alloc)?;
    let site = Site {
        plan,
        groups,
        entries: &entries,
        frame: 0,
        arrays: 0,
    };
    let mut out = functions_emitted(flat, alloc, &site, numbering, end)?;
    put_first(&mut out, alloc, base, site.entry(flat.main))?;
    Ok(out)
}

/// The hyper program of a flat program for a plan: at each place the block ends as the plan says, each
/// if that the plan joins and that may be an item is one, and each call saves its groups. Want of
/// memory is the only error of a program that fits; one that names registers which there are not is
/// refused as `Memory` too.
pub fn build(alloc: Global, assigned: &Assigned, plan: &CutPlan) -> Result<HyperProgram, Memory>
    ensures blocks { IfOk result (λ program. blocks_of program
        ≡ built_program (plan_of plan.now.cuts plan.now.joins assigned.now.groups)
        (program_of assigned.now.flat)) }
{
    let out = emitted(&assigned.flat, alloc, plan, &assigned.groups)?;
    Ok(program_of_all(out))
}
