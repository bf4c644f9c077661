//! The recorder.
ghost use Rattle.std.specs.Prelude.{◌≡◌, ◌<◌, ◌≤◌, ◌+◌, ◌++◌, [], ℕ, List, IfOk, OnOk, cond, length, slice_index_or};
ghost use Rattle.std.specs.Prelude.{true, false};
ghost use Rattle.trips_isa.specs.declared.run.Stepped.{Stepped};
ghost use Rattle.trips_isa.specs.Fits.{FitsBlock};
ghost use Rattle.trips_isa.specs.Machine.{State, start, step_of};
ghost use Rattle.block_cases.specs.inside.Plain.{IsTrap};
ghost use Rattle.block_atomic.specs.Told.{TellsSlots};
ghost use Rattle.trace_verify.specs.Spelling.{entry_bytes, entry_with, listed_by, tokens_in};
ghost use Rattle.trips_isa.specs.declared.run.Stepped.TheVariants.{Went};
ghost use Rattle.trace_verify.specs.Recorded.{ending_of, kept_unless, IsRecorded};
ghost use Rattle.trace_verify.specs.inside.Recording.{HasRecorded};

use crate::entry::put_entry;
use base::Memory;
use block_atomic::Arch;
use block_check::CheckedImage;
use std::alloc::{AllocError, Global};
use trips_isa::{Block, Ending, Stepped, Token};

// Whether a step that was answered so has an entry.
fn has_entry(answer: Stepped) -> bool
    ensures { (xs : List ℕ) → kept_unless answer xs ≡ cond result xs [] }
{
    match answer {
        Stepped::Went => true,
        Stepped::Ended => true,
        Stepped::StackFull => true,
        Stepped::Trap(_) => false,
    }
}

// Writes the entry of a step that was answered so: one that traps has none.
fn put_step(
    out: &mut Vec<u8>,
    answer: Stepped,
    number: u32,
    block: &Block,
    exit: u8,
    tokens: &[Option<Token>],
    marks: &[u8],
) -> Result<(), AllocError>
    requires fits { FitsBlock block.now }
    requires tokens { length tokens.now ≡ 128 }
    requires marks { length marks.now ≡ 128 }
    requires causes { (j : ℕ) → j < 128 → slice_index_or marks.now j 0 < 4 }
    ensures ok { (s : State) → TellsSlots block.now s.registers s.memory tokens.now marks.now exit
        → OnOk result (out.new.items ≡ out.old.items ++ kept_unless answer
        (entry_with number exit (listed_by block.now (tokens_in block.now s)))) }
{
    if has_entry(answer) {
        put_entry(out, number, block, exit, tokens, marks)
    } else {
        Ok(())
    }
}

// Makes a step, and writes its entry, unless its block traps.
fn record_step(
    arch: &mut Arch,
    image: &CheckedImage,
    out: &mut Vec<u8>,
) -> Result<Stepped, AllocError>
    requires next { arch.old.state.next < length image.now.blocks }
    requires room { length arch.old.state.trace < arch.old.budget }
    ensures step { IfOk result (λ o. (arch.new.state, o) ≡ step_of image.now.blocks arch.old.state) }
    ensures bytes { IfOk result (λ o. out.new.items
        ≡ out.old.items ++ kept_unless o (entry_bytes image.now.blocks arch.old.state)) }
    ensures next { IfOk result (λ o. arch.new.state.next < length image.now.blocks) }
    ensures trace { IfOk result (λ o. (IsTrap o → ⊥)
        → length arch.new.state.trace ≡ length arch.old.state.trace + 1) }
    ensures budget { IfOk result (λ o. arch.new.budget ≡ arch.old.budget) }
{
    let mut tokens = [None; 128];
    let mut marks = [0; 128];
    let number = arch.next();
    let block = image.at(number).block();
    let exit = arch.tell(image, &mut tokens, &mut marks);
    let answer = arch.step(image);
    put_step(out, answer, number, block, exit, &tokens, &marks)?;
    Ok(answer)
}

// Whether the run goes on after a step that was answered so.
fn goes(answer: Stepped) -> bool
    ensures on { result ≡ true → answer ≡ Went }
    ensures over { result ≡ false → answer ≡ Went → ⊥ }
{
    match answer {
        Stepped::Went => true,
        Stepped::Ended => false,
        Stepped::StackFull => false,
        Stepped::Trap(_) => false,
    }
}

// Makes steps up to the budget or to the end of the run, and writes their entries.
fn record_steps(
    arch: &mut Arch,
    image: &CheckedImage,
    out: &mut Vec<u8>,
    budget: u32,
) -> Result<Stepped, AllocError>
    requires next { arch.old.state.next < length image.now.blocks }
    requires fresh { length arch.old.state.trace ≡ 0 }
    requires budget { arch.old.budget ≡ budget }
    ensures recorded { IfOk result (λ o.
        HasRecorded image.now.blocks arch.old.state budget out.old.items out.new.items arch.new.state o) }
{
    let mut answer = Stepped::Went;
    let mut made = 0;
    while made < budget && goes(answer) {
        answer = record_step(arch, image, out)?;
        made += 1;
    }
    Ok(answer)
}

// How a run ended.
fn ending_of(answer: Stepped, next: u32) -> Ending
    ensures { result ≡ ending_of answer next }
{
    match answer {
        Stepped::Went => Ending::Budget,
        Stepped::Ended => Ending::Ended,
        Stepped::StackFull => Ending::StackFull,
        Stepped::Trap(cause) => Ending::Trap { block: next, cause },
    }
}

/// The trace of an image's run on an input within a budget of blocks, how the run ended, and the word in register 3 at
/// its end. Want of memory is the only error.
pub fn record_run(
    alloc: Global,
    image: &CheckedImage,
    input: Vec<u8>,
    budget: u32,
) -> Result<(Vec<u8>, Ending, u64), Memory>
    ensures recorded { IfOk result (λ r.
        IsRecorded image.now.blocks (start image.now.bytes input.items) budget r.0.items r.1 r.2) }
{
    let mut arch = Arch::make(alloc, image, input, budget)?;
    let mut out = Vec::from_slice(alloc, b"TRIPSTRC\0\0\0\x01")?;
    let answer = record_steps(&mut arch, image, &mut out, budget)?;
    out.extend_from_slice(&[255; 4])?;
    Ok((out, ending_of(answer, arch.next()), arch.register(3)))
}
