//! A byte more.
ghost use Rattle.std.specs.Prelude.{◌≡◌, ◌<◌, ◌≤◌, ◌+◌, ◌-◌, ◌^◌, ◌++◌, ◌∷◌, [], ℕ, List, length, slice_index};
ghost use Rattle.std.specs.Prelude.{slice_index_or, None};
ghost use Rattle.trips_isa.specs.declared.block.Block.{Block};
ghost use Rattle.trace_verify.specs.Spelling.{Listed, slot_bytes};
ghost use Rattle.trace_verify.specs.FirstFault.{record_size, IsShort};
ghost use Rattle.trace_verify.specs.inside.Judging.{by_judged};
ghost use Rattle.trace_verify.specs.declared.parts.Stage.TheVariants as stage;
ghost use Rattle.trips_isa.specs.declared.run.Stepped.TheVariants.{Went};
ghost use Rattle.trace_verify.specs.Reading.{Exit, Progress, before, entry_come, record_seen, records_next};
ghost use Rattle.trace_verify.specs.Reading.{take_byte};
ghost use Rattle.trace_verify.specs.inside.Verifying.{reading_of, progress_of, slots_of, rest_from, IsHeld, IsReady};
ghost use Rattle.trace_verify.specs.inside.Verifying.{IsRunning};

use crate::fault::VerifyFault;
use crate::fronts::{Fronted, Numbered, judge_front, judge_number};
use crate::judged;
use crate::judged::Judged;
use crate::parts::{Parts, Stage};
use crate::record::slot_record;
use crate::slots::first_used;
use arrayvec::ArrayVec;
use trips_isa::{Spot, Stepped};

/// Goes to a stage, before its first byte.
pub fn go(parts: &mut Parts, stage: Stage)
    ensures parts { parts.new ≡ record (parts.old) { stage = stage; seen = parts.new.seen } }
    ensures seen { parts.new.seen.items ≡ [] }
{
    parts.stage = stage;
    parts.seen.clear();
}

// Keeps a byte of a field.
fn keep(parts: &mut Parts, byte: u8)
    requires at { parts.old.at < 2 ^ 63 }
    requires room { length parts.old.seen.items < 12 }
    ensures parts { parts.new ≡ record (parts.old) { at = parts.old.at + 1; seen = parts.new.seen } }
    ensures seen { parts.new.seen.items ≡ parts.old.seen.items ++ byte ∷ [] }
{
    parts.at += 1;
    parts.seen.push(byte);
}

// A byte of the front.
fn take_front(parts: &mut Parts, byte: u8)
    requires at { parts.old.at < 2 ^ 63 }
    requires held { IsHeld parts.old }
    requires stage { parts.old.stage ≡ stage.Front }
    ensures held { IsHeld parts.new }
    ensures read { reading_of parts.new ≡ take_byte parts.old.image.blocks parts.old.budget
        (reading_of parts.old) byte }
    ensures image { parts.new.image ≡ parts.old.image }
    ensures budget { parts.new.budget ≡ parts.old.budget }
    ensures at { parts.new.at ≤ parts.old.at + 1 }
{
    keep(parts, byte);
    match judge_front(parts.seen.as_slice()) {
        Fronted::More => {}
        Fronted::Whole => go(parts, Stage::Number),
        Fronted::NoMagic => go(parts, Stage::Stopped(VerifyFault::Magic)),
        Fronted::NoVersion => go(parts, Stage::Stopped(VerifyFault::Version)),
    }
}

// The next block's entry begins.
fn begin(parts: &mut Parts)
    requires runs { IsRunning parts.old }
    requires went { parts.old.answer ≡ Went }
    requires room { parts.old.count < parts.old.budget }
    ensures held { IsHeld parts.new }
    ensures read { reading_of parts.new ≡ before Exit (progress_of parts.old) }
    ensures image { parts.new.image ≡ parts.old.image }
    ensures budget { parts.new.budget ≡ parts.old.budget }
    ensures at { parts.new.at ≡ parts.old.at }
{
    parts.taken = parts
        .arch
        .tell(&parts.image, &mut parts.tokens, &mut parts.marks);
    go(parts, Stage::Exit);
}

// A byte of a number.
fn take_number(parts: &mut Parts, byte: u8)
    requires at { parts.old.at < 2 ^ 63 }
    requires held { IsHeld parts.old }
    requires stage { parts.old.stage ≡ stage.Number }
    ensures held { IsHeld parts.new }
    ensures read { reading_of parts.new ≡ take_byte parts.old.image.blocks parts.old.budget
        (reading_of parts.old) byte }
    ensures image { parts.new.image ≡ parts.old.image }
    ensures budget { parts.new.budget ≡ parts.old.budget }
    ensures at { parts.new.at ≤ parts.old.at + 1 }
{
    keep(parts, byte);
    let next = parts.arch.next();
    match judge_number(
        parts.seen.as_slice(),
        parts.answer,
        next,
        parts.count,
        parts.budget,
    ) {
        Numbered::More => {}
        Numbered::Whole => go(parts, Stage::Whole),
        Numbered::Begins => begin(parts),
        Numbered::Past => go(parts, Stage::Stopped(VerifyFault::Past(parts.count))),
        Numbered::WrongBlock => go(parts, Stage::Stopped(VerifyFault::WrongBlock(parts.count))),
        Numbered::TooLong => go(parts, Stage::Stopped(VerifyFault::TooLong(parts.count))),
    }
}

// All records of an entry have come.
fn entry_done(parts: &mut Parts)
    requires runs { IsRunning parts.old }
    requires ready { IsReady parts.old }
    ensures held { IsHeld parts.new }
    ensures read { reading_of parts.new
        ≡ entry_come parts.old.image.blocks parts.old.exit (progress_of parts.old) }
    ensures image { parts.new.image ≡ parts.old.image }
    ensures budget { parts.new.budget ≡ parts.old.budget }
    ensures at { parts.new.at ≡ parts.old.at }
{
    let _budget = parts.budget;
    if parts.exit == parts.taken {
        match parts.arch.step(&parts.image) {
            Stepped::Trap(_) => go(parts, Stage::Stopped(VerifyFault::Faulting(parts.count))),
            Stepped::Went => step_on(parts, Stepped::Went),
            Stepped::Ended => step_on(parts, Stepped::Ended),
            Stepped::StackFull => step_on(parts, Stepped::StackFull),
        }
    } else {
        go(parts, Stage::Stopped(VerifyFault::WrongExit(parts.count)));
    }
}

// A step was made, whose entry has come.
fn step_on(parts: &mut Parts, answer: Stepped)
    requires room { parts.old.count < 2 ^ 32 - 1 }
    ensures parts { parts.new ≡ record (parts.old) {
      answer = answer;
      count = parts.old.count + 1;
      stage = stage.Number;
      seen = parts.new.seen;
    } }
    ensures seen { parts.new.seen.items ≡ [] }
{
    parts.answer = answer;
    parts.count += 1;
    go(parts, Stage::Number);
}

/// The next record of the entry, or its end.
pub fn next_slot(parts: &mut Parts, from: u8)
    requires runs { IsRunning parts.old }
    requires ready { IsReady parts.old }
    requires from { from ≤ 128 }
    ensures held { IsHeld parts.new }
    ensures read { reading_of parts.new ≡ records_next parts.old.image.blocks parts.old.exit (progress_of parts.old)
        (rest_from parts.old from) }
    ensures image { parts.new.image ≡ parts.old.image }
    ensures budget { parts.new.budget ≡ parts.old.budget }
    ensures at { parts.new.at ≡ parts.old.at }
{
    let slot = first_used(parts, from);
    if slot < 128 {
        go(parts, Stage::Slot(slot));
    } else {
        entry_done(parts);
    }
}

// Keeps the exit that has come.
fn keep_exit(parts: &mut Parts, byte: u8)
    requires at { parts.old.at < 2 ^ 63 }
    ensures parts { parts.new ≡ record (parts.old) { at = parts.old.at + 1; exit = byte } }
{
    parts.at += 1;
    parts.exit = byte;
}

// The exit.
fn take_exit(parts: &mut Parts, byte: u8)
    requires at { parts.old.at < 2 ^ 63 }
    requires held { IsHeld parts.old }
    requires stage { parts.old.stage ≡ stage.Exit }
    ensures held { IsHeld parts.new }
    ensures read { reading_of parts.new ≡ take_byte parts.old.image.blocks parts.old.budget
        (reading_of parts.old) byte }
    ensures image { parts.new.image ≡ parts.old.image }
    ensures budget { parts.new.budget ≡ parts.old.budget }
    ensures at { parts.new.at ≤ parts.old.at + 1 }
{
    keep_exit(parts, byte);
    next_slot(parts, 0);
}

/// The record of a used slot of the next block.
pub fn wanted(parts: &Parts, slot: u8) -> ArrayVec<u8, 9>
    requires next { parts.now.arch.state.next < length parts.now.image.blocks }
    requires causes { slice_index_or parts.now.marks slot 0 < 4 }
    requires slot { slot < 128 }
    ensures { result.items ≡ slot_bytes (slice_index_or (slots_of parts.now) slot None)
        (slice_index_or parts.now.marks slot 0) (slice_index_or parts.now.tokens slot None) }
{
    let block = parts.image.at(parts.arch.next()).block();
    let insts = block.insts.as_slice();
    slot_record(
        insts[slot as usize],
        parts.marks[slot as usize],
        parts.tokens[slot as usize],
    )
}

// Keeps a byte of a record, and judges it.
fn keep_judged(parts: &mut Parts, byte: u8, want: &[u8]) -> Judged
    requires at { parts.old.at < 2 ^ 63 }
    requires room { length parts.old.seen.items < 12 }
    ensures parts { parts.new ≡ record (parts.old) { at = parts.old.at + 1; seen = parts.new.seen } }
    ensures seen { parts.new.seen.items ≡ parts.old.seen.items ++ byte ∷ [] }
    ensures judged { (blocks : List Block) (exit : ℕ) (l : Listed) (ls : List Listed) (c : Progress) → l.bytes
        ≡ want.now
        → record_seen blocks exit l ls (parts.old.seen.items ++ byte ∷ []) c
        (record_size (slice_index (parts.old.seen.items ++ byte ∷ []) 0))
        ≡ by_judged blocks exit l ls c (parts.old.seen.items ++ byte ∷ []) result }
    ensures short { IsShort parts.old.seen.items → result ≡ Judged.More
        → IsShort (parts.old.seen.items ++ byte ∷ []) }
{
    parts.at += 1;
    judged::take_byte(&mut parts.seen, byte, want)
}

// A byte of a record.
fn take_slot(parts: &mut Parts, slot: u8, byte: u8)
    requires at { parts.old.at < 2 ^ 63 }
    requires held { IsHeld parts.old }
    requires stage { parts.old.stage ≡ stage.Slot slot }
    ensures held { IsHeld parts.new }
    ensures read { reading_of parts.new ≡ take_byte parts.old.image.blocks parts.old.budget
        (reading_of parts.old) byte }
    ensures image { parts.new.image ≡ parts.old.image }
    ensures budget { parts.new.budget ≡ parts.old.budget }
    ensures at { parts.new.at ≤ parts.old.at + 1 }
{
    let want = wanted(parts, slot);
    match keep_judged(parts, byte, want.as_slice()) {
        Judged::More => {}
        Judged::Right => next_slot(parts, slot + 1),
        Judged::Wrong => {
            let fault = VerifyFault::WrongToken(parts.count, Spot::Inst(slot));
            go(parts, Stage::Stopped(fault));
        }
    }
}

/// A byte more, whatever comes next. Nothing changes once a fault was found.
pub fn take(parts: &mut Parts, byte: u8)
    requires at { parts.old.at < 2 ^ 63 }
    requires held { IsHeld parts.old }
    ensures held { IsHeld parts.new }
    ensures read { reading_of parts.new ≡ take_byte parts.old.image.blocks parts.old.budget
        (reading_of parts.old) byte }
    ensures image { parts.new.image ≡ parts.old.image }
    ensures budget { parts.new.budget ≡ parts.old.budget }
    ensures at { parts.new.at ≤ parts.old.at + 1 }
{
    match parts.stage {
        Stage::Front => take_front(parts, byte),
        Stage::Number => take_number(parts, byte),
        Stage::Exit => take_exit(parts, byte),
        Stage::Slot(slot) => take_slot(parts, slot, byte),
        Stage::Whole => go(parts, Stage::Stopped(VerifyFault::Trailing(parts.at))),
        Stage::Stopped(_) => {}
    }
}
