//! Blocks that are put out, the last first.

ghost use Rattle.std.specs.Prelude.{◌≡◌, ◌-◌, OnOk};
ghost use Rattle.trips_isa.specs.declared.op.Op.TheVariants.{Mov};
ghost use Rattle.hyper_build.specs.inside.Emitted.{rest_of};
ghost use Rattle.hyper_build.specs.inside.Backward as back;
ghost use Rattle.hyper_build.specs.inside.Backward.{emission_of};

use crate::rest::{Rest, closed, jump, put_set};
use base::{Items, Memory};
use ir_forms::{HyperBlock, Source};
use std::alloc::Global;
use trips_isa::Op;

/// What is known of a loop before it is put out: the label of its first block, its number among the
/// statements, and the label of its post.
#[derive(Clone, Copy)]
pub struct Note {
    pub head: u32,
    pub place: u32,
    pub next: u32,
}

/// The blocks that are put out, the last first, with the label of the first, the numbers of
/// statements and calls before, the notes of the loops before, and the rest of the block before.
#[derive(Drop)]
pub struct Emitting {
    pub label: u32,
    pub place: u32,
    pub calls: u32,
    pub notes: Items<Note>,
    pub out: Items<HyperBlock>,
    pub rest: Rest,
}

/// The number before a number; of 0, 0.
pub fn fallen(n: u32) -> u32
    ensures { result ≡ n - 1 }
{
    if n > 0 { n - 1 } else { 0 }
}

/// The number that lies so far before a number; where that is below 0, 0.
pub fn fallen_by(n: u32, less: u32) -> u32
    ensures { result ≡ n - less }
{
    if less < n { n - less } else { 0 }
}

/// The rest becomes a block of its own, and what stands before it a jump there.
#[tactic(auto, using(crate::proofs::Emits::out_pushed))]
pub fn put_out(emitting: &mut Emitting, alloc: Global) -> Result<(), Memory>
    ensures { OnOk result (emission_of emitting.new ≡ back.put_out (emission_of emitting.old)) }
{
    let label = fallen(emitting.label);
    let rest = std::mem::replace(&mut emitting.rest, jump(alloc, label));
    emitting.out.push(closed(rest))?;
    emitting.label = label;
    Ok(())
}

/// The block ends here, or it does not.
pub fn cut(emitting: &mut Emitting, alloc: Global, ends: bool) -> Result<(), Memory>
    ensures { OnOk result (emission_of emitting.new
        ≡ back.cut_at ends (emission_of emitting.old)) }
{
    if ends {
        put_out(emitting, alloc)?;
    }
    Ok(())
}

/// A statement less stands before.
pub fn fall(emitting: &mut Emitting)
    ensures { emission_of emitting.new ≡ back.fall (emission_of emitting.old) }
{
    emitting.place = fallen(emitting.place);
}

/// So many statements less stand before.
pub fn fall_by(emitting: &mut Emitting, statements: u32)
    ensures { emission_of emitting.new ≡ back.fall_by statements (emission_of emitting.old) }
{
    emitting.place = fallen_by(emitting.place, statements);
}

/// A call less stands before.
pub fn fall_call(emitting: &mut Emitting)
    ensures { emission_of emitting.new ≡ back.fall_call (emission_of emitting.old) }
{
    emitting.calls = fallen(emitting.calls);
}

/// The rest of the block is another.
pub fn put_rest(emitting: &mut Emitting, rest: Rest)
    ensures { emission_of emitting.new ≡ back.with_rest (rest_of rest) (emission_of emitting.old) }
{
    emitting.rest = rest;
}

/// A register becomes a value before the rest.
pub fn put_move(emitting: &mut Emitting, to: u8, from: Source) -> Result<(), Memory>
    ensures { OnOk result (emission_of emitting.new
        ≡ back.setting to (emission_of emitting.old) from) }
{
    put_set(&mut emitting.rest, to, Op::Mov, from, Source::Const(0))
}

/// Takes the last note; where there is none, zeros.
fn take_last(notes: &mut Items<Note>) -> Note
    ensures last { result ≡ back.last_note notes.old }
    ensures front { notes.new ≡ back.front_notes notes.old }
{
    match notes.pop() {
        None => Note {
            head: 0,
            place: 0,
            next: 0,
        },
        Some(note) => note,
    }
}

/// Takes the note of the loop whose end is reached.
pub fn take_note(emitting: &mut Emitting) -> Note
    ensures last { result ≡ back.last_note (emission_of emitting.old).notes }
    ensures front { emission_of emitting.new ≡ back.without_note (emission_of emitting.old) }
{
    take_last(&mut emitting.notes)
}
