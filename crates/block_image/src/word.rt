//! The words of instructions: read.
ghost use Rattle.std.specs.Prelude.{◌≡◌, ℕ, ◌+◌, ◌<◌, ◌^◌};
ghost use Rattle.block_image.specs.inside.WordReading.{sense_at, target_at, signed_at, pair_of};
ghost use Rattle.block_image.specs.inside.WordReading.{targets_at, offset_at, constant_of, general_at};
ghost use Rattle.block_image.specs.inside.WordReading.{immediate_at, load_at, store_at, branch_at};
ghost use Rattle.block_image.specs.inside.WordReading.{constant_at, form_at, op_in, inst_of_word, slot_of_word};

use isa_table::with_numbers;
use trips_isa::{Form, Inst, Op, Sense, Spot, form_of};

#[tactic(auto, unfolding(crate::specs::inside::WordReading::sense_at))]
fn sense_of(number: u32) -> Option<Sense>
    ensures value { result ≡ sense_at number }
{
    match number {
        0 => Some(Sense::Always),
        2 => Some(Sense::OnFalse),
        3 => Some(Sense::OnTrue),
        _ => None,
    }
}

#[tactic(auto, unfolding(crate::specs::inside::WordReading::target_at))]
fn target_of(number: u32) -> Option<Option<Spot>>
    requires { number < 512 }
    ensures value { result ≡ target_at number }
{
    if number == 0 {
        Some(None)
    } else if number < 32 {
        None
    } else if number < 64 {
        Some(Some(Spot::Write((number - 32) as u8)))
    } else if number < 128 {
        None
    } else if number < 256 {
        Some(Some(Spot::Pred((number - 128) as u8)))
    } else if number < 384 {
        Some(Some(Spot::Left((number - 256) as u8)))
    } else {
        Some(Some(Spot::Right((number - 384) as u8)))
    }
}

#[tactic(auto, unfolding(crate::specs::inside::WordReading::signed_at))]
fn signed_of(half: u32, number: u32) -> i32
    requires half { half < 2 ^ 20 }
    requires number { number < half + half }
    ensures value { result ≡ signed_at half number }
{
    if number < half {
        number as i32
    } else {
        number as i32 - (half + half) as i32
    }
}

#[tactic(auto, unfolding(crate::specs::inside::WordReading::pair_of))]
fn both(first: Option<Spot>, second: Option<Spot>) -> Option<(Option<Spot>, Option<Spot>)>
    ensures value { result ≡ pair_of first second }
{
    match (first, second) {
        (Some(spot), second) => Some((Some(spot), second)),
        (None, None) => Some((None, None)),
        (None, Some(_)) => None,
    }
}

#[tactic(auto, unfolding(crate::specs::inside::WordReading::targets_at))]
fn targets_of(word: u32) -> Option<(Option<Spot>, Option<Spot>)>
    ensures value { result ≡ targets_at word }
{
    let first = target_of(word % 512)?;
    let second = target_of(word / 512 % 512)?;
    both(first, second)
}

#[tactic(auto, unfolding(crate::specs::inside::WordReading::offset_at))]
fn offset_of(op: Op, number: u32) -> Option<i32>
    requires { number < 1048576 }
    ensures value { result ≡ offset_at op number }
{
    match op {
        Op::Bro | Op::Callo => Some(signed_of(524288, number)),
        _ => if number == 0 { Some(0) } else { None },
    }
}

#[tactic(auto, unfolding(crate::specs::inside::WordReading::constant_of))]
fn constant_in(op: Op, number: u32) -> i32
    requires { number < 65536 }
    ensures value { result ≡ constant_of op number }
{
    match op {
        Op::Gens => signed_of(32768, number),
        _ => number as i32,
    }
}

#[tactic(auto, unfolding(crate::specs::inside::WordReading::general_at))]
fn general_of(op: Op, word: u32) -> Option<Inst>
    ensures value { result ≡ general_at op word }
{
    let sense = sense_of(word / 8388608 % 4)?;
    let (first, second) = targets_of(word)?;
    Some(Inst {
        op,
        sense,
        imm: 0,
        number: 0,
        first,
        second,
    })
}

#[tactic(auto, unfolding(crate::specs::inside::WordReading::immediate_at))]
fn immediate_of(op: Op, word: u32) -> Option<Inst>
    ensures value { result ≡ immediate_at op word }
{
    let sense = sense_of(word / 8388608 % 4)?;
    let first = target_of(word % 512)?;
    let imm = signed_of(256, word / 512 % 512);
    Some(Inst {
        op,
        sense,
        imm,
        number: 0,
        first,
        second: None,
    })
}

#[tactic(auto, unfolding(crate::specs::inside::WordReading::load_at))]
fn load_of(op: Op, word: u32) -> Option<Inst>
    ensures value { result ≡ load_at op word }
{
    let sense = sense_of(word / 8388608 % 4)?;
    let first = target_of(word % 512)?;
    let imm = signed_of(256, word / 512 % 512);
    let number = (word / 262144 % 32) as u8;
    Some(Inst {
        op,
        sense,
        imm,
        number,
        first,
        second: None,
    })
}

#[tactic(auto, unfolding(crate::specs::inside::WordReading::store_at))]
fn store_of(op: Op, word: u32) -> Option<Inst>
    ensures value { result ≡ store_at op word }
{
    let sense = sense_of(word / 8388608 % 4)?;
    let imm = signed_of(256, word / 512 % 512);
    let number = (word / 262144 % 32) as u8;
    if word % 512 == 0 {
        Some(Inst {
            op,
            sense,
            imm,
            number,
            first: None,
            second: None,
        })
    } else {
        None
    }
}

#[tactic(auto, unfolding(crate::specs::inside::WordReading::branch_at))]
fn branch_of(op: Op, word: u32) -> Option<Inst>
    ensures value { result ≡ branch_at op word }
{
    let sense = sense_of(word / 8388608 % 4)?;
    let imm = offset_of(op, word % 1048576)?;
    let number = (word / 1048576 % 8) as u8;
    Some(Inst {
        op,
        sense,
        imm,
        number,
        first: None,
        second: None,
    })
}

#[tactic(auto, unfolding(crate::specs::inside::WordReading::constant_at))]
fn constant_inst(op: Op, word: u32) -> Option<Inst>
    ensures value { result ≡ constant_at op word }
{
    let first = target_of(word % 512)?;
    let imm = constant_in(op, word / 512 % 65536);
    Some(Inst {
        op,
        sense: Sense::Always,
        imm,
        number: 0,
        first,
        second: None,
    })
}

#[tactic(auto, unfolding(crate::specs::inside::WordReading::form_at))]
fn formed(form: Form, op: Op, word: u32) -> Option<Inst>
    ensures value { result ≡ form_at form op word }
{
    match form {
        Form::General => general_of(op, word),
        Form::Immediate => immediate_of(op, word),
        Form::Load => load_of(op, word),
        Form::Store => store_of(op, word),
        Form::Branch => branch_of(op, word),
        Form::Constant => constant_inst(op, word),
    }
}

#[tactic(auto, unfolding(crate::specs::inside::WordReading::op_in))]
fn op_of(word: u32) -> Option<Op>
    ensures value { result ≡ op_in word }
{
    let opcode = word / 33554432 % 128;
    let extended = if opcode < 3 { word / 262144 % 32 } else { 0 };
    with_numbers(opcode, extended)
}

#[tactic(auto, unfolding(crate::specs::inside::WordReading::inst_of_word))]
fn inst_of(word: u32) -> Option<Inst>
    ensures value { result ≡ inst_of_word word }
{
    let op = op_of(word)?;
    formed(form_of(op), op, word)
}

/// The slot that the word spells, if it spells one.
#[tactic(auto, unfolding(crate::specs::inside::WordReading::slot_of_word))]
pub(crate) fn slot_of(word: u32) -> Option<Option<Inst>>
    ensures value { result ≡ slot_of_word word }
{
    if word == 0 {
        return Some(None);
    }
    let inst = inst_of(word)?;
    Some(Some(inst))
}
