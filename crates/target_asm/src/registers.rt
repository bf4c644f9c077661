//! The lines of blocks, reads and writes, read.
ghost use Rattle.std.specs.Prelude.{◌≡◌};
ghost use Rattle.target_asm_spec.specs.inside.Reading.{ReadsAs};
ghost use Rattle.target_asm_spec.specs.inside.Registers.{is_operand, same_number, same_operand, second_fits};
ghost use Rattle.target_asm_spec.specs.inside.Registers.{same_text};
ghost use Rattle.target_asm_spec.specs.inside.Registers.{operands_fit, operands_in, read_in, write_line_in};
ghost use Rattle.target_asm_spec.specs.Registers.{read_of};
ghost use Rattle.target_asm_spec.specs.inside.Registers.{block_line_in};

use crate::line_fields::{after, field, index, number, word};
use crate::places::{maybe_spot, next, spot, target};
use target_asm_spec::spelled::{SpelledBlock, SpelledRead, SpelledTarget, SpelledWrite};
use trips_isa::ReadSlot;

fn is_operand(target: SpelledTarget) -> bool
    ensures value { result ≡ is_operand target }
{
    match target {
        SpelledTarget::Left(_) => true,
        SpelledTarget::Right(_) => true,
        SpelledTarget::Pred(_) => false,
        SpelledTarget::Write(_) => false,
    }
}

fn same_number(n: i32, m: i32) -> bool
    ensures value { result ≡ same_number n m }
{
    n == m
}

fn same_operand(first: SpelledTarget, second: SpelledTarget) -> bool
    ensures value { result ≡ same_operand first second }
{
    match first {
        SpelledTarget::Left(n) => match second {
            SpelledTarget::Left(m) => same_number(n, m),
            _ => false,
        },
        SpelledTarget::Right(n) => match second {
            SpelledTarget::Right(m) => same_number(n, m),
            _ => false,
        },
        _ => false,
    }
}

/// Whether the next target of `rest` is spelled as the one between `text` and `rest`.
#[tactic(auto, unfolding(target_asm_spec::specs::inside::Registers::same_text))]
fn same_text(text: &[u8], rest: &[u8]) -> bool
    ensures value { result ≡ same_text text.now rest.now }
{
    let size = text.len().saturating_sub(rest.len());
    let Some(second) = after(rest, b" ") else {
        return false;
    };
    match after(second, &text[..size]) {
        None => false,
        Some(_) => true,
    }
}

#[tactic(auto, unfolding(target_asm_spec::specs::inside::Registers::second_fits))]
fn second_fits(alike: bool, first: SpelledTarget, second: Option<SpelledTarget>) -> bool
    ensures value { result ≡ second_fits alike first second }
{
    match second {
        None => true,
        Some(second) => is_operand(second) && !(same_operand(first, second) && alike),
    }
}

/// Whether a read may name these: one operand, or two different ones.
#[tactic(auto, unfolding(target_asm_spec::specs::inside::Registers::operands_fit))]
fn operands_fit(alike: bool, first: SpelledTarget, second: Option<SpelledTarget>) -> bool
    ensures value { result ≡ operands_fit alike first second }
{
    is_operand(first) && second_fits(alike, first, second)
}

/// The operands of a read and the end of its line, after its register.
#[tactic(auto, unfolding(target_asm_spec::specs::inside::Registers::operands_in))]
fn operands(number: i32, register: i32, text: &[u8]) -> Option<(SpelledRead, &[u8])>
    ensures { ReadsAs (λ r. (r.0, r.1.now)) result (operands_in number register text.now) }
{
    let Some(targets) = after(text, b" ") else {
        return None;
    };
    let Some(first) = target(targets) else {
        return None;
    };
    let Some(second) = next(first.1) else {
        return None;
    };
    let Some(rest) = after(second.1, b"\n") else {
        return None;
    };
    if operands_fit(same_text(targets, first.1), first.0, second.0) {
        Some((
            SpelledRead {
                number,
                register,
                first: first.0,
                second: second.0,
            },
            rest,
        ))
    } else {
        None
    }
}

/// The line of a read.
#[tactic(auto, unfolding(target_asm_spec::specs::inside::Registers::read_in))]
pub fn read_line(text: &[u8]) -> Option<(SpelledRead, &[u8])>
    ensures { ReadsAs (λ r. (r.0, r.1.now)) result (read_in text.now) }
{
    let Some(n) = index(text, b"R[") else {
        return None;
    };
    match index(n.1, b" read G[") {
        None => None,
        Some(g) => operands(n.0, g.0, g.1),
    }
}

/// The line of a write.
#[tactic(auto, unfolding(target_asm_spec::specs::inside::Registers::write_line_in))]
pub fn write_line(text: &[u8]) -> Option<(SpelledWrite, &[u8])>
    ensures { ReadsAs (λ r. (r.0, r.1.now)) result (write_line_in text.now) }
{
    let Some(n) = index(text, b"W[") else {
        return None;
    };
    let Some(g) = index(n.1, b" write G[") else {
        return None;
    };
    match after(g.1, b"\n") {
        None => None,
        Some(rest) => Some((
            SpelledWrite {
                number: n.0,
                register: g.0,
            },
            rest,
        )),
    }
}

/// The line of a block.
#[tactic(auto, unfolding(target_asm_spec::specs::inside::Registers::block_line_in))]
pub fn block_line(text: &[u8]) -> Option<(SpelledBlock, &[u8])>
    ensures { ReadsAs (λ r. (r.0, r.1.now)) result (block_line_in text.now) }
{
    let Some(rest) = after(text, b"block ") else {
        return None;
    };
    let Some(n) = number(rest) else {
        return None;
    };
    let Some(rest) = after(n.1, b" mask ") else {
        return None;
    };
    let Some(mask) = word(rest) else {
        return None;
    };
    match after(mask.1, b"\n") {
        None => None,
        Some(rest) => Some((
            SpelledBlock {
                number: n.0,
                mask: mask.0,
            },
            rest,
        )),
    }
}

/// The read, where each number lies in its field.
#[tactic(auto, unfolding(target_asm_spec::specs::Registers::read_of))]
pub fn judged_read(spelled: SpelledRead) -> Option<ReadSlot>
    ensures value { result ≡ read_of spelled }
{
    let Some(register) = field(spelled.register, 128) else {
        return None;
    };
    let Some(first) = spot(spelled.first) else {
        return None;
    };
    match maybe_spot(spelled.second) {
        None => None,
        Some(second) => Some(ReadSlot {
            register,
            first,
            second,
        }),
    }
}
