//! The line of an instruction, read as it is spelled.
ghost use Rattle.std.specs.Prelude.{◌≡◌, ◌≤◌, length, Some, None};
ghost use Rattle.target_asm_spec.specs.inside.Reading.{ReadsAs};
ghost use Rattle.target_asm_spec.specs.inside.Instructions.{ends_word, letters_in, sense_by, sense_in};
ghost use Rattle.target_asm_spec.specs.inside.Instructions.{sense_fits, jumps, goal_by, goal_in, jump_in};
ghost use Rattle.target_asm_spec.specs.inside.Instructions.{immediate_in};
ghost use Rattle.target_asm_spec.specs.inside.Instructions.{number_and_immediate_in, exit_in, numbers_in};
ghost use Rattle.target_asm_spec.specs.inside.Instructions.{two_targets_in, one_target_in, targets_in};
ghost use Rattle.target_asm_spec.specs.inside.Instructions.{fields_in, sensed_in, operation_in, inst_in};
ghost use Rattle.trips_isa.specs.Forms.{form_of};
ghost use Rattle.trips_isa.specs.declared.form.Form.TheVariants.{Store, Branch};

use crate::line_fields::{after, index, number, spaced};
use crate::places::next;
use isa_table::with_mnemonic;
use target_asm_spec::spelled::{Goal, Numbers, SpelledInst, Targets};
use trips_isa::{Form, Op, Sense, form_of};

fn ends_word(b: u8) -> bool
    ensures value { result ≡ ends_word b }
{
    b == b'_' || (b == b' ' || b == b'\n')
}

/// How many letters the text begins with.
#[tactic(auto, unfolding(target_asm_spec::specs::inside::Instructions::letters_in))]
fn letters(text: &[u8]) -> usize
    ensures value { result ≡ letters_in text.now }
    ensures within { result ≤ length text.now }
{
    for (i, b) in text.iter().enumerate() {
        if ends_word(*b) {
            return i;
        }
    }
    text.len()
}

/// The predicate.
#[tactic(auto, unfolding(target_asm_spec::specs::inside::Instructions::sense_in))]
fn sense(text: &[u8]) -> (Sense, &[u8])
    ensures { sense_in text.now ≡ (result.0, result.1.now) }
{
    match after(text, b"_t") {
        Some(rest) => (Sense::OnTrue, rest),
        None => match after(text, b"_f") {
            Some(rest) => (Sense::OnFalse, rest),
            None => (Sense::Always, text),
        },
    }
}

fn sense_fits(form: Form, sense: Sense) -> bool
    ensures value { result ≡ sense_fits form sense }
{
    match form {
        Form::Constant => match sense {
            Sense::Always => true,
            Sense::OnTrue => false,
            Sense::OnFalse => false,
        },
        _ => true,
    }
}

fn jumps(op: Op) -> bool
    ensures value { result ≡ jumps op }
{
    match op {
        Op::Bro => true,
        Op::Callo => true,
        _ => false,
    }
}

fn label(text: &[u8]) -> Option<(Option<Goal>, &[u8])>
    ensures { ReadsAs (λ r. (r.0, r.1.now)) result (goal_by (Some text.now) text.now) }
{
    match number(text) {
        None => None,
        Some(n) => Some((Some(Goal::Label(n.0)), n.1)),
    }
}

fn offset(text: &[u8]) -> Option<(Option<Goal>, &[u8])>
    ensures { ReadsAs (λ r. (r.0, r.1.now)) result (goal_by None text.now) }
{
    match after(text, b" !") {
        None => None,
        Some(rest) => match number(rest) {
            None => None,
            Some(n) => Some((Some(Goal::Offset(n.0)), n.1)),
        },
    }
}

/// Where a branch goes.
#[tactic(auto, unfolding(target_asm_spec::specs::inside::Instructions::goal_in))]
fn goal(text: &[u8]) -> Option<(Option<Goal>, &[u8])>
    ensures { ReadsAs (λ r. (r.0, r.1.now)) result (goal_in text.now) }
{
    match after(text, b" @") {
        Some(rest) => label(rest),
        None => offset(text),
    }
}

#[tactic(auto, unfolding(target_asm_spec::specs::inside::Instructions::jump_in))]
fn jump(has_goal: bool, text: &[u8]) -> Option<(Option<Goal>, &[u8])>
    ensures { ReadsAs (λ r. (r.0, r.1.now)) result (jump_in has_goal text.now) }
{
    if has_goal {
        goal(text)
    } else {
        Some((None, text))
    }
}

#[tactic(auto, unfolding(target_asm_spec::specs::inside::Instructions::immediate_in))]
fn immediate(text: &[u8]) -> Option<(Numbers, &[u8])>
    ensures { ReadsAs (λ r. (r.0, r.1.now)) result (immediate_in text.now) }
{
    match spaced(text) {
        None => None,
        Some(imm) => Some((
            Numbers {
                number: 0,
                imm: imm.0,
                goal: None,
            },
            imm.1,
        )),
    }
}

#[tactic(auto, unfolding(target_asm_spec::specs::inside::Instructions::number_and_immediate_in))]
fn number_and_immediate(text: &[u8]) -> Option<(Numbers, &[u8])>
    ensures { ReadsAs (λ r. (r.0, r.1.now)) result (number_and_immediate_in text.now) }
{
    let Some(number) = spaced(text) else {
        return None;
    };
    match spaced(number.1) {
        None => None,
        Some(imm) => Some((
            Numbers {
                number: number.0,
                imm: imm.0,
                goal: None,
            },
            imm.1,
        )),
    }
}

#[tactic(auto, unfolding(target_asm_spec::specs::inside::Instructions::exit_in))]
fn exit(op: Op, text: &[u8]) -> Option<(Numbers, &[u8])>
    ensures { ReadsAs (λ r. (r.0, r.1.now)) result (exit_in op text.now) }
{
    let Some(number) = spaced(text) else {
        return None;
    };
    match jump(jumps(op), number.1) {
        None => None,
        Some(goal) => Some((
            Numbers {
                number: number.0,
                imm: 0,
                goal: goal.0,
            },
            goal.1,
        )),
    }
}

/// The numbers of an operation.
#[tactic(auto, unfolding(target_asm_spec::specs::inside::Instructions::numbers_in))]
fn numbers(form: Form, op: Op, text: &[u8]) -> Option<(Numbers, &[u8])>
    ensures { ReadsAs (λ r. (r.0, r.1.now)) result (numbers_in form op text.now) }
{
    match form {
        Form::General => Some((
            Numbers {
                number: 0,
                imm: 0,
                goal: None,
            },
            text,
        )),
        Form::Immediate => immediate(text),
        Form::Constant => immediate(text),
        Form::Load => number_and_immediate(text),
        Form::Store => number_and_immediate(text),
        Form::Branch => exit(op, text),
    }
}

#[tactic(auto, unfolding(target_asm_spec::specs::inside::Instructions::two_targets_in))]
fn two_targets(text: &[u8]) -> Option<(Targets, &[u8])>
    ensures { ReadsAs (λ r. (r.0, r.1.now)) result (two_targets_in text.now) }
{
    let Some(first) = next(text) else {
        return None;
    };
    match next(first.1) {
        None => None,
        Some(second) => Some((
            Targets {
                first: first.0,
                second: second.0,
            },
            second.1,
        )),
    }
}

#[tactic(auto, unfolding(target_asm_spec::specs::inside::Instructions::one_target_in))]
fn one_target(text: &[u8]) -> Option<(Targets, &[u8])>
    ensures { ReadsAs (λ r. (r.0, r.1.now)) result (one_target_in text.now) }
{
    match next(text) {
        None => None,
        Some(first) => Some((
            Targets {
                first: first.0,
                second: None,
            },
            first.1,
        )),
    }
}

#[tactic(auto, unfolding(target_asm_spec::specs::inside::Instructions::targets_in))]
fn no_target(text: &[u8]) -> Option<(Targets, &[u8])>
    ensures store { ReadsAs (λ r. (r.0, r.1.now)) result (targets_in Store text.now) }
    ensures branch { ReadsAs (λ r. (r.0, r.1.now)) result (targets_in Branch text.now) }
{
    Some((
        Targets {
            first: None,
            second: None,
        },
        text,
    ))
}

/// The targets that an operation may have.
#[tactic(auto, unfolding(target_asm_spec::specs::inside::Instructions::targets_in))]
fn targets(form: Form, text: &[u8]) -> Option<(Targets, &[u8])>
    ensures { ReadsAs (λ r. (r.0, r.1.now)) result (targets_in form text.now) }
{
    match form {
        Form::General => two_targets(text),
        Form::Immediate => one_target(text),
        Form::Constant => one_target(text),
        Form::Load => one_target(text),
        Form::Store => no_target(text),
        Form::Branch => no_target(text),
    }
}

/// The numbers, the targets and the end of the line.
#[tactic(auto, unfolding(target_asm_spec::specs::inside::Instructions::fields_in))]
fn fields(slot: i32, op: Op, sense: Sense, text: &[u8]) -> Option<(SpelledInst, &[u8])>
    ensures { ReadsAs (λ r. (r.0, r.1.now)) result (fields_in slot op sense text.now) }
{
    let Some(numbers) = numbers(form_of(op), op, text) else {
        return None;
    };
    let Some(targets) = targets(form_of(op), numbers.1) else {
        return None;
    };
    match after(targets.1, b"\n") {
        None => None,
        Some(rest) => Some((
            SpelledInst {
                slot,
                op,
                sense,
                numbers: numbers.0,
                targets: targets.0,
            },
            rest,
        )),
    }
}

fn sensed(slot: i32, op: Op, sense: Sense, rest: &[u8]) -> Option<(SpelledInst, &[u8])>
    ensures { ReadsAs (λ r. (r.0, r.1.now)) result (sensed_in slot op (sense, rest.now)) }
{
    if sense_fits(form_of(op), sense) {
        fields(slot, op, sense, rest)
    } else {
        None
    }
}

/// The operation and what follows, of an instruction in this slot.
#[tactic(auto, unfolding(target_asm_spec::specs::inside::Instructions::operation_in))]
fn operation(slot: i32, text: &[u8]) -> Option<(SpelledInst, &[u8])>
    ensures { ReadsAs (λ r. (r.0, r.1.now)) result (operation_in slot text.now) }
{
    let (word, rest) = text.split_at(letters(text));
    match with_mnemonic(word) {
        None => None,
        Some(op) => {
            let sense = sense(rest);
            sensed(slot, op, sense.0, sense.1)
        }
    }
}

/// The line of an instruction.
#[tactic(auto, unfolding(target_asm_spec::specs::inside::Instructions::inst_in))]
pub fn inst_line(text: &[u8]) -> Option<(SpelledInst, &[u8])>
    ensures { ReadsAs (λ r. (r.0, r.1.now)) result (inst_in text.now) }
{
    let Some(slot) = index(text, b"N[") else {
        return None;
    };
    match after(slot.1, b" ") {
        None => None,
        Some(rest) => operation(slot.0, rest),
    }
}
