//! The instruction of a line that is spelled, where each number lies in its field.
ghost use Rattle.std.specs.Prelude.{◌≡◌, ◌<◌, ◌^◌};
ghost use Rattle.target_asm_spec.specs.Judging.{signed_in, unsigned_in, number_of, constant_of};
ghost use Rattle.target_asm_spec.specs.Judging.{offset_of, immediate_of, inst_of};

use crate::line_fields::field;
use crate::places::maybe_spot;
use target_asm_spec::spelled::{Goal, SpelledInst};
use trips_isa::{Form, Inst, Op, form_of};

/// A number from -half to half - 1.
#[tactic(auto, unfolding(target_asm_spec::specs::Judging::signed_in))]
fn signed(half: u32, n: i32) -> Option<i32>
    requires { half < 2 ^ 30 }
    ensures value { result ≡ signed_in half n }
{
    if -(half as i32) <= n && n < half as i32 {
        Some(n)
    } else {
        None
    }
}

#[tactic(auto, unfolding(target_asm_spec::specs::Judging::unsigned_in))]
fn unsigned(values: u32, n: i32) -> Option<i32>
    requires { values < 2 ^ 30 }
    ensures value { result ≡ unsigned_in values n }
{
    if 0 <= n && n < values as i32 {
        Some(n)
    } else {
        None
    }
}

/// The number or the exit.
#[tactic(auto, unfolding(target_asm_spec::specs::Judging::number_of))]
fn number_of(form: Form, n: i32) -> Option<u8>
    ensures value { result ≡ number_of form n }
{
    match form {
        Form::Load => field(n, 32),
        Form::Store => field(n, 32),
        Form::Branch => field(n, 8),
        _ => Some(0),
    }
}

#[tactic(auto, unfolding(target_asm_spec::specs::Judging::constant_of))]
fn constant_of(op: Op, n: i32) -> Option<i32>
    ensures value { result ≡ constant_of op n }
{
    match op {
        Op::Gens => signed(32768, n),
        _ => unsigned(65536, n),
    }
}

fn offset_of(goal: Option<Goal>) -> Option<i32>
    ensures value { result ≡ offset_of goal }
{
    match goal {
        Some(Goal::Offset(n)) => signed(524288, n),
        Some(Goal::Label(_)) => Some(0),
        None => Some(0),
    }
}

/// The immediate, the constant or the offset. The offset to a block by its number is left 0.
#[tactic(auto, unfolding(target_asm_spec::specs::Judging::immediate_of))]
fn immediate_of(form: Form, spelled: SpelledInst) -> Option<i32>
    ensures value { result ≡ immediate_of form spelled }
{
    match form {
        Form::General => Some(0),
        Form::Immediate => signed(256, spelled.numbers.imm),
        Form::Load => signed(256, spelled.numbers.imm),
        Form::Store => signed(256, spelled.numbers.imm),
        Form::Constant => constant_of(spelled.op, spelled.numbers.imm),
        Form::Branch => offset_of(spelled.numbers.goal),
    }
}

/// The instruction, where each number lies in its field.
#[tactic(auto, unfolding(target_asm_spec::specs::Judging::inst_of))]
pub fn judged(spelled: SpelledInst) -> Option<Inst>
    ensures value { result ≡ inst_of spelled }
{
    let Some(number) = number_of(form_of(spelled.op), spelled.numbers.number) else {
        return None;
    };
    let Some(imm) = immediate_of(form_of(spelled.op), spelled) else {
        return None;
    };
    let Some(first) = maybe_spot(spelled.targets.first) else {
        return None;
    };
    match maybe_spot(spelled.targets.second) {
        None => None,
        Some(second) => Some(Inst {
            op: spelled.op,
            sense: spelled.sense,
            imm,
            number,
            first,
            second,
        }),
    }
}
