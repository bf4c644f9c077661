//! Changes of a window's parts, where no window stands while they change one after another.
ghost use Rattle.std.specs.Prelude.{◌≡◌, ◌<◌, ◌≤◌, All, Some, drop, length, take};
ghost use Rattle.reg_bank.specs.inside.Ages.{at, drop_from};
ghost use Rattle.commit_flush.specs.inside.Places.{place_of};
ghost use Rattle.commit_flush.specs.inside.Emptied.{IsEmptied};
ghost use Rattle.commit_flush.specs.inside.Tokens.{AwaitsToken, with_token};

use crate::orders;
use arrayvec::ArrayVec;
use frame_state::{Arrival, Phase, empty_in};
use reg_bank::Banks;
use trips_isa::Token;

// Empties the frames of the numbers from a place of an order on.
fn empty_from(frames: &mut Vec<Phase>, order: &[u8], from: usize)
    requires { All (λ n. n < length frames.old.items) order.now }
    ensures { IsEmptied (drop from order.now) frames.old.items frames.new.items }
{
    for a in from..order.len() {
        empty_in(&mut frames[order[a] as usize]);
    }
}

// Forgets the ages from one on, of which there are eight.
fn forget_from(banks: &mut Banks, age: u8)
    ensures dropped { age < 8 → at banks.new ≡ drop_from (at banks.old) age }
    ensures same { 8 ≤ age → banks.new ≡ banks.old }
{
    if age < 8 {
        banks.drop_from(age);
    }
}

/// Empties the frames of the ages from one on.
pub fn flush_from(frames: &mut Vec<Phase>, order: &mut ArrayVec<u8, 8>, banks: &mut Banks, age: u8)
    requires { All (λ n. n < length frames.old.items) order.old.items }
    ensures frames { IsEmptied (drop age order.old.items) frames.old.items frames.new.items }
    ensures order { order.new.items ≡ take age order.old.items }
    ensures dropped { age < 8 → at banks.new ≡ drop_from (at banks.old) age }
    ensures same { 8 ≤ age → banks.new ≡ banks.old }
{
    empty_from(frames, order.as_slice(), age as usize);
    order.truncate(age as usize);
    forget_from(banks, age);
}

/// Has the banks keep a token that comes to a register of an age, if one does.
pub fn keep_token(banks: &mut Banks, age: Option<u8>, register: Option<u8>, token: Option<Token>)
    requires { AwaitsToken (at banks.old) age register }
    ensures { at banks.new ≡ with_token (at banks.old) age register token }
{
    match age {
        None => {}
        Some(age) => match register {
            None => {}
            Some(register) => match token {
                None => {}
                Some(token) => banks.write(age, register, token),
            },
        },
    }
}

/// Has the banks keep a token that has come to a write of the frame of a number.
#[tactic(auto, using(crate::proofs::TryFacts::no_register))]
pub fn keep_arrival(banks: &mut Banks, order: &[u8], frame: u8, arrival: Arrival)
    requires eight { length order.now ≤ 8 }
    requires awaits { AwaitsToken (at banks.old) (place_of frame order.now) arrival.register }
    ensures { at banks.new
        ≡ with_token (at banks.old) (place_of frame order.now) arrival.register (Some arrival.token) }
{
    if arrival.register.is_some() {
        let age = orders::place_of(order, frame);
        keep_token(banks, age, arrival.register, Some(arrival.token));
    }
}
