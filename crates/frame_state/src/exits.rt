//! What a branch that fires makes known.
ghost use Rattle.std.specs.Prelude.{◌≡◌, ◌<◌, length};
ghost use Rattle.trips_isa.specs.Outcomes.{to_address, next_of};
ghost use Rattle.commit_flush_spec.specs.Ends.{exit_by};
ghost use Rattle.frame_state.specs.inside.Held.{exit_of};

use crate::parts::Departure;
use block_check::CheckedImage;
use trips_isa::{Inst, Op, Token};

// The block at an address, else block 0.
fn addressed(image: &CheckedImage, token: Token) -> u32
    ensures { result ≡ to_address image.now.blocks token }
{
    match token {
        Token::Word(address) => {
            if address % 128 == 0 {
                image.block_at(address / 128)
            } else {
                0
            }
        }
        Token::Null => 0,
    }
}

// The block that follows a block by the branch that it takes.
fn successor(image: &CheckedImage, number: u32, leaving: Option<(Inst, Token)>) -> u32
    requires { number < length image.now.blocks }
    ensures { result ≡ next_of image.now.blocks number leaving }
{
    let Some((inst, token)) = leaving else {
        return 0;
    };
    match inst.op {
        Op::Bro | Op::Callo => image.at_offset(number, inst.imm),
        Op::Br | Op::Ret => addressed(image, token),
        Op::Scall => image.following(number),
        _ => 0,
    }
}

/// What the branch that a block takes makes known.
pub fn departure(
    image: &CheckedImage,
    number: u32,
    leaving: Option<(Inst, Token)>,
) -> Option<Departure>
    requires number { number < length image.now.blocks }
    ensures value { exit_of result ≡ exit_by image.now.blocks number leaving }
{
    let successor = successor(image, number, leaving);
    match leaving {
        None => None,
        Some((inst, _)) => Some(Departure {
            exit: inst.number,
            system: matches!(inst.op, Op::Scall),
            successor,
        }),
    }
}
