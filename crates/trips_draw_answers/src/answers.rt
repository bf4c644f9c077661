//! The drawing of a block as an answer.

ghost use Rattle.std.specs.Prelude.{◌≡◌, ◌<◌, ◌-◌, Some, IfOk, length, map};
ghost use Rattle.trips_requests.specs.Texts.{IsFixed};
ghost use Rattle.trips_draw_answers.specs.Drawn.{IsBlockDrawn, drawing_in, drawing_of, goal_at, no_block_text};

use block_check::CheckedImage;
use block_draw::draw;
use std::alloc::{AllocError, Global};
use trips_isa::{Block, Inst};
use trips_requests::{Answer, Status};

// The answer that there is no such block.
#[tactic(auto, unfolding(crate::specs::Drawn::no_block_text))]
fn no_block(alloc: Global) -> Result<Answer, AllocError>
    ensures { IfOk result (λ answer.
        IsFixed Status.Refused no_block_text answer.status answer.report.items) }
{
    let report = Vec::from_slice(alloc, b"refused draw 1 NoBlock\n")?;
    Ok(Answer {
        status: Status::Refused,
        report,
    })
}

// The block to which the offset in a slot leads.
fn goal_at(image: &CheckedImage, number: u32, inst: Option<Inst>) -> u32
    requires { number < length image.now.blocks }
    ensures { result ≡ goal_at image.now.blocks number inst }
{
    match inst {
        None => 0,
        Some(inst) => image.at_offset(number, inst.imm),
    }
}

// Those of all slots.
fn goals(
    alloc: Global,
    image: &CheckedImage,
    number: u32,
    slots: &[Option<Inst>],
) -> Result<Vec<u32>, AllocError>
    requires { number < length image.now.blocks }
    ensures { IfOk result (λ all. all.items ≡ map (goal_at image.now.blocks number) slots.now) }
{
    let mut all = Vec::new(alloc);
    for inst in slots {
        all.push(goal_at(image, number, *inst))?;
    }
    Ok(all)
}

// The drawing of a block.
fn drawing(
    alloc: Global,
    image: &CheckedImage,
    number: u32,
    block: &Block,
) -> Result<Vec<u8>, AllocError>
    requires { number < length image.now.blocks }
    ensures { IfOk result (λ text. text.items ≡ drawing_in image.now.blocks number block.now) }
{
    let all = goals(alloc, image, number, block.insts.as_slice())?;
    let mut out = Vec::new(alloc);
    draw(&mut out, number, block, &all)?;
    Ok(out)
}

// The answer that is a drawing.
fn drawn(alloc: Global, image: &CheckedImage, number: u32) -> Result<Answer, AllocError>
    requires { number < length image.now.blocks }
    ensures { IfOk result (λ answer. (Some answer.report.items ≡ drawing_of image.now.blocks number)
        × (answer.status ≡ Status.Ended)) }
{
    let report = drawing(alloc, image, number, image.at(number).block())?;
    Ok(Answer {
        status: Status::Ended,
        report,
    })
}

/// What `draw` is answered of the last of so many blocks of an image. Want of memory is the only error.
pub fn block_drawn(alloc: Global, image: &CheckedImage, most: u32) -> Result<Answer, AllocError>
    requires { 0 < most }
    ensures { IfOk result (λ answer.
        IsBlockDrawn image.now.blocks (most - 1) answer.status answer.report.items) }
{
    let number = most - 1;
    if number < image.count() {
        drawn(alloc, image, number)
    } else {
        no_block(alloc)
    }
}
