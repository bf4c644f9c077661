//! Images by the lines of their blocks, and what the checker answers to them.

ghost use Rattle.std.specs.Prelude.{◌≤◌, IfOk};
ghost use Rattle.trips_isa.specs.Images.{FitsImage};

use block_check::{CheckFault, CheckedImage, ImageRefusal};
use std::alloc::{AllocError, Global};
use std::test::Fail;
use target_asm::assemble;
use trips_isa::Image;

/// The image whose first block has this store mask and these lines; further blocks may follow.
pub fn image_of(alloc: Global, mask: u32, lines: &str) -> Result<Image, Fail>
    ensures { IfOk result FitsImage }
{
    let text = format!(in alloc; "trips 1\ndata 0\nblock 0 mask {mask:08x}\n{lines}")?;
    match assemble(alloc, text.as_bytes()) {
        Ok(image) => Ok(image),
        Err(fault) => Err(Fail::from(fault)),
    }
}

/// The first bad block with its fault, and none where all blocks are good.
pub fn first_bad(alloc: Global, mask: u32, lines: &str) -> Result<Option<(u32, CheckFault)>, Fail> {
    let image = image_of(alloc, mask, lines)?;
    match CheckedImage::make(alloc, image) {
        Ok(_) => Ok(None),
        Err(ImageRefusal::Bad(number, fault)) => Ok(Some((number, fault))),
        Err(ImageRefusal::Memory) => Err(Fail::from(AllocError)),
    }
}

/// The lines of a block with 2 to the power of `choices` cases. Each choice is a number that goes
/// through a `mov` to the predicates of two instructions for one write.
pub fn many_cases(alloc: Global, choices: u32) -> Result<String, AllocError> {
    let mut lines = String::new(alloc);
    for i in 0..choices.min(20) {
        let register = 16 + i;
        lines.push_str(format!(in alloc; "W[{i}] write G[{register}]\n")?.as_str())?;
    }
    for i in 0..choices.min(20) {
        add_choice(alloc, &mut lines, i, 6 * i)?;
    }
    let last = 6 * choices.min(20);
    lines.push_str(format!(in alloc; "N[{last}] scall 0\n")?.as_str())?;
    Ok(lines)
}

/// Adds the six slots of a choice, from slot `at` on.
fn add_choice(alloc: Global, lines: &mut String, write: u32, at: u32) -> Result<(), AllocError>
    requires { at ≤ 120 }
{
    let (second, third, fourth) = (at + 1, at + 2, at + 3);
    let (on_true, on_false) = (at + 4, at + 5);
    let guard = format!(in alloc;
        "N[{at}] genu 0 N[{second},0]
N[{second}] mov N[{on_true},p] N[{on_false},p]\n"
    )?;
    let value = format!(in alloc;
        "N[{third}] genu 0 N[{fourth},0]
N[{fourth}] mov N[{on_true},0] N[{on_false},0]\n"
    )?;
    let writes = format!(in alloc;
        "N[{on_true}] mov_t W[{write}]
N[{on_false}] mov_f W[{write}]\n"
    )?;
    lines.push_str(guard.as_str())?;
    lines.push_str(value.as_str())?;
    lines.push_str(writes.as_str())
}

/// The lines of a block in which a number goes through a `mov` in each slot from 2 on.
pub fn chain(alloc: Global) -> Result<String, AllocError> {
    let mut lines = String::from_str(alloc, "W[0] write G[3]\nN[0] genu 0 N[2,0]\nN[1] scall 0\n")?;
    for s in 2u32..127 {
        let next = s + 1;
        lines.push_str(format!(in alloc; "N[{s}] mov N[{next},0]\n")?.as_str())?;
    }
    lines.push_str("N[127] mov W[0]\n")?;
    Ok(lines)
}
