//! What is told of images and target texts, under the name of their file.

ghost use Rattle.std.specs.Prelude.{◌≡◌, ◌≢◌, ◌≤◌, ◌++◌, OnOk, IfOk, length, string_bytes};
ghost use Rattle.isa_table.specs.Spots.{spot_text};
ghost use Rattle.trips_isa.specs.Fits.{FitsBlock};
ghost use Rattle.trips_explain_answers.specs.FileTold as told;

use block_check::{CheckFault, CheckedImage};
use block_image::ImageFault;
use isa_table::put_spot;
use std::alloc::{AllocError, Global};
use target_asm::AsmFault;
use trips_isa::{Block, Inst, Spot};

// Of a fault at a byte of an image.
fn at_byte(
    alloc: Global,
    file: &str,
    at: u64,
    name: &str,
    said: &str,
) -> Result<Vec<u8>, AllocError>
    ensures { IfOk result (λ text. text.items ≡ told.at_byte file.now at name.now said.now) }
{
    let text = format!(in alloc; "{file}: byte {at}: {name}: {said}\n")?;
    Vec::from_slice(alloc, text.as_bytes())
}

// Of a fault on a line of a target text.
fn at_line(
    alloc: Global,
    file: &str,
    at: u32,
    name: &str,
    said: &str,
) -> Result<Vec<u8>, AllocError>
    ensures { IfOk result (λ text. text.items ≡ told.at_line file.now at name.now said.now) }
{
    let text = format!(in alloc; "{file}:{at}: {name}: {said}\n")?;
    Vec::from_slice(alloc, text.as_bytes())
}

/// What is told of bytes that are no image.
pub fn image_told(alloc: Global, file: &str, fault: ImageFault) -> Result<Vec<u8>, AllocError>
    ensures text { IfOk result (λ text. text.items ≡ told.image_told file.now fault) }
    ensures fault { IfOk result (λ _. fault ≢ ImageFault.Memory) }
{
    match fault {
        ImageFault::Magic => at_byte(
            alloc,
            file,
            0,
            "image Magic",
            "an image begins with TRIPSIMG; compile and asm write images",
        ),
        ImageFault::Version => at_byte(
            alloc,
            file,
            8,
            "image Version",
            "the version of an image is 1, in four bytes",
        ),
        ImageFault::Truncated(at) => at_byte(
            alloc,
            file,
            at,
            "image Truncated",
            "the file ends here, and a field or a chunk is not whole",
        ),
        ImageFault::Trailing(at) => at_byte(
            alloc,
            file,
            at,
            "image Trailing",
            "the image ends here, and more bytes follow",
        ),
        ImageFault::BadField(at) => at_byte(
            alloc,
            file,
            at,
            "image BadField",
            "the field that begins here holds what it may not",
        ),
        ImageFault::Memory => Err(AllocError),
    }
}

/// What is told of a text that is no target text.
pub fn asm_told(alloc: Global, file: &str, fault: AsmFault) -> Result<Vec<u8>, AllocError>
    ensures text { IfOk result (λ text. text.items ≡ told.asm_told file.now fault) }
    ensures fault { IfOk result (λ _. fault ≢ AsmFault.Memory) }
{
    match fault {
        AsmFault::Syntax(at) => at_line(
            alloc,
            file,
            at,
            "asm Syntax",
            "no line that may stand here is spelled so; dis writes such lines",
        ),
        AsmFault::Range(at) => at_line(
            alloc,
            file,
            at,
            "asm Range",
            "a number of this line does not fit its field",
        ),
        AsmFault::Label(at) => at_line(
            alloc,
            file,
            at,
            "asm Label",
            "this line names a block that the text does not have",
        ),
        AsmFault::Memory => Err(AllocError),
    }
}

// A fault's name, and its spot.
fn put_with_spot(out: &mut Vec<u8>, name: &[u8], spot: Spot) -> Result<(), AllocError>
    ensures { OnOk result (out.new.items ≡ out.old.items ++ (name.now ++ spot_text spot)) }
{
    out.extend_from_slice(name)?;
    put_spot(out, spot)
}

// The name of a fault of a block, and its spot where it has one.
fn put_name(out: &mut Vec<u8>, fault: CheckFault) -> Result<(), AllocError>
    ensures { OnOk result (out.new.items ≡ out.old.items ++ told.check_name fault) }
{
    match fault {
        CheckFault::BadTarget(spot) => put_with_spot(out, b"BadTarget ", spot),
        CheckFault::BadNumber(spot) => put_with_spot(out, b"BadNumber ", spot),
        CheckFault::Cycle => out.extend_from_slice(b"Cycle"),
        CheckFault::TooManyCases => out.extend_from_slice(b"TooManyCases"),
        CheckFault::TwoTokens(spot) => put_with_spot(out, b"TwoTokens ", spot),
        CheckFault::NoToken(spot) => put_with_spot(out, b"NoToken ", spot),
        CheckFault::NoExit => out.extend_from_slice(b"NoExit"),
        CheckFault::TwoExits => out.extend_from_slice(b"TwoExits"),
    }
}

// What is said of a fault of a block.
fn check_said(fault: CheckFault) -> &'static str
    ensures { result.now ≡ told.check_said fault }
{
    match fault {
        CheckFault::BadTarget(_) => "it names an operand, a predicate or a write that is not there",
        CheckFault::BadNumber(_) => "its load or store number, or its register, is another's",
        CheckFault::Cycle => "tokens, loads and stores wait for each other in a circle",
        CheckFault::TooManyCases => "its predicates make more than 256 cases",
        CheckFault::TwoTokens(_) => "it gets two tokens in some case",
        CheckFault::NoToken(_) => "it gets no token in some case",
        CheckFault::NoExit => "no branch fires in some case",
        CheckFault::TwoExits => "two branches fire in some case",
    }
}

// What stands before the name of a fault of a block.
fn block_head(alloc: Global, file: &str, number: u32) -> Result<String, AllocError>
    ensures { IfOk result (λ text. string_bytes text ≡ told.block_head file.now number) }
{
    format!(in alloc; "{file}: block {number}: check ")
}

/// What is told of an image whose block of this number has a fault.
pub fn check_told(
    alloc: Global,
    file: &str,
    number: u32,
    fault: CheckFault,
) -> Result<Vec<u8>, AllocError>
    ensures { IfOk result (λ text. text.items ≡ told.check_told file.now number fault) }
{
    let head = block_head(alloc, file, number)?;
    let mut text = Vec::from_slice(alloc, head.as_bytes())?;
    put_name(&mut text, fault)?;
    text.extend_from_slice(b": ")?;
    text.extend_from_slice(check_said(fault).as_bytes())?;
    text.push(b'\n')?;
    Ok(text)
}

// The instructions among some slots.
fn filled(slots: &[Option<Inst>]) -> usize
    ensures value { result ≡ told.filled slots.now }
    ensures within { result ≤ length slots.now }
{
    let mut count = 0usize;
    let mut rest = slots;
    while let [slot, more @ ..] = rest {
        if slot.is_some() {
            count += 1;
        }
        rest = more;
    }
    count
}

// The instructions of a block.
fn block_size(block: &Block) -> u64
    requires { FitsBlock block.now }
    ensures value { result ≡ told.block_size block.now }
    ensures few { result ≤ 128 }
{
    filled(block.insts.as_slice()) as u64
}

// The instructions of an image.
fn instructions_in(image: &CheckedImage) -> u64
    ensures { result ≡ told.instructions_in image.now.blocks }
{
    let mut sum: u64 = 0;
    for number in 0..image.count() {
        sum += block_size(image.at(number).block());
    }
    sum
}

// The text that tells how many good blocks and instructions there are.
fn good_text(
    alloc: Global,
    file: &str,
    blocks: u32,
    instructions: u64,
) -> Result<String, AllocError>
    ensures { IfOk result (λ text. string_bytes text ≡ told.good_told file.now blocks instructions) }
{
    format!(in alloc; "{file}: accepted, blocks {blocks}, instructions {instructions}\n")
}

/// What is told of an image of good blocks.
pub fn good_told(alloc: Global, file: &str, image: &CheckedImage) -> Result<Vec<u8>, AllocError>
    ensures { IfOk result (λ text. text.items
        ≡ told.good_told file.now (length image.now.blocks) (told.instructions_in image.now.blocks)) }
{
    let text = good_text(alloc, file, image.count(), instructions_in(image))?;
    Vec::from_slice(alloc, text.as_bytes())
}
