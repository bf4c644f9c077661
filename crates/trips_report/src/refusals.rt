//! The reports of the refusals of images and target texts.

ghost use Rattle.std.specs.Prelude.{◌≡◌, ◌≢◌, ◌++◌, OnOk, IfOk};
ghost use Rattle.isa_table.specs.Spots.{spot_text};
ghost use Rattle.trips_report.specs.Refusals.{at_place, image_text, asm_text, fault_text, check_text};
ghost use Rattle.trips_report.specs.inside.Refusals.{IsFault, refusal_report};

use crate::said::Said;
use base::Memory;
use block_check::CheckFault;
use block_image::ImageFault;
use isa_table::{put_number, put_spot};
use std::alloc::{AllocError, Global};
use target_asm_spec::AsmFault;
use trips_isa::Spot;
use trips_requests::on_line;

/// A fault's number and name, and the place of its first byte. Want of memory is the only error.
pub fn at_place(alloc: Global, name: &[u8], at: u64) -> Result<Vec<u8>, AllocError>
    ensures { IfOk result (λ text. text.items ≡ at_place name.now at) }
{
    let mut text = Vec::from_slice(alloc, name)?;
    text.extend_from_slice(b" at ")?;
    put_number(&mut text, at)?;
    text.push(b'\n')?;
    Ok(text)
}

// The refusal of a file that is no image.
fn image_text(alloc: Global, fault: ImageFault) -> Result<Vec<u8>, AllocError>
    ensures text { IfOk result (λ text. text.items ≡ image_text fault) }
    ensures fault { IfOk result (λ _. fault ≢ ImageFault.Memory) }
{
    match fault {
        ImageFault::Magic => Vec::from_slice(alloc, b"refused image 1 Magic\n"),
        ImageFault::Version => Vec::from_slice(alloc, b"refused image 2 Version\n"),
        ImageFault::Truncated(at) => at_place(alloc, b"refused image 3 Truncated", at),
        ImageFault::Trailing(at) => at_place(alloc, b"refused image 4 Trailing", at),
        ImageFault::BadField(at) => at_place(alloc, b"refused image 5 BadField", at),
        ImageFault::Memory => Err(AllocError),
    }
}

// The refusal of a file that is no target text.
fn asm_text(alloc: Global, fault: AsmFault) -> Result<Vec<u8>, AllocError>
    ensures text { IfOk result (λ text. text.items ≡ asm_text fault) }
    ensures fault { IfOk result (λ _. fault ≢ AsmFault.Memory) }
{
    match fault {
        AsmFault::Syntax(line) => on_line(alloc, "refused asm 1 Syntax", line),
        AsmFault::Range(line) => on_line(alloc, "refused asm 2 Range", line),
        AsmFault::Label(line) => on_line(alloc, "refused asm 3 Label", line),
        AsmFault::Memory => Err(AllocError),
    }
}

// A fault's number and name, and its spot.
fn put_with_spot(out: &mut Vec<u8>, name: &[u8], spot: Spot) -> Result<(), AllocError>
    ensures { OnOk result (out.new.items ≡ out.old.items ++ (name.now ++ spot_text spot)) }
{
    out.extend_from_slice(name)?;
    put_spot(out, spot)
}

// A fault of a block.
fn put_fault(out: &mut Vec<u8>, fault: CheckFault) -> Result<(), AllocError>
    ensures { OnOk result (out.new.items ≡ out.old.items ++ fault_text fault) }
{
    match fault {
        CheckFault::BadTarget(spot) => put_with_spot(out, b"1 BadTarget ", spot),
        CheckFault::BadNumber(spot) => put_with_spot(out, b"2 BadNumber ", spot),
        CheckFault::Cycle => out.extend_from_slice(b"3 Cycle"),
        CheckFault::TooManyCases => out.extend_from_slice(b"4 TooManyCases"),
        CheckFault::TwoTokens(spot) => put_with_spot(out, b"5 TwoTokens ", spot),
        CheckFault::NoToken(spot) => put_with_spot(out, b"6 NoToken ", spot),
        CheckFault::NoExit => out.extend_from_slice(b"7 NoExit"),
        CheckFault::TwoExits => out.extend_from_slice(b"8 TwoExits"),
    }
}

// The refusal of an image whose block of this number has a fault.
fn check_text(alloc: Global, number: u32, fault: CheckFault) -> Result<Vec<u8>, AllocError>
    ensures { IfOk result (λ text. text.items ≡ check_text number fault) }
{
    let mut text = Vec::from_slice(alloc, b"refused check ")?;
    put_fault(&mut text, fault)?;
    text.extend_from_slice(b" block ")?;
    put_number(&mut text, number as u64)?;
    text.push(b'\n')?;
    Ok(text)
}

// The text of a refusal.
fn said_text(alloc: Global, said: Said) -> Result<Vec<u8>, AllocError>
    ensures text { IfOk result (λ text. text.items ≡ refusal_report said) }
    ensures fault { IfOk result (λ _. IsFault said) }
{
    match said {
        Said::Image(fault) => image_text(alloc, fault),
        Said::Asm(fault) => asm_text(alloc, fault),
        Said::Check(number, fault) => check_text(alloc, number, fault),
    }
}

/// The report of a refusal: the stage, the number and the name of the fault, and where it is. Want
/// of memory is the only error, and is answered where `said` is one (`fault`).
pub fn refusal_report(alloc: Global, said: Said) -> Result<Vec<u8>, Memory>
    ensures ok { IfOk result (λ report. report.items ≡ refusal_report said) }
    ensures fault { IfOk result (λ _. IsFault said) }
{
    let report = said_text(alloc, said)?;
    Ok(report)
}
