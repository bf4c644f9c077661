//! The reports of the refusals of saving and resuming.

ghost use Rattle.std.specs.Prelude.{◌≡◌, ◌≢◌, IfOk};
ghost use Rattle.machine_save.specs.declared.fault.SaveFault.TheVariants as save;
ghost use Rattle.block_image.specs.declared.fault.ImageFault.TheVariants as image;
ghost use Rattle.trips_requests.specs.Texts.{IsFixed};
ghost use Rattle.trips_grid_answers.specs.Saved.{over_text, save_image_text, save_text};

use block_image::ImageFault;
use machine_save::SaveFault;
use std::alloc::{AllocError, Global};
use trips_report::at_place;
use trips_requests::{Answer, Status};

// The refusal of a save file whose image has a fault.
fn image_text(alloc: Global, fault: ImageFault) -> Result<Vec<u8>, AllocError>
    ensures { IfOk result (λ text. text.items ≡ save_image_text fault) }
{
    match fault {
        ImageFault::Magic => Vec::from_slice(alloc, b"refused save 15 Image\n"),
        ImageFault::Version => Vec::from_slice(alloc, b"refused save 15 Image\n"),
        ImageFault::Truncated(at) => at_place(alloc, b"refused save 15 Image", at),
        ImageFault::Trailing(at) => at_place(alloc, b"refused save 15 Image", at),
        ImageFault::BadField(at) => at_place(alloc, b"refused save 15 Image", at),
        ImageFault::Memory => Err(AllocError),
    }
}

// The refusal of bytes that save nothing; want of memory has none.
fn fault_text(alloc: Global, fault: SaveFault) -> Result<Vec<u8>, AllocError>
    ensures text { IfOk result (λ text. text.items ≡ save_text fault) }
    ensures fault { IfOk result (λ _. fault ≢ save.Memory) }
{
    match fault {
        SaveFault::Magic => Vec::from_slice(alloc, b"refused save 11 Magic\n"),
        SaveFault::Version => Vec::from_slice(alloc, b"refused save 12 Version\n"),
        SaveFault::Truncated(at) => at_place(alloc, b"refused save 13 Truncated", at),
        SaveFault::BadField(at) => at_place(alloc, b"refused save 14 BadField", at),
        SaveFault::Image(fault) => image_text(alloc, fault),
        SaveFault::Bad(_, _) => Vec::from_slice(alloc, b"refused save 16 Bad\n"),
        SaveFault::Memory => Err(AllocError),
    }
}

/// The answer that refuses bytes that save nothing, and says why.
pub fn refused(alloc: Global, fault: SaveFault) -> Result<Answer, AllocError>
    ensures told { IfOk result (λ answer.
        IsFixed Status.Refused (save_text fault) answer.status answer.report.items) }
    ensures fault { IfOk result (λ _. fault ≢ save.Memory) }
{
    let report = fault_text(alloc, fault)?;
    Ok(Answer {
        status: Status::Refused,
        report,
    })
}

/// The answer that a run is over before it is to be saved.
#[tactic(auto, unfolding(crate::specs::Saved::over_text))]
pub fn over(alloc: Global) -> Result<Answer, AllocError>
    ensures { IfOk result (λ answer.
        IsFixed Status.Refused over_text answer.status answer.report.items) }
{
    let report = Vec::from_slice(alloc, b"refused save 1 Over\n")?;
    Ok(Answer {
        status: Status::Refused,
        report,
    })
}
