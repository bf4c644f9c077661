//! Saving a run behind so many blocks.

ghost use Rattle.std.specs.Prelude.{◌≡◌, ◌<◌, ◌≤◌, ◌⊎◌, All, IfOk, length};
ghost use Rattle.trips_isa.specs.declared.block.Image.{Image};
ghost use Rattle.trips_isa.specs.declared.run.Ending.TheVariants as ending;
ghost use Rattle.block_check.specs.Faults.{IsGood};
ghost use Rattle.block_image.specs.Spelling.{ImageBytes};
ghost use Rattle.grid_cycle.specs.Engines.{grid_of};
ghost use Rattle.machine_save.specs.Limits.{most_output, most_rest};
ghost use Rattle.machine_save.specs.Spelling.{SaveBytes};
ghost use Rattle.trips_requests.specs.Texts.{IsFixed};
ghost use Rattle.trips_grid_answers.specs.Saved.{over_text, IsSavedRun};

use crate::gridded::ran_image;
use crate::refusals::over;
use base::Items;
use block_atomic::Arch;
use block_check::CheckedImage;
use grid_cycle::{Conditions, Ran};
use machine_save::{image_bytes, save_with};
use std::alloc::{AllocError, Global};
use trips_isa::Ending;
use trips_requests::{Answer, Status};

// The bytes of a checked image.
fn part_of(alloc: Global, image: &CheckedImage) -> Result<Vec<u8>, AllocError>
    ensures ok { IfOk result (λ bytes. ImageBytes image.now bytes.items) }
    ensures good { All IsGood image.now.blocks }
{
    match image_bytes(alloc, image) {
        Ok(bytes) => Ok(bytes),
        Err(_) => Err(AllocError),
    }
}

// The answer that a state is saved, with the bytes of its image.
fn state_saved(alloc: Global, part: &[u8], arch: &Arch) -> Result<Answer, AllocError>
    requires output { length arch.now.state.output ≤ most_output }
    requires rest { length arch.now.state.rest ≤ most_rest }
    ensures { IfOk result (λ answer. (answer.status ≡ Status.Ended)
        × ((image : Image) → ImageBytes image part.now → All IsGood image.blocks
        → arch.now.state.next < length image.blocks → SaveBytes image arch.now.state answer.report.items)) }
{
    match save_with(alloc, part, arch) {
        Ok(report) => Ok(Answer {
            status: Status::Ended,
            report,
        }),
        Err(_) => Err(AllocError),
    }
}

// The state is saved where the run was stopped by its budget.
fn saved_answer(alloc: Global, part: &[u8], ran: &Ran) -> Result<Answer, AllocError>
    requires output { length (grid_of ran.now.grid).window.state.output ≤ most_output }
    requires rest { length (grid_of ran.now.grid).window.state.rest ≤ most_rest }
    ensures saved { IfOk result (λ answer. ran.now.ending ≡ ending.Budget → (answer.status ≡ Status.Ended)
        × ((image : Image) → ImageBytes image part.now → All IsGood image.blocks
        → (grid_of ran.now.grid).window.state.next < length image.blocks
        → SaveBytes image (grid_of ran.now.grid).window.state answer.report.items)) }
    ensures over { IfOk result (λ answer. (ran.now.ending ≡ ending.Budget → ⊥)
        → IsFixed Status.Refused over_text answer.status answer.report.items) }
{
    match ran.ending {
        Ending::Budget => state_saved(alloc, part, ran.grid.window().arch()),
        Ending::Ended => over(alloc),
        Ending::StackFull => over(alloc),
        Ending::Trap { .. } => over(alloc),
    }
}

/// Runs an image on an input, on the grid of a seed, for `at` blocks, and saves what it has come to: the bytes of the
/// save file, or that the run is over by then. Want of memory is the only error.
pub fn saved_run(
    alloc: Global,
    image: CheckedImage,
    input: Items<u8>,
    seed: u64,
    at: u32,
) -> Result<Answer, AllocError>
    requires some { 0 < at }
    requires few { at ≤ most_output }
    requires input { length input ≤ most_rest }
    ensures { IfOk result (λ answer. IsSavedRun image input at answer.status answer.report.items) }
{
    let _ = image.count();
    let part = part_of(alloc, &image)?;
    let ran = ran_image(alloc, image, input, Conditions::seeded(seed), at)?;
    saved_answer(alloc, &part, &ran)
}
