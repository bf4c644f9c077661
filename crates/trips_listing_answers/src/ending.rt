//! How the machine's run of an image ends.

ghost use Rattle.std.specs.Prelude.{◌≡◌, ◌<◌, length, true, false, IfOk};
ghost use Rattle.trips_isa.specs.declared.run.Stepped.TheVariants.{Went};
ghost use Rattle.trips_isa.specs.Machine.{runs};
ghost use Rattle.trips_listing_answers.specs.Traps.{ending_of, end_of};

use base::Memory;
use block_atomic::Arch;
use block_check::CheckedImage;
use std::alloc::Global;
use trips_isa::{Ending, Stepped};

// Whether the run goes on behind a step that was answered so.
fn goes(answer: Stepped) -> bool
    ensures on { result ≡ true → answer ≡ Went }
    ensures over { result ≡ false → answer ≡ Went → ⊥ }
{
    match answer {
        Stepped::Went => true,
        Stepped::Ended => false,
        Stepped::StackFull => false,
        Stepped::Trap(_) => false,
    }
}

// Makes steps up to the budget or to the end of the run.
fn ran(arch: &mut Arch, image: &CheckedImage, budget: u32) -> Stepped
    requires next { arch.old.state.next < length image.now.blocks }
    requires fresh { length arch.old.state.trace ≡ 0 }
    requires budget { arch.old.budget ≡ budget }
    ensures { (arch.new.state, result) ≡ runs image.now.blocks arch.old.state budget }
{
    let mut answer = Stepped::Went;
    let mut made = 0;
    while made < budget && goes(answer) {
        answer = arch.step(image);
        made += 1;
    }
    answer
}

// How a run ended, by the answer to its last step and the block behind it.
fn ending_of(answer: Stepped, next: u32) -> Ending
    ensures { result ≡ ending_of answer next }
{
    match answer {
        Stepped::Went => Ending::Budget,
        Stepped::Ended => Ending::Ended,
        Stepped::StackFull => Ending::StackFull,
        Stepped::Trap(cause) => Ending::Trap { block: next, cause },
    }
}

/// How the machine's run of an image on an input ends within so many blocks. Want of memory is the only error.
pub fn ending_of_run(
    alloc: Global,
    image: &CheckedImage,
    input: Vec<u8>,
    budget: u32,
) -> Result<Ending, Memory>
    ensures { IfOk result (λ e. e ≡ end_of image.now input.items budget) }
{
    let mut arch = Arch::make(alloc, image, input, budget)?;
    let answer = ran(&mut arch, image, budget);
    Ok(ending_of(answer, arch.next()))
}
