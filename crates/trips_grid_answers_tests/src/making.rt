//! Images of texts, their runs, and save files of these.

ghost use Rattle.std.specs.Prelude.{IfOk};
ghost use Rattle.trips_isa.specs.Images.{FitsImage};

use base::Items;
use block_check::{CheckedImage, ImageRefusal};
use grid_cycle::Conditions;
use std::alloc::{AllocError, Global};
use std::process::Abort;
use std::test::Fail;
use target_asm::assemble;
use trips_grid_answers::{resumed, run_image, saved_run};
use trips_isa::Image;
use trips_report::Show;
use trips_requests::Answer;

/// A text and the input of its run.
pub type Program = (&'static str, &'static [u8]);

/// A store of the byte 171 in the first block, and a load of eight bytes in the second.
pub const STORED: &str = "trips 1
data 0
block 0 mask 00000001
N[0] genu 7 N[2,0]
N[1] genu 1 N[2,1]
N[2] divu N[4,0]
N[3] genu 171 N[4,1]
N[4] sb 0 0
N[5] bro 0 @1
block 1 mask 00000000
W[0] write G[0]
W[1] write G[3]
N[0] genu 0 N[1,0]
N[1] ld 0 0 W[1]
N[2] genu 3 W[0]
N[3] scall 0
";

/// Each byte of input is put out, one more than it, until the input ends; block 4 ends the run.
pub const ECHOES: &str = "trips 1
data 1
07
block 0 mask 00000000
W[0] write G[0]
N[0] genu 2 W[0]
N[1] scall 0
block 1 mask 00000000
R[0] read G[3] N[0,0]
N[0] tlti 0 N[1,0]
N[1] mov N[2,p] N[3,p]
N[2] bro_t 0 @4
N[3] bro_f 1 @2
block 2 mask 00000000
R[0] read G[3] N[0,0]
W[0] write G[3]
W[1] write G[0]
N[0] addi 1 W[0]
N[1] genu 1 W[1]
N[2] scall 0
block 3 mask 00000000
N[0] bro 0 @0
block 4 mask 00000000
W[0] write G[0]
W[1] write G[3]
N[0] genu 3 W[0]
N[1] genu 9 W[1]
N[2] scall 0
";

fn image(alloc: Global, text: &str) -> Result<Image, Fail>
    ensures { IfOk result FitsImage }
{
    match assemble(alloc, text.as_bytes()) {
        Ok(image) => Ok(image),
        Err(fault) => Err(Fail::from(fault)),
    }
}

/// The image of a text, checked.
pub fn checked(alloc: Global, text: &str) -> Result<CheckedImage, Fail> {
    let image = image(alloc, text)?;
    match CheckedImage::make(alloc, image) {
        Ok(checked) => Ok(checked),
        Err(ImageRefusal::Bad(_, fault)) => Err(Fail::from(fault)),
        Err(ImageRefusal::Memory) => Err(Fail::from(AllocError)),
    }
}

/// All that may be shown of a run, but for what it took.
pub const SHOWN: Show = Show {
    regs: true,
    trace: false,
    cycles: false,
    stats: false,
    events: None,
};

/// The answer of saving a run behind so many blocks.
pub fn saved(
    rt: &impl Abort,
    alloc: Global,
    program: Program,
    seed: u64,
    at: u32,
) -> Result<Answer, Fail> {
    let image = checked(alloc, program.0)?;
    let input = Items::from_slice(alloc, program.1)?;
    assert!(rt; at > 0 && at <= 4_000_000, "saved behind {at}");
    assert!(rt; input.len() <= 1_048_576, "a short input");
    Ok(saved_run(alloc, image, input, seed, at)?)
}

/// The answer of going on from a save file.
pub fn gone_on(
    rt: &impl Abort,
    alloc: Global,
    bytes: &[u8],
    seed: u64,
    most: u32,
    show: Show,
) -> Result<Answer, Fail> {
    assert!(rt; most > 0, "a budget");
    let conditions = Conditions::seeded(seed);
    Ok(resumed(alloc, bytes, conditions, most, show)?)
}

/// The answer of the whole run under some conditions.
pub fn whole_under(
    rt: &impl Abort,
    alloc: Global,
    program: Program,
    conditions: Conditions,
    most: u32,
    show: Show,
) -> Result<Answer, Fail> {
    let image = checked(alloc, program.0)?;
    let input = Items::from_slice(alloc, program.1)?;
    assert!(rt; most > 0, "a budget");
    Ok(run_image(alloc, image, input, conditions, most, show)?)
}

/// The answer of the whole run under the conditions of a seed.
pub fn whole(
    rt: &impl Abort,
    alloc: Global,
    program: Program,
    seed: u64,
    most: u32,
    show: Show,
) -> Result<Answer, Fail> {
    whole_under(rt, alloc, program, Conditions::seeded(seed), most, show)
}
