//! Images of texts, and the traces of their runs.

ghost use Rattle.std.specs.Prelude.{IfOk};
ghost use Rattle.trips_isa.specs.Images.{FitsImage};

use block_check::{CheckedImage, ImageRefusal};
use std::alloc::{AllocError, Global};
use std::test::Fail;
use target_asm::assemble;
use trace_verify::{Verifier, record_run};
use trips_isa::{Ending, Image};

/// Two constants are written, and the run ends.
pub const ROW: &str = "trips 1
data 0
block 0 mask 00000000
W[0] write G[0]
W[1] write G[3]
N[0] genu 3 W[0]
N[1] genu 7 W[1]
N[2] scall 0
";

/// A letter is put out, an input byte is asked for, and the run ends.
pub const CALLS: &str = "trips 1
data 0
block 0 mask 00000000
W[0] write G[0]
W[1] write G[3]
N[0] genu 1 W[0]
N[1] genu 65 W[1]
N[2] scall 0
block 1 mask 00000000
W[0] write G[0]
N[0] genu 2 W[0]
N[1] scall 0
block 2 mask 00000000
R[0] read G[3] N[2,0]
W[0] write G[0]
W[1] write G[4]
N[0] genu 3 W[0]
N[1] scall 0
N[2] addi 5 W[1]
";

/// The second block divides by 0.
pub const DIVIDES: &str = "trips 1
data 0
block 0 mask 00000000
W[0] write G[5]
N[0] genu 7 W[0]
N[1] bro 0 @1
block 1 mask 00000000
R[0] read G[5] N[1,0]
W[0] write G[5]
N[0] genu 0 N[1,1]
N[1] divu W[0]
N[2] bro 0 @0
";

/// A store of a null and of a word, one of two exits by turns, and no end.
pub const TURNS: &str = "trips 1
data 0
block 0 mask 00000001
R[0] read G[5] N[0,0] N[1,0]
W[0] write G[5]
N[0] addi 1 W[0]
N[1] andi 1 N[2,0]
N[2] mov N[3,p] N[4,p]
N[3] bro_t 0 @0
N[4] bro_f 1 @0
N[5] genu 8 N[7,0]
N[6] null N[7,1]
N[7] sb 0 0
";

fn image(alloc: Global, text: &str) -> Result<Image, Fail>
    ensures { IfOk result FitsImage }
{
    match assemble(alloc, text.as_bytes()) {
        Ok(image) => Ok(image),
        Err(fault) => Err(Fail::from(fault)),
    }
}

/// The image of a text, checked.
pub fn checked(alloc: Global, text: &str) -> Result<CheckedImage, Fail> {
    let image = image(alloc, text)?;
    match CheckedImage::make(alloc, image) {
        Ok(checked) => Ok(checked),
        Err(ImageRefusal::Bad(_, fault)) => Err(Fail::from(fault)),
        Err(ImageRefusal::Memory) => Err(Fail::from(AllocError)),
    }
}

/// The trace of the run of a text on an input, and how the run ends.
pub fn recorded(
    alloc: Global,
    text: &str,
    input: &[u8],
    budget: u32,
) -> Result<(Vec<u8>, Ending), Fail> {
    let image = checked(alloc, text)?;
    match record_run(alloc, &image, Vec::from_slice(alloc, input)?, budget) {
        Ok((bytes, ending, _)) => Ok((bytes, ending)),
        Err(_) => Err(Fail::from(AllocError)),
    }
}

/// A verifier of traces of the run of a text on an input.
pub fn verifier(alloc: Global, text: &str, input: &[u8], budget: u32) -> Result<Verifier, Fail> {
    let image = checked(alloc, text)?;
    match Verifier::make(alloc, image, Vec::from_slice(alloc, input)?, budget) {
        Ok(verifier) => Ok(verifier),
        Err(_) => Err(Fail::from(AllocError)),
    }
}
