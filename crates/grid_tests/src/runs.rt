//! An image of a text, run on the grid of a seed.
ghost use Rattle.std.specs.Prelude.{IfOk};
ghost use Rattle.trips_isa.specs.Images.{FitsImage};

use block_check::{CheckedImage, ImageRefusal};
use grid_cycle::{Conditions, Ran, run_image};
use std::alloc::{AllocError, Global};
use std::process::Abort;
use std::test::Fail;
use target_asm::assemble;
use trips_isa::{Ending, Image};

/// A text, the budget of blocks, and what its run comes to.
#[derive(Clone, Copy, Debug)]
pub struct Row {
    pub text: &'static str,
    pub budget: u32,
    pub ending: Ending,
    /// the word of register 3
    pub result: u64,
    /// how many blocks are committed
    pub committed: u64,
}

fn image(alloc: Global, text: &str) -> Result<Image, Fail>
    ensures { IfOk result FitsImage }
{
    match assemble(alloc, text.as_bytes()) {
        Ok(image) => Ok(image),
        Err(fault) => Err(Fail::from(fault)),
    }
}

/// The image of a text, checked.
pub fn checked(alloc: Global, text: &str) -> Result<CheckedImage, Fail> {
    let image = image(alloc, text)?;
    match CheckedImage::make(alloc, image) {
        Ok(checked) => Ok(checked),
        Err(ImageRefusal::Bad(_, fault)) => Err(Fail::from(fault)),
        Err(ImageRefusal::Memory) => Err(Fail::from(AllocError)),
    }
}

/// The run of a text on the grid of a seed.
pub fn ran(
    rt: &impl Abort,
    alloc: Global,
    text: &str,
    seed: u64,
    budget: u32,
) -> Result<Ran, Fail> {
    let image = checked(alloc, text)?;
    assert!(rt; budget > 0, "a budget");
    let conditions = Conditions::seeded(seed);
    match run_image(alloc, image, Vec::new(alloc), conditions, budget) {
        Ok(ran) => Ok(ran),
        Err(_) => Err(Fail::from(AllocError)),
    }
}

// A row under a seed.
fn assert_row(rt: &impl Abort, alloc: Global, row: Row, seed: u64) -> Result<(), Fail> {
    let ran = ran(rt, alloc, row.text, seed, row.budget)?;
    let counts = ran.grid.counts();
    let arch = ran.grid.window().arch();
    assert!(rt; ran.ending == row.ending, "seed {seed}: {:?}", ran.ending);
    assert_eq!(rt; arch.register(3), row.result, "seed {seed}: register 3");
    assert_eq!(rt;
        counts.committed,
        row.committed,
        "seed {seed}: committed blocks"
    );
    assert_eq!(rt;
        arch.trace().len() as u64,
        row.committed,
        "seed {seed}: the trace"
    );
    assert!(rt;
        counts.committed.checked_add(counts.flushed) == Some(counts.fetched),
        "seed {seed}: fetched blocks are committed or flushed"
    );
    assert!(rt;
        counts.cycles <= ran.grid.cost(),
        "seed {seed}: within the cost"
    );
    Ok(())
}

/// A row under the seeds 0 to 2.
pub fn assert_run(rt: &impl Abort, alloc: Global, row: Row) -> Result<(), Fail> {
    for seed in 0..3u64 {
        assert_row(rt, alloc, row, seed)?;
    }
    Ok(())
}
