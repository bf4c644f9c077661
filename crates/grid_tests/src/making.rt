//! A grid over the image of a text, at its stated start.

ghost use Rattle.std.specs.Prelude.{◌≡◌, IfOk};
ghost use Rattle.trips_isa.specs.Images.{FitsImage};
ghost use Rattle.grid_parts.specs.Seen.{seen};
ghost use Rattle.grid_machine.specs.inside.Counted.{IsCounted};

use base::Memory;
use block_check::{CheckedImage, ImageRefusal};
use block_predict::Predictor;
use commit_flush::Window;
use grid_machine::GridWindow;
use grid_parts::{Grid, State};
use std::alloc::{AllocError, Global};
use std::test::Fail;
use target_asm::assemble;
use trips_isa::Image;

fn image(alloc: Global, text: &str) -> Result<Image, Fail>
    ensures { IfOk result FitsImage }
{
    match assemble(alloc, text.as_bytes()) {
        Ok(image) => Ok(image),
        Err(fault) => Err(Fail::from(fault)),
    }
}

/// The image of a text, checked.
pub fn checked(alloc: Global, text: &str) -> Result<CheckedImage, Fail> {
    let image = image(alloc, text)?;
    match CheckedImage::make(alloc, image) {
        Ok(checked) => Ok(checked),
        Err(ImageRefusal::Bad(_, fault)) => Err(Fail::from(fault)),
        Err(ImageRefusal::Memory) => Err(Fail::from(AllocError)),
    }
}

// The grid at its start, with no input.
fn begun<W: Copy>(
    alloc: Global,
    image: CheckedImage,
    predictor: Predictor,
    weather: W,
    budget: u32,
) -> Result<Grid<GridWindow, W>, Memory>
    ensures counted { IfOk result (λ g. IsCounted (seen g.window.window g.state)) }
    ensures cycles { IfOk result (λ g. g.state.counts.cycles ≡ 0) }
{
    let opened = Window::make(alloc, image, Vec::new(alloc), budget)?;
    let window = GridWindow::make(alloc, opened)?;
    let state = State::make(alloc, predictor, weather)?;
    Ok(Grid { window, state })
}

// A predictor whose entries all name this exit.
fn predictor(alloc: Global, exit: u8) -> Result<Predictor, Fail> {
    let entries = vec![in alloc; exit; 1024]?;
    match Predictor::wrong(alloc, entries) {
        Ok(predictor) => Ok(predictor),
        Err(memory) => Err(Fail::from(memory)),
    }
}

/// The grid of a text at its start, whose predictor names this exit for every block.
pub fn grid<W: Copy>(
    alloc: Global,
    text: &str,
    exit: u8,
    weather: W,
    budget: u32,
) -> Result<Grid<GridWindow, W>, Fail>
    ensures counted { IfOk result (λ g. IsCounted (seen g.window.window g.state)) }
    ensures cycles { IfOk result (λ g. g.state.counts.cycles ≡ 0) }
{
    let image = checked(alloc, text)?;
    let predictor = predictor(alloc, exit)?;
    match begun(alloc, image, predictor, weather, budget) {
        Ok(grid) => Ok(grid),
        Err(memory) => Err(Fail::from(memory)),
    }
}
