//! How a grid is made.
ghost use Rattle.std.specs.Prelude.{◌≡◌, ◌<◌, ◌≤◌, IfOk, [], length};
ghost use Rattle.trips_isa.specs.Machine.{start};
ghost use Rattle.commit_flush_spec.specs.InFlight.{opened};
ghost use Rattle.grid_parts.specs.inside.Changes.{begun_with};
ghost use Rattle.grid_parts.specs.Seen.{seen};
ghost use Rattle.grid_machine.specs.inside.WholeRuns.{IsKept};

use crate::window::GridWindow;
use base::Memory;
use block_atomic::Arch;
use block_check::CheckedImage;
use block_predict::Predictor;
use commit_flush::Window;
use grid_parts::{Grid, State};
use std::alloc::Global;

// A grid over a window with no frame in flight.
fn make_on<W: Drop>(
    alloc: Global,
    window: Window,
    predictor: Predictor,
    weather: W,
) -> Result<Grid<GridWindow, W>, Memory>
    requires opened { window.window ≡ opened window.window.state }
    ensures begun { IfOk result (λ g. seen g.window.window g.state
        ≡ begun_with window.window.state predictor weather) }
    ensures image { IfOk result (λ g. g.window.image ≡ window.image) }
    ensures budget { IfOk result (λ g. g.window.budget ≡ window.budget) }
{
    let window = GridWindow::make(alloc, window)?;
    let state = State::make(alloc, predictor, weather)?;
    Ok(Grid { window, state })
}

/// A grid on an image at the start of its run: nothing is under way, and the predictor and the weather are those
/// given. Want of memory is the only error.
pub fn make<W: Drop>(
    alloc: Global,
    image: CheckedImage,
    input: Vec<u8>,
    predictor: Predictor,
    weather: W,
    budget: u32,
) -> Result<Grid<GridWindow, W>, Memory>
    requires stack { predictor.stack ≡ [] }
    requires some { 0 < budget }
    ensures begun { IfOk result (λ g. seen g.window.window g.state
        ≡ begun_with (start image.bytes input.items) predictor weather) }
    ensures image { IfOk result (λ g. g.window.image ≡ image) }
    ensures budget { IfOk result (λ g. g.window.budget ≡ budget) }
    ensures kept { IfOk result (λ g. IsKept budget (seen g.window.window g.state)) }
{
    let window = Window::make(alloc, image, input, budget)?;
    make_on(alloc, window, predictor, weather)
}

/// A grid on an image from a machine's state on. `budget` counts all that the machine has made, which has room for at
/// least as many. Want of memory is the only error.
pub fn make_at<W: Drop>(
    alloc: Global,
    image: CheckedImage,
    arch: Arch,
    predictor: Predictor,
    weather: W,
    budget: u32,
) -> Result<Grid<GridWindow, W>, Memory>
    requires stack { predictor.stack ≡ [] }
    requires some { 0 < budget }
    requires next { arch.state.next < length image.blocks }
    requires room { budget ≤ arch.budget }
    requires spent { length arch.state.trace ≤ budget }
    ensures begun { IfOk result (λ g. seen g.window.window g.state ≡ begun_with arch.state predictor weather) }
    ensures image { IfOk result (λ g. g.window.image ≡ image) }
    ensures budget { IfOk result (λ g. g.window.budget ≡ budget) }
    ensures kept { IfOk result (λ g. IsKept budget (seen g.window.window g.state)) }
{
    let window = Window::make_at(alloc, image, arch, budget)?;
    make_on(alloc, window, predictor, weather)
}
