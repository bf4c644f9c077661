//! The window with the shapes of its blocks.
ghost use Rattle.std.specs.Prelude.{◌≡◌, IfOk};
ghost use Rattle.commit_flush_spec.specs.inside.Invariant.{AllGood};
ghost use Rattle.commit_flush_spec.specs.inside.Laws.{WindowOk};

use crate::shapes::Shapes;
use base::Memory;
use block_atomic::Arch;
use commit_flush::Window;
use std::alloc::Global;
use std::marker::Model;

/// A window as the grid moves it: contracts see the window. Beside it stands the shape of each block of its image.
#[derive(Drop)]
pub struct GridWindow {
    pub(crate) window: Window,
    pub(crate) shapes: Shapes,
}

impl Model for GridWindow {
    ghost use Rattle.commit_flush.specs.Seen.{Seen};
    ghost use Rattle.grid_machine.specs.inside.Shaped.{AreShapes};

    ghost Value = { Seen };

    ghost view = { λ w. w.window };

    ghost invariant = { λ w. AreShapes w.window.image.blocks w.shapes.shapes.items };
}

impl GridWindow {
    /// A window as the grid moves it, in whatever state it is. Want of memory is the only error.
    pub fn make(alloc: Global, window: Window) -> Result<GridWindow, Memory>
        ensures same { IfOk result (λ w. w ≡ window) }
    {
        let shapes = Shapes::make(alloc, window.image())?;
        Ok(GridWindow { window, shapes })
    }

    /// The window.
    pub fn window(&self) -> &Window
        ensures value { result.now ≡ self.now }
    {
        &self.window
    }

    /// The window, without the shapes.
    pub fn into_window(self) -> Window
        ensures value { result ≡ self }
    {
        let GridWindow {
            window,
            shapes: _shapes,
        } = self;
        window
    }

    /// The committed state.
    pub fn arch(&self) -> &Arch
        ensures state { result.now.state ≡ self.now.window.state }
        ensures room { result.now.budget ≡ self.now.budget }
    {
        self.window.arch()
    }

    /// What stands of every window: its blocks are good, and it has the invariant of the definitions.
    /// It does nothing.
    pub fn keeps_invariant(&self)
        ensures blocks { AllGood self.now.image.blocks }
        ensures window { WindowOk self.now.image.blocks self.now.budget self.now.window }
    {
        self.window.keeps_invariant();
    }
}
