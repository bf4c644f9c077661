//! The window.
ghost use Rattle.std.specs.Prelude.{◌≡◌, ◌<◌, ◌≤◌, IfOk, length};
ghost use Rattle.trips_isa.specs.Machine.{start};
ghost use Rattle.commit_flush_spec.specs.InFlight.{opened};
ghost use Rattle.commit_flush.specs.inside.Seen.{IsFresh, AreFresh};

use arrayvec::ArrayVec;
use base::Memory;
use block_atomic::Arch;
use block_check::CheckedImage;
use frame_state::{Empty, Phase};
use reg_bank::Banks;
use std::alloc::{AllocError, Global};
use std::marker::Model;
use trips_isa::Stepped;

/// Eight frames over a committed state.
///
/// They are kept by number, with an order of age. All room is taken when the window is made; no event takes memory.
/// The drop of a window flushes its frames.
#[derive(Drop)]
pub struct Window {
    pub(crate) image: CheckedImage,
    pub(crate) arch: Arch,
    pub(crate) over: Stepped,
    pub(crate) budget: u32,
    pub(crate) frames: Vec<Phase>,
    pub(crate) order: ArrayVec<u8, 8>,
    pub(crate) banks: Banks,
    /// Words whose bits stand for ages: where a bit is clear, that frame has no resolved store, or no answered load.
    pub(crate) storing: u32,
    pub(crate) loading: u32,
}

impl Model for Window {
    ghost use Rattle.reg_bank.specs.inside.Ages.{at};
    ghost use Rattle.commit_flush.specs.Seen.{Seen};
    ghost use Rattle.commit_flush.specs.inside.Seen.{window_of};
    ghost use Rattle.commit_flush.specs.inside.Accesses.{Stands};

    ghost Value = { Seen };

    ghost view = { λ w. record {
      image = w.image;
      budget = w.budget;
      window = window_of w.image.blocks w.arch.state w.over w.frames.items w.order.items;
    } };

    ghost invariant = { λ w.
        Stands w.image w.budget w.arch w.over w.frames.items w.order.items (at w.banks) w.storing w.loading };
}

// A frame of a number that was never filled.
fn empty_frame(alloc: Global, number: u8) -> Result<Phase, AllocError>
    ensures { IfOk result (λ p. IsFresh number p) }
{
    let empty = Empty::make(alloc, number)?;
    Ok(Phase::Free(empty))
}

// Eight of them.
fn empty_frames(alloc: Global) -> Result<Vec<Phase>, AllocError>
    ensures fresh { IfOk result (λ frames. AreFresh 0 frames.items) }
    ensures eight { IfOk result (λ frames. length frames.items ≡ 8) }
{
    let mut frames = Vec::with_capacity(alloc, 8)?;
    for number in 0..8u8 {
        let frame = empty_frame(alloc, number)?;
        frames.push(frame)?;
    }
    Ok(frames)
}

impl Window {
    /// A window on an image at the start of its run, with no frame in flight. Want of memory is the only error.
    pub fn make(
        alloc: Global,
        image: CheckedImage,
        input: Vec<u8>,
        budget: u32,
    ) -> Result<Window, Memory>
        ensures opens { IfOk result (λ w. w.window ≡ opened (start image.bytes input.items)) }
        ensures on_image { IfOk result (λ w. w.image ≡ image) }
        ensures within { IfOk result (λ w. w.budget ≡ budget) }
    {
        let arch = Arch::make(alloc, &image, input, budget)?;
        Window::make_at(alloc, image, arch, budget)
    }

    /// A window on an image from a machine's state on. `budget` counts all that the machine has made; the machine has
    /// room for at least as many.
    pub fn make_at(
        alloc: Global,
        image: CheckedImage,
        arch: Arch,
        budget: u32,
    ) -> Result<Window, Memory>
        requires next { arch.state.next < length image.blocks }
        requires room { budget ≤ arch.budget }
        requires spent { length arch.state.trace ≤ budget }
        ensures opens { IfOk result (λ w. w.window ≡ opened arch.state) }
        ensures on_image { IfOk result (λ w. w.image ≡ image) }
        ensures within { IfOk result (λ w. w.budget ≡ budget) }
    {
        let mut arch = arch;
        arch.keep_within(budget);
        let _register = arch.register(0);
        let _memory = arch.memory().len();
        let _count = image.count();
        let frames = empty_frames(alloc)?;
        Ok(Window {
            image,
            arch,
            over: Stepped::Went,
            budget,
            frames,
            order: ArrayVec::new(),
            banks: Banks::make(),
            storing: 0,
            loading: 0,
        })
    }

    /// The image whose blocks are run.
    pub fn image(&self) -> &CheckedImage
        ensures value { result.now ≡ self.now.image }
    {
        &self.image
    }

    /// The committed state.
    pub fn arch(&self) -> &Arch
        ensures state { result.now.state ≡ self.now.window.state }
        ensures room { result.now.budget ≡ self.now.budget }
    {
        &self.arch
    }

    /// How many blocks may be committed.
    pub fn budget(&self) -> u32
        ensures value { result ≡ self.now.budget }
    {
        self.budget
    }

    /// What the last commit came to: whether and how the run has ended.
    pub fn over(&self) -> Stepped
        ensures value { result ≡ self.now.window.over }
    {
        self.over
    }
}
