//! A window over the image of a text, with a sequential machine beside it.

ghost use Rattle.std.specs.Prelude.{◌≡◌, IfOk};
ghost use Rattle.trips_isa.specs.Images.{FitsImage};

use block_atomic::Arch;
use block_check::{CheckedImage, ImageRefusal};
use commit_flush::Window;
use std::alloc::{AllocError, Global};
use std::test::Fail;
use target_asm::assemble;
use trips_isa::Image;

fn image(alloc: Global, text: &str) -> Result<Image, Fail>
    ensures { IfOk result FitsImage }
{
    match assemble(alloc, text.as_bytes()) {
        Ok(image) => Ok(image),
        Err(fault) => Err(Fail::from(fault)),
    }
}

/// The image of a text, checked.
pub fn checked(alloc: Global, text: &str) -> Result<CheckedImage, Fail> {
    let image = image(alloc, text)?;
    match CheckedImage::make(alloc, image) {
        Ok(checked) => Ok(checked),
        Err(ImageRefusal::Bad(_, fault)) => Err(Fail::from(fault)),
        Err(ImageRefusal::Memory) => Err(Fail::from(AllocError)),
    }
}

/// The sequential machine at the start of its run on an image, with no input.
pub fn machine(alloc: Global, image: &CheckedImage, budget: u32) -> Result<Arch, Fail>
    ensures { IfOk result (λ arch. arch.budget ≡ budget) }
{
    match Arch::make(alloc, image, Vec::new(alloc), budget) {
        Ok(arch) => Ok(arch),
        Err(_) => Err(Fail::from(AllocError)),
    }
}

/// A window at the start of its run on an image, with no input.
pub fn window(alloc: Global, image: CheckedImage, budget: u32) -> Result<Window, Fail> {
    match Window::make(alloc, image, Vec::new(alloc), budget) {
        Ok(window) => Ok(window),
        Err(_) => Err(Fail::from(AllocError)),
    }
}
