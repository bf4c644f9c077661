use block_check::CheckFault;
use block_image::ImageFault;
use target_asm_spec::AsmFault;

/// Why an image or a target text is refused: the stage that refuses it with its fault, which is never
/// want of memory. `Check` names the block that is not good.
#[derive(Debug, Drop)]
pub enum Said {
    Image(ImageFault),
    Asm(AsmFault),
    Check(u32, CheckFault),
}
