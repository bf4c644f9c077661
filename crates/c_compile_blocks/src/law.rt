ghost use Rattle.c_compile_blocks.specs.inside.Checked.{CheckedImagesAreOfMachineBlocks};

/// Of blocks that the passes made of a narrowed program, each in the slots of any permutation, the image fits; and
/// where each of its blocks is good, they are machine blocks, with few cases. It does nothing when it runs.
pub fn checked_images_are_of_machine_blocks()
    ensures { CheckedImagesAreOfMachineBlocks }
{}
