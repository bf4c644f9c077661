//! Laws of users' files of target text, over definitions alone; each function's clauses are the laws.
ghost use Rattle.std.specs.Prelude.{◌≡◌, ◌↔◌, ◌⊎◌, ℕ, List};
ghost use Rattle.trips_isa.specs.declared.block.Image.{Image};
ghost use Rattle.target_asm_spec.specs.Text.{TargetText};
ghost use Rattle.target_asm_spec.specs.FirstAsmFault.{FirstAsmFault};
ghost use Rattle.target_asm_spec.specs.declared.fault.AsmFault.{AsmFault};
ghost use Rattle.target_file.specs.Bare.{bare};
ghost use Rattle.target_file.specs.Files.{TargetFile, FirstFileFault};

/// Nothing is left out of the text of an image: so it is read as that image, and `dis` then `asm` changes nothing.
pub fn texts_are_bare()
    ensures bare { (image : Image) (text : List ℕ) → TargetText image text → bare text ≡ text }
    ensures read { (image : Image) (text : List ℕ) → TargetText image text → TargetFile image text }
{}

/// A text out of which nothing is left means what it means without comments, down to the line of its first fault.
pub fn bare_texts_are_texts()
    ensures images { (image : Image) (text : List ℕ) → bare text ≡ text
        → TargetFile image text ↔ TargetText image text }
    ensures faults { (text : List ℕ) (fault : AsmFault) → bare text ≡ text
        → FirstFileFault text fault ↔ FirstAsmFault text fault }
{}

/// A file tells one image or has one first fault, and not both.
pub fn files_tell_one()
    ensures one_image { (i j : Image) (text : List ℕ) → TargetFile i text → TargetFile j text → i ≡ j }
    ensures one_fault { (text : List ℕ) (f g : AsmFault) → FirstFileFault text f → FirstFileFault text g → f ≡ g }
    ensures not_both { (image : Image) (text : List ℕ) (fault : AsmFault) → TargetFile image text
        → FirstFileFault text fault → ⊥ }
    ensures some { (text : List ℕ) → ((image : Image) × TargetFile image text)
        ⊎ ((fault : AsmFault) × FirstFileFault text fault) }
{}
