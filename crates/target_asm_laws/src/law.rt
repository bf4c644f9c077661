//! Laws of target text, over its definitions alone; each function's clauses are the laws.
//!
//! Laws of target text, over its definitions alone; each function's clauses are the laws.
ghost use Rattle.std.specs.Prelude.{◌≡◌, ◌↔◌, ℕ, List, Ok, ◌⊎◌, Err};
ghost use Rattle.trips_isa.specs.declared.block.Image.{Image};
ghost use Rattle.target_asm_spec.specs.Text.{TargetText};
ghost use Rattle.target_asm_spec.specs.inside.Whole.{image_in};
ghost use Rattle.target_asm_spec.specs.declared.fault.AsmFault.{AsmFault};
ghost use Rattle.target_asm_spec.specs.FirstAsmFault.{FirstAsmFault};

/// A text that is read as an image is the text of that image, which fits. So a text is read as an
/// image exactly where it is that image's text.
pub fn texts_are_exact()
    ensures exact { (text : List ℕ) (i : Image) → image_in text ≡ Ok i → TargetText i text }
    ensures both_ways { (text : List ℕ) (i : Image)
        → (image_in text ≡ Ok i) ↔ TargetText i text }
{}

/// A text is an image's or has a first fault, one and not both.
pub fn first_faults_are_unique()
    ensures one { (text : List ℕ) (f g : AsmFault) → FirstAsmFault text f
        → FirstAsmFault text g → f ≡ g }
    ensures not_both { (i : Image) (text : List ℕ) (f : AsmFault) → TargetText i text
        → FirstAsmFault text f → ⊥ }
    ensures some { (text : List ℕ) → ((i : Image) × TargetText i text)
        ⊎ ((f : AsmFault) × FirstAsmFault text f) }
{}

/// The first fault of a text is the one that reading meets.
pub fn first_faults_are_met()
    ensures met { (text : List ℕ) (f : AsmFault) → (image_in text ≡ Err f) ↔ FirstAsmFault text f }
{}
