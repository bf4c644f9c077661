//! Laws of images, over their definitions alone; each function's clause is the law.
ghost use Rattle.std.specs.Prelude.{◌≡◌, ◌<◌, ◌^◌, ◌++◌, ◌⊎◌, ℕ, List, Option, Some, [], All};
ghost use Rattle.trips_isa.specs.declared.block.Inst.{Inst};
ghost use Rattle.trips_isa.specs.declared.block.Image.{Image};
ghost use Rattle.trips_isa.specs.Fits.{FitsSlot};
ghost use Rattle.block_image.specs.declared.fault.ImageFault.{ImageFault};
ghost use Rattle.block_image.specs.Words.{slot_word};
ghost use Rattle.block_image.specs.inside.WordReading.{slot_of_word};
ghost use Rattle.block_image.specs.Spelling.{ImageBytes};
ghost use Rattle.block_image.specs.FirstFault.{FirstFault};

/// A slot that fits is read from its word, and from no other.
pub fn words_are_exact()
    ensures again { (s : Option Inst) → FitsSlot s → slot_of_word (slot_word s) ≡ Some s }
    ensures takes { (w : ℕ) (s : Option Inst) → w < 2 ^ 32 → slot_of_word w ≡ Some s
        → FitsSlot s × (slot_word s ≡ w) }
{}

/// A byte list spells at most one image, an image has at most one spelling, and no spelling is a
/// proper prefix of another.
pub fn spellings_are_unique()
    ensures one_image { (i j : Image) (bytes : List ℕ) → ImageBytes i bytes
        → ImageBytes j bytes → i ≡ j }
    ensures one_spelling { (i : Image) (bytes others : List ℕ) → ImageBytes i bytes
        → ImageBytes i others → bytes ≡ others }
    ensures no_prefix { (i j : Image) (bytes more : List ℕ) → ImageBytes i (bytes ++ more)
        → ImageBytes j bytes → more ≡ [] }
{}

/// Bytes spell an image or have a first fault, one and not both.
pub fn first_faults_are_unique()
    ensures one { (bytes : List ℕ) (f g : ImageFault) → FirstFault bytes f
        → FirstFault bytes g → f ≡ g }
    ensures not_both { (i : Image) (bytes : List ℕ) (f : ImageFault) → ImageBytes i bytes
        → FirstFault bytes f → ⊥ }
    ensures some { (bytes : List ℕ) → All (λ b. b < 256) bytes
        → ((i : Image) × ImageBytes i bytes) ⊎ ((f : ImageFault) × FirstFault bytes f) }
{}
