//! Laws of target text, over its definitions alone; each function's clauses are the laws.
ghost use Rattle.std.specs.Prelude.{◌≡◌, ℕ, ℤ, List, Ok};
ghost use Rattle.trips_isa.specs.declared.block.Block.{Block};
ghost use Rattle.trips_isa.specs.declared.block.Image.{Image};
ghost use Rattle.target_asm_spec.specs.Text.{goal_of};
ghost use Rattle.target_asm_spec.specs.inside.Chunks.{goal_in, start_rows};
ghost use Rattle.target_asm_spec.specs.Text.{TargetText};
ghost use Rattle.target_asm_spec.specs.inside.Whole.{image_in};

/// The table of the chunks at which blocks begin tells the block that begins at a chunk.
pub fn starts_are_told()
    ensures table { (blocks : List Block) (z : ℤ) → goal_in (start_rows 0 blocks) z
        ≡ goal_of blocks z }
{}

/// An image has at most one text, and a text at most one image.
pub fn texts_are_unique()
    ensures one_text { (i : Image) (text other : List ℕ) → TargetText i text
        → TargetText i other → text ≡ other }
    ensures one_image { (i j : Image) (text : List ℕ) → TargetText i text
        → TargetText j text → i ≡ j }
    ensures again { (i : Image) (text : List ℕ) → TargetText i text → image_in text ≡ Ok i }
{}
