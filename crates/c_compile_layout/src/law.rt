//! Laws of images, over their definitions alone; each function's clause is the law.
ghost use Rattle.std.specs.Prelude.{◌≡◌, ℕ, ◌/◌, ◌%◌, ◌^◌, ◌<◌, ◌≤◌, true, All, List, length};
ghost use Rattle.std.specs.Prelude.{pos};
ghost use Rattle.trips_isa.specs.declared.op.Op.TheVariants.{App, Genu, Mov};
ghost use Rattle.trips_isa.specs.declared.block.Block.{Block};
ghost use Rattle.trips_isa.specs.inside.Acts.{is_clean, IsClean};
ghost use Rattle.trips_isa.specs.Alu.{alu_of, word};
ghost use Rattle.trips_isa.specs.Blocks.{token_of};
ghost use Rattle.trips_isa.specs.Places.{nodes_of};
ghost use Rattle.trips_isa.specs.Stores.{data_size};
ghost use Rattle.trips_isa.specs.Tables.{deepest, IsRanked};
ghost use Rattle.ir_forms.specs.declared.flow.FlowBlock.{FlowBlock};
ghost use Rattle.ir_forms.specs.inside.FlowFits.{FitsFlow};
ghost use Rattle.hyper_narrow.specs.inside.NarrowedCode.{Narrowed};
ghost use Rattle.ir_forms.specs.inside.HyperWords.{AreBytes, IsFaithful};
ghost use Rattle.grid_place.specs.inside.Moves.{HasSizes, IsMoved};
ghost use Rattle.fan_out.specs.inside.Means.{acts_by_slot};
ghost use Rattle.fan_out.specs.inside.Targeted.{HasRoom, IsTargeted};
ghost use Rattle.c_compile_layout.specs.inside.Emitted.{AreEmitted, ImageMeans, ImageMeansPlainly};
ghost use Rattle.c_compile_layout.specs.Emitted.{IsGoodImage};
ghost use Rattle.c_compile_layout.specs.inside.Emitted.{NeverTraps, image_of, most_blocks};
ghost use Rattle.c_compile_layout.specs.inside.Joint.{AreMade, DoesPlainly, DoesTheSame, HasStarts};
ghost use Rattle.c_compile_layout.specs.inside.Layouts.{laid_out, linked, AreFew, HasPlaces};
ghost use Rattle.c_compile_layout.specs.inside.Standings.{MeansPlainly, MeansTheSame};
ghost use Rattle.c_compile_layout.specs.inside.Linking.{Resolves, resolved, resolved_block};

/// The layout of blocks leads from each label to an address and back; an address has 32 bits and is a
/// multiple of 128. As many blocks as an image may have of whatever size have few enough chunks.
pub fn layouts_are_faithful()
    ensures faithful { (ts : List Block) → AreFew ts → IsFaithful (laid_out ts) (length ts) }
    ensures places { (ts : List Block) → AreFew ts → HasPlaces (laid_out ts) }
    ensures few { (ts : List Block) → length ts ≤ most_blocks
        → All (λ b. length b.insts.items ≡ 128) ts → AreFew ts }
{}

/// The machine block of a flow block that it has room for has its parts in their sizes, whatever its
/// immediates hold: what `place` asks for.
pub fn targeted_blocks_have_sizes()
    ensures { (f : FlowBlock) (t : Block) → HasRoom f → IsTargeted f t → HasSizes t }
{}

/// An image runs as its narrowed program does, block for block: where nothing of the program faults, the
/// image does not trap; and whatever faults, so it runs where nothing looks at its marks.
pub fn images_do_what_programs_do()
    ensures clean { (B : List Narrowed) (ts : List Block) → AreMade B ts → DoesTheSame B ts }
    ensures plain { (B : List Narrowed) (ts : List Block) → AreMade B ts → DoesPlainly B ts }
{}

/// The two come to the same, and zeros at the end of the data are not needed.
pub fn images_mean_what_programs_mean()
    ensures clean { (B : List Narrowed) (ts : List Block) → AreMade B ts → MeansTheSame B ts }
    ensures plain { (B : List Narrowed) (ts : List Block) → AreMade B ts → MeansPlainly B ts }
{}

/// To give targets and places and then to resolve immediates is to resolve them first.
pub fn passes_never_read_immediates()
    ensures targets { (r : Resolves) (f : FlowBlock) (t : Block) → r Mov (pos 0) ≡ pos 0
        → IsTargeted f t → IsTargeted (resolved r f) (resolved_block r t) }
    ensures places { (r : Resolves) (p : ℕ → ℕ) (t u : Block) → IsMoved p t u
        → IsMoved p (resolved_block r t) (resolved_block r u) }
{}

/// What `genu` and `app` make of the two halves of an address is the address.
pub fn halves_make_an_address()
    ensures { (a : ℕ) → a < 2 ^ 32 → alu_of App (alu_of Genu 0 (word (pos (a / 65536))))
        (word (pos (a % 65536))) ≡ a }
{}

/// From each entry state a flow block that fits has a table.
pub fn blocks_that_fit_have_starts()
    ensures { (f : FlowBlock) → FitsFlow f → HasStarts f }
{}

/// Where nothing faults of what a block does, slot for slot, nothing that a node of it does faults.
pub fn clean_slots_are_clean_blocks()
    ensures { (b : Block) → IsRanked (nodes_of b) → (regs mem : List ℕ)
        → is_clean (acts_by_slot b regs mem) ≡ true → IsClean b (token_of b regs mem deepest) }
{}

/// To resolve the labels of blocks moves none of them, and makes an image's blocks of what the
/// passes give.
pub fn linked_blocks_are_an_image()
    ensures layout { (us : List Block) → laid_out (linked us) ≡ laid_out us }
    ensures made { (B : List Narrowed) (us : List Block) → AreEmitted B us
        → AreMade B (linked us) }
    ensures good { (B : List Narrowed) (us : List Block) (bytes : List ℕ) → AreEmitted B us
        → AreBytes bytes → length bytes ≤ data_size → IsGoodImage (image_of us bytes) }
{}

/// The image of what the passes give for a narrowed program means the program: the one theorem that
/// the compiler cites.
pub fn images_of_programs_mean_them()
    ensures means { (B : List Narrowed) (us : List Block) → AreEmitted B us → ImageMeans B us }
    ensures traps { (B : List Narrowed) (us : List Block) → AreEmitted B us → NeverTraps B us }
    ensures plain { (B : List Narrowed) (us : List Block) → AreEmitted B us
        → ImageMeansPlainly B us }
    ensures faithful { (B : List Narrowed) (us : List Block) → AreEmitted B us
        → IsFaithful (laid_out us) (length us) }
    ensures places { (B : List Narrowed) (us : List Block) → AreEmitted B us
        → HasPlaces (laid_out us) }
{}
