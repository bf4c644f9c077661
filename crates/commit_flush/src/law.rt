//! Laws of frames that are kept by number; each function's clause is the law.
ghost use Rattle.std.specs.Prelude.{◌≡◌, ◌<◌, ◌==◌, ◌++◌, ℕ, false, cond, List, [], ◌∷◌, length, Option, Some, None};
ghost use Rattle.std.specs.Prelude.{slice_get, slice_set, take, drop};
ghost use Rattle.trips_isa.specs.declared.block.Token.{Token};
ghost use Rattle.trips_isa.specs.declared.block.Block.{Block};
ghost use Rattle.commit_flush_spec.specs.Frames.{Frame, at};
ghost use Rattle.commit_flush_spec.specs.Older.{Older};
ghost use Rattle.commit_flush_spec.specs.inside.Numbered.{by_age, seen_at};
ghost use Rattle.commit_flush_spec.specs.inside.Invariant.{AllGood, FramesOk};
ghost use Rattle.reg_bank.specs.inside.Ages as ages;
ghost use Rattle.reg_bank.specs.inside.Ages.{Ages};
ghost use Rattle.reg_bank.specs.declared.answer.Held.TheVariants.{Undeclared, Waiting, Came};
ghost use Rattle.commit_flush.specs.Places.{numbers_of};
ghost use Rattle.commit_flush.specs.inside.Places.{age_of, cleared};
ghost use Rattle.commit_flush.specs.inside.Banked.{banked, held, word_read};
ghost use Rattle.commit_flush.specs.inside.Kept.{AreKept, is_in};

/// The order has the numbers of the frames in flight, the oldest first, and is as long as they are many.
pub fn orders_tell_ages()
    ensures numbers { (slots : List (Option Frame)) (order : List ℕ) (registers : Ages)
        → AreKept slots order registers → numbers_of (by_age slots order) ≡ order }
    ensures count { (slots : List (Option Frame)) (order : List ℕ) (registers : Ages)
        → AreKept slots order registers → length (by_age slots order) ≡ length order }
{}

/// A read of a register through the banks is answered what the frame of that age sees, and is not known where the
/// frame does not know it. No block writes a register twice.
pub fn reads_go_through_banks()
    ensures { (blocks : List Block) → AllGood blocks → (fs : List Frame) (o : Older) → FramesOk blocks o fs
        → (registers : Ages) → ((k q : ℕ) → registers k q ≡ banked fs k q)
        → (n a r c : ℕ) → age_of n fs ≡ Some a → o.look r ≡ Some c
        → word_read (ages.read registers a r c) ≡ (seen_at o fs n).look r }
{}

/// Frames, order and banks stay together: where the frame of a number changes and its registers do not, where a token
/// comes to one of its registers, where a frame is filled, where the younger frames go, and where the oldest goes.
pub fn frames_stay_kept()
    ensures alone { (slots : List (Option Frame)) (order : List ℕ) (registers : Ages)
        → AreKept slots order registers → (n : ℕ) (f g : Frame) → at slots n ≡ Some f → n < 8 → g.number ≡ n
        → ((r : ℕ) → held g r ≡ held f r) → AreKept (slice_set slots n (Some g)) order registers }
    ensures write { (slots : List (Option Frame)) (order : List ℕ) (old new : Ages) → AreKept slots order old
        → (n : ℕ) (f g : Frame) → at slots n ≡ Some f → n < 8 → g.number ≡ n
        → (age q : ℕ) (t : Token) → slice_get order age ≡ Some n
        → ((r : ℕ) → held g r ≡ cond (r == q) (Came t) (held f r))
        → ((a r : ℕ) → new a r ≡ ages.write old age q t a r)
        → AreKept (slice_set slots n (Some g)) order new }
    ensures fetch { (slots : List (Option Frame)) (order : List ℕ) (old new : Ages) → AreKept slots order old
        → (n : ℕ) (g : Frame) → n < 8 → is_in n order ≡ false → g.number ≡ n → (writes : List ℕ)
        → ((r : ℕ) → held g r ≡ cond (ages.listed writes r) Waiting Undeclared)
        → ((a r : ℕ) → new a r ≡ ages.declare old (length order) writes a r)
        → AreKept (slice_set slots n (Some g)) (order ++ n ∷ []) new }
    ensures flush { (slots : List (Option Frame)) (order : List ℕ) (old new : Ages) → AreKept slots order old
        → (k : ℕ) → ((a r : ℕ) → new a r ≡ ages.drop_from old k a r)
        → AreKept (cleared (drop k order) slots) (take k order) new }
    ensures commit { (slots : List (Option Frame)) (n : ℕ) (order : List ℕ) (old new : Ages)
        → AreKept slots (n ∷ order) old → ((a r : ℕ) → new a r ≡ ages.retire old a r)
        → AreKept (slice_set slots n None) order new }
{}
