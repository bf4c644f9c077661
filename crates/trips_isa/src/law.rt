//! Laws of the machine's words, over their definitions alone; each function's clause is the law.
ghost use Rattle.std.specs.Prelude.{◌≡◌, ◌<◌, ◌+◌, ◌^◌, ◌==◌, ◌&&◌, ℕ, Option, Some, nat_lt, option_map};
ghost use Rattle.trips_isa.specs.declared.op.Op.{Op};
ghost use Rattle.trips_isa.specs.declared.form.Role.{Role};
ghost use Rattle.trips_isa.specs.declared.block.Spot.{Spot};
ghost use Rattle.trips_isa.specs.declared.block.Inst.{Inst};
ghost use Rattle.trips_isa.specs.declared.block.Stored.{Stored};
ghost use Rattle.trips_isa.specs.declared.block.Block.{Block};
ghost use Rattle.trips_isa.specs.Alu.{alu_of, loaded_as, word};
ghost use Rattle.trips_isa.specs.Forms.{form_of, role_of, size_of};
ghost use Rattle.trips_isa.specs.Rule.{Answer, gives};
ghost use Rattle.trips_isa.specs.Operands.{operands};
ghost use Rattle.trips_isa.specs.inside.Operands.{given_of};
ghost use Rattle.trips_isa.specs.inside.Fired.{fired, answered};
ghost use Rattle.trips_isa.specs.declared.causes.TrapCause.{TrapCause};
ghost use Rattle.trips_isa.specs.TrapCauses.{number_of, cause_of, no_mark};
ghost use Rattle.trips_isa.specs.inside.TrapCauses.{IsMark};
ghost use Rattle.trips_isa.specs.Faults.{fault_at, own_fault};
ghost use Rattle.trips_isa.specs.Stores.{bytes_seen, is_good_address};
ghost use Rattle.trips_isa.specs.Places.{place_of};
ghost use Rattle.trips_isa.specs.inside.Places.{IsPlace, producers};
ghost use Rattle.trips_isa.specs.declared.block.Spot.TheVariants as spot;
ghost use Rattle.trips_isa.specs.Blocks.{at_place, store_of, stored_by};
ghost use Rattle.trips_isa.specs.inside.Blocks.{given_by, first_given};
ghost use Rattle.trips_isa.specs.Blocks.{form_computes, slot_computes};

/// What an operation gives of words is a word, and so is what a load makes of the bytes that it sees.
pub fn words_give_words()
    ensures alu { (op : Op) (a b : ℕ) → a < 2 ^ 64 → b < 2 ^ 64 → alu_of op a b < 2 ^ 64 }
    ensures loaded { (op : Op) (a : ℕ) → a < 2 ^ 64 → loaded_as op a < 2 ^ 64 }
    ensures bytes { (stores : ℕ → Option Stored) (mem : ℕ → ℕ) (n address : ℕ) (op : Op)
        → ((a : ℕ) → mem a < 256) → bytes_seen stores mem n address (size_of op) < 2 ^ 64 }
    ensures computes { (i : Inst) (answer : ℕ → ℕ) (l r : ℕ) → word i.imm < 2 ^ 64
        → ((a : ℕ) → answer a < 2 ^ 64) → l < 2 ^ 64 → r < 2 ^ 64
        → form_computes (form_of i.op) i answer l r < 2 ^ 64 }
{}

/// The rule of firing is what the operands are, and so is what an instruction asks for when it fires,
/// answered; an address is good where its access has no cause.
pub fn operands_say_the_rule()
    ensures gives { (role : Role) (a : ℕ → ℕ → ℕ) (l r : Answer)
        → gives role a l r ≡ given_of role a (operands role l r) }
    ensures fired { (i : Inst) (answer : ℕ → ℕ) (l r : Answer)
        → gives (role_of i.op) (slot_computes (Some i) answer) l r
        ≡ option_map (answered i answer) (fired i l r) }
    ensures address { (address size : ℕ) → is_good_address address size
        ≡ (nat_lt 0 size && (fault_at address size == no_mark)) }
{}

/// Each cause of a trap has a number of its own, which is the mark of no token without a fault, and
/// which tells the cause; an instruction's own fault is a mark.
pub fn traps_have_numbers()
    ensures tells { (c : TrapCause) → cause_of (number_of c) ≡ c }
    ensures apart { (c d : TrapCause) → number_of c ≡ number_of d → c ≡ d }
    ensures marks { (c : TrapCause) → number_of c ≡ no_mark → ⊥ }
    ensures owned { (i : Inst) (l r : ℕ) → IsMark (own_fault (Some i) l r) }
{}

/// What stands at a place is what its first producer gives: the token, and the store of a number.
pub fn first_producers_give()
    ensures token { (b : Block) (g : ℕ → Answer) (s : Spot) → IsPlace s
        → at_place b g (place_of s) ≡ first_given (given_by b g) (producers b s) }
    ensures store { (b : Block) (g : ℕ → Answer) (n : ℕ) → store_of b g n
        ≡ first_given (given_by b (stored_by b g)) (producers b (spot.Store n)) }
{}
