//! Laws of blocks, over their definitions alone; each function's clause is the law.
ghost use Rattle.std.specs.Prelude.{◌≡◌, ◌≢◌, ◌<◌, ◌≤◌, ℕ, List, Bool, true, Some, None, slice_get};
ghost use Rattle.trips_isa.specs.declared.node.Node.{Node};
ghost use Rattle.trips_isa.specs.declared.block.Block.{Block};
ghost use Rattle.trips_isa.specs.PlaceNumbers.{place_count};
ghost use Rattle.trips_isa.specs.Fits.{FitsBlock};
ghost use Rattle.trips_isa.specs.Rule.{Answer};
ghost use Rattle.trips_isa.specs.Tables.{Computes};
ghost use Rattle.trips_isa.specs.inside.Tables.{IsTable, pulled};
ghost use Rattle.trips_isa.specs.Blocks.{Responses, responses_in, token_of};
ghost use Rattle.trips_isa.specs.inside.Blocks.{Solves};
ghost use Rattle.block_cases.specs.declared.token.CaseToken.TheVariants.{Absent};
ghost use Rattle.block_cases.specs.Nodes.{targets, hits, IsRanked};
ghost use Rattle.block_cases.specs.CaseRule.{fires};
ghost use Rattle.block_cases.specs.Cases.{deepest};
ghost use Rattle.block_cases.specs.Blocks.{nodes_of, wanted_of};
ghost use Rattle.block_cases.specs.Good.{Good, GoodBlock};
ghost use Rattle.block_cases.specs.inside.Good.{OneToken, IsPlaced, NamesPlace};
ghost use Rattle.block_cases.specs.inside.Shapes.{shape};

/// Nodes without a cycle have one table, and depth `deepest` reaches it, whatever they compute.
pub fn tables_are_unique()
    ensures only { (ns : List Node) → IsRanked ns → (a : Computes) (g : ℕ → Answer) → IsTable ns a g
        → (x : ℕ) → g x ≡ pulled ns a deepest x }
    ensures some { (ns : List Node) → IsRanked ns → (a : Computes)
        → IsTable ns a (pulled ns a deepest) }
{}

/// In an entry state a block without a cycle has one table that agrees with itself, and depth `deepest`
/// reaches it.
pub fn entry_tables_are_unique()
    ensures only { (b : Block) → IsRanked (nodes_of b) → (regs mem : List ℕ) (g : ℕ → Answer)
        → Solves b (responses_in b regs mem g) g → (x : ℕ) → g x ≡ token_of b regs mem deepest x }
    ensures some { (b : Block) → IsRanked (nodes_of b) → (regs mem : List ℕ)
        → Solves b (responses_in b regs mem (token_of b regs mem deepest))
        (token_of b regs mem deepest) }
{}

/// Whatever nodes compute: no place gets two tokens, each write and number gets one, and one exit
/// fires.
pub fn tables_agree_with_a_case()
    ensures { (ns : List Node) (wanted : ℕ → Bool) → IsRanked ns → IsPlaced ns → Good ns wanted
        → (a : Computes) (g : ℕ → Answer) → IsTable ns a g → OneToken ns wanted (λ x. shape (g x)) }
{}

/// The same with a bit for every node, a chooser or not: one producer for each place.
pub fn any_bits_agree_with_a_case()
    ensures { (ns : List Node) (wanted : ℕ → Bool) → IsRanked ns → IsPlaced ns → Good ns wanted
        → (bits : ℕ → Bool) (q x y : ℕ) → q < place_count → NamesPlace ns x q → NamesPlace ns y q
        → fires ns bits deepest x ≢ Absent → fires ns bits deepest y ≢ Absent → x ≡ y }
{}

/// Law one token: whatever the reads and loads of a good block are answered, no place gets two
/// tokens, no two producers of a place fire, and what fires names no place twice.
pub fn good_blocks_keep_one_token()
    ensures tokens { (b : Block) → FitsBlock b → GoodBlock b → (responses : Responses) (g : ℕ → Answer)
        → Solves b responses g → OneToken (nodes_of b) (wanted_of b) (λ x. shape (g x)) }
    ensures producers { (b : Block) → FitsBlock b → GoodBlock b
        → (responses : Responses) (g : ℕ → Answer)
        → Solves b responses g → (q x y : ℕ) → q < place_count → NamesPlace (nodes_of b) x q
        → NamesPlace (nodes_of b) y q → g x ≢ None → g y ≢ None → x ≡ y }
    ensures once { (b : Block) → FitsBlock b → GoodBlock b → (responses : Responses) (g : ℕ → Answer)
        → Solves b responses g → (q x : ℕ) (n : Node) → q < place_count → slice_get (nodes_of b) x ≡ Some n
        → g x ≢ None → hits (targets n) q ≤ 1 }
{}
