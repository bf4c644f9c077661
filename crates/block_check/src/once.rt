//! One case in one pass along an order of the nodes, where no place gets two tokens.
ghost use Rattle.std.specs.Prelude.{◌≡◌, ◌≢◌, ◌<◌, ◌≤◌, ◌+◌, ◌∷◌, ◌==◌, ℕ, List, length, true, cond};
ghost use Rattle.block_cases.specs.Nodes.{Ranked};
ghost use Rattle.block_cases.specs.CaseRule.{first};
ghost use Rattle.block_cases.specs.Cases.{bit, token, tokens};
ghost use Rattle.block_check.specs.inside.PartOrder.{IsOrdered};
ghost use Rattle.block_check.specs.inside.Pass.{InPlace, AllInPlace, Spare, AbsentFrom, tok_at};
ghost use Rattle.block_check.specs.inside.Passing.{Given, Passing};

use crate::pass::fired;
use block_cases::CaseToken;
use trips_isa::{NO_PLACE, Node, PLACES};

/// Puts a token in a place that has none; false where the place has one.
fn give_at(spots: &mut [CaseToken], place: u16, token: CaseToken) -> bool
    requires spots { length spots.old ≡ 768 }
    requires place { place < 768 }
    ensures free { result ≡ true → place ≢ NO_PLACE → tok_at spots.old place ≡ CaseToken.Absent }
    ensures set { result ≡ true → (q : ℕ) → q ≢ NO_PLACE →
        tok_at spots.new q ≡ cond (place == q) token (tok_at spots.old q) }
{
    if place == NO_PLACE {
        return true;
    }
    let place = place as usize;
    if spots[place] != CaseToken::Absent {
        return false;
    }
    spots[place] = token;
    true
}

/// Puts a token in the places that a node names; false where one of them has one.
fn give(spots: &mut [CaseToken], node: Node, token: CaseToken) -> bool
    requires spots { length spots.old ≡ 768 }
    requires in_place { InPlace node }
    ensures { result ≡ true → Given spots.old spots.new node token }
{
    if token == CaseToken::Absent {
        return true;
    }
    give_at(spots, node.first, token) && give_at(spots, node.second, token)
}

/// What a node gives of what the nodes before it gave; false where a place may have two tokens then.
fn fire_one(
    nodes: &[Node],
    used: usize,
    x: usize,
    bits: &[bool],
    spots: &mut [CaseToken],
    toks: &mut [CaseToken],
) -> bool
    requires in_place { AllInPlace nodes.now }
    requires used { used ≤ length nodes.now }
    requires spare { Spare nodes.now used }
    requires bits { length bits.now ≡ length nodes.now }
    requires toks { length toks.old ≡ length nodes.now }
    requires spots { length spots.old ≡ 768 }
    ensures { result ≡ true → (rank : ℕ → ℕ) (rest : List ℕ) → Ranked nodes.now rank →
        Passing nodes.now rank (x ∷ rest) (bit bits.now) spots.old toks.old →
        Passing nodes.now rank rest (bit bits.now) spots.new toks.new }
{
    if x >= used {
        return true;
    }
    let node = nodes[x];
    let slot = node.slot as usize;
    let token = fired(
        node,
        bits[x],
        spots[slot],
        spots[128 + slot],
        spots[256 + slot],
    );
    toks[x] = token;
    256 + node.slot != NO_PLACE && give(spots, node, token)
}

/// The tokens of a case and of its places; false where a place may get two.
pub(crate) fn pass_once(
    nodes: &[Node],
    used: usize,
    order: &[usize],
    bits: &[bool],
    spots: &mut [CaseToken],
    toks: &mut [CaseToken],
) -> bool
    requires ordered { IsOrdered nodes.now order.now }
    requires in_place { AllInPlace nodes.now }
    requires used { used ≤ length nodes.now }
    requires spare { Spare nodes.now used }
    requires bits { length bits.now ≡ length nodes.now }
    requires toks { length toks.old ≡ length nodes.now }
    requires spots { length spots.old ≡ 768 }
    ensures toks { result ≡ true → (x : ℕ) → tok_at toks.new x ≡ token nodes.now bits.now x }
    ensures rest { result ≡ true → AbsentFrom used toks.new }
    ensures places { result ≡ true → (q : ℕ) → q < PLACES →
        tok_at spots.new q ≡ first nodes.now q (tok_at toks.new) }
    ensures single { result ≡ true → (q : ℕ) → q < PLACES → tokens nodes.now (tok_at toks.new) q ≤ 1 }
{
    for token in toks.iter_mut() {
        *token = CaseToken::Absent;
    }
    for spot in spots.iter_mut() {
        *spot = CaseToken::Absent;
    }
    for at in 0..order.len() {
        if !fire_one(nodes, used, order[at], bits, spots, toks) {
            return false;
        }
    }
    true
}
