//! The search over the cases.
ghost use Rattle.std.specs.Prelude.{◌≡◌, ◌<◌, ◌≤◌, ◌+◌, ◌||◌, ◌&&◌, ◌==◌, ℕ, List, Bool, [], ◌∷◌};
ghost use Rattle.std.specs.Prelude.{length, slice_index, slice_get, nat_lt, true, take, drop, All};
ghost use Rattle.block_cases.specs.Nodes.{IsRanked, targets, hits};
ghost use Rattle.block_cases.specs.Choosers.{is_chooser};
ghost use Rattle.block_cases.specs.Cases.{bit, token, tokens, present};
ghost use Rattle.block_check.specs.inside.PartOrder.{IsOrdered};
ghost use Rattle.block_check.specs.inside.Pass.{InPlace, AllInPlace, Spare, AbsentFrom, tok_at};
ghost use Rattle.block_check.specs.inside.Found.{Explored, Added, Choosing, others};
ghost use Rattle.block_check.specs.inside.Named.{Freed};
ghost use Rattle.trips_isa.specs.Limits.{most_nodes};

use crate::chooser::find_choosers;
use crate::marks::{mark, mark_free, mark_gaps};
use crate::once::pass_once;
use crate::pass::run;
use block_cases::CaseToken;
use trips_isa::{Node, PLACES};

pub(crate) fn is_present(token: CaseToken) -> bool
    ensures { result ≡ present token }
{
    match token {
        CaseToken::Absent => false,
        _ => true,
    }
}

/// Counts the tokens that a node gives.
fn add_tokens(counts: &mut [u16], node: Node)
    requires counts { length counts.old ≡ 768 }
    requires room { (q : ℕ) → q < 768 → slice_index counts.old q ≤ 1000 }
    requires in_place { InPlace node }
    ensures { (q : ℕ) → q < 768 →
        slice_index counts.new q ≡ slice_index counts.old q + hits (targets node) q }
{
    counts[node.first as usize] += 1;
    counts[node.second as usize] += 1;
}

/// How many tokens each place gets.
pub(crate) fn count_tokens(nodes: &[Node], used: usize, toks: &[CaseToken], counts: &mut [u16])
    requires size { length nodes.now ≤ most_nodes }
    requires in_place { AllInPlace nodes.now }
    requires used { used ≤ length nodes.now }
    requires toks { length toks.now ≡ length nodes.now }
    requires rest { AbsentFrom used toks.now }
    requires counts { length counts.old ≡ 768 }
    ensures { (q : ℕ) → q < 768 → slice_index counts.new q ≡ tokens nodes.now (tok_at toks.now) q }
{
    for count in counts.iter_mut() {
        *count = 0;
    }
    for x in 0..used {
        if is_present(toks[x]) {
            add_tokens(counts, nodes[x]);
        }
    }
}

/// The tokens of a case, and the marks of the places that get two, or none.
fn mark_case(
    nodes: &[Node],
    used: usize,
    order: &[usize],
    bits: &[bool],
    toks: &mut [CaseToken],
    two: &mut [bool],
    none: &mut [bool],
)
    requires size { length nodes.now ≤ most_nodes }
    requires ranked { IsRanked nodes.now }
    requires ordered { IsOrdered nodes.now order.now }
    requires in_place { AllInPlace nodes.now }
    requires used { used ≤ length nodes.now }
    requires spare { Spare nodes.now used }
    requires bits { length bits.now ≡ length nodes.now }
    requires toks { length toks.old ≡ length nodes.now }
    requires two { length two.old ≡ PLACES }
    requires none { length none.old ≡ PLACES }
    requires free { Freed (take used nodes.now) none.old }
    ensures toks { (x : ℕ) → tok_at toks.new x ≡ token nodes.now bits.now x }
    ensures rest { AbsentFrom used toks.new }
    ensures two { (q : ℕ) → q < PLACES →
        bit two.new q ≡ (bit two.old q || nat_lt 1 (tokens nodes.now (tok_at toks.new) q)) }
    ensures none { (q : ℕ) → q < PLACES →
        bit none.new q ≡ (bit none.old q || (tokens nodes.now (tok_at toks.new) q == 0)) }
{
    let mut table = [CaseToken::Absent; 768];
    let spots = table.as_mut_slice();
    if pass_once(nodes, used, order, bits, spots, toks) {
        mark_gaps(nodes, used, spots, none);
    } else {
        run(nodes, used, order, bits, toks);
        mark(nodes, used, toks, two, none);
    }
}

/// Visits a case.
fn visit(
    nodes: &[Node],
    used: usize,
    order: &[usize],
    bits: &[bool],
    toks: &mut [CaseToken],
    count: usize,
    two: &mut [bool],
    none: &mut [bool],
) -> usize
    requires size { length nodes.now ≤ most_nodes }
    requires ranked { IsRanked nodes.now }
    requires ordered { IsOrdered nodes.now order.now }
    requires in_place { AllInPlace nodes.now }
    requires used { used ≤ length nodes.now }
    requires spare { Spare nodes.now used }
    requires bits { length bits.now ≡ length nodes.now }
    requires toks { length toks.old ≡ length nodes.now }
    requires count { count ≤ 256 }
    requires two { length two.old ≡ PLACES }
    requires none { length none.old ≡ PLACES }
    requires free { Freed (take used nodes.now) none.old }
    ensures toks { (x : ℕ) → tok_at toks.new x ≡ token nodes.now bits.now x }
    ensures rest { AbsentFrom used toks.new }
    ensures free { Freed (take used nodes.now) none.new }
    ensures count { result ≤ 257 }
    ensures added { Added nodes.now (bits.now ∷ []) count result two.old two.new none.old none.new }
{
    mark_case(nodes, used, order, bits, toks, two, none);
    count + 1
}

/// Whether a node has a bit.
fn has_bit(choosers: &[bool], toks: &[CaseToken], x: usize) -> bool
    requires choosers { x < length choosers.now }
    requires toks { x < length toks.now }
    ensures { result ≡ (bit choosers.now x && present (tok_at toks.now x)) }
{
    choosers[x] && is_present(toks[x])
}

/// The first place in the order from `from` on that holds a chooser, or its end.
fn next_chooser(nodes: &[Node], choosers: &[bool], order: &[usize], from: usize) -> usize
    requires choosers { length choosers.now ≡ length nodes.now }
    requires chosen { Choosing nodes.now choosers.now }
    requires order { All (λ x. x < length nodes.now) order.now }
    requires from { from ≤ length order.now }
    ensures above { from ≤ result }
    ensures within { result ≤ length order.now }
    ensures same { (c : List Bool) →
        others nodes.now (drop from order.now) c ≡ others nodes.now (drop result order.now) c }
{
    let mut at = from;
    while at < order.len() && !choosers[order[at]] {
        at += 1;
    }
    at
}

/// Visits the cases that follow in the order from `from` on.
fn search(
    nodes: &[Node],
    used: usize,
    choosers: &[bool],
    order: &[usize],
    from: usize,
    bits: &mut [bool],
    toks: &[CaseToken],
    count: usize,
    two: &mut [bool],
    none: &mut [bool],
) -> usize
    requires size { length nodes.now ≤ most_nodes }
    requires ranked { IsRanked nodes.now }
    requires ordered { IsOrdered nodes.now order.now }
    requires in_place { AllInPlace nodes.now }
    requires used { used ≤ length nodes.now }
    requires spare { Spare nodes.now used }
    requires choosers { length choosers.now ≡ length nodes.now }
    requires chosen { Choosing nodes.now choosers.now }
    requires order { All (λ x. x < length nodes.now) order.now }
    requires from { from ≤ length order.now }
    requires bits { length bits.old ≡ length nodes.now }
    requires length { length toks.now ≡ length nodes.now }
    requires toks { (x : ℕ) → tok_at toks.now x ≡ token nodes.now bits.old x }
    requires count { count ≤ 257 }
    requires two { length two.old ≡ PLACES }
    requires none { length none.old ≡ PLACES }
    requires free { Freed (take used nodes.now) none.old }
    ensures bits { bits.new ≡ bits.old }
    ensures free { Freed (take used nodes.now) none.new }
    ensures count { result ≤ 257 }
    ensures added { Added nodes.now (others nodes.now (drop from order.now) bits.old) count result
        two.old two.new none.old none.new }
{
    let at = next_chooser(nodes, choosers, order, from);
    if at >= order.len() || count > 256 {
        return count;
    }
    let count = search(
        nodes,
        used,
        choosers,
        order,
        at + 1,
        bits,
        toks,
        count,
        two,
        none,
    );
    let x = order[at];
    if count > 256 {
        return count;
    }
    if !has_bit(choosers, toks, x) {
        return count;
    }
    let before = bits[x];
    bits[x] = true;
    let mut table = [CaseToken::Absent; 160];
    let next = &mut table[..nodes.len()];
    let count = visit(nodes, used, order, bits, next, count, two, none);
    let count = search(
        nodes,
        used,
        choosers,
        order,
        at + 1,
        bits,
        next,
        count,
        two,
        none,
    );
    bits[x] = before;
    count
}

/// Visits every case, or at least 257.
fn explore_from(
    nodes: &[Node],
    used: usize,
    choosers: &[bool],
    order: &[usize],
    bits: &mut [bool],
    toks: &mut [CaseToken],
    two: &mut [bool],
    none: &mut [bool],
) -> usize
    requires size { length nodes.now ≤ most_nodes }
    requires ordered { IsOrdered nodes.now order.now }
    requires in_place { AllInPlace nodes.now }
    requires used { used ≤ length nodes.now }
    requires spare { Spare nodes.now used }
    requires choosers { length choosers.now ≡ length nodes.now }
    requires chosen { Choosing nodes.now choosers.now }
    requires bits { length bits.old ≡ length nodes.now }
    requires toks { length toks.old ≡ length nodes.now }
    requires two { length two.old ≡ PLACES }
    requires none { length none.old ≡ PLACES }
    ensures { Explored nodes.now result two.new none.new }
{
    for mark in two.iter_mut() {
        *mark = false;
    }
    mark_free(nodes, used, none);
    for bit in bits.iter_mut() {
        *bit = false;
    }
    let count = visit(nodes, used, order, bits, toks, 0, two, none);
    search(
        nodes, used, choosers, order, 0, bits, toks, count, two, none,
    )
}

/// Visits every case, or at least 257, and marks the places that get two tokens in one, or none.
pub(crate) fn explore(
    nodes: &[Node],
    used: usize,
    order: &[usize],
    two: &mut [bool],
    none: &mut [bool],
) -> usize
    requires size { length nodes.now ≤ most_nodes }
    requires ordered { IsOrdered nodes.now order.now }
    requires in_place { AllInPlace nodes.now }
    requires used { used ≤ length nodes.now }
    requires spare { Spare nodes.now used }
    requires two { length two.old ≡ PLACES }
    requires none { length none.old ≡ PLACES }
    ensures { Explored nodes.now result two.new none.new }
{
    let n = nodes.len();
    let mut chooser_table = [false; 160];
    let mut bit_table = [false; 160];
    let mut tok_table = [CaseToken::Absent; 160];
    let choosers = &mut chooser_table[..n];
    let bits = &mut bit_table[..n];
    let toks = &mut tok_table[..n];
    find_choosers(nodes, used, order, choosers);
    explore_from(nodes, used, choosers, order, bits, toks, two, none)
}
