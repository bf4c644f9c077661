//! The marks of the places that get two tokens in a case, or none.
ghost use Rattle.std.specs.Prelude.{◌≡◌, ◌<◌, ◌≤◌, ◌+◌, ◌||◌, ◌&&◌, ◌==◌, ℕ, length, slice_index};
ghost use Rattle.std.specs.Prelude.{nat_lt, min, take};
ghost use Rattle.block_cases.specs.Nodes.{targets, names, hits, one_if};
ghost use Rattle.block_cases.specs.CaseRule.{no};
ghost use Rattle.block_cases.specs.Cases.{bit, present, tokens};
ghost use Rattle.block_check.specs.inside.Pass.{InPlace, AllInPlace, AbsentFrom, tok_at};
ghost use Rattle.block_check.specs.inside.Named.{named, Freed};
ghost use Rattle.trips_isa.specs.Limits.{most_nodes};

use crate::search::is_present;
use block_cases::CaseToken;
use trips_isa::{Node, PLACES};

// One more, where two and more are not told apart.
fn one_more(count: u8) -> u8
    requires { count ≤ 2 }
    ensures { result ≡ min 2 (count + 1) }
{
    if count < 2 { count + 1 } else { 2 }
}

// A token at a place is seen.
fn see_at(seen: &mut [u8], place: u16)
    requires size { length seen.old ≡ 768 }
    requires place { place < 768 }
    requires low { (q : ℕ) → q < 768 → slice_index seen.old q ≤ 2 }
    ensures { (q : ℕ) → q < 768 →
        slice_index seen.new q ≡ min 2 (slice_index seen.old q + one_if (place == q)) }
{
    let place = place as usize;
    seen[place] = one_more(seen[place]);
}

// The tokens that a node gives are seen.
fn see_node(seen: &mut [u8], node: Node)
    requires size { length seen.old ≡ 768 }
    requires in_place { InPlace node }
    requires low { (q : ℕ) → q < 768 → slice_index seen.old q ≤ 2 }
    ensures { (q : ℕ) → q < 768 →
        slice_index seen.new q ≡ min 2 (slice_index seen.old q + hits (targets node) q) }
{
    see_at(seen, node.first);
    see_at(seen, node.second);
}

// Whether each place gets no token, one, or more.
fn see_tokens(nodes: &[Node], used: usize, toks: &[CaseToken], seen: &mut [u8])
    requires in_place { AllInPlace nodes.now }
    requires used { used ≤ length nodes.now }
    requires toks { length toks.now ≡ length nodes.now }
    requires rest { AbsentFrom used toks.now }
    requires size { length seen.old ≡ 768 }
    ensures two { (q : ℕ) → q < 768 →
        nat_lt 1 (slice_index seen.new q) ≡ nat_lt 1 (tokens nodes.now (tok_at toks.now) q) }
    ensures none { (q : ℕ) → q < 768 →
        (slice_index seen.new q == 0) ≡ (tokens nodes.now (tok_at toks.now) q == 0) }
{
    for count in seen.iter_mut() {
        *count = 0;
    }
    for x in 0..used {
        if is_present(toks[x]) {
            see_node(seen, nodes[x]);
        }
    }
}

// Marks a place, where it is one of the block.
fn mark_at(marks: &mut [bool], place: u16, mark: bool)
    requires { length marks.old ≡ PLACES }
    ensures { (q : ℕ) → q < PLACES → bit marks.new q ≡ (bit marks.old q || ((place == q) && mark)) }
{
    if mark && place < PLACES {
        marks[place as usize] = true;
    }
}

// Marks a place where it gets two tokens, or none.
fn mark_place(seen: &[u8], place: u16, two: &mut [bool], none: &mut [bool])
    requires size { length seen.now ≡ 768 }
    requires place { place < 768 }
    requires two { length two.old ≡ PLACES }
    requires none { length none.old ≡ PLACES }
    ensures two { (q : ℕ) → q < PLACES →
        bit two.new q ≡ (bit two.old q || ((place == q) && nat_lt 1 (slice_index seen.now q))) }
    ensures none { (q : ℕ) → q < PLACES →
        bit none.new q ≡ (bit none.old q || ((place == q) && (slice_index seen.now q == 0))) }
{
    let count = seen[place as usize];
    mark_at(two, place, count > 1);
    mark_at(none, place, count == 0);
}

// Marks those of the places that a node names which get two tokens, or none.
fn mark_node(seen: &[u8], node: Node, two: &mut [bool], none: &mut [bool])
    requires size { length seen.now ≡ 768 }
    requires in_place { InPlace node }
    requires two { length two.old ≡ PLACES }
    requires none { length none.old ≡ PLACES }
    ensures two { (q : ℕ) → q < PLACES →
        bit two.new q ≡ (bit two.old q || (names (targets node) q && nat_lt 1 (slice_index seen.now q))) }
    ensures none { (q : ℕ) → q < PLACES →
        bit none.new q ≡ (bit none.old q || (names (targets node) q && (slice_index seen.now q == 0))) }
{
    mark_place(seen, node.first, two, none);
    mark_place(seen, node.second, two, none);
}

/// Marks the places that get two tokens, and those that get none. A place that no node names never
/// gets one, so it is marked before.
pub(crate) fn mark(
    nodes: &[Node],
    used: usize,
    toks: &[CaseToken],
    two: &mut [bool],
    none: &mut [bool],
)
    requires size { length nodes.now ≤ most_nodes }
    requires in_place { AllInPlace nodes.now }
    requires used { used ≤ length nodes.now }
    requires toks { length toks.now ≡ length nodes.now }
    requires rest { AbsentFrom used toks.now }
    requires two { length two.old ≡ PLACES }
    requires none { length none.old ≡ PLACES }
    requires free { Freed (take used nodes.now) none.old }
    ensures two { (q : ℕ) → q < PLACES →
        bit two.new q ≡ (bit two.old q || nat_lt 1 (tokens nodes.now (tok_at toks.now) q)) }
    ensures none { (q : ℕ) → q < PLACES →
        bit none.new q ≡ (bit none.old q || (tokens nodes.now (tok_at toks.now) q == 0)) }
{
    let mut table = [0u8; 768];
    let seen = table.as_mut_slice();
    see_tokens(nodes, used, toks, seen);
    for x in 0..used {
        mark_node(seen, nodes[x], two, none);
    }
}

fn is_absent(token: CaseToken) -> bool
    ensures { result ≡ no (present token) }
{
    match token {
        CaseToken::Absent => true,
        _ => false,
    }
}

// Marks a place that has no token.
fn mark_gap_at(spots: &[CaseToken], place: u16, none: &mut [bool])
    requires spots { length spots.now ≡ 768 }
    requires place { place < 768 }
    requires none { length none.old ≡ PLACES }
    ensures { (q : ℕ) → q < PLACES → bit none.new q ≡
        (bit none.old q || ((place == q) && no (present (tok_at spots.now q)))) }
{
    let gap = is_absent(spots[place as usize]);
    mark_at(none, place, gap);
}

// Marks those of the places that a node names which have no token.
fn mark_gaps_of(spots: &[CaseToken], node: Node, none: &mut [bool])
    requires spots { length spots.now ≡ 768 }
    requires in_place { InPlace node }
    requires none { length none.old ≡ PLACES }
    ensures { (q : ℕ) → q < PLACES → bit none.new q ≡
        (bit none.old q || (names (targets node) q && no (present (tok_at spots.now q)))) }
{
    mark_gap_at(spots, node.first, none);
    mark_gap_at(spots, node.second, none);
}

/// Marks the places that nodes name and that have no token.
pub(crate) fn mark_gaps(nodes: &[Node], used: usize, spots: &[CaseToken], none: &mut [bool])
    requires in_place { AllInPlace nodes.now }
    requires used { used ≤ length nodes.now }
    requires spots { length spots.now ≡ 768 }
    requires none { length none.old ≡ PLACES }
    ensures { (q : ℕ) → q < PLACES → bit none.new q ≡
        (bit none.old q || (named (take used nodes.now) q && no (present (tok_at spots.now q)))) }
{
    for x in 0..used {
        mark_gaps_of(spots, nodes[x], none);
    }
}

// Takes the mark of a place away, where it is one of the block.
fn unmark_at(marks: &mut [bool], place: u16)
    requires { length marks.old ≡ PLACES }
    ensures { (q : ℕ) → q < PLACES → bit marks.new q ≡ (bit marks.old q && no (place == q)) }
{
    if place < PLACES {
        marks[place as usize] = false;
    }
}

// Takes the marks of the places that a node names away.
fn unmark_node(marks: &mut [bool], node: Node)
    requires { length marks.old ≡ PLACES }
    ensures { (q : ℕ) → q < PLACES → bit marks.new q ≡ (bit marks.old q && no (names (targets node) q)) }
{
    unmark_at(marks, node.first);
    unmark_at(marks, node.second);
}

/// Marks the places that no node names.
pub(crate) fn mark_free(nodes: &[Node], used: usize, none: &mut [bool])
    requires used { used ≤ length nodes.now }
    requires none { length none.old ≡ PLACES }
    ensures { (q : ℕ) → q < PLACES → bit none.new q ≡ no (named (take used nodes.now) q) }
{
    for mark in none.iter_mut() {
        *mark = true;
    }
    for x in 0..used {
        unmark_node(none, nodes[x]);
    }
}
