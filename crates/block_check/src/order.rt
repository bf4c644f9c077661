//! An order of the nodes along the edges.
ghost use Rattle.std.specs.Prelude.{nat_le, nat_lt, ◌≡◌, ◌<◌, ◌≤◌, ◌+◌, ◌||◌, ◌&&◌, ◌==◌, ℕ};
ghost use Rattle.std.specs.Prelude.{length, slice_index_or, slice_index, slice_get, slice_set};
ghost use Rattle.std.specs.Prelude.{false, true, Some, List};
ghost use Rattle.block_cases.specs.Nodes.{IsRanked, targets, names, hits, stores_below, feeds};
ghost use Rattle.block_cases.specs.Nodes.{HasCycle};
ghost use Rattle.block_check.specs.inside.Pass.{InPlace, AllInPlace};
ghost use Rattle.block_check.specs.inside.PartOrder.{Stuck, PartOrder, AllStuck, IsOrdered, unplaced};
ghost use Rattle.block_check.specs.inside.PartOrder.{Counting};
ghost use Rattle.trips_isa.specs.declared.node.Node.{Node};
ghost use Rattle.trips_isa.specs.Limits.{most_nodes};

use crate::search::count_tokens;
use block_cases::CaseToken;
use trips_isa::{FIRST_STORE, FIRST_WRITE, Node};

/// Whether a count from `from` on and below `end` is not 0.
fn any_waits(counts: &[u16], end: u16) -> bool
    requires counts { length counts.now ≡ 768 }
    requires end { end < 768 }
    ensures free { result ≡ false → (q : ℕ) → FIRST_STORE ≤ q → q < end → slice_index counts.now q ≡ 0 }
    ensures stuck { result ≡ true → (q : ℕ) × (FIRST_STORE ≤ q) × (q < end)
        × (0 < slice_index counts.now q) }
{
    for q in FIRST_STORE..end {
        if counts[q as usize] > 0 {
            return true;
        }
    }
    false
}

fn waits_at(counts: &[u16], place: usize) -> bool
    requires { place < length counts.now }
    ensures { result ≡ nat_lt 0 (slice_index counts.now place) }
{
    counts[place] > 0
}

fn is_any(a: bool, b: bool, c: bool, d: bool) -> bool
    ensures { result ≡ (a || (b || (c || d))) }
{
    a || b || c || d
}

/// Whether a node that is not placed feeds this one.
fn is_blocked(nodes: &[Node], ranks: &[u8], counts: &[u16], node: Node) -> bool
    requires ranks { length ranks.now ≡ length nodes.now }
    requires counts { length counts.now ≡ 768 }
    requires counting { Counting nodes.now ranks.now counts.now }
    requires in_place { InPlace node }
    ensures free { result ≡ false → (y : ℕ) (m : Node) → slice_get nodes.now y ≡ Some m →
        slice_index ranks.now y ≡ 255 → feeds m node ≡ false }
    ensures stuck { result ≡ true → Stuck nodes.now ranks.now node }
{
    let slot = node.slot as usize;
    let left = waits_at(counts, slot);
    let right = waits_at(counts, 128 + slot);
    let guard = waits_at(counts, 256 + slot);
    let loads = any_waits(counts, node.below);
    is_any(left, right, guard, loads)
}

/// Takes a node's targets away.
fn drop_node(counts: &mut [u16], node: Node)
    requires counts { length counts.old ≡ 768 }
    requires in_place { InPlace node }
    requires held { (q : ℕ) → q < 768 → hits (targets node) q ≤ slice_index counts.old q }
    ensures { (q : ℕ) → q < 768 →
        slice_index counts.new q + hits (targets node) q ≡ slice_index counts.old q }
{
    counts[node.first as usize] -= 1;
    counts[node.second as usize] -= 1;
}

fn place(ranks: &mut [u8], order: &mut [usize], placed: usize, x: usize)
    requires x { x < length ranks.old }
    requires room { placed < length order.old }
    requires few { placed < 255 }
    ensures ranks { ranks.new ≡ slice_set ranks.old x placed }
    ensures order { order.new ≡ slice_set order.old placed x }
{
    ranks[x] = placed as u8;
    order[placed] = x;
}

/// Places a node where all that feed it are placed.
fn try_place(
    nodes: &[Node],
    ranks: &mut [u8],
    order: &mut [usize],
    counts: &mut [u16],
    placed: usize,
    x: usize,
) -> usize
    requires size { length nodes.now ≤ most_nodes }
    requires in_place { AllInPlace nodes.now }
    requires counts { length counts.old ≡ 768 }
    requires counting { Counting nodes.now ranks.old counts.old }
    requires placing { PartOrder nodes.now ranks.old order.old placed }
    requires x { x < length nodes.now }
    ensures placing { PartOrder nodes.now ranks.new order.new result }
    ensures counting { Counting nodes.now ranks.new counts.new }
    ensures more { placed ≤ result }
    ensures same { result ≡ placed → ranks.new ≡ ranks.old }
    ensures stuck { result ≡ placed → (n : Node) → slice_get nodes.now x ≡ Some n →
        slice_index ranks.old x ≡ 255 → Stuck nodes.now ranks.old n }
{
    if ranks[x] != 255 {
        return placed;
    }
    let node = nodes[x];
    if is_blocked(nodes, ranks, counts, node) {
        return placed;
    }
    drop_node(counts, node);
    place(ranks, order, placed, x);
    placed + 1
}

/// Tries each node once.
fn pass(
    nodes: &[Node],
    ranks: &mut [u8],
    order: &mut [usize],
    counts: &mut [u16],
    before: usize,
) -> usize
    requires size { length nodes.now ≤ most_nodes }
    requires in_place { AllInPlace nodes.now }
    requires counts { length counts.old ≡ 768 }
    requires counting { Counting nodes.now ranks.old counts.old }
    requires placing { PartOrder nodes.now ranks.old order.old before }
    ensures placing { PartOrder nodes.now ranks.new order.new result }
    ensures counting { Counting nodes.now ranks.new counts.new }
    ensures more { before ≤ result }
    ensures stuck { result ≡ before → AllStuck nodes.now ranks.new (length nodes.now) }
{
    let mut placed = before;
    for x in 0..nodes.len() {
        placed = try_place(nodes, ranks, order, counts, placed, x);
    }
    placed
}

/// The node that has this place as an operand or as its predicate; a number past the nodes where
/// none has.
fn consumer(nodes: usize, place: u16) -> usize {
    let slot = place as usize % 128;
    if place < FIRST_WRITE && 128 <= nodes {
        nodes - 128 + slot
    } else {
        nodes
    }
}

/// Places the consumer at a place where all that feed it are placed.
fn try_consumer(
    nodes: &[Node],
    ranks: &mut [u8],
    order: &mut [usize],
    counts: &mut [u16],
    placed: usize,
    place: u16,
) -> usize
    requires size { length nodes.now ≤ most_nodes }
    requires in_place { AllInPlace nodes.now }
    requires counts { length counts.old ≡ 768 }
    requires counting { Counting nodes.now ranks.old counts.old }
    requires placing { PartOrder nodes.now ranks.old order.old placed }
    ensures placing { PartOrder nodes.now ranks.new order.new result }
    ensures counting { Counting nodes.now ranks.new counts.new }
    ensures more { placed ≤ result }
{
    let x = consumer(nodes.len(), place);
    if x < nodes.len() {
        return try_place(nodes, ranks, order, counts, placed, x);
    }
    placed
}

/// Tries the consumers of each node as soon as the node is placed, so that a block without stores
/// before loads is placed in one go, whatever the order of its slots.
fn follow(
    nodes: &[Node],
    ranks: &mut [u8],
    order: &mut [usize],
    counts: &mut [u16],
    before: usize,
) -> usize
    requires size { length nodes.now ≤ most_nodes }
    requires in_place { AllInPlace nodes.now }
    requires counts { length counts.old ≡ 768 }
    requires counting { Counting nodes.now ranks.old counts.old }
    requires placing { PartOrder nodes.now ranks.old order.old before }
    ensures placing { PartOrder nodes.now ranks.new order.new result }
    ensures counting { Counting nodes.now ranks.new counts.new }
    ensures more { before ≤ result }
{
    let mut placed = before;
    let mut head = 0;
    while head < placed && placed < nodes.len() {
        let node = nodes[order[head]];
        placed = try_consumer(nodes, ranks, order, counts, placed, node.first);
        placed = try_consumer(nodes, ranks, order, counts, placed, node.second);
        head += 1;
    }
    placed
}

/// Places what can be placed.
fn place_all(nodes: &[Node], ranks: &mut [u8], order: &mut [usize], counts: &mut [u16]) -> usize
    requires size { length nodes.now ≤ most_nodes }
    requires in_place { AllInPlace nodes.now }
    requires counts { length counts.old ≡ 768 }
    requires counting { Counting nodes.now ranks.old counts.old }
    requires placing { PartOrder nodes.now ranks.old order.old 0 }
    ensures placing { PartOrder nodes.now ranks.new order.new result }
    ensures stuck { result < length nodes.now → AllStuck nodes.now ranks.new (length nodes.now) }
{
    let first = pass(nodes, ranks, order, counts, 0);
    let mut placed = follow(nodes, ranks, order, counts, first);
    let mut changed = true;
    while changed && placed < nodes.len() {
        let before = placed;
        placed = pass(nodes, ranks, order, counts, before);
        changed = placed != before;
    }
    placed
}

fn count_with(nodes: &[Node], toks: &mut [CaseToken], counts: &mut [u16])
    requires size { length nodes.now ≤ most_nodes }
    requires in_place { AllInPlace nodes.now }
    requires toks { length toks.old ≡ length nodes.now }
    requires counts { length counts.old ≡ 768 }
    ensures { (ranks : List ℕ) → ((k : ℕ) → k < length nodes.now → slice_index ranks k ≡ 255) →
        Counting nodes.now ranks counts.new }
{
    for tok in toks.iter_mut() {
        *tok = CaseToken::Null;
    }
    count_tokens(nodes, nodes.len(), toks, counts);
}

/// Counts the targets that name each place.
fn count_all(nodes: &[Node], counts: &mut [u16])
    requires size { length nodes.now ≤ most_nodes }
    requires in_place { AllInPlace nodes.now }
    requires counts { length counts.old ≡ 768 }
    ensures { (ranks : List ℕ) → ((k : ℕ) → k < length nodes.now → slice_index ranks k ≡ 255) →
        Counting nodes.now ranks counts.new }
{
    let mut table = [CaseToken::Null; 160];
    count_with(nodes, &mut table[..nodes.len()], counts);
}

fn sort_by(nodes: &[Node], ranks: &mut [u8], order: &mut [usize], counts: &mut [u16]) -> bool
    requires size { length nodes.now ≤ most_nodes }
    requires in_place { AllInPlace nodes.now }
    requires counts { length counts.old ≡ 768 }
    requires order { length order.old ≡ length nodes.now }
    requires ranks { length ranks.old ≡ length nodes.now }
    ensures ordered { result ≡ true → IsOrdered nodes.now order.new }
    ensures cycle { result ≡ false → HasCycle nodes.now }
{
    for rank in ranks.iter_mut() {
        *rank = 255;
    }
    count_all(nodes, counts);
    let placed = place_all(nodes, ranks, order, counts);
    placed >= nodes.len()
}

/// An order of the nodes; false where they have a cycle.
pub(crate) fn sort(nodes: &[Node], order: &mut [usize]) -> bool
    requires size { length nodes.now ≤ most_nodes }
    requires in_place { AllInPlace nodes.now }
    requires order { length order.old ≡ length nodes.now }
    ensures ordered { result ≡ true → IsOrdered nodes.now order.new }
    ensures cycle { result ≡ false → HasCycle nodes.now }
{
    let mut table = [255u8; 160];
    let mut counts = [0u16; 768];
    sort_by(
        nodes,
        &mut table[..nodes.len()],
        order,
        counts.as_mut_slice(),
    )
}
