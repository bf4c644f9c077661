//! One case: what each node gives where the bits are chosen.
ghost use Rattle.std.specs.Prelude.{◌≡◌, ◌<◌, ◌≤◌, ◌+◌, ℕ, length, slice_get, false, cond};
ghost use Rattle.std.specs.Prelude.{slice_set};
ghost use Rattle.block_cases.specs.Nodes.{targets, names, IsRanked};
ghost use Rattle.block_cases.specs.CaseRule.{matches, one_word, both_words, gives, fire};
ghost use Rattle.block_cases.specs.CaseRule.{first, pulled, or_else};
ghost use Rattle.block_cases.specs.Cases.{bit, token};
ghost use Rattle.block_check.specs.inside.Pass.{InPlace, AllInPlace, Spare, AbsentFrom, tok_at, once};

use block_cases::CaseToken;
use trips_isa::{Node, Role, Sense};

fn is_matched(sense: Sense, token: CaseToken) -> bool
    ensures { result ≡ matches sense token }
{
    match sense {
        Sense::Always => true,
        Sense::OnTrue => match token {
            CaseToken::Bit(v) => v,
            _ => false,
        },
        Sense::OnFalse => match token {
            CaseToken::Bit(v) => !v,
            _ => false,
        },
    }
}

fn of_one(v: bool, left: CaseToken) -> CaseToken
    ensures { result ≡ one_word v left }
{
    match left {
        CaseToken::Bit(_) => CaseToken::Bit(v),
        other => other,
    }
}

fn of_both(v: bool, left: CaseToken, right: CaseToken) -> CaseToken
    ensures { result ≡ both_words v left right }
{
    match left {
        CaseToken::Absent => CaseToken::Absent,
        CaseToken::Null => match right {
            CaseToken::Absent => CaseToken::Absent,
            _ => CaseToken::Null,
        },
        CaseToken::Bit(_) => of_one(v, right),
    }
}

fn given(role: Role, v: bool, left: CaseToken, right: CaseToken) -> CaseToken
    ensures { result ≡ gives role v left right }
{
    match role {
        Role::Empty => CaseToken::Absent,
        Role::Reading => CaseToken::Bit(v),
        Role::Free => CaseToken::Bit(v),
        Role::Nothing => CaseToken::Null,
        Role::Copy => left,
        Role::One => of_one(v, left),
        Role::Both => of_both(v, left, right),
    }
}

pub(crate) fn fired(
    node: Node,
    v: bool,
    left: CaseToken,
    right: CaseToken,
    guard: CaseToken,
) -> CaseToken
    ensures { result ≡ fire node v left right guard }
{
    if is_matched(node.sense, guard) {
        given(node.role, v, left, right)
    } else {
        CaseToken::Absent
    }
}

/// Puts a token in the places that a node names.
fn offer(spots: &mut [CaseToken], node: Node, token: CaseToken)
    requires spots { length spots.old ≡ 768 }
    requires in_place { InPlace node }
    ensures { (q : ℕ) → q < 768 → tok_at spots.new q
        ≡ or_else (cond (names (targets node) q) token CaseToken.Absent) (tok_at spots.old q) }
{
    if token != CaseToken::Absent {
        spots[node.second as usize] = token;
        spots[node.first as usize] = token;
    }
}

/// Puts the token of each node in the places that it names: of several the lowest producer's.
fn spread(nodes: &[Node], used: usize, toks: &[CaseToken], spots: &mut [CaseToken])
    requires in_place { AllInPlace nodes.now }
    requires used { used ≤ length nodes.now }
    requires toks { length toks.now ≡ length nodes.now }
    requires rest { AbsentFrom used toks.now }
    requires spots { length spots.old ≡ 768 }
    ensures { (q : ℕ) → q < 768 → tok_at spots.new q ≡ first nodes.now q (tok_at toks.now) }
{
    for spot in spots.iter_mut() {
        *spot = CaseToken::Absent;
    }
    let mut x = used;
    while x > 0 {
        x -= 1;
        offer(spots, nodes[x], toks[x]);
    }
}

/// Sets an entry, and says whether it is new.
fn put(toks: &mut [CaseToken], x: usize, token: CaseToken) -> bool
    requires { x < length toks.old }
    ensures set { toks.new ≡ slice_set toks.old x token }
    ensures same { result ≡ false → tok_at toks.old x ≡ token }
{
    let changed = toks[x] != token;
    toks[x] = token;
    changed
}

/// What each node gives of the places' tokens, and whether that is new.
fn sweep(
    nodes: &[Node],
    used: usize,
    bits: &[bool],
    spots: &[CaseToken],
    toks: &mut [CaseToken],
) -> bool
    requires in_place { AllInPlace nodes.now }
    requires used { used ≤ length nodes.now }
    requires spare { Spare nodes.now used }
    requires bits { length bits.now ≡ length nodes.now }
    requires toks { length toks.old ≡ length nodes.now }
    requires rest { AbsentFrom used toks.old }
    requires spots { length spots.now ≡ 768 }
    ensures same { result ≡ false → (x : ℕ) → tok_at toks.new x ≡ tok_at toks.old x }
    ensures gives { (x : ℕ) → x < length nodes.now → tok_at toks.new x
        ≡ pulled (slice_get nodes.now x) (bit bits.now x) (tok_at spots.now) }
    ensures rest { AbsentFrom used toks.new }
{
    let mut changed = false;
    for x in 0..used {
        let node = nodes[x];
        let slot = node.slot as usize;
        let token = fired(
            node,
            bits[x],
            spots[slot],
            spots[128 + slot],
            spots[256 + slot],
        );
        if put(toks, x, token) {
            changed = true;
        }
    }
    changed
}

/// One round: what each node gives where its producers give what stands in the table.
fn round(
    nodes: &[Node],
    used: usize,
    bits: &[bool],
    spots: &mut [CaseToken],
    toks: &mut [CaseToken],
) -> bool
    requires in_place { AllInPlace nodes.now }
    requires used { used ≤ length nodes.now }
    requires spare { Spare nodes.now used }
    requires bits { length bits.now ≡ length nodes.now }
    requires toks { length toks.old ≡ length nodes.now }
    requires rest { AbsentFrom used toks.old }
    requires spots { length spots.old ≡ 768 }
    ensures same { result ≡ false → (x : ℕ) → tok_at toks.new x ≡ tok_at toks.old x }
    ensures gives { (x : ℕ) → tok_at toks.new x ≡ once nodes.now (bit bits.now) (tok_at toks.old)
        x }
    ensures rest { AbsentFrom used toks.new }
{
    spread(nodes, used, toks, spots);
    sweep(nodes, used, bits, spots, toks)
}

fn offer_if_free(spots: &mut [CaseToken], place: u16, token: CaseToken)
    requires spots { length spots.old ≡ 768 }
    requires place { place < 768 }
{
    let place = place as usize;
    if spots[place] == CaseToken::Absent {
        spots[place] = token;
    }
}

/// What a node gives of what its producers before it in an order gave.
fn guess_one(
    nodes: &[Node],
    used: usize,
    x: usize,
    bits: &[bool],
    spots: &mut [CaseToken],
    toks: &mut [CaseToken],
)
    requires in_place { AllInPlace nodes.now }
    requires used { used ≤ length nodes.now }
    requires bits { length bits.now ≡ length nodes.now }
    requires toks { length toks.old ≡ length nodes.now }
    requires rest { AbsentFrom used toks.old }
    requires spots { length spots.old ≡ 768 }
    ensures rest { AbsentFrom used toks.new }
{
    if x >= used {
        return;
    }
    let node = nodes[x];
    let slot = node.slot as usize;
    let token = fired(
        node,
        bits[x],
        spots[slot],
        spots[128 + slot],
        spots[256 + slot],
    );
    toks[x] = token;
    offer_if_free(spots, node.first, token);
    offer_if_free(spots, node.second, token);
}

/// A guess at the tokens, in an order of the nodes.
fn guess(
    nodes: &[Node],
    used: usize,
    order: &[usize],
    bits: &[bool],
    spots: &mut [CaseToken],
    toks: &mut [CaseToken],
)
    requires in_place { AllInPlace nodes.now }
    requires used { used ≤ length nodes.now }
    requires bits { length bits.now ≡ length nodes.now }
    requires toks { length toks.old ≡ length nodes.now }
    requires spots { length spots.old ≡ 768 }
    ensures rest { AbsentFrom used toks.new }
{
    for token in toks.iter_mut() {
        *token = CaseToken::Absent;
    }
    for spot in spots.iter_mut() {
        *spot = CaseToken::Absent;
    }
    for x in order {
        guess_one(nodes, used, *x, bits, spots, toks);
    }
}

/// The tokens of a case, from any guess.
fn settle(
    nodes: &[Node],
    used: usize,
    bits: &[bool],
    spots: &mut [CaseToken],
    toks: &mut [CaseToken],
)
    requires ranked { IsRanked nodes.now }
    requires in_place { AllInPlace nodes.now }
    requires used { used ≤ length nodes.now }
    requires spare { Spare nodes.now used }
    requires bits { length bits.now ≡ length nodes.now }
    requires toks { length toks.old ≡ length nodes.now }
    requires rest { AbsentFrom used toks.old }
    requires spots { length spots.old ≡ 768 }
    ensures toks { (x : ℕ) → tok_at toks.new x ≡ token nodes.now bits.now x }
    ensures rest { AbsentFrom used toks.new }
{
    let mut rounds: u8 = 0;
    let mut changed = true;
    while changed && rounds < 160 {
        changed = round(nodes, used, bits, spots, toks);
        rounds += 1;
    }
}

/// The tokens of a case.
pub(crate) fn run(
    nodes: &[Node],
    used: usize,
    order: &[usize],
    bits: &[bool],
    toks: &mut [CaseToken],
)
    requires ranked { IsRanked nodes.now }
    requires in_place { AllInPlace nodes.now }
    requires used { used ≤ length nodes.now }
    requires spare { Spare nodes.now used }
    requires bits { length bits.now ≡ length nodes.now }
    requires toks { length toks.old ≡ length nodes.now }
    ensures toks { (x : ℕ) → tok_at toks.new x ≡ token nodes.now bits.now x }
    ensures rest { AbsentFrom used toks.new }
{
    let mut table = [CaseToken::Absent; 768];
    let spots = table.as_mut_slice();
    guess(nodes, used, order, bits, spots, toks);
    settle(nodes, used, bits, spots, toks);
}
