//! The marks of a block's slots, by rounds until they hold still.
ghost use Rattle.std.specs.Prelude.{◌≡◌, ◌+◌, ◌<◌, ℕ, false, Some, length, slice_index_or, slice_set, None};
ghost use Rattle.trips_isa.specs.PlaceNumbers.{place_count};
ghost use Rattle.trips_isa.specs.Forms.{takes_left, takes_right};
ghost use Rattle.trips_isa.specs.Places.{nodes_of, inst_node};
ghost use Rattle.trips_isa.specs.Rule.{Answer};
ghost use Rattle.trips_isa.specs.Tables.{deepest};
ghost use Rattle.trips_isa.specs.Faults.{own_fault};
ghost use Rattle.trips_isa.specs.Marks.{fired_mark, mark_at, mark_of};
ghost use Rattle.block_atomic.specs.inside.MarkSlots.{IsTold, slot_marked};

use crate::mark_places::{clear, fill};
use trips_isa::{Block, Inst, Role, Token, is_guarded, mark_by, only_if, operands_of, role_of};

fn takes_left(role: Role) -> bool
    ensures { result ≡ takes_left role }
{
    matches!(role, Role::Copy | Role::One | Role::Both)
}

fn takes_right(role: Role) -> bool
    ensures { result ≡ takes_right role }
{
    matches!(role, Role::Both)
}

// The mark of an instruction that fires.
fn fired(places: &[Option<Token>], at: &[u8], slot: usize, inst: Inst) -> u8
    requires places { length places.now ≡ 416 }
    requires marks { length at.now ≡ place_count }
    requires slot { slot < 128 }
    ensures { result ≡ fired_mark (inst_node slot (Some inst)) (own_fault (Some inst))
        (λ q. slice_index_or places.now q None) (λ q. slice_index_or at.now q 0) }
{
    let role = role_of(inst.op);
    mark_by(
        inst,
        operands_of(role, places[slot], places[128 + slot]),
        only_if(takes_left(role), at[slot]),
        only_if(takes_right(role), at[128 + slot]),
        only_if(is_guarded(inst.sense), at[256 + slot]),
    )
}

// The mark of what a slot gives.
fn slot_mark(
    places: &[Option<Token>],
    at: &[u8],
    slot: usize,
    inst: Option<Inst>,
    answer: Option<Token>,
) -> u8
    requires places { length places.now ≡ 416 }
    requires marks { length at.now ≡ place_count }
    requires slot { slot < 128 }
    ensures { result ≡ slot_marked (λ q. slice_index_or places.now q None)
        (λ q. slice_index_or at.now q 0) slot inst answer }
{
    if let Some(inst) = inst
        && let Some(_token) = answer
    {
        fired(places, at, slot, inst)
    } else {
        0
    }
}

// Puts a mark in the list, and says whether it is another than before.
fn set(marks: &mut [u8], slot: usize, mark: u8) -> bool
    requires { slot < length marks.old }
    ensures set { marks.new ≡ slice_set marks.old slot mark }
    ensures same { result ≡ false → marks.new ≡ marks.old }
{
    let changed = mark != marks[slot];
    marks[slot] = mark;
    changed
}

// Asks each slot once, and says whether a mark changed.
fn sweep(
    insts: &[Option<Inst>],
    table: &[Option<Token>],
    places: &[Option<Token>],
    at: &[u8],
    marks: &mut [u8],
) -> bool
    requires slots { length insts.now ≡ 128 }
    requires table { length table.now ≡ 128 }
    requires places { length places.now ≡ 416 }
    requires at { length at.now ≡ place_count }
    requires marks { length marks.old ≡ 128 }
    ensures answers { (j : ℕ) → j < 128 → slice_index_or marks.new j 0
        ≡ slot_marked (λ q. slice_index_or places.now q None) (λ q. slice_index_or at.now q 0) j
        (slice_index_or insts.now j None) (slice_index_or table.now j None) }
    ensures same { result ≡ false → marks.new ≡ marks.old }
{
    let mut changed = false;
    for slot in 0..128 {
        let mark = slot_mark(places, at, slot, insts[slot], table[slot]);
        if set(marks, slot, mark) {
            changed = true;
        }
    }
    changed
}

/// The marks at the places of a block and those of its slots, of any table of tokens of which the lists tell. What
/// `at` and `marks` hold before is of no account.
pub fn settle(
    block: &Block,
    table: &[Option<Token>],
    places: &[Option<Token>],
    at: &mut [u8],
    marks: &mut [u8],
)
    requires slots { length block.now.insts.items ≡ 128 }
    requires table { length table.now ≡ 128 }
    requires places { length places.now ≡ 416 }
    requires at { length at.old ≡ place_count }
    requires marks { length marks.old ≡ 128 }
    ensures value { (g : ℕ → Answer) → IsTold block.now table.now places.now g → (q : ℕ) → q < place_count
        → slice_index_or at.new q 0 ≡ mark_at (nodes_of block.now) g (mark_of block.now g deepest) q }
    ensures marks { (g : ℕ → Answer) → IsTold block.now table.now places.now g → (j : ℕ)
        → slice_index_or marks.new j 0 ≡ mark_of block.now g deepest (length block.now.reads.items + j) }
{
    clear(marks);
    let mut rounds: u8 = 0;
    let mut changed = true;
    while changed && rounds < 160 {
        fill(block, table, marks, at);
        changed = sweep(block.insts.as_slice(), table, places, at, marks);
        rounds += 1;
    }
    fill(block, table, marks, at);
}
