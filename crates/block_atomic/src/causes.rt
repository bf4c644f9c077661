//! The cause of a block, of a table of its tokens.
ghost use Rattle.std.specs.Prelude.{◌≡◌, ◌<◌, ◌≤◌, ◌+◌, ℕ, cond, false, length};
ghost use Rattle.std.specs.Prelude.{slice_index_or, None, Some};
ghost use Rattle.trips_isa.specs.PlaceNumbers.{first_store, place_count};
ghost use Rattle.trips_isa.specs.Fits.{FitsBlock};
ghost use Rattle.trips_isa.specs.Places.{inst_node};
ghost use Rattle.trips_isa.specs.Rule.{Answer};
ghost use Rattle.trips_isa.specs.Places.{in_mask};
ghost use Rattle.trips_isa.specs.Faults.{own_fault};
ghost use Rattle.trips_isa.specs.Marks.{fired_mark, least_at, writes_to, mask_places, owed, cause, mark_of};
ghost use Rattle.trips_isa.specs.Tables.{deepest};
ghost use Rattle.block_atomic.specs.inside.MarkSlots.{IsTold, slot_marked, can_fault};
ghost use Rattle.trips_isa.specs.Faults.{divides};

use crate::mark_places::clear;
use crate::mark_rounds::settle;
use trips_isa::{
    Block, EXIT, FIRST_STORE, FIRST_WRITE, Form, Inst, NO_MARK, Op, PLACES, Token, form_of,
    in_mask, least, mark_by, operands_of, role_of,
};

// The least mark of the first writes.
fn least_of_writes(at: &[u8], count: usize) -> u8
    requires marks { length at.now ≡ place_count }
    requires count { count ≤ 32 }
    ensures { result ≡ least_at (λ q. slice_index_or at.now q 0) (writes_to count) }
{
    let mut mark = NO_MARK;
    for w in 0..count {
        mark = least(mark, at[FIRST_WRITE as usize + w]);
    }
    mark
}

// The mark at a number's place, if the mask has it.
fn number_mark(at: &[u8], mask: u32, number: u8) -> u8
    requires marks { length at.now ≡ place_count }
    requires number { number < 32 }
    ensures { result ≡ cond (in_mask mask number) (slice_index_or at.now (first_store + number) 0) 0 }
{
    if in_mask(mask, number) {
        at[FIRST_STORE as usize + number as usize]
    } else {
        NO_MARK
    }
}

// The least mark of the mask's numbers.
fn least_of_numbers(at: &[u8], mask: u32) -> u8
    requires marks { length at.now ≡ place_count }
    ensures { result ≡ least_at (λ q. slice_index_or at.now q 0) (mask_places mask) }
{
    let mut mark = NO_MARK;
    let mut number: u8 = 0;
    while number < 32 {
        mark = least(mark, number_mark(at, mask, number));
        number += 1;
    }
    mark
}

// The least mark over the places that a block owes.
fn least_owed(block: &Block, at: &[u8]) -> u8
    requires fits { FitsBlock block.now }
    requires marks { length at.now ≡ place_count }
    ensures { result ≡ least_at (λ q. slice_index_or at.now q 0) (owed block.now) }
{
    let numbers = least(least_of_numbers(at, block.mask), at[EXIT as usize]);
    least(least_of_writes(at, block.writes.len()), numbers)
}

// The own fault of an instruction that fires.
#[inline(always)]
fn fired_fault(places: &[Option<Token>], slot: usize, inst: Inst) -> u8
    requires places { length places.now ≡ 416 }
    requires slot { slot < 128 }
    ensures { result ≡ fired_mark (inst_node slot (Some inst)) (own_fault (Some inst))
        (λ q. slice_index_or places.now q None) (λ q. 0) }
{
    let operands = operands_of(role_of(inst.op), places[slot], places[128 + slot]);
    mark_by(inst, operands, NO_MARK, NO_MARK, NO_MARK)
}

// Whether an operation divides.
#[inline(always)]
fn divides(op: Op) -> bool
    ensures { result ≡ divides op }
{
    matches!(op, Op::Divs | Op::Divu)
}

// Whether an operation can fault.
#[inline(always)]
fn can_fault(op: Op) -> bool
    ensures { result ≡ can_fault op }
{
    match form_of(op) {
        Form::General => divides(op),
        Form::Load | Form::Store => true,
        Form::Immediate | Form::Branch | Form::Constant => false,
    }
}

// The own fault of what a slot gives.
#[tactic(auto, using(crate::proofs::CauseLemmas::cannot_fault))]
#[inline(always)]
fn slot_fault(
    places: &[Option<Token>],
    slot: usize,
    inst: Option<Inst>,
    answer: Option<Token>,
) -> u8
    requires places { length places.now ≡ 416 }
    requires slot { slot < 128 }
    ensures { result ≡ slot_marked (λ q. slice_index_or places.now q None) (λ q. 0) slot inst
        answer }
{
    if let Some(inst) = inst
        && let Some(_token) = answer
    {
        if can_fault(inst.op) {
            fired_fault(places, slot, inst)
        } else {
            NO_MARK
        }
    } else {
        NO_MARK
    }
}

// Whether an operation that fires faults, where the slots from number `used` on are empty.
#[inline(always)]
fn faults(
    insts: &[Option<Inst>],
    used: usize,
    table: &[Option<Token>],
    places: &[Option<Token>],
) -> bool
    requires slots { length insts.now ≡ 128 }
    requires used { (j : ℕ) → used ≤ j → slice_index_or insts.now j None ≡ None }
    requires bound { used ≤ 128 }
    requires table { length table.now ≡ 128 }
    requires places { length places.now ≡ 416 }
    ensures none { result ≡ false → (j : ℕ) → j < 128
        → slot_marked (λ q. slice_index_or places.now q None) (λ q. 0) j
        (slice_index_or insts.now j None) (slice_index_or table.now j None) ≡ 0 }
{
    for slot in 0..used {
        if slot_fault(places, slot, insts[slot], table[slot]) != 0 {
            return true;
        }
    }
    false
}

// The cause of a block in which an operation faults.
fn traced(block: &Block, table: &[Option<Token>], places: &[Option<Token>]) -> u8
    requires fits { FitsBlock block.now }
    requires table { length table.now ≡ 128 }
    requires places { length places.now ≡ 416 }
    ensures { (g : ℕ → Answer) → IsTold block.now table.now places.now g
        → result ≡ cause block.now g }
{
    let mut at = [NO_MARK; PLACES as usize];
    let mut marks = [NO_MARK; 128];
    settle(block, table, places, &mut at, &mut marks);
    least_owed(block, &at)
}

/// The cause of a block as a mark, none where it has no cause, of any table of tokens of which the
/// lists tell: `table` has what each slot gives, and `places` what stands at the operands of each
/// instruction; the slots from number `used` on are empty. Marks are looked at only where an operation
/// that fires faults.
pub fn cause(block: &Block, used: usize, table: &[Option<Token>], places: &[Option<Token>]) -> u8
    requires fits { FitsBlock block.now }
    requires used { (j : ℕ) → used ≤ j → slice_index_or block.now.insts.items j None ≡ None }
    requires bound { used ≤ 128 }
    requires table { length table.now ≡ 128 }
    requires places { length places.now ≡ 416 }
    ensures value { (g : ℕ → Answer) → IsTold block.now table.now places.now g
        → result ≡ cause block.now g }
{
    if faults(block.insts.as_slice(), used, table, places) {
        traced(block, table, places)
    } else {
        NO_MARK
    }
}

/// The marks of a block's slots, of any table of tokens of which the lists tell; the slots from number `used` on are
/// empty. Where no operation that fires faults there is none.
pub fn slot_marks(
    block: &Block,
    used: usize,
    table: &[Option<Token>],
    places: &[Option<Token>],
    marks: &mut [u8],
)
    requires fits { FitsBlock block.now }
    requires used { (j : ℕ) → used ≤ j → slice_index_or block.now.insts.items j None ≡ None }
    requires bound { used ≤ 128 }
    requires table { length table.now ≡ 128 }
    requires places { length places.now ≡ 416 }
    requires marks { length marks.old ≡ 128 }
    ensures value { (g : ℕ → Answer) → IsTold block.now table.now places.now g → (j : ℕ)
        → slice_index_or marks.new j 0 ≡ mark_of block.now g deepest (length block.now.reads.items + j) }
{
    if faults(block.insts.as_slice(), used, table, places) {
        let mut at = [NO_MARK; PLACES as usize];
        settle(block, table, places, &mut at, marks);
    } else {
        clear(marks);
    }
}
