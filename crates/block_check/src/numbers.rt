//! Load/store numbers and registers of writes that a block may not have.
ghost use Rattle.std.specs.Prelude.{◌≡◌, ◌<◌, ◌≤◌, ◌||◌, length, take, MatchOption};
ghost use Rattle.trips_isa.specs.Fits.{FitsBlock};
ghost use Rattle.block_cases.specs.Blocks.{is_load, is_store};
ghost use Rattle.block_cases.specs.Orders.{loads, has_load, has_item};
ghost use Rattle.block_cases.specs.Orders.{bad_number, bad_write, NoneBelow};
ghost use Rattle.block_cases.specs.inside.Orders.{IsLeast};
ghost use Rattle.block_check.specs.inside.Used.{IsEmptyFrom};

use crate::nodes::in_mask;
use crate::targets::slot_of;
use trips_isa::{Block, Form, Inst, form_of};

fn is_load(form: Form) -> bool
    ensures { result ≡ is_load form }
{
    match form {
        Form::Load => true,
        _ => false,
    }
}

fn is_store(form: Form) -> bool
    ensures { result ≡ is_store form }
{
    match form {
        Form::Store => true,
        _ => false,
    }
}

fn loads(inst: Option<Inst>, number: u8) -> bool
    ensures { result ≡ loads inst number }
{
    match inst {
        None => false,
        Some(i) => is_load(form_of(i.op)) && i.number == number,
    }
}

fn either(a: bool, b: bool) -> bool
    ensures { result ≡ (a || b) }
{
    a || b
}

/// Whether a slot below `end` loads with this number.
fn has_load(insts: &[Option<Inst>], end: usize, number: u8) -> bool
    requires { end ≤ length insts.now }
    ensures { result ≡ has_load (take end insts.now) number }
{
    let mut found = false;
    for k in 0..end {
        found = either(found, loads(insts[k], number));
    }
    found
}

/// Whether an item below `end` is this one.
fn has_item(items: &[u8], end: usize, item: u8) -> bool
    requires { end ≤ length items.now }
    ensures { result ≡ has_item (take end items.now) item }
{
    let mut found = false;
    for k in 0..end {
        found = either(found, items[k] == item);
    }
    found
}

fn is_bad_number(block: &Block, j: u8) -> bool
    requires fits { FitsBlock block.now }
    requires j { j < 128 }
    ensures { result ≡ bad_number block.now j }
{
    match slot_of(block, j) {
        None => false,
        Some(i) => {
            let form = form_of(i.op);
            let stands = in_mask(block.mask, i.number);
            (is_store(form) && !stands)
                || (is_load(form)
                    && (stands || has_load(block.insts.as_slice(), j as usize, i.number)))
        }
    }
}

fn is_bad_write(block: &Block, w: usize) -> bool
    requires { w < length block.now.writes.items }
    ensures { result ≡ bad_write block.now w }
{
    let writes = block.writes.as_slice();
    has_item(writes, w, writes[w])
}

// The first slot below `used` with a bad number.
fn find_number_used(block: &Block, used: u8) -> Option<u8>
    requires fits { FitsBlock block.now }
    requires within { used ≤ 128 }
    ensures { MatchOption result
        (NoneBelow (bad_number block.now) used) (IsLeast (bad_number block.now) used) }
{
    for j in 0..used {
        if is_bad_number(block, j) {
            return Some(j);
        }
    }
    None
}

/// The first slot with a bad number.
pub(crate) fn find_bad_number(block: &Block, used: u8) -> Option<u8>
    requires fits { FitsBlock block.now }
    requires within { used ≤ 128 }
    requires empty { IsEmptyFrom block.now used }
    ensures { MatchOption result
        (NoneBelow (bad_number block.now) 128) (IsLeast (bad_number block.now) 128) }
{
    find_number_used(block, used)
}

/// The first write of a register that an earlier one names.
pub(crate) fn find_bad_write(block: &Block) -> Option<u8>
    requires { FitsBlock block.now }
    ensures { let count = length block.now.writes.items in
        MatchOption result
        (NoneBelow (bad_write block.now) count) (IsLeast (bad_write block.now) count) }
{
    for w in 0..block.writes.len() {
        if is_bad_write(block, w) {
            return Some(w as u8);
        }
    }
    None
}
