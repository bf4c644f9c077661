//! What goes into a block whole: statements, the items around a call, and those at a function's begin.

use crate::estimate::{Estimate, register_of};
use base::Items;
use ir_forms::{Arg, FlatFunc, FlatStmt};
use trips_isa::Op;

/// The registers that calls give a meaning to: the stack's end, the address to come back to, the result,
/// and argument 0.
const STACK: usize = 1;

const BACK: usize = 2;

const RESULT: usize = 3;

const ARGUMENTS: usize = 4;

/// The bytes of a function's frame and of its arrays.
#[derive(Clone, Copy)]
pub struct Frame {
    pub bytes: u64,
    pub arrays: u64,
}

/// The frame of a function: 18 words, one for each scalar, and its arrays.
pub fn frame_of(f: &FlatFunc) -> Frame {
    let arrays = f.arrays as u64;
    Frame {
        bytes: 8 * (18 + f.scalars as u64) + arrays,
        arrays,
    }
}

/// The result of a function, the way out, and the return.
pub fn add_return(block: &mut Estimate, value: Option<Arg>, frame: Frame) {
    match value {
        None => {}
        Some(value) => block.put(RESULT, value),
    }
    block.shift(STACK, STACK, frame.bytes);
    block.take(STACK);
    block.loaded(BACK);
    block.take(BACK);
}

/// A system call: its number goes to register 0.
fn add_system(block: &mut Estimate, number: u64) {
    block.put(0, Arg::Const(number));
}

/// What a statement does in the block that it stands in; of an if its test.
pub fn add_statement(block: &mut Estimate, s: &FlatStmt, frame: Frame) {
    match s {
        FlatStmt::Let { to, op, a, b } => block.set(register_of(*to), *op, *a, *b),
        FlatStmt::Frame { to, at } => {
            block.shift(
                register_of(*to),
                STACK,
                frame.arrays.saturating_sub(*at as u64),
            )
        }
        FlatStmt::Load { to, address, .. } => block.load(register_of(*to), *address),
        FlatStmt::Save { address, value, .. } => block.save(*address, *value),
        FlatStmt::Call { .. } => {}
        FlatStmt::Put(value) => {
            add_system(block, 1);
            block.put(RESULT, *value);
        }
        FlatStmt::Get { .. } => add_system(block, 2),
        FlatStmt::If { test, .. } => block.test(*test),
        FlatStmt::Loop { .. } => {}
        FlatStmt::Break => {}
        FlatStmt::Continue => {}
        FlatStmt::Return(value) => add_return(block, *value, frame),
        FlatStmt::Halt(value) => block.put(RESULT, *value),
    }
}

/// A group of variables goes to its slots; register 0 has each address.
pub fn add_saves(block: &mut Estimate, group: &[u16], frame: Frame) {
    for v in group {
        block.shift(0, STACK, frame.bytes);
        block.take(0);
        block.take(register_of(*v));
        block.saved();
    }
}

/// A group of variables comes back from its slots.
pub fn add_restores(block: &mut Estimate, group: &[u16], frame: Frame) {
    for v in group {
        block.shift(0, STACK, frame.bytes);
        block.take(0);
        block.loaded(register_of(*v));
    }
}

/// The arguments, and the call: the address to come back to is two instructions, and a `mov` puts it into
/// its register.
pub fn add_call(block: &mut Estimate, args: &[Arg]) {
    let mut register = ARGUMENTS;
    for x in args {
        block.put(register, *x);
        register = register.saturating_add(1);
    }
    block.put(BACK, Arg::Const(65_536));
}

/// What a call or a system call gives goes to a variable.
pub fn add_result(block: &mut Estimate, to: u16) {
    block.copy(register_of(to), RESULT);
}

/// The way into a function, and its parameters.
pub fn add_way_in(block: &mut Estimate, params: u8, frame: Frame) {
    block.take(STACK);
    block.take(BACK);
    block.saved();
    block.shift(STACK, STACK, frame.bytes);
    for i in 0..params {
        block.copy(register_of(i as u16), ARGUMENTS + i as usize);
    }
}

/// Whether a statement is an operation, a load or a store.
pub fn is_plain(s: &FlatStmt) -> bool {
    match s {
        FlatStmt::Let { .. } => true,
        FlatStmt::Frame { .. } => true,
        FlatStmt::Load { .. } => true,
        FlatStmt::Save { .. } => true,
        _ => false,
    }
}
