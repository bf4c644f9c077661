//! The nodes of single items.
ghost use Rattle.std.specs.Prelude.{◌≡◌, ◌+◌, [], ◌∷◌, ◌++◌, IfOk, OnOk};
ghost use Rattle.trips_isa.specs.Forms as forms;
ghost use Rattle.ir_forms.specs.inside.HyperCode as code;
ghost use Rattle.predication.specs.inside.Environments.{from_node, note, put};
ghost use Rattle.predication.specs.inside.Operands as operands;
ghost use Rattle.predication.specs.inside.Emits.{bits_of, env_of};
ghost use Rattle.predication.specs.inside.Ends.{ends};

use crate::naming::{bit_of, note_bit, put_entry};
use crate::nodes::push;
use crate::reading::{one, operand, second};
use crate::work::{Entry, Names, Work};
use base::{Items, Memory};
use ir_forms::{FlowSource, Guard, Source};
use std::alloc::Global;
use trips_isa::{Op, Role, role_of};

fn takes_right(op: Op) -> bool
    ensures { result ≡ forms.takes_right (forms.role_of op) }
{
    match role_of(op) {
        Role::Both => true,
        _ => false,
    }
}

fn is_test(op: Op) -> bool
    ensures { result ≡ operands.is_test op }
{
    match op {
        Op::Teq | Op::Tne | Op::Tlt | Op::Tle | Op::Tgt | Op::Tge => true,
        Op::Tltu | Op::Tleu | Op::Tgtu | Op::Tgeu => true,
        _ => false,
    }
}

fn is_move(op: Op) -> bool
    ensures { result ≡ operands.is_move op }
{
    match op {
        Op::Mov => true,
        _ => false,
    }
}

fn node_bit(is_bit: bool, at: u32) -> Option<u32>
    ensures { result ≡ operands.bit_of is_bit at }
{
    if is_bit { Some(at) } else { None }
}

// The bit that an operand has.
fn operand_bit(names: &Names, operand: Source) -> Option<u32>
    ensures { result ≡ operands.bit_at (bits_of names.now.bits) operand }
{
    match operand {
        Source::Const(_) => None,
        Source::Reg(register) => bit_of(names.bits.as_slice(), register),
    }
}

// The bit of a register that a node sets: a copied word keeps its bit.
fn bit_set(names: &Names, op: Op, operand: Source, at: u32) -> Option<u32>
    ensures { result ≡ operands.bit_set op (bits_of names.now.bits) operand at }
{
    if is_move(op) {
        operand_bit(names, operand)
    } else {
        node_bit(is_test(op), at)
    }
}

/// From here on a register has a node's word wherever the node fires.
pub fn name_entry(alloc: Global, names: &mut Names, register: u8, at: u32) -> Result<(), Memory>
    ensures env { OnOk result (env_of names.new.entries
        ≡ put (env_of names.old.entries) register (from_node at)) }
    ensures bits { OnOk result (names.new.bits ≡ names.old.bits) }
    ensures sets { OnOk result (names.new.sets ≡ names.old.sets ++ register ∷ []) }
{
    let given = one(alloc, FlowSource::Node(at))?;
    let kept = Items::new(alloc);
    put_entry(&mut names.entries, register, Entry { given, kept })?;
    names.sets.push(register)?;
    Ok(())
}

// From here on a register has a node's word, and a bit or none.
fn name(
    alloc: Global,
    names: &mut Names,
    register: u8,
    at: u32,
    bit: Option<u32>,
) -> Result<(), Memory>
    ensures env { OnOk result (env_of names.new.entries
        ≡ put (env_of names.old.entries) register (from_node at)) }
    ensures bits { OnOk result (bits_of names.new.bits
        ≡ note (bits_of names.old.bits) register bit) }
    ensures sets { OnOk result (names.new.sets ≡ names.old.sets ++ register ∷ []) }
{
    name_entry(alloc, names, register, at)?;
    note_bit(&mut names.bits, register, bit)?;
    Ok(())
}

/// Takes the next number.
pub fn take_number(work: &mut Work) -> Result<usize, Memory>
    ensures value { IfOk result (λ m. m ≡ work.old.number) }
    ensures counted { OnOk result (work.new ≡ record work.old { number = work.old.number + 1 }) }
{
    let number = work.number;
    match number.checked_add(1) {
        None => Err(Memory),
        Some(next) => {
            work.number = next;
            Ok(number)
        }
    }
}

/// A register that becomes what an operation gives.
pub fn set(
    alloc: Global,
    work: &mut Work,
    names: &mut Names,
    guard: Option<Guard>,
    to: u8,
    op: Op,
    a: Source,
    b: Source,
) -> Result<(), Memory>
    ensures { OnOk result ((rest : code.Items) → ends guard work.new names.new rest
        ≡ ends guard work.old names.old (code.Set to op a b rest)) }
{
    let left = operand(alloc, work, names, a)?;
    let right = second(alloc, work, names, takes_right(op), b)?;
    let at = push(work, op, 0, 0, guard, left, right)?;
    let bit = bit_set(names, op, a, at);
    name(alloc, names, to, at, bit)?;
    Ok(())
}

/// A register that becomes what a load gives.
pub fn load(
    alloc: Global,
    work: &mut Work,
    names: &mut Names,
    guard: Option<Guard>,
    to: u8,
    op: Op,
    address: Source,
) -> Result<(), Memory>
    ensures { OnOk result ((rest : code.Items) → ends guard work.new names.new rest
        ≡ ends guard work.old names.old (code.Load to op address rest)) }
{
    let left = operand(alloc, work, names, address)?;
    let number = take_number(work)?;
    let at = push(work, op, 0, number, guard, left, Items::new(alloc))?;
    name(alloc, names, to, at, None)?;
    Ok(())
}

/// A store.
pub fn save(
    alloc: Global,
    work: &mut Work,
    names: &Names,
    guard: Option<Guard>,
    op: Op,
    address: Source,
    value: Source,
) -> Result<(), Memory>
    ensures { OnOk result ((rest : code.Items) → ends guard work.new names.now rest
        ≡ ends guard work.old names.now (code.Save op address value rest)) }
{
    let left = operand(alloc, work, names, address)?;
    let right = operand(alloc, work, names, value)?;
    let number = take_number(work)?;
    push(work, op, 0, number, guard, left, right)?;
    Ok(())
}
