//! The nodes of operands and tests.
ghost use Rattle.std.specs.Prelude.{◌≡◌, ◌++◌, [], ◌∷◌, ◌<◌, ◌^◌, length, IfOk, OnOk};
ghost use Rattle.predication.specs.inside.Operands as spec;
ghost use Rattle.predication.specs.inside.Emits.{Adds, appended, bits_of, env_of};

use crate::naming::{bit_of, entry_of};
use crate::nodes::{push_constant, push_mov, push_test};
use crate::work::{Entry, Names, Work};
use base::{Items, Memory};
use ir_forms::{FlowSource, Guard, Source};
use std::alloc::Global;
use trips_isa::Op;

/// One source.
pub fn one(alloc: Global, source: FlowSource) -> Result<Items<FlowSource>, Memory>
    ensures { IfOk result (λ s. s ≡ source ∷ []) }
{
    let mut sources = Items::new(alloc);
    sources.push(source)?;
    Ok(sources)
}

// CONSTANTS

fn constant_16(alloc: Global, work: &mut Work, word: u64) -> Result<u32, Memory>
    requires { word < 65536 }
    ensures at { IfOk result (λ k. k ≡ (spec.chain 0 (length work.old.nodes) word).last) }
    ensures adds { OnOk result (Adds work.old work.new
        (spec.chain 0 (length work.old.nodes) word).nodes) }
{
    push_constant(alloc, work, Op::Genu, word as u16, Items::new(alloc))
}

fn append_16(alloc: Global, work: &mut Work, upper: u32, word: u64) -> Result<u32, Memory>
    ensures at { IfOk result (λ k. k ≡ length work.old.nodes) }
    ensures adds { OnOk result (Adds work.old work.new (appended word upper)) }
{
    let left = one(alloc, FlowSource::Node(upper))?;
    push_constant(alloc, work, Op::App, (word % 65536) as u16, left)
}

fn constant_32(alloc: Global, work: &mut Work, word: u64) -> Result<u32, Memory>
    requires { word < 2 ^ 32 }
    ensures at { IfOk result (λ k. k ≡ (spec.chain 1 (length work.old.nodes) word).last) }
    ensures adds { OnOk result (Adds work.old work.new
        (spec.chain 1 (length work.old.nodes) word).nodes) }
{
    if word < 65536 {
        return constant_16(alloc, work, word);
    }
    let upper = constant_16(alloc, work, word / 65536)?;
    append_16(alloc, work, upper, word)
}

fn constant_48(alloc: Global, work: &mut Work, word: u64) -> Result<u32, Memory>
    requires { word < 2 ^ 48 }
    ensures at { IfOk result (λ k. k ≡ (spec.chain 2 (length work.old.nodes) word).last) }
    ensures adds { OnOk result (Adds work.old work.new
        (spec.chain 2 (length work.old.nodes) word).nodes) }
{
    if word < 65536 {
        return constant_16(alloc, work, word);
    }
    let upper = constant_32(alloc, work, word / 65536)?;
    append_16(alloc, work, upper, word)
}

/// A constant: `genu` and then at most three `app`.
pub fn constant(alloc: Global, work: &mut Work, word: u64) -> Result<u32, Memory>
    ensures at { IfOk result (λ k. k ≡ (spec.chain 3 (length work.old.nodes) word).last) }
    ensures adds { OnOk result (Adds work.old work.new
        (spec.chain 3 (length work.old.nodes) word).nodes) }
{
    if word < 65536 {
        return constant_16(alloc, work, word);
    }
    let upper = constant_48(alloc, work, word / 65536)?;
    append_16(alloc, work, upper, word)
}

// REGISTERS

/// The register's own word under each scope, as further sources.
pub fn movs(
    alloc: Global,
    work: &mut Work,
    register: u8,
    kept: &[Option<Guard>],
    to: &mut Items<FlowSource>,
) -> Result<(), Memory>
    ensures adds { OnOk result (Adds work.old work.new (spec.movs register kept.now)) }
    ensures names { OnOk result (to.new
        ≡ to.old ++ spec.froms (length work.old.nodes) kept.now) }
{
    match kept {
        [] => Ok(()),
        [guard, rest @ ..] => {
            let own = one(alloc, FlowSource::Read(register))?;
            let at = push_mov(alloc, work, *guard, own)?;
            to.push(FlowSource::Node(at))?;
            movs(alloc, work, register, rest, to)
        }
    }
}

/// What a register with an entry is read from.
pub fn read(
    alloc: Global,
    work: &mut Work,
    register: u8,
    entry: &Entry,
) -> Result<Items<FlowSource>, Memory>
    ensures adds { OnOk result (Adds work.old work.new
        (spec.read_of (length work.old.nodes) register entry.now.given entry.now.kept).nodes) }
    ensures sources { IfOk result (λ s. s
        ≡ (spec.read_of (length work.old.nodes) register entry.now.given entry.now.kept).sources) }
{
    if entry.given.is_empty() {
        return one(alloc, FlowSource::Read(register));
    }
    let mut sources = Items::from_slice(alloc, entry.given.as_slice())?;
    movs(alloc, work, register, entry.kept.as_slice(), &mut sources)?;
    Ok(sources)
}

// OPERANDS

/// The sources of an operand.
pub fn operand(
    alloc: Global,
    work: &mut Work,
    names: &Names,
    a: Source,
) -> Result<Items<FlowSource>, Memory>
    ensures adds { OnOk result (Adds work.old work.new
        (spec.operand (length work.old.nodes) (env_of names.now.entries) a).nodes) }
    ensures sources { IfOk result (λ s. s
        ≡ (spec.operand (length work.old.nodes) (env_of names.now.entries) a).sources) }
{
    match a {
        Source::Const(word) => {
            let at = constant(alloc, work, word)?;
            one(alloc, FlowSource::Node(at))
        }
        Source::Reg(register) => {
            let entry = entry_of(alloc, names.entries.as_slice(), register)?;
            read(alloc, work, register, &entry)
        }
    }
}

/// The second operand, where the operation takes it.
pub fn second(
    alloc: Global,
    work: &mut Work,
    names: &Names,
    taken: bool,
    b: Source,
) -> Result<Items<FlowSource>, Memory>
    ensures adds { OnOk result (Adds work.old work.new
        (spec.second taken (length work.old.nodes) (env_of names.now.entries) b).nodes) }
    ensures sources { IfOk result (λ s. s
        ≡ (spec.second taken (length work.old.nodes) (env_of names.now.entries) b).sources) }
{
    if taken {
        operand(alloc, work, names, b)
    } else {
        Ok(Items::new(alloc))
    }
}

// TESTS

fn fresh_test(
    alloc: Global,
    work: &mut Work,
    names: &Names,
    guard: Option<Guard>,
    test: Source,
) -> Result<u32, Memory>
    ensures at { IfOk result (λ k. k ≡ (spec.fresh_test guard (length work.old.nodes)
        (spec.operand (length work.old.nodes) (env_of names.now.entries) test)).last) }
    ensures adds { OnOk result (Adds work.old work.new (spec.fresh_test guard (length work.old.nodes)
        (spec.operand (length work.old.nodes) (env_of names.now.entries) test)).nodes) }
{
    let left = operand(alloc, work, names, test)?;
    push_test(alloc, work, guard, left)
}

/// The node whose low bit decides an if.
pub fn tested(
    alloc: Global,
    work: &mut Work,
    names: &Names,
    guard: Option<Guard>,
    test: Source,
) -> Result<u32, Memory>
    ensures at { IfOk result (λ k. k ≡ (spec.tested guard (length work.old.nodes)
        (env_of names.now.entries) (bits_of names.now.bits) test).last) }
    ensures adds { OnOk result (Adds work.old work.new (spec.tested guard (length work.old.nodes)
        (env_of names.now.entries) (bits_of names.now.bits) test).nodes) }
{
    match test {
        Source::Const(_) => fresh_test(alloc, work, names, guard, test),
        Source::Reg(register) => match bit_of(names.bits.as_slice(), register) {
            Some(bit) => Ok(bit),
            None => fresh_test(alloc, work, names, guard, test),
        },
    }
}
