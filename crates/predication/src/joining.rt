//! The end of an if: each register that a leg sets takes its word from both legs.
ghost use Rattle.std.specs.Prelude.{◌≡◌, ◌++◌, [], Some, length, IfOk, OnOk};
ghost use Rattle.predication.specs.inside.Environments as names;
ghost use Rattle.predication.specs.inside.Environments.{distinct, left_bits};
ghost use Rattle.predication.specs.inside.Ifs as spec;
ghost use Rattle.predication.specs.inside.Emits.{Adds, bits_of, both_entry, both_nodes, env_of};
ghost use Rattle.predication.specs.inside.Emits.{joined_at, leg_part, puts};

use crate::naming::{entry_of, note_bit, put_all};
use crate::nodes::push_mov;
use crate::reading::{one, read};
use crate::work::{Entry, Named, Names, Noted, Work};
use base::{Items, Memory};
use ir_forms::{FlowSource, Guard};
use std::alloc::Global;
use trips_isa::Sense;

/// Whether a register is among some.
pub fn is_member(register: u8, registers: &[u8]) -> bool
    ensures { result ≡ names.member register registers.now }
{
    for other in registers {
        if register == *other {
            return true;
        }
    }
    false
}

// The entry that a leg leaves for a register that it does not set.
fn left_of(
    alloc: Global,
    work: &mut Work,
    guard: Option<Guard>,
    register: u8,
    before: &Entry,
) -> Result<Entry, Memory>
    ensures adds { OnOk result (Adds work.old work.new (spec.left_of guard (length work.old.nodes)
        register before.now.given before.now.kept).nodes) }
    ensures entry { IfOk result (λ e. e ≡ (spec.left_of guard (length work.old.nodes)
        register before.now.given before.now.kept).entry) }
{
    if before.given.is_empty() {
        let mut kept = Items::new(alloc);
        kept.push(guard)?;
        return Ok(Entry {
            given: Items::new(alloc),
            kept,
        });
    }
    let sources = read(alloc, work, register, before)?;
    let at = push_mov(alloc, work, guard, sources)?;
    let given = one(alloc, FlowSource::Node(at))?;
    Ok(Entry {
        given,
        kept: Items::new(alloc),
    })
}

fn side_of(
    alloc: Global,
    work: &mut Work,
    set: bool,
    guard: Option<Guard>,
    register: u8,
    before: &Entry,
    mine: Entry,
) -> Result<Entry, Memory>
    ensures adds { OnOk result (Adds work.old work.new
        (spec.side_of set guard (length work.old.nodes) register before.now mine).nodes) }
    ensures entry { IfOk result (λ e. e
        ≡ (spec.side_of set guard (length work.old.nodes) register before.now mine).entry) }
{
    if set {
        Ok(mine)
    } else {
        left_of(alloc, work, guard, register, before)
    }
}

// The entry of a register after one leg.
fn leg_entry(
    alloc: Global,
    work: &mut Work,
    guard: Guard,
    before: &[Named],
    leg: &Names,
    register: u8,
) -> Result<Entry, Memory>
    ensures adds { OnOk result (Adds work.old work.new (leg_part (Some guard)
        (length work.old.nodes) before.now leg.now register).nodes) }
    ensures entry { IfOk result (λ e. e ≡ (leg_part (Some guard)
        (length work.old.nodes) before.now leg.now register).entry) }
{
    let old = entry_of(alloc, before, register)?;
    let mine = entry_of(alloc, leg.entries.as_slice(), register)?;
    let set = is_member(register, leg.sets.as_slice());
    side_of(alloc, work, set, Some(guard), register, &old, mine)
}

fn both(first: Entry, second: Entry) -> Result<Entry, Memory>
    ensures { IfOk result (λ e. e ≡ names.both first second) }
{
    let Entry {
        mut given,
        mut kept,
    } = first;
    given.append(second.given)?;
    kept.append(second.kept)?;
    Ok(Entry { given, kept })
}

/// When a node of a leg of the test of a node fires.
pub fn guard_of(test: u32, taken: bool) -> Guard
    ensures { Some result ≡ names.under test taken }
{
    if taken {
        Guard {
            node: test,
            sense: Sense::OnTrue,
        }
    } else {
        Guard {
            node: test,
            sense: Sense::OnFalse,
        }
    }
}

// The entry of a register after both legs of the test of a node.
fn both_legs(
    alloc: Global,
    work: &mut Work,
    test: u32,
    before: &[Named],
    yes: &Names,
    no: &Names,
    register: u8,
) -> Result<Entry, Memory>
    ensures adds { OnOk result (Adds work.old work.new
        (both_nodes test (length work.old.nodes) before.now yes.now no.now register)) }
    ensures entry { IfOk result (λ e. e
        ≡ both_entry test (length work.old.nodes) before.now yes.now no.now register) }
{
    let first = leg_entry(alloc, work, guard_of(test, true), before, yes, register)?;
    let second = leg_entry(alloc, work, guard_of(test, false), before, no, register)?;
    both(first, second)
}

// The entries of registers after both legs of the test of a node.
fn join(
    alloc: Global,
    work: &mut Work,
    test: u32,
    before: &[Named],
    yes: &Names,
    no: &Names,
    registers: &[u8],
) -> Result<Items<Named>, Memory>
    ensures adds { OnOk result (Adds work.old work.new
        (joined_at test (length work.old.nodes) before.now yes.now no.now registers.now).nodes) }
    ensures env { IfOk result (λ named. puts named (env_of before.now)
        ≡ (joined_at test (length work.old.nodes) before.now yes.now no.now registers.now).env) }
{
    let mut named = Items::new(alloc);
    for register in registers {
        let register = *register;
        let entry = both_legs(alloc, work, test, before, yes, no, register)?;
        named.push(Named { register, entry })?;
    }
    Ok(named)
}

// The registers that one of two legs sets.
fn either(alloc: Global, yes: &[u8], no: &[u8]) -> Result<Items<u8>, Memory>
    ensures { IfOk result (λ rs. rs ≡ yes.now ++ no.now) }
{
    let mut registers = Items::from_slice(alloc, yes)?;
    for register in no {
        registers.push(*register)?;
    }
    Ok(registers)
}

// Registers, each where it stands last.
fn each_once(alloc: Global, registers: &[u8]) -> Result<Items<u8>, Memory>
    ensures { IfOk result (λ rs. rs ≡ distinct registers.now) }
{
    let mut once = Items::new(alloc);
    let mut rest = registers;
    while let [register, behind @ ..] = rest {
        if !is_member(*register, behind) {
            once.push(*register)?;
        }
        rest = behind;
    }
    Ok(once)
}

// From here on registers have no bit.
fn forget(bits: &mut Items<Noted>, registers: &[u8]) -> Result<(), Memory>
    ensures { OnOk result (bits_of bits.new
        ≡ left_bits (bits_of bits.old) registers.now) }
{
    for register in registers {
        note_bit(bits, *register, None)?;
    }
    Ok(())
}

/// The end of both legs of the test of a node: what they set takes its word from both and has no
/// bit, and all that they set is set.
pub fn meet(
    alloc: Global,
    work: &mut Work,
    test: u32,
    names: &mut Names,
    yes: &Names,
    no: &Names,
) -> Result<(), Memory>
    ensures adds { OnOk result (Adds work.old work.new (joined_at test (length work.old.nodes)
        names.old.entries yes.now no.now (distinct (yes.now.sets ++ no.now.sets))).nodes) }
    ensures env { OnOk result (env_of names.new.entries ≡ (joined_at test (length work.old.nodes)
        names.old.entries yes.now no.now (distinct (yes.now.sets ++ no.now.sets))).env) }
    ensures bits { OnOk result (bits_of names.new.bits
        ≡ left_bits (bits_of names.old.bits) (yes.now.sets ++ no.now.sets)) }
    ensures sets { OnOk result (names.new.sets
        ≡ names.old.sets ++ (yes.now.sets ++ no.now.sets)) }
{
    let registers = either(alloc, yes.sets.as_slice(), no.sets.as_slice())?;
    let once = each_once(alloc, registers.as_slice())?;
    let named = join(
        alloc,
        work,
        test,
        names.entries.as_slice(),
        yes,
        no,
        once.as_slice(),
    )?;
    put_all(&mut names.entries, named)?;
    forget(&mut names.bits, registers.as_slice())?;
    names.sets.append(registers)?;
    Ok(())
}
