//! What each register is named: its entry and its bit.
ghost use Rattle.std.specs.Prelude.{◌≡◌, [], IfOk, OnOk};
ghost use Rattle.predication.specs.inside.Environments as names;
ghost use Rattle.predication.specs.inside.Emits as spec;

use crate::work::{Entry, Named, Names, Noted};
use base::{Items, Memory};
use std::alloc::Global;

// ENTRIES

/// A copy of an entry.
pub fn copied(alloc: Global, entry: &Entry) -> Result<Entry, Memory>
    ensures { IfOk result (λ e. e ≡ entry.now) }
{
    let given = Items::from_slice(alloc, entry.given.as_slice())?;
    let kept = Items::from_slice(alloc, entry.kept.as_slice())?;
    Ok(Entry { given, kept })
}

// The entry of a register that is as the block found it.
fn start(alloc: Global, register: u8) -> Result<Entry, Memory>
    ensures { IfOk result (λ e. e ≡ names.at_start register) }
{
    let mut kept = Items::new(alloc);
    kept.push(None)?;
    Ok(Entry {
        given: Items::new(alloc),
        kept,
    })
}

/// The entry of a register.
pub fn entry_of(alloc: Global, entries: &[Named], register: u8) -> Result<Entry, Memory>
    ensures { IfOk result (λ e. e ≡ spec.env_of entries.now register) }
{
    for named in entries {
        if named.register == register {
            return copied(alloc, &named.entry);
        }
    }
    start(alloc, register)
}

// Where a register is named.
fn place_of(entries: &[Named], register: u8) -> Option<usize>
    ensures { result ≡ spec.place_from 0 register entries.now }
{
    for at in 0..entries.len() {
        if entries[at].register == register {
            return Some(at);
        }
    }
    None
}

/// From here on a register has this entry.
pub fn put_entry(entries: &mut Items<Named>, register: u8, entry: Entry) -> Result<(), Memory>
    ensures { OnOk result (spec.env_of entries.new
        ≡ names.put (spec.env_of entries.old) register entry) }
{
    match place_of(entries.as_slice(), register) {
        None => {
            entries.push(Named { register, entry })?;
            Ok(())
        }
        Some(at) => {
            entries.set(at, Named { register, entry });
            Ok(())
        }
    }
}

/// From here on registers have these entries, of two of one register the first.
pub fn put_all(entries: &mut Items<Named>, named: Items<Named>) -> Result<(), Memory>
    ensures { OnOk result (spec.env_of entries.new ≡ spec.puts named (spec.env_of entries.old)) }
{
    let mut rest = named;
    while let Some(last) = rest.pop() {
        put_entry(entries, last.register, last.entry)?;
    }
    Ok(())
}

// BITS

/// The node whose word is a register's, where that is a bit.
pub fn bit_of(bits: &[Noted], register: u8) -> Option<u32>
    ensures { result ≡ spec.bits_of bits.now register }
{
    for noted in bits {
        if noted.register == register {
            return noted.bit;
        }
    }
    None
}

// Where a register's bit is noted.
fn place_of_bit(bits: &[Noted], register: u8) -> Option<usize>
    ensures { result ≡ spec.noted_from 0 register bits.now }
{
    for at in 0..bits.len() {
        if bits[at].register == register {
            return Some(at);
        }
    }
    None
}

/// From here on a register has this bit, or none.
pub fn note_bit(bits: &mut Items<Noted>, register: u8, bit: Option<u32>) -> Result<(), Memory>
    ensures { OnOk result (spec.bits_of bits.new
        ≡ names.note (spec.bits_of bits.old) register bit) }
{
    match place_of_bit(bits.as_slice(), register) {
        None => {
            bits.push(Noted { register, bit })?;
            Ok(())
        }
        Some(at) => {
            bits.set(at, Noted { register, bit });
            Ok(())
        }
    }
}

// LEGS

/// The names at the start of a leg: the entries, no bits, and nothing that is set.
pub fn names_of_leg(alloc: Global, entries: &[Named]) -> Result<Names, Memory>
    ensures entries { IfOk result (λ n. n.entries ≡ entries.now) }
    ensures bits { IfOk result (λ n. n.bits ≡ []) }
    ensures sets { IfOk result (λ n. n.sets ≡ []) }
{
    let mut copies = Items::from_vec(Vec::with_capacity(alloc, entries.len())?);
    for named in entries {
        let entry = copied(alloc, &named.entry)?;
        copies.push(Named {
            register: named.register,
            entry,
        })?;
    }
    Ok(Names {
        entries: copies,
        bits: Items::new(alloc),
        sets: Items::new(alloc),
    })
}
