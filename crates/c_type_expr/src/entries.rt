//! The bindings in the order of their declarations, and the chains that find the newest of a name.
//!
//! The chains of a hash table run through the bindings: of each the table has the place of its
//! newest binding, and a binding has the place of the next older one of its chain. So a name is
//! declared and forgotten at the head of its chain, with no search.

ghost use Rattle.std.specs.Prelude.{◌≡◌, ◌∷◌, ◌<◌, ◌-◌, OnOk, OnErr, IfOk, take, reverse, length};
ghost use Rattle.std.specs.Prelude.{None, Some, slice_index_or, slice_set};
ghost use Rattle.c_type_expr.specs.inside.Frames.{first_start, place_in};
ghost use Rattle.c_type_expr.specs.Scope.{bindings};
ghost use Rattle.c_type_expr.specs.inside.Chains.{Kept};
ghost use Rattle.c_type_expr.specs.inside.Chains as chains;

use crate::meaning::{Binding, Entry};
use c_tree::{Word, same_bytes};
use std::alloc::{AllocError, Global};

/// How many chains there are at first.
const FIRST_CHAINS: usize = 32;

/// How many times as many there are where they are too few.
const MORE_CHAINS: usize = 4;

/// What the number of a name is multiplied by at each of its bytes: 2 ^ 64 over the golden ratio.
const MULTIPLIER: u64 = 0x9e37_79b9_7f4a_7c15;

/// Where the innermost block begins.
pub fn last_start(starts: &[usize]) -> usize
    ensures { result ≡ first_start (reverse starts.now) }
{
    match starts {
        [] => 0,
        [.., last] => *last,
    }
}

/// The number of a name, of 32 bits, which differs for most names.
#[tactic(auto, unfolding(crate::specs::inside::Chains::number_of))]
#[inline(always)]
fn number_of(name: &[u8]) -> u64
    ensures { result ≡ chains.number_of name.now }
{
    let mut number = 0;
    for byte in name {
        number = (number ^ u64::from(*byte)).wrapping_mul(MULTIPLIER);
    }
    number >> 32
}

/// The chain of a name, of so many.
#[tactic(auto, unfolding(crate::specs::inside::Chains::chain_of))]
#[inline(always)]
fn chain_of(name: &[u8], count: usize) -> usize
    ensures chain { result ≡ chains.chain_of count name.now }
    ensures within { 0 < count → result < count }
{
    number_of(name) as usize & count.saturating_sub(1)
}

/// The place of the newest binding in the chain of a name.
#[inline(always)]
fn head_of(heads: &[Option<usize>], name: &[u8]) -> Option<usize>
    ensures { result ≡ slice_index_or heads.now (chains.chain_of (length heads.now) name.now) None }
{
    match heads.get(chain_of(name, heads.len())) {
        None => None,
        Some(head) => *head,
    }
}

/// The place of the newest binding of a name.
#[inline(always)]
pub fn place_of(entries: &[Entry], heads: &[Option<usize>], name: &Word) -> Option<usize>
    requires { Kept (reverse entries.now) heads.now }
    ensures { result ≡ place_in (reverse entries.now) name.now }
{
    let name = name.as_slice();
    let mut next = head_of(heads, name);
    while let Some(at) = next {
        let entry = &entries[at];
        if same_bytes(entry.binding.name.as_slice(), name) {
            return next;
        }
        next = entry.older;
    }
    None
}

/// Makes a place the head of the chain of a name, and gives the one that was there.
fn put(heads: &mut [Option<usize>], name: &[u8], at: usize) -> Option<usize>
    requires { 0 < length heads.old }
    ensures older { result ≡ slice_index_or heads.old
        (chains.chain_of (length heads.old) name.now) None }
    ensures heads { heads.new ≡ slice_set heads.old
        (chains.chain_of (length heads.old) name.now) (Some at) }
{
    let chain = chain_of(name, heads.len());
    let older = heads[chain];
    heads[chain] = Some(at);
    older
}

/// The heads of so many chains, which then run through the entries. Want of memory is the only
/// error.
fn chained(
    alloc: Global,
    entries: &mut [Entry],
    count: usize,
) -> Result<Vec<Option<usize>>, AllocError>
    requires { 0 < count }
    ensures same { bindings (reverse entries.new) ≡ bindings (reverse entries.old) }
    ensures ok { IfOk result (λ heads. Kept (reverse entries.new) heads.items
        × (length heads.items ≡ count)) }
    ensures err { OnErr result (entries.new ≡ entries.old) }
{
    let mut heads = vec![in alloc; None; count]?;
    for (i, entry) in entries.iter_mut().enumerate() {
        entry.older = put(heads.as_mut_slice(), entry.binding.name.as_slice(), i);
    }
    Ok(heads)
}

/// Sees to it that there are more chains than entries. Want of memory is the only error.
fn make_room(
    alloc: Global,
    entries: &mut [Entry],
    heads: &mut Vec<Option<usize>>,
) -> Result<(), AllocError>
    requires { Kept (reverse entries.old) heads.old.items }
    ensures kept { Kept (reverse entries.new) heads.new.items }
    ensures same { bindings (reverse entries.new) ≡ bindings (reverse entries.old) }
    ensures ok { OnOk result (0 < length heads.new.items) }
{
    if entries.len() < heads.len() {
        return Ok(());
    }
    let count = heads.len().saturating_mul(MORE_CHAINS).max(FIRST_CHAINS);
    *heads = chained(alloc, entries, count)?;
    Ok(())
}

pub fn add(
    alloc: Global,
    entries: &mut Vec<Entry>,
    heads: &mut Vec<Option<usize>>,
    binding: Binding,
) -> Result<(), AllocError>
    requires { Kept (reverse entries.old.items) heads.old.items }
    ensures kept { Kept (reverse entries.new.items) heads.new.items }
    ensures ok { OnOk result (bindings (reverse entries.new.items)
        ≡ binding ∷ bindings (reverse entries.old.items)) }
    ensures err { OnErr result (bindings (reverse entries.new.items)
        ≡ bindings (reverse entries.old.items)) }
{
    make_room(alloc, entries.as_mut_slice(), heads)?;
    entries.reserve(1)?;
    let older = put(heads.as_mut_slice(), binding.name.as_slice(), entries.len());
    entries.push_reserved(Entry { binding, older });
    Ok(())
}

/// Takes the newest entry away.
fn undo(entries: &mut Vec<Entry>, heads: &mut [Option<usize>])
    requires { Kept (reverse entries.old.items) heads.old }
    ensures kept { Kept (reverse entries.new.items) heads.new }
    ensures cut { entries.new.items ≡ take (length entries.old.items - 1) entries.old.items }
{
    if let Some(entry) = entries.pop() {
        let chain = chain_of(entry.binding.name.as_slice(), heads.len());
        heads[chain] = entry.older;
    }
}

/// Takes the entries from `start` on away.
pub fn unwind(entries: &mut Vec<Entry>, heads: &mut [Option<usize>], start: usize)
    requires { Kept (reverse entries.old.items) heads.old }
    ensures kept { Kept (reverse entries.new.items) heads.new }
    ensures cut { entries.new.items ≡ take start entries.old.items }
{
    while entries.len() > start {
        undo(entries, heads);
    }
}
