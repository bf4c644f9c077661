//! Sets of scalars and temporaries: bit v of a number says whether variable v is in it.

ghost use Rattle.std.specs.Prelude.{◌≡◌, ◌<◌, cond, [], ◌∷◌, ◌++◌, IfOk, OnOk};
ghost use Rattle.reg_assign.specs.inside.Live.{members};
ghost use Rattle.reg_assign.specs.inside.Pass as pass;

use base::{Items, Memory};
use ir_forms::Arg;
use std::alloc::Global;

/// The variable alone; nothing where it is a scratch variable.
pub fn bit(v: u16) -> u128
    ensures { result ≡ pass.bit v }
{
    if v < 80 { 1 << v } else { 0 }
}

/// What is in the first set and not in the second.
pub fn without(set: u128, other: u128) -> u128
    ensures { result ≡ pass.without set other }
{
    set ^ (set & other)
}

/// What an operand reads.
pub fn read_by(x: Arg) -> u128
    ensures { result ≡ pass.read_by x }
{
    match x {
        Arg::Const(_) => 0,
        Arg::Var(v) => bit(v),
    }
}

/// What a return reads.
pub fn read_if(x: Option<Arg>) -> u128
    ensures { result ≡ pass.read_if x }
{
    match x {
        None => 0,
        Some(x) => read_by(x),
    }
}

/// A set with what arguments read.
pub fn with_read(set: u128, args: &[Arg]) -> u128
    ensures { result ≡ pass.with_read set args.now }
{
    let mut all = set;
    for x in args {
        all = all | read_by(*x);
    }
    all
}

/// What a call sets.
pub fn set_by(to: Option<u16>) -> u128
    ensures { result ≡ pass.set_by to }
{
    match to {
        None => 0,
        Some(to) => bit(to),
    }
}

fn has(set: u128, v: u16) -> bool
    requires { v < 128 }
    ensures { result ≡ pass.seen set v }
{
    (set >> v) & 1 == 1
}

fn push_if_in(list: &mut Items<u16>, set: u128, v: u16) -> Result<(), Memory>
    requires { v < 128 }
    ensures { OnOk result (list.new ≡ list.old ++ cond (pass.seen set v) (v ∷ []) []) }
{
    if has(set, v) {
        list.push(v)?;
    }
    Ok(())
}

/// The members of a set, in increasing order.
pub fn members_of(alloc: Global, set: u128) -> Result<Items<u16>, Memory>
    ensures { IfOk result (λ list. list ≡ members (pass.seen set)) }
{
    let mut list = Items::new(alloc);
    for v in 0..80u16 {
        push_if_in(&mut list, set, v)?;
    }
    Ok(list)
}
