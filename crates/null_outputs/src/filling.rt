//! Writes whose sources give exactly one token.
ghost use Rattle.std.specs.Prelude.{◌≡◌, ◌++◌, ◌+◌, cond, [], None, OnOk, IfOk, length, ◌<◌, ◌^◌, drop};
ghost use Rattle.null_outputs.specs.inside.Covers as covers;
ghost use Rattle.null_outputs.specs.inside.Listed as listed;

use crate::layout::list_size;
use crate::lists::list_top;
use crate::places::{Guess, Starts, plus};
use crate::surely::sure;
use base::{Items, Memory};
use ir_forms::{FlowNode, FlowSource, FlowWrite};
use std::alloc::Global;

// Puts the cover of a write's sources behind them, where they may give no token.
fn push_cover(
    sources: &mut Items<FlowSource>,
    alloc: Global,
    nodes: &[FlowNode],
    guess: &Guess,
    starts: &Starts,
    p: u32,
    given: &[FlowSource],
) -> Result<(), Memory>
    requires { length nodes.now < 2 ^ 32 }
    ensures { OnOk result (sources.new
        ≡ sources.old
        ++ cond (listed.sure_in_guess nodes.now guess.now None given.now) []
        (covers.list_top (listed.cover_in nodes.now guess.now starts.now) p given.now)) }
{
    if !sure(alloc, nodes, guess.firm.as_slice(), None, given)? {
        sources.append(list_top(alloc, nodes, guess, starts, p, given)?)?;
    }
    Ok(())
}

// A write with the cover of its sources.
fn filled(
    alloc: Global,
    nodes: &[FlowNode],
    guess: &Guess,
    starts: &Starts,
    p: u32,
    write: &FlowWrite,
) -> Result<FlowWrite, Memory>
    requires { length nodes.now < 2 ^ 32 }
    ensures { IfOk result (λ w. w
        ≡ listed.filled_by (listed.sure_in_guess nodes.now guess.now)
        (listed.cover_in nodes.now guess.now starts.now) p write.now) }
{
    let mut sources = Items::from_slice(alloc, write.sources.as_slice())?;
    push_cover(
        &mut sources,
        alloc,
        nodes,
        guess,
        starts,
        p,
        write.sources.as_slice(),
    )?;
    Ok(FlowWrite {
        register: write.register,
        sources,
    })
}

// Where the nodes end that join a write's sources.
fn write_end(
    alloc: Global,
    nodes: &[FlowNode],
    guess: &Guess,
    p: u32,
    write: &FlowWrite,
) -> Result<u32, Memory>
    requires { length nodes.now < 2 ^ 32 }
    ensures { IfOk result (λ q. q
        ≡ p + listed.write_size_by (listed.sure_in_guess nodes.now guess.now) 0 write.now) }
{
    if sure(
        alloc,
        nodes,
        guess.firm.as_slice(),
        None,
        write.sources.as_slice(),
    )? {
        Ok(p)
    } else {
        plus(p, list_size(write.sources.as_slice()))
    }
}

/// The writes, whose nodes stand from `first` on.
pub fn all_filled(
    alloc: Global,
    nodes: &[FlowNode],
    guess: &Guess,
    starts: &Starts,
    first: u32,
    writes: &[FlowWrite],
) -> Result<Items<FlowWrite>, Memory>
    requires { length nodes.now < 2 ^ 32 }
    ensures { IfOk result (λ ws. ws
        ≡ listed.all_filled_by (listed.sure_in_guess nodes.now guess.now)
        (listed.cover_in nodes.now guess.now starts.now) first writes.now) }
{
    let mut found = Items::new(alloc);
    let mut p = first;
    for w in writes {
        found.push(filled(alloc, nodes, guess, starts, p, w)?)?;
        p = write_end(alloc, nodes, guess, p, w)?;
    }
    Ok(found)
}
