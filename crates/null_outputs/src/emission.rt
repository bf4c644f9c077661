//! The nodes that are added, region after region.
ghost use Rattle.std.specs.Prelude.{◌≡◌, ◌++◌, ◌+◌, OnOk, length, ◌<◌, ◌^◌, drop};
ghost use Rattle.null_outputs.specs.inside.Groups as groups;
ghost use Rattle.null_outputs.specs.inside.Listed as listed;

use crate::groups::{push_guard_part, push_left_part, push_right_part};
use crate::lists::push_list;
use crate::places::{Guess, Starts, plus};
use crate::surely::sure;
use base::{Items, Memory};
use ir_forms::{FlowNode, FlowWrite};
use std::alloc::Global;

/// The groups of the guards with this bit.
pub fn push_guards(
    out: &mut Items<FlowNode>,
    alloc: Global,
    nodes: &[FlowNode],
    guess: &Guess,
    starts: &Starts,
    s: bool,
) -> Result<(), Memory>
    requires { length nodes.now < 2 ^ 32 }
    ensures { OnOk result (out.new
        ≡ out.old
        ++ groups.region
        (groups.guard_part (listed.want_in_guess guess.now) nodes.now
        (listed.cover_in nodes.now guess.now starts.now) s)
        (groups.guard_part_size (listed.want_in_guess guess.now) nodes.now
        (listed.sure_in_guess nodes.now guess.now) s)
        (length nodes.now + length out.old) 0 nodes.now) }
{
    let mut j = 0;
    for n in nodes {
        let p = plus(nodes.len() as u32, out.len())?;
        push_guard_part(out, alloc, nodes, guess, starts, s, p, j)?;
        j += 1;
    }
    Ok(())
}

/// The covers of left operands.
pub fn push_lefts(
    out: &mut Items<FlowNode>,
    alloc: Global,
    nodes: &[FlowNode],
    guess: &Guess,
    starts: &Starts,
) -> Result<(), Memory>
    requires { length nodes.now < 2 ^ 32 }
    ensures { OnOk result (out.new
        ≡ out.old
        ++ groups.region
        (groups.left_part (listed.sure_in_guess nodes.now guess.now) (listed.want_in_guess guess.now)
        (listed.cover_in nodes.now guess.now starts.now))
        (groups.left_size (listed.sure_in_guess nodes.now guess.now) (listed.want_in_guess guess.now))
        (length nodes.now + length out.old) 0 nodes.now) }
{
    let mut j = 0;
    for n in nodes {
        let p = plus(nodes.len() as u32, out.len())?;
        push_left_part(out, alloc, nodes, guess, starts, p, j, n)?;
        j += 1;
    }
    Ok(())
}

/// The covers of right operands.
pub fn push_rights(
    out: &mut Items<FlowNode>,
    alloc: Global,
    nodes: &[FlowNode],
    guess: &Guess,
    starts: &Starts,
) -> Result<(), Memory>
    requires { length nodes.now < 2 ^ 32 }
    ensures { OnOk result (out.new
        ≡ out.old
        ++ groups.region
        (groups.right_part (listed.sure_in_guess nodes.now guess.now) (listed.want_in_guess guess.now)
        (listed.cover_in nodes.now guess.now starts.now))
        (groups.right_size (listed.sure_in_guess nodes.now guess.now) (listed.want_in_guess guess.now))
        (length nodes.now + length out.old) 0 nodes.now) }
{
    let mut j = 0;
    for n in nodes {
        let p = plus(nodes.len() as u32, out.len())?;
        push_right_part(out, alloc, nodes, guess, starts, p, j, n)?;
        j += 1;
    }
    Ok(())
}

// The nodes that join a write's sources.
fn push_write_part(
    out: &mut Items<FlowNode>,
    alloc: Global,
    nodes: &[FlowNode],
    guess: &Guess,
    starts: &Starts,
    p: u32,
    w: &FlowWrite,
) -> Result<(), Memory>
    requires { length nodes.now < 2 ^ 32 }
    ensures { OnOk result (out.new
        ≡ out.old
        ++ listed.write_part_by (listed.sure_in_guess nodes.now guess.now)
        (listed.cover_in nodes.now guess.now starts.now) p 0 w.now) }
{
    if !sure(
        alloc,
        nodes,
        guess.firm.as_slice(),
        None,
        w.sources.as_slice(),
    )? {
        push_list(out, alloc, nodes, guess, starts, p, w.sources.as_slice())?;
    }
    Ok(())
}

/// The nodes that join the sources of writes.
pub fn push_writes(
    out: &mut Items<FlowNode>,
    alloc: Global,
    nodes: &[FlowNode],
    guess: &Guess,
    starts: &Starts,
    writes: &[FlowWrite],
) -> Result<(), Memory>
    requires { length nodes.now < 2 ^ 32 }
    ensures { OnOk result (out.new
        ≡ out.old
        ++ groups.region
        (listed.write_part_by (listed.sure_in_guess nodes.now guess.now)
        (listed.cover_in nodes.now guess.now starts.now))
        (listed.write_size_by (listed.sure_in_guess nodes.now guess.now))
        (length nodes.now + length out.old) 0 writes.now) }
{
    for w in writes {
        let p = plus(nodes.len() as u32, out.len())?;
        push_write_part(out, alloc, nodes, guess, starts, p, w)?;
    }
    Ok(())
}
