ghost use Rattle.std.specs.Prelude.{◌≡◌, reverse, map, IfOk};
ghost use Rattle.ir_forms.specs.inside.FlatViews.{code_of, function_of, program_of};
ghost use Rattle.ir_forms.specs.inside.FlatFits.{FitsProgram};
ghost use Rattle.reg_assign.specs.inside.Live.{live_lists, groups_of, AreCut, AreFew};
ghost use Rattle.reg_assign.specs.inside.Keeps.{FitsKept, FitsLists, KeepsTameRuns};
ghost use Rattle.reg_assign.specs.inside.Pass.{body_lists, lists_backward};

use crate::grouping::all_groups;
use crate::reading::{Reading, read_stmts};
use crate::walking::{Walk, walk_stmts};
use base::{Items, Memory};
use ir_forms::{FlatFunc, FlatProgram, FlatStmt};
use std::alloc::Global;

/// A flat program with the variables that must be kept over its calls.
#[derive(Drop)]
pub struct Assigned {
    pub flat: FlatProgram,
    /// For each call, in the order of the program, the scalars and temporaries that must be kept
    /// over it, in increasing order.
    pub live: Items<Items<u16>>,
    /// Each of these lists, cut into groups of at most 16.
    pub groups: Items<Items<Items<u16>>>,
}

/// The lists of a body's calls, the last first, behind other lists.
fn lists_behind(
    body: &[FlatStmt],
    alloc: Global,
    lists: Items<Items<u16>>,
) -> Result<Items<Items<u16>>, Memory>
    ensures { IfOk result (λ all. all ≡ body_lists (code_of body.now) lists) }
{
    let mut reading = Reading {
        read: 0,
        loops: Items::new(alloc),
    };
    read_stmts(body, &mut reading)?;
    let Reading { read: _, loops } = reading;
    let mut walk = Walk {
        live: 0,
        loops,
        lists,
    };
    walk_stmts(body, &mut walk, alloc, 0, 0)?;
    let Walk {
        live: _,
        loops: _,
        lists,
    } = walk;
    Ok(lists)
}

/// The lists of all calls, the last first.
fn backward(functions: &[FlatFunc], alloc: Global) -> Result<Items<Items<u16>>, Memory>
    ensures { IfOk result (λ all. all ≡ lists_backward (map function_of functions.now)) }
{
    let mut lists = Items::new(alloc);
    let mut at = functions.len();
    while at > 0 {
        at -= 1;
        lists = lists_behind(functions[at].body.as_slice(), alloc, lists)?;
    }
    Ok(lists)
}

fn turned(lists: Items<Items<u16>>) -> Items<Items<u16>>
    ensures { result ≡ reverse lists }
{
    let mut all = lists.into_vec();
    all.reverse();
    Items::from_vec(all)
}

fn live_of(flat: &FlatProgram, alloc: Global) -> Result<Items<Items<u16>>, Memory>
    ensures { IfOk result (λ live. live ≡ live_lists (program_of flat.now)) }
{
    let lists = backward(flat.functions.as_slice(), alloc)?;
    Ok(turned(lists))
}

/// The variables that must be kept over each call of a flat program, and these in groups of at most
/// 16. Want of memory is the only error.
pub fn assign(alloc: Global, flat: FlatProgram) -> Result<Assigned, Memory>
    ensures flat { IfOk result (λ assigned. assigned.flat ≡ flat) }
    ensures live { IfOk result (λ assigned. assigned.live ≡ live_lists (program_of flat)) }
    ensures groups { IfOk result (λ assigned. assigned.groups ≡ map groups_of assigned.live) }
    ensures fits { IfOk result (λ assigned. FitsLists (program_of assigned.flat) assigned.live) }
    ensures kept { IfOk result (λ assigned. FitsProgram (program_of flat)
        → FitsKept (program_of flat) assigned.live) }
    ensures cut { IfOk result (λ assigned. AreCut assigned.live assigned.groups) }
    ensures few { IfOk result (λ assigned. AreFew assigned.groups) }
    ensures meaning { IfOk result (λ assigned.
        KeepsTameRuns (program_of assigned.flat) assigned.live) }
{
    let live = live_of(&flat, alloc)?;
    let groups = all_groups(live.as_slice(), alloc)?;
    Ok(Assigned { flat, live, groups })
}
