//! The answers of all functions.

ghost use Rattle.std.specs.Prelude.{◌≡◌, IfOk, get_or};
ghost use Rattle.ir_forms.specs.inside.FlatViews.{function_of, program_of};
ghost use Rattle.hyper_plan.specs.inside.Answers.{AreAnswersOf, AreAnswers};

use crate::estimate::Estimate;
use crate::items::{add_way_in, frame_of};
use crate::open_block::{Site, Walk, answer, leave};
use crate::walk::walk_stmts;
use base::{Items, Memory};
use hyper_build::CutPlan;
use ir_forms::FlatFunc;
use reg_assign::Assigned;
use std::alloc::Global;

/// The answers of a function, behind so many calls of the program.
fn walk_function(alloc: Global, f: &FlatFunc, calls: usize, site: &Site) -> Result<Walk, Memory>
    ensures { IfOk result (λ walk. AreAnswersOf site.now.room (function_of f.now) walk.answers) }
{
    let mut block = Estimate::empty();
    add_way_in(&mut block, f.params, site.frame);
    let mut walk = Walk {
        answers: Items::new(alloc),
        joins: Items::new(alloc),
        last: Some(0),
        block,
        guarded: false,
        in_item: false,
        calls,
    };
    answer(&mut walk, site)?;
    walk_stmts(f.body.as_slice(), &mut walk, site, false)?;
    leave(&mut walk, site);
    Ok(walk)
}

/// The room of a function; where none is said, none.
fn room_of(rooms: &[u8], f: usize) -> u8
    ensures { result ≡ get_or rooms.now f 0 }
{
    match rooms.get(f) {
        None => 0,
        Some(room) => *room,
    }
}

/// A plan that puts into each block of a function what it judges to fit in so many instructions, `rooms`
/// having a number for each function; where that is 0, or lacks, the function is cut everywhere.
///
/// It judges by what the passes make of the block, so few blocks are refused. It has an answer for each place. Want
/// of memory is the only error. It is linear in the program.
pub fn greedy(alloc: Global, assigned: &Assigned, rooms: &[u8]) -> Result<CutPlan, Memory>
    ensures { IfOk result (λ plan. AreAnswers rooms.now
        (program_of assigned.now.flat).functions plan.cuts) }
{
    let functions = assigned.flat.functions.as_slice();
    let mut cuts = Items::new(alloc);
    let mut joins = Items::new(alloc);
    let mut calls = 0;
    for f in 0..functions.len() {
        let function = &functions[f];
        let site = Site {
            room: room_of(rooms, f),
            frame: frame_of(function),
            groups: &assigned.groups,
        };
        let walk = walk_function(alloc, function, calls, &site)?;
        calls = walk.calls;
        let Walk {
            answers,
            joins: joined,
            last: _,
            block: _,
            guarded: _,
            in_item: _,
            calls: _,
        } = walk;
        cuts.append(answers)?;
        joins.append(joined)?;
    }
    Ok(CutPlan { cuts, joins })
}
