//! Where the blocks of each function of a built program begin.

ghost use Rattle.std.specs.Prelude.{◌≡◌, IfOk};
ghost use Rattle.ir_forms.specs.inside.FlatViews.{program_of};
ghost use Rattle.hyper_build.specs.inside.FunctionParts.{entries_of};
ghost use Rattle.hyper_build.specs.inside.Laws.{plan_of};

use crate::ground::Site;
use crate::numbering::{Numbering, number_functions};
use crate::plan::CutPlan;
use base::{Items, Memory};
use reg_assign::Assigned;
use std::alloc::Global;

/// The number of the first block of each function in the program that `build` makes for a plan
/// (`entries_begin_functions`). Want of memory is the only error of a program that fits.
pub fn function_entries(
    alloc: Global,
    assigned: &Assigned,
    plan: &CutPlan,
) -> Result<Items<u32>, Memory>
    ensures { IfOk result (λ entries. entries
        ≡ entries_of (plan_of plan.now.cuts plan.now.joins assigned.now.groups)
        (program_of assigned.now.flat)) }
{
    let none = Items::new(alloc);
    let bare = Site {
        plan,
        groups: &assigned.groups,
        entries: &none,
        frame: 0,
        arrays: 0,
    };
    let mut numbering = Numbering {
        label: 3,
        place: 0,
        calls: 0,
        notes: Items::new(alloc),
    };
    number_functions(
        assigned.flat.functions.as_slice(),
        &mut numbering,
        &bare,
        alloc,
    )
}
