ghost use Rattle.std.specs.Prelude.{◌≡◌, [], IfOk};
ghost use Rattle.hyper_build.specs.inside.Laws.{cuts_by, joins_by};

use base::{Items, Memory};
use reg_assign::Assigned;
use std::alloc::Global;

/// Where blocks are cut, and which ifs are items of their block: answers for each function and each
/// statement, in the order of the program. At the places that `cuts` lacks a block is cut, and an if at
/// a place that `joins` lacks ends its block. A loop's test that is joined goes on in its block: an if that
/// is the last statement of the loop's body, whose second leg is a break alone. Any other if whose legs hold
/// more than single statements and such ifs ends its block whatever the answer.
#[derive(Drop)]
pub struct CutPlan {
    pub cuts: Items<bool>,
    pub joins: Items<bool>,
}

/// The plan that cuts at every place, and joins no if.
pub fn cut_all(alloc: Global, _assigned: &Assigned) -> Result<CutPlan, Memory>
    ensures cuts { IfOk result (λ plan. plan.cuts ≡ []) }
    ensures joins { IfOk result (λ plan. plan.joins ≡ []) }
{
    Ok(CutPlan {
        cuts: Items::new(alloc),
        joins: Items::new(alloc),
    })
}

/// Whether a plan cuts at a place.
pub fn is_cut(plan: &CutPlan, place: u32) -> bool
    ensures { result ≡ cuts_by plan.now.cuts place }
{
    match plan.cuts.get(place as usize) {
        None => true,
        Some(cut) => *cut,
    }
}

/// Whether a plan joins an if at a place.
pub fn is_joined(plan: &CutPlan, place: u32) -> bool
    ensures { result ≡ joins_by plan.now.joins place }
{
    match plan.joins.get(place as usize) {
        None => false,
        Some(joined) => *joined,
    }
}
