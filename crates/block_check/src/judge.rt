//! Whether a block is good.
ghost use Rattle.std.specs.Prelude.{nat_le, nat_lt, ◌≡◌, ◌<◌, ◌≤◌, ◌+◌, ◌||◌, ◌&&◌, ◌==◌, ℕ};
ghost use Rattle.std.specs.Prelude.{length, slice_index_or, slice_index, slice_get, slice_set};
ghost use Rattle.std.specs.Prelude.{false, true, MatchResult, IfOk, IfErr};
ghost use Rattle.block_cases.specs.Nodes.{IsRanked, HasCycle};
ghost use Rattle.block_cases.specs.Cases.{bit};
ghost use Rattle.block_check.specs.inside.Pass.{AllInPlace, IsSpare, Spare};
ghost use Rattle.block_check.specs.inside.PartOrder.{IsOrdered};
ghost use Rattle.block_check.specs.inside.Found.{Explored};
ghost use Rattle.block_cases.specs.Good.{Good};
ghost use Rattle.block_check.specs.inside.Judged.{IsFault, FalseBelow};
ghost use Rattle.trips_isa.specs.Limits.{most_nodes};

use crate::fault::NodeFault;
use crate::order::sort;
use crate::search::explore;
use trips_isa::{EXIT, FIRST_WRITE, NO_PLACE, Node, PLACES, Role};

fn is_empty(role: Role) -> bool
    ensures { result ≡ true → role ≡ Role.Empty }
{
    match role {
        Role::Empty => true,
        _ => false,
    }
}

fn is_spare(node: Node) -> bool
    ensures { result ≡ true → IsSpare node }
{
    is_empty(node.role) && node.first == NO_PLACE && node.second == NO_PLACE
}

/// The least place below the exit that is marked, or the exit.
fn first_mark(marks: &[bool]) -> u16
    requires { length marks.now ≡ PLACES }
    ensures within { result ≤ EXIT }
    ensures before { (p : ℕ) → p < result → bit marks.now p ≡ false }
    ensures found { result < EXIT → bit marks.now result ≡ true }
{
    for q in 0..EXIT {
        if marks[q as usize] {
            return q;
        }
    }
    EXIT
}

/// The least place below the exit that is marked and wanted, or the exit.
fn first_wanted(marks: &[bool], wanted: &[bool]) -> u16
    requires marks { length marks.now ≡ PLACES }
    requires wanted { length wanted.now ≡ PLACES }
    requires low { FalseBelow FIRST_WRITE wanted.now }
    ensures within { result ≤ EXIT }
    ensures before { (p : ℕ) → p < result → bit wanted.now p ≡ true → bit marks.now p ≡ false }
    ensures found { result < EXIT → bit marks.now result ≡ true }
    ensures is_wanted { result < EXIT → bit wanted.now result ≡ true }
{
    for q in FIRST_WRITE..EXIT {
        if wanted[q as usize] && marks[q as usize] {
            return q;
        }
    }
    EXIT
}

fn judge_marks(
    nodes: &[Node],
    wanted: &[bool],
    count: usize,
    two: &[bool],
    none: &[bool],
) -> Result<(), NodeFault>
    requires ranked { IsRanked nodes.now }
    requires wanted { length wanted.now ≡ PLACES }
    requires low { FalseBelow FIRST_WRITE wanted.now }
    requires two { length two.now ≡ PLACES }
    requires none { length none.now ≡ PLACES }
    requires explored { Explored nodes.now count two.now none.now }
    ensures { MatchResult result
        (λ u. Good nodes.now (bit wanted.now)) (IsFault nodes.now (bit wanted.now)) }
{
    if count > 256 {
        return Err(NodeFault::TooManyCases);
    }
    let first = first_mark(two);
    if first < EXIT {
        return Err(NodeFault::TwoTokens(first));
    }
    let gap = first_wanted(none, wanted);
    if gap < EXIT {
        return Err(NodeFault::NoToken(gap));
    }
    if none[EXIT as usize] {
        return Err(NodeFault::NoExit);
    }
    if two[EXIT as usize] {
        return Err(NodeFault::TwoExits);
    }
    Ok(())
}

/// How many nodes stand before the empty slots at the end.
fn count_used(nodes: &[Node]) -> usize
    ensures used { result ≤ length nodes.now }
    ensures spare { Spare nodes.now result }
{
    let mut used = nodes.len();
    while used > 0 && is_spare(nodes[used - 1]) {
        used -= 1;
    }
    used
}

fn judge_ordered(nodes: &[Node], order: &[usize], wanted: &[bool]) -> Result<(), NodeFault>
    requires size { length nodes.now ≤ most_nodes }
    requires in_place { AllInPlace nodes.now }
    requires ordered { IsOrdered nodes.now order.now }
    requires wanted { length wanted.now ≡ PLACES }
    requires low { FalseBelow FIRST_WRITE wanted.now }
    ensures { MatchResult result
        (λ u. Good nodes.now (bit wanted.now)) (IsFault nodes.now (bit wanted.now)) }
{
    let mut two_table = [false; PLACES as usize];
    let mut none_table = [false; PLACES as usize];
    let two = two_table.as_mut_slice();
    let none = none_table.as_mut_slice();
    let used = count_used(nodes);
    let count = explore(nodes, used, order, two, none);
    judge_marks(nodes, wanted, count, two, none)
}

/// Whether nodes are good; else their fault with the lowest number, at the least place.
pub(crate) fn judge(nodes: &[Node], wanted: &[bool]) -> Result<(), NodeFault>
    requires size { length nodes.now ≤ most_nodes }
    requires in_place { AllInPlace nodes.now }
    requires wanted { length wanted.now ≡ PLACES }
    requires low { FalseBelow FIRST_WRITE wanted.now }
    ensures good { IfOk result (λ u. Good nodes.now (bit wanted.now)) }
    ensures fault { IfErr result (IsFault nodes.now (bit wanted.now)) }
{
    let mut table = [0usize; 160];
    let order = &mut table[..nodes.len()];
    if !sort(nodes, order) {
        return Err(NodeFault::Cycle);
    }
    judge_ordered(nodes, order, wanted)
}
