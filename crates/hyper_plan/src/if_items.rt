//! What an if comes to that is an item of its block.

use crate::estimate::{Estimate, MOST_IFS};
use crate::items::{Frame, add_statement};
use ir_forms::FlatStmt;

/// Whether statements are items alone, with few ifs among them.
pub fn are_items(stmts: &[FlatStmt]) -> bool {
    ifs_left_of(stmts, MOST_IFS).is_some()
}

/// How many more ifs may come behind statements that are items alone; none where they have too many, or others
/// are among them.
#[cycle(items)]
fn ifs_left_of(stmts: &[FlatStmt], left: u32) -> Option<u32> {
    let mut left = left;
    for s in stmts {
        left = ifs_left(s, left)?;
    }
    Some(left)
}

#[cycle(items)]
fn ifs_left(s: &FlatStmt, left: u32) -> Option<u32> {
    match s {
        FlatStmt::Let { .. } => Some(left),
        FlatStmt::Frame { .. } => Some(left),
        FlatStmt::Load { .. } => Some(left),
        FlatStmt::Save { .. } => Some(left),
        FlatStmt::If { yes, no, .. } => {
            let rest = ifs_left_of(yes.as_slice(), left.checked_sub(1)?)?;
            ifs_left_of(no.as_slice(), rest)
        }
        _ => None,
    }
}

/// What a statement does that is items alone.
#[cycle(item)]
pub fn add_item(s: &FlatStmt, block: &mut Estimate, frame: Frame) {
    match s {
        FlatStmt::If { test, yes, no } => {
            let legs = block.begin_legs(*test);
            add_items(yes.as_slice(), block, frame);
            let first = block.turn_leg(&legs);
            add_items(no.as_slice(), block, frame);
            block.end_legs(&legs, &first);
        }
        _ => add_statement(block, s, frame),
    }
}

/// What statements do that are items alone.
#[cycle(item)]
pub fn add_items(stmts: &[FlatStmt], block: &mut Estimate, frame: Frame) {
    for s in stmts {
        add_item(s, block, frame);
    }
}
