//! Guards only where they are needed: a node of a flow block whose token is seen only where its guard is met anyway
//! loses the guard, so that it need not wait for the test.
//!
//! Which nodes may lose their guards, and the block that this gives, stands in specs/inside/Unguards; the laws in
//! specs/inside/Laws.
#![tactic(auto)]

mod guards;
mod guessing;
mod judging;
mod laws;
mod loosening;
mod unguarding;
mod uses;

pub use laws::{
    nodes_stay_where_they_stand, unguarding_keeps_completeness, unguarding_keeps_labels,
    unguarding_keeps_meaning, unguarding_keeps_regularity,
};
pub use unguarding::unguard;
