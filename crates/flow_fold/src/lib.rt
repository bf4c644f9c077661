//! Four passes over flow blocks: *share* turns nodes that do what another does into copies of it, *fold* turns nodes
//! into such that take fewer tokens, *stride* adds to what another node gives, and *sweep* lets go what nothing names
//! any more.
//!
//! Each step replaces a block by one that means the same, is complete and regular, whatever its labels become
//! (specs/inside/Replaces). The rule of share stands in specs/inside/Shares, those of fold in specs/inside/Folds,
//! those of stride in specs/inside/Strides, those of sweep in specs/inside/SweepsAll.
#![tactic(auto)]

mod addresses;
mod behind;
mod checking;
mod computed;
mod constants;
mod copies;
mod differences;
mod drawing;
mod folding;
mod joining;
mod keeping;
mod laws;
mod mirrors;
mod negatives;
mod offsets;
mod opposites;
mod renumbering;
mod sharing;
mod steps;
mod striding;
mod sums;
mod sweeping;
mod tests;
mod trying;
mod uses;
mod waits;

pub use laws::{
    blocks_replace_themselves, drawings_replace, foldings_replace, replacements_follow,
    sharings_replace, sweepings_at_once_replace, sweepings_replace,
};
pub use sharing::share;
pub use steps::fold;
pub use striding::stride;
pub use sweeping::sweep;
