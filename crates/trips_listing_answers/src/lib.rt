//! What `compile` is answered of a text of C whose listing is asked for: the target text of its image with comment
//! lines, which name the function that each block is of (`specs/Listings`). And from which function of a text the block
//! comes at which the run of its image traps (`specs/Traps`).
#![tactic(auto)]

mod ending;
mod law;
mod listing;
#[cfg(test)]
mod listing_tests;
mod trap;

pub use law::listings_tell_images;
pub use listing::listing_answer;
pub use trap::trap_told;
