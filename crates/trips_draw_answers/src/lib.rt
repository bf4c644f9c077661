//! What `draw` is answered of an image whose blocks are good: the drawing of a block, or that there is no such block.
//! `specs/Drawn` says so.
#![tactic(auto)]

mod answers;

pub use answers::block_drawn;
