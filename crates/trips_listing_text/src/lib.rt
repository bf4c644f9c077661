//! A target text with comment lines before each of its blocks, which tell the function of C that the block is of, where
//! it stands in its text, and which registers hold its scalars.
//!
//! `specs/Functions` says what is told of a text's functions, `specs/Comments` how, and `specs/Listed` where.
#![tactic(auto)]

mod blocks;
mod functions;
mod law;
mod lines;
mod listing;
mod places;
mod scalars;
mod told;

pub use blocks::put_comments;
pub use functions::told_all;
pub use law::comments_change_nothing;
pub use listing::listed;
pub use told::Told;
