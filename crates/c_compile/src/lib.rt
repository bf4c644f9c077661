//! From C texts to images that do what the texts mean (docs/LANGUAGE.md).
//!
//! `specs/inside/Flat.antt` says what the flat program of a text is, `specs/Images.antt` what its image is.
#![tactic(auto)]

mod attempts;
mod compiling;
mod copies;
mod law;
mod listed;
mod lowering;
mod rooms;
mod within;

pub use attempts::Tried;
pub use compiling::{compile, compile_listed, compile_unrolled};
pub use law::{accepted_texts_keep_meaning, images_mean_texts};
pub use listed::Listed;
pub use lowering::lower_text;
pub use rooms::Count;
pub use within::compile_within;
