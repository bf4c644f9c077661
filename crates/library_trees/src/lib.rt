//! Laws of the tokens of the library's functions that print numbers: which typed functions they are.
//!
//! Nothing of this crate runs.
#![tactic(auto)]

mod law;

pub use law::{
    digits_is_typed, fill_is_typed, hexadecimal_is_typed, signed_is_typed, size_is_typed,
    table_has_tokens, unsigned_is_typed,
};
