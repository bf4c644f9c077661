//! Laws of the library's functions that print numbers: what each writes is the number's numeral.
//!
//! Nothing of this crate runs.
#![tactic(auto)]

mod law;

pub use law::{
    characters_are_filled_in, characters_are_padded, decimals_are_numerals, digits_are_counted,
    digits_are_printed, hexadecimal_is_printed, numerals_stand_for_numbers, signed_is_printed,
    unsigned_is_printed,
};
