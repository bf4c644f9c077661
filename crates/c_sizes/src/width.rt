//! The sizes of types that are no arrays, and what they come to in an expression.

ghost use Rattle.std.specs.Prelude.{◌≡◌, IfOk};
ghost use Rattle.c_sizes.specs.Widths as widths;

use crate::shape::alone;
use base::Items;
use c_tree::{Form, Kind, Lexeme};
use c_words::{Named, is_type_word, type_of};
use std::alloc::{AllocError, Global};

/// How many bytes.
#[derive(Clone, Copy, Debug, PartialEq, Eq)]
pub enum Width {
    One,
    Two,
    Four,
    Eight,
}

impl Width {
    /// The number.
    fn bytes(self) -> usize
        ensures { result ≡ widths.bytes self }
    {
        match self {
            Width::One => 1,
            Width::Two => 2,
            Width::Four => 4,
            Width::Eight => 8,
        }
    }

    /// The constant for it. Want of memory is the only error.
    pub fn constant(self, alloc: Global) -> Result<Items<Form>, AllocError>
        ensures { IfOk result (λ fs. fs ≡ widths.constant self) }
    {
        alone(alloc, self.bytes())
    }

    /// Behind the integer promotions.
    pub fn promoted(self) -> Width
        ensures { result ≡ widths.promoted self }
    {
        match self {
            Width::Eight => Width::Eight,
            _ => Width::Four,
        }
    }

    /// Behind the usual arithmetic conversions.
    pub fn larger(self, other: Width) -> Width
        ensures { result ≡ widths.larger self other }
    {
        match self {
            Width::Eight => Width::Eight,
            _ => other.promoted(),
        }
    }

    /// That of a type.
    pub fn of_kind(kind: Kind) -> Width
        ensures { result ≡ widths.of_kind kind }
    {
        match kind {
            Kind::Short | Kind::UShort => Width::Two,
            Kind::Int | Kind::UInt => Width::Four,
            Kind::Long | Kind::ULong => Width::Eight,
            _ => Width::One,
        }
    }

    /// That of the type that words name.
    fn of_named(named: Option<Named>) -> Option<Width>
        ensures { result ≡ widths.of_named named }
    {
        match named {
            Some(Named::Number(kind)) => Some(Width::of_kind(kind)),
            Some(Named::Bool) => Some(Width::One),
            _ => None,
        }
    }

    /// That of the type that tokens are, if they are one.
    pub fn of_type(tokens: &[Lexeme]) -> Option<Width>
        ensures { result ≡ widths.of_type tokens.now }
    {
        if are_words(tokens) {
            Width::of_named(type_of(tokens))
        } else {
            None
        }
    }

    /// That of so many bytes.
    pub fn of_bytes(bytes: u64) -> Option<Width>
        ensures { result ≡ widths.of_bytes bytes }
    {
        if bytes == 1 {
            Some(Width::One)
        } else if bytes == 2 {
            Some(Width::Two)
        } else if bytes == 4 {
            Some(Width::Four)
        } else if bytes == 8 {
            Some(Width::Eight)
        } else {
            None
        }
    }

    /// What a constant for a size says.
    pub fn of_constant(form: &Form) -> Option<Width>
        ensures { result ≡ widths.of_constant form.now }
    {
        match form {
            Form::Number {
                value,
                kind: Kind::ULong,
            } => Width::of_bytes(*value),
            _ => None,
        }
    }
}

/// Is each token a word of a type?
fn are_words(tokens: &[Lexeme]) -> bool
    ensures { result ≡ widths.are_words tokens.now }
{
    let mut rest = tokens;
    while let [token, more @ ..] = rest {
        if !is_type_word(&token.form) {
            return false;
        }
        rest = more;
    }
    true
}
