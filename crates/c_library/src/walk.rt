//! What is known before a token of a unit.

ghost use Rattle.std.specs.Prelude.{◌≡◌, option_map};
ghost use Rattle.c_library.specs.Walks as walks;

use crate::calls::format_at;
use crate::header::{Header, Seen, header_of};
use c_tree::{Form, Lexeme};

/// What a token is in the beginning of a call of `printf` by a literal: its `(`, the literal, a `,` behind it if
/// there is one; or nothing of that.
#[derive(Clone, Copy, Debug, PartialEq, Eq)]
pub enum Awaits {
    Nothing,
    Paren,
    Literal,
    Comma,
}

/// What is known before a token: whether the unit has its own `printf`, which headers stand before it, and what it is
/// in a call of the library's.
#[derive(Clone, Copy, Debug, PartialEq, Eq)]
pub struct Walk {
    pub own: bool,
    pub seen: Seen,
    pub awaits: Awaits,
}

/// The headers behind a token.
fn seen_past(header: Option<Header>, seen: Seen) -> Seen
    ensures { result ≡ walks.seen_past header seen }
{
    match header {
        None => seen,
        Some(header) => seen.with(header),
    }
}

/// What the next token is.
fn awaits_past(awaits: Awaits, is_call: bool) -> Awaits
    ensures { result ≡ walks.awaits_past awaits is_call }
{
    match awaits {
        Awaits::Nothing => {
            if is_call {
                Awaits::Paren
            } else {
                Awaits::Nothing
            }
        }
        Awaits::Paren => Awaits::Literal,
        Awaits::Literal => Awaits::Comma,
        Awaits::Comma => Awaits::Nothing,
    }
}

impl Walk {
    /// Before the first token of a unit.
    pub fn start(own: bool) -> Walk
        ensures { result ≡ walks.start own }
    {
        Walk {
            own,
            seen: Seen::none(),
            awaits: Awaits::Nothing,
        }
    }

    /// The call of the library's `printf` by a literal that a token is: the place of the literal, and its values.
    pub fn call<'a>(&self, token: &Lexeme, rest: &'a [Lexeme]) -> Option<(u32, &'a [u8])>
        ensures { option_map (λ c. (c.0, c.1.now)) result ≡ walks.call self.now token.now rest.now }
    {
        if self.seen.stdio && !self.own {
            format_at(&token.form, rest)
        } else {
            None
        }
    }

    /// Behind a token.
    pub fn past(self, token: &Lexeme, rest: &[Lexeme]) -> Walk
        ensures { result ≡ walks.past self token.now rest.now }
    {
        let is_call = self.call(token, rest).is_some();
        Walk {
            own: self.own,
            seen: seen_past(header_of(&token.form), self.seen),
            awaits: awaits_past(self.awaits, is_call),
        }
    }
}
