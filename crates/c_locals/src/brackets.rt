//! Tokens outside of brackets.

ghost use Rattle.std.specs.Prelude.{◌≡◌, ◌<◌, ◌≤◌, ◌+◌, ◌∷◌, length, option_map, IfSome};
ghost use Rattle.c_library.specs.Calls.{is_mark};
ghost use Rattle.c_locals.specs.Brackets as brackets;

use c_tree::{Form, Lexeme, Mark};

/// Is it this punctuator?
pub fn is_mark(mark: Mark, form: &Form) -> bool
    ensures { result ≡ is_mark mark form.now }
{
    match form {
        Form::Mark(other) => *other == mark,
        _ => false,
    }
}

/// How many brackets are open behind a punctuator.
fn depth_by(mark: Mark, depth: usize) -> usize
    requires few { depth < 18446744073709551615 }
    ensures value { result ≡ brackets.depth_by mark depth }
    ensures few { result ≤ depth + 1 }
{
    match mark {
        Mark::LeftParen | Mark::LeftBracket | Mark::LeftBrace => depth + 1,
        Mark::RightParen | Mark::RightBracket | Mark::RightBrace => depth.saturating_sub(1),
        _ => depth,
    }
}

/// How many brackets are open behind a token.
pub fn depth_past(form: &Form, depth: usize) -> usize
    requires few { depth < 18446744073709551615 }
    ensures value { result ≡ brackets.depth_past form.now depth }
    ensures few { result ≤ depth + 1 }
{
    match form {
        Form::Mark(mark) => depth_by(*mark, depth),
        _ => depth,
    }
}

/// Does the token, with so many brackets open before it, divide tokens as this punctuator does?
pub fn divides(mark: Mark, depth: usize, token: &Lexeme) -> bool
    ensures { result ≡ brackets.divides mark depth token.now }
{
    depth == 0 && is_mark(mark, &token.form)
}

/// The tokens before the first such punctuator outside of brackets, and those behind it.
#[tactic(auto, using(crate::proofs::SplitFacts::goes_on, crate::proofs::SplitFacts::divided, crate::proofs::SplitFacts::begins))]
pub fn split<'a>(mark: Mark, tokens: &'a [Lexeme]) -> Option<(&'a [Lexeme], &'a [Lexeme])>
    ensures { option_map (λ p. (p.0.now, p.1.now)) result ≡ brackets.split mark tokens.now }
{
    let size = tokens.len();
    let mut count: usize = 0;
    let mut depth: usize = 0;
    let mut rest = tokens;
    while let [token, more @ ..] = rest {
        if divides(mark, depth, token) {
            let (before, _) = tokens.split_at(count);
            return Some((before, more));
        }
        depth = depth_past(&token.form, depth);
        count += 1;
        rest = more;
    }
    None
}

/// The first piece before a comma outside of brackets, and the tokens behind the comma, if there is one.
#[tactic(auto, using(crate::proofs::SplitFacts::pieces_split, crate::proofs::SplitFacts::shorter))]
pub fn first_piece(tokens: &[Lexeme]) -> (&[Lexeme], Option<&[Lexeme]>)
    ensures shorter { IfSome result.1 (λ more. length more.now < length tokens.now) }
    ensures pieces { brackets.pieces tokens.now
        ≡ result.0.now ∷ brackets.further_pieces (option_map (λ more. more.now) result.1) }
{
    match split(Mark::Comma, tokens) {
        None => (tokens, None),
        Some((piece, more)) => (piece, Some(more)),
    }
}
