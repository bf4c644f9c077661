//! The operator of an expression that binds lowest.

ghost use Rattle.std.specs.Prelude.{◌≡◌, ◌<◌, length, IfSome};
ghost use Rattle.c_sizes.specs.Operators as operators;

use crate::behind::Behind;
use crate::size::depth_past;
use c_tree::{Form, Lexeme, Mark};

/// How strongly one binds; a punctuator that is none has 0.
pub fn rank(mark: Mark) -> u8
    ensures { result ≡ operators.rank mark }
{
    match mark {
        Mark::Colon => 1,
        Mark::Comma => 2,
        Mark::Assign | Mark::PlusAssign | Mark::MinusAssign | Mark::StarAssign => 3,
        Mark::SlashAssign | Mark::PercentAssign | Mark::ShiftLeftAssign => 3,
        Mark::ShiftRightAssign | Mark::AndAssign | Mark::XorAssign | Mark::OrAssign => 3,
        Mark::Question => 4,
        Mark::OrOr => 5,
        Mark::AndAnd => 6,
        Mark::Or => 7,
        Mark::Xor => 8,
        Mark::And => 9,
        Mark::Equal | Mark::NotEqual => 10,
        Mark::Less | Mark::Greater | Mark::LessEqual | Mark::GreaterEqual => 11,
        Mark::ShiftLeft | Mark::ShiftRight => 12,
        Mark::Plus | Mark::Minus => 13,
        Mark::Star | Mark::Slash | Mark::Percent => 14,
        _ => 0,
    }
}

/// Does it bind lower than this one, or is there none?
fn is_lower(mark: Mark, found: Option<(Mark, usize)>) -> bool
    ensures { result ≡ operators.is_lower mark found }
{
    match found {
        None => rank(mark) != 0,
        Some((other, _)) => rank(mark) != 0 && rank(mark) < rank(other),
    }
}

/// The lowest behind a token that has so many before it, in so many brackets and arms, and that stands so.
fn lower(
    count: usize,
    depth: usize,
    behind: Behind,
    form: &Form,
    found: Option<(Mark, usize)>,
) -> Option<(Mark, usize)>
    ensures { result ≡ operators.lower count depth behind form.now found }
{
    match form {
        Form::Mark(mark) => {
            if depth == 0 && behind.is_operand() && is_lower(*mark, found) {
                Some((*mark, count))
            } else {
                found
            }
        }
        _ => found,
    }
}

/// The lowest of tokens, and how many stand before it.
pub fn lowest(tokens: &[Lexeme]) -> Option<(Mark, usize)>
    ensures value { result ≡ operators.lowest tokens.now }
    ensures within { IfSome result (λ p. p.1 < length tokens.now) }
{
    let size = tokens.len();
    let mut count: usize = 0;
    let mut depth: usize = 0;
    let mut behind = Behind::Other;
    let mut found = None;
    let mut rest = tokens;
    while let [token, more @ ..] = rest {
        found = lower(count, depth, behind, &token.form, found);
        depth = depth_past(depth, &token.form);
        behind = behind.past(&token.form);
        count += 1;
        rest = more;
    }
    found
}
