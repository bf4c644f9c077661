//! What a token of an expression stands behind, and where the operand of a `sizeof` ends.

ghost use Rattle.std.specs.Prelude.{◌≡◌, ◌≤◌, length};
ghost use Rattle.c_sizes.specs.Behinds as behinds;

use crate::size::depth_past;
use c_tree::{Form, Lexeme, Mark};
use c_words::is_type_word;

/// What a token of an expression stands behind: an operand, a word of a type, or something else.
#[derive(Clone, Copy, Debug, PartialEq, Eq)]
pub enum Behind {
    Operand,
    Word,
    Other,
}

/// What stands behind a `)`.
fn closed(behind: Behind) -> Behind
    ensures { result ≡ behinds.closed behind }
{
    match behind {
        Behind::Word => Behind::Other,
        _ => Behind::Operand,
    }
}

/// What stands behind a punctuator, which stands so.
fn past_mark(behind: Behind, mark: Mark) -> Behind
    ensures { result ≡ behinds.past_mark behind mark }
{
    match mark {
        Mark::RightParen => closed(behind),
        Mark::RightBracket => Behind::Operand,
        Mark::PlusPlus | Mark::MinusMinus => behind,
        _ => Behind::Other,
    }
}

/// A word of a type, or something else.
fn past_other(form: &Form) -> Behind
    ensures { result ≡ behinds.past_other form.now }
{
    if is_type_word(form) {
        Behind::Word
    } else {
        Behind::Other
    }
}

impl Behind {
    /// Is it an operand?
    pub fn is_operand(self) -> bool
        ensures { result ≡ behinds.is_operand self }
    {
        match self {
            Behind::Operand => true,
            _ => false,
        }
    }

    /// What stands behind a token, which stands so.
    pub fn past(self, form: &Form) -> Behind
        ensures { result ≡ behinds.past self form.now }
    {
        match form {
            Form::Name(_) => Behind::Operand,
            Form::Number { value: _, kind: _ } => Behind::Operand,
            Form::Mark(mark) => past_mark(self, *mark),
            _ => past_other(form),
        }
    }
}

/// Is the token `++` or `--`?
fn is_step(form: &Form) -> bool
    ensures { result ≡ behinds.is_step form.now }
{
    match form {
        Form::Mark(mark) => match mark {
            Mark::PlusPlus | Mark::MinusMinus => true,
            _ => false,
        },
        _ => false,
    }
}

/// Are these that token alone?
pub fn is_one_step(tokens: &[Lexeme]) -> bool
    ensures { result ≡ behinds.is_one_step tokens.now }
{
    match tokens {
        [token] => is_step(&token.form),
        _ => false,
    }
}

/// Does an operand go on with this token?
pub fn goes_on(form: &Form) -> bool
    ensures { result ≡ behinds.goes_on form.now }
{
    match form {
        Form::Mark(mark) => match mark {
            Mark::LeftBracket | Mark::LeftParen => true,
            _ => is_step(form),
        },
        _ => false,
    }
}

/// Does the operand of a `sizeof` end before a token in so many brackets that stands so?
fn ends(depth: usize, behind: Behind, form: &Form) -> bool
    ensures { result ≡ behinds.ends depth behind form.now }
{
    depth == 0 && behind.is_operand() && !goes_on(form)
}

/// How many tokens the operand of a `sizeof` has that begins with these.
pub fn reach(tokens: &[Lexeme]) -> usize
    ensures value { result ≡ behinds.reach tokens.now }
    ensures within { result ≤ length tokens.now }
{
    let size = tokens.len();
    let mut count: usize = 0;
    let mut depth: usize = 0;
    let mut behind = Behind::Other;
    let mut rest = tokens;
    while let [token, more @ ..] = rest {
        if ends(depth, behind, &token.form) {
            return count;
        }
        depth = depth_past(depth, &token.form);
        behind = behind.past(&token.form);
        count += 1;
        rest = more;
    }
    count
}
