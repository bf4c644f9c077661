//! Where a token stands: in which brackets, and in a declaration of a block or not.

ghost use Rattle.std.specs.Prelude.{◌≡◌, ◌<◌, ◌≤◌, ◌+◌};
ghost use Rattle.c_locals.specs.Values as values;
ghost use Rattle.c_locals.specs.Walks as walks;

use crate::brackets::is_mark;
use c_tree::{Form, Key, Lexeme, Mark};

/// The part of a declaration of a block that a token stands in: none, the words of its type, or what follows them.
#[derive(Clone, Copy, Debug, PartialEq, Eq)]
pub enum Part {
    Code,
    Words,
    Body,
}

/// What is known before a token: how many braces are open, and how many brackets of the other kinds; its part of a
/// declaration, and whether a list in braces stood in this.
#[derive(Clone, Copy, Debug, PartialEq, Eq)]
pub struct Walk {
    pub blocks: usize,
    pub parens: usize,
    pub has_list: bool,
    pub part: Part,
}

/// Is it a word of a type of values?
pub fn is_word(form: &Form) -> bool
    ensures { result ≡ walks.is_word form.now }
{
    match form {
        Form::Key(Key::Char | Key::Short | Key::Int | Key::Long) => true,
        Form::Key(Key::Signed | Key::Unsigned | Key::Bool) => true,
        _ => false,
    }
}

/// How many braces are open behind a token.
pub fn blocks_past(blocks: usize, form: &Form) -> usize
    requires few { blocks < 18446744073709551615 }
    ensures value { result ≡ walks.blocks_past blocks form.now }
    ensures few { result ≤ blocks + 1 }
{
    if is_mark(Mark::LeftBrace, form) {
        blocks + 1
    } else if is_mark(Mark::RightBrace, form) {
        blocks.saturating_sub(1)
    } else {
        blocks
    }
}

/// Does it open a bracket other than a brace?
fn opens(form: &Form) -> bool
    ensures { result ≡ walks.opens form.now }
{
    is_mark(Mark::LeftParen, form) || is_mark(Mark::LeftBracket, form)
}

/// Does it close one?
pub fn closes(form: &Form) -> bool
    ensures { result ≡ walks.closes form.now }
{
    is_mark(Mark::RightParen, form) || is_mark(Mark::RightBracket, form)
}

/// How many of these are open behind a token.
pub fn parens_past(parens: usize, form: &Form) -> usize
    requires few { parens < 18446744073709551615 }
    ensures value { result ≡ walks.parens_past parens form.now }
    ensures few { result ≤ parens + 1 }
{
    if opens(form) {
        parens + 1
    } else if closes(form) {
        parens.saturating_sub(1)
    } else {
        parens
    }
}

/// Do the tokens begin with a `{`?
fn begins_list(tokens: &[Lexeme]) -> bool
    ensures { result ≡ values.begins_list tokens.now }
{
    match tokens {
        [] => false,
        [token, ..] => is_mark(Mark::LeftBrace, &token.form),
    }
}

/// Within so many braces, is it a `=` before a `{`?
pub fn sets_list(blocks: usize, token: &Lexeme, behind: &[Lexeme]) -> bool
    ensures { result ≡ values.sets_list blocks token.now behind.now }
{
    blocks != 0 && is_mark(Mark::Assign, &token.form) && begins_list(behind)
}

/// Is it a further word of the declaration's type?
pub fn adds_word(part: Part, form: &Form) -> bool
    ensures { result ≡ values.adds_word part form.now }
{
    match part {
        Part::Words => is_word(form),
        _ => false,
    }
}

impl Walk {
    /// Before the first token of a unit.
    pub fn beginning() -> Walk
        ensures { result ≡ values.beginning }
    {
        Walk {
            blocks: 0,
            parens: 0,
            has_list: false,
            part: Part::Code,
        }
    }

    /// Does a declaration begin with this token?
    pub fn begins(&self, form: &Form) -> bool
        ensures { result ≡ values.begins self.now form.now }
    {
        self.blocks != 0 && self.parens == 0 && is_word(form)
    }

    /// The part behind a token.
    fn part_past(&self, form: &Form) -> Part
        ensures { result ≡ values.part_past self.now self.now.part form.now }
    {
        match self.part {
            Part::Code => {
                if self.begins(form) {
                    Part::Words
                } else {
                    Part::Code
                }
            }
            part => {
                if is_mark(Mark::Semicolon, form) {
                    Part::Code
                } else if adds_word(part, form) {
                    Part::Words
                } else {
                    Part::Body
                }
            }
        }
    }

    /// Has the declaration a list in braces so far?
    fn list_past(&self, token: &Lexeme, behind: &[Lexeme]) -> bool
        ensures { result ≡ values.list_past self.now self.now.part token.now behind.now }
    {
        match self.part {
            Part::Code => false,
            _ => self.has_list || sets_list(self.blocks, token, behind),
        }
    }

    /// Behind a token, before these.
    pub fn past(self, token: &Lexeme, behind: &[Lexeme]) -> Walk
        requires blocks { self.blocks < 18446744073709551615 }
        requires parens { self.parens < 18446744073709551615 }
        ensures value { result ≡ values.past self token.now behind.now }
        ensures blocks { result.blocks ≤ self.blocks + 1 }
        ensures parens { result.parens ≤ self.parens + 1 }
    {
        Walk {
            blocks: blocks_past(self.blocks, &token.form),
            parens: parens_past(self.parens, &token.form),
            has_list: self.list_past(token, behind),
            part: self.part_past(&token.form),
        }
    }
}
