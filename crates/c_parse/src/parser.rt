//! The tokens that are left, and what is taken from them.

ghost use Rattle.std.specs.Prelude.{◌≡◌, ◌<◌, ◌≤◌, length, IfOk, [], ◌∷◌};
ghost use Rattle.c_tree.specs.Marks as marks;
ghost use Rattle.c_grammar.specs.inside.Numbers as numbers;
ghost use Rattle.c_grammar.specs.inside.Parsing as model;
ghost use Rattle.c_grammar.specs.inside.ModelTypes as types;
ghost use Rattle.c_grammar.specs.inside.ModelPrimaries as primaries;
ghost use Rattle.c_parse.specs.inside.Reads.{Reads, Enters};

use crate::fault::Stopped;
use c_tree::{Form, Key, Lexeme, Mark, Word};
use std::alloc::Global;

#[derive(Drop)]
pub struct Parser<'a> {
    pub alloc: Global,
    pub rest: &'a [Lexeme],
}

impl Parser<'_> {
    /// Takes the first token, if there is one.
    pub fn advance(&mut self)
        ensures { self.new.rest.now ≡ model.tail self.old.rest.now }
    {
        if let [_, rest @ ..] = self.rest {
            self.rest = rest;
        }
    }

    /// The offset of the first token, or 0.
    pub fn offset(&self) -> u32
        ensures { result ≡ model.offset_of self.now.rest.now }
    {
        match self.rest {
            [] => 0,
            [lexeme, ..] => lexeme.offset,
        }
    }

    pub fn is_next(&self, mark: Mark) -> bool
        ensures { result ≡ model.is_next mark self.now.rest.now }
    {
        match self.rest {
            [] => false,
            [lexeme, ..] => is_mark(mark, &lexeme.form),
        }
    }

    pub fn is_word(&self, key: Key) -> bool
        ensures { result ≡ model.is_word key self.now.rest.now }
    {
        match self.rest {
            [] => false,
            [lexeme, ..] => is_key(key, &lexeme.form),
        }
    }

    pub fn is_name(&self) -> bool
        ensures { result ≡ model.first primaries.is_name self.now.rest.now }
    {
        match self.rest {
            [] => false,
            [lexeme, ..] => matches!(&lexeme.form, Form::Name(_)),
        }
    }

    pub fn begins_type(&self) -> bool
        ensures { result ≡ types.begins_type self.now.rest.now }
    {
        self.is_word(Key::Char)
            || self.is_word(Key::Int)
            || self.is_word(Key::Short)
            || self.is_word(Key::Long)
            || self.is_word(Key::Signed)
            || self.is_word(Key::Unsigned)
            || self.is_word(Key::Bool)
    }

    /// Takes a mark, and gives its offset.
    #[inline(always)]
    pub fn expect(&mut self, mark: Mark) -> Result<u32, Stopped>
        ensures { Reads (model.expect mark self.old.rest.now) result self.new.rest.now }
    {
        if self.is_next(mark) {
            let offset = self.offset();
            self.advance();
            Ok(offset)
        } else {
            Err(Stopped::Syntax)
        }
    }

    pub fn expect_keyword(&mut self, key: Key) -> Result<u32, Stopped>
        ensures { Reads (model.expect_keyword key self.old.rest.now) result self.new.rest.now }
    {
        if self.is_word(key) {
            let offset = self.offset();
            self.advance();
            Ok(offset)
        } else {
            Err(Stopped::Syntax)
        }
    }

    /// Takes a mark that opens a depth, and answers how many more may be opened inside.
    pub fn enter(&mut self, mark: Mark, left: u8) -> Result<u8, Stopped>
        ensures { Enters mark left self.old.rest.now result self.new.rest.now }
    {
        if !self.is_next(mark) {
            return Err(Stopped::Syntax);
        }
        if left == 0 {
            return Err(Stopped::TooDeep);
        }
        self.advance();
        Ok(left - 1)
    }

    /// Takes a name.
    pub fn name(&mut self) -> Result<(u32, Word), Stopped>
        ensures { Reads (model.name_of self.old.rest.now) result self.new.rest.now }
    {
        let [lexeme, ..] = self.rest else {
            return Err(Stopped::Syntax);
        };
        match &lexeme.form {
            Form::Name(word) => {
                let offset = lexeme.offset;
                let name = word.copy(self.alloc)?;
                self.advance();
                Ok((offset, name))
            }
            _ => Err(Stopped::Syntax),
        }
    }
}

fn is_mark(mark: Mark, form: &Form) -> bool
    ensures { result ≡ numbers.is_mark mark form.now }
{
    match form {
        Form::Mark(found) => mark_number(mark) == mark_number(*found),
        _ => false,
    }
}

fn is_key(key: Key, form: &Form) -> bool
    ensures { result ≡ numbers.is_key key form.now }
{
    match form {
        Form::Key(found) => key_number(key) == key_number(*found),
        _ => false,
    }
}

/// The place of the mark in its type.
fn mark_number(mark: Mark) -> u8
    ensures { result ≡ marks.mark_number mark }
{
    mark as u8
}

/// The place of the keyword in its type.
fn key_number(key: Key) -> u8
    ensures { result ≡ numbers.key_number key }
{
    key as u8
}
