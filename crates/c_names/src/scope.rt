//! The names that stand for something at a place.

ghost use Rattle.std.specs.Prelude.{◌≡◌, [], ◌∷◌, OnOk, IfOk, option_map, reverse};
ghost use Rattle.std.specs.Str.{bytes_eq};
ghost use Rattle.c_names.specs.Scope as scopes;
ghost use Rattle.c_names.specs.declared.scope.Entry.TheVariants as entry;
ghost use Rattle.c_tree.specs.declared.Form.TheVariants as form;

use crate::piece::Piece;
use base::Items;
use c_tree::{Form, Mark, Word, same_bytes};
use std::alloc::{AllocError, Global};
use std::marker::Model;

/// A block or a parenthesis that is open, or a name that stands for something.
#[derive(Debug, Drop)]
pub enum Entry {
    Block,
    Paren,
    Name { name: Word, pieces: Items<Piece> },
}

/// What was declared or opened, seen as a list, the innermost first.
#[derive(Drop)]
pub struct Scope {
    entries: Vec<Entry>,
}

impl Model for Scope {
    ghost use Rattle.std.specs.Prelude.{List, reverse};
    ghost use Rattle.c_names.specs.declared.scope.Entry.{Entry};

    ghost Value = { List Entry };

    ghost view = { λ s. reverse s.entries.items };
}

/// Are two names one?
pub fn same_name(a: &[u8], b: &[u8]) -> bool
    ensures { result ≡ bytes_eq a.now b.now }
{
    same_bytes(a, b)
}

/// Is it a name of the text's?
pub fn is_own(name: &[u8]) -> bool
    ensures { result ≡ scopes.is_own name.now }
{
    match name {
        [] => false,
        [first, ..] => *first != b'"' && *first != b'<',
    }
}

/// The name of a tag. Want of memory is the only error.
pub fn tag(alloc: Global, name: &[u8]) -> Result<Form, AllocError>
    ensures { IfOk result (λ f. f ≡ form.Name (scopes.tag name.now)) }
{
    let mut bytes = Vec::from_slice(alloc, b"enum ")?;
    bytes.extend_from_slice(name)?;
    Ok(Form::Name(Word::from_slice(alloc, &bytes)?))
}

/// What a name stands for in these, the innermost last.
fn look_up_in<'a>(name: &[u8], entries: &'a [Entry]) -> Option<&'a [Piece]>
    ensures { option_map (λ ps. ps.now) result ≡ scopes.look_up name.now (reverse entries.now) }
{
    let mut rest = entries;
    while let Some((entry, outer)) = rest.split_last() {
        if let Entry::Name {
            name: other,
            pieces,
        } = entry
        {
            if same_name(other.as_slice(), name) {
                return Some(pieces.as_slice());
            }
        }
        rest = outer;
    }
    None
}

/// Was the name declared in the innermost block of these, the innermost last?
fn is_here_in(name: &[u8], entries: &[Entry]) -> bool
    ensures { result ≡ scopes.is_here name.now (reverse entries.now) }
{
    let mut rest = entries;
    while let Some((entry, outer)) = rest.split_last() {
        match entry {
            Entry::Block => return false,
            Entry::Paren => (),
            Entry::Name { name: other, .. } => {
                if same_name(other.as_slice(), name) {
                    return true;
                }
            }
        }
        rest = outer;
    }
    false
}

/// Leaves the innermost block of these, the innermost last.
fn leave_block(entries: &mut Vec<Entry>)
    ensures { reverse entries.new.items ≡ scopes.outside (reverse entries.old.items) }
{
    while let Some(entry) = entries.pop() {
        if let Entry::Block = entry {
            return;
        }
    }
}

impl Scope {
    /// Nothing. It takes no memory.
    pub fn new(alloc: Global) -> Scope
        ensures { result ≡ [] }
    {
        Scope {
            entries: Vec::new(alloc),
        }
    }

    /// Adds an entry. Want of memory is the only error.
    fn push(&mut self, entry: Entry) -> Result<(), AllocError>
        ensures ok { OnOk result (self.new ≡ entry ∷ self.old) }
    {
        self.entries.push(entry)?;
        Ok(())
    }

    /// What a name stands for, if it stands for something.
    pub fn look_up(&self, name: &[u8]) -> Option<&[Piece]>
        ensures { option_map (λ ps. ps.now) result ≡ scopes.look_up name.now self.now }
    {
        look_up_in(name, self.entries.as_slice())
    }

    /// Was the name declared in the innermost block?
    pub fn is_here(&self, name: &[u8]) -> bool
        ensures { result ≡ scopes.is_here name.now self.now }
    {
        is_here_in(name, self.entries.as_slice())
    }

    /// Is a parenthesis the innermost that is open, with nothing declared in it?
    pub fn in_parens(&self) -> bool
        ensures { result ≡ scopes.in_parens self.now }
    {
        match self.entries.last() {
            Some(Entry::Paren) => true,
            _ => false,
        }
    }

    /// Leaves the innermost block.
    fn leave(&mut self)
        ensures { self.new ≡ scopes.outside self.old }
    {
        leave_block(&mut self.entries);
    }

    /// Leaves a parenthesis, if one is the innermost.
    fn close(&mut self)
        ensures { self.new ≡ scopes.closed self.old }
    {
        if self.in_parens() {
            self.entries.pop();
        }
    }

    /// Passes a punctuator. Want of memory is the only error.
    pub fn pass(&mut self, mark: Mark) -> Result<(), AllocError>
        ensures ok { OnOk result (self.new ≡ scopes.past mark self.old) }
    {
        match mark {
            Mark::LeftBrace => self.push(Entry::Block),
            Mark::LeftParen => self.push(Entry::Paren),
            Mark::RightBrace => {
                self.leave();
                Ok(())
            }
            Mark::RightParen => {
                self.close();
                Ok(())
            }
            _ => Ok(()),
        }
    }

    /// Is it a name that may be declared?
    pub fn is_free(&self, form: &Form) -> bool
        ensures { result ≡ scopes.is_free form.now self.now }
    {
        match form {
            Form::Name(name) => is_own(name.as_slice()) && !self.is_here(name.as_slice()),
            _ => false,
        }
    }

    /// Declares a name. Want of memory is the only error.
    pub fn bind(&mut self, name: Word, pieces: Items<Piece>) -> Result<(), AllocError>
        ensures ok { OnOk result (self.new ≡ entry.Name name pieces ∷ self.old) }
    {
        self.push(Entry::Name { name, pieces })
    }

    /// Declares the name that a token is. Want of memory is the only error.
    pub fn declare(
        &mut self,
        alloc: Global,
        form: &Form,
        pieces: &[Piece],
    ) -> Result<(), AllocError>
        ensures ok { OnOk result (self.new ≡ scopes.declared form.now pieces.now self.old) }
    {
        match form {
            Form::Name(name) => {
                let pieces = Items::from_slice(alloc, pieces)?;
                self.bind(name.copy(alloc)?, pieces)
            }
            _ => Ok(()),
        }
    }
}
