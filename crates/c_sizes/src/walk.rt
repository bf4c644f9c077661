//! What is known before a token of a unit.

ghost use Rattle.std.specs.Prelude.{◌≡◌, OnOk, IfOk};
ghost use Rattle.c_sizes.specs.Walks as walks;

use crate::known::Known;
use crate::nest::{Nest, Opened};
use crate::shape::Shape;
use c_tree::{Form, Key, Lexeme, Mark, Word};
use std::alloc::{AllocError, Global};

/// What stands directly in front of a token: the words of a type of so many bytes, a `,`, `for`, or something else.
#[derive(Clone, Copy, Debug, PartialEq, Eq)]
pub enum Front {
    Type(u8),
    Comma,
    For,
    Other,
}

/// What is known before a token: what stands in front of it, what it stands in, and the names in scope.
#[derive(Drop)]
pub struct Walk {
    pub front: Front,
    pub nest: Nest,
    pub known: Known,
}

/// The bytes of the type whose words stand in front, without the next word: those of int if there are none.
fn bytes_so_far(front: Front) -> u8
    ensures { result ≡ walks.bytes_so_far front }
{
    match front {
        Front::Type(bytes) => bytes,
        _ => 4,
    }
}

/// What stands in front behind a keyword.
fn front_past_key(front: Front, key: Key) -> Front
    ensures { result ≡ walks.front_past_key front key }
{
    match key {
        Key::Void => Front::Type(0),
        Key::Char | Key::Bool => Front::Type(1),
        Key::Short => Front::Type(2),
        Key::Long => Front::Type(8),
        Key::Int | Key::Signed | Key::Unsigned => Front::Type(bytes_so_far(front)),
        Key::For => Front::For,
        _ => Front::Other,
    }
}

/// What stands in front behind a token.
fn front_past(front: Front, form: &Form) -> Front
    ensures { result ≡ walks.front_past front form.now }
{
    match form {
        Form::Key(key) => front_past_key(front, *key),
        Form::Mark(mark) => {
            if *mark == Mark::Comma {
                Front::Comma
            } else {
                Front::Other
            }
        }
        _ => Front::Other,
    }
}

/// Is it directly behind `for`?
fn is_behind_for(front: Front) -> bool
    ensures { result ≡ walks.is_behind_for front }
{
    match front {
        Front::For => true,
        _ => false,
    }
}

/// What a name is that is declared within this before these tokens, with a type of so many bytes. Want of memory is
/// the only error.
fn shape_in(alloc: Global, opened: Opened, bytes: u8, rest: &[Lexeme]) -> Result<Shape, AllocError>
    ensures { IfOk result (λ s. s ≡ walks.shape_in opened bytes rest.now) }
{
    match opened {
        Opened::For => Ok(Shape::untold(alloc)),
        Opened::Paren => Shape::of(alloc, true, bytes, rest),
        _ => Shape::of(alloc, false, bytes, rest),
    }
}

/// The name of a function of the library, or of its constant. Want of memory is the only error, here and below.
fn getchar_name(alloc: Global) -> Result<Word, AllocError>
    ensures { IfOk result (λ w. w ≡ walks.getchar_name) }
{
    Word::from_slice(alloc, b"getchar")
}

fn putchar_name(alloc: Global) -> Result<Word, AllocError>
    ensures { IfOk result (λ w. w ≡ walks.putchar_name) }
{
    Word::from_slice(alloc, b"putchar")
}

fn eof_name(alloc: Global) -> Result<Word, AllocError>
    ensures { IfOk result (λ w. w ≡ walks.eof_name) }
{
    Word::from_slice(alloc, b"EOF")
}

impl Walk {
    /// Before the first token of a unit. It takes no memory.
    pub fn new(alloc: Global) -> Walk
        ensures { result ≡ walks.start }
    {
        Walk {
            front: Front::Other,
            nest: Nest::new(alloc),
            known: Known::new(alloc),
        }
    }

    /// The bytes of the type that a name which stands here is declared with, if it is.
    fn declares(&self) -> Option<u8>
        ensures { result ≡ walks.declares self.now }
    {
        match self.front {
            Front::Type(bytes) => Some(bytes),
            Front::Comma => self.nest.inner.declares,
            _ => None,
        }
    }

    /// Adds a name that is declared with a type of so many bytes. Want of memory is the only error.
    fn add(
        &mut self,
        alloc: Global,
        bytes: u8,
        name: &Word,
        rest: &[Lexeme],
    ) -> Result<(), AllocError>
        ensures { OnOk result (self.new ≡ walks.with_name bytes name.now rest.now self.old) }
    {
        let shape = shape_in(alloc, self.nest.inner.opened, bytes, rest)?;
        let name = name.copy(alloc)?;
        self.known.add(self.nest.is_outside(), name, shape)?;
        self.nest.declare(Some(bytes));
        Ok(())
    }

    /// Adds a name that stands here, if that declares it. Want of memory is the only error.
    fn add_declared(
        &mut self,
        alloc: Global,
        name: &Word,
        rest: &[Lexeme],
    ) -> Result<(), AllocError>
        ensures { OnOk result (self.new
            ≡ walks.with_declared (walks.declares self.old) name.now rest.now self.old) }
    {
        match self.declares() {
            Some(bytes) => self.add(alloc, bytes, name, rest),
            None => Ok(()),
        }
    }

    /// Goes past a punctuator, but for what stands in front. Want of memory is the only error.
    fn turn(&mut self, alloc: Global, mark: Mark) -> Result<(), AllocError>
        ensures { OnOk result (self.new ≡ walks.past_mark mark self.old) }
    {
        self.nest.pass(is_behind_for(self.front), mark)?;
        self.known.pass(alloc, self.nest.is_outside(), mark)
    }

    /// Adds what an include of `<stdio.h>` declares. Want of memory is the only error.
    fn add_library(&mut self, alloc: Global) -> Result<(), AllocError>
        ensures { OnOk result (self.new ≡ walks.with_library self.old) }
    {
        let int = Shape::scalar(alloc, 4)?;
        self.known.add(true, eof_name(alloc)?, int)?;
        let put = Shape::function(alloc, 4);
        self.known.add(true, putchar_name(alloc)?, put)?;
        let get = Shape::function(alloc, 4);
        self.known.add(true, getchar_name(alloc)?, get)
    }

    /// Goes past a token, but for what stands in front. Want of memory is the only error.
    fn enter(&mut self, alloc: Global, form: &Form, rest: &[Lexeme]) -> Result<(), AllocError>
        ensures { OnOk result (self.new ≡ walks.past_form form.now rest.now self.old) }
    {
        match form {
            Form::Name(name) => self.add_declared(alloc, name, rest),
            Form::Mark(mark) => self.turn(alloc, *mark),
            Form::Include => self.add_library(alloc),
            _ => Ok(()),
        }
    }

    /// Goes past a token, which stands before these. Want of memory is the only error.
    pub fn pass(&mut self, alloc: Global, form: &Form, rest: &[Lexeme]) -> Result<(), AllocError>
        ensures { OnOk result (self.new ≡ walks.past form.now rest.now self.old) }
    {
        self.enter(alloc, form, rest)?;
        self.front = front_past(self.front, form);
        Ok(())
    }
}
