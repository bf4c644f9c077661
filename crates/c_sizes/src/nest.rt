//! The brackets that a token stands in, and the declaration that goes on in each.

ghost use Rattle.std.specs.Prelude.{◌≡◌, [], ◌∷◌, OnOk};
ghost use Rattle.c_sizes.specs.Nests as nests;

use crate::size::{is_closing, is_opening};
use c_tree::Mark;
use std::alloc::{AllocError, Global};
use std::marker::Model;

/// What a token stands in: no bracket, the parentheses of a `for`, other parentheses, the middle of `? :`, or other
/// brackets.
#[derive(Clone, Copy, Debug, PartialEq, Eq)]
pub enum Opened {
    File,
    For,
    Paren,
    Choice,
    Other,
}

/// What a token stands in, and the bytes of the type whose declaration goes on there, if one does.
#[derive(Clone, Copy, Debug, PartialEq, Eq)]
pub struct Level {
    pub opened: Opened,
    pub declares: Option<u8>,
}

/// The levels around one, the innermost first.
#[derive(Drop)]
pub struct Levels {
    items: Vec<Level>,
}

impl Model for Levels {
    ghost use Rattle.std.specs.Prelude.{List, reverse};
    ghost use Rattle.c_sizes.specs.declared.nest.Level.{Level};

    ghost Value = { List Level };

    ghost view = { λ l. reverse l.items.items };
}

impl Levels {
    /// No level. It takes no memory.
    fn new(alloc: Global) -> Levels
        ensures { result ≡ [] }
    {
        Levels {
            items: Vec::new(alloc),
        }
    }

    /// Puts a level in front. Want of memory is the only error.
    fn push(&mut self, level: Level) -> Result<(), AllocError>
        ensures { OnOk result (self.new ≡ level ∷ self.old) }
    {
        self.items.push(level)?;
        Ok(())
    }

    /// Takes the first level, or gives that outside of all brackets.
    fn pop(&mut self) -> Level
        ensures value { result ≡ nests.first_of self.old }
        ensures left { self.new ≡ nests.behind_first self.old }
    {
        match self.items.pop() {
            Some(level) => level,
            None => Level::new(Opened::File),
        }
    }
}

impl Level {
    /// A level in which no declaration goes on.
    fn new(opened: Opened) -> Level
        ensures { result ≡ nests.fresh opened }
    {
        Level {
            opened,
            declares: None,
        }
    }
}

/// The innermost level, and those around it.
#[derive(Drop)]
pub struct Nest {
    pub inner: Level,
    pub around: Levels,
}

/// What a mark opens, that stands behind `for` or not.
fn opened_by(behind_for: bool, mark: Mark) -> Opened
    ensures { result ≡ nests.opened_by behind_for mark }
{
    match mark {
        Mark::LeftParen => {
            if behind_for {
                Opened::For
            } else {
                Opened::Paren
            }
        }
        Mark::Question => Opened::Choice,
        _ => Opened::Other,
    }
}

/// Is it a `:` that ends no `? :`?
fn is_label(mark: Mark, opened: Opened) -> bool
    ensures { result ≡ nests.is_label mark opened }
{
    match mark {
        Mark::Colon => opened != Opened::Choice,
        _ => false,
    }
}

impl Nest {
    /// Outside of all brackets. It takes no memory.
    pub fn new(alloc: Global) -> Nest
        ensures { result ≡ nests.beginning }
    {
        Nest {
            inner: Level::new(Opened::File),
            around: Levels::new(alloc),
        }
    }

    /// Opens a bracket. Want of memory is the only error.
    fn open(&mut self, opened: Opened) -> Result<(), AllocError>
        ensures { OnOk result (self.new ≡ nests.entered opened self.old) }
    {
        self.around.push(self.inner)?;
        self.inner = Level::new(opened);
        Ok(())
    }

    /// Closes the innermost bracket.
    fn close(&mut self)
        ensures { self.new ≡ nests.close self.old }
    {
        self.inner = self.around.pop();
    }

    /// A declaration goes on, of a type of so many bytes, or none does.
    pub fn declare(&mut self, declares: Option<u8>)
        ensures { self.new ≡ nests.declare declares self.old }
    {
        self.inner = Level {
            opened: self.inner.opened,
            declares,
        };
    }

    /// Goes past a punctuator, which stands behind `for` or not. Want of memory is the only error.
    pub fn pass(&mut self, behind_for: bool, mark: Mark) -> Result<(), AllocError>
        ensures { OnOk result (self.new ≡ nests.past behind_for mark self.old) }
    {
        if is_opening(mark) {
            self.open(opened_by(behind_for, mark))
        } else if is_closing(mark) && !is_label(mark, self.inner.opened) {
            self.close();
            Ok(())
        } else if mark == Mark::Semicolon {
            self.declare(None);
            Ok(())
        } else {
            Ok(())
        }
    }

    /// Does the token stand outside of all brackets?
    pub fn is_outside(&self) -> bool
        ensures { result ≡ nests.is_outside self.now }
    {
        match self.inner.opened {
            Opened::File => true,
            _ => false,
        }
    }
}
