//! Where a token stands: behind `=` or not, and in which brackets.

ghost use Rattle.std.specs.Prelude.{◌≡◌, [], ◌∷◌, OnOk};
ghost use Rattle.c_library.specs.Initialisers as initialisers;

use c_tree::{Form, Lexeme, Mark};
use std::alloc::{AllocError, Global};
use std::marker::Model;

/// The brackets that are open, the innermost first: whether each is a brace of an initialiser.
#[derive(Drop)]
pub struct Brackets {
    items: Vec<bool>,
}

impl Model for Brackets {
    ghost use Rattle.std.specs.Prelude.{List, Bool, reverse};

    ghost Value = { List Bool };

    ghost view = { λ b. reverse b.items.items };
}

impl Brackets {
    /// No bracket. It takes no memory.
    fn new(alloc: Global) -> Brackets
        ensures { result ≡ [] }
    {
        Brackets {
            items: Vec::new(alloc),
        }
    }

    /// Opens a bracket. Want of memory is the only error.
    fn push(&mut self, is_list: bool) -> Result<(), AllocError>
        ensures ok { OnOk result (self.new ≡ is_list ∷ self.old) }
    {
        self.items.push(is_list)?;
        Ok(())
    }

    /// Closes the innermost bracket.
    fn pop(&mut self)
        ensures { self.new ≡ initialisers.around self.old }
    {
        self.items.pop();
    }

    /// Is the innermost bracket a brace of an initialiser?
    fn in_list(&self) -> bool
        ensures { result ≡ initialisers.in_list self.now }
    {
        match self.items.last() {
            Some(is_list) => *is_list,
            None => false,
        }
    }
}

/// Where a token stands: directly behind `=` or not, and in which brackets.
#[derive(Drop)]
pub struct Place {
    pub is_behind_equals: bool,
    pub brackets: Brackets,
}

/// Is it `[`?
fn is_left_bracket(form: &Form) -> bool
    ensures { result ≡ initialisers.is_left_bracket form.now }
{
    match form {
        Form::Mark(Mark::LeftBracket) => true,
        _ => false,
    }
}

/// Do the tokens begin with `[`?
fn begins_index(tokens: &[Lexeme]) -> bool
    ensures { result ≡ initialisers.begins_index tokens.now }
{
    match tokens {
        [] => false,
        [token, ..] => is_left_bracket(&token.form),
    }
}

impl Place {
    /// The place of the first token. It takes no memory.
    pub fn new(alloc: Global) -> Place
        ensures { result ≡ initialisers.beginning }
    {
        Place {
            is_behind_equals: false,
            brackets: Brackets::new(alloc),
        }
    }

    /// Opens and closes brackets as this punctuator does. Want of memory is the only error.
    fn turn(&mut self, mark: Mark) -> Result<(), AllocError>
        ensures brackets { OnOk result (self.new.brackets ≡ initialisers.open_behind mark self.old) }
        ensures rest { OnOk result (self.new.is_behind_equals ≡ self.old.is_behind_equals) }
    {
        match mark {
            Mark::LeftBrace => {
                let is_list = self.is_behind_equals || self.brackets.in_list();
                self.brackets.push(is_list)
            }
            Mark::LeftParen | Mark::LeftBracket => self.brackets.push(false),
            Mark::RightBrace | Mark::RightParen | Mark::RightBracket => {
                self.brackets.pop();
                Ok(())
            }
            _ => Ok(()),
        }
    }

    /// Goes past a token. Want of memory is the only error.
    pub fn pass(&mut self, form: &Form) -> Result<(), AllocError>
        ensures { OnOk result (self.new ≡ initialisers.past form.now self.old) }
    {
        match form {
            Form::Mark(mark) => {
                self.turn(*mark)?;
                self.is_behind_equals = *mark == Mark::Assign;
            }
            _ => self.is_behind_equals = false,
        }
        Ok(())
    }

    /// Does a literal that stands here, before these tokens, initialise an array?
    pub fn initialises(&self, behind: &[Lexeme]) -> bool
        ensures { result ≡ initialisers.initialises self.now behind.now }
    {
        (self.is_behind_equals || self.brackets.in_list()) && !begins_index(behind)
    }
}
