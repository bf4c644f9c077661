//! Where a run of keywords stands: in which brackets.

ghost use Rattle.std.specs.Prelude.{◌≡◌, [], ◌∷◌, OnOk};
ghost use Rattle.c_words.specs.Places as places;

use c_tree::{Form, Mark};
use std::alloc::{AllocError, Global};
use std::marker::Model;

/// What a bracket makes of the tokens in it: the parentheses of parameters, which stand outside of all brackets, a
/// block or a list in braces, the parentheses behind `for` and the like, or others.
#[derive(Clone, Copy, Debug, PartialEq, Eq)]
pub enum Place {
    Unit,
    Parameters,
    Block,
    Header,
    Other,
}

/// The places that brackets have made which are open, the innermost first.
#[derive(Drop)]
pub struct Places {
    items: Vec<Place>,
}

impl Model for Places {
    ghost use Rattle.std.specs.Prelude.{List, reverse};
    ghost use Rattle.c_words.specs.declared.place.Place.{Place};

    ghost Value = { List Place };

    ghost view = { λ p. reverse p.items.items };
}

/// What a `(` opens in a place.
fn group_in(place: Place) -> Place
    ensures { result ≡ places.group_in place }
{
    match place {
        Place::Unit => Place::Parameters,
        Place::Block => Place::Header,
        _ => Place::Other,
    }
}

impl Places {
    /// Outside of all brackets. It takes no memory.
    pub fn new(alloc: Global) -> Places
        ensures { result ≡ [] }
    {
        Places {
            items: Vec::new(alloc),
        }
    }

    /// The innermost place.
    pub fn here(&self) -> Place
        ensures { result ≡ places.here self.now }
    {
        match self.items.last() {
            Some(place) => *place,
            None => Place::Unit,
        }
    }

    /// Opens a bracket. Want of memory is the only error.
    fn open(&mut self, place: Place) -> Result<(), AllocError>
        ensures ok { OnOk result (self.new ≡ place ∷ self.old) }
    {
        self.items.push(place)?;
        Ok(())
    }

    /// Closes the innermost bracket.
    fn close(&mut self)
        ensures { self.new ≡ places.around self.old }
    {
        self.items.pop();
    }

    /// Goes past a punctuator. Want of memory is the only error.
    fn mark(&mut self, mark: Mark) -> Result<(), AllocError>
        ensures { OnOk result (self.new ≡ places.marked mark self.old) }
    {
        match mark {
            Mark::LeftBrace => self.open(Place::Block),
            Mark::LeftParen => {
                let place = group_in(self.here());
                self.open(place)
            }
            Mark::LeftBracket => self.open(Place::Other),
            Mark::RightBrace | Mark::RightParen | Mark::RightBracket => {
                self.close();
                Ok(())
            }
            _ => Ok(()),
        }
    }

    /// Goes past a token. Want of memory is the only error.
    pub fn pass(&mut self, form: &Form) -> Result<(), AllocError>
        ensures { OnOk result (self.new ≡ places.past form.now self.old) }
    {
        match form {
            Form::Mark(mark) => self.mark(*mark),
            _ => Ok(()),
        }
    }
}
