//! The items of a unit.

ghost use Rattle.std.specs.Prelude.{◌≡◌, ◌<◌, ◌≤◌, ◌+◌, [], IfOk};
ghost use Rattle.c_locals.specs.Stages.{is_include};
ghost use Rattle.c_units.specs.Cuts as cuts;

use base::Items;
use c_library::token_copied;
use c_locals::{depth_past, is_mark};
use c_tree::{Form, Lexeme, Mark};
use std::alloc::{AllocError, Global};

/// Where a token of an item stands: how many brackets are open, and whether a value was begun.
#[derive(Clone, Copy, Debug, PartialEq, Eq)]
pub struct Place {
    pub depth: usize,
    pub has_value: bool,
}

/// A unit, as far as it is cut: the items that are whole, and the one that is read with the place behind it.
#[derive(Drop)]
pub struct Cut {
    pub items: Items<Items<Lexeme>>,
    pub item: Items<Lexeme>,
    pub place: Place,
}

/// Is it an include?
fn is_include(form: &Form) -> bool
    ensures { result ≡ is_include form.now }
{
    match form {
        Form::Include => true,
        _ => false,
    }
}

/// Before the first token of an item.
pub fn start() -> Place
    ensures { result ≡ cuts.start }
{
    Place {
        depth: 0,
        has_value: false,
    }
}

impl Place {
    /// Behind a token.
    pub fn past(&self, form: &Form) -> Place
        requires few { self.now.depth < 18446744073709551615 }
        ensures value { result ≡ cuts.past form.now self.now }
        ensures few { result.depth ≤ self.now.depth + 1 }
    {
        Place {
            depth: depth_past(form, self.depth),
            has_value: self.has_value || self.depth == 0 && is_mark(Mark::Assign, form),
        }
    }

    /// Does an item end with the token behind which this is known?
    pub fn ends(&self, form: &Form) -> bool
        ensures { result ≡ cuts.ends form.now self.now }
    {
        self.depth == 0
            && (is_mark(Mark::Semicolon, form)
                || is_include(form)
                || is_mark(Mark::RightBrace, form) && !self.has_value)
    }
}

impl Cut {
    /// Before the first token of a unit. It takes no memory.
    fn beginning(alloc: Global) -> Cut
        ensures { result ≡ cuts.beginning }
    {
        Cut {
            items: Items::new(alloc),
            item: Items::new(alloc),
            place: start(),
        }
    }

    /// Adds a token to the item that is read. Want of memory is the only error, here and below.
    fn add(self, alloc: Global, token: &Lexeme) -> Result<Cut, AllocError>
        requires few { self.place.depth < 18446744073709551615 }
        ensures value { IfOk result (λ c. c ≡ cuts.with_token token.now self) }
        ensures few { IfOk result (λ c. c.place.depth ≤ self.place.depth + 1) }
    {
        let Cut {
            items,
            mut item,
            place,
        } = self;
        item.push(token_copied(alloc, token)?)?;
        let place = place.past(&token.form);
        Ok(Cut { items, item, place })
    }

    /// Ends the item.
    fn end(self, alloc: Global) -> Result<Cut, AllocError>
        ensures { IfOk result (λ c. c ≡ cuts.ended self) }
    {
        let Cut {
            mut items,
            item,
            ..
        } = self;
        items.push(item)?;
        Ok(Cut {
            items,
            item: Items::new(alloc),
            place: start(),
        })
    }

    /// Ends the item, if it ends with the token behind which this is known.
    fn end_if(self, alloc: Global, form: &Form) -> Result<Cut, AllocError>
        ensures value { IfOk result (λ c. c ≡ cuts.ended_if form.now self) }
        ensures few { IfOk result (λ c. c.place.depth ≤ self.place.depth) }
    {
        if self.place.ends(form) {
            self.end(alloc)
        } else {
            Ok(self)
        }
    }

    /// Goes past a token.
    fn pass(self, alloc: Global, token: &Lexeme) -> Result<Cut, AllocError>
        requires few { self.place.depth < 18446744073709551615 }
        ensures value { IfOk result (λ c. c ≡ cuts.step token.now self) }
        ensures few { IfOk result (λ c. c.place.depth ≤ self.place.depth + 1) }
    {
        let cut = self.add(alloc, token)?;
        cut.end_if(alloc, &token.form)
    }

    /// All items.
    fn finish(self) -> Result<Items<Items<Lexeme>>, AllocError>
        ensures { IfOk result (λ out. out ≡ cuts.cut self []) }
    {
        let Cut {
            mut items,
            item,
            ..
        } = self;
        items.push(item)?;
        Ok(items)
    }
}

/// The items of a unit. Want of memory is the only error.
pub fn items(alloc: Global, tokens: &[Lexeme]) -> Result<Items<Items<Lexeme>>, AllocError>
    ensures { IfOk result (λ out. out ≡ cuts.items tokens.now) }
{
    let size = tokens.len();
    let mut cut = Cut::beginning(alloc);
    let mut rest = tokens;
    while let [token, more @ ..] = rest {
        cut = cut.pass(alloc, token)?;
        rest = more;
    }
    cut.finish()
}
