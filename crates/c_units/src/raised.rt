//! Prototypes and `extern` of objects in blocks, in front of the items of their unit.

ghost use Rattle.std.specs.Prelude.{◌≡◌, ◌<◌, ◌≤◌, ◌+◌, [], ◌∷◌, option_map, length, IfOk, OnOk};
ghost use Rattle.c_units.specs.Raised as raised;

use crate::cuts::{Place, start};
use crate::externs::external;
use crate::objects::{behind_words, is_extern, is_name, tokens_copied, words};
use base::Items;
use c_library::token_copied;
use c_locals::{is_mark, parens_past, split};
use c_tree::{Form, Key, Lexeme, Mark};
use c_words::is_key;
use std::alloc::{AllocError, Global};

/// A unit, as far as it is read: the items that are whole, the prototypes in front of the item that is read, and this;
/// where its next token stands, how many brackets but braces are open, whether a value is read, whether a declaration
/// may begin, and how many tokens follow of a prototype that stands in front.
#[derive(Drop)]
pub struct Raise {
    pub out: Items<Lexeme>,
    pub front: Items<Lexeme>,
    pub item: Items<Lexeme>,
    pub place: Place,
    pub parens: usize,
    pub is_value: bool,
    pub is_start: bool,
    pub skip: usize,
}

// A PROTOTYPE

/// With the parameters, if a `;` follows the bracket behind them. Want of memory is the only error, here and below.
fn closed_by(
    alloc: Global,
    head: Items<Lexeme>,
    at: u32,
    parts: Option<(&[Lexeme], &[Lexeme])>,
) -> Result<Option<Items<Lexeme>>, AllocError>
    ensures { IfOk result (λ o. o
        ≡ raised.closed_by head at (option_map (λ p. (p.0.now, p.1.now)) parts.entry)) }
{
    match parts {
        Some((params, [token, ..])) => {
            if is_mark(Mark::Semicolon, &token.form) {
                let mut out = head;
                let mut behind = tokens_copied(alloc, params)?;
                behind.push(Lexeme {
                    offset: at,
                    form: Form::Mark(Mark::RightParen),
                })?;
                out.append(behind)?;
                Ok(Some(out))
            } else {
                Ok(None)
            }
        }
        _ => Ok(None),
    }
}

/// Of a function with the words of its type.
fn named_by(
    alloc: Global,
    words: &[Lexeme],
    behind: &[Lexeme],
) -> Result<Option<Items<Lexeme>>, AllocError>
    ensures { IfOk result (λ o. o ≡ raised.named_by words.now behind.now) }
{
    match behind {
        [name, open, more @ ..] => {
            if is_name(&name.form) && is_mark(Mark::LeftParen, &open.form) {
                let mut head = tokens_copied(alloc, words)?;
                let mut begins = Items::new(alloc);
                begins.push(token_copied(alloc, name)?)?;
                begins.push(token_copied(alloc, open)?)?;
                head.append(begins)?;
                closed_by(alloc, head, name.offset, split(Mark::RightParen, more))
            } else {
                Ok(None)
            }
        }
        _ => Ok(None),
    }
}

/// Of one with the words of a type of values, if there are any.
fn valued_by(
    alloc: Global,
    words: &[Lexeme],
    behind: &[Lexeme],
) -> Result<Option<Items<Lexeme>>, AllocError>
    ensures { IfOk result (λ o. o ≡ raised.valued_by words.now behind.now) }
{
    match words {
        [] => Ok(None),
        _ => named_by(alloc, words, behind),
    }
}

/// The prototype of a type of values that tokens begin with.
fn valued(alloc: Global, tokens: &[Lexeme]) -> Result<Option<Items<Lexeme>>, AllocError>
    ensures { IfOk result (λ o. o ≡ raised.valued tokens.now) }
{
    let words = words(alloc, false, tokens)?;
    valued_by(alloc, words.as_slice(), behind_words(false, tokens))
}

/// One of no value.
fn void(
    alloc: Global,
    token: &Lexeme,
    behind: &[Lexeme],
) -> Result<Option<Items<Lexeme>>, AllocError>
    ensures { IfOk result (λ o. o ≡ raised.named_by (token.now ∷ []) behind.now) }
{
    let mut words = Items::new(alloc);
    words.push(token_copied(alloc, token)?)?;
    named_by(alloc, words.as_slice(), behind)
}

/// The prototype that tokens begin with, without its `;`.
fn prototype(alloc: Global, tokens: &[Lexeme]) -> Result<Option<Items<Lexeme>>, AllocError>
    ensures { IfOk result (λ o. o ≡ raised.prototype tokens.now) }
{
    match tokens {
        [] => Ok(None),
        [token, more @ ..] => {
            if is_key(Key::Void, &token.form) {
                void(alloc, token, more)
            } else {
                valued(alloc, tokens)
            }
        }
    }
}

// THE UNIT

/// Is it a brace?
fn is_brace(form: &Form) -> bool
    ensures { result ≡ raised.is_brace form.now }
{
    is_mark(Mark::LeftBrace, form) || is_mark(Mark::RightBrace, form)
}

impl Raise {
    /// Before the first token of a unit. It takes no memory.
    fn beginning(alloc: Global) -> Raise
        ensures { result ≡ raised.beginning }
    {
        Raise {
            out: Items::new(alloc),
            front: Items::new(alloc),
            item: Items::new(alloc),
            place: start(),
            parens: 0,
            is_value: false,
            is_start: false,
            skip: 0,
        }
    }

    /// Does a statement or a declaration of a block begin?
    fn begins(&self) -> bool
        ensures { result ≡ raised.begins self.now }
    {
        self.is_start && self.parens == 0 && self.place.depth != 0
    }

    /// Adds a token to the item.
    fn to_item(&mut self, alloc: Global, token: &Lexeme) -> Result<(), AllocError>
        ensures value { OnOk result (self.new ≡ raised.to_item token.now self.old) }
        ensures place { OnOk result (self.new.place ≡ self.old.place) }
        ensures parens { OnOk result (self.new.parens ≡ self.old.parens) }
    {
        self.item.push(token_copied(alloc, token)?)
    }

    /// Puts a prototype in front of the item.
    fn raise(&mut self, at: u32, skip: usize, tokens: Items<Lexeme>) -> Result<(), AllocError>
        ensures value { OnOk result (self.new ≡ raised.raised_by at skip tokens self.old) }
        ensures place { OnOk result (self.new.place ≡ self.old.place) }
        ensures parens { OnOk result (self.new.parens ≡ self.old.parens) }
    {
        let mut tokens = tokens;
        tokens.push(Lexeme {
            offset: at,
            form: Form::Mark(Mark::Semicolon),
        })?;
        self.front.append(tokens)?;
        self.skip = skip;
        Ok(())
    }

    /// Puts the prototype that a token begins, if there is one.
    fn find(
        &mut self,
        alloc: Global,
        token: &Lexeme,
        external: bool,
        found: Option<Items<Lexeme>>,
    ) -> Result<(), AllocError>
        ensures value { OnOk result (self.new ≡ raised.found_by token.now external found self.old) }
        ensures place { OnOk result (self.new.place ≡ self.old.place) }
        ensures parens { OnOk result (self.new.parens ≡ self.old.parens) }
    {
        match found {
            None => self.to_item(alloc, token),
            Some(tokens) => {
                let count = tokens.len();
                if external {
                    self.raise(token.offset, count, tokens)
                } else {
                    self.raise(token.offset, count.saturating_sub(1), tokens)
                }
            }
        }
    }

    /// Puts what an `extern` begins: this prototype, or objects.
    fn find_extern(
        &mut self,
        alloc: Global,
        token: &Lexeme,
        behind: &[Lexeme],
        found: Option<Items<Lexeme>>,
    ) -> Result<(), AllocError>
        ensures value { OnOk result (self.new ≡ raised.extern_by token.now behind.now found self.old) }
        ensures place { OnOk result (self.new.place ≡ self.old.place) }
        ensures parens { OnOk result (self.new.parens ≡ self.old.parens) }
    {
        match found {
            Some(tokens) => self.find(alloc, token, true, Some(tokens)),
            None => {
                let found = external(alloc, token, self.item.as_slice(), behind)?;
                self.find(alloc, token, false, found)
            }
        }
    }

    /// Goes past a token where one may begin, before these.
    fn begin(
        &mut self,
        alloc: Global,
        token: &Lexeme,
        behind: &[Lexeme],
        tokens: &[Lexeme],
    ) -> Result<(), AllocError>
        requires all { tokens.now ≡ token.now ∷ behind.now }
        ensures value { OnOk result (self.new ≡ raised.started token.now behind.now self.old) }
        ensures place { OnOk result (self.new.place ≡ self.old.place) }
        ensures parens { OnOk result (self.new.parens ≡ self.old.parens) }
    {
        if is_extern(&token.form) {
            let found = prototype(alloc, behind)?;
            self.find_extern(alloc, token, behind, found)
        } else {
            let found = prototype(alloc, tokens)?;
            self.find(alloc, token, false, found)
        }
    }

    /// Goes past a token, before these, and counts no brackets.
    fn take(
        &mut self,
        alloc: Global,
        token: &Lexeme,
        behind: &[Lexeme],
        tokens: &[Lexeme],
    ) -> Result<(), AllocError>
        requires all { tokens.now ≡ token.now ∷ behind.now }
        ensures value { OnOk result (self.new ≡ raised.taken self.old.skip token.now behind.now self.old) }
        ensures place { OnOk result (self.new.place ≡ self.old.place) }
        ensures parens { OnOk result (self.new.parens ≡ self.old.parens) }
    {
        if self.skip != 0 {
            self.skip -= 1;
            Ok(())
        } else if self.begins() {
            self.begin(alloc, token, behind, tokens)
        } else {
            self.to_item(alloc, token)
        }
    }

    /// Is a value read behind the token?
    fn in_value(&self, form: &Form) -> bool
        ensures { result ≡ raised.in_value form.now self.now }
    {
        !is_mark(Mark::Semicolon, form)
            && (self.is_value || is_mark(Mark::Assign, form) && self.parens == 0)
    }

    /// May a declaration stand behind the token?
    fn is_break(&self, form: &Form) -> bool
        ensures { result ≡ raised.is_break form.now self.now }
    {
        is_mark(Mark::Semicolon, form) || is_brace(form) && !self.is_value
    }

    /// Counts brackets.
    fn count(&mut self, form: &Form)
        requires depth { self.old.place.depth < 18446744073709551615 }
        requires parens { self.old.parens < 18446744073709551615 }
        ensures value { self.new ≡ raised.counted form.now self.old }
        ensures depth { self.new.place.depth ≤ self.old.place.depth + 1 }
        ensures parens { self.new.parens ≤ self.old.parens + 1 }
    {
        self.is_start = self.is_break(form);
        self.is_value = self.in_value(form);
        self.place = self.place.past(form);
        self.parens = parens_past(self.parens, form);
    }

    /// Ends an item, with the prototypes in front of it.
    fn flush(self, alloc: Global) -> Result<Raise, AllocError>
        ensures value { IfOk result (λ s. s ≡ raised.flushed self) }
        ensures depth { IfOk result (λ s. s.place.depth ≤ self.place.depth) }
        ensures parens { IfOk result (λ s. s.parens ≡ self.parens) }
    {
        let Raise {
            mut out,
            front,
            item,
            parens,
            is_value,
            is_start,
            skip,
            ..
        } = self;
        out.append(front)?;
        out.append(item)?;
        Ok(Raise {
            out,
            front: Items::new(alloc),
            item: Items::new(alloc),
            place: start(),
            parens,
            is_value,
            is_start,
            skip,
        })
    }

    /// Goes past a token, before these.
    fn pass(
        self,
        alloc: Global,
        token: &Lexeme,
        behind: &[Lexeme],
        tokens: &[Lexeme],
    ) -> Result<Raise, AllocError>
        requires all { tokens.now ≡ token.now ∷ behind.now }
        requires depth { self.place.depth < 18446744073709551615 }
        requires parens { self.parens < 18446744073709551615 }
        ensures value { IfOk result (λ s. s ≡ raised.step token.now behind.now self) }
        ensures depth { IfOk result (λ s. s.place.depth ≤ self.place.depth + 1) }
        ensures parens { IfOk result (λ s. s.parens ≤ self.parens + 1) }
    {
        let mut state = self;
        state.take(alloc, token, behind, tokens)?;
        state.count(&token.form);
        if state.place.ends(&token.form) {
            state.flush(alloc)
        } else {
            Ok(state)
        }
    }

    /// All tokens.
    fn finish(self) -> Result<Items<Lexeme>, AllocError>
        ensures { IfOk result (λ out. out ≡ raised.run self []) }
    {
        let Raise {
            mut out,
            front,
            item,
            ..
        } = self;
        out.append(front)?;
        out.append(item)?;
        Ok(out)
    }
}

/// A unit no block of which has a prototype or an `extern`. Want of memory is the only error.
pub fn raised(alloc: Global, tokens: &[Lexeme]) -> Result<Items<Lexeme>, AllocError>
    ensures { IfOk result (λ out. out ≡ raised.raised tokens.now) }
{
    let size = tokens.len();
    let mut state = Raise::beginning(alloc);
    let mut rest = tokens;
    while let [token, more @ ..] = rest {
        state = state.pass(alloc, token, more, rest)?;
        rest = more;
    }
    state.finish()
}
