//! Units in which no name of an object is declared twice outside of brackets, nothing is `extern`, no braces stand
//! round the value of a scalar or round a list, no list has a designator, and no block has a prototype.

ghost use Rattle.std.specs.Prelude.{◌≡◌, ◌<◌, ◌≤◌, ◌+◌, length, nat_eq, if◌then◌else◌, option_map, IfOk, OnOk};
ghost use Rattle.c_units.specs.Repeats as repeats;

use crate::braces::begins_list;
use crate::designators::designates;
use crate::objects::{is_extern, is_name};
use c_locals::{depth_past, is_mark, is_word};
use c_tree::{Form, Key, Lexeme, Mark, Word};
use c_words::{Names, is_key};
use std::alloc::{AllocError, Global};

/// The sizes of a declarator so far: none, one, or more.
#[derive(Clone, Copy, Debug, PartialEq, Eq)]
pub enum Sizes {
    Scalar,
    One,
    More,
}

/// What is seen before a token: how many brackets are open, whether a word of a type or a `,` stands in front of it,
/// the names of objects that are declared, the sizes of the declarator, and whether a word of a type stands in front.
#[derive(Drop)]
pub struct Seen {
    pub depth: usize,
    pub is_front: bool,
    pub names: Names,
    pub sizes: Sizes,
    pub is_typed: bool,
}

/// Do the tokens begin with a `(`?
fn begins_group(tokens: &[Lexeme]) -> bool
    ensures { result ≡ repeats.begins_group tokens.now }
{
    match tokens {
        [] => false,
        [token, ..] => is_mark(Mark::LeftParen, &token.form),
    }
}

/// Is the name one of these?
fn is_known(names: &Names, name: Option<&Word>) -> bool
    ensures { result ≡ repeats.is_known names.now (option_map (λ w. w.now) name.entry) }
{
    match name {
        None => false,
        Some(word) => names.has(word),
    }
}

/// Adds the name. Want of memory is the only error, here and below.
fn add_name(alloc: Global, names: &mut Names, name: Option<&Word>) -> Result<(), AllocError>
    ensures { OnOk result (names.new ≡ repeats.with_name names.old (option_map (λ w. w.now) name.entry)) }
{
    match name {
        None => Ok(()),
        Some(word) => names.add(alloc, word),
    }
}

/// With one size more.
fn one_more(sizes: Sizes) -> Sizes
    ensures { result ≡ repeats.one_more sizes }
{
    match sizes {
        Sizes::Scalar => Sizes::One,
        _ => Sizes::More,
    }
}

/// The sizes behind a token outside of brackets.
fn sizes_by(sizes: Sizes, form: &Form) -> Sizes
    ensures { result ≡ repeats.sizes_by sizes form.now }
{
    if is_mark(Mark::LeftBracket, form) {
        one_more(sizes)
    } else if is_mark(Mark::Comma, form) || is_mark(Mark::Semicolon, form) {
        Sizes::Scalar
    } else {
        sizes
    }
}

/// And behind any.
fn sizes_past(depth: usize, sizes: Sizes, form: &Form) -> Sizes
    ensures { result ≡ (if nat_eq depth 0 then repeats.sizes_by sizes form.now else sizes) }
{
    if depth == 0 {
        sizes_by(sizes, form)
    } else {
        sizes
    }
}

/// Do tokens begin with two braces?
fn begins_lists(tokens: &[Lexeme]) -> bool
    ensures { result ≡ repeats.begins_lists tokens.now }
{
    match tokens {
        [] => false,
        [token, more @ ..] => is_mark(Mark::LeftBrace, &token.form) && begins_list(more),
    }
}

/// May braces go of a value that these tokens begin with?
fn may_go(sizes: Sizes, tokens: &[Lexeme]) -> bool
    ensures { result ≡ repeats.may_go sizes tokens.now }
{
    match sizes {
        Sizes::Scalar => begins_list(tokens),
        Sizes::One => begins_lists(tokens),
        Sizes::More => false,
    }
}

impl Seen {
    /// Before the first token. It takes no memory.
    fn beginning(alloc: Global) -> Seen
        ensures { result ≡ repeats.beginning }
    {
        Seen {
            depth: 0,
            is_front: false,
            names: Names::new(alloc),
            sizes: Sizes::Scalar,
            is_typed: false,
        }
    }

    /// May a token that stands before these be the name of an object that is declared?
    fn may_declare(&self, behind: &[Lexeme]) -> bool
        ensures { result ≡ repeats.may_declare self.now behind.now }
    {
        self.is_front && self.depth == 0 && !begins_group(behind)
    }

    /// The name that a token, before these, declares.
    fn declares<'a>(&self, form: &'a Form, behind: &[Lexeme]) -> Option<&'a Word>
        ensures { option_map (λ w. w.now) result ≡ repeats.declares self.now form.now behind.now }
    {
        match form {
            Form::Name(word) => {
                if self.may_declare(behind) {
                    Some(word)
                } else {
                    None
                }
            }
            _ => None,
        }
    }

    /// Is the token, before these, the `=` of such a value?
    fn sets_list(&self, form: &Form, behind: &[Lexeme]) -> bool
        ensures { result ≡ repeats.sets_list form.now behind.now self.now }
    {
        is_mark(Mark::Assign, form) && self.depth == 0 && may_go(self.sizes, behind)
    }

    /// Is the token, before these, the name of a function that is declared within brackets?
    fn is_inner(&self, form: &Form, behind: &[Lexeme]) -> bool
        ensures { result ≡ repeats.is_inner form.now behind.now self.now }
    {
        self.is_typed && self.depth != 0 && is_name(form) && begins_group(behind)
    }

    /// Does a token, before these, declare a name once more or a function in brackets, is it `extern`, does it set such
    /// a value, or does a designator stand behind it?
    fn repeats(&self, form: &Form, behind: &[Lexeme]) -> bool
        ensures { result ≡ repeats.repeats form.now behind.now self.now }
    {
        is_extern(form)
            || self.is_inner(form, behind)
            || self.sets_list(form, behind)
            || designates(form, behind)
            || is_known(&self.names, self.declares(form, behind))
    }

    /// Goes past a token, before these.
    fn pass(&mut self, alloc: Global, form: &Form, behind: &[Lexeme]) -> Result<(), AllocError>
        requires few { self.old.depth < 18446744073709551615 }
        ensures value { OnOk result (self.new ≡ repeats.past form.now behind.now self.old) }
        ensures few { OnOk result (self.new.depth ≤ self.old.depth + 1) }
    {
        let name = self.declares(form, behind);
        add_name(alloc, &mut self.names, name)?;
        self.sizes = sizes_past(self.depth, self.sizes, form);
        self.depth = depth_past(form, self.depth);
        self.is_typed = is_word(form) || is_key(Key::Void, form);
        self.is_front = is_word(form) || is_mark(Mark::Comma, form);
        Ok(())
    }
}

/// Does no token declare a name once more, is none `extern`, does none set such a value, and has no list a designator?
/// Want of memory is the only error.
pub fn has_no_repeats(alloc: Global, tokens: &[Lexeme]) -> Result<bool, AllocError>
    ensures { IfOk result (λ b. b ≡ repeats.has_no_repeats tokens.now) }
{
    let size = tokens.len();
    let mut seen = Seen::beginning(alloc);
    let mut rest = tokens;
    while let [token, more @ ..] = rest {
        if seen.repeats(&token.form, more) {
            return Ok(false);
        }
        seen.pass(alloc, &token.form, more)?;
        rest = more;
    }
    Ok(true)
}
