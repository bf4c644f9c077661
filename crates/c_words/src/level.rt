//! What is known directly within the brackets that are open, and of what stands before a token.

ghost use Rattle.std.specs.Prelude.{◌≡◌, [], ◌∷◌, OnOk};
ghost use Rattle.c_words.specs.Levels as levels;

use c_tree::Key;
use std::alloc::{AllocError, Global};
use std::marker::Model;

/// What stands directly before a token: a keyword of declarations; the `*` of a declarator, or a qualifier behind it;
/// the `,` between two declarators; `++` or `--`, or a `(` behind that; an operand that is const; a keyword whose
/// parentheses are no group; or something else.
#[derive(Clone, Copy, Debug, PartialEq, Eq)]
pub enum Before {
    Other,
    Word,
    Star,
    Comma,
    Bump,
    Fixed,
    Test,
}

/// What is declared directly within brackets: nothing, objects, or objects that are const.
#[derive(Clone, Copy, Debug, PartialEq, Eq)]
pub enum Declares {
    Nothing,
    Any,
    Fixed,
}

/// What stands before the token behind a bracket that closes: nothing of note, an operand that is const, or what
/// stands before the bracket; or it is a choice, from `?` to `:`.
#[derive(Clone, Copy, Debug, PartialEq, Eq)]
pub enum Ends {
    Nothing,
    Fixed,
    Inner,
    Choice,
}

/// What is known directly within brackets.
#[derive(Clone, Copy, Debug, PartialEq, Eq)]
pub struct Level {
    pub declares: Declares,
    pub ends: Ends,
}

/// The brackets around the innermost one, from the inside out.
#[derive(Drop)]
pub struct Levels {
    items: Vec<Level>,
}

impl Model for Levels {
    ghost use Rattle.std.specs.Prelude.{List, reverse};
    ghost use Rattle.c_words.specs.declared.level.Level.{Level};

    ghost Value = { List Level };

    ghost view = { λ l. reverse l.items.items };
}

impl Levels {
    /// No bracket. It takes no memory.
    pub fn new(alloc: Global) -> Levels
        ensures { result ≡ [] }
    {
        Levels {
            items: Vec::new(alloc),
        }
    }

    /// One bracket more. Want of memory is the only error.
    pub fn open(&mut self, level: Level) -> Result<(), AllocError>
        ensures { OnOk result (self.new ≡ level ∷ self.old) }
    {
        self.items.push(level)?;
        Ok(())
    }

    /// The innermost one.
    pub fn innermost(&self) -> Level
        ensures { result ≡ levels.innermost self.now }
    {
        match self.items.last() {
            Some(level) => *level,
            None => Level {
                declares: Declares::Nothing,
                ends: Ends::Nothing,
            },
        }
    }

    /// Without the innermost one.
    pub fn close(&mut self)
        ensures { self.new ≡ levels.outer self.old }
    {
        self.items.pop();
    }

    /// Is there none?
    pub fn is_outside(&self) -> bool
        ensures { result ≡ levels.is_outside self.now }
    {
        match self.items.last() {
            Some(_) => false,
            None => true,
        }
    }
}

/// Is what stands before an object that is const, an element of one, or a group of that?
pub fn is_fixed_operand(before: Before) -> bool
    ensures { result ≡ levels.is_fixed_operand before }
{
    match before {
        Before::Fixed => true,
        _ => false,
    }
}

/// An operand, of such an object or not.
pub fn operand(is_fixed: bool) -> Before
    ensures { result ≡ levels.operand is_fixed }
{
    if is_fixed {
        Before::Fixed
    } else {
        Before::Other
    }
}

pub fn is_bump(before: Before) -> bool
    ensures { result ≡ levels.is_bump before }
{
    match before {
        Before::Bump => true,
        _ => false,
    }
}

pub fn awaits_declarator(before: Before) -> bool
    ensures { result ≡ levels.awaits_declarator before }
{
    match before {
        Before::Word | Before::Star | Before::Comma => true,
        _ => false,
    }
}

pub fn behind_word(before: Before) -> Before
    ensures { result ≡ levels.behind_word before }
{
    match before {
        Before::Star => Before::Star,
        _ => Before::Word,
    }
}

/// What is declared behind a keyword of declarations, which is `const` or not.
pub fn with_word(before: Before, is_const: bool, declares: Declares) -> Declares
    ensures { result ≡ levels.with_word before is_const declares }
{
    match before {
        Before::Star => declares,
        Before::Word => { if is_const { Declares::Fixed } else { declares } }
        _ => {
            if is_const {
                Declares::Fixed
            } else {
                Declares::Any
            }
        }
    }
}

/// What stands before the token behind another keyword.
pub fn behind_key(key: Key, before: Before) -> Before
    ensures { result ≡ levels.behind_key key before }
{
    match key {
        Key::Restrict => match before {
            Before::Star => Before::Star,
            _ => Before::Other,
        },
        Key::If | Key::While | Key::For | Key::Switch => Before::Test,
        _ => Before::Other,
    }
}

pub fn behind_star(before: Before) -> Before
    ensures { result ≡ levels.behind_star before }
{
    match before {
        Before::Word | Before::Star => Before::Star,
        _ => Before::Other,
    }
}

pub fn behind_comma(declares: Declares) -> Before
    ensures { result ≡ levels.behind_comma declares }
{
    match declares {
        Declares::Nothing => Before::Other,
        _ => Before::Comma,
    }
}

pub fn is_fixed_declaration(declares: Declares) -> bool
    ensures { result ≡ levels.is_fixed_declaration declares }
{
    match declares {
        Declares::Fixed => true,
        _ => false,
    }
}

/// What the closing of a `(` makes of what stands in it.
pub fn group_ends(before: Before) -> Ends
    ensures { result ≡ levels.group_ends before }
{
    match before {
        Before::Test => Ends::Nothing,
        _ => Ends::Inner,
    }
}

/// And that of a `[` of the operand before it.
pub fn index_ends(before: Before) -> Ends
    ensures { result ≡ levels.index_ends before }
{
    match before {
        Before::Fixed => Ends::Fixed,
        _ => Ends::Nothing,
    }
}

pub fn behind_paren(before: Before) -> Before
    ensures { result ≡ levels.behind_paren before }
{
    match before {
        Before::Bump => Before::Bump,
        _ => Before::Other,
    }
}

pub fn behind_closing(ends: Ends, before: Before) -> Before
    ensures { result ≡ levels.behind_closing ends before }
{
    match ends {
        Ends::Fixed => Before::Fixed,
        Ends::Inner => operand(is_fixed_operand(before)),
        _ => Before::Other,
    }
}

pub fn is_choice(ends: Ends) -> bool
    ensures { result ≡ levels.is_choice ends }
{
    match ends {
        Ends::Choice => true,
        _ => false,
    }
}
