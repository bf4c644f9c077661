//! The words of arithmetic types, and their qualifiers.

ghost use Rattle.std.specs.Prelude.{◌≡◌, ◌++◌, ◌≤◌, length, not, option_map, IfOk, OnOk};
ghost use Rattle.c_library.specs.Calls as calls;
ghost use Rattle.c_names.specs.Pieces as pieces;
ghost use Rattle.c_names.specs.Words as words;

use crate::piece::{Piece, add_all, is_type};
use crate::scope::Scope;
use base::Items;
use c_tree::{Form, Key, Lexeme, Mark};
use std::alloc::AllocError;

/// What a word says of a type.
#[derive(Clone, Copy, Debug, PartialEq, Eq, Drop)]
pub enum Class {
    Bool,
    Char,
    Short,
    Int,
    Long,
    Signed,
    Unsigned,
    Const,
    Volatile,
    Sign,
    Qualifier,
    Other,
}

/// The class of a word.
fn class_of(key: Key) -> Class
    ensures { result ≡ words.class_of key }
{
    match key {
        Key::Bool => Class::Bool,
        Key::Char => Class::Char,
        Key::Short => Class::Short,
        Key::Int => Class::Int,
        Key::Long => Class::Long,
        Key::Signed => Class::Signed,
        Key::Unsigned => Class::Unsigned,
        Key::Const => Class::Const,
        Key::Volatile => Class::Volatile,
        _ => Class::Other,
    }
}

/// Is a class one of words?
fn is_word(class: Class) -> bool
    ensures { result ≡ words.is_word class }
{
    match class {
        Class::Other => false,
        _ => true,
    }
}

/// Is it this punctuator?
pub fn is_mark(mark: Mark, form: &Form) -> bool
    ensures { result ≡ calls.is_mark mark form.now }
{
    match form {
        Form::Mark(other) => *other == mark,
        _ => false,
    }
}

/// Does the punctuator stand first?
pub fn begins(mark: Mark, tokens: &[Lexeme]) -> bool
    ensures { result ≡ words.begins mark tokens.now }
{
    match tokens {
        [] => false,
        [token, ..] => is_mark(mark, &token.form),
    }
}

/// The words of a name that stands for a type.
fn type_words<'a>(found: Option<&'a [Piece]>) -> &'a [Piece]
    ensures { result.now ≡ words.type_words (option_map (λ ps. ps.now) found.entry) }
{
    match found {
        Some(pieces) => { if is_type(pieces) { pieces } else { &[] } }
        None => &[],
    }
}

/// The words of a name, before these tokens.
fn name_words<'a>(scope: &'a Scope, name: &[u8], behind: &[Lexeme]) -> &'a [Piece]
    ensures { result.now ≡ words.name_words scope.now name.now behind.now }
{
    if begins(Mark::Comma, behind) || begins(Mark::Semicolon, behind) {
        &[]
    } else {
        type_words(scope.look_up(name))
    }
}

/// Adds a keyword that is a word, and tells whether it is one. Want of memory is the only error.
fn add_key(all: &mut Items<Piece>, key: Key) -> Result<bool, AllocError>
    ensures some { IfOk result (λ some. some ≡ not (pieces.none (words.key_words key))) }
    ensures added { OnOk result (all.new ≡ all.old ++ words.key_words key) }
{
    if is_word(class_of(key)) {
        all.push(Piece::Word(key))?;
        Ok(true)
    } else {
        Ok(false)
    }
}

/// Adds the words that a token is, before these, and tells whether it is any. Want of memory is the only error.
fn add_words(
    scope: &Scope,
    all: &mut Items<Piece>,
    form: &Form,
    behind: &[Lexeme],
) -> Result<bool, AllocError>
    ensures some { IfOk result (λ some. some ≡ not (pieces.none (words.words_of scope.now form.now behind.now))) }
    ensures added { OnOk result (all.new ≡ all.old ++ words.words_of scope.now form.now behind.now) }
{
    match form {
        Form::Key(key) => add_key(all, *key),
        Form::Name(name) => add_all(all, name_words(scope, name.as_slice(), behind)),
        _ => Ok(false),
    }
}

/// Adds the words that stand first, and gives what follows them. Want of memory is the only error.
pub fn take_words<'a>(
    scope: &Scope,
    all: &mut Items<Piece>,
    tokens: &'a [Lexeme],
) -> Result<&'a [Lexeme], AllocError>
    ensures { IfOk result (λ rest. (all.new, rest.now) ≡ words.words_from scope.now all.old tokens.now) }
{
    let mut rest = tokens;
    while let [token, more @ ..] = rest {
        if !add_words(scope, all, &token.form, more)? {
            return Ok(rest);
        }
        rest = more;
    }
    Ok(rest)
}

/// Is the first class the second, or one of its two?
fn same_class(a: Class, b: Class) -> bool
    ensures { result ≡ words.same_class a b }
{
    match (a, b) {
        (Class::Bool, Class::Bool) => true,
        (Class::Char, Class::Char) => true,
        (Class::Short, Class::Short) => true,
        (Class::Int, Class::Int) => true,
        (Class::Long, Class::Long) => true,
        (Class::Signed, Class::Signed | Class::Sign) => true,
        (Class::Unsigned, Class::Unsigned | Class::Sign) => true,
        (Class::Const, Class::Const | Class::Qualifier) => true,
        (Class::Volatile, Class::Volatile | Class::Qualifier) => true,
        (Class::Other, Class::Other) => true,
        _ => false,
    }
}

/// The class of a piece.
fn piece_class(piece: Piece) -> Class
    ensures { result ≡ words.piece_class piece }
{
    match piece {
        Piece::Word(key) => class_of(key),
        _ => Class::Other,
    }
}

/// 1 for a word of the class.
fn counted(class: Class, piece: Piece) -> usize
    ensures value { result ≡ words.counted class piece }
    ensures few { result ≤ 1 }
{
    if same_class(piece_class(piece), class) {
        1
    } else {
        0
    }
}

/// How many words of the class there are.
fn count(class: Class, all: &[Piece]) -> usize
    ensures value { result ≡ words.count class all.now }
    ensures few { result ≤ length all.now }
{
    let mut number: usize = 0;
    let mut rest = all;
    while let [piece, more @ ..] = rest {
        number += counted(class, *piece);
        rest = more;
    }
    number
}

/// How many words there are beside qualifiers.
fn said(all: &[Piece]) -> usize
    ensures { result ≡ words.said all.now }
{
    all.len() - count(Class::Qualifier, all)
}

/// Are there so many words of the class, and beside them one sign, one `int`, or none?
fn is_integer(number: usize, class: Class, all: &[Piece]) -> bool
    ensures { result ≡ words.is_integer number class all.now }
{
    let signs = count(Class::Sign, all);
    let ints = count(Class::Int, all);
    count(class, all) == number
        && signs <= 1
        && ints <= 1
        && said(all) >= number
        && said(all) - number == signs + ints
}

/// Are they the words of a `long`?
fn is_long(all: &[Piece]) -> bool
    ensures { result ≡ words.is_long all.now }
{
    is_integer(1, Class::Long, all) || is_integer(2, Class::Long, all)
}

/// Are they the words of a type of one byte?
fn is_byte(all: &[Piece]) -> bool
    ensures { result ≡ words.is_byte all.now }
{
    (count(Class::Bool, all) == 1 && said(all) == 1)
        || (is_integer(1, Class::Char, all) && count(Class::Int, all) == 0)
}

/// The bytes of the type that words say, if they say one.
pub fn size_of(all: &[Piece]) -> Option<u64>
    ensures { result ≡ words.size_of all.now }
{
    if is_byte(all) {
        Some(1)
    } else if is_integer(1, Class::Short, all) {
        Some(2)
    } else if is_long(all) {
        Some(8)
    } else if is_integer(0, Class::Other, all) && said(all) != 0 {
        Some(4)
    } else {
        None
    }
}

/// Are there as many words of the class in both?
fn same_count(class: Class, a: &[Piece], b: &[Piece]) -> bool
    ensures { result ≡ words.same_count class a.now b.now }
{
    count(class, a) == count(class, b)
}

/// Do the words of two types say the same type?
fn same_type(a: &[Piece], b: &[Piece]) -> bool
    ensures { result ≡ words.same_type a.now b.now }
{
    same_count(Class::Bool, a, b)
        && same_count(Class::Char, a, b)
        && same_count(Class::Short, a, b)
        && same_count(Class::Long, a, b)
        && same_count(Class::Unsigned, a, b)
        && same_count(Class::Const, a, b)
        && same_count(Class::Volatile, a, b)
        && (count(Class::Char, a) == 0 || same_count(Class::Signed, a, b))
}

/// Does a name stand for this type?
pub fn is_same(all: &[Piece], found: Option<&[Piece]>) -> bool
    ensures { result ≡ words.is_same all.now (option_map (λ ps. ps.now) found.entry) }
{
    match found {
        Some(pieces) => is_type(pieces) && same_type(all, pieces),
        None => false,
    }
}
