//! Lists of tokens, each token at an offset of its own, the first at 1, with the answer that C17 and docs/LANGUAGE.md
//! give them.

use crate::parse_rows::{ARRAYS, SECTIONS};
use c_parse::{ParseFault, parse};
use c_tree::{Form, Key, Kind, Lexeme, Mark, Word};
use std::alloc::{AllocError, Global};
use std::process::Abort;
use std::test::Fail;

/// A token of a row: the name `a`, the constant 1, or another one.
#[derive(Clone, Copy, Debug)]
pub enum Token {
    Include,
    Key(Key),
    Mark(Mark),
    A,
    One,
}

pub use Token::{A, Include, One};

pub const INT: Token = Token::Key(Key::Int);

pub const CHAR: Token = Token::Key(Key::Char);

pub const SHORT: Token = Token::Key(Key::Short);

pub const UNSIGNED: Token = Token::Key(Key::Unsigned);

pub const VOID: Token = Token::Key(Key::Void);

pub const IF: Token = Token::Key(Key::If);

pub const ELSE: Token = Token::Key(Key::Else);

pub const WHILE: Token = Token::Key(Key::While);

pub const DO: Token = Token::Key(Key::Do);

pub const FOR: Token = Token::Key(Key::For);

pub const SWITCH: Token = Token::Key(Key::Switch);

pub const CASE: Token = Token::Key(Key::Case);

pub const DEFAULT: Token = Token::Key(Key::Default);

pub const RETURN: Token = Token::Key(Key::Return);

pub const OPEN: Token = Token::Mark(Mark::LeftParen);

pub const CLOSE: Token = Token::Mark(Mark::RightParen);

pub const BEGIN: Token = Token::Mark(Mark::LeftBrace);

pub const END: Token = Token::Mark(Mark::RightBrace);

pub const LEFT: Token = Token::Mark(Mark::LeftBracket);

pub const RIGHT: Token = Token::Mark(Mark::RightBracket);

pub const SEMICOLON: Token = Token::Mark(Mark::Semicolon);

pub const COMMA: Token = Token::Mark(Mark::Comma);

pub const ASSIGN: Token = Token::Mark(Mark::Assign);

pub const PLUS: Token = Token::Mark(Mark::Plus);

pub const MINUS: Token = Token::Mark(Mark::Minus);

pub const QUESTION: Token = Token::Mark(Mark::Question);

pub const COLON: Token = Token::Mark(Mark::Colon);

/// How many items a unit has, or its fault's offset.
#[derive(Clone, Copy, Debug, PartialEq, Eq)]
pub enum Answer {
    Items(usize),
    Syntax(u32),
    TooDeep(u32),
    Memory,
}

pub fn answer_to(alloc: Global, tokens: &[Lexeme]) -> Answer {
    match parse(alloc, tokens) {
        Ok(program) => Answer::Items(program.items.len()),
        Err(ParseFault::Syntax(offset)) => Answer::Syntax(offset),
        Err(ParseFault::TooDeep(offset)) => Answer::TooDeep(offset),
        Err(ParseFault::Memory) => Answer::Memory,
    }
}

fn form_of(alloc: Global, token: Token) -> Result<Form, AllocError> {
    Ok(match token {
        Token::Include => Form::Include,
        Token::Key(key) => Form::Key(key),
        Token::Mark(mark) => Form::Mark(mark),
        Token::A => Form::Name(Word::from_slice(alloc, b"a")?),
        Token::One => Form::Number {
            value: 1,
            kind: Kind::Int,
        },
    })
}

pub fn add(alloc: Global, list: &mut Vec<Lexeme>, tokens: &[Token]) -> Result<(), Fail> {
    for token in tokens {
        let form = form_of(alloc, *token)?;
        let offset = list.len().min(9_999) as u32 + 1;
        list.push(Lexeme { offset, form })?;
    }
    Ok(())
}

pub type Row = (&'static [Token], Answer);

const ROWS: &[Row] = &[
    (&[], Answer::Syntax(0)),
    (&[Include], Answer::Items(1)),
    (&[SEMICOLON], Answer::Syntax(1)),
    (&[INT, A, SEMICOLON], Answer::Items(1)),
    (&[INT, A, COMMA, A, SEMICOLON, Include], Answer::Items(3)),
    (&[VOID, A, SEMICOLON], Answer::Syntax(3)),
    (&[INT, A, LEFT, RIGHT, SEMICOLON], Answer::Syntax(5)),
    (&[INT, A, LEFT, One, RIGHT, SEMICOLON], Answer::Items(1)),
    (
        &[
            INT, A, LEFT, RIGHT, ASSIGN, BEGIN, One, COMMA, END, SEMICOLON,
        ],
        Answer::Items(1),
    ),
    (
        &[INT, A, LEFT, RIGHT, ASSIGN, BEGIN, END, SEMICOLON],
        Answer::Syntax(7),
    ),
    (
        &[INT, A, LEFT, RIGHT, ASSIGN, BEGIN, One, COMMA, COMMA],
        Answer::Syntax(9),
    ),
    (&[VOID, A, OPEN, VOID, CLOSE, SEMICOLON], Answer::Items(1)),
    (
        &[
            INT, A, OPEN, INT, COMMA, INT, A, LEFT, RIGHT, CLOSE, SEMICOLON,
        ],
        Answer::Items(1),
    ),
    (
        &[INT, A, OPEN, INT, COMMA, CLOSE, SEMICOLON],
        Answer::Syntax(6),
    ),
    (
        &[INT, A, OPEN, CLOSE, BEGIN, RETURN, One, END],
        Answer::Syntax(8),
    ),
    (
        &[
            INT, A, OPEN, CLOSE, BEGIN, RETURN, OPEN, INT, CLOSE, One, SEMICOLON, END,
        ],
        Answer::Items(1),
    ),
    (
        &[
            INT, A, OPEN, CLOSE, BEGIN, RETURN, OPEN, INT, CLOSE, SEMICOLON, END,
        ],
        Answer::Syntax(10),
    ),
    (
        &[INT, A, OPEN, CLOSE, BEGIN, A, OPEN, CLOSE, SEMICOLON, END],
        Answer::Items(1),
    ),
    (
        &[
            INT, A, OPEN, CLOSE, BEGIN, A, ASSIGN, A, ASSIGN, One, SEMICOLON, END,
        ],
        Answer::Items(1),
    ),
    (
        &[
            INT, A, OPEN, CLOSE, BEGIN, A, PLUS, A, ASSIGN, One, SEMICOLON, END,
        ],
        Answer::Syntax(9),
    ),
    (
        &[INT, A, OPEN, CLOSE, BEGIN, ELSE, SEMICOLON, END],
        Answer::Syntax(6),
    ),
    (
        &[
            INT, A, OPEN, CLOSE, BEGIN, IF, OPEN, One, CLOSE, INT, A, SEMICOLON, END,
        ],
        Answer::Syntax(10),
    ),
    (
        &[
            INT, A, OPEN, CLOSE, BEGIN, FOR, OPEN, INT, A, SEMICOLON, SEMICOLON, CLOSE, SEMICOLON,
            END,
        ],
        Answer::Items(1),
    ),
    (
        &[
            INT, A, OPEN, CLOSE, BEGIN, FOR, OPEN, SEMICOLON, CLOSE, SEMICOLON, END,
        ],
        Answer::Syntax(9),
    ),
    (
        &[
            INT, A, OPEN, CLOSE, BEGIN, DO, SEMICOLON, WHILE, OPEN, One, CLOSE, END,
        ],
        Answer::Syntax(12),
    ),
    (&[INT, A, OPEN, CLOSE, BEGIN, END, END], Answer::Syntax(7)),
];

fn list_of(alloc: Global, tokens: &[Token]) -> Result<Vec<Lexeme>, Fail> {
    let mut list = Vec::new(alloc);
    add(alloc, &mut list, tokens)?;
    Ok(list)
}

fn assert_row(rt: &impl Abort, alloc: Global, tokens: &[Token], want: Answer) -> Result<(), Fail> {
    let list = list_of(alloc, tokens)?;
    assert_eq!(rt; answer_to(alloc, &list), want, "{tokens:?}");
    Ok(())
}

fn assert_rows(rt: &impl Abort, alloc: Global, rows: &[Row]) -> Result<(), Fail> {
    for (tokens, want) in rows {
        assert_row(rt, alloc, tokens, *want)?;
    }
    Ok(())
}

#[test]
fn answers_each_list(rt: HostRuntime) -> Result<(), Fail> {
    assert_rows(&rt, rt.alloc(), ROWS)
}

#[test]
fn answers_each_list_with_sections_or_rows(rt: HostRuntime) -> Result<(), Fail> {
    assert_rows(&rt, rt.alloc(), SECTIONS)?;
    assert_rows(&rt, rt.alloc(), ARRAYS)
}

const WHOLE: &[Token] = &[
    INT, A, OPEN, INT, A, LEFT, RIGHT, LEFT, One, RIGHT, CLOSE, BEGIN, INT, A, ASSIGN, One, COMMA,
    A, LEFT, One, RIGHT, LEFT, One, RIGHT, SEMICOLON, SWITCH, OPEN, A, CLOSE, BEGIN, CASE, One,
    COLON, DEFAULT, COLON, SEMICOLON, SEMICOLON, CASE, A, COLON, SEMICOLON, END, IF, OPEN, A, LEFT,
    A, RIGHT, LEFT, A, RIGHT, CLOSE, WHILE, OPEN, A, CLOSE, SEMICOLON, ELSE, FOR, OPEN, A,
    SEMICOLON, A, SEMICOLON, A, CLOSE, BEGIN, END, RETURN, A, QUESTION, OPEN, INT, CLOSE, One,
    COLON, A, OPEN, A, COMMA, One, CLOSE, SEMICOLON, END,
];

fn assert_begin(rt: &impl Abort, alloc: Global, begin: &[Token], want: Answer) -> Result<(), Fail> {
    let list = list_of(alloc, begin)?;
    let count = begin.len();
    assert_eq!(rt; answer_to(alloc, &list), want, "after {count} tokens");
    Ok(())
}

/// Each list that `whole` begins with and that is shorter, the empty one at offset 0 too.
fn assert_begins(rt: &impl Abort, alloc: Global, whole: &[Token]) -> Result<(), Fail> {
    for count in 0..whole.len() {
        let offset = count.min(9_999) as u32;
        assert_begin(rt, alloc, &whole[..count], Answer::Syntax(offset))?;
    }
    Ok(())
}

#[test]
fn ends_too_early_after_each_token(rt: HostRuntime) -> Result<(), Fail> {
    assert_begins(&rt, rt.alloc(), WHOLE)?;
    assert_begin(&rt, rt.alloc(), WHOLE, Answer::Items(1))
}
