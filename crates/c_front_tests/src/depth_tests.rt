//! Constructs that stand in themselves up to the deepest one that may, and one deeper.

use crate::parse_tests::{
    A, ASSIGN, Answer, BEGIN, CLOSE, COLON, DEFAULT, DO, ELSE, END, FOR, IF, INT, LEFT, MINUS,
    OPEN, One, QUESTION, RETURN, RIGHT, SEMICOLON, SWITCH, Token, WHILE, add, answer_to,
};
use c_tree::Lexeme;
use std::alloc::Global;
use std::process::Abort;
use std::test::Fail;

const HEAD: &[Token] = &[INT, A, OPEN, CLOSE, BEGIN];

/// A construct in a function's body that stands in itself.
struct Nest {
    /// what begins the statement
    before: &'static [Token],
    opener: &'static [Token],
    middle: &'static [Token],
    closer: &'static [Token],
    after: &'static [Token],
    /// how many may stand in one another
    most: usize,
    /// the token of one more that is too deep, counted from its first one
    deep: u32,
}

const NESTS: &[Nest] = &[
    Nest {
        before: &[RETURN],
        opener: &[OPEN],
        middle: &[One],
        closer: &[CLOSE],
        after: &[SEMICOLON],
        most: 62,
        deep: 0,
    },
    Nest {
        before: &[RETURN],
        opener: &[MINUS],
        middle: &[One],
        closer: &[],
        after: &[SEMICOLON],
        most: 62,
        deep: 0,
    },
    Nest {
        before: &[RETURN],
        opener: &[OPEN, INT, CLOSE],
        middle: &[One],
        closer: &[],
        after: &[SEMICOLON],
        most: 62,
        deep: 0,
    },
    Nest {
        before: &[],
        opener: &[A, ASSIGN],
        middle: &[One],
        closer: &[],
        after: &[SEMICOLON],
        most: 62,
        deep: 1,
    },
    Nest {
        before: &[],
        opener: &[A, OPEN],
        middle: &[],
        closer: &[CLOSE],
        after: &[SEMICOLON],
        most: 62,
        deep: 1,
    },
    Nest {
        before: &[],
        opener: &[A, LEFT],
        middle: &[One],
        closer: &[RIGHT],
        after: &[SEMICOLON],
        most: 62,
        deep: 1,
    },
    Nest {
        before: &[],
        opener: &[A, LEFT, One, RIGHT, LEFT],
        middle: &[One],
        closer: &[RIGHT],
        after: &[SEMICOLON],
        most: 62,
        deep: 1,
    },
    Nest {
        before: &[],
        opener: &[One, QUESTION],
        middle: &[One],
        closer: &[COLON, One],
        after: &[SEMICOLON],
        most: 62,
        deep: 1,
    },
    Nest {
        before: &[],
        opener: &[One, QUESTION, One, COLON],
        middle: &[One],
        closer: &[],
        after: &[SEMICOLON],
        most: 62,
        deep: 1,
    },
    Nest {
        before: &[],
        opener: &[BEGIN],
        middle: &[],
        closer: &[END],
        after: &[],
        most: 63,
        deep: 0,
    },
    Nest {
        before: &[],
        opener: &[IF, OPEN, One, CLOSE],
        middle: &[SEMICOLON],
        closer: &[],
        after: &[],
        most: 62,
        deep: 4,
    },
    Nest {
        before: &[],
        opener: &[IF, OPEN, One, CLOSE, SEMICOLON, ELSE],
        middle: &[SEMICOLON],
        closer: &[],
        after: &[],
        most: 62,
        deep: 4,
    },
    Nest {
        before: &[],
        opener: &[WHILE, OPEN, One, CLOSE],
        middle: &[SEMICOLON],
        closer: &[],
        after: &[],
        most: 62,
        deep: 4,
    },
    Nest {
        before: &[],
        opener: &[DO],
        middle: &[SEMICOLON],
        closer: &[WHILE, OPEN, One, CLOSE, SEMICOLON],
        after: &[],
        most: 62,
        deep: 1,
    },
    Nest {
        before: &[],
        opener: &[FOR, OPEN, SEMICOLON, SEMICOLON, CLOSE],
        middle: &[SEMICOLON],
        closer: &[],
        after: &[],
        most: 62,
        deep: 5,
    },
    Nest {
        before: &[],
        opener: &[SWITCH, OPEN, One, CLOSE, BEGIN, DEFAULT, COLON],
        middle: &[SEMICOLON],
        closer: &[END],
        after: &[],
        most: 62,
        deep: 7,
    },
];

fn add_times(
    alloc: Global,
    list: &mut Vec<Lexeme>,
    tokens: &[Token],
    count: usize,
) -> Result<(), Fail> {
    for _ in 0..count {
        add(alloc, list, tokens)?;
    }
    Ok(())
}

fn add_nest(alloc: Global, list: &mut Vec<Lexeme>, nest: &Nest, count: usize) -> Result<(), Fail> {
    add(alloc, list, HEAD)?;
    add(alloc, list, nest.before)?;
    add_times(alloc, list, nest.opener, count)?;
    add(alloc, list, nest.middle)?;
    add_times(alloc, list, nest.closer, count)?;
    add(alloc, list, nest.after)?;
    add(alloc, list, &[END])
}

/// So many of the construct in one another.
fn nested(alloc: Global, nest: &Nest, count: usize) -> Result<Vec<Lexeme>, Fail> {
    let mut list = Vec::new(alloc);
    add_nest(alloc, &mut list, nest, count)?;
    Ok(list)
}

/// One more than may be.
fn nested_too_deep(alloc: Global, nest: &Nest) -> Result<Vec<Lexeme>, Fail> {
    nested(alloc, nest, nest.most.min(99) + 1)
}

/// The offset of the token that is too deep where one more stands than may.
fn deep_offset(nest: &Nest) -> u32 {
    let before = (HEAD.len() + nest.before.len().min(9)) as u32;
    let most = (nest.most.min(99) * nest.opener.len().min(9)) as u32;
    before + most + nest.deep.min(9) + 1
}

fn assert_answer(rt: &impl Abort, alloc: Global, nest: &Nest, list: &[Lexeme], want: Answer) {
    let opener = nest.opener;
    assert_eq!(rt; answer_to(alloc, list), want, "{opener:?}");
}

fn assert_taken(rt: &impl Abort, alloc: Global, nest: &Nest) -> Result<(), Fail> {
    let list = nested(alloc, nest, nest.most)?;
    assert_answer(rt, alloc, nest, &list, Answer::Items(1));
    Ok(())
}

fn assert_too_deep(rt: &impl Abort, alloc: Global, nest: &Nest) -> Result<(), Fail> {
    let list = nested_too_deep(alloc, nest)?;
    assert_answer(rt, alloc, nest, &list, Answer::TooDeep(deep_offset(nest)));
    Ok(())
}

/// Where the token that is too deep is the last one, the tokens only end too early.
fn assert_too_short(rt: &impl Abort, alloc: Global, nest: &Nest) -> Result<(), Fail> {
    let mut list = nested_too_deep(alloc, nest)?;
    list.truncate(deep_offset(nest) as usize);
    assert_answer(rt, alloc, nest, &list, Answer::Syntax(deep_offset(nest)));
    Ok(())
}

fn assert_nests(rt: &impl Abort, alloc: Global, nests: &[Nest]) -> Result<(), Fail> {
    for nest in nests {
        assert_taken(rt, alloc, nest)?;
        assert_too_deep(rt, alloc, nest)?;
        assert_too_short(rt, alloc, nest)?;
    }
    Ok(())
}

#[test]
fn each_construct_may_stand_at_depth_64(rt: HostRuntime) -> Result<(), Fail> {
    assert_nests(&rt, rt.alloc(), NESTS)
}
