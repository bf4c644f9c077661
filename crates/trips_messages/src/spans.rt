//! The expression around a fault, which is no part of another one.

ghost use Rattle.std.specs.Prelude.{◌≡◌};
ghost use Rattle.trips_messages.specs.Spans as spans;

use crate::class::{Class, class_of, one_less, one_more};
use crate::names::{Phase, Stand, in_phase, stand_after};
use c_tree::Lexeme;

/// Where the expression begins that the next token belongs to: at that token, or at an earlier one since which so
/// many brackets are open; with the class of the last token, and its place among declarations.
#[derive(Clone, Copy, Debug)]
pub struct Walk {
    pub fresh: bool,
    pub begin: u32,
    pub depth: u32,
    pub previous: Class,
    pub at: Stand,
}

/// Does the token begin a statement, behind which a bracket holds an expression of its own?
fn is_start(class: Class) -> bool
    ensures { result ≡ spans.is_start class }
{
    match class {
        Class::Starts => true,
        _ => false,
    }
}

/// Is it a name?
fn is_named(class: Class) -> bool
    ensures { result ≡ spans.is_named class }
{
    match class {
        Class::Name => true,
        _ => false,
    }
}

/// Behind a name that was declared?
fn is_listed(phase: Phase) -> bool
    ensures { result ≡ spans.is_listed phase }
{
    match phase {
        Phase::Listed => true,
        _ => false,
    }
}

/// Would a square bracket hold the size of an array that is declared?
fn before_size(walk: Walk) -> bool
    ensures { result ≡ spans.before_size walk }
{
    is_named(walk.previous) && (is_listed(walk.at.phase) && walk.at.depth == 0)
}

/// Does an expression begin behind the token?
fn refreshes(walk: Walk, class: Class) -> bool
    ensures { result ≡ spans.refreshes walk class }
{
    match class {
        Class::OpenRound => is_start(walk.previous),
        Class::OpenSquare => before_size(walk),
        Class::CloseRound | Class::CloseSquare => walk.depth == 0,
        Class::Assign | Class::Comma | Class::Asks | Class::Colon => walk.depth == 0,
        Class::OpenCurly | Class::CloseCurly | Class::Semicolon | Class::Starts => true,
        Class::Else | Class::Return | Class::Include => true,
        _ => false,
    }
}

/// How many brackets of the expression are open behind the token.
fn depth_after(walk: Walk, class: Class) -> u32
    ensures { result ≡ spans.depth_after walk class }
{
    match class {
        Class::OpenRound => {
            if is_start(walk.previous) {
                0
            } else {
                one_more(walk.depth)
            }
        }
        Class::OpenSquare => {
            if before_size(walk) {
                0
            } else {
                one_more(walk.depth)
            }
        }
        Class::CloseRound | Class::CloseSquare => one_less(walk.depth),
        Class::OpenCurly | Class::CloseCurly | Class::Semicolon => 0,
        _ => walk.depth,
    }
}

/// Where the expression of a token at an offset begins.
fn begun(walk: Walk, offset: u32) -> u32
    ensures { result ≡ spans.begun walk offset }
{
    if walk.fresh { offset } else { walk.begin }
}

/// Behind a token.
fn walked(walk: Walk, class: Class, offset: u32) -> Walk
    ensures { result ≡ spans.walked walk class offset }
{
    Walk {
        fresh: refreshes(walk, class),
        begin: begun(walk, offset),
        depth: depth_after(walk, class),
        previous: class,
        at: stand_after(class, walk.at),
    }
}

/// Before the first token.
fn unwalked() -> Walk
    ensures { result ≡ spans.unwalked }
{
    Walk {
        fresh: true,
        begin: 0,
        depth: 0,
        previous: Class::Nothing,
        at: in_phase(Phase::Elsewhere, 0),
    }
}

/// Where the expression begins that the token at an offset belongs to.
pub fn begin_of(tokens: &[Lexeme], offset: u32) -> u32
    ensures { result ≡ spans.begin_of offset tokens.now }
{
    let mut walk = unwalked();
    let mut rest = tokens;
    while let [lexeme, more @ ..] = rest {
        if offset <= lexeme.offset {
            return begun(walk, lexeme.offset);
        }
        walk = walked(walk, class_of(&lexeme.form), lexeme.offset);
        rest = more;
    }
    offset
}

/// Does an expression end before the token, where no bracket of it is open?
fn ends_before(class: Class) -> bool
    ensures { result ≡ spans.ends_before class }
{
    match class {
        Class::Semicolon | Class::Comma | Class::Asks | Class::Colon => true,
        Class::OpenCurly | Class::CloseCurly | Class::CloseRound | Class::CloseSquare => true,
        Class::Starts | Class::Else | Class::Return => true,
        _ => false,
    }
}

/// How many brackets are open behind the token.
fn nested(class: Class, depth: u32) -> u32
    ensures { result ≡ spans.nested class depth }
{
    match class {
        Class::OpenRound | Class::OpenSquare => one_more(depth),
        Class::CloseRound | Class::CloseSquare => one_less(depth),
        _ => depth,
    }
}

/// Does the expression that begins at an offset end before the token?
fn ends_at(begin: u32, depth: u32, lexeme: &Lexeme) -> bool
    ensures { result ≡ spans.ends_at begin depth lexeme.now }
{
    begin < lexeme.offset && (depth == 0 && ends_before(class_of(&lexeme.form)))
}

/// The brackets that are open behind a token, of those from the offset on.
fn nested_from(begin: u32, depth: u32, lexeme: &Lexeme) -> u32
    ensures { result ≡ spans.nested_from begin depth lexeme.now }
{
    if lexeme.offset < begin {
        depth
    } else {
        nested(class_of(&lexeme.form), depth)
    }
}

/// Where the expression ends that begins at an offset of a text of so many bytes: before the first token behind it.
pub fn end_of(tokens: &[Lexeme], begin: u32, size: usize) -> usize
    ensures { result ≡ spans.end_of begin size tokens.now }
{
    let mut depth = 0;
    let mut rest = tokens;
    while let [lexeme, more @ ..] = rest {
        if ends_at(begin, depth, lexeme) {
            return lexeme.offset as usize;
        }
        depth = nested_from(begin, depth, lexeme);
        rest = more;
    }
    size
}
