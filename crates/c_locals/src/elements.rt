//! What sets the elements of an array.

ghost use Rattle.std.specs.Prelude.{◌≡◌, ◌<◌, ◌≤◌, ◌+◌, [], ◌∷◌, OnOk, IfErr};
ghost use Rattle.c_tree.specs.Limits.{most_tokens};
ghost use Rattle.c_library.specs.Places.{tokens};
ghost use Rattle.c_library.specs.inside.Gives.{Gives, Refuses};
ghost use Rattle.c_locals.specs.Brackets as brackets;
ghost use Rattle.c_library.specs.inside.Puts.{put_all};
ghost use Rattle.c_locals.specs.Elements as elements;

use crate::brackets::{depth_past, divides};
use crate::put::{number, put_mark, put_name, put_number, put_token, put_tokens};
use c_library::{LibraryFault, Output};
use c_tree::{Form, Key, Lexeme, Mark};
use std::alloc::Global;

// INDEXES

/// Puts an index in brackets that is this number.
#[tactic(auto, using(crate::proofs::PutBehind::both))]
fn put_index(at: u32, index: usize, out: &mut Output) -> Result<(), LibraryFault>
    ensures { Gives (put_all most_tokens (elements.bracketed at (tokens at (elements.number index ∷ []))) out.old)
        result out.new }
{
    put_mark(at, Mark::LeftBracket, out)?;
    put_number(at, index, out)?;
    put_mark(at, Mark::RightBracket, out)
}

/// Puts an index in brackets that is this name.
#[tactic(auto, using(crate::proofs::PutBehind::both))]
fn put_named_index(
    alloc: Global,
    at: u32,
    name: &[u8],
    out: &mut Output,
) -> Result<(), LibraryFault>
    ensures { Gives (put_all most_tokens (elements.bracketed at (tokens at (elements.named name.now ∷ []))) out.old)
        result out.new }
{
    put_mark(at, Mark::LeftBracket, out)?;
    put_name(alloc, at, name, out)?;
    put_mark(at, Mark::RightBracket, out)
}

/// Puts what an assignment to this element begins with.
#[tactic(auto, using(crate::proofs::PutBehind::both))]
fn put_assigns(
    alloc: Global,
    at: u32,
    of: &[Lexeme],
    index: usize,
    out: &mut Output,
) -> Result<(), LibraryFault>
    ensures { Gives (put_all most_tokens (elements.assigns at of.now index) out.old) result out.new }
{
    put_tokens(alloc, of, out)?;
    put_index(at, index, out)?;
    put_mark(at, Mark::Assign, out)
}

// VALUES

/// The index behind a token of values.
fn index_past(index: usize, depth: usize, token: &Lexeme) -> usize
    requires few { index < 18446744073709551615 }
    ensures value { result ≡ elements.index_past index depth token.now }
    ensures few { result ≤ index + 1 }
{
    if divides(Mark::Comma, depth, token) {
        index + 1
    } else {
        index
    }
}

/// Behind a value: puts what begins the next assignment, if a value follows.
#[tactic(auto, using(crate::proofs::PutBehind::both))]
fn put_next(
    alloc: Global,
    at: u32,
    of: &[Lexeme],
    index: usize,
    behind: &[Lexeme],
    out: &mut Output,
) -> Result<(), LibraryFault>
    ensures { Gives (put_all most_tokens (elements.next at of.now index behind.now) out.old) result out.new }
{
    match behind {
        [] => Ok(()),
        [_, ..] => {
            put_mark(at, Mark::Semicolon, out)?;
            put_assigns(alloc, at, of, index, out)
        }
    }
}

/// Puts what stands for the first token of these.
#[tactic(auto, using(crate::proofs::PutBehind::here_goes, crate::proofs::PutBehind::here_fails))]
fn put_first(
    alloc: Global,
    at: u32,
    of: &[Lexeme],
    index: usize,
    depth: usize,
    token: &Lexeme,
    behind: &[Lexeme],
    out: &mut Output,
) -> Result<(), LibraryFault>
    requires few { index < 18446744073709551615 }
    ensures goes { OnOk result (put_all most_tokens
        (elements.set_from at of.now index depth (token.now ∷ behind.now)) out.old
        ≡ put_all most_tokens (elements.set_from at of.now (elements.index_past index depth token.now)
        (brackets.depth_past token.now.form depth) behind.now) out.new) }
    ensures fails { IfErr result (Refuses (put_all most_tokens
        (elements.set_from at of.now index depth (token.now ∷ behind.now)) out.old)) }
{
    put_here(alloc, at, of, index, depth, token, behind, out)
}

/// Puts what stands for a token of the value at this index.
fn put_here(
    alloc: Global,
    at: u32,
    of: &[Lexeme],
    index: usize,
    depth: usize,
    token: &Lexeme,
    behind: &[Lexeme],
    out: &mut Output,
) -> Result<(), LibraryFault>
    requires few { index < 18446744073709551615 }
    ensures { Gives (put_all most_tokens (elements.here at of.now index depth token.now behind.now) out.old)
        result out.new }
{
    if divides(Mark::Comma, depth, token) {
        put_next(alloc, at, of, index + 1, behind, out)
    } else {
        put_token(alloc, token, out)
    }
}

/// Puts the values behind what the first assignment begins with.
fn put_values(
    alloc: Global,
    at: u32,
    of: &[Lexeme],
    values: &[Lexeme],
    out: &mut Output,
) -> Result<(), LibraryFault>
    ensures { Gives (put_all most_tokens (elements.set_from at of.now 0 0 values.now) out.old) result out.new }
{
    let size = values.len();
    let mut index: usize = 0;
    let mut depth: usize = 0;
    let mut rest = values;
    while let [token, more @ ..] = rest {
        put_first(alloc, at, of, index, depth, token, more, out)?;
        index = index_past(index, depth, token);
        depth = depth_past(&token.form, depth);
        rest = more;
    }
    put_mark(at, Mark::Semicolon, out)
}

/// Puts what sets the elements to these values.
#[tactic(auto, using(crate::proofs::PutBehind::both))]
fn put_set(
    alloc: Global,
    at: u32,
    of: &[Lexeme],
    values: &[Lexeme],
    out: &mut Output,
) -> Result<(), LibraryFault>
    ensures { Gives (put_all most_tokens (elements.set_all at of.now values.now) out.old) result out.new }
{
    put_assigns(alloc, at, of, 0, out)?;
    put_values(alloc, at, of, values, out)
}

/// How many values a list has.
pub fn count(values: &[Lexeme]) -> usize
    ensures { result ≡ elements.count values.now }
{
    let size = values.len();
    let mut count: usize = 0;
    let mut depth: usize = 0;
    let mut rest = values;
    while let [token, more @ ..] = rest {
        if let [] = more {
            return count + 1;
        }
        count = index_past(count, depth, token);
        depth = depth_past(&token.form, depth);
        rest = more;
    }
    count
}

// ELEMENTS WITHOUT VALUES

/// Is it this number?
fn is_number(n: usize, form: &Form) -> bool
    ensures { result ≡ elements.is_number n form.now }
{
    match form {
        Form::Number { value, .. } => *value == n as u64,
        _ => false,
    }
}

/// Is the size this number, and nothing else?
pub fn is_just(n: usize, size: &[Lexeme]) -> bool
    ensures { result ≡ elements.is_just n size.now }
{
    match size {
        [token] => is_number(n, &token.form),
        _ => false,
    }
}

/// Puts `for ( int NAME`.
#[tactic(auto, using(crate::proofs::PutBehind::both))]
fn put_for(alloc: Global, at: u32, name: &[u8], out: &mut Output) -> Result<(), LibraryFault>
    ensures { Gives (put_all most_tokens (elements.loop_begins at name.now) out.old) result out.new }
{
    out.put(at, Form::Key(Key::For))?;
    out.put(at, Form::Mark(Mark::LeftParen))?;
    out.put(at, Form::Key(Key::Int))?;
    put_name(alloc, at, name, out)
}

/// Puts `= n ; NAME`.
fn put_start(
    alloc: Global,
    at: u32,
    name: &[u8],
    n: usize,
    out: &mut Output,
) -> Result<(), LibraryFault>
    ensures { Gives (put_all most_tokens (elements.loop_starts at name.now n) out.old) result out.new }
{
    out.put(at, Form::Mark(Mark::Assign))?;
    out.put(at, number(n))?;
    out.put(at, Form::Mark(Mark::Semicolon))?;
    put_name(alloc, at, name, out)
}

/// Puts `< (`.
fn put_test(at: u32, out: &mut Output) -> Result<(), LibraryFault>
    ensures { Gives (put_all most_tokens (elements.loop_tests at) out.old)
        result out.new }
{
    out.put(at, Form::Mark(Mark::Less))?;
    out.put(at, Form::Mark(Mark::LeftParen))
}

/// Puts `) ; NAME`.
fn put_step(alloc: Global, at: u32, name: &[u8], out: &mut Output) -> Result<(), LibraryFault>
    ensures { Gives (put_all most_tokens (elements.loop_steps at name.now) out.old) result out.new }
{
    out.put(at, Form::Mark(Mark::RightParen))?;
    out.put(at, Form::Mark(Mark::Semicolon))?;
    put_name(alloc, at, name, out)
}

/// Puts `++ )`.
fn put_end(at: u32, out: &mut Output) -> Result<(), LibraryFault>
    ensures { Gives (put_all most_tokens (elements.loop_ends at)
        out.old) result out.new }
{
    out.put(at, Form::Mark(Mark::PlusPlus))?;
    out.put(at, Form::Mark(Mark::RightParen))
}

/// Puts `SIZE ) ; NAME ++ )`.
#[tactic(auto, using(crate::proofs::PutBehind::both))]
fn put_loop_rest(
    alloc: Global,
    at: u32,
    name: &[u8],
    size: &[Lexeme],
    out: &mut Output,
) -> Result<(), LibraryFault>
    ensures { Gives (put_all most_tokens (elements.loop_rest at name.now size.now) out.old) result out.new }
{
    put_tokens(alloc, size, out)?;
    put_step(alloc, at, name, out)?;
    put_end(at, out)
}

/// Puts the head of a loop that counts from this number on to a size.
#[tactic(auto, using(crate::proofs::PutBehind::both), unfolding(crate::specs::Elements::loop_head))]
pub fn put_loop(
    alloc: Global,
    at: u32,
    name: &[u8],
    n: usize,
    size: &[Lexeme],
    out: &mut Output,
) -> Result<(), LibraryFault>
    ensures { Gives (put_all most_tokens (elements.loop_head at name.now n size.now) out.old) result out.new }
{
    put_for(alloc, at, name, out)?;
    put_start(alloc, at, name, n, out)?;
    put_test(at, out)?;
    put_loop_rest(alloc, at, name, size, out)
}

/// Puts `= 0 ;`.
fn put_zero(at: u32, out: &mut Output) -> Result<(), LibraryFault>
    ensures { Gives (put_all most_tokens (elements.zeroes at) out.old) result out.new }
{
    out.put(at, Form::Mark(Mark::Assign))?;
    out.put(at, number(0))?;
    out.put(at, Form::Mark(Mark::Semicolon))
}

/// Puts what sets the element of the counter to 0.
#[tactic(auto, using(crate::proofs::PutBehind::both))]
fn put_zero_at(alloc: Global, at: u32, of: &[Lexeme], out: &mut Output) -> Result<(), LibraryFault>
    ensures { Gives (put_all most_tokens (elements.zero_at at of.now) out.old) result out.new }
{
    put_tokens(alloc, of, out)?;
    put_named_index(alloc, at, b".element", out)?;
    put_zero(at, out)
}

/// Puts a loop that sets the elements from this index on to 0.
#[tactic(auto, using(crate::proofs::PutBehind::both))]
fn put_zero_loop(
    alloc: Global,
    at: u32,
    of: &[Lexeme],
    n: usize,
    size: &[Lexeme],
    out: &mut Output,
) -> Result<(), LibraryFault>
    ensures { Gives (put_all most_tokens (elements.zero_loop at of.now n size.now) out.old) result out.new }
{
    put_loop(alloc, at, b".element", n, size, out)?;
    put_zero_at(alloc, at, of, out)
}

/// Puts what sets the elements from this index on to 0.
pub fn put_zero_from(
    alloc: Global,
    at: u32,
    of: &[Lexeme],
    n: usize,
    size: &[Lexeme],
    out: &mut Output,
) -> Result<(), LibraryFault>
    ensures { Gives (put_all most_tokens (elements.zero_from at of.now n size.now) out.old) result out.new }
{
    match size {
        [] => Ok(()),
        [_, ..] => {
            if is_just(n, size) {
                return Ok(());
            }
            put_zero_loop(alloc, at, of, n, size, out)
        }
    }
}

/// Puts what sets the elements to a list's values, and to 0 where it has none.
#[tactic(auto, using(crate::proofs::PutBehind::both))]
pub fn put_filled(
    alloc: Global,
    at: u32,
    of: &[Lexeme],
    size: &[Lexeme],
    values: &[Lexeme],
    out: &mut Output,
) -> Result<(), LibraryFault>
    ensures { Gives (put_all most_tokens (elements.filled at of.now size.now values.now) out.old) result out.new }
{
    put_set(alloc, at, of, values, out)?;
    put_zero_from(alloc, at, of, count(values), size, out)
}
