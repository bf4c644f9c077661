//! A unit without local arrays that have values.

ghost use Rattle.std.specs.Prelude.{◌≡◌, ◌≤◌, ◌+◌, length, [], ◌∷◌, ◌++◌, if◌then◌else◌, Ok, IfOk, IfErr, OnOk};
ghost use Rattle.c_tree.specs.Limits.{most_tokens};
ghost use Rattle.c_library.specs.Within.{within};
ghost use Rattle.c_library.specs.inside.Gives.{Gives, Refuses};
ghost use Rattle.c_library.specs.inside.Puts.{put_all};
ghost use Rattle.c_locals.specs.Brackets as brackets;
ghost use Rattle.c_locals.specs.Values as values;

use crate::brackets::{first_piece, is_mark};
use crate::declarators::put_declared;
use crate::put::{put_token, put_tokens};
use crate::walk::{Part, Walk, adds_word, blocks_past, sets_list};
use base::Items;
use c_library::{LibraryFault, Output, token_copied};
use c_tree::{Form, Lexeme, Mark};
use std::alloc::{AllocError, Global};

// DECLARATIONS

/// Do the tokens begin with a name?
fn begins_name(tokens: &[Lexeme]) -> bool
    ensures { result ≡ values.begins_name tokens.now }
{
    match tokens {
        [] => false,
        [token, ..] => match token.form {
            Form::Name(_) => true,
            _ => false,
        },
    }
}

/// Does each piece of these tokens begin with a name?
fn are_named(tokens: &[Lexeme]) -> bool
    ensures { result ≡ values.are_named (brackets.pieces tokens.now) }
{
    let mut rest = Some(tokens);
    while let Some(tokens) = rest {
        let (piece, further) = first_piece(tokens);
        if !begins_name(piece) {
            return false;
        }
        rest = further;
    }
    true
}

/// Puts a declarator as a declaration of its own.
fn put_piece(
    alloc: Global,
    words: &[Lexeme],
    piece: &[Lexeme],
    out: &mut Output,
) -> Result<(), LibraryFault>
    ensures { Gives (put_all most_tokens (values.one_declared words.now piece.now) out.old)
        result out.new }
{
    match piece {
        [] => Ok(()),
        [name, behind @ ..] => put_declared(alloc, words, name, behind, out),
    }
}

/// Puts each declarator as a declaration of its own.
#[tactic(auto, using(crate::proofs::PutBehind::both))]
fn put_each(
    alloc: Global,
    words: &[Lexeme],
    body: &[Lexeme],
    out: &mut Output,
) -> Result<(), LibraryFault>
    ensures { Gives (put_all most_tokens (values.each_declared words.now (brackets.pieces body.now)) out.old)
        result out.new }
{
    let mut rest = Some(body);
    while let Some(tokens) = rest {
        let (piece, further) = first_piece(tokens);
        put_piece(alloc, words, piece, out)?;
        rest = further;
    }
    Ok(())
}

/// Puts a declaration.
#[tactic(auto, using(crate::proofs::PutBehind::both))]
fn put_local(
    alloc: Global,
    has_list: bool,
    words: &[Lexeme],
    body: &[Lexeme],
    end: &Lexeme,
    out: &mut Output,
) -> Result<(), LibraryFault>
    ensures { Gives (put_all most_tokens (values.local has_list words.now body.now end.now) out.old) result out.new }
{
    if has_list && are_named(body) {
        put_each(alloc, words, body, out)
    } else {
        put_tokens(alloc, words, out)?;
        put_tokens(alloc, body, out)?;
        put_token(alloc, end, out)
    }
}

// THE WALK

/// The words of a declaration's type and the tokens behind them, as far as they are read.
#[derive(Drop)]
struct Held {
    words: Items<Lexeme>,
    body: Items<Lexeme>,
}

impl Held {
    /// Nothing. It takes no memory.
    fn new(alloc: Global) -> Held
        ensures words { result.words ≡ [] }
        ensures body { result.body ≡ [] }
    {
        Held {
            words: Items::new(alloc),
            body: Items::new(alloc),
        }
    }

    /// Begins with this token, or with none.
    fn begin(&mut self, alloc: Global, begins: bool, token: &Lexeme) -> Result<(), AllocError>
        ensures words { OnOk result (self.new.words ≡ (if begins then token.now ∷ [] else [])) }
        ensures body { OnOk result (self.new.body ≡ []) }
    {
        self.words = Items::new(alloc);
        self.body = Items::new(alloc);
        if begins {
            self.words.push(token_copied(alloc, token)?)?;
        }
        Ok(())
    }

    /// Adds a token of the declaration.
    fn add(&mut self, alloc: Global, part: Part, token: &Lexeme) -> Result<(), AllocError>
        ensures words { OnOk result (self.new.words ≡ values.words_added part self.old.words token.now) }
        ensures body { OnOk result (self.new.body ≡ values.body_added part self.old.body token.now) }
    {
        let token = token_copied(alloc, token)?;
        if adds_word(part, &token.form) {
            self.words.push(token)
        } else {
            self.body.push(token)
        }
    }

    /// Goes past a token.
    fn pass(&mut self, alloc: Global, walk: &Walk, token: &Lexeme) -> Result<(), AllocError>
        ensures words { OnOk result
            (self.new.words ≡ values.words_past walk.now walk.now.part self.old.words token.now) }
        ensures body { OnOk result (self.new.body ≡ values.body_past walk.now.part self.old.body token.now) }
    {
        match walk.part {
            Part::Code => self.begin(alloc, walk.begins(&token.form), token),
            part => {
                if is_mark(Mark::Semicolon, &token.form) {
                    self.begin(alloc, false, token)
                } else {
                    self.add(alloc, part, token)
                }
            }
        }
    }
}

/// Puts what a token does: itself, or at the end of a declaration the whole of this.
fn put_next(
    alloc: Global,
    walk: &Walk,
    held: &Held,
    token: &Lexeme,
    out: &mut Output,
) -> Result<(), LibraryFault>
    ensures { Gives (put_all most_tokens
        (values.puts walk.now walk.now.part held.now.words held.now.body token.now) out.old) result out.new }
{
    match walk.part {
        Part::Code => {
            if walk.begins(&token.form) {
                Ok(())
            } else {
                put_token(alloc, token, out)
            }
        }
        _ => {
            if is_mark(Mark::Semicolon, &token.form) {
                put_local(
                    alloc,
                    walk.has_list,
                    held.words.as_slice(),
                    held.body.as_slice(),
                    token,
                    out,
                )
            } else {
                Ok(())
            }
        }
    }
}

/// Puts what the first of these tokens does.
#[tactic(auto, using(crate::proofs::PutBehind::token_goes, crate::proofs::PutBehind::token_fails))]
fn put_first(
    alloc: Global,
    walk: &Walk,
    held: &Held,
    token: &Lexeme,
    behind: &[Lexeme],
    out: &mut Output,
) -> Result<(), LibraryFault>
    ensures goes { OnOk result (put_all most_tokens
        (values.walked walk.now held.now.words held.now.body (token.now ∷ behind.now)) out.old
        ≡ put_all most_tokens (values.walked (values.past walk.now token.now behind.now)
        (values.words_past walk.now walk.now.part held.now.words token.now)
        (values.body_past walk.now.part held.now.body token.now) behind.now) out.new) }
    ensures fails { IfErr result (Refuses (put_all most_tokens
        (values.walked walk.now held.now.words held.now.body (token.now ∷ behind.now)) out.old)) }
{
    put_next(alloc, walk, held, token, out)
}

/// Puts what is held of a declaration that does not end.
#[tactic(auto, using(crate::proofs::PutBehind::both))]
fn put_held(alloc: Global, held: &Held, out: &mut Output) -> Result<(), LibraryFault>
    ensures { Gives (put_all most_tokens (held.now.words ++ held.now.body) out.old) result out.new }
{
    put_tokens(alloc, held.words.as_slice(), out)?;
    put_tokens(alloc, held.body.as_slice(), out)
}

/// Puts the unit.
fn put_unit(alloc: Global, tokens: &[Lexeme], out: &mut Output) -> Result<(), LibraryFault>
    ensures { Gives (put_all most_tokens (values.with_values tokens.now) out.old) result out.new }
{
    let count = tokens.len();
    let mut walk = Walk::beginning();
    let mut held = Held::new(alloc);
    let mut rest = tokens;
    while let [token, more @ ..] = rest {
        put_first(alloc, &walk, &held, token, more, out)?;
        held.pass(alloc, &walk, token)?;
        walk = walk.past(token, more);
        rest = more;
    }
    put_held(alloc, &held, out)
}

/// Does no list in braces stand in braces?
pub fn has_no_values(tokens: &[Lexeme]) -> bool
    ensures { result ≡ values.has_no_values tokens.now }
{
    let count = tokens.len();
    let mut blocks: usize = 0;
    let mut rest = tokens;
    while let [token, more @ ..] = rest {
        if sets_list(blocks, token, more) {
            return false;
        }
        blocks = blocks_past(blocks, &token.form);
        rest = more;
    }
    true
}

/// The unit in which no local array has values, or the first token that is too many.
pub fn with_values(alloc: Global, tokens: &[Lexeme]) -> Result<Vec<Lexeme>, LibraryFault>
    ensures ok { IfOk result (λ out. within most_tokens (values.with_values tokens.now) ≡ Ok out.items) }
    ensures err { IfErr result (Refuses (within most_tokens (values.with_values tokens.now))) }
{
    let mut out = Output::new(alloc);
    match put_unit(alloc, tokens, &mut out) {
        Ok(()) => Ok(out.into_vec()),
        Err(fault) => Err(fault),
    }
}
