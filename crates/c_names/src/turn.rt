//! The first tokens of a unit, and what stands for them.

ghost use Rattle.std.specs.Prelude.{◌≡◌, [], ◌∷◌, option_map, IfOk, IfErr};
ghost use Rattle.c_tree.specs.Limits.{most_tokens};
ghost use Rattle.c_library.specs.Places.{token as token_at};
ghost use Rattle.c_library.specs.inside.Gives.{Gives, Refuses};
ghost use Rattle.c_library.specs.inside.Puts.{put_all};
ghost use Rattle.c_tree.specs.declared.Key.TheVariants as key;
ghost use Rattle.c_names.specs.Enums as enums;
ghost use Rattle.c_names.specs.Turns as turns;
ghost use Rattle.c_names.specs.inside.Takes.{Did};

use crate::enums::enum_behind;
use crate::header::{declare_types, goes, is_header, sizes, types_of};
use crate::piece::{Piece, put_spelled};
use crate::scope::Scope;
use crate::typedef::{type_from, typedef_behind};
use crate::words::begins;
use c_library::{LibraryFault, Output, form_copied};
use c_tree::{Form, Key, Kind, Lexeme, Mark};
use std::alloc::{AllocError, Global};

/// What is known before a token: whether a declaration may stand there, and the names that stand for something.
#[derive(Drop)]
pub struct Names {
    pub starts: bool,
    pub scope: Scope,
}

/// Puts a token as it is.
#[tactic(auto, using(c_library::proofs::Puts::one))]
pub fn put_token(alloc: Global, token: &Lexeme, out: &mut Output) -> Result<(), LibraryFault>
    ensures { Gives (put_all most_tokens (token.now ∷ []) out.old) result out.new }
{
    out.put(token.offset, form_copied(alloc, &token.form)?)
}

/// Puts tokens as they are.
fn put_tokens(alloc: Global, tokens: &[Lexeme], out: &mut Output) -> Result<(), LibraryFault>
    ensures { Gives (put_all most_tokens tokens.now out.old) result out.new }
{
    let mut rest = tokens;
    while let [token, more @ ..] = rest {
        out.put(token.offset, form_copied(alloc, &token.form)?)?;
        rest = more;
    }
    Ok(())
}

/// Puts a form as a token at this place.
#[tactic(auto, using(c_library::proofs::Puts::one))]
fn put_form(at: u32, form: Form, out: &mut Output) -> Result<(), LibraryFault>
    ensures { Gives (put_all most_tokens (token_at at form ∷ []) out.old) result out.new }
{
    out.put(at, form)
}

/// The tokens but the first.
fn behind_first(tokens: &[Lexeme]) -> &[Lexeme]
    ensures { result.now ≡ turns.behind_first tokens.now }
{
    match tokens {
        [] => tokens,
        [_, more @ ..] => more,
    }
}

impl Names {
    /// Puts all that is left behind a declaration that is malformed.
    fn leave<'a>(
        &mut self,
        alloc: Global,
        token: &Lexeme,
        behind: &[Lexeme],
        out: &mut Output,
    ) -> Result<&'a [Lexeme], LibraryFault>
        ensures did { IfOk result (λ rest. Did (turns.left token.now behind.now) out.old rest.now self.new out.new) }
        ensures err { IfErr result (Refuses (put_all most_tokens (turns.left token.now behind.now).out out.old)) }
    {
        out.put(token.offset, form_copied(alloc, &token.form)?)?;
        put_tokens(alloc, behind, out)?;
        self.starts = false;
        self.scope = Scope::new(alloc);
        Ok(&[])
    }

    /// Takes a declaration of names of types.
    fn take_typedef<'a>(
        &mut self,
        alloc: Global,
        token: &Lexeme,
        behind: &'a [Lexeme],
        out: &mut Output,
    ) -> Result<&'a [Lexeme], LibraryFault>
        ensures did { IfOk result (λ rest. Did (turns.typedef_turn token.now behind.now
            (enums.typedef_behind self.old.scope behind.now)) out.old rest.now self.new out.new) }
        ensures err { IfErr result (Refuses (put_all most_tokens (turns.typedef_turn token.now behind.now
            (enums.typedef_behind self.old.scope behind.now)).out out.old)) }
    {
        match typedef_behind(alloc, &mut self.scope, behind)? {
            None => self.leave(alloc, token, behind, out),
            Some(rest) => {
                self.starts = true;
                Ok(rest)
            }
        }
    }

    /// Takes a declaration of names of types, where one may stand.
    fn take_typedef_here<'a>(
        &mut self,
        alloc: Global,
        token: &Lexeme,
        behind: &'a [Lexeme],
        out: &mut Output,
    ) -> Result<&'a [Lexeme], LibraryFault>
        ensures did { IfOk result (λ rest. Did (turns.key_turn self.old token.now behind.now key.Typedef) out.old
            rest.now self.new out.new) }
        ensures err { IfErr result (Refuses (put_all most_tokens
            (turns.key_turn self.old token.now behind.now key.Typedef).out out.old)) }
    {
        if self.starts && !self.scope.in_parens() {
            self.take_typedef(alloc, token, behind, out)
        } else {
            self.leave(alloc, token, behind, out)
        }
    }

    /// Puts what stands for an enumeration, before these tokens.
    fn put_enum<'a>(
        &mut self,
        token: &Lexeme,
        behind: &'a [Lexeme],
        out: &mut Output,
    ) -> Result<&'a [Lexeme], LibraryFault>
        ensures did { IfOk result (λ rest. Did (turns.enum_by self.old token.now behind.now)
            out.old rest.now self.new out.new) }
        ensures err { IfErr result (Refuses (put_all most_tokens
            (turns.enum_by self.old token.now behind.now).out out.old)) }
    {
        if self.starts && begins(Mark::Semicolon, behind) {
            self.starts = true;
            return Ok(behind_first(behind));
        }
        put_form(token.offset, Form::Key(Key::Int), out)?;
        self.starts = false;
        Ok(behind)
    }

    /// Takes an enumeration.
    fn take_enum<'a>(
        &mut self,
        alloc: Global,
        token: &Lexeme,
        behind: &'a [Lexeme],
        out: &mut Output,
    ) -> Result<&'a [Lexeme], LibraryFault>
        ensures did { IfOk result (λ rest. Did (turns.key_turn self.old token.now behind.now key.Enum) out.old
            rest.now self.new out.new) }
        ensures err { IfErr result (Refuses (put_all most_tokens
            (turns.key_turn self.old token.now behind.now key.Enum).out out.old)) }
    {
        match enum_behind(alloc, &mut self.scope, behind)? {
            None => self.leave(alloc, token, behind, out),
            Some(rest) => self.put_enum(token, rest, out),
        }
    }

    /// Puts a token that is nothing of names.
    fn put_plain<'a>(
        &mut self,
        alloc: Global,
        token: &Lexeme,
        behind: &'a [Lexeme],
        out: &mut Output,
    ) -> Result<&'a [Lexeme], LibraryFault>
        ensures did { IfOk result (λ rest. Did (turns.plain self.old token.now behind.now) out.old rest.now
            self.new out.new) }
        ensures err { IfErr result (Refuses (put_all most_tokens (token.now ∷ []) out.old)) }
    {
        put_token(alloc, token, out)?;
        self.starts = false;
        Ok(behind)
    }

    /// Puts the size of a type, where a `)` follows it.
    fn put_size<'a>(
        &mut self,
        alloc: Global,
        token: &Lexeme,
        behind: &'a [Lexeme],
        size: Option<u64>,
        rest: &'a [Lexeme],
        out: &mut Output,
    ) -> Result<&'a [Lexeme], LibraryFault>
        ensures did { IfOk result (λ left. Did (turns.sizeof_by self.old token.now behind.now size rest.now) out.old
            left.now self.new out.new) }
        ensures err { IfErr result (Refuses (put_all most_tokens
            (turns.sizeof_by self.old token.now behind.now size rest.now).out out.old)) }
    {
        match size {
            Some(value) => {
                if begins(Mark::RightParen, rest) {
                    let form = Form::Number {
                        value,
                        kind: Kind::ULong,
                    };
                    put_form(token.offset, form, out)?;
                    self.starts = false;
                    Ok(behind_first(rest))
                } else {
                    self.put_plain(alloc, token, behind, out)
                }
            }
            None => self.put_plain(alloc, token, behind, out),
        }
    }

    /// Takes `sizeof` and a type in parentheses.
    fn take_sizeof<'a>(
        &mut self,
        alloc: Global,
        token: &Lexeme,
        behind: &'a [Lexeme],
        out: &mut Output,
    ) -> Result<&'a [Lexeme], LibraryFault>
        ensures did { IfOk result (λ rest. Did (turns.sizeof_turn self.old token.now behind.now) out.old rest.now
            self.new out.new) }
        ensures err { IfErr result (Refuses (put_all most_tokens
            (turns.sizeof_turn self.old token.now behind.now).out out.old)) }
    {
        if !begins(Mark::LeftParen, behind) {
            return self.put_plain(alloc, token, behind, out);
        }
        let (size, rest) = type_from(alloc, &self.scope, behind_first(behind))?;
        self.put_size(alloc, token, behind, size, rest, out)
    }

    /// Takes a keyword.
    fn take_key<'a>(
        &mut self,
        alloc: Global,
        token: &Lexeme,
        behind: &'a [Lexeme],
        key: Key,
        out: &mut Output,
    ) -> Result<&'a [Lexeme], LibraryFault>
        ensures did { IfOk result (λ rest. Did (turns.key_turn self.old token.now behind.now key) out.old rest.now
            self.new out.new) }
        ensures err { IfErr result (Refuses (put_all most_tokens
            (turns.key_turn self.old token.now behind.now key).out out.old)) }
    {
        match key {
            Key::Typedef => self.take_typedef_here(alloc, token, behind, out),
            Key::Enum => self.take_enum(alloc, token, behind, out),
            Key::Sizeof => self.take_sizeof(alloc, token, behind, out),
            _ => self.put_plain(alloc, token, behind, out),
        }
    }

    /// Takes the token of a header.
    fn take_header<'a>(
        &mut self,
        alloc: Global,
        token: &Lexeme,
        behind: &'a [Lexeme],
        name: &[u8],
        out: &mut Output,
    ) -> Result<&'a [Lexeme], LibraryFault>
        ensures did { IfOk result (λ rest. Did (turns.header_turn self.old.scope token.now behind.now name.now)
            out.old rest.now self.new out.new) }
        ensures err { IfErr result (Refuses (put_all most_tokens
            (turns.header_turn self.old.scope token.now behind.now name.now).out out.old)) }
    {
        if !goes(name) {
            put_token(alloc, token, out)?;
        }
        declare_types(alloc, types_of(name), &mut self.scope)?;
        self.starts = true;
        Ok(behind)
    }

    /// Puts what stands for a name.
    fn put_name<'a>(
        &mut self,
        alloc: Global,
        token: &Lexeme,
        behind: &'a [Lexeme],
        name: &[u8],
        out: &mut Output,
    ) -> Result<&'a [Lexeme], LibraryFault>
        ensures did { IfOk result (λ rest. Did (turns.own_turn self.old.scope token.now behind.now name.now) out.old
            rest.now self.new out.new) }
        ensures err { IfErr result (Refuses (put_all most_tokens
            (turns.own_turn self.old.scope token.now behind.now name.now).out out.old)) }
    {
        put_replaced(alloc, token, self.scope.look_up(name), out)?;
        self.starts = false;
        Ok(behind)
    }

    /// Takes a name, or a header.
    fn take_name<'a>(
        &mut self,
        alloc: Global,
        token: &Lexeme,
        behind: &'a [Lexeme],
        name: &[u8],
        out: &mut Output,
    ) -> Result<&'a [Lexeme], LibraryFault>
        ensures did { IfOk result (λ rest. Did (turns.name_turn self.old.scope token.now behind.now name.now) out.old
            rest.now self.new out.new) }
        ensures err { IfErr result (Refuses (put_all most_tokens
            (turns.name_turn self.old.scope token.now behind.now name.now).out out.old)) }
    {
        if is_header(name) {
            self.take_header(alloc, token, behind, name, out)
        } else {
            self.put_name(alloc, token, behind, name, out)
        }
    }

    /// Takes a punctuator.
    fn take_mark<'a>(
        &mut self,
        alloc: Global,
        token: &Lexeme,
        behind: &'a [Lexeme],
        mark: Mark,
        out: &mut Output,
    ) -> Result<&'a [Lexeme], LibraryFault>
        ensures did { IfOk result (λ rest. Did (turns.mark_turn self.old.scope token.now behind.now mark) out.old
            rest.now self.new out.new) }
        ensures err { IfErr result (Refuses (put_all most_tokens (token.now ∷ []) out.old)) }
    {
        put_token(alloc, token, out)?;
        self.scope.pass(mark)?;
        self.starts = starts_behind(mark);
        Ok(behind)
    }

    /// Takes `#include <stdio.h>`.
    fn take_include<'a>(
        &mut self,
        alloc: Global,
        token: &Lexeme,
        behind: &'a [Lexeme],
        out: &mut Output,
    ) -> Result<&'a [Lexeme], LibraryFault>
        ensures did { IfOk result (λ rest. Did (turns.include_turn self.old.scope token.now behind.now) out.old
            rest.now self.new out.new) }
        ensures err { IfErr result (Refuses (put_all most_tokens (token.now ∷ []) out.old)) }
    {
        put_token(alloc, token, out)?;
        declare_types(alloc, sizes(), &mut self.scope)?;
        self.starts = true;
        Ok(behind)
    }

    /// Takes the first tokens, puts what stands for them, and gives those behind them.
    pub fn take<'a>(
        &mut self,
        alloc: Global,
        token: &Lexeme,
        behind: &'a [Lexeme],
        out: &mut Output,
    ) -> Result<&'a [Lexeme], LibraryFault>
        ensures did { IfOk result (λ rest. Did (turns.turn_of self.old token.now behind.now) out.old rest.now
            self.new out.new) }
        ensures err { IfErr result (Refuses (put_all most_tokens
            (turns.turn_of self.old token.now behind.now).out out.old)) }
    {
        match &token.form {
            Form::Key(key) => self.take_key(alloc, token, behind, *key, out),
            Form::Name(name) => self.take_name(alloc, token, behind, name.as_slice(), out),
            Form::Mark(mark) => self.take_mark(alloc, token, behind, *mark, out),
            Form::Include => self.take_include(alloc, token, behind, out),
            _ => self.put_plain(alloc, token, behind, out),
        }
    }
}

/// May a declaration stand behind the punctuator?
fn starts_behind(mark: Mark) -> bool
    ensures { result ≡ turns.starts_behind mark }
{
    match mark {
        Mark::Semicolon | Mark::LeftBrace | Mark::RightBrace => true,
        _ => false,
    }
}

/// Puts what stands for a name.
fn put_replaced(
    alloc: Global,
    token: &Lexeme,
    found: Option<&[Piece]>,
    out: &mut Output,
) -> Result<(), LibraryFault>
    ensures { Gives (put_all most_tokens (turns.replaced token.now (option_map (λ ps. ps.now) found.entry)) out.old)
        result out.new }
{
    match found {
        None => put_token(alloc, token, out),
        Some(pieces) => put_spelled(token.offset, pieces, out),
    }
}
