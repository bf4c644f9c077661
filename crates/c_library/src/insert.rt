//! The unit with the definitions that it needs.

ghost use Rattle.std.specs.Prelude.{◌≡◌, [], ◌∷◌, if◌then◌else◌, option_map};
ghost use Rattle.c_tree.specs.Limits.{most_tokens};
ghost use Rattle.c_library.specs.Headers as headers;
ghost use Rattle.c_library.specs.Library as library;
ghost use Rattle.c_library.specs.Walks as walks;
ghost use Rattle.c_library.specs.inside.Gives.{Gives};
ghost use Rattle.c_library.specs.inside.Placed.{one_defined, define_all, place_all};
ghost use Rattle.c_library.specs.inside.Puts.{put_all};

use crate::calls::{format_of, is_mark};
use crate::copy::form_copied;
use crate::definition::Definition;
use crate::fault::LibraryFault;
use crate::format::printf_name;
use crate::header::{Header, header_of, same_header};
use crate::output::Output;
use crate::walk::{Awaits, Walk};
use c_tree::{Form, Lexeme, Mark};
use std::alloc::Global;

impl Output {
    /// Puts a definition, if it is of this header.
    fn put_definition(
        &mut self,
        alloc: Global,
        at: u32,
        header: Header,
        definition: &Definition,
    ) -> Result<(), LibraryFault>
        ensures { Gives (put_all most_tokens (one_defined at header definition.now) self.old) result self.new }
    {
        if same_header(definition.header, header) {
            self.put_all(alloc, at, definition.forms.as_slice())
        } else {
            Ok(())
        }
    }

    /// Puts the definitions of a header.
    fn put_definitions(
        &mut self,
        alloc: Global,
        at: u32,
        header: Header,
        definitions: &[Definition],
    ) -> Result<(), LibraryFault>
        ensures { Gives (define_all most_tokens at header definitions.now self.old) result self.new }
    {
        match definitions {
            [] => Ok(()),
            [first, more @ ..] => {
                self.put_definitions(alloc, at, header, more)?;
                self.put_definition(alloc, at, header, first)
            }
        }
    }

    /// Puts a token as it is.
    #[tactic(auto, using(crate::proofs::Puts::one))]
    fn put_token(&mut self, alloc: Global, token: &Lexeme) -> Result<(), LibraryFault>
        ensures { Gives (put_all most_tokens (token.now ∷ []) self.old) result self.new }
    {
        self.put(token.offset, form_copied(alloc, &token.form)?)
    }

    /// Puts what stays of a header's token.
    fn put_header(
        &mut self,
        alloc: Global,
        header: Header,
        token: &Lexeme,
    ) -> Result<(), LibraryFault>
        ensures { Gives (put_all most_tokens (library.header_kept header token.now) self.old) result self.new }
    {
        match header {
            Header::Stdio => self.put_token(alloc, token),
            _ => Ok(()),
        }
    }

    /// Puts the definitions of a header, if it is the header's first token.
    #[tactic(auto, using(crate::proofs::Placed::defined_is))]
    fn put_first(
        &mut self,
        alloc: Global,
        at: u32,
        header: Header,
        definitions: &[Definition],
        walk: &Walk,
    ) -> Result<(), LibraryFault>
        ensures { Gives (put_all most_tokens (if headers.has_seen header walk.now.seen then []
            else library.defined_at at header definitions.now) self.old) result self.new }
    {
        if walk.seen.has(header) {
            Ok(())
        } else {
            self.put_definitions(alloc, at, header, definitions)
        }
    }

    /// Puts a name, or that of the function of a format.
    #[tactic(auto, using(crate::proofs::Puts::one))]
    fn put_named(
        &mut self,
        alloc: Global,
        call: Option<(u32, &[u8])>,
        token: &Lexeme,
    ) -> Result<(), LibraryFault>
        ensures { Gives (put_all most_tokens (library.named (option_map (λ c. (c.0, c.1.now)) call.entry) token.now)
            self.old) result self.new }
    {
        match call {
            None => self.put_token(alloc, token),
            Some((_, values)) => {
                let format = format_of(alloc, values)?;
                let name = printf_name(alloc, format.as_slice())?;
                self.put(token.offset, Form::Name(name))
            }
        }
    }

    /// Puts what stays of a token that is no header's.
    fn put_kept(
        &mut self,
        alloc: Global,
        awaits: Awaits,
        call: Option<(u32, &[u8])>,
        token: &Lexeme,
    ) -> Result<(), LibraryFault>
        ensures { Gives (put_all most_tokens (library.kept awaits (option_map (λ c. (c.0, c.1.now)) call.entry)
            token.now) self.old) result self.new }
    {
        match awaits {
            Awaits::Nothing => self.put_named(alloc, call, token),
            Awaits::Paren => self.put_token(alloc, token),
            Awaits::Literal => Ok(()),
            Awaits::Comma => {
                if is_mark(Mark::Comma, &token.form) {
                    Ok(())
                } else {
                    self.put_token(alloc, token)
                }
            }
        }
    }

    /// Puts what stands for a token.
    #[tactic(auto, using(crate::proofs::Puts::both))]
    fn put_here(
        &mut self,
        alloc: Global,
        definitions: &[Definition],
        walk: &Walk,
        token: &Lexeme,
        rest: &[Lexeme],
    ) -> Result<(), LibraryFault>
        ensures { Gives (put_all most_tokens (library.here definitions.now walk.now token.now rest.now
            (headers.header_of token.now.form)) self.old) result self.new }
    {
        match header_of(&token.form) {
            None => self.put_kept(alloc, walk.awaits, walk.call(token, rest), token),
            Some(header) => {
                self.put_header(alloc, header, token)?;
                self.put_first(alloc, token.offset, header, definitions, walk)
            }
        }
    }

    /// Puts what stands for each token.
    pub fn put_unit(
        &mut self,
        alloc: Global,
        definitions: &[Definition],
        walk: Walk,
        tokens: &[Lexeme],
    ) -> Result<(), LibraryFault>
        ensures { Gives (place_all most_tokens definitions.now walk tokens.now self.old) result self.new }
    {
        let mut walk = walk;
        let mut rest = tokens;
        while let [token, more @ ..] = rest {
            self.put_here(alloc, definitions, &walk, token, more)?;
            walk = walk.past(token, more);
            rest = more;
        }
        Ok(())
    }
}
