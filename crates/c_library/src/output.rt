//! The tokens that come out, of which there is room for as many as a text may have.

ghost use Rattle.std.specs.Prelude.{◌≡◌, []};
ghost use Rattle.c_tree.specs.Limits.{most_tokens};
ghost use Rattle.c_library.specs.Places.{token, tokens};
ghost use Rattle.c_library.specs.inside.Gives.{Gives};
ghost use Rattle.c_library.specs.inside.Puts.{put, put_all};

use crate::copy::form_copied;
use crate::fault::LibraryFault;
use c_tree::{Form, Lexeme, MOST_TOKENS};
use std::alloc::Global;
use std::marker::Model;

/// The tokens so far, which contracts see as their list.
#[derive(Drop)]
pub struct Output {
    tokens: Vec<Lexeme>,
}

impl Model for Output {
    ghost use Rattle.std.specs.Prelude.{List};
    ghost use Rattle.c_tree.specs.declared.Lexeme.{Lexeme};

    ghost Value = { List Lexeme };

    ghost view = { λ o. o.tokens.items };
}

impl Output {
    /// No token. It takes no memory.
    pub fn new(alloc: Global) -> Output
        ensures { result ≡ [] }
    {
        Output {
            tokens: Vec::new(alloc),
        }
    }

    /// The tokens, as a `Vec`. It takes no memory.
    pub fn into_vec(self) -> Vec<Lexeme>
        ensures { result.items ≡ self }
    {
        let Output { tokens } = self;
        tokens
    }

    /// Puts a form behind them, as a token at this place, if there is room.
    pub fn put(&mut self, at: u32, form: Form) -> Result<(), LibraryFault>
        ensures { Gives (put most_tokens (token at form) self.old) result self.new }
    {
        if self.tokens.len() < MOST_TOKENS {
            self.tokens.push(Lexeme { offset: at, form })?;
            Ok(())
        } else {
            Err(LibraryFault::TooManyTokens(at))
        }
    }

    /// Puts copies of these forms behind them, as tokens at this place, as long as there is room.
    pub fn put_all(&mut self, alloc: Global, at: u32, forms: &[Form]) -> Result<(), LibraryFault>
        ensures { Gives (put_all most_tokens (tokens at forms.now) self.old) result self.new }
    {
        let mut rest = forms;
        while let [form, more @ ..] = rest {
            self.put(at, form_copied(alloc, form)?)?;
            rest = more;
        }
        Ok(())
    }
}
