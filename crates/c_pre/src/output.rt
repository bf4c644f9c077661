//! The tokens so far.

ghost use Rattle.std.specs.Prelude.{Some};
ghost use Rattle.c_tree.specs.Limits.{most_tokens};
ghost use Rattle.c_pre.specs.Outputs.{counted, taken};
ghost use Rattle.c_pre.specs.inside.Gives.{Gives};

use crate::fault::PreFault;
use base::Items;
use c_tree::{Form, Lexeme, MOST_TOKENS};

/// The tokens so far, and how many these and the replaced names are.
#[derive(Drop)]
pub struct Output {
    pub tokens: Items<Lexeme>,
    pub count: usize,
}

impl Output {
    /// Counts one more, at this place.
    pub fn count(&mut self, at: u32) -> Result<(), PreFault>
        ensures { Gives (counted most_tokens at self.old) result self.new }
    {
        if self.count < MOST_TOKENS {
            self.count += 1;
            Ok(())
        } else {
            Err(PreFault::TooManyTokens(at))
        }
    }

    /// Adds a token at this place.
    pub fn put(&mut self, at: u32, form: Form) -> Result<(), PreFault>
        ensures { Gives (taken most_tokens at (Some form) self.old) result self.new }
    {
        self.count(at)?;
        self.tokens.push(Lexeme { offset: at, form })?;
        Ok(())
    }
}
