//! Names and numbers that stand alone (C17 6.5.1), as most operands do.

ghost use Rattle.std.specs.Prelude.{◌≡◌};
ghost use Rattle.c_parse.specs.inside.Operands as operands;
ghost use Rattle.c_parse.specs.inside.Reads.{Reads};

use crate::fault::Stopped;
use crate::make;
use crate::parser::Parser;
use base::Boxed;
use c_tree::{Expr, ExprNode, Form, Mark};

impl Parser<'_> {
    /// Does a name or a number come next, and nothing that makes more of it?
    #[inline(always)]
    pub fn is_leaf(&self) -> bool
        ensures { result ≡ operands.is_leaf self.now.rest.now }
    {
        match self.rest {
            [lexeme, next, ..] => is_atom(&lexeme.form) && ends_atom(&next.form),
            _ => false,
        }
    }

    /// A name or a number.
    #[inline(always)]
    pub fn leaf(&mut self) -> Result<Boxed<Expr>, Stopped>
        ensures { Reads (operands.leaf_of self.old.rest.now) result self.new.rest.now }
    {
        let [lexeme, rest @ ..] = self.rest else {
            return Err(Stopped::Syntax);
        };
        let offset = lexeme.offset;
        match &lexeme.form {
            Form::Name(word) => {
                let name = word.copy(self.alloc)?;
                self.rest = rest;
                Ok(make::built(self.alloc, offset, ExprNode::Name(name))?)
            }
            Form::Number { value, kind } => {
                let node = ExprNode::Number {
                    value: *value,
                    kind: *kind,
                };
                self.rest = rest;
                Ok(make::built(self.alloc, offset, node)?)
            }
            _ => Err(Stopped::Syntax),
        }
    }
}

/// Is it a name or a number?
#[inline(always)]
fn is_atom(form: &Form) -> bool
    ensures { result ≡ operands.is_atom form.now }
{
    matches!(form, Form::Name(_) | Form::Number { .. })
}

/// May an operand that is a name or a number end before it, rather than become an element, a call
/// or a change of a place?
#[inline(always)]
fn ends_atom(form: &Form) -> bool
    ensures { result ≡ operands.ends_atom form.now }
{
    match form {
        Form::Mark(mark) => !matches!(
            mark,
            Mark::LeftParen | Mark::LeftBracket | Mark::PlusPlus | Mark::MinusMinus
        ),
        _ => true,
    }
}
