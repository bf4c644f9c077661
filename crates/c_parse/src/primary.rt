//! Primary, postfix, unary and cast expressions (C17 6.5.1 to 6.5.4).

ghost use Rattle.std.specs.Prelude.{◌≡◌, suc, length, false, List, ℕ};
ghost use Rattle.c_grammar.specs.inside.Parsing as parsing;
ghost use Rattle.c_grammar.specs.inside.ModelExpressions as model;
ghost use Rattle.c_grammar.specs.inside.ModelOperators as operators;
ghost use Rattle.c_grammar.specs.inside.ModelPrimaries as primaries;
ghost use Rattle.c_grammar.specs.Operators.{sign, increase, decrease, prefix_mark};
ghost use Rattle.c_tree.specs.declared.token.Mark.TheVariants as marks;
ghost use Rattle.c_parse.specs.inside.Reads.{Reads, opened, IsSuffix, IsPrefix};

use crate::fault::Stopped;
use crate::make;
use crate::parser::Parser;
use base::{Boxed, Items};
use c_tree::{BumpOp, Expr, ExprNode, Form, Mark, UnaryOp, Word};

/// What stands before an operand.
#[derive(Clone, Copy, Debug, PartialEq, Eq)]
pub enum Before {
    Plus,
    Minus,
    Complement,
    Not,
    Increase,
    Decrease,
}

impl Parser<'_> {
    #[cycle(expression)]
    #[tactic(auto, unfolding(c_grammar::specs::inside::ModelPrimaries::group_of))]
    fn group(&mut self, left: u8) -> Result<Boxed<Expr>, Stopped>
        ensures { Reads (primaries.group_of (model.inside left) self.old.rest.now) result
            self.new.rest.now }
    {
        let offset = self.offset();
        let left = self.enter(Mark::LeftParen, left)?;
        let inner = self.expression(left)?;
        self.expect(Mark::RightParen)?;
        Ok(make::group(self.alloc, offset, inner)?)
    }

    /// An index in its brackets.
    #[cycle(expression)]
    #[tactic(auto, unfolding(c_grammar::specs::inside::ModelPrimaries::index_of))]
    fn index(&mut self, left: u8) -> Result<Boxed<Expr>, Stopped>
        ensures { Reads (primaries.index_of (model.inside left) self.old.rest.now) result
            self.new.rest.now }
    {
        let left = self.enter(Mark::LeftBracket, left)?;
        let index = self.expression(left)?;
        self.expect(Mark::RightBracket)?;
        Ok(index)
    }

    #[cycle(expression)]
    #[tactic(auto, unfolding(c_grammar::specs::inside::ModelPrimaries::second_of))]
    fn second_index(
        &mut self,
        left: u8,
        offset: u32,
        array: Word,
        row: Boxed<Expr>,
    ) -> Result<Boxed<Expr>, Stopped>
        ensures { Reads (primaries.second_of (model.inside left) offset array row self.old.rest.now)
            result self.new.rest.now }
    {
        let index = self.index(left)?;
        Ok(make::row_element(self.alloc, offset, array, row, index)?)
    }

    /// Behind the first index of an element: a second one, or what stands behind the element.
    #[cycle(expression)]
    #[tactic(auto, unfolding(c_grammar::specs::inside::ModelPrimaries::after_index))]
    fn after_index(
        &mut self,
        left: u8,
        offset: u32,
        array: Word,
        index: Boxed<Expr>,
    ) -> Result<Boxed<Expr>, Stopped>
        ensures { Reads (primaries.after_index (model.inside left) offset array index self.old.rest.now)
            result self.new.rest.now }
    {
        if self.is_next(Mark::LeftBracket) {
            return self.second_index(left, offset, array, index);
        }
        Ok(make::element(self.alloc, offset, array, index)?)
    }

    #[cycle(expression)]
    #[tactic(auto, unfolding(c_grammar::specs::inside::ModelPrimaries::element_of))]
    fn element(&mut self, left: u8, offset: u32, array: Word) -> Result<Boxed<Expr>, Stopped>
        ensures { Reads (primaries.element_of (model.inside left) offset array self.old.rest.now) result
            self.new.rest.now }
    {
        let index = self.index(left)?;
        self.after_index(left, offset, array, index)
    }

    #[cycle(expression)]
    #[tactic(auto, unfolding(c_grammar::specs::inside::ModelPrimaries::call_of))]
    fn call(&mut self, left: u8, offset: u32, function: Word) -> Result<Boxed<Expr>, Stopped>
        ensures { Reads (primaries.call_of (model.inside left) offset function self.old.rest.now) result
            self.new.rest.now }
    {
        let left = self.enter(Mark::LeftParen, left)?;
        let args = self.args(left)?;
        Ok(make::built(self.alloc, offset, ExprNode::Call { function, args })?)
    }

    /// Arguments up to the closing parenthesis.
    #[cycle(expression)]
    #[tactic(auto, unfolding(c_grammar::specs::inside::ModelPrimaries::args_of, c_grammar::specs::inside::ModelPrimaries::no_args_of))]
    fn args(&mut self, left: u8) -> Result<Items<Boxed<Expr>>, Stopped>
        ensures { Reads (primaries.args_of (opened left) self.old.rest.now) result self.new.rest.now }
    {
        if self.is_next(Mark::RightParen) {
            self.expect(Mark::RightParen)?;
            return Ok(Items::new(self.alloc));
        }
        self.arg_list(left)
    }

    #[cycle(expression)]
    fn arg_list(&mut self, left: u8) -> Result<Items<Boxed<Expr>>, Stopped>
        ensures { Reads (primaries.arg_list_of (opened left) self.old.rest.now) result
            self.new.rest.now }
    {
        let mut found = Items::new(self.alloc);
        let turns = self.rest.len() + 1;
        for _turn in 0..turns {
            let arg = self.assignment(left)?;
            found.push(arg)?;
            if self.is_next(Mark::Comma) {
                self.advance();
            } else {
                self.expect(Mark::RightParen)?;
                return Ok(found);
            }
        }
        Err(Stopped::Syntax)
    }

    #[cycle(expression)]
    #[tactic(auto, unfolding(c_grammar::specs::inside::ModelPrimaries::after_name))]
    fn after_name(&mut self, left: u8, offset: u32, name: Word) -> Result<Boxed<Expr>, Stopped>
        ensures { Reads (primaries.after_name (model.inside left) offset name self.old.rest.now) result
            self.new.rest.now }
    {
        if self.is_next(Mark::LeftBracket) {
            return self.element(left, offset, name);
        }
        if self.is_next(Mark::LeftParen) {
            return self.call(left, offset, name);
        }
        Ok(make::built(self.alloc, offset, ExprNode::Name(name))?)
    }

    #[cycle(expression)]
    #[tactic(auto, unfolding(c_grammar::specs::inside::ModelPrimaries::named_of))]
    fn named(&mut self, left: u8) -> Result<Boxed<Expr>, Stopped>
        ensures { Reads (primaries.named_of (model.inside left) self.old.rest.now) result
            self.new.rest.now }
    {
        let (offset, name) = self.name()?;
        self.after_name(left, offset, name)
    }

    fn number(&mut self) -> Result<Boxed<Expr>, Stopped>
        ensures { Reads (primaries.number_of self.old.rest.now) result self.new.rest.now }
    {
        let [lexeme, ..] = self.rest else {
            return Err(Stopped::Syntax);
        };
        let offset = lexeme.offset;
        match &lexeme.form {
            Form::Number { value, kind } => {
                let node = ExprNode::Number {
                    value: *value,
                    kind: *kind,
                };
                self.advance();
                Ok(make::built(self.alloc, offset, node)?)
            }
            _ => Err(Stopped::Syntax),
        }
    }

    #[cycle(expression)]
    #[tactic(auto, unfolding(c_grammar::specs::inside::ModelPrimaries::primary_of))]
    fn primary(&mut self, left: u8) -> Result<Boxed<Expr>, Stopped>
        ensures { Reads (primaries.primary_of (model.inside left) self.old.rest.now) result
            self.new.rest.now }
    {
        if self.is_name() {
            return self.named(left);
        }
        if self.is_next(Mark::LeftParen) {
            return self.group(left);
        }
        self.number()
    }

    /// The `++` or `--` that comes next.
    fn suffix(&self) -> Option<BumpOp>
        ensures { IsSuffix result (operators.seen operators.suffix_of self.now.rest.now) }
    {
        let [lexeme, ..] = self.rest else {
            return None;
        };
        match &lexeme.form {
            Form::Mark(Mark::PlusPlus) => Some(BumpOp::PostInc),
            Form::Mark(Mark::MinusMinus) => Some(BumpOp::PostDec),
            _ => None,
        }
    }

    #[cycle(expression)]
    #[tactic(auto, unfolding(c_grammar::specs::inside::ModelExpressions::postfix_of))]
    fn postfix(&mut self, left: u8) -> Result<Boxed<Expr>, Stopped>
        ensures { Reads (model.postfix_of (model.inside left) self.old.rest.now) result
            self.new.rest.now }
    {
        let mut whole = self.primary(left)?;
        while let Some(op) = self.suffix() {
            let place = self.offset();
            self.advance();
            let offset = whole.get().offset;
            whole = make::bump(self.alloc, offset, place, op, whole)?;
        }
        Ok(whole)
    }

    /// The operator before an operand that comes next.
    fn before(&self) -> Option<Before>
        ensures { IsPrefix result (operators.seen operators.prefix_of self.now.rest.now) }
    {
        let [lexeme, ..] = self.rest else {
            return None;
        };
        match &lexeme.form {
            Form::Mark(Mark::Plus) => Some(Before::Plus),
            Form::Mark(Mark::Minus) => Some(Before::Minus),
            Form::Mark(Mark::Tilde) => Some(Before::Complement),
            Form::Mark(Mark::Not) => Some(Before::Not),
            Form::Mark(Mark::PlusPlus) => Some(Before::Increase),
            Form::Mark(Mark::MinusMinus) => Some(Before::Decrease),
            _ => None,
        }
    }

    #[cycle(expression)]
    #[tactic(auto, unfolding(c_grammar::specs::inside::ModelExpressions::prefixed_of))]
    fn signed_by(&mut self, left: u8, mark: Mark, op: UnaryOp) -> Result<Boxed<Expr>, Stopped>
        requires { mark ≡ prefix_mark (sign op) }
        ensures { Reads (model.prefixed_of (model.inside left) (sign op) self.old.rest.now) result
            self.new.rest.now }
    {
        let offset = self.offset();
        let left = self.enter(mark, left)?;
        let operand = self.cast(left)?;
        Ok(make::unary(self.alloc, offset, op, operand)?)
    }

    #[cycle(expression)]
    #[tactic(auto, unfolding(c_grammar::specs::inside::ModelExpressions::prefixed_of))]
    fn increased(&mut self, left: u8) -> Result<Boxed<Expr>, Stopped>
        ensures { Reads (model.prefixed_of (model.inside left) increase self.old.rest.now) result
            self.new.rest.now }
    {
        let offset = self.offset();
        let left = self.enter(Mark::PlusPlus, left)?;
        let operand = self.unary(left)?;
        Ok(make::bump(self.alloc, offset, offset, BumpOp::PreInc, operand)?)
    }

    #[cycle(expression)]
    #[tactic(auto, unfolding(c_grammar::specs::inside::ModelExpressions::prefixed_of))]
    fn decreased(&mut self, left: u8) -> Result<Boxed<Expr>, Stopped>
        ensures { Reads (model.prefixed_of (model.inside left) decrease self.old.rest.now) result
            self.new.rest.now }
    {
        let offset = self.offset();
        let left = self.enter(Mark::MinusMinus, left)?;
        let operand = self.unary(left)?;
        Ok(make::bump(self.alloc, offset, offset, BumpOp::PreDec, operand)?)
    }

    #[cycle(expression)]
    #[tactic(auto, unfolding(c_grammar::specs::inside::ModelExpressions::unary_of))]
    pub fn unary(&mut self, left: u8) -> Result<Boxed<Expr>, Stopped>
        ensures { Reads (model.unary_of (model.inside left) self.old.rest.now) result
            self.new.rest.now }
    {
        match self.before() {
            Some(Before::Plus) => self.signed_by(left, Mark::Plus, UnaryOp::Plus),
            Some(Before::Minus) => self.signed_by(left, Mark::Minus, UnaryOp::Minus),
            Some(Before::Complement) => self.signed_by(left, Mark::Tilde, UnaryOp::Complement),
            Some(Before::Not) => self.signed_by(left, Mark::Not, UnaryOp::Not),
            Some(Before::Increase) => self.increased(left),
            Some(Before::Decrease) => self.decreased(left),
            None => self.postfix(left),
        }
    }

    /// Does a cast begin here, rather than a group?
    fn is_cast(&self) -> bool
        ensures { result ≡ model.is_cast self.now.rest.now }
    {
        if !self.is_next(Mark::LeftParen) {
            return false;
        }
        let [_, rest @ ..] = self.rest else {
            return false;
        };
        let behind = Parser {
            alloc: self.alloc,
            rest,
        };
        behind.begins_type()
    }

    #[cycle(expression)]
    #[tactic(auto, unfolding(c_grammar::specs::inside::ModelExpressions::cast_in))]
    fn converted(&mut self, left: u8) -> Result<Boxed<Expr>, Stopped>
        ensures { Reads (model.cast_in (model.inside left) self.old.rest.now) result
            self.new.rest.now }
    {
        let offset = self.offset();
        let left = self.enter(Mark::LeftParen, left)?;
        let (_, kind) = self.type_name()?;
        self.expect(Mark::RightParen)?;
        let operand = self.cast(left)?;
        Ok(make::cast(self.alloc, offset, kind, operand)?)
    }

    /// A cast expression. A name or a number that stands alone, as most do, is made at once.
    #[cycle(expression)]
    #[inline(always)]
    #[tactic(auto, using(crate::proofs::Operands::leaf_is))]
    pub fn operand(&mut self, left: u8) -> Result<Boxed<Expr>, Stopped>
        ensures { Reads (model.cast_of (model.inside left) self.old.rest.now) result
            self.new.rest.now }
    {
        if self.is_leaf() {
            return self.leaf();
        }
        self.cast(left)
    }

    #[cycle(expression)]
    #[tactic(auto, unfolding(c_grammar::specs::inside::ModelExpressions::cast_of))]
    pub fn cast(&mut self, left: u8) -> Result<Boxed<Expr>, Stopped>
        ensures { Reads (model.cast_of (model.inside left) self.old.rest.now) result
            self.new.rest.now }
    {
        if self.is_cast() {
            return self.converted(left);
        }
        self.unary(left)
    }
}
