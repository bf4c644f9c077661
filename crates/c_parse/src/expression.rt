//! Binary, conditional, assignment and comma expressions (C17 6.5.5 to 6.5.17).

ghost use Rattle.std.specs.Prelude.{◌≡◌, ◌≤◌, ◌<◌, length, [], ◌∷◌, MatchOption};
ghost use Rattle.c_grammar.specs.inside.ModelExpressions as model;
ghost use Rattle.c_grammar.specs.inside.ModelOperators as operators;
ghost use Rattle.c_grammar.specs.Operators.{Assigner, assigner_mark, assigner_op};
ghost use Rattle.c_parse.specs.inside.Operands as operands;
ghost use Rattle.c_parse.specs.inside.Reads as reads;
ghost use Rattle.c_parse.specs.inside.Reads.{Reads, joins_by, IsAssigner};

use crate::fault::Stopped;
use crate::make;
use crate::parser::Parser;
use base::Boxed;
use c_tree::{BinaryOp, Expr, ExprNode, Form, Mark, assigned_by, joined_by};

#[tactic(auto, unfolding(c_grammar::specs::inside::ModelOperators::is_unary))]
fn is_unary(e: &Expr) -> bool
    ensures { result ≡ operators.is_unary e.now }
{
    match &e.node {
        ExprNode::Cast { .. }
        | ExprNode::Binary { .. }
        | ExprNode::Choice { .. }
        | ExprNode::Assign { .. }
        | ExprNode::Comma { .. } => false,
        _ => true,
    }
}

/// A binary operator, and how many levels above a cast its right side is.
#[inline(always)]
fn joins(form: &Form) -> Option<(u8, BinaryOp)>
    ensures { result ≡ joins_by form.now }
{
    match form {
        Form::Mark(mark) => joined_by(*mark),
        _ => None,
    }
}

/// The operator with its level, if that is one of the levels from `below` to before `level`.
fn within(below: u8, level: u8, found: Option<(u8, BinaryOp)>) -> Option<(u8, BinaryOp)>
    ensures { MatchOption result (reads.Outside below level found)
        (reads.Inside below level found) }
{
    match found {
        Some((of, op)) => {
            if below <= of && of < level {
                Some((of, op))
            } else {
                None
            }
        }
        None => None,
    }
}

impl Parser<'_> {
    /// The operator that comes next, and how many levels above a cast its right side is.
    #[inline(always)]
    fn operator(&self) -> Option<(u8, BinaryOp)>
        ensures { result ≡ operators.seen joins_by self.now.rest.now }
    {
        match self.rest {
            [] => None,
            [lexeme, ..] => joins(&lexeme.form),
        }
    }

    /// What so many levels of binary operators above a cast join to a cast that was read.
    ///
    /// An operator joins all that was read so far: what binds tighter than it stands there already. So one
    /// operand is read once, and not once a level.
    #[cycle(expression)]
    fn joined(&mut self, left: u8, level: u8, first: Boxed<Expr>) -> Result<Boxed<Expr>, Stopped>
        requires { level ≤ 10 }
        ensures { Reads (operands.joined_of left level first self.old.rest.now) result
            self.new.rest.now }
    {
        let mut whole = first;
        let mut below = 0u8;
        while let Some((of, op)) = within(below, level, self.operator()) {
            let place = self.offset();
            self.advance();
            let right = self.binary(left, of)?;
            whole = make::binary(self.alloc, place, op, whole, right)?;
            below = of;
        }
        Ok(whole)
    }

    /// What so many levels of binary operators join to a cast, with no call where nothing is joined.
    #[cycle(expression)]
    #[inline(always)]
    fn behind_cast(
        &mut self,
        left: u8,
        level: u8,
        first: Boxed<Expr>,
    ) -> Result<Boxed<Expr>, Stopped>
        requires { level ≤ 10 }
        ensures { Reads (operands.joined_of left level first self.old.rest.now) result
            self.new.rest.now }
    {
        match within(0, level, self.operator()) {
            Some(_) => self.joined(left, level, first),
            None => Ok(first),
        }
    }

    /// A phrase of so many levels of binary operators above a cast.
    #[cycle(expression)]
    #[inline(always)]
    fn binary(&mut self, left: u8, level: u8) -> Result<Boxed<Expr>, Stopped>
        requires { level ≤ 10 }
        ensures { Reads (model.binary_of (model.inside left) level self.old.rest.now) result
            self.new.rest.now }
    {
        let first = self.operand(left)?;
        self.behind_cast(left, level, first)
    }

    #[cycle(expression)]
    #[tactic(auto, unfolding(c_grammar::specs::inside::ModelExpressions::chosen_of))]
    fn chosen(&mut self, left: u8, test: Boxed<Expr>) -> Result<Boxed<Expr>, Stopped>
        ensures { Reads (model.chosen_of (model.inside left) test self.old.rest.now) result
            self.new.rest.now }
    {
        let place = self.offset();
        let left = self.enter(Mark::Question, left)?;
        let yes = self.expression(left)?;
        self.expect(Mark::Colon)?;
        let no = self.conditional(left)?;
        Ok(make::choice(self.alloc, place, test, yes, no)?)
    }

    #[cycle(expression)]
    #[tactic(auto, unfolding(c_grammar::specs::inside::ModelExpressions::choice_from))]
    fn choice(&mut self, left: u8, test: Boxed<Expr>) -> Result<Boxed<Expr>, Stopped>
        ensures { Reads (model.choice_from (model.inside left) test self.old.rest.now) result
            self.new.rest.now }
    {
        if self.is_next(Mark::Question) {
            return self.chosen(left, test);
        }
        Ok(test)
    }

    #[cycle(expression)]
    #[tactic(auto, unfolding(c_grammar::specs::inside::ModelExpressions::conditional_of))]
    pub fn conditional(&mut self, left: u8) -> Result<Boxed<Expr>, Stopped>
        ensures { Reads (model.conditional_of (model.inside left) self.old.rest.now) result
            self.new.rest.now }
    {
        let test = self.binary(left, 10)?;
        self.choice(left, test)
    }

    /// The operator of an assignment to `to` that comes next, with its mark.
    fn assigner(&self, to: &Expr) -> Option<(Mark, Option<BinaryOp>)>
        ensures { IsAssigner result (operators.seen (operators.assigner_for to.now) self.now.rest.now) }
    {
        let [lexeme, ..] = self.rest else {
            return None;
        };
        if !is_unary(to) {
            return None;
        }
        assigner_of(&lexeme.form)
    }

    #[cycle(expression)]
    #[tactic(auto, unfolding(c_grammar::specs::inside::ModelExpressions::assigned_of))]
    fn assigned(
        &mut self,
        left: u8,
        mark: Mark,
        op: Option<BinaryOp>,
        to: Boxed<Expr>,
    ) -> Result<Boxed<Expr>, Stopped>
        ensures { (s : Assigner) → mark ≡ assigner_mark s → op ≡ assigner_op s
            → Reads (model.assigned_of (model.inside left) s to self.old.rest.now) result
            self.new.rest.now }
    {
        let place = self.offset();
        let left = self.enter(mark, left)?;
        let value = self.assignment(left)?;
        Ok(make::assignment(self.alloc, place, op, to, value)?)
    }

    #[cycle(expression)]
    #[tactic(auto, unfolding(c_grammar::specs::inside::ModelExpressions::assign_from))]
    fn assign(&mut self, left: u8, to: Boxed<Expr>) -> Result<Boxed<Expr>, Stopped>
        ensures { Reads (model.assign_from (model.inside left) to self.old.rest.now) result
            self.new.rest.now }
    {
        match self.assigner(to.get()) {
            Some((mark, op)) => self.assigned(left, mark, op, to),
            None => Ok(to),
        }
    }

    /// Does a mark come next at which an assignment expression ends?
    #[inline(always)]
    fn is_closed(&self) -> bool
        ensures { result ≡ operands.is_closed self.now.rest.now }
    {
        match self.rest {
            [] => false,
            [lexeme, ..] => closes(&lexeme.form),
        }
    }

    /// An assignment expression that begins with a cast that was read.
    #[cycle(expression)]
    #[inline(never)]
    #[tactic(auto, unfolding(crate::specs::inside::Operands::assignment_from))]
    fn assignment_from(&mut self, left: u8, first: Boxed<Expr>) -> Result<Boxed<Expr>, Stopped>
        ensures { Reads (operands.assignment_from left first self.old.rest.now) result
            self.new.rest.now }
    {
        let joined = self.behind_cast(left, 10, first)?;
        if self.is_closed() {
            return Ok(joined);
        }
        let whole = self.choice(left, joined)?;
        self.assign(left, whole)
    }

    #[cycle(expression)]
    #[inline(always)]
    pub fn assignment(&mut self, left: u8) -> Result<Boxed<Expr>, Stopped>
        ensures { Reads (model.assignment_of (model.inside left) self.old.rest.now) result
            self.new.rest.now }
    {
        let first = self.operand(left)?;
        if self.is_closed() {
            return Ok(first);
        }
        self.assignment_from(left, first)
    }

    #[cycle(expression)]
    pub fn expression(&mut self, left: u8) -> Result<Boxed<Expr>, Stopped>
        ensures { Reads (model.expression_of (model.inside left) self.old.rest.now) result
            self.new.rest.now }
    {
        let mut whole = self.assignment(left)?;
        while self.is_next(Mark::Comma) {
            let place = self.offset();
            self.advance();
            let right = self.assignment(left)?;
            whole = make::comma(self.alloc, place, whole, right)?;
        }
        Ok(whole)
    }
}

fn assigner_of(form: &Form) -> Option<(Mark, Option<BinaryOp>)>
    ensures { IsAssigner result (operators.assigner_of form.now) }
{
    match form {
        Form::Mark(mark) => assigner_by(*mark),
        _ => None,
    }
}

/// The mark with its operator, if it is that of an assignment.
#[tactic(auto, using(crate::proofs::Assigners::some_assigner, crate::proofs::Assigners::no_assigner))]
fn assigner_by(mark: Mark) -> Option<(Mark, Option<BinaryOp>)>
    ensures { IsAssigner result (operators.assigner_by mark) }
{
    match assigned_by(mark) {
        Some(op) => Some((mark, op)),
        None => None,
    }
}

/// Is it a mark at which an assignment expression ends?
#[inline(always)]
fn closes(form: &Form) -> bool
    ensures { result ≡ operands.closes form.now }
{
    match form {
        Form::Mark(mark) => matches!(
            mark,
            Mark::RightParen
                | Mark::RightBracket
                | Mark::RightBrace
                | Mark::Semicolon
                | Mark::Comma
                | Mark::Colon
        ),
        _ => false,
    }
}
