//! Operations on two operands, choices and commas that are evaluated at once.

ghost use Rattle.c_meaning_spec.specs.inside.State.{then};
ghost use Rattle.c_meaning_spec.specs.Task.{Of};
ghost use Rattle.c_meaning_spec.specs.Expression.{binary, operated, valued};
ghost use Rattle.c_meaning_spec.specs.Expression.{after_left, after_and, after_or, after_choice, after_comma};
ghost use Rattle.c_meaning_spec.specs.Expression as meant_expression;
ghost use Rattle.c_meaning_spec.specs.Telling.{telling};
ghost use Rattle.c_meaning.specs.inside.View.{view};
ghost use Rattle.c_meaning.specs.inside.Direct.{Values};

use crate::frame::{Frame, Operand};
use crate::host::OPERATION;
use crate::store::Store;
use c_tree::{BinaryOp, Kind, TypedExpr, TypedProgram};

impl<'a> Store<'a> {
    /// An operation on two operands, of which `&&` and `||` may do without the second.
    #[cycle(parts)]
    #[inline(always)]
    pub fn binary_value(
        &mut self,
        program: &'a TypedProgram,
        op: BinaryOp,
        left: &'a TypedExpr,
        right: &'a TypedExpr,
        depth: u32,
    ) -> Option<u64>
        ensures { Values program.now
            (binary (telling program.now) op left.now right.now (view self.old)) self.new result }
    {
        match op {
            BinaryOp::LogicalAnd => self.and_value(program, left, right, depth),
            BinaryOp::LogicalOr => self.or_value(program, left, right, depth),
            _ => self.operation_value(program, op, left, right, depth),
        }
    }

    // An operation whose operands are both evaluated.
    #[cycle(parts)]
    #[inline(always)]
    fn operation_value(
        &mut self,
        program: &'a TypedProgram,
        op: BinaryOp,
        left: &'a TypedExpr,
        right: &'a TypedExpr,
        depth: u32,
    ) -> Option<u64>
        ensures { Values program.now
            (then (telling program.now (Of left.now) (view self.old))
            (after_left (telling program.now) op left.now.kind right.now)) self.new result }
    {
        match self.value_of(program, left, depth) {
            Some(a) => self.right_value(program, op, left.kind, a, right, depth),
            None => self.held_left(program, left.at, op, left.kind, right),
        }
    }

    /// The right operand of an operation, and then the operation.
    #[cycle(parts)]
    #[inline(always)]
    pub fn right_value(
        &mut self,
        program: &'a TypedProgram,
        op: BinaryOp,
        kind: Option<Kind>,
        a: u64,
        right: &'a TypedExpr,
        depth: u32,
    ) -> Option<u64>
        ensures { Values program.now
            (then (telling program.now (Of right.now) (view self.old)) (operated op kind a)) self.new result }
    {
        match self.value_of(program, right, depth) {
            Some(b) => self.binary_given(program, op, kind, a, b),
            None => self.held_right(program, right.at, op, kind, a),
        }
    }

    /// The second side of `&&` and `||`, as 0 or 1.
    #[cycle(parts)]
    pub fn truth_value(
        &mut self,
        program: &'a TypedProgram,
        e: &'a TypedExpr,
        depth: u32,
    ) -> Option<u64>
        ensures { Values program.now
            (then (telling program.now (Of e.now) (view self.old)) meant_expression.truth) self.new result }
    {
        let depth = depth.saturating_sub(OPERATION);
        match self.value_of(program, e, depth) {
            Some(w) => if w == 0 { Some(0) } else { Some(1) },
            None => self.held(program, e.at, Frame::Truth),
        }
    }

    // `&&`.
    #[cycle(parts)]
    #[inline(never)]
    fn and_value(
        &mut self,
        program: &'a TypedProgram,
        left: &'a TypedExpr,
        right: &'a TypedExpr,
        depth: u32,
    ) -> Option<u64>
        ensures { Values program.now
            (then (telling program.now (Of left.now) (view self.old))
            (after_and (telling program.now) right.now)) self.new result }
    {
        let depth = depth.saturating_sub(OPERATION);
        match self.value_of(program, left, depth) {
            Some(w) => {
                if w == 0 {
                    Some(0)
                } else {
                    self.truth_value(program, right, depth)
                }
            }
            None => self.held_and(program, left.at, right),
        }
    }

    // `||`.
    #[cycle(parts)]
    #[inline(never)]
    fn or_value(
        &mut self,
        program: &'a TypedProgram,
        left: &'a TypedExpr,
        right: &'a TypedExpr,
        depth: u32,
    ) -> Option<u64>
        ensures { Values program.now
            (then (telling program.now (Of left.now) (view self.old))
            (after_or (telling program.now) right.now)) self.new result }
    {
        let depth = depth.saturating_sub(OPERATION);
        match self.value_of(program, left, depth) {
            Some(w) => {
                if w == 0 {
                    self.truth_value(program, right, depth)
                } else {
                    Some(1)
                }
            }
            None => self.held_or(program, left.at, right),
        }
    }

    /// An expression whose value is that of the whole.
    #[cycle(parts)]
    pub fn same_value(
        &mut self,
        program: &'a TypedProgram,
        e: &'a TypedExpr,
        depth: u32,
    ) -> Option<u64>
        ensures { Values program.now
            (then (telling program.now (Of e.now) (view self.old)) valued) self.new result }
    {
        let depth = depth.saturating_sub(OPERATION);
        match self.value_of(program, e, depth) {
            Some(w) => Some(w),
            None => self.held(program, e.at, Frame::Valued),
        }
    }

    /// `?:`.
    #[cycle(parts)]
    #[inline(never)]
    pub fn choice_value(
        &mut self,
        program: &'a TypedProgram,
        test: &'a TypedExpr,
        first: &'a TypedExpr,
        other: &'a TypedExpr,
        depth: u32,
    ) -> Option<u64>
        ensures { Values program.now
            (then (telling program.now (Of test.now) (view self.old))
            (after_choice (telling program.now) first.now other.now)) self.new result }
    {
        let depth = depth.saturating_sub(OPERATION);
        match self.value_of(program, test, depth) {
            Some(w) => {
                if w == 0 {
                    self.same_value(program, other, depth)
                } else {
                    self.same_value(program, first, depth)
                }
            }
            None => self.held(program, test.at, Frame::Choice { first, other }),
        }
    }

    /// A comma.
    #[cycle(parts)]
    #[inline(never)]
    pub fn comma_value(
        &mut self,
        program: &'a TypedProgram,
        left: &'a TypedExpr,
        right: &'a TypedExpr,
        depth: u32,
    ) -> Option<u64>
        ensures { Values program.now
            (then (telling program.now (Of left.now) (view self.old))
            (after_comma (telling program.now) right.now)) self.new result }
    {
        let depth = depth.saturating_sub(OPERATION);
        match self.value_of(program, left, depth) {
            Some(_) => self.same_value(program, right, depth),
            None => {
                let operand = Operand::OfComma;
                self.held(program, left.at, Frame::Operand { operand, right })
            }
        }
    }
}
