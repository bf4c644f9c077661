//! Expressions that are evaluated at once, by recursion on their trees to a depth that is bounded.

ghost use Rattle.std.specs.Prelude.{◌≡◌, slice_get};
ghost use Rattle.c_tree.specs.TypedTrees.{node_of};
ghost use Rattle.c_meaning_spec.specs.State.{Go, spend, load};
ghost use Rattle.c_meaning_spec.specs.inside.State.{then};
ghost use Rattle.c_meaning_spec.specs.Task.{Of, name as name_of, element as element_in, after_row, row_element};
ghost use Rattle.c_meaning_spec.specs.Task.{is_array as is_array_in, has_length};
ghost use Rattle.c_meaning_spec.specs.Expression.{expression, node, opened, converting, unary};
ghost use Rattle.c_meaning_spec.specs.Telling.{calling, telling};
ghost use Rattle.c_meaning.specs.inside.View.{view};
ghost use Rattle.c_meaning.specs.inside.Direct.{Values, ValuesAt};

use crate::direct::Stop;
use crate::frame::Frame;
use crate::host::{EXPRESSION, OPERATION};
use crate::store::Store;
use c_constant::convert;
use c_meaning_spec::{Halt, Object, Signal};
use c_tree::{Kind, Place, TypedExpr, TypedNode, TypedProgram, UnaryOp};

// Whether a global is an array.
fn is_array(program: &TypedProgram, g: u32) -> bool
    ensures { result ≡ is_array_in (slice_get program.now.globals g) }
{
    match program.globals.as_slice().get(g as usize) {
        None => false,
        Some(global) => global.length.is_some(),
    }
}

impl<'a> Store<'a> {
    // The value of a name.
    fn name(&mut self, program: &'a TypedProgram, place: Place) -> Option<u64>
        ensures { Values program.now (name_of program.now place (view self.old)) self.new result }
    {
        match place {
            Place::Global(g) => {
                if is_array(program, g) {
                    Some(g as u64)
                } else {
                    self.loaded_from(program, Object::InArray(g as u64, 0))
                }
            }
            Place::Scalar(i) => self.loaded_from(program, Object::InScalar(i as u64)),
            Place::Array(a) => Some(self.base as u64 + a as u64),
        }
    }

    // A number spends its step.
    #[inline(always)]
    fn number(&mut self, program: &'a TypedProgram, w: u64) -> Option<u64>
        ensures { Values program.now (spend (view self.old) (λ u. Go (Signal.Value w) u)) self.new result }
    {
        if self.stock == 0 {
            self.stop = Stop::Fails(Halt::NoStep);
            None
        } else {
            self.stock -= 1;
            Some(w)
        }
    }

    // A scalar of the function spends its step.
    #[inline(always)]
    fn scalar(&mut self, program: &'a TypedProgram, i: u32) -> Option<u64>
        ensures { Values program.now (spend (view self.old) (λ u. load (Object.InScalar i) u))
            self.new result }
    {
        if self.stock == 0 {
            self.stop = Stop::Fails(Halt::NoStep);
            None
        } else {
            self.stock -= 1;
            match self.scalars.first(i) {
                Some(w) => Some(w),
                None => self.later_scalar(program, i),
            }
        }
    }

    // A scalar of the function that stands in none of the places, or is not set.
    #[inline(never)]
    fn later_scalar(&mut self, program: &'a TypedProgram, i: u32) -> Option<u64>
        ensures { Values program.now (load (Object.InScalar i) (view self.old)) self.new result }
    {
        self.loaded_from(program, Object::InScalar(i as u64))
    }

    /// An expression, which is left where it is too deep.
    #[cycle(parts)]
    #[tactic(auto, using(crate::proofs::TaskMeanings::scalar_placed))]
    #[inline(always)]
    pub fn value_of(
        &mut self,
        program: &'a TypedProgram,
        e: &'a TypedExpr,
        depth: u32,
    ) -> Option<u64>
        ensures { ValuesAt program.now e.now.at
            (telling program.now (Of e.now) (view self.old)) self.new result }
    {
        match &e.node {
            TypedNode::Number(w) => self.number(program, *w),
            TypedNode::Name(Place::Scalar(i)) => self.scalar(program, *i),
            _ => self.deeper_value(program, e, depth),
        }
    }

    // An expression that is no leaf, which is left where it is too deep.
    #[cycle(parts)]
    #[inline(never)]
    #[tactic(auto, using(crate::proofs::TaskMeanings::expression_placed))]
    fn deeper_value(
        &mut self,
        program: &'a TypedProgram,
        e: &'a TypedExpr,
        depth: u32,
    ) -> Option<u64>
        ensures { ValuesAt program.now e.now.at
            (telling program.now (Of e.now) (view self.old)) self.new result }
    {
        if depth < EXPRESSION {
            self.leave_expr(program, e)
        } else {
            self.whole_value(program, e, depth - EXPRESSION)
        }
    }

    // A conversion that typing adds costs nothing; the place of the whole is told of what is in it.
    #[cycle(parts)]
    #[inline(always)]
    fn whole_value(
        &mut self,
        program: &'a TypedProgram,
        e: &'a TypedExpr,
        depth: u32,
    ) -> Option<u64>
        ensures { Values program.now
            (expression (calling e.now.at (telling program.now)) program.now (node_of e.now) (view self.old))
            self.new result }
    {
        let token = e.at;
        match &e.node {
            TypedNode::Convert { to, e } => self.converted(program, token, *to, e.get(), depth),
            _ => self.spent(program, token, e, depth),
        }
    }

    // What stands in a conversion, which costs nothing.
    #[cycle(parts)]
    #[inline(always)]
    fn converted(
        &mut self,
        program: &'a TypedProgram,
        token: u32,
        to: Kind,
        e: &'a TypedExpr,
        depth: u32,
    ) -> Option<u64>
        ensures { Values program.now
            (then (node (calling token (telling program.now)) program.now (node_of e.now) (view self.old))
            (converting to)) self.new result }
    {
        match self.spent(program, token, e, depth) {
            Some(w) => Some(convert(to, w)),
            None => self.held_conversion(program, to),
        }
    }

    // A node spends its step first.
    #[cycle(parts)]
    #[inline(always)]
    fn spent(
        &mut self,
        program: &'a TypedProgram,
        token: u32,
        e: &'a TypedExpr,
        depth: u32,
    ) -> Option<u64>
        ensures { Values program.now
            (node (calling token (telling program.now)) program.now (node_of e.now) (view self.old)) self.new result }
    {
        if self.stock == 0 {
            {
                self.stop = Stop::Fails(Halt::NoStep);
                None
            }
        } else {
            self.stock -= 1;
            self.opened(program, token, e, depth)
        }
    }

    // A node after its step.
    #[cycle(parts)]
    #[tactic(auto, using(crate::proofs::TaskMeanings::binary_is, crate::proofs::TaskMeanings::assign_is, crate::proofs::TaskMeanings::bump_is))]
    #[inline(always)]
    fn opened(
        &mut self,
        program: &'a TypedProgram,
        token: u32,
        e: &'a TypedExpr,
        depth: u32,
    ) -> Option<u64>
        ensures { Values program.now
            (opened (calling token (telling program.now)) program.now (node_of e.now) (view self.old)) self.new result }
    {
        match &e.node {
            TypedNode::Number(w) => Some(*w),
            TypedNode::Name(place) => self.name(program, *place),
            TypedNode::Element { array, row, index } => match row {
                None => self.indexed_value(program, *array, index.get(), depth),
                Some(row) => self.row_value(program, *array, row.get(), index.get(), depth),
            },
            TypedNode::Call { function, args } => {
                self.first_argument(program, token, *function, args.as_slice(), depth)
            }
            TypedNode::Unary { op, e } => self.unary_value(program, *op, e.get(), depth),
            TypedNode::Cast { to, e } => self.cast_value(program, *to, e.get(), depth),
            TypedNode::Convert { to: _, e: _ } => self.ill_formed(program),
            TypedNode::Bump { op, e } => self.bump_value(program, *op, e.get(), depth),
            TypedNode::Binary { op, left, right } => {
                self.binary_value(program, *op, left.get(), right.get(), depth)
            }
            TypedNode::Choice { test, yes, no } => {
                self.choice_value(program, test.get(), yes.get(), no.get(), depth)
            }
            TypedNode::Assign {
                op,
                at,
                left,
                right,
            } => self.assign_value(program, *op, *at, left.get(), right.get(), depth),
            TypedNode::Comma { left, right } => {
                self.comma_value(program, left.get(), right.get(), depth)
            }
        }
    }

    // An element.
    #[cycle(parts)]
    #[inline(always)]
    fn indexed_value(
        &mut self,
        program: &'a TypedProgram,
        array: Place,
        index: &'a TypedExpr,
        depth: u32,
    ) -> Option<u64>
        ensures { Values program.now
            (then (telling program.now (Of index.now) (view self.old)) (element_in array)) self.new result }
    {
        match self.value_of(program, index, depth) {
            Some(w) => {
                let object = self.element_of(array, w);
                self.loaded(program, object)
            }
            None => self.held_element(program, index.at, array),
        }
    }

    // An element by two indexes.
    #[cycle(parts)]
    #[inline(never)]
    fn row_value(
        &mut self,
        program: &'a TypedProgram,
        array: Place,
        row: &'a TypedExpr,
        index: &'a TypedExpr,
        depth: u32,
    ) -> Option<u64>
        ensures { Values program.now
            (then (telling program.now (Of row.now) (view self.old))
            (after_row (telling program.now) array index.now)) self.new result }
    {
        let depth = depth.saturating_sub(OPERATION);
        match self.value_of(program, row, depth) {
            Some(i) => self.second_index(program, array, i, index, depth),
            None => self.held_row(program, row.at, array, index),
        }
    }

    /// An element by the word of its first index.
    #[cycle(parts)]
    #[inline(always)]
    pub fn second_index(
        &mut self,
        program: &'a TypedProgram,
        array: Place,
        row: u64,
        index: &'a TypedExpr,
        depth: u32,
    ) -> Option<u64>
        ensures { Values program.now
            (then (telling program.now (Of index.now) (view self.old)) (row_element array row)) self.new result }
    {
        match self.value_of(program, index, depth) {
            Some(j) => {
                let object = self.row_element_of(array, row, j);
                self.loaded(program, object)
            }
            None => self.held_row_element(program, index.at, array, row),
        }
    }

    // An operation on one operand.
    #[cycle(parts)]
    #[inline(never)]
    fn unary_value(
        &mut self,
        program: &'a TypedProgram,
        op: UnaryOp,
        e: &'a TypedExpr,
        depth: u32,
    ) -> Option<u64>
        ensures { Values program.now
            (then (telling program.now (Of e.now) (view self.old)) (unary op e.now.kind)) self.new result }
    {
        let depth = depth.saturating_sub(OPERATION);
        match self.value_of(program, e, depth) {
            Some(w) => self.unary_given(program, op, e.kind, w),
            None => self.held(program, e.at, Frame::Unary { op, kind: e.kind }),
        }
    }

    // A cast.
    #[cycle(parts)]
    #[inline(always)]
    fn cast_value(
        &mut self,
        program: &'a TypedProgram,
        to: Kind,
        e: &'a TypedExpr,
        depth: u32,
    ) -> Option<u64>
        ensures { Values program.now
            (then (telling program.now (Of e.now) (view self.old)) (converting to)) self.new result }
    {
        match self.value_of(program, e, depth) {
            Some(w) => Some(convert(to, w)),
            None => self.held_cast(program, e.at, to),
        }
    }
}
