//! What is left of an expression or a statement behind a part that has given its value, evaluated at once.

ghost use Rattle.std.specs.Prelude.{◌++◌, ◌∷◌, []};
ghost use Rattle.c_meaning_spec.specs.Call.{arguments};
ghost use Rattle.c_meaning_spec.specs.Expression as meant_expression;
ghost use Rattle.c_meaning_spec.specs.Statement as meant;
ghost use Rattle.c_meaning_spec.specs.Telling.{calling, telling};
ghost use Rattle.c_meaning.specs.inside.Ahead.{back_of};
ghost use Rattle.c_meaning.specs.inside.Direct.{Runs, Values};
ghost use Rattle.c_meaning.specs.inside.View.{behind, follow, follow_operand, view};

use crate::arguments::{Arguments, push_argument};
use crate::direct::{Ran, Stop};
use crate::frame::{Frame, Loop, Operand};
use crate::host::MOST_DEPTH;
use crate::store::Store;
use base::Boxed;
use c_constant::convert;
use c_meaning_spec::Signal;
use c_tree::{Callee, TypedExpr, TypedProgram, TypedStmt};

impl<'a> Store<'a> {
    // What follows the value of an operand.
    #[inline(never)]
    fn after_operand(
        &mut self,
        program: &'a TypedProgram,
        operand: Operand,
        right: &'a TypedExpr,
        w: u64,
    ) -> Option<u64>
        ensures { Values program.now
            (back_of program.now (follow_operand operand right.now) (Signal.Value w) (view self.old))
            self.new result }
    {
        match operand {
            Operand::Right { op, kind } => {
                self.right_value(program, op, kind, w, right, MOST_DEPTH)
            }
            Operand::OfAnd => {
                if w == 0 {
                    Some(0)
                } else {
                    self.truth_value(program, right, MOST_DEPTH)
                }
            }
            Operand::OfOr => {
                if w == 0 {
                    self.truth_value(program, right, MOST_DEPTH)
                } else {
                    Some(1)
                }
            }
            Operand::OfComma => self.same_value(program, right, MOST_DEPTH),
            Operand::Stored { op, to, at, place } => {
                self.assign_indexed(program, op, to, at, place, w, right, MOST_DEPTH)
            }
            Operand::StoredRow {
                op,
                to,
                at,
                place,
                row,
            } => self.assign_in_row(program, op, to, at, place, row, w, right, MOST_DEPTH),
            Operand::AfterRow(place) => { self.second_index(program, place, w, right, MOST_DEPTH) }
            Operand::BumpAfterRow { op, kind, place } => {
                self.bump_after_row(program, op, kind, place, w, right, MOST_DEPTH)
            }
        }
    }

    // The arguments after one.
    #[inline(never)]
    fn after_argument(
        &mut self,
        program: &'a TypedProgram,
        token: u32,
        callee: Callee,
        rest: &'a [Boxed<TypedExpr>],
        done: Arguments,
        w: u64,
    ) -> Option<u64>
        ensures { Values program.now
            (arguments (calling token (telling program.now)) program.now callee rest.now (done ++ w ∷ [])
            (view self.old))
            self.new result }
    {
        let mut list = done.into_scalars();
        match push_argument(&mut list, &mut self.spare_lists, w) {
            Ok(()) => self.call_value(program, token, callee, rest, &mut list, MOST_DEPTH),
            Err(_) => {
                self.stop = Stop::Memory;
                None
            }
        }
    }

    // The leg that a test chooses.
    fn leg(
        &mut self,
        program: &'a TypedProgram,
        first: &'a TypedExpr,
        other: &'a TypedExpr,
        w: u64,
    ) -> Option<u64>
        ensures { Values program.now
            (meant_expression.after_choice (telling program.now) first.now other.now (Signal.Value w)
            (view self.old)) self.new result }
    {
        if w == 0 {
            self.same_value(program, other, MOST_DEPTH)
        } else {
            self.same_value(program, first, MOST_DEPTH)
        }
    }

    /// The branch that a test chooses.
    pub fn branch(
        &mut self,
        program: &'a TypedProgram,
        first: &'a TypedStmt,
        other: Option<&'a TypedStmt>,
        w: u64,
    ) -> Ran
        ensures { Runs program.now
            (meant.after_if (telling program.now) first.now (behind other.entry) (Signal.Value w)
            (view self.old)) self.new result }
    {
        if w == 0 {
            match other {
                None => Ran::Nothing,
                Some(other) => self.run(program, other, MOST_DEPTH),
            }
        } else {
            self.run(program, first, MOST_DEPTH)
        }
    }

    /// The body of a loop where its test holds, and then its turns.
    #[inline(never)]
    pub fn body_after(&mut self, program: &'a TypedProgram, turn: Loop<'a>, w: u64) -> Ran
        ensures { Runs program.now
            (meant.after_test (telling program.now) (behind turn.entry.test) (behind turn.entry.post)
            turn.entry.body.now (Signal.Value w) (view self.old)) self.new result }
    {
        if w == 0 {
            Ran::Nothing
        } else {
            self.run_do(program, turn, MOST_DEPTH)
        }
    }

    /// The last part of a loop, and then its turns.
    #[inline(never)]
    pub fn post_after(&mut self, program: &'a TypedProgram, turn: Loop<'a>) -> Ran
        ensures { Runs program.now
            (meant.then_turn (telling program.now) (behind turn.entry.post) (behind turn.entry.test)
            (behind turn.entry.post) turn.entry.body.now (view self.old)) self.new result }
    {
        match self.run_post(program, turn, MOST_DEPTH) {
            Ran::Continues => self.run_loop(program, turn, MOST_DEPTH),
            Ran::Nothing => Ran::Nothing,
            Ran::Breaks => Ran::Breaks,
            Ran::Returns => Ran::Returns,
            Ran::Stops => Ran::Stops,
        }
    }

    /// What the frame of an expression makes of a value; of the other frames nothing is said.
    pub fn value_after(
        &mut self,
        program: &'a TypedProgram,
        frame: Frame<'a>,
        w: u64,
    ) -> Option<u64>
        ensures { Values program.now
            (back_of program.now (follow frame.entry) (Signal.Value w) (view self.old)) self.new result }
    {
        match frame {
            Frame::Converting(to) => Some(convert(to, w)),
            Frame::Unary { op, kind } => self.unary_given(program, op, kind, w),
            Frame::Element(place) => {
                let object = self.element_of(place, w);
                self.loaded(program, object)
            }
            Frame::RowElement { place, row } => {
                let object = self.row_element_of(place, row, w);
                self.loaded(program, object)
            }
            Frame::Argument {
                token,
                callee,
                rest,
                done,
            } => self.after_argument(program, token, callee, rest, done, w),
            Frame::Operand { operand, right } => self.after_operand(program, operand, right, w),
            Frame::Operated { op, kind, left } => { self.binary_given(program, op, kind, left, w) }
            Frame::Truth => if w == 0 { Some(0) } else { Some(1) },
            Frame::Valued => Some(w),
            Frame::Choice { first, other } => self.leg(program, first, other, w),
            Frame::Assigned(object) => self.put(program, object, w),
            Frame::Compounded {
                op,
                to,
                at,
                object,
                old,
            } => self.put_compound(program, op, to, at, object, old, w),
            Frame::BumpElement { op, kind, place } => {
                let object = self.element_of(place, w);
                self.bumped(program, op, kind, object)
            }
            Frame::BumpRow {
                op,
                kind,
                place,
                row,
            } => {
                let object = self.row_element_of(place, row, w);
                self.bumped(program, op, kind, object)
            }
            Frame::StoredAfterRow {
                op,
                to,
                at,
                place,
                index,
                right,
            } => { self.assign_after_row(program, op, to, at, place, w, index, right, MOST_DEPTH) }
            _ => {
                self.stop = Stop::Memory;
                None
            }
        }
    }
}
