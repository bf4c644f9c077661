//! What a frame makes of what the part before it gave.

ghost use Rattle.std.specs.Prelude.{IfOk, ◌++◌};
ghost use Rattle.c_meaning_spec.specs.inside.State.{then};
ghost use Rattle.c_meaning_spec.specs.Statement as meant;
ghost use Rattle.c_meaning_spec.specs.Statement.{bodies};
ghost use Rattle.c_meaning_spec.specs.Telling.{telling};
ghost use Rattle.c_meaning.specs.inside.Ahead.{back_of};
ghost use Rattle.c_meaning.specs.inside.Direct.{Leads};
ghost use Rattle.c_meaning.specs.inside.View.{behind, follow, view};

use crate::frame::{Frame, Loop, Move, Operand, Stage, Task};
use crate::host::MOST_DEPTH;
use crate::machine::Machine;
use c_meaning_spec::{Fault, Halt, Signal};
use c_tree::{TypedExpr, TypedProgram, TypedSection, TypedStmt};
use std::alloc::AllocError;

impl<'a> Machine<'a> {
    // What the frame of an expression makes of a value.
    #[inline(always)]
    fn after_expression(
        &mut self,
        program: &'a TypedProgram,
        frame: Frame<'a>,
        w: u64,
    ) -> Result<Move<'a>, AllocError>
        ensures { IfOk result (Leads program.now
            (back_of program.now (follow frame.entry) (Signal.Value w) (view self.old.store)) self.old self.new) }
    {
        let word = self.store.value_after(program, frame, w);
        let moved = self.valued(program, word)?;
        Ok(moved)
    }

    // A local is set.
    #[inline(never)]
    fn after_initial(
        &mut self,
        program: &'a TypedProgram,
        i: u32,
        w: u64,
    ) -> Result<Move<'a>, AllocError>
        ensures { IfOk result (Leads program.now
            (meant.initialised i (Signal.Value w) (view self.old.store)) self.old self.new) }
    {
        let x = self.store.initial(program, i, w);
        let moved = self.ran(program, x)?;
        Ok(moved)
    }

    // The branch that a test chooses.
    #[inline(never)]
    fn after_test(
        &mut self,
        program: &'a TypedProgram,
        first: &'a TypedStmt,
        other: Option<&'a TypedStmt>,
        w: u64,
    ) -> Result<Move<'a>, AllocError>
        ensures { IfOk result (Leads program.now
            (meant.after_if (telling program.now) first.now (behind other.entry) (Signal.Value w)
            (view self.old.store)) self.old self.new) }
    {
        let x = self.store.branch(program, first, other, w);
        let moved = self.ran(program, x)?;
        Ok(moved)
    }

    // The body of a loop whose test holds, and then its turns.
    #[inline(never)]
    fn after_loop_test(
        &mut self,
        program: &'a TypedProgram,
        turn: Loop<'a>,
        w: u64,
    ) -> Result<Move<'a>, AllocError>
        ensures { IfOk result (Leads program.now
            (meant.after_test (telling program.now) (behind turn.entry.test) (behind turn.entry.post)
            turn.entry.body.now (Signal.Value w) (view self.old.store)) self.old self.new) }
    {
        let x = self.store.body_after(program, turn, w);
        let moved = self.ran(program, x)?;
        Ok(moved)
    }

    // The statements of a switch from a label on.
    #[inline(never)]
    fn after_switch(
        &mut self,
        program: &'a TypedProgram,
        sections: &'a [TypedSection],
        w: u64,
    ) -> Result<Move<'a>, AllocError>
        ensures { IfOk result (Leads program.now
            (meant.after_switch (telling program.now) sections.now (Signal.Value w) (view self.old.store))
            self.old self.new) }
    {
        let x = self.store.run_labels(program, sections, w, MOST_DEPTH);
        let moved = self.ran(program, x)?;
        Ok(moved)
    }

    // What a frame makes of a value; those that take any signal are resumed by `resume`.
    #[inline(always)]
    fn with_value(
        &mut self,
        program: &'a TypedProgram,
        frame: Frame<'a>,
        w: u64,
    ) -> Result<Move<'a>, AllocError>
        ensures { IfOk result (Leads program.now
            (back_of program.now (follow frame.entry) (Signal.Value w) (view self.old.store)) self.old self.new) }
    {
        match frame {
            Frame::Initialised(i) => self.after_initial(program, i, w),
            Frame::If { first, other } => self.after_test(program, first, other, w),
            Frame::Turning {
                stage: Stage::Tests,
                rest: _,
                turn,
            } => self.after_loop_test(program, turn, w),
            Frame::Switch(sections) => self.after_switch(program, sections, w),
            Frame::Returning => Ok(Move::Give(Signal::Returns(Some(w)))),
            frame => self.after_expression(program, frame, w),
        }
    }

    // The statements after one that gave nothing.
    #[inline(never)]
    fn after_statement(
        &mut self,
        program: &'a TypedProgram,
        rest: &'a [TypedStmt],
        signal: Signal,
    ) -> Result<Move<'a>, AllocError>
        ensures { IfOk result (Leads program.now
            (meant.going_on signal (view self.old.store) (meant.sequence (telling program.now) rest.now))
            self.old self.new) }
    {
        match signal {
            Signal::Nothing => {
                let x = self.store.run_all(program, rest, MOST_DEPTH);
                let moved = self.ran(program, x)?;
                Ok(moved)
            }
            other => Ok(Move::Give(other)),
        }
    }

    // The declarations of a `for` after one, and then its turns.
    #[inline(never)]
    fn after_local(
        &mut self,
        program: &'a TypedProgram,
        rest: &'a [TypedStmt],
        turn: Loop<'a>,
        signal: Signal,
    ) -> Result<Move<'a>, AllocError>
        ensures { IfOk result (Leads program.now
            (meant.going_on signal (view self.old.store) (meant.locals (telling program.now) rest.now
            (behind turn.entry.test) (behind turn.entry.post) turn.entry.body.now))
            self.old self.new) }
    {
        match signal {
            Signal::Nothing => {
                let x = self.store.run_locals(program, rest, turn, MOST_DEPTH);
                let moved = self.ran(program, x)?;
                Ok(moved)
            }
            other => Ok(Move::Give(other)),
        }
    }

    // What follows the body of a loop.
    #[inline(never)]
    fn after_body(
        &mut self,
        program: &'a TypedProgram,
        turn: Loop<'a>,
        signal: Signal,
    ) -> Result<Move<'a>, AllocError>
        ensures { IfOk result (Leads program.now
            (meant.after_body (telling program.now) (behind turn.entry.test) (behind turn.entry.post)
            turn.entry.body.now signal (view self.old.store)) self.old self.new) }
    {
        match signal {
            Signal::Nothing => {
                let x = self.store.post_after(program, turn);
                let moved = self.ran(program, x)?;
                Ok(moved)
            }
            Signal::Continues => {
                let x = self.store.post_after(program, turn);
                let moved = self.ran(program, x)?;
                Ok(moved)
            }
            Signal::Breaks => Ok(Move::Give(Signal::Nothing)),
            other => Ok(Move::Give(other)),
        }
    }

    // What follows a statement of a switch: a `break` ends it.
    #[inline(never)]
    fn after_section(
        &mut self,
        program: &'a TypedProgram,
        rest: &'a [TypedStmt],
        behind: &'a [TypedSection],
        signal: Signal,
    ) -> Result<Move<'a>, AllocError>
        ensures { IfOk result (Leads program.now
            (then (meant.going_on signal (view self.old.store)
            (meant.sequence (telling program.now) (rest.now ++ bodies behind.now))) meant.after_sections)
            self.old self.new) }
    {
        match signal {
            Signal::Nothing => {
                let x = self.store.run_sections(program, rest, behind, MOST_DEPTH);
                let moved = self.ran(program, x)?;
                Ok(moved)
            }
            Signal::Breaks => Ok(Move::Give(Signal::Nothing)),
            other => Ok(Move::Give(other)),
        }
    }

    /// What a frame makes of what a part gave.
    pub fn resume(
        &mut self,
        program: &'a TypedProgram,
        frame: Frame<'a>,
        signal: Signal,
    ) -> Result<Move<'a>, AllocError>
        ensures { IfOk result (Leads program.now
            (back_of program.now (follow frame.entry) signal (view self.old.store)) self.old self.new) }
    {
        match frame {
            Frame::Operand {
                operand: Operand::OfComma,
                right,
            } => {
                let word = self.store.same_value(program, right, MOST_DEPTH);
                let moved = self.valued(program, word)?;
                Ok(moved)
            }
            Frame::Caller {
                is_main,
                scalars,
                caller,
            } => {
                let word = self.store.left(program, is_main, scalars, caller, signal);
                let moved = self.valued(program, word)?;
                Ok(moved)
            }
            Frame::Dropped => Ok(Move::Give(Signal::Nothing)),
            Frame::Sequence(rest) => { self.after_statement(program, rest, signal) }
            Frame::Turning {
                stage: Stage::Begins,
                rest,
                turn,
            } => { self.after_local(program, rest, turn, signal) }
            Frame::Turning {
                stage: Stage::Turns,
                rest: _,
                turn,
            } => Ok(Move::Do(Task::Turn(turn))),
            Frame::Turning {
                stage: Stage::Ran,
                rest: _,
                turn,
            } => { self.after_body(program, turn, signal) }
            Frame::Sections { rest, behind } => {
                self.after_section(program, rest, behind, signal)
            }
            frame => match signal {
                Signal::Value(w) => { self.with_value(program, frame, w) }
                _ => Ok(Move::End(Halt::Faults(Fault::NoValue))),
            },
        }
    }
}
