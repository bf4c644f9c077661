//! Parts that are evaluated at once, by recursion on the tree: what they come to, and what is put before what they
//! are a part of where they are not evaluated to their end.

ghost use Rattle.std.specs.Prelude.{OnOk};
ghost use Rattle.c_meaning_spec.specs.State.{Result as Meant, Go, given, with_some, load, store};
ghost use Rattle.c_meaning_spec.specs.inside.State.{then};
ghost use Rattle.c_meaning_spec.specs.declared.Signal.TheVariants.{Nothing};
ghost use Rattle.c_meaning_spec.specs.declared.Fault.TheVariants.{IllFormed};
ghost use Rattle.c_meaning_spec.specs.Word as words;
ghost use Rattle.c_meaning_spec.specs.Statement.{dropped};
ghost use Rattle.c_meaning_spec.specs.Task.{Of, Run};
ghost use Rattle.c_meaning_spec.specs.Telling.{telling};
ghost use Rattle.c_meaning.specs.inside.Ahead.{back_of};
ghost use Rattle.c_meaning.specs.inside.View.{view, follow};
ghost use Rattle.c_meaning.specs.inside.Direct.{Stopped, StoppedAt, Values, ValuesAt, Runs, Turned, through_if};

use crate::frame::{Frame, Loop, Waiting};
use crate::store::Store;
use crate::words::{binary_of, unary_of};
use c_meaning_spec::{Halt, Object};
use c_tree::{BinaryOp, Kind, TypedExpr, TypedProgram, TypedStmt, UnaryOp};
use std::alloc::AllocError;

/// Why a part was not evaluated to its end: the evaluation ends, an expression or a statement is to be evaluated
/// first and then what the frames of `Store::pending` say, of which the first follows it, a call gave no value to
/// these frames, or there is no memory.
#[derive(Clone, Copy)]
pub enum Stop<'a> {
    Fails(Halt),
    AtExpr(&'a TypedExpr),
    AtStmt(&'a TypedStmt),
    Gave,
    Memory,
}

/// What a statement comes to that is evaluated at once: a signal, of which `Store::returned` has the value, or it
/// stopped for a reason that `Store::stop` has.
#[derive(Clone, Copy)]
pub enum Ran {
    Nothing,
    Breaks,
    Continues,
    Returns,
    Stops,
}

impl<'a> Store<'a> {
    /// An expression that is left to be evaluated.
    #[tactic(auto, using(crate::proofs::Unwinds::unwound, crate::proofs::TaskMeanings::told_once))]
    #[inline(never)]
    pub fn leave_expr(&mut self, program: &'a TypedProgram, e: &'a TypedExpr) -> Option<u64>
        ensures { ValuesAt program.now e.now.at (telling program.now (Of e.now) (view self.old)) self.new result }
    {
        self.pending.clear();
        self.stop = Stop::AtExpr(e);
        None
    }

    /// A statement that is left to be evaluated.
    #[tactic(auto, using(crate::proofs::Unwinds::unwound))]
    #[inline(never)]
    pub fn leave_stmt(&mut self, program: &'a TypedProgram, st: &'a TypedStmt)
        ensures { Stopped program.now (telling program.now (Run st.now) (view self.old)) self.new }
    {
        self.pending.clear();
        self.stop = Stop::AtStmt(st);
    }

    // The frame of what follows, where something is left to be evaluated before it.
    #[tactic(auto, using(crate::proofs::Unwinds::one_more))]
    #[inline(always)]
    fn before(&mut self, program: &'a TypedProgram, frame: Frame<'a>) -> Result<(), AllocError>
        ensures { OnOk result ((r : Meant) → Stopped program.now r self.old
            → Stopped program.now (then r (back_of program.now (follow frame.entry))) self.new) }
    {
        let stop = self.stop;
        match stop {
            Stop::Fails(_) => Ok(()),
            Stop::AtExpr(_) => {
                self.pending.push(Waiting::Follows(frame))?;
                Ok(())
            }
            Stop::AtStmt(_) => {
                self.pending.push(Waiting::Follows(frame))?;
                Ok(())
            }
            Stop::Gave => {
                self.pending.push(Waiting::Follows(frame))?;
                Ok(())
            }
            Stop::Memory => Ok(()),
        }
    }

    // The same behind an expression.
    fn behind_expression(
        &mut self,
        program: &'a TypedProgram,
        token: u32,
        frame: Frame<'a>,
    ) -> Result<(), AllocError>
        ensures { OnOk result ((r : Meant) → StoppedAt program.now token r self.old
            → Stopped program.now (then r (back_of program.now (follow frame.entry))) self.new) }
    {
        self.place(program, token)?;
        self.before(program, frame)?;
        Ok(())
    }

    /// What follows a part of an expression that was not evaluated to its end and has no place of its own.
    #[inline(never)]
    pub fn held_on(&mut self, program: &'a TypedProgram, frame: Frame<'a>) -> Option<u64>
        ensures { (r : Meant) → Stopped program.now r self.old
            → Values program.now (then r (back_of program.now (follow frame.entry))) self.new result }
    {
        match self.before(program, frame) {
            Ok(()) => None,
            Err(_) => {
                self.stop = Stop::Memory;
                None
            }
        }
    }

    // The same behind the body of a call.
    fn behind_body(
        &mut self,
        program: &'a TypedProgram,
        call: Option<u32>,
        frame: Frame<'a>,
    ) -> Result<(), AllocError>
        ensures { OnOk result ((r : Meant) → Stopped program.now r self.old
            → Stopped program.now (then (through_if call r) (back_of program.now (follow frame.entry)))
            self.new) }
    {
        self.through(program, call)?;
        self.before(program, frame)?;
        Ok(())
    }

    /// What follows the body of a call, which was not run to its end.
    pub fn held_call(
        &mut self,
        program: &'a TypedProgram,
        call: Option<u32>,
        frame: Frame<'a>,
    ) -> Option<u64>
        ensures { (r : Meant) → Stopped program.now r self.old
            → Values program.now (then (through_if call r) (back_of program.now (follow frame.entry)))
            self.new result }
    {
        match self.behind_body(program, call, frame) {
            Ok(()) => None,
            Err(_) => {
                self.stop = Stop::Memory;
                None
            }
        }
    }

    /// What follows an expression that was not evaluated to its end, of another one in which it stands.
    #[inline(never)]
    pub fn held(&mut self, program: &'a TypedProgram, token: u32, frame: Frame<'a>) -> Option<u64>
        ensures { (r : Meant) → StoppedAt program.now token r self.old
            → Values program.now (then r (back_of program.now (follow frame.entry))) self.new result }
    {
        match self.behind_expression(program, token, frame) {
            Ok(()) => None,
            Err(_) => {
                self.stop = Stop::Memory;
                None
            }
        }
    }

    /// What follows a statement that was not evaluated to its end.
    #[inline(never)]
    pub fn kept(&mut self, program: &'a TypedProgram, frame: Frame<'a>) -> Ran
        ensures { (r : Meant) → Stopped program.now r self.old
            → Runs program.now (then r (back_of program.now (follow frame.entry))) self.new result }
    {
        match self.before(program, frame) {
            Ok(()) => Ran::Stops,
            Err(_) => {
                self.stop = Stop::Memory;
                Ran::Stops
            }
        }
    }

    /// What follows an expression of a statement.
    #[inline(never)]
    pub fn kept_at(&mut self, program: &'a TypedProgram, token: u32, frame: Frame<'a>) -> Ran
        ensures { (r : Meant) → StoppedAt program.now token r self.old
            → Runs program.now (then r (back_of program.now (follow frame.entry))) self.new result }
    {
        match self.behind_expression(program, token, frame) {
            Ok(()) => Ran::Stops,
            Err(_) => {
                self.stop = Stop::Memory;
                Ran::Stops
            }
        }
    }

    /// What follows an expression statement whose expression gave no value: nothing, where nothing waits between.
    #[tactic(auto, using(crate::proofs::Unwinds::plain_gave))]
    #[inline(never)]
    pub fn kept_plain(&mut self, program: &'a TypedProgram, token: u32) -> Ran
        ensures { (r : Meant) → StoppedAt program.now token r self.old
            → Runs program.now (then r dropped) self.new result }
    {
        let stop = self.stop;
        match stop {
            Stop::Gave => {
                if self.pending.len() == 0 {
                    Ran::Nothing
                } else {
                    self.kept_at(program, token, Frame::Dropped)
                }
            }
            _ => self.kept_at(program, token, Frame::Dropped),
        }
    }

    /// A call that gives no value.
    #[tactic(auto, using(crate::proofs::Unwinds::nothing_given))]
    #[inline(never)]
    pub fn give_nothing(&mut self, program: &'a TypedProgram) -> Option<u64>
        ensures { Values program.now (Go Nothing (view self.old)) self.new result }
    {
        self.pending.clear();
        self.stop = Stop::Gave;
        None
    }

    /// The same of a turn of a loop.
    #[inline(never)]
    pub fn kept_turn(&mut self, program: &'a TypedProgram, frame: Frame<'a>) -> Ran
        ensures { (r : Meant) (l : Loop) → Stopped program.now r self.old
            → Turned program.now l (then r (back_of program.now (follow frame.entry))) self.new result }
    {
        match self.before(program, frame) {
            Ok(()) => Ran::Stops,
            Err(_) => {
                self.stop = Stop::Memory;
                Ran::Stops
            }
        }
    }

    /// The same behind an expression.
    #[inline(never)]
    pub fn kept_turn_at(&mut self, program: &'a TypedProgram, token: u32, frame: Frame<'a>) -> Ran
        ensures { (r : Meant) (l : Loop) → StoppedAt program.now token r self.old
            → Turned program.now l (then r (back_of program.now (follow frame.entry))) self.new result }
    {
        match self.behind_expression(program, token, frame) {
            Ok(()) => Ran::Stops,
            Err(_) => {
                self.stop = Stop::Memory;
                Ran::Stops
            }
        }
    }

    /// An operation on two words.
    #[inline(always)]
    pub fn binary_given(
        &mut self,
        program: &'a TypedProgram,
        op: BinaryOp,
        kind: Option<Kind>,
        a: u64,
        b: u64,
    ) -> Option<u64>
        ensures { Values program.now (given (words.binary_of op kind a b) (words.binary_fault op kind a b)
            (view self.old)) self.new result }
    {
        match binary_of(op, kind, a, b) {
            Some(w) => Some(w),
            None => self.no_binary(program, op, kind, a, b),
        }
    }

    /// An operation on one word.
    #[inline(always)]
    pub fn unary_given(
        &mut self,
        program: &'a TypedProgram,
        op: UnaryOp,
        kind: Option<Kind>,
        a: u64,
    ) -> Option<u64>
        ensures { Values program.now (given (words.unary_of op kind a) (words.unary_fault op kind a)
            (view self.old)) self.new result }
    {
        match unary_of(op, kind, a) {
            Some(w) => Some(w),
            None => self.no_unary(program, op, kind, a),
        }
    }

    /// What an object holds.
    #[inline(always)]
    pub fn loaded_from(&mut self, program: &'a TypedProgram, object: Object) -> Option<u64>
        ensures { Values program.now (load object (view self.old)) self.new result }
    {
        match self.load(object) {
            Some(w) => Some(w),
            None => self.no_word(program, object),
        }
    }

    /// What an object holds, if there is the object.
    #[inline(always)]
    pub fn loaded(&mut self, program: &'a TypedProgram, object: Option<Object>) -> Option<u64>
        ensures { Values program.now
            (with_some object IllFormed (view self.old) (λ x. load x (view self.old))) self.new result }
    {
        match object {
            None => self.ill_formed(program),
            Some(object) => self.loaded_from(program, object),
        }
    }

    /// A word into an object.
    #[inline(always)]
    pub fn put(&mut self, program: &'a TypedProgram, object: Object, w: u64) -> Option<u64>
        ensures { Values program.now (store (view self.old) object w) self.new result }
    {
        if self.set(object, w) {
            Some(w)
        } else {
            self.no_word(program, object)
        }
    }
}
