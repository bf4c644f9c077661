//! What follows a part that stopped, taken over by the machine.

ghost use Rattle.std.specs.Prelude.{◌≡◌, ◌++◌, map, IfOk, OnOk};
ghost use Rattle.c_meaning_spec.specs.State.{Result as Reached};
ghost use Rattle.c_meaning.specs.inside.Direct.{Leads, Runs, Stopped, Values, ValuesAt};
ghost use Rattle.c_meaning.specs.inside.View.{frames, view, waits};

use crate::direct::{Ran, Stop};
use crate::frame::{Move, Task, Waiting};
use crate::store::Store;
use c_meaning_spec::Signal;
use c_tree::TypedProgram;
use std::alloc::AllocError;

/// An evaluation under way: what it goes over, and what follows.
#[derive(Drop)]
pub struct Machine<'a> {
    pub store: Store<'a>,
    pub stack: Vec<Waiting<'a>>,
}

impl<'a> Machine<'a> {
    // The frames of what is to follow a part that was not evaluated to its end come before those that stand there.
    #[tactic(auto, using(crate::proofs::EvaluatorLoop::turned_over))]
    fn stack_pending(&mut self) -> Result<(), AllocError>
        ensures kept { OnOk result (frames self.new.stack.items
            ≡ map waits self.old.store.pending.items ++ frames self.old.stack.items) }
        ensures same { OnOk result (view self.new.store ≡ view self.old.store) }
    {
        self.store.pending.reverse();
        self.stack.append(&mut self.store.pending)?;
        Ok(())
    }

    // What is to be done first where a part was not evaluated to its end.
    #[inline(never)]
    #[tactic(auto, using(crate::proofs::EvaluatorLoop::both_wait))]
    fn stopped(&mut self, program: &'a TypedProgram) -> Result<Move<'a>, AllocError>
        ensures { IfOk result (λ m. (r : Reached) → Stopped program.now r self.old.store
            → Leads program.now r self.old self.new m) }
    {
        let stop = self.store.stop;
        match stop {
            Stop::Fails(why) => Ok(Move::End(why)),
            Stop::AtExpr(e) => {
                self.stack_pending()?;
                Ok(Move::Do(Task::Of(e)))
            }
            Stop::AtStmt(st) => {
                self.stack_pending()?;
                Ok(Move::Do(Task::Run(st)))
            }
            Stop::Gave => {
                self.stack_pending()?;
                Ok(Move::Give(Signal::Nothing))
            }
            Stop::Memory => Err(AllocError),
        }
    }

    /// What an expression came to, as what is to be done next.
    #[inline(always)]
    pub fn valued(
        &mut self,
        program: &'a TypedProgram,
        word: Option<u64>,
    ) -> Result<Move<'a>, AllocError>
        ensures { IfOk result (λ m. (r : Reached) → Values program.now r self.old.store word
            → Leads program.now r self.old self.new m) }
    {
        match word {
            Some(w) => Ok(Move::Give(Signal::Value(w))),
            None => {
                let moved = self.stopped(program)?;
                Ok(moved)
            }
        }
    }

    /// The same of an expression whose place is not told yet.
    pub fn valued_at(
        &mut self,
        program: &'a TypedProgram,
        token: u32,
        word: Option<u64>,
    ) -> Result<Move<'a>, AllocError>
        ensures { IfOk result (λ m. (r : Reached) → ValuesAt program.now token r self.old.store word
            → Leads program.now r self.old self.new m) }
    {
        match word {
            Some(w) => Ok(Move::Give(Signal::Value(w))),
            None => {
                self.store.place(program, token)?;
                let moved = self.stopped(program)?;
                Ok(moved)
            }
        }
    }

    /// What a statement came to, as what is to be done next.
    #[inline(always)]
    pub fn ran(&mut self, program: &'a TypedProgram, x: Ran) -> Result<Move<'a>, AllocError>
        ensures { IfOk result (λ m. (r : Reached) → Runs program.now r self.old.store x
            → Leads program.now r self.old self.new m) }
    {
        match x {
            Ran::Nothing => Ok(Move::Give(Signal::Nothing)),
            Ran::Breaks => Ok(Move::Give(Signal::Breaks)),
            Ran::Continues => Ok(Move::Give(Signal::Continues)),
            Ran::Returns => Ok(Move::Give(Signal::Returns(self.store.returned))),
            Ran::Stops => {
                let moved = self.stopped(program)?;
                Ok(moved)
            }
        }
    }
}
