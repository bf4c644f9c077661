//! What is told of where the evaluation stopped, on the way back from there.

ghost use Rattle.std.specs.Prelude.{◌≡◌, OnOk};
ghost use Rattle.c_meaning_spec.specs.State.{Result as Meant};
ghost use Rattle.c_meaning_spec.specs.Telling.{most_calls_told, through, with_call, with_place};
ghost use Rattle.c_meaning.specs.inside.View.{view};
ghost use Rattle.c_meaning.specs.inside.Direct.{Stopped, StoppedAt, through_if};

use crate::direct::Stop;
use crate::frame::Waiting;
use crate::store::Store;
use c_tree::TypedProgram;
use std::alloc::AllocError;

// At most so many open calls are told.
const MOST_CALLS_TOLD: usize = 20;

impl<'a> Store<'a> {
    /// The token of an expression that was not evaluated to its end, where none is told.
    pub fn mark_place(&mut self, token: u32)
        ensures told { view self.new ≡ record (view self.old) { told = with_place token (view self.old).told } }
        ensures stop { self.new.stop ≡ self.old.stop }
        ensures pending { self.new.pending ≡ self.old.pending }
    {
        if self.told_at.is_none() {
            self.told_at = Some(token);
        }
    }

    /// The token of a call whose body was not run to its end, while there is room for it.
    pub fn mark_call(&mut self, token: u32) -> Result<(), AllocError>
        ensures told { OnOk result (view self.new ≡ record (view self.old) {
          told = with_call token (view self.old).told;
        }) }
        ensures stop { self.new.stop ≡ self.old.stop }
        ensures pending { self.new.pending ≡ self.old.pending }
    {
        if self.told_calls.len() < MOST_CALLS_TOLD {
            self.told_calls.push(token)?;
        }
        Ok(())
    }

    /// The token of an expression that stopped: it is told where the evaluation ended and none is told yet, and waits
    /// where something is left to be evaluated before.
    pub fn place(&mut self, program: &'a TypedProgram, token: u32) -> Result<(), AllocError>
        ensures { OnOk result ((r : Meant) → StoppedAt program.now token r self.old
            → Stopped program.now r self.new) }
    {
        let stop = self.stop;
        match stop {
            Stop::Fails(_) => {
                self.mark_place(token);
                Ok(())
            }
            Stop::AtExpr(_) => {
                self.pending.push(Waiting::Place(token))?;
                Ok(())
            }
            Stop::AtStmt(_) => {
                self.pending.push(Waiting::Place(token))?;
                Ok(())
            }
            Stop::Gave => {
                self.pending.push(Waiting::Place(token))?;
                Ok(())
            }
            Stop::Memory => Ok(()),
        }
    }

    /// The token of a call whose body stopped, if the call has one; the same.
    pub fn through(
        &mut self,
        program: &'a TypedProgram,
        call: Option<u32>,
    ) -> Result<(), AllocError>
        ensures { OnOk result ((r : Meant) → Stopped program.now r self.old
            → Stopped program.now (through_if call r) self.new) }
    {
        match call {
            None => Ok(()),
            Some(token) => self.through_call(program, token),
        }
    }

    // The token of a call whose body stopped.
    fn through_call(&mut self, program: &'a TypedProgram, token: u32) -> Result<(), AllocError>
        ensures { OnOk result ((r : Meant) → Stopped program.now r self.old
            → Stopped program.now (through token r) self.new) }
    {
        let stop = self.stop;
        match stop {
            Stop::Fails(_) => {
                self.mark_call(token)?;
                Ok(())
            }
            Stop::AtExpr(_) => {
                self.pending.push(Waiting::Call(token))?;
                Ok(())
            }
            Stop::AtStmt(_) => {
                self.pending.push(Waiting::Call(token))?;
                Ok(())
            }
            Stop::Gave => {
                self.pending.push(Waiting::Call(token))?;
                Ok(())
            }
            Stop::Memory => Ok(()),
        }
    }
}
