ghost use Rattle.std.specs.Prelude.{◌≡◌, ◌-◌, ◌++◌, [], map, false, Some, None, IfOk, OnOk};
ghost use Rattle.c_meaning_spec.specs.State.{Result as Reached};
ghost use Rattle.c_meaning_spec.specs.inside.State.{then};
ghost use Rattle.c_meaning_spec.specs.Call.{called as called_by};
ghost use Rattle.c_meaning_spec.specs.Eval.{global_row};
ghost use Rattle.c_meaning_spec.specs.Eval.{first_cells, length_of as length_in, start, outcome, fault, fault_of};
ghost use Rattle.c_meaning_spec.specs.Eval.{eval};
ghost use Rattle.c_meaning_spec.specs.Telling.{told, told_in, telling};
ghost use Rattle.c_meaning_spec.specs.Eval as meant;
ghost use Rattle.c_meaning_spec.specs.declared.Ending.TheVariants as Ending;
ghost use Rattle.c_tree.specs.declared.Kind.TheVariants.{Int};
ghost use Rattle.c_constant.specs.Kinds.{number, converted};
ghost use Rattle.c_meaning.specs.inside.Ahead.{Ended, Given, ahead_next, is_over as is_over_of, IsReached};
ghost use Rattle.c_meaning.specs.inside.View.{frames, next, task_of, view, waits};
ghost use Rattle.c_meaning.specs.inside.Direct.{Leads};
ghost use Rattle.c_meaning.specs.Answer.{answer};

use crate::arrays::Arrays;
use crate::direct::Stop;
use crate::frame::{Move, Task, Waiting};
use crate::host::MOST_DEPTH;
use crate::machine::Machine;
use crate::outcome::Outcome;
use crate::scalars::Scalars;
use crate::store::Store;
use base::{Items, Memory};
use c_meaning_spec::{Fault, Halt, Signal};
use c_tree::{Callee, TypedProgram};
use std::alloc::{AllocError, Global};

// How many cells a global has.
fn length_of(length: Option<u32>) -> usize
    ensures { result ≡ length_in length }
{
    match length {
        None => 1,
        Some(n) => n as usize,
    }
}

/// The globals at the start.
fn global_arrays(alloc: Global, program: &TypedProgram) -> Result<Arrays, AllocError>
    ensures { IfOk result (λ arrays. arrays ≡ map first_cells program.now.globals) }
{
    let mut arrays = Arrays::new(alloc);
    for g in program.globals.as_slice() {
        let zeros = length_of(g.length).saturating_sub(g.init.len());
        arrays.add_set(g.init.as_slice(), zeros)?;
    }
    Ok(arrays)
}

// The second sizes of the globals.
fn global_rows(alloc: Global, program: &TypedProgram) -> Result<Vec<Option<u32>>, AllocError>
    ensures { IfOk result (λ rows. rows.items ≡ map global_row program.now.globals) }
{
    let mut rows = Vec::new(alloc);
    for g in program.globals.as_slice() {
        rows.push(g.row)?;
    }
    Ok(rows)
}

// The state before the call of main.
fn first_store<'a>(
    alloc: Global,
    program: &TypedProgram,
    input: &'a [u8],
    n: u64,
) -> Result<Store<'a>, AllocError>
    ensures { IfOk result (λ s. view s ≡ start program.now input.now n) }
{
    let arrays = global_arrays(alloc, program)?;
    let rows = global_rows(alloc, program)?;
    Ok(Store {
        alloc,
        stock: n,
        input,
        output: Vec::new(alloc),
        scalars: Scalars::none(alloc),
        arrays,
        rows,
        base: 0,
        room: 0,
        stop: Stop::Memory,
        returned: None,
        pending: Vec::new(alloc),
        spare_lists: Vec::new(alloc),
        told_at: None,
        told_calls: Vec::new(alloc),
    })
}

/// A word as an int: its low 32 bits by sign.
fn int_of(w: u64) -> i32
    ensures { result ≡ number Int (converted Int w) }
{
    ((w % 0x1_0000_0000) as u32).cast_signed()
}

impl<'a> Machine<'a> {
    /// Whether nothing is left to be done.
    fn is_over(&self, now: &Move<'a>) -> bool
        ensures { result ≡ is_over_of (next now.now) (frames self.now.stack.items) }
    {
        match now {
            Move::Do(_) => false,
            Move::Give(_) => self.stack.len() == 0,
            Move::End(_) => self.stack.len() == 0,
        }
    }

    // A task is done, up to a call in it or to where it is too deep.
    fn perform(&mut self, program: &'a TypedProgram, task: Task<'a>) -> Result<Move<'a>, AllocError>
        ensures { IfOk result (Leads program.now (telling program.now (task_of task.entry) (view self.old.store))
            self.old self.new) }
    {
        match task {
            Task::Of(e) => {
                let word = self.store.value_of(program, e, MOST_DEPTH);
                let moved = self.valued_at(program, e.at, word)?;
                Ok(moved)
            }
            Task::Run(st) => {
                let x = self.store.run(program, st, MOST_DEPTH);
                let moved = self.ran(program, x)?;
                Ok(moved)
            }
            Task::Turn(turn) => {
                let x = self.store.run_loop(program, turn, MOST_DEPTH);
                let moved = self.ran(program, x)?;
                Ok(moved)
            }
        }
    }

    // What waits is taken off, where a signal is given.
    #[tactic(auto, using(crate::proofs::EvaluatorLoop::none_waits))]
    fn give(&mut self, program: &'a TypedProgram, signal: Signal) -> Result<Move<'a>, AllocError>
        requires { is_over_of (Given signal) (frames self.old.stack.items) ≡ false }
        ensures { IfOk result (λ m.
            ahead_next program.now (next m) (frames self.new.stack.items) (view self.new.store)
            ≡ ahead_next program.now (Given signal) (frames self.old.stack.items) (view self.old.store)) }
    {
        match self.stack.pop() {
            None => unreachable!(),
            Some(Waiting::Follows(frame)) => {
                let moved = self.resume(program, frame, signal)?;
                Ok(moved)
            }
            Some(Waiting::Place(_)) => Ok(Move::Give(signal)),
            Some(Waiting::Call(_)) => Ok(Move::Give(signal)),
        }
    }

    // What waits is taken off, where the evaluation has ended: of places and calls more is told.
    #[tactic(auto, using(crate::proofs::EvaluatorLoop::none_waits))]
    fn end(&mut self, program: &'a TypedProgram, why: Halt) -> Result<Move<'a>, AllocError>
        requires { is_over_of (Ended why) (frames self.old.stack.items) ≡ false }
        ensures { IfOk result (λ m.
            ahead_next program.now (next m) (frames self.new.stack.items) (view self.new.store)
            ≡ ahead_next program.now (Ended why) (frames self.old.stack.items) (view self.old.store)) }
    {
        match self.stack.pop() {
            None => unreachable!(),
            Some(Waiting::Follows(_)) => Ok(Move::End(why)),
            Some(Waiting::Place(token)) => {
                self.store.mark_place(token);
                Ok(Move::End(why))
            }
            Some(Waiting::Call(token)) => {
                self.store.mark_call(token)?;
                Ok(Move::End(why))
            }
        }
    }

    /// Some of what is to be done, after which as much is ahead.
    fn advance(&mut self, program: &'a TypedProgram, now: Move<'a>) -> Result<Move<'a>, AllocError>
        requires { is_over_of (next now) (frames self.old.stack.items) ≡ false }
        ensures { IfOk result (λ m.
            ahead_next program.now (next m) (frames self.new.stack.items) (view self.new.store)
            ≡ ahead_next program.now (next now.entry) (frames self.old.stack.items)
            (view self.old.store)) }
    {
        match now {
            Move::Do(task) => {
                let moved = self.perform(program, task)?;
                Ok(moved)
            }
            Move::Give(signal) => {
                let moved = self.give(program, signal)?;
                Ok(moved)
            }
            Move::End(why) => {
                let moved = self.end(program, why)?;
                Ok(moved)
            }
        }
    }

    /// All that is left to be done. There are at most 2^64 turns, of which each spends a step or takes a frame off.
    #[tactic(auto, using(crate::proofs::EvaluatorLoop::reached))]
    fn go(&mut self, program: &'a TypedProgram, start: Move<'a>) -> Result<Move<'a>, AllocError>
        ensures { IfOk result (λ m. IsReached (next m) (view self.new.store)
            (ahead_next program.now (next start.entry) (frames self.old.stack.items)
            (view self.old.store))) }
    {
        let mut now = start;
        for _round in 0..u64::MAX {
            if self.is_over(&now) {
                return Ok(now);
            }
            now = self.advance(program, now)?;
        }
        Err(AllocError)
    }

    /// The call of main.
    #[tactic(auto, using(crate::proofs::EvaluatorLoop::no_more))]
    fn run_main(&mut self, program: &'a TypedProgram) -> Result<Move<'a>, AllocError>
        requires { self.old.stack.items ≡ [] }
        ensures { IfOk result (λ m. IsReached (next m) (view self.new.store)
            (called_by (telling program.now) program.now (Callee.Func program.now.main) []
            (view self.old.store))) }
    {
        let mut list = Scalars::none(self.store.alloc);
        let word = self.store.begin_call(
            program,
            None,
            Callee::Func(program.main),
            &mut list,
            MOST_DEPTH,
        );
        let first = self.valued(program, word)?;
        let last = self.go(program, first)?;
        Ok(last)
    }
}

/// What comes of an evaluation that gives a result, from a stock of `n`.
fn done(store: Store, n: u64, value: i64) -> Outcome
    ensures { result ≡ answer None (view store.entry).told
        (meant.Done (view store.entry).output value (n - (view store.entry).stock)) }
{
    let steps = n.saturating_sub(store.stock);
    Outcome::Done {
        output: Items::from_vec(store.output),
        result: value,
        steps,
    }
}

/// What comes of an evaluation that is undefined.
fn undefined(store: Store, why: Fault) -> Outcome
    ensures { result ≡ answer (Some why) (view store.entry).told
        (meant.Stopped Ending.Undefined (view store.entry).output) }
{
    Outcome::Undefined {
        output: Items::from_vec(store.output),
        why,
        at: store.told_at,
        calls: Items::from_vec(store.told_calls),
    }
}

/// What comes of an evaluation for which no step is left.
fn unfinished(store: Store) -> Outcome
    ensures { result ≡ answer None (view store.entry).told
        (meant.Stopped Ending.More (view store.entry).output) }
{
    Outcome::More {
        output: Items::from_vec(store.output),
        at: store.told_at,
        calls: Items::from_vec(store.told_calls),
    }
}

/// What comes of an evaluation whose frames are too large.
fn too_deep(store: Store) -> Outcome
    ensures { result ≡ answer None (view store.entry).told
        (meant.Stopped Ending.Deep (view store.entry).output) }
{
    Outcome::Deep {
        output: Items::from_vec(store.output),
        at: store.told_at,
        calls: Items::from_vec(store.told_calls),
    }
}

/// The outcome of an evaluation that is over.
fn ended(now: Move, store: Store, n: u64) -> Result<Outcome, AllocError>
    ensures { IfOk result (λ o. (r : Reached) → IsReached (next now.entry) (view store.entry) r
        → o ≡ answer (fault_of r) (told_in r) (outcome n r)) }
{
    match now {
        Move::Give(Signal::Value(w)) => Ok(done(store, n, int_of(w) as i64)),
        Move::End(Halt::Exits(w)) => Ok(done(store, n, w.cast_signed())),
        Move::Give(_) => Ok(undefined(store, Fault::NoValue)),
        Move::End(Halt::NoStep) => Ok(unfinished(store)),
        Move::End(Halt::Faults(why)) => Ok(undefined(store, why)),
        Move::End(Halt::TooDeep) => Ok(too_deep(store)),
        Move::Do(_) => Err(AllocError),
    }
}

// An evaluation with an empty machine.
fn evaluate_from<'a>(
    program: &'a TypedProgram,
    machine: Machine<'a>,
    n: u64,
) -> Result<Outcome, AllocError>
    requires { machine.stack.items ≡ [] }
    ensures { IfOk result (λ o. (r : Reached)
        → r ≡ called_by (telling program.now) program.now (Callee.Func program.now.main) [] (view machine.entry.store)
        → o ≡ answer (fault_of r) (told_in r) (outcome n r)) }
{
    let mut machine = machine;
    let last = machine.run_main(program)?;
    let Machine { store, stack: _ } = machine;
    ended(last, store, n)
}

/// The evaluation of a program on an input with a stock of `n` steps: the definition's outcome, with the reason of one
/// that is undefined, and where it stopped. Want of memory is the only error.
///
/// What is to follow stands on a list where the recursion is deep, so the host's stack is bounded.
pub fn evaluate(
    alloc: Global,
    program: &TypedProgram,
    input: &[u8],
    n: u64,
) -> Result<Outcome, Memory>
    ensures ok { IfOk result (λ o. o ≡ answer (fault program.now input.now n)
        (told program.now input.now n) (eval program.now input.now n)) }
{
    let store = first_store(alloc, program, input, n)?;
    let machine = Machine {
        store,
        stack: Vec::new(alloc),
    };
    let outcome = evaluate_from(program, machine, n)?;
    Ok(outcome)
}
