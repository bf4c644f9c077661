//! Loops that are evaluated at once.

ghost use Rattle.c_tree.specs.declared.TypedForInit.{out-TypedForInit};
ghost use Rattle.c_meaning_spec.specs.inside.State.{then};
ghost use Rattle.c_meaning_spec.specs.Task.{Of, Run, Turn};
ghost use Rattle.c_meaning_spec.specs.Statement as meant;
ghost use Rattle.c_meaning_spec.specs.Telling.{telling};
ghost use Rattle.c_meaning.specs.inside.View.{behind, view};
ghost use Rattle.c_meaning.specs.inside.Direct.{Runs, Turned};

use crate::direct::{Ran, Stop};
use crate::frame::Loop;
use crate::host::LOOP;
use crate::store::Store;
use c_tree::{TypedExpr, TypedForInit, TypedProgram, TypedStmt};

impl<'a> Store<'a> {
    /// The last part of a loop, after which it turns again.
    #[cycle(parts)]
    #[inline(always)]
    pub fn run_post(&mut self, program: &'a TypedProgram, turn: Loop<'a>, depth: u32) -> Ran
        ensures { Turned program.now turn.entry
            (meant.then_turn (telling program.now) (behind turn.entry.post) (behind turn.entry.test)
            (behind turn.entry.post) turn.entry.body.now (view self.old)) self.new result }
    {
        match turn.post {
            None => Ran::Continues,
            Some(e) => match self.value_of(program, e, depth) {
                Some(_) => Ran::Continues,
                None => self.kept_post(program, e.at, turn),
            },
        }
    }

    /// The body of a loop, and its last part.
    #[cycle(parts)]
    #[inline(always)]
    pub fn run_body(&mut self, program: &'a TypedProgram, turn: Loop<'a>, depth: u32) -> Ran
        ensures { Turned program.now turn.entry
            (then (telling program.now (Run turn.entry.body.now) (view self.old))
            (meant.after_body (telling program.now) (behind turn.entry.test) (behind turn.entry.post)
            turn.entry.body.now)) self.new result }
    {
        match self.run(program, turn.body, depth) {
            Ran::Nothing => self.run_post(program, turn, depth),
            Ran::Continues => self.run_post(program, turn, depth),
            Ran::Breaks => Ran::Nothing,
            Ran::Returns => Ran::Returns,
            Ran::Stops => self.kept_body(program, turn),
        }
    }

    // The test of a loop, and its body where the test holds.
    #[cycle(parts)]
    #[inline(always)]
    fn run_test(
        &mut self,
        program: &'a TypedProgram,
        test: &'a TypedExpr,
        turn: Loop<'a>,
        depth: u32,
    ) -> Ran
        ensures { Turned program.now turn.entry
            (then (telling program.now (Of test.now) (view self.old))
            (meant.after_test (telling program.now) (behind turn.entry.test) (behind turn.entry.post)
            turn.entry.body.now)) self.new result }
    {
        match self.value_of(program, test, depth) {
            Some(w) => {
                if w == 0 {
                    Ran::Nothing
                } else {
                    self.run_body(program, turn, depth)
                }
            }
            None => self.kept_test(program, test.at, turn),
        }
    }

    // One turn of a loop.
    #[cycle(parts)]
    #[tactic(auto, using(crate::proofs::TaskMeanings::turn_is))]
    #[inline(always)]
    fn run_turn(&mut self, program: &'a TypedProgram, turn: Loop<'a>, depth: u32) -> Ran
        ensures { Turned program.now turn.entry
            (telling program.now (Turn (behind turn.entry.test) (behind turn.entry.post)
            turn.entry.body.now) (view self.old)) self.new result }
    {
        match turn.test {
            None => self.run_body(program, turn, depth),
            Some(test) => self.run_test(program, test, turn, depth),
        }
    }

    /// A loop from its test on.
    #[cycle(parts)]
    #[inline(never)]
    pub fn run_loop(&mut self, program: &'a TypedProgram, turn: Loop<'a>, depth: u32) -> Ran
        ensures { Runs program.now
            (telling program.now (Turn (behind turn.entry.test) (behind turn.entry.post)
            turn.entry.body.now) (view self.old)) self.new result }
    {
        let depth = depth.saturating_sub(LOOP);
        for _round in 0..u64::MAX {
            match self.run_turn(program, turn, depth) {
                Ran::Continues => {}
                Ran::Nothing => return Ran::Nothing,
                Ran::Breaks => return Ran::Breaks,
                Ran::Returns => return Ran::Returns,
                Ran::Stops => return Ran::Stops,
            }
        }
        self.stop = Stop::Memory;
        Ran::Stops
    }

    /// A loop whose body comes before its test.
    #[cycle(parts)]
    #[inline(never)]
    pub fn run_do(&mut self, program: &'a TypedProgram, turn: Loop<'a>, depth: u32) -> Ran
        ensures { Runs program.now
            (then (telling program.now (Run turn.entry.body.now) (view self.old))
            (meant.after_body (telling program.now) (behind turn.entry.test) (behind turn.entry.post)
            turn.entry.body.now)) self.new result }
    {
        let depth = depth.saturating_sub(LOOP);
        match self.run_body(program, turn, depth) {
            Ran::Continues => self.run_loop(program, turn, depth),
            Ran::Nothing => Ran::Nothing,
            Ran::Breaks => Ran::Breaks,
            Ran::Returns => Ran::Returns,
            Ran::Stops => Ran::Stops,
        }
    }

    /// A `for`.
    #[cycle(parts)]
    #[inline(never)]
    pub fn run_for(
        &mut self,
        program: &'a TypedProgram,
        init: &'a TypedForInit,
        turn: Loop<'a>,
        depth: u32,
    ) -> Ran
        ensures { Runs program.now
            (meant.begin (telling program.now) (out-TypedForInit init.now) (behind turn.entry.test)
            (behind turn.entry.post) turn.entry.body.now (view self.old)) self.new result }
    {
        let depth = depth.saturating_sub(LOOP);
        match init {
            TypedForInit::Nothing => self.run_loop(program, turn, depth),
            TypedForInit::First(e) => match self.value_of(program, e.get(), depth) {
                Some(_) => self.run_loop(program, turn, depth),
                None => self.kept_first(program, e.get().at, turn),
            },
            TypedForInit::Locals(all) => self.run_locals(program, all.as_slice(), turn, depth),
        }
    }

    /// The declarations of a `for`, and then its turns.
    #[cycle(parts)]
    #[inline(never)]
    pub fn run_locals(
        &mut self,
        program: &'a TypedProgram,
        all: &'a [TypedStmt],
        turn: Loop<'a>,
        depth: u32,
    ) -> Ran
        ensures { Runs program.now
            (meant.locals (telling program.now) all.now (behind turn.entry.test)
            (behind turn.entry.post) turn.entry.body.now (view self.old)) self.new result }
    {
        let depth = depth.saturating_sub(LOOP);
        let mut rest = all;
        while let Some((st, more)) = rest.split_first() {
            match self.run(program, st, depth) {
                Ran::Nothing => {
                    rest = more;
                }
                Ran::Breaks => return Ran::Breaks,
                Ran::Continues => return Ran::Continues,
                Ran::Returns => return Ran::Returns,
                Ran::Stops => return self.kept_locals(program, more, turn),
            }
        }
        self.run_loop(program, turn, depth)
    }
}
