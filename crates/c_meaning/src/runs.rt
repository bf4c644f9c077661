//! Statements that are evaluated at once, by recursion on their trees to a depth that is bounded.

ghost use Rattle.std.specs.Prelude.{◌≡◌, ◌++◌, slice_get};
ghost use Rattle.c_tree.specs.declared.TypedStmt.{out-TypedStmt};
ghost use Rattle.c_meaning_spec.specs.State.{store};
ghost use Rattle.c_meaning_spec.specs.inside.State.{then};
ghost use Rattle.c_meaning_spec.specs.Task.{Of, Run};
ghost use Rattle.c_meaning_spec.specs.Statement as meant;
ghost use Rattle.c_meaning_spec.specs.Statement.{bodies};
ghost use Rattle.c_meaning_spec.specs.Telling.{telling};
ghost use Rattle.c_meaning.specs.inside.View.{behind, view};
ghost use Rattle.c_meaning.specs.inside.Direct.{Runs};

use crate::compare::Compared;
use crate::direct::{Ran, Stop};
use crate::frame::{Frame, Loop};
use crate::host::{PLAIN, STATEMENT, SWITCH};
use crate::store::Store;
use base::Boxed;
use c_meaning_spec::{Fault, Halt, Object, Signal};
use c_tree::{Place, TypedExpr, TypedProgram, TypedSection, TypedStmt};

// The statement in the box, if there is one.
fn unboxed<'a>(st: &'a Option<Boxed<TypedStmt>>) -> Option<&'a TypedStmt>
    ensures { behind result ≡ st.now }
{
    match st {
        None => None,
        Some(st) => Some(st.get()),
    }
}

// The expression in the box, if there is one.
fn unboxed_expr<'a>(e: &'a Option<Boxed<TypedExpr>>) -> Option<&'a TypedExpr>
    ensures { behind result ≡ e.now }
{
    match e {
        None => None,
        Some(e) => Some(e.get()),
    }
}

impl<'a> Store<'a> {
    /// A word into a scalar, as its initial value.
    pub fn initial(&mut self, program: &'a TypedProgram, i: u32, w: u64) -> Ran
        ensures { Runs program.now
            (then (store (view self.old) (Object.InScalar i) w) meant.dropped) self.new result }
    {
        if self.set(Object::InScalar(i as u64), w) {
            Ran::Nothing
        } else {
            let fault = self.missing(Object::InScalar(i as u64));
            self.stop = Stop::Fails(Halt::Faults(fault));
            Ran::Stops
        }
    }

    // An expression statement.
    #[cycle(parts)]
    #[inline(always)]
    fn run_plain(&mut self, program: &'a TypedProgram, e: &'a TypedExpr, depth: u32) -> Ran
        ensures { Runs program.now
            (then (telling program.now (Of e.now) (view self.old)) meant.dropped) self.new result }
    {
        match self.value_of(program, e, depth) {
            Some(_) => Ran::Nothing,
            None => self.kept_plain(program, e.at),
        }
    }

    // A return of a value.
    #[cycle(parts)]
    #[inline(always)]
    fn run_return(&mut self, program: &'a TypedProgram, e: &'a TypedExpr, depth: u32) -> Ran
        ensures { Runs program.now
            (then (telling program.now (Of e.now) (view self.old)) meant.returning) self.new result }
    {
        match self.value_of(program, e, depth) {
            Some(w) => {
                self.returned = Some(w);
                Ran::Returns
            },
            None => self.kept_return(program, e.at),
        }
    }

    // A local's initialiser.
    #[cycle(parts)]
    fn run_initial(
        &mut self,
        program: &'a TypedProgram,
        i: u32,
        e: &'a TypedExpr,
        depth: u32,
    ) -> Ran
        ensures { Runs program.now
            (then (telling program.now (Of e.now) (view self.old)) (meant.initialised i)) self.new result }
    {
        match self.value_of(program, e, depth) {
            Some(w) => self.initial(program, i, w),
            None => self.kept_initial(program, e.at, i),
        }
    }

    // The declaration of an array.
    fn run_array(&mut self, program: &'a TypedProgram, at: u64) -> Ran
        ensures { Runs program.now
            (meant.unset_row at (slice_get (view self.old).arrays at) (view self.old)) self.new result }
    {
        match self.arrays.unset(at) {
            Err(_) => {
                self.stop = Stop::Memory;
                Ran::Stops
            }
            Ok(there) => if there {
                Ran::Nothing
            } else {
                self.stop = Stop::Fails(Halt::Faults(Fault::IllFormed));
                Ran::Stops
            },
        }
    }

    // A local is unset, and then initialised.
    #[cycle(parts)]
    #[inline(never)]
    fn run_declare(
        &mut self,
        program: &'a TypedProgram,
        place: Place,
        init: Option<&'a TypedExpr>,
        depth: u32,
    ) -> Ran
        ensures { Runs program.now
            (meant.declare (telling program.now) place (behind init.entry) (view self.old)) self.new result }
    {
        let depth = depth.saturating_sub(PLAIN);
        match place {
            Place::Scalar(i) => {
                if self.unset_scalar(i as u64) {
                    match init {
                        None => Ran::Nothing,
                        Some(e) => self.run_initial(program, i, e, depth),
                    }
                } else {
                    self.stop = Stop::Fails(Halt::Faults(Fault::IllFormed));
                    Ran::Stops
                }
            }
            Place::Array(a) => match init {
                None => self.run_array(program, self.base as u64 + a as u64),
                Some(_) => {
                    self.stop = Stop::Fails(Halt::Faults(Fault::IllFormed));
                    Ran::Stops
                },
            },
            Place::Global(_) => {
                self.stop = Stop::Fails(Halt::Faults(Fault::IllFormed));
                Ran::Stops
            },
        }
    }

    /// A statement, which is left where it is too deep.
    #[cycle(parts)]
    #[tactic(auto, using(crate::proofs::TaskMeanings::run_is))]
    pub fn run(&mut self, program: &'a TypedProgram, st: &'a TypedStmt, depth: u32) -> Ran
        ensures { Runs program.now
            (telling program.now (Run st.now) (view self.old)) self.new result }
    {
        if depth < STATEMENT {
            self.leave_stmt(program, st);
            Ran::Stops
        } else if self.stock == 0 {
            {
                self.stop = Stop::Fails(Halt::NoStep);
                Ran::Stops
            }
        } else {
            self.stock -= 1;
            self.begun(program, st, depth - STATEMENT)
        }
    }

    // A statement after its step.
    #[cycle(parts)]
    #[inline(always)]
    fn begun(&mut self, program: &'a TypedProgram, st: &'a TypedStmt, depth: u32) -> Ran
        ensures { Runs program.now
            (meant.begun (telling program.now) (out-TypedStmt st.now) (view self.old)) self.new result }
    {
        match st {
            TypedStmt::Declare { place, init } => self.run_declare(
                program,
                *place,
                unboxed_expr(init),
                depth,
            ),
            TypedStmt::Plain(None) => Ran::Nothing,
            TypedStmt::Plain(Some(e)) => self.run_plain(program, e.get(), depth),
            TypedStmt::Compound(all) => self.run_all(program, all.as_slice(), depth),
            TypedStmt::If { test, yes, no } => {
                self.run_if(program, test.get(), yes.get(), unboxed(no), depth)
            }
            TypedStmt::While { test, body } => {
                let turn = Loop {
                    test: Some(test.get()),
                    post: None,
                    body: body.get(),
                };
                self.run_loop(program, turn, depth)
            }
            TypedStmt::Do { body, test } => {
                let turn = Loop {
                    test: Some(test.get()),
                    post: None,
                    body: body.get(),
                };
                self.run_do(program, turn, depth)
            }
            TypedStmt::For {
                init,
                test,
                post,
                body,
            } => {
                let turn = Loop {
                    test: unboxed_expr(test),
                    post: unboxed_expr(post),
                    body: body.get(),
                };
                self.run_for(program, init, turn, depth)
            }
            TypedStmt::Switch {
                scalar: _,
                test,
                sections,
            } => self.run_switch(program, test.get(), sections.as_slice(), depth),
            TypedStmt::Break => Ran::Breaks,
            TypedStmt::Continue => Ran::Continues,
            TypedStmt::Return(None) => {
                self.returned = None;
                Ran::Returns
            },
            TypedStmt::Return(Some(e)) => self.run_return(program, e.get(), depth),
        }
    }

    /// Statements one after another.
    #[cycle(parts)]
    #[inline(never)]
    pub fn run_all(&mut self, program: &'a TypedProgram, all: &'a [TypedStmt], depth: u32) -> Ran
        ensures { Runs program.now
            (meant.sequence (telling program.now) all.now (view self.old)) self.new result }
    {
        let depth = depth.saturating_sub(PLAIN);
        let mut rest = all;
        while let Some((st, more)) = rest.split_first() {
            match self.run(program, st, depth) {
                Ran::Nothing => {
                    rest = more;
                }
                Ran::Breaks => return Ran::Breaks,
                Ran::Continues => return Ran::Continues,
                Ran::Returns => return Ran::Returns,
                Ran::Stops => return self.kept_rest(program, more),
            }
        }
        Ran::Nothing
    }

    // An `if`.
    #[cycle(parts)]
    #[inline(never)]
    fn run_if(
        &mut self,
        program: &'a TypedProgram,
        test: &'a TypedExpr,
        first: &'a TypedStmt,
        other: Option<&'a TypedStmt>,
        depth: u32,
    ) -> Ran
        ensures { Runs program.now
            (then (telling program.now (Of test.now) (view self.old))
            (meant.after_if (telling program.now) first.now (behind other.entry))) self.new result }
    {
        let depth = depth.saturating_sub(PLAIN);
        match self.value_of(program, test, depth) {
            Some(w) => {
                if w == 0 {
                    match other {
                        None => Ran::Nothing,
                        Some(other) => self.run(program, other, depth),
                    }
                } else {
                    self.run(program, first, depth)
                }
            }
            None => self.kept_if(program, test.at, first, other),
        }
    }

    // A switch.
    #[cycle(parts)]
    #[inline(never)]
    fn run_switch(
        &mut self,
        program: &'a TypedProgram,
        test: &'a TypedExpr,
        sections: &'a [TypedSection],
        depth: u32,
    ) -> Ran
        ensures { Runs program.now
            (then (telling program.now (Of test.now) (view self.old))
            (meant.after_switch (telling program.now) sections.now)) self.new result }
    {
        let depth = depth.saturating_sub(SWITCH);
        match self.value_of(program, test, depth) {
            Some(w) => self.run_labels(program, sections, w, depth),
            None => self.kept_at(program, test.at, Frame::Switch(sections)),
        }
    }

    /// The statements of a switch from the label on that is equal to the word, from `default` on, or none.
    #[cycle(parts)]
    pub fn run_labels(
        &mut self,
        program: &'a TypedProgram,
        sections: &'a [TypedSection],
        w: u64,
        depth: u32,
    ) -> Ran
        ensures { Runs program.now
            (meant.after_switch (telling program.now) sections.now (Signal.Value w) (view self.old)) self.new result }
    {
        match self.find_label(program, sections, w) {
            Compared::Passed(here) => self.run_sections(program, &[], here, depth),
            Compared::Found => Ran::Nothing,
            Compared::Spent => {
                self.stop = Stop::Fails(Halt::NoStep);
                Ran::Stops
            },
        }
    }

    /// Statements of a section, and then those of the sections behind it.
    #[cycle(parts)]
    #[inline(never)]
    pub fn run_sections(
        &mut self,
        program: &'a TypedProgram,
        first: &'a [TypedStmt],
        behind: &'a [TypedSection],
        depth: u32,
    ) -> Ran
        ensures { Runs program.now
            (meant.run_from (telling program.now) (first.now ++ bodies behind.now) (view self.old))
            self.new result }
    {
        let depth = depth.saturating_sub(SWITCH);
        let mut rest = first;
        let mut later = behind;
        'statements: loop {
            match rest.split_first() {
                Some((st, more)) => match self.run(program, st, depth) {
                    Ran::Nothing => {
                        rest = more;
                    }
                    Ran::Breaks => return Ran::Nothing,
                    Ran::Continues => return Ran::Continues,
                    Ran::Returns => return Ran::Returns,
                    Ran::Stops => {
                        let frame = Frame::Sections {
                            rest: more,
                            behind: later,
                        };
                        return self.kept(program, frame);
                    }
                },
                None => match later.split_first() {
                    Some((section, others)) => {
                        rest = section.body.as_slice();
                        later = others;
                    }
                    None => return Ran::Nothing,
                },
            }
        }
    }
}
