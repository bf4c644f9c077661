//! Part (2) of a cycle: fetches go on, and an idle fetch unit begins one.
ghost use Rattle.std.specs.Prelude.{◌≡◌, ◌<◌, ◌+◌, All, cond, true};
ghost use Rattle.grid_cycle_spec.specs.Fetches.{begins, fetch_ends};
ghost use Rattle.smt_spec.specs.Parts.{fetch_begins, fetches_go_on, fetches_of, may_begin};
ghost use Rattle.smt_spec.specs.Programs as shared;
ghost use Rattle.smt_spec.specs.Programs.{alone, put};
ghost use Rattle.smt_spec.specs.Turns.{first_does};
ghost use Rattle.smt_mode.specs.Machines.{four_of, images_of};
ghost use Rattle.smt_mode.specs.inside.Rooms.{IsReady, Keeps};

use crate::machine::Machine;
use crate::turns::{begin, go_on};

impl<W> Machine<W> {
    // The fetch of one program goes on.
    fn go_on_one(&mut self, program: u8)
        requires program { program < 4 }
        requires ready { IsReady program self.old }
        ensures change { four_of self.new ≡ put program (fetch_ends (images_of self.old program) self.old.budget
            (alone program (four_of self.old)).fetching (alone program (four_of self.old))) (four_of self.old) }
        ensures keeps { Keeps (program + 1) self.old self.new }
    {
        go_on(&mut self.programs[program as usize]);
    }

    // What is being fetched goes on.
    fn go_on_each(&mut self)
        requires ready { IsReady 0 self.old }
        ensures change { four_of self.new
            ≡ fetches_go_on (images_of self.old) self.old.budget (four_of self.old) }
        ensures keeps { Keeps 4 self.old self.new }
    {
        self.go_on_one(0);
        self.go_on_one(1);
        self.go_on_one(2);
        self.go_on_one(3);
    }

    // Whether the fetch unit works for no program.
    fn is_idle(&self) -> bool
        requires { IsReady 4 self.now }
        ensures { result ≡ shared.is_idle (four_of self.now) }
    {
        self.is_idle_for(0) && (self.is_idle_for(1) && (self.is_idle_for(2) && self.is_idle_for(3)))
    }

    // An idle fetch unit begins a fetch for a program, where one may begin; whether it has.
    fn begin_one(&mut self, program: u8) -> bool
        requires program { program < 4 }
        requires ready { IsReady 4 self.old }
        requires idle { shared.is_idle (four_of self.old) ≡ true }
        ensures value { result ≡ may_begin (images_of self.old) program (alone program (four_of self.old)) }
        ensures change { four_of self.new ≡ cond result
            (put program (begins (images_of self.old program) (alone program (four_of self.old))) (four_of self.old))
            (four_of self.old) }
        ensures keeps { Keeps 4 self.old self.new }
    {
        begin(&mut self.programs[program as usize])
    }

    // For the first of some programs for which one may begin.
    fn begin_first(&mut self, programs: &[u8])
        requires within { All (λ p. p < 4) programs.now }
        requires ready { IsReady 4 self.old }
        requires idle { shared.is_idle (four_of self.old) ≡ true }
        ensures change { four_of self.new ≡ first_does (may_begin (images_of self.old))
            (λ p. begins (images_of self.old p)) programs.now (four_of self.old) }
        ensures keeps { Keeps 4 self.old self.new }
    {
        for i in 0..programs.len() {
            if self.begin_one(programs[i]) {
                return;
            }
        }
    }

    /// Part (2).
    pub fn fetches(&mut self, programs: &[u8])
        requires within { All (λ p. p < 4) programs.now }
        requires ready { IsReady 0 self.old }
        ensures change { four_of self.new
            ≡ fetches_of (images_of self.old) self.old.budget programs.now (four_of self.old) }
        ensures keeps { Keeps 4 self.old self.new }
    {
        self.go_on_each();
        if self.is_idle() {
            self.begin_first(programs);
        }
    }
}
