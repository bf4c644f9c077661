//! Part (1) of a cycle, and its end.
ghost use Rattle.std.specs.Prelude.{◌≡◌, ◌<◌, All};
ghost use Rattle.smt_spec.specs.Cycles.{retires};
ghost use Rattle.smt_spec.specs.Parts.{ends_of};
ghost use Rattle.smt_spec.specs.Programs.{alone, put};
ghost use Rattle.smt_spec.specs.Turns.{all_do};
ghost use Rattle.smt_mode.specs.Machines.{four_of, images_of};
ghost use Rattle.smt_mode.specs.inside.Rooms.{IsReady, Keeps};
ghost use Rattle.grid_cycle_spec.specs.Ends.{ends};

use crate::machine::Machine;
use crate::turns::{end, retire};

impl<W> Machine<W> {
    // Part (1) of one program.
    fn end_one(&mut self, program: u8)
        requires program { program < 4 }
        requires ready { IsReady 0 self.old }
        ensures change { four_of self.new ≡ put program (ends (images_of self.old program) self.old.budget
            (alone program (four_of self.old))) (four_of self.old) }
        ensures keeps { Keeps 0 self.old self.new }
    {
        end(&mut self.programs[program as usize]);
    }

    /// Part (1) of some programs.
    pub fn end_each(&mut self, programs: &[u8])
        requires within { All (λ p. p < 4) programs.now }
        requires ready { IsReady 0 self.old }
        ensures change { four_of self.new
            ≡ ends_of (images_of self.old) self.old.budget programs.now (four_of self.old) }
        ensures keeps { Keeps 0 self.old self.new }
    {
        for i in 0..programs.len() {
            self.end_one(programs[i]);
        }
    }

    // One program is retired where it has become over.
    fn retire_one(&mut self, program: u8)
        requires program { program < 4 }
        requires ready { IsReady 0 self.old }
        ensures change { four_of self.new
            ≡ put program (retires self.old.budget (alone program (four_of self.old))) (four_of self.old) }
        ensures keeps { Keeps 0 self.old self.new }
    {
        retire(&mut self.programs[program as usize], self.budget);
    }

    /// What has become over of some programs is retired.
    pub fn retire_each(&mut self, programs: &[u8])
        requires within { All (λ p. p < 4) programs.now }
        requires ready { IsReady 0 self.old }
        ensures change { four_of self.new
            ≡ all_do (λ p. retires self.old.budget) programs.now (four_of self.old) }
        ensures keeps { Keeps 0 self.old self.new }
    {
        for i in 0..programs.len() {
            self.retire_one(programs[i]);
        }
    }
}
