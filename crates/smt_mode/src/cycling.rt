//! A cycle: each part does all that it may.
ghost use Rattle.std.specs.Prelude.{◌≡◌, ◌<◌, ◌≤◌, ◌+◌, ◌^◌, ℕ, All, length};
ghost use Rattle.smt_spec.specs.Cycles as spec;
ghost use Rattle.smt_spec.specs.Cycles.{Eager4, Moves, acts_of};
ghost use Rattle.smt_spec.specs.inside.Among.{Distinct};
ghost use Rattle.smt_bound.specs.inside.FourRule.{TwoFrames};
ghost use Rattle.smt_mode.specs.Machines.{four_of, images_of};
ghost use Rattle.smt_mode.specs.inside.Rooms.{HaveTwo, IsReady, Keeps};

use crate::machine::Machine;
use operand_net::Weather;

impl<W: Weather> Machine<W> {
    // Parts (2) to (5).
    fn act(&mut self, programs: &[u8])
        requires within { All (λ p. p < 4) programs.now }
        requires ready { IsReady 0 self.old }
        ensures change { four_of self.new
            ≡ acts_of (images_of self.old) self.old.budget programs.now (four_of self.old) }
        ensures keeps { Keeps 4 self.old self.new }
    {
        self.fetches(programs);
        self.reads(programs);
        self.answers(programs);
        self.works(programs);
    }

    // Part (6), and one cycle more has been made.
    fn move_on(&mut self, programs: &[u8])
        requires within { All (λ p. p < 4) programs.now }
        requires few { length programs.now ≤ 4 }
        requires distinct { Distinct programs.now }
        requires frames { HaveTwo self.old }
        requires ready { IsReady 4 self.old }
        requires cycles { self.old.cycles + 1 < 2 ^ 63 }
        ensures change { Moves W.next W.follows (images_of self.old) self.old.budget programs.now
            (four_of self.old) (four_of self.new) }
        ensures images { images_of self.new ≡ images_of self.old }
        ensures budget { self.new.budget ≡ self.old.budget }
        ensures cycles { self.new.cycles ≡ self.old.cycles + 1 }
        ensures ready { IsReady 0 self.new }
    {
        self.tick(programs);
        self.arrive_each(programs);
        self.cycles += 1;
    }

    /// An eager cycle. `going` names the programs that are not over.
    pub fn cycle(&mut self, going: &[u8])
        requires going { going.now ≡ spec.going self.old.budget (four_of self.old) }
        requires frames { (p : ℕ) → TwoFrames ((four_of self.old).own p) }
        requires ready { IsReady 0 self.old }
        requires cycles { self.old.cycles + 1 < 2 ^ 63 }
        ensures eager { Eager4 W.next W.follows (images_of self.old) self.old.budget (four_of self.old)
            (four_of self.new) }
        ensures images { images_of self.new ≡ images_of self.old }
        ensures budget { self.new.budget ≡ self.old.budget }
        ensures cycles { self.new.cycles ≡ self.old.cycles + 1 }
        ensures ready { IsReady 0 self.new }
    {
        self.end_each(going);
        let acting = self.acting(going);
        self.act(acting.as_slice());
        self.move_on(acting.as_slice());
        self.retire_each(going);
    }
}
