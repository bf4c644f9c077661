//! Part (3) of a cycle: each bank answers the first answerable read, by program, then age.
ghost use Rattle.std.specs.Prelude.{◌≡◌, ◌<◌, All, cond};
ghost use Rattle.grid_cycle_spec.specs.Banks as banks;
ghost use Rattle.smt_spec.specs.Parts.{bank_turn_of, has_read, reads_of};
ghost use Rattle.smt_spec.specs.Programs.{alone, put};
ghost use Rattle.smt_mode.specs.Machines.{four_of, images_of};
ghost use Rattle.smt_mode.specs.inside.Rooms.{IsReady, Keeps};

use crate::machine::Machine;
use crate::turns::read;

impl<W> Machine<W> {
    // A bank answers the eldest answerable read of a program; whether there is one.
    fn read_one(&mut self, bank: u8, program: u8) -> bool
        requires bank { bank < 4 }
        requires program { program < 4 }
        requires ready { IsReady 4 self.old }
        ensures value { result ≡ has_read (images_of self.old) self.old.budget bank program
            (alone program (four_of self.old)) }
        ensures change { four_of self.new ≡ cond result (put program (banks.bank_turn (images_of self.old program)
            self.old.budget bank (alone program (four_of self.old))) (four_of self.old)) (four_of self.old) }
        ensures keeps { Keeps 4 self.old self.new }
    {
        read(&mut self.programs[program as usize], bank)
    }

    // A bank answers the first answerable read of some programs.
    fn bank_turn(&mut self, bank: u8, programs: &[u8])
        requires bank { bank < 4 }
        requires within { All (λ p. p < 4) programs.now }
        requires ready { IsReady 4 self.old }
        ensures change { four_of self.new
            ≡ bank_turn_of (images_of self.old) self.old.budget programs.now bank (four_of self.old) }
        ensures keeps { Keeps 4 self.old self.new }
    {
        for i in 0..programs.len() {
            if self.read_one(bank, programs[i]) {
                return;
            }
        }
    }

    /// Part (3).
    pub fn reads(&mut self, programs: &[u8])
        requires within { All (λ p. p < 4) programs.now }
        requires ready { IsReady 4 self.old }
        ensures change { four_of self.new
            ≡ reads_of (images_of self.old) self.old.budget programs.now (four_of self.old) }
        ensures keeps { Keeps 4 self.old self.new }
    {
        for bank in 0..4u8 {
            self.bank_turn(bank, programs);
        }
    }
}
