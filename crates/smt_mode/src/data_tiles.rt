//! Part (4) of a cycle: each data tile answers the first answerable request, by program, then age.
ghost use Rattle.std.specs.Prelude.{◌≡◌, ◌<◌, All, cond};
ghost use Rattle.grid_cycle_spec.specs.DataTiles as tiles;
ghost use Rattle.smt_spec.specs.Parts.{answers_of, data_turn_of, has_request};
ghost use Rattle.smt_spec.specs.Programs.{alone, put};
ghost use Rattle.smt_mode.specs.Machines.{four_of, images_of};
ghost use Rattle.smt_mode.specs.inside.Rooms.{IsReady, Keeps};

use crate::machine::Machine;
use crate::turns::answer;

impl<W> Machine<W> {
    // A data tile answers the eldest answerable request of a program; whether there is one.
    fn answer_one(&mut self, tile: u8, program: u8) -> bool
        requires tile { tile < 4 }
        requires program { program < 4 }
        requires ready { IsReady 4 self.old }
        ensures value { result ≡ has_request tile program
            (alone program (four_of self.old)) }
        ensures change { four_of self.new ≡ cond result (put program (tiles.data_turn (images_of self.old program)
            self.old.budget tile (alone program (four_of self.old))) (four_of self.old)) (four_of self.old) }
        ensures keeps { Keeps 4 self.old self.new }
    {
        answer(&mut self.programs[program as usize], tile)
    }

    // A data tile answers the first answerable request of some programs.
    fn data_turn(&mut self, tile: u8, programs: &[u8])
        requires tile { tile < 4 }
        requires within { All (λ p. p < 4) programs.now }
        requires ready { IsReady 4 self.old }
        ensures change { four_of self.new
            ≡ data_turn_of (images_of self.old) self.old.budget programs.now tile (four_of self.old) }
        ensures keeps { Keeps 4 self.old self.new }
    {
        for i in 0..programs.len() {
            if self.answer_one(tile, programs[i]) {
                return;
            }
        }
    }

    /// Part (4).
    pub fn answers(&mut self, programs: &[u8])
        requires within { All (λ p. p < 4) programs.now }
        requires ready { IsReady 4 self.old }
        ensures change { four_of self.new
            ≡ answers_of (images_of self.old) self.old.budget programs.now (four_of self.old) }
        ensures keeps { Keeps 4 self.old self.new }
    {
        for tile in 0..4u8 {
            self.data_turn(tile, programs);
        }
    }
}
