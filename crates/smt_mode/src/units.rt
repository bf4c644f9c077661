//! Part (5) of a cycle: units give their results to the mesh, and issue what is ready.
ghost use Rattle.std.specs.Prelude.{◌≡◌, ◌<◌, ◌+◌, ℕ, List, All, cond, false, slice_get, slice_index_or, Some};
ghost use Rattle.grid_cycle_spec.specs.Units as units;
ghost use Rattle.smt_spec.specs.Parts as parts;
ghost use Rattle.smt_spec.specs.Parts.{gives, has_ready, issues_of, unit_on_of, unit_turn_of, works_of};
ghost use Rattle.smt_spec.specs.Programs.{alone, put};
ghost use Rattle.smt_spec.specs.Turns.{all_do, first_does};
ghost use Rattle.grid_parts.specs.inside.Marked.{SlotsMarked};
ghost use Rattle.smt_mode.specs.Machines.{Program, blocks_of, four_of, images_of};
ghost use Rattle.smt_mode.specs.inside.Rooms.{IsReady, Keeps};
ghost use Rattle.smt_mode.specs.inside.Marked.{AreMarked};

use crate::machine::Machine;
use crate::turns::{give, issue};
use grid_parts::{Windows, marked_slots};

impl<W> Machine<W> {
    // The result of one program in the unit of a tile enters the mesh.
    fn give_one(&mut self, tile: u8, program: u8)
        requires tile { tile < 16 }
        requires program { program < 4 }
        requires ready { IsReady 4 self.old }
        ensures change { four_of self.new
            ≡ put program (gives tile program (alone program (four_of self.old))) (four_of self.old) }
        ensures marks { (marks : List ℕ) → AreMarked self.old marks → AreMarked self.new marks }
        ensures keeps { Keeps 4 self.old self.new }
    {
        give(&mut self.programs[program as usize], tile);
    }

    // The results of some programs in the unit of a tile enter the mesh.
    fn give_each(&mut self, tile: u8, programs: &[u8])
        requires tile { tile < 16 }
        requires within { All (λ p. p < 4) programs.now }
        requires ready { IsReady 4 self.old }
        ensures change { four_of self.new ≡ all_do (gives tile) programs.now (four_of self.old) }
        ensures marks { (marks : List ℕ) → AreMarked self.old marks → AreMarked self.new marks }
        ensures keeps { Keeps 4 self.old self.new }
    {
        for i in 0..programs.len() {
            self.give_one(tile, programs[i]);
        }
    }

    // A unit is busy for so many cycles.
    fn set_busy(&mut self, tile: u8, left: u8)
        requires tile { tile < 16 }
        requires ready { IsReady 4 self.old }
        ensures change { four_of self.new ≡ parts.busy_for tile left (four_of self.old) }
        ensures marks { (marks : List ℕ) → AreMarked self.old marks → AreMarked self.new marks }
        ensures keeps { Keeps 4 self.old self.new }
    {
        self.units[tile as usize] = left;
    }

    // A unit that is busy is so for one cycle less, and gives its result where its time is over.
    fn unit_less(&mut self, tile: u8, left: u8, programs: &[u8])
        requires tile { tile < 16 }
        requires within { All (λ p. p < 4) programs.now }
        requires ready { IsReady 4 self.old }
        ensures change { four_of self.new ≡ unit_on_of programs.now tile (left + 1) (four_of self.old) }
        ensures marks { (marks : List ℕ) → AreMarked self.old marks → AreMarked self.new marks }
        ensures keeps { Keeps 4 self.old self.new }
    {
        self.set_busy(tile, left);
        if left == 0 {
            self.give_each(tile, programs);
        }
    }

    // The same of any unit; one that is free is left so.
    fn unit_on(&mut self, tile: u8, programs: &[u8])
        requires tile { tile < 16 }
        requires within { All (λ p. p < 4) programs.now }
        requires ready { IsReady 4 self.old }
        ensures change { four_of self.new
            ≡ unit_on_of programs.now tile (slice_index_or self.old.units tile 0) (four_of self.old) }
        ensures marks { (marks : List ℕ) → AreMarked self.old marks → AreMarked self.new marks }
        ensures keeps { Keeps 4 self.old self.new }
    {
        let left = self.units[tile as usize];
        if left > 0 {
            self.unit_less(tile, left - 1, programs);
        }
    }

    // A free unit issues the eldest ready entry of a program on its tile; whether there is one.
    fn issue_one(&mut self, tile: u8, program: u8, marks: &[u128; 4]) -> bool
        requires tile { tile < 16 }
        requires program { program < 4 }
        requires ready { IsReady 4 self.old }
        requires free { slice_index_or self.old.units tile 0 ≡ 0 }
        requires marked { AreMarked self.old marks.now }
        ensures value { result ≡ has_ready (images_of self.old) self.old.budget tile program
            (alone program (four_of self.old)) }
        ensures change { four_of self.new ≡ cond result (put program (units.issues (images_of self.old program)
            self.old.budget tile (alone program (four_of self.old))) (four_of self.old)) (four_of self.old) }
        ensures marked { AreMarked self.new marks.now }
        ensures free { result ≡ false → self.new.units ≡ self.old.units }
        ensures keeps { Keeps 4 self.old self.new }
    {
        match issue(
            &mut self.programs[program as usize],
            tile,
            marks[program as usize],
        ) {
            Some(time) => {
                self.units[tile as usize] = time;
                true
            }
            None => false,
        }
    }

    // A free unit issues the first ready entry of its tile of some programs.
    fn issue_first(&mut self, tile: u8, programs: &[u8], marks: &[u128; 4])
        requires tile { tile < 16 }
        requires within { All (λ p. p < 4) programs.now }
        requires ready { IsReady 4 self.old }
        requires free { slice_index_or self.old.units tile 0 ≡ 0 }
        requires marked { AreMarked self.old marks.now }
        ensures change { four_of self.new ≡ first_does (has_ready (images_of self.old) self.old.budget tile)
            (λ p. units.issues (images_of self.old p) self.old.budget tile) programs.now (four_of self.old) }
        ensures marked { AreMarked self.new marks.now }
        ensures keeps { Keeps 4 self.old self.new }
    {
        for i in 0..programs.len() {
            if self.issue_one(tile, programs[i], marks) {
                return;
            }
        }
    }

    // A unit issues, where it is free.
    fn issues(&mut self, tile: u8, programs: &[u8], marks: &[u128; 4])
        requires tile { tile < 16 }
        requires within { All (λ p. p < 4) programs.now }
        requires ready { IsReady 4 self.old }
        requires marked { AreMarked self.old marks.now }
        ensures change { four_of self.new
            ≡ issues_of (images_of self.old) self.old.budget programs.now tile (four_of self.old) }
        ensures marked { AreMarked self.new marks.now }
        ensures keeps { Keeps 4 self.old self.new }
    {
        if self.units[tile as usize] == 0 {
            self.issue_first(tile, programs, marks);
        }
    }

    // A tile gives its finished result to the mesh, then issues.
    fn unit_turn(&mut self, tile: u8, programs: &[u8], marks: &[u128; 4])
        requires tile { tile < 16 }
        requires within { All (λ p. p < 4) programs.now }
        requires ready { IsReady 4 self.old }
        requires marked { AreMarked self.old marks.now }
        ensures change { four_of self.new
            ≡ unit_turn_of (images_of self.old) self.old.budget programs.now tile (four_of self.old) }
        ensures marked { AreMarked self.new marks.now }
        ensures keeps { Keeps 4 self.old self.new }
    {
        self.unit_on(tile, programs);
        self.issues(tile, programs, marks);
    }

    // Marks of the slots of a program, of which each that may fire has one.
    fn marks_one(&self, program: u8) -> u128
        requires program { program < 4 }
        requires ready { IsReady 4 self.now }
        ensures { (x : Program) → slice_get self.now.programs.items program ≡ Some x
            → SlotsMarked (blocks_of x) x.window.budget x.window.window result }
    {
        let window = &self.programs[program as usize].window;
        let frames = window.numbers();
        marked_slots(window, frames.as_slice())
    }

    // Those of each program.
    fn marks(&self) -> [u128; 4]
        requires { IsReady 4 self.now }
        ensures { AreMarked self.now result }
    {
        [
            self.marks_one(0),
            self.marks_one(1),
            self.marks_one(2),
            self.marks_one(3),
        ]
    }

    /// Part (5).
    pub fn works(&mut self, programs: &[u8])
        requires within { All (λ p. p < 4) programs.now }
        requires ready { IsReady 4 self.old }
        ensures change { four_of self.new
            ≡ works_of (images_of self.old) self.old.budget programs.now (four_of self.old) }
        ensures keeps { Keeps 4 self.old self.new }
    {
        let marks = self.marks();
        for tile in 0..16u8 {
            self.unit_turn(tile, programs, &marks);
        }
    }
}
