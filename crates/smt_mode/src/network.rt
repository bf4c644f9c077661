//! Part (6) of a cycle: the mesh ticks for all programs at once, and what has arrived is delivered.
ghost use Rattle.std.specs.Prelude.{◌≡◌, ◌≢◌, ◌<◌, ◌≤◌, ◌+◌, ◌*◌, ◌||◌, ◌++◌, ℕ, All, length, map};
ghost use Rattle.operand_net.specs.Tick.{RowTicked, Ticked, row_wants};
ghost use Rattle.operand_net.specs.inside.Places.{Once};
ghost use Rattle.operand_net.specs.inside.Rows.{taken};
ghost use Rattle.grid_cycle_spec.specs.Grid.{numbers_of};
ghost use Rattle.grid_cycle_spec.specs.inside.Arrivals as arriving;
ghost use Rattle.smt_spec.specs.Parts.{arrivals_of};
ghost use Rattle.smt_spec.specs.inside.Among.{Distinct};
ghost use Rattle.smt_spec.specs.Programs as shared;
ghost use Rattle.smt_spec.specs.Programs.{alone, mesh, put, travelled};
ghost use Rattle.smt_mode.specs.Machines.{four_of, images_of};
ghost use Rattle.smt_mode.specs.inside.Rooms.{AreApart, HaveTwo, IsReady, Keeps};

use crate::machine::Machine;
use crate::turns::arrive;
use arrayvec::ArrayVec;
use grid_parts::Windows;
use operand_net::{Links, Weather};

// The frames of a program, by their numbers in the mesh.
fn add_frames(order: &mut ArrayVec<u8, 32>, program: u8, frames: &[u8])
    requires program { program < 4 }
    requires within { All (λ n. n < 8) frames.now }
    requires room { length order.old.items + length frames.now ≤ 32 }
    ensures { order.new.items ≡ order.old.items ++ map (λ n. 2 * program + n) frames.now }
{
    for i in 0..frames.len() {
        order.push(2 * program + frames[i]);
    }
}

impl<W> Machine<W> {
    // The frames in flight of some programs, by program, then age.
    fn order(&self, programs: &[u8]) -> ArrayVec<u8, 32>
        requires four { length self.now.programs.items ≡ 4 }
        requires within { All (λ p. p < 4) programs.now }
        requires few { length programs.now ≤ 4 }
        ensures value { result.items ≡ shared.order (four_of self.now) programs.now }
        ensures apart { All (AreApart self.now) programs.now }
    {
        let mut order = ArrayVec::new();
        for i in 0..programs.len() {
            let program = programs[i];
            let frames = self.programs[program as usize].window.numbers();
            add_frames(&mut order, program, frames.as_slice());
        }
        order
    }

    // What has arrived of one program is delivered.
    fn arrive_one(&mut self, program: u8)
        requires program { program < 4 }
        requires ready { IsReady 4 self.old }
        ensures change { four_of self.new ≡ put program (arriving.arrivals (images_of self.old program)
            self.old.budget (numbers_of (alone program (four_of self.old)).window.frames)
            (alone program (four_of self.old))) (four_of self.old) }
        ensures keeps { Keeps 4 self.old self.new }
    {
        arrive(&mut self.programs[program as usize]);
    }

    /// What has arrived of some programs is delivered.
    pub fn arrive_each(&mut self, programs: &[u8])
        requires within { All (λ p. p < 4) programs.now }
        requires ready { IsReady 4 self.old }
        ensures change { four_of self.new
            ≡ arrivals_of (images_of self.old) self.old.budget programs.now (four_of self.old) }
        ensures keeps { Keeps 4 self.old self.new }
    {
        for i in 0..programs.len() {
            self.arrive_one(programs[i]);
        }
    }
}

impl<W: Weather> Machine<W> {
    // The parcels of a frame of the mesh move on.
    fn tick_frame(&mut self, frame: u8, links: &mut Links)
        requires frame { frame < 8 }
        requires ready { IsReady 4 self.old }
        ensures ticks { RowTicked W.next W.follows (taken links.old.nodes) (mesh (four_of self.old) frame)
            (mesh (four_of self.new) frame) self.old.weather self.new.weather }
        ensures others { (f : ℕ) → f ≢ frame → mesh (four_of self.new) f ≡ mesh (four_of self.old) f }
        ensures marks { (l : ℕ) → taken links.new.nodes l
            ≡ (taken links.old.nodes l || row_wants (mesh (four_of self.old) frame) l) }
        ensures rest { four_of self.new
            ≡ travelled (mesh (four_of self.new)) self.new.weather (four_of self.old) }
        ensures keeps { Keeps 4 self.old self.new }
    {
        let program = frame / 2;
        self.programs[program as usize]
            .state
            .mesh
            .tick_frame(frame % 2, links, &mut self.weather);
    }

    // The parcels of some frames of the mesh move on, each once.
    fn tick_frames(&mut self, order: &[u8])
        requires within { All (λ f. f < 8) order.now }
        requires once { Once order.now }
        requires ready { IsReady 4 self.old }
        ensures ticked { Ticked W.next W.follows order.now (mesh (four_of self.old)) (mesh (four_of self.new))
            self.old.weather self.new.weather (length order.now) }
        ensures rest { four_of self.new
            ≡ travelled (mesh (four_of self.new)) self.new.weather (four_of self.old) }
        ensures keeps { Keeps 4 self.old self.new }
    {
        let mut links = Links::none();
        for i in 0..order.len() {
            self.tick_frame(order[i], &mut links);
        }
    }

    /// The mesh ticks for some programs.
    pub fn tick(&mut self, programs: &[u8])
        requires within { All (λ p. p < 4) programs.now }
        requires few { length programs.now ≤ 4 }
        requires distinct { Distinct programs.now }
        requires frames { HaveTwo self.old }
        requires ready { IsReady 4 self.old }
        ensures ticked { Ticked W.next W.follows (shared.order (four_of self.old) programs.now)
            (mesh (four_of self.old)) (mesh (four_of self.new)) self.old.weather self.new.weather
            (length (shared.order (four_of self.old) programs.now)) }
        ensures rest { four_of self.new
            ≡ travelled (mesh (four_of self.new)) self.new.weather (four_of self.old) }
        ensures keeps { Keeps 4 self.old self.new }
    {
        let order = self.order(programs);
        self.tick_frames(order.as_slice());
    }
}
