//! Four programs on one grid.
ghost use Rattle.std.specs.Prelude.{◌≡◌, ◌≢◌, ◌<◌, ℕ, List, All, IfOk, Some, [], slice_get};
ghost use Rattle.trips_isa.specs.declared.run.Ending.{Ending as ended};
ghost use Rattle.smt_spec.specs.Cycles.{Eager4, going};
ghost use Rattle.smt_mode.specs.Fours.{AllOver, EndsAlone, HasRan, IsOver, fours_of};
ghost use Rattle.smt_mode.specs.Machines.{four_of, images_of};
ghost use Rattle.smt_mode.specs.Starts.{begun_at, images_at};
ghost use Rattle.smt_mode.specs.declared.four.Started as start;

use crate::machine::Machine;
use crate::made::machine_of;
use crate::running;
use base::Memory;
use block_check::CheckedImage;
use block_predict::Predictor;
use commit_flush::Window;
use operand_net::Weather;
use std::alloc::Global;
use std::marker::Model;
use trips_isa::Ending;

/// A program at the start of its run.
#[derive(Drop)]
pub struct Started {
    pub image: CheckedImage,
    pub input: Vec<u8>,
    pub predictor: Predictor,
}

/// Four programs on one grid, which have come from their stated start by the eager cycles that are counted.
pub struct Four<W: Weather> {
    machine: Machine<W>,
}

impl<W: Weather> Model for Four<W> {
    ghost use Rattle.smt_mode.specs.declared.machine.Machine.{Machine as Held};
    ghost use Rattle.smt_mode.specs.inside.Histories.{IsEngine};

    ghost Value = { Held W };

    ghost view = { λ f. f.machine };

    ghost invariant = { λ f. IsEngine W.next W.follows f.machine };
}

impl<W: Weather + Drop> Drop for Four<W> {
    fn drop(self) {
        let Four { machine: _machine } = self;
    }
}

impl<W: Weather + Drop> Four<W> {
    /// Four programs at the start of their runs, each for at most so many blocks. Want of memory is the only error.
    pub fn make(
        alloc: Global,
        programs: [Started; 4],
        weather: W,
        budget: u32,
    ) -> Result<Four<W>, Memory>
        requires stack { All (λ s. s.predictor.stack ≡ []) programs }
        requires some { 0 < budget }
        ensures begun { IfOk result (λ f. four_of f ≡ begun_at programs weather) }
        ensures images { IfOk result (λ f. images_of f ≡ images_at programs) }
        ensures budget { IfOk result (λ f. f.budget ≡ budget) }
    {
        let machine = machine_of(alloc, programs, weather, budget)?;
        Ok(Four { machine })
    }
}

impl<W: Weather> Four<W> {
    /// A cycle, which is eager; whether all four are over after it. Once they are, nothing changes.
    pub fn cycle(&mut self) -> bool
        ensures eager { going self.old.budget (four_of self.old) ≢ []
            → Eager4 W.next W.follows (images_of self.old) self.old.budget (four_of self.old) (four_of self.new) }
        ensures same { going self.old.budget (four_of self.old) ≡ [] → fours_of self.new ≡ fours_of self.old }
        ensures over { IsOver result (fours_of self.new) }
        ensures images { images_of self.new ≡ images_of self.old }
        ensures budget { self.new.budget ≡ self.old.budget }
    {
        running::cycle(&mut self.machine)
    }

    /// Cycles until all four are over, and how each has ended.
    pub fn run(&mut self) -> [Ending; 4]
        ensures over { AllOver (fours_of self.new) }
        ensures alone { (programs : List start.Started) (weather : W) → four_of self.old ≡ begun_at programs weather
            → (p : ℕ) (e : ended) → p < 4 → slice_get result p ≡ Some e → EndsAlone (fours_of self.new) programs p e }
        ensures ran { HasRan W.next W.follows (images_of self.old) self.old.budget (four_of self.old)
            (four_of self.new) }
        ensures images { images_of self.new ≡ images_of self.old }
        ensures budget { self.new.budget ≡ self.old.budget }
    {
        running::run(&mut self.machine)
    }

    /// The window of a program.
    pub fn window(&self, program: u8) -> &Window
        requires { program < 4 }
        ensures window { result.now.window ≡ ((four_of self.now).own program).window }
        ensures image { result.now.image.blocks ≡ images_of self.now program }
    {
        self.machine.programs[program as usize].window.window()
    }

    /// How many cycles have been made.
    pub fn cycles(&self) -> u64
        ensures { result ≡ self.now.cycles }
    {
        self.machine.cycles
    }
}
