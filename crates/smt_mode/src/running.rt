//! Cycles and runs of a machine that has come from a stated start, with what stands of it between two calls.
ghost use Rattle.std.specs.Prelude.{◌≡◌, ◌≢◌, ◌<◌, ◌+◌, ℕ, List, Some, [], false, length, slice_get};
ghost use Rattle.trips_isa.specs.declared.run.Ending.{Ending as ended};
ghost use Rattle.grid_machine.specs.Endings.{ending_of};
ghost use Rattle.smt_spec.specs.Cycles.{Eager4, going};
ghost use Rattle.smt_mode.specs.Fours.{AllOver, EndsAlone, HasRan, IsOver, fours_of};
ghost use Rattle.smt_mode.specs.Machines.{four_of, images_of};
ghost use Rattle.smt_mode.specs.Starts.{begun_at};
ghost use Rattle.smt_mode.specs.declared.four.Started as start;
ghost use Rattle.smt_mode.specs.inside.Histories.{IsEngine};

use crate::machine::Machine;
use crate::turns::ending;
use operand_net::Weather;
use trips_isa::Ending;

// Whether all four programs are over.
fn is_over<W>(machine: &Machine<W>) -> bool
    requires { length machine.now.programs.items ≡ 4 }
    ensures { IsOver result (fours_of machine.now) }
{
    machine.going().is_empty()
}

// A cycle of a machine of which some programs are not over.
fn cycle_going<W: Weather>(machine: &mut Machine<W>, programs: &[u8])
    requires engine { IsEngine W.next W.follows machine.old }
    requires going { programs.now ≡ going machine.old.budget (four_of machine.old) }
    requires some { programs.now ≢ [] }
    ensures engine { IsEngine W.next W.follows machine.new }
    ensures eager { Eager4 W.next W.follows (images_of machine.old) machine.old.budget (four_of machine.old)
        (four_of machine.new) }
    ensures cycles { machine.new.cycles ≡ machine.old.cycles + 1 }
    ensures images { images_of machine.new ≡ images_of machine.old }
    ensures budget { machine.new.budget ≡ machine.old.budget }
{
    machine.cycle(programs);
}

/// A cycle, where some program is not over; whether all four are over after it.
pub fn cycle<W: Weather>(machine: &mut Machine<W>) -> bool
    requires engine { IsEngine W.next W.follows machine.old }
    ensures engine { IsEngine W.next W.follows machine.new }
    ensures eager { going machine.old.budget (four_of machine.old) ≢ []
        → Eager4 W.next W.follows (images_of machine.old) machine.old.budget (four_of machine.old)
        (four_of machine.new) }
    ensures same { going machine.old.budget (four_of machine.old) ≡ [] → fours_of machine.new ≡ fours_of machine.old }
    ensures over { IsOver result (fours_of machine.new) }
    ensures ran { HasRan W.next W.follows (images_of machine.old) machine.old.budget (four_of machine.old)
        (four_of machine.new) }
    ensures more { result ≡ false → machine.new.cycles ≡ machine.old.cycles + 1 }
    ensures images { images_of machine.new ≡ images_of machine.old }
    ensures budget { machine.new.budget ≡ machine.old.budget }
{
    let programs = machine.going();
    if programs.is_empty() {
        return true;
    }
    cycle_going(machine, programs.as_slice());
    is_over(machine)
}

// Cycles until all four programs are over.
fn cycles<W: Weather>(machine: &mut Machine<W>)
    requires engine { IsEngine W.next W.follows machine.old }
    ensures engine { IsEngine W.next W.follows machine.new }
    ensures over { going machine.new.budget (four_of machine.new) ≡ [] }
    ensures ran { HasRan W.next W.follows (images_of machine.old) machine.old.budget (four_of machine.old)
        (four_of machine.new) }
    ensures images { images_of machine.new ≡ images_of machine.old }
    ensures budget { machine.new.budget ≡ machine.old.budget }
{
    let most = 4 * 41_472 * machine.budget as u64;
    for round in 0..most {
        if cycle(machine) {
            return;
        }
    }
}

// How a program has ended, once no frame of it is in flight.
fn ending_one<W>(machine: &Machine<W>, program: u8) -> Ending
    requires four { length machine.now.programs.items ≡ 4 }
    requires program { program < 4 }
    requires rests { ((four_of machine.now).own program).window.frames ≡ [] }
    ensures { result ≡ ending_of ((four_of machine.now).own program).window.over
        ((four_of machine.now).own program).window.state.next }
{
    ending(&machine.programs[program as usize])
}

// How each program has.
fn endings<W>(machine: &Machine<W>) -> [Ending; 4]
    requires four { length machine.now.programs.items ≡ 4 }
    requires rests { (p : ℕ) → p < 4 → ((four_of machine.now).own p).window.frames ≡ [] }
    ensures { (p : ℕ) (e : ended) → p < 4 → slice_get result p ≡ Some e
        → e ≡ ending_of ((four_of machine.now).own p).window.over ((four_of machine.now).own p).window.state.next }
{
    [
        ending_one(machine, 0),
        ending_one(machine, 1),
        ending_one(machine, 2),
        ending_one(machine, 3),
    ]
}

/// Cycles until all four programs are over, and how each has ended.
pub fn run<W: Weather>(machine: &mut Machine<W>) -> [Ending; 4]
    requires engine { IsEngine W.next W.follows machine.old }
    ensures engine { IsEngine W.next W.follows machine.new }
    ensures over { AllOver (fours_of machine.new) }
    ensures alone { (programs : List start.Started) (weather : W) → four_of machine.old ≡ begun_at programs weather
        → (p : ℕ) (e : ended) → p < 4 → slice_get result p ≡ Some e → EndsAlone (fours_of machine.new) programs p e }
    ensures ran { HasRan W.next W.follows (images_of machine.old) machine.old.budget (four_of machine.old)
        (four_of machine.new) }
    ensures images { images_of machine.new ≡ images_of machine.old }
    ensures budget { machine.new.budget ≡ machine.old.budget }
{
    cycles(machine);
    endings(machine)
}
