//! The window driven to its end.
ghost use Rattle.std.specs.Prelude.{◌≡◌, ◌-◌, length};
ghost use Rattle.trips_isa.specs.declared.run.Stepped.TheVariants.{Went};
ghost use Rattle.trips_isa.specs.Machine.{runs};
ghost use Rattle.commit_flush_spec.specs.inside.Driving.{driven};
ghost use Rattle.commit_flush_spec.specs.inside.DrivingLaws.{HasGenerations};

use crate::known::remember;
use crate::next::next_with;
use crate::window::Window;
use trips_isa::Stepped;

/// Lets the next event happen until there is none, and tells whether and how the run has ended: the machine's run
/// within what is left of the budget.
pub fn drive(window: &mut Window) -> Stepped
    requires generations { HasGenerations window.old.budget window.old.window }
    ensures driven { window.new ≡ record window.old {
      window = driven window.old.image.blocks window.old.budget window.old.window;
    } }
    ensures over { result ≡ window.new.window.over }
    ensures runs { window.old.window.over ≡ Went → (window.new.window.state, result)
        ≡ runs window.old.image.blocks window.old.window.state
        (window.old.budget - length window.old.window.state.trace) }
{
    window.keeps_invariant();
    let mut known = None;
    while let Some(e) = next_with(window, &known) {
        window.keeps_invariant();
        remember(&mut known, window, e);
        let _ = window.event(e);
    }
    window.over()
}
