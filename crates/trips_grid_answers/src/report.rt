//! The report of a run, as `trips_report` makes it. Want of memory is the only error.

ghost use Rattle.std.specs.Prelude.{◌≡◌, IfOk};
ghost use Rattle.trips_grid_answers.specs.Report.{shown_report};

use block_atomic::Arch;
use std::alloc::{AllocError, Global};
use trips_isa::Ending;
use trips_report::{Measured, Show};

/// The report of a run, from how it ended, the machine at its end, what was counted of it and what its blocks may
/// cost, with what is shown behind it.
pub fn run_text(
    alloc: Global,
    ending: Ending,
    arch: &Arch,
    measured: Measured,
    cost: u64,
    show: Show,
) -> Result<Vec<u8>, AllocError>
    ensures { IfOk result (λ report.
        report.items ≡ shown_report ending arch.now.state measured cost show) }
{
    match trips_report::run_report(alloc, ending, arch, measured, cost, show) {
        Ok(report) => Ok(report),
        Err(_) => Err(AllocError),
    }
}
