//! The report and the status of four programs, from how each has ended. Want of memory is the only error.
ghost use Rattle.std.specs.Prelude.{◌≡◌, ◌<◌, ◌+◌, ◌++◌, ◌^◌, IfOk, OnOk};
ghost use Rattle.grid_cycle_spec.specs.Costs.{cost_of};
ghost use Rattle.trips_report.specs.Endings.{status_of};
ghost use Rattle.trips_report.specs.Runs.{count_line};
ghost use Rattle.trips_grid_answers.specs.Report.{run_report, trap_cost};
ghost use Rattle.trips_four_answers.specs.Report as report;
ghost use Rattle.trips_four_answers.specs.Report.{counts_text, program_line, program_text};

use block_atomic::Arch;
use block_check::CheckedImage;
use commit_flush::Window;
use grid_machine::cost;
use isa_table::put_number;
use std::alloc::{AllocError, Global};
use trips_isa::{Counts, Ending, Traced};
use trips_report::{Measured, Show, run_report, status_for};
use trips_requests::Status;

// The report of a run where nothing is shown behind it.
fn run_text(alloc: Global, ending: Ending, arch: &Arch) -> Result<Vec<u8>, AllocError>
    ensures { IfOk result (λ text. text.items ≡ run_report ending arch.now.state) }
{
    let counts = Counts {
        cycles: 0,
        fetched: 0,
        committed: 0,
        flushed: 0,
    };
    let show = Show {
        regs: false,
        trace: false,
        cycles: false,
        stats: false,
        events: None,
    };
    let measured = Measured::uncounted(alloc, counts);
    match run_report(alloc, ending, arch, measured, 0, show) {
        Ok(text) => Ok(text),
        Err(_) => Err(AllocError),
    }
}

// A name with a number.
#[tactic(auto, unfolding(trips_report::specs::Runs::count_line))]
fn put_count(out: &mut Vec<u8>, name: &[u8], number: u64) -> Result<(), AllocError>
    ensures { OnOk result (out.new.items ≡ out.old.items ++ count_line name.now number) }
{
    out.extend_from_slice(name)?;
    put_number(out, number)?;
    out.push(b'\n')?;
    Ok(())
}

/// The line that the report of the program of a number begins with.
#[tactic(auto, unfolding(crate::specs::Report::program_line))]
pub fn program_line(alloc: Global, number: u8) -> Result<Vec<u8>, AllocError>
    ensures { IfOk result (λ text. text.items ≡ program_line number) }
{
    let mut text = Vec::new(alloc);
    put_count(&mut text, b"program ", number as u64)?;
    Ok(text)
}

/// The report of the program of a number is put behind others.
#[tactic(auto, unfolding(crate::specs::Report::program_line))]
pub fn tell_program(
    alloc: Global,
    out: &mut Vec<u8>,
    number: u8,
    ending: Ending,
    window: &Window,
) -> Result<(), AllocError>
    ensures { OnOk result (out.new.items
        ≡ out.old.items ++ program_text number ending window.now.window.state) }
{
    put_count(out, b"program ", number as u64)?;
    let text = run_text(alloc, ending, window.arch())?;
    out.extend_from_slice(&text)
}

/// How many cycles were made, and how many the four might cost, are put behind the reports where that is shown.
#[tactic(auto, unfolding(crate::specs::Report::counts_text))]
pub fn tell_counts(out: &mut Vec<u8>, cycles: bool, made: u64, cost: u64) -> Result<(), AllocError>
    ensures { OnOk result (out.new.items ≡ out.old.items ++ counts_text cycles made cost) }
{
    if cycles {
        put_count(out, b"cycles ", made)?;
        put_count(out, b"cost ", cost)?;
    }
    Ok(())
}

// What the block may cost at which a run has trapped, and nothing of any other run.
fn trap_cost(image: &CheckedImage, ending: Ending) -> u64
    ensures { result ≡ trap_cost image.now.blocks ending }
{
    match ending {
        Ending::Trap { block, cause: _ } => cost(image, &[Traced { block, exit: 0 }]),
        _ => 0,
    }
}

// What the committed blocks of a program may cost.
fn committed_cost(window: &Window) -> u64
    ensures { result ≡ cost_of window.now.image.blocks window.now.window.state.trace }
{
    window.keeps_invariant();
    let _ = window.budget();
    cost(window.image(), window.arch().trace())
}

/// What a program may have cost.
pub fn program_cost(window: &Window, ending: Ending) -> u64
    ensures value { result ≡ cost_of window.now.image.blocks window.now.window.state.trace
        + trap_cost window.now.image.blocks ending }
    ensures few { result < 2 ^ 60 }
{
    window.keeps_invariant();
    let _ = window.budget();
    committed_cost(window) + trap_cost(window.image(), ending)
}

// A status that is not that of an end, and behind such an end the later one.
fn status_or(status: Status, later: Status) -> Status
    ensures { result ≡ report.status_or status later }
{
    match status {
        Status::Ended => later,
        _ => status,
    }
}

/// The status of the lowest of some programs that has not ended with its end.
pub fn status_before(window: &Window, ending: Ending, later: Status) -> Status
    ensures { result ≡ report.status_or (status_of ending window.now.window.state) later }
{
    status_or(status_for(ending, window.arch().register(3)), later)
}
