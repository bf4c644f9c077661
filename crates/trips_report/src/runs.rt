//! The report of a run.

ghost use Rattle.std.specs.Prelude.{◌≡◌, IfOk, length, string_bytes};
ghost use Rattle.trips_report.specs.Runs.{signed, ending_line, plain_report, run_report};

use crate::lines::{show_counts, show_events, show_registers, show_statistics, show_trace};
use crate::measured::Measured;
use crate::show::Show;
use base::Memory;
use block_atomic::Arch;
use std::alloc::{AllocError, Global};
use trips_isa::{Ending, number_of};
use trips_requests::{end_text, output_text};

// A word as a signed number.
fn signed_text(alloc: Global, word: u64) -> Result<String, AllocError>
    ensures { IfOk result (λ text. string_bytes text ≡ signed word) }
{
    if word < 1 << 63 {
        word.to_string(alloc)
    } else {
        let size = u64::MAX - word + 1;
        format!(in alloc; "-{size}")
    }
}

// The line of an ending, of register 3 and of how many blocks were committed.
fn ending_text(
    alloc: Global,
    ending: Ending,
    word: u64,
    blocks: usize,
) -> Result<String, AllocError>
    ensures { IfOk result (λ text. string_bytes text ≡ ending_line ending word blocks) }
{
    match ending {
        Ending::Ended => {
            let number = signed_text(alloc, word)?;
            end_text(alloc, word, number.as_str())
        }
        Ending::StackFull => String::from_str(alloc, "stack full"),
        Ending::Budget => format!(in alloc; "budget {blocks}"),
        Ending::Trap { block, cause } => {
            let number = number_of(cause);
            format!(in alloc; "trap block {block} cause {number}")
        }
    }
}

// The report of a run without what may be shown besides, of a machine with its 128 registers.
fn plain_text(alloc: Global, ending: Ending, arch: &Arch) -> Result<Vec<u8>, AllocError>
    ensures report { IfOk result (λ report. report.items ≡ plain_report ending arch.now.state) }
    ensures count { length arch.now.state.registers ≡ 128 }
{
    let line = ending_text(alloc, ending, arch.register(3), arch.trace().len())?;
    output_text(alloc, arch.output(), line.as_str())
}

// The report of a run, and behind it what is shown.
fn run_text(
    alloc: Global,
    ending: Ending,
    arch: &Arch,
    measured: Measured,
    cost: u64,
    show: Show,
) -> Result<Vec<u8>, AllocError>
    ensures { IfOk result (λ report.
        report.items ≡ run_report ending arch.now.state measured cost show) }
{
    let mut report = plain_text(alloc, ending, arch)?;
    show_registers(alloc, &mut report, show.regs, arch)?;
    show_trace(&mut report, show.trace, arch.trace())?;
    show_counts(&mut report, show.cycles, measured.counts, cost)?;
    show_statistics(
        alloc,
        &mut report,
        show.stats,
        measured.statistics,
        arch.trace(),
    )?;
    show_events(
        &mut report,
        show.events.is_some(),
        measured.events.as_slice(),
    )?;
    Ok(report)
}

/// The report of a run: the output, how the run ended and, as far as they are shown, the registers, the committed
/// blocks, what the run took, `cost` cycles at most, its statistics with how often each block was committed, and the
/// lines of its events. Want of memory is the only error.
pub fn run_report(
    alloc: Global,
    ending: Ending,
    arch: &Arch,
    measured: Measured,
    cost: u64,
    show: Show,
) -> Result<Vec<u8>, Memory>
    ensures ok { IfOk result (λ report.
        report.items ≡ run_report ending arch.now.state measured cost show) }
{
    let report = run_text(alloc, ending, arch, measured, cost, show)?;
    Ok(report)
}
