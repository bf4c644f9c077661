//! The lines that a run shows behind its ending.

ghost use Rattle.std.specs.Prelude.{◌≡◌, ◌++◌, OnOk, length};
ghost use Rattle.trips_report.specs.Runs.{word_digits, register_line, traced_line, count_line};
ghost use Rattle.trips_report.specs.Runs.{register_lines, trace_lines, count_lines, with_part};
ghost use Rattle.trips_report.specs.Runs.{fired_lines, flushed_lines, memory_lines, network_lines, predicted_lines};
ghost use Rattle.trips_report.specs.Commits.{commit_lines};
ghost use Rattle.trips_report.specs.Runs.{flight_line, flight_lines, statistic_lines};
ghost use Rattle.trips_report.specs.Runs.{station_line, station_lines};

use crate::commits::put_commits;
use crate::measured::Statistics;
use block_atomic::Arch;
use hex::encode;
use isa_table::{put_indexed, put_number};
use std::alloc::{AllocError, Global};
use trips_isa::{Counts, Traced};

// Writes a word in sixteen hexadecimal digits.
#[tactic(auto, unfolding(crate::specs::Runs::word_digits))]
fn put_word(alloc: Global, out: &mut Vec<u8>, word: u64) -> Result<(), AllocError>
    ensures ok { OnOk result (out.new.items ≡ out.old.items ++ word_digits word) }
{
    let digits = encode(alloc, word.to_be_bytes())?;
    out.extend_from_slice(digits.as_bytes())
}

// Writes the line of a register.
#[tactic(auto, unfolding(crate::specs::Runs::register_line))]
fn put_register(alloc: Global, out: &mut Vec<u8>, r: u8, word: u64) -> Result<(), AllocError>
    ensures ok { OnOk result (out.new.items ≡ out.old.items ++ register_line r word) }
{
    put_indexed(out, b'G', r as u64)?;
    out.push(b' ')?;
    put_word(alloc, out, word)?;
    out.push(b'\n')?;
    Ok(())
}

// Writes a line for each register.
fn put_registers(alloc: Global, out: &mut Vec<u8>, arch: &Arch) -> Result<(), AllocError>
    requires count { length arch.now.state.registers ≡ 128 }
    ensures ok { OnOk result (out.new.items ≡ out.old.items
        ++ register_lines arch.now.state.registers) }
{
    for r in 0..128u8 {
        put_register(alloc, out, r, arch.register(r))?;
    }
    Ok(())
}

/// Writes a line for each register, where they are shown.
#[tactic(auto, unfolding(crate::specs::Runs::with_part))]
pub fn show_registers(
    alloc: Global,
    out: &mut Vec<u8>,
    shown: bool,
    arch: &Arch,
) -> Result<(), AllocError>
    requires count { length arch.now.state.registers ≡ 128 }
    ensures ok { OnOk result (out.new.items
        ≡ with_part shown (register_lines arch.now.state.registers) out.old.items) }
{
    if shown {
        put_registers(alloc, out, arch)
    } else {
        Ok(())
    }
}

// Writes the line of a committed block.
#[tactic(auto, unfolding(crate::specs::Runs::traced_line))]
fn put_traced(out: &mut Vec<u8>, traced: Traced) -> Result<(), AllocError>
    ensures ok { OnOk result (out.new.items ≡ out.old.items ++ traced_line traced) }
{
    out.extend_from_slice(b"block ")?;
    put_number(out, traced.block as u64)?;
    out.extend_from_slice(b" exit ")?;
    put_number(out, traced.exit as u64)?;
    out.push(b'\n')?;
    Ok(())
}

// Writes a line for each committed block.
fn put_trace(out: &mut Vec<u8>, trace: &[Traced]) -> Result<(), AllocError>
    ensures ok { OnOk result (out.new.items ≡ out.old.items ++ trace_lines trace.now) }
{
    for traced in trace {
        put_traced(out, *traced)?;
    }
    Ok(())
}

/// Writes a line for each committed block, where they are shown.
#[tactic(auto, unfolding(crate::specs::Runs::with_part))]
pub fn show_trace(out: &mut Vec<u8>, shown: bool, trace: &[Traced]) -> Result<(), AllocError>
    ensures ok { OnOk result (out.new.items ≡ with_part shown (trace_lines trace.now)
        out.old.items) }
{
    if shown { put_trace(out, trace) } else { Ok(()) }
}

// Writes a name with a number.
#[tactic(auto, unfolding(crate::specs::Runs::count_line))]
fn put_count(out: &mut Vec<u8>, name: &[u8], n: u64) -> Result<(), AllocError>
    ensures ok { OnOk result (out.new.items ≡ out.old.items ++ count_line name.now n) }
{
    out.extend_from_slice(name)?;
    put_number(out, n)?;
    out.push(b'\n')?;
    Ok(())
}

// Writes what a run took.
#[tactic(auto, unfolding(crate::specs::Runs::count_lines))]
fn put_counts(out: &mut Vec<u8>, counts: Counts, cost: u64) -> Result<(), AllocError>
    ensures ok { OnOk result (out.new.items ≡ out.old.items ++ count_lines counts cost) }
{
    put_count(out, b"blocks ", counts.committed)?;
    put_count(out, b"cycles ", counts.cycles)?;
    put_count(out, b"fetched ", counts.fetched)?;
    put_count(out, b"flushed ", counts.flushed)?;
    put_count(out, b"cost ", cost)?;
    Ok(())
}

/// Writes what a run took, where it is shown.
#[tactic(auto, unfolding(crate::specs::Runs::with_part))]
pub fn show_counts(
    out: &mut Vec<u8>,
    shown: bool,
    counts: Counts,
    cost: u64,
) -> Result<(), AllocError>
    ensures ok { OnOk result (out.new.items ≡ with_part shown (count_lines counts cost)
        out.old.items) }
{
    if shown {
        put_counts(out, counts, cost)
    } else {
        Ok(())
    }
}

// Writes what was fired.
#[tactic(auto, unfolding(crate::specs::Runs::fired_lines))]
fn put_fired(out: &mut Vec<u8>, statistics: Statistics) -> Result<(), AllocError>
    ensures ok { OnOk result (out.new.items ≡ out.old.items ++ fired_lines statistics) }
{
    put_count(out, b"movs ", statistics.movs)?;
    put_count(out, b"nulls ", statistics.nulls)?;
    put_count(out, b"useful ", statistics.useful)
}

// Writes what was loaded and stored.
#[tactic(auto, unfolding(crate::specs::Runs::memory_lines))]
fn put_memory(out: &mut Vec<u8>, statistics: Statistics) -> Result<(), AllocError>
    ensures ok { OnOk result (out.new.items ≡ out.old.items ++ memory_lines statistics) }
{
    put_count(out, b"loads ", statistics.loads)?;
    put_count(out, b"stores ", statistics.stores)
}

// Writes which frames were flushed.
#[tactic(auto, unfolding(crate::specs::Runs::flushed_lines))]
fn put_flushed(out: &mut Vec<u8>, statistics: Statistics) -> Result<(), AllocError>
    ensures ok { OnOk result (out.new.items ≡ out.old.items ++ flushed_lines statistics) }
{
    put_count(out, b"flushed_by_violation ", statistics.violations)?;
    put_count(out, b"flushed_by_exit ", statistics.wrong_exits)?;
    put_count(out, b"flushed_at_end ", statistics.ends)
}

// Writes what was predicted.
#[tactic(auto, unfolding(crate::specs::Runs::predicted_lines))]
fn put_predicted(out: &mut Vec<u8>, statistics: Statistics) -> Result<(), AllocError>
    ensures ok { OnOk result (out.new.items ≡ out.old.items ++ predicted_lines statistics) }
{
    put_count(out, b"predicted ", statistics.predictions)?;
    put_count(out, b"predicted_right ", statistics.right)
}

// Writes what travelled on the operand network.
#[tactic(auto, unfolding(crate::specs::Runs::network_lines))]
fn put_network(out: &mut Vec<u8>, statistics: Statistics) -> Result<(), AllocError>
    ensures ok { OnOk result (out.new.items ≡ out.old.items ++ network_lines statistics) }
{
    put_count(out, b"parcels ", statistics.parcels)?;
    put_count(out, b"links ", statistics.links)?;
    put_count(out, b"waits ", statistics.waits)
}

// Writes how many cycles began with so many frames in flight.
#[tactic(auto, unfolding(crate::specs::Runs::flight_line))]
fn put_flight(out: &mut Vec<u8>, frames: u64, cycles: u64) -> Result<(), AllocError>
    ensures ok { OnOk result (out.new.items ≡ out.old.items ++ flight_line frames cycles) }
{
    out.extend_from_slice(b"in_flight_")?;
    put_number(out, frames)?;
    out.push(b' ')?;
    put_number(out, cycles)?;
    out.push(b'\n')?;
    Ok(())
}

// Writes so for each number of frames.
fn put_flights(out: &mut Vec<u8>, cycles: &[u64]) -> Result<(), AllocError>
    ensures ok { OnOk result (out.new.items ≡ out.old.items ++ flight_lines cycles.now) }
{
    for n in 0..cycles.len() {
        put_flight(out, n as u64, cycles[n])?;
    }
    Ok(())
}

// Writes in how many cycles the unit of a tile was busy.
#[tactic(auto, unfolding(crate::specs::Runs::station_line))]
fn put_station(out: &mut Vec<u8>, tile: u64, cycles: u64) -> Result<(), AllocError>
    ensures ok { OnOk result (out.new.items ≡ out.old.items ++ station_line tile cycles) }
{
    out.extend_from_slice(b"station_")?;
    put_number(out, tile / 4)?;
    out.push(b'_')?;
    put_number(out, tile % 4)?;
    out.push(b' ')?;
    put_number(out, cycles)?;
    out.push(b'\n')?;
    Ok(())
}

// Writes so for each tile.
fn put_stations(out: &mut Vec<u8>, cycles: &[u64]) -> Result<(), AllocError>
    ensures ok { OnOk result (out.new.items ≡ out.old.items ++ station_lines cycles.now) }
{
    for n in 0..cycles.len() {
        put_station(out, n as u64, cycles[n])?;
    }
    Ok(())
}

// Writes the statistics of a run.
#[tactic(auto, unfolding(crate::specs::Runs::statistic_lines))]
fn put_statistics(out: &mut Vec<u8>, statistics: Statistics) -> Result<(), AllocError>
    ensures ok { OnOk result (out.new.items ≡ out.old.items ++ statistic_lines statistics) }
{
    put_fired(out, statistics)?;
    put_memory(out, statistics)?;
    put_flushed(out, statistics)?;
    put_predicted(out, statistics)?;
    put_network(out, statistics)?;
    put_flights(out, &statistics.in_flight)?;
    put_stations(out, &statistics.stations)
}

/// Writes the lines of a run's events, where they are shown.
#[tactic(auto, unfolding(crate::specs::Runs::with_part))]
pub fn show_events(out: &mut Vec<u8>, shown: bool, lines: &[u8]) -> Result<(), AllocError>
    ensures ok { OnOk result (out.new.items ≡ with_part shown lines.now out.old.items) }
{
    if shown {
        out.extend_from_slice(lines)
    } else {
        Ok(())
    }
}

// Writes the statistics of a run, and how often each block was committed.
fn put_statistics_and_commits(
    alloc: Global,
    out: &mut Vec<u8>,
    statistics: Statistics,
    trace: &[Traced],
) -> Result<(), AllocError>
    ensures ok { OnOk result (out.new.items
        ≡ out.old.items ++ (statistic_lines statistics ++ commit_lines trace.now)) }
{
    put_statistics(out, statistics)?;
    put_commits(alloc, out, trace)
}

/// Writes the statistics of a run, and how often each block was committed, where they are shown.
#[tactic(auto, unfolding(crate::specs::Runs::with_part))]
pub fn show_statistics(
    alloc: Global,
    out: &mut Vec<u8>,
    shown: bool,
    statistics: Statistics,
    trace: &[Traced],
) -> Result<(), AllocError>
    ensures ok { OnOk result (out.new.items
        ≡ with_part shown (statistic_lines statistics ++ commit_lines trace.now) out.old.items) }
{
    if shown {
        put_statistics_and_commits(alloc, out, statistics, trace)
    } else {
        Ok(())
    }
}
