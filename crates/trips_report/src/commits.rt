//! The committed blocks of a run by their numbers.

ghost use Rattle.std.specs.Prelude.{◌≡◌, ◌≤◌, ◌<◌, ◌+◌, ◌++◌, ℕ, IfOk, OnOk, length, slice_index_or};
ghost use Rattle.trips_report.specs.Commits.{above, commit_line, commit_lines, commits_of, greater, lines_below};

use isa_table::put_number;
use std::alloc::{AllocError, Global};
use trips_isa::Traced;

// The greater one of two numbers.
fn greater(a: usize, b: usize) -> usize
    ensures { result ≡ greater a b }
{
    if a < b { b } else { a }
}

// The lowest number above those of all blocks of a trace.
fn above(trace: &[Traced]) -> usize
    ensures { result ≡ above trace.now }
{
    let mut most: usize = 0;
    for traced in trace {
        most = greater(most, traced.block as usize + 1);
    }
    most
}

// How many blocks of a trace have each of so many numbers, which are those of all.
fn counts_of(alloc: Global, trace: &[Traced], numbers: usize) -> Result<Vec<u64>, AllocError>
    requires { above trace.now ≤ numbers }
    ensures size { IfOk result (λ counts. length counts.items ≡ numbers) }
    ensures each { IfOk result (λ counts. (k : ℕ) → k < numbers
        → slice_index_or counts.items k 0 ≡ commits_of k trace.now) }
{
    let mut counts = vec![in alloc; 0u64; numbers]?;
    for traced in trace {
        counts[traced.block as usize] += 1;
    }
    Ok(counts)
}

// Writes the line of a block that was committed so often.
#[tactic(auto, unfolding(crate::specs::Commits::commit_line))]
fn put_commit(out: &mut Vec<u8>, block: u64, times: u64) -> Result<(), AllocError>
    ensures ok { OnOk result (out.new.items ≡ out.old.items ++ commit_line block times) }
{
    if times == 0 {
        return Ok(());
    }
    out.extend_from_slice(b"block ")?;
    put_number(out, block)?;
    out.extend_from_slice(b" committed ")?;
    put_number(out, times)?;
    out.push(b'\n')?;
    Ok(())
}

// Writes the lines of the blocks of the lowest numbers, each committed so often.
fn put_counts(out: &mut Vec<u8>, counts: &[u64]) -> Result<(), AllocError>
    ensures ok { OnOk result (out.new.items
        ≡ out.old.items ++ lines_below (λ k. slice_index_or counts.now k 0) (length counts.now)) }
{
    for k in 0..counts.len() {
        put_commit(out, k as u64, counts[k])?;
    }
    Ok(())
}

/// Writes a line for each number that blocks of a trace have. It takes room for as many numbers as the greatest.
pub fn put_commits(alloc: Global, out: &mut Vec<u8>, trace: &[Traced]) -> Result<(), AllocError>
    ensures ok { OnOk result (out.new.items ≡ out.old.items ++ commit_lines trace.now) }
{
    let numbers = above(trace);
    let counts = counts_of(alloc, trace, numbers)?;
    put_counts(out, &counts)
}
