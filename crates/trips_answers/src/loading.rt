//! Files that are read whole, and the text of the benchmark, which is made.

ghost use Rattle.std.specs.Prelude.{◌≡◌, ◌≤◌, option_copied, IfOk};
ghost use Rattle.trips_outside.specs.Outside.{Rose};
ghost use Rattle.trips_answers.specs.Request.{origin_held, origin_of};
ghost use Rattle.trips_answers.specs.Read.{IsInputRead};
ghost use Rattle.trips_answers.specs.Asks.{most_input_bytes};
ghost use Rattle.trips_requests.specs.Limits.{most_save_bytes};
ghost use Rattle.trips_requests.specs.Table.{IsRead};
ghost use Rattle.trips_requests.specs.inside.Read.{IsWithin};

use base::Items;
use bench_text::bench_text;
use std::alloc::{AllocError, Global};
use trips_outside::Files;
use trips_requests::{Loaded, read};

/// How many bytes an input may have.
pub const MOST_INPUT_BYTES: u64 = 1_048_576;

/// How many bytes a save file may have.
pub const MOST_SAVE_BYTES: u64 = 81_000_000;

/// The limits of the code are those of the definitions. It does nothing when it runs.
#[tactic(auto, unfolding(crate::specs::Asks::most_input_bytes, trips_requests::specs::Limits::most_save_bytes))]
pub fn constants_are_the_definitions()
    ensures input { MOST_INPUT_BYTES ≡ most_input_bytes }
    ensures save { MOST_SAVE_BYTES ≡ most_save_bytes }
{}

/// Reads what a request works with, which may have at most `limit` bytes: the file, or the text of the
/// benchmark where a number of functions is said. Want of memory is the only error.
pub fn read_origin<F: Files>(
    alloc: Global,
    files: &mut F,
    file: &str,
    functions: Option<u32>,
    limit: u64,
) -> Result<Loaded, AllocError>
    ensures ok { IfOk result (IsRead (origin_held (F.held files.old) (origin_of file.now functions))
        (Rose (F.faults files.old) (F.faults files.new)) limit) }
    ensures within { IfOk result (IsWithin limit) }
    ensures kept { F.held files.new ≡ F.held files.old }
    ensures later { F.faults files.old ≤ F.faults files.new }
{
    match functions {
        None => read(alloc, files, file, limit),
        Some(functions) => {
            let text = bench_text(alloc, functions)?;
            if text.len() as u64 > limit {
                Ok(Loaded::TooLarge)
            } else {
                Ok(Loaded::Bytes(Items::from_vec(text)))
            }
        }
    }
}

/// Reads the input, which is empty where no file is named. Want of memory is the only error.
#[tactic(auto, unfolding(crate::specs::Asks::most_input_bytes))]
pub fn read_input<F: Files>(
    alloc: Global,
    files: &mut F,
    name: Option<&str>,
) -> Result<Loaded, AllocError>
    ensures ok { IfOk result (IsInputRead (option_copied name.entry) (F.held files.old)
        (Rose (F.faults files.old) (F.faults files.new))) }
    ensures within { IfOk result (IsWithin most_input_bytes) }
    ensures kept { F.held files.new ≡ F.held files.old }
    ensures later { F.faults files.old ≤ F.faults files.new }
{
    match name {
        None => Ok(Loaded::Bytes(Items::new(alloc))),
        Some(name) => read(alloc, files, name, MOST_INPUT_BYTES),
    }
}
