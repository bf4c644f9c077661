//! What a run of the grid begins with beside the machine's state: the predictor and the weather.
ghost use Rattle.std.specs.Prelude.{◌≡◌, IfOk, []};
ghost use Rattle.block_predict.specs.Predicts.{holding};
ghost use Rattle.grid_cycle.specs.Conditions.{entries_of, predictor_of, weather_of, zero_entries};

use crate::weather::AnyWeather;
use base::Memory;
use block_predict::Predictor;
use operand_net::PcgWeather;
use std::alloc::Global;

/// What the table of the predictor holds at the start of a run.
#[derive(Clone, Copy, Debug, PartialEq, Eq)]
pub enum Exits {
    /// the exits that the seed draws
    Seeded,
    /// exit 0 everywhere
    Zero,
}

/// For how long parcels are held.
#[derive(Clone, Copy, Debug, PartialEq, Eq)]
pub enum Holds {
    /// as the seed draws it, 0 to 3 cycles each
    Seeded,
    /// none is held
    Calm,
    /// each for 3 cycles
    Worst,
}

/// The conditions of a run. The seed acts on what it draws alone.
#[derive(Clone, Copy, Debug)]
pub struct Conditions {
    pub seed: u64,
    /// what the predictor's table holds at the start
    pub exits: Exits,
    /// what the weather is
    pub holds: Holds,
    /// how many frames may be in flight, from 1 to 8: one at least
    pub frames: u8,
}

impl Conditions {
    /// The conditions under which all is drawn by a seed.
    pub fn seeded(seed: u64) -> Conditions
        ensures { result ≡ (record { seed = seed; exits = Exits.Seeded; holds = Holds.Seeded; frames = 8 }) }
    {
        Conditions {
            seed,
            exits: Exits::Seeded,
            holds: Holds::Seeded,
            frames: 8,
        }
    }
}

// The predictor whose table names exit 0 everywhere.
fn zero_predictor(alloc: Global) -> Result<Predictor, Memory>
    ensures { IfOk result (λ p. p ≡ holding zero_entries 0 []) }
{
    let entries = vec![in alloc; 0u8; 1024]?;
    Predictor::wrong(alloc, entries)
}

// The predictor whose table holds these exits.
fn table_for(alloc: Global, exits: Exits, seed: u64) -> Result<Predictor, Memory>
    ensures { IfOk result (λ p. p ≡ holding (entries_of exits seed) 0 []) }
{
    match exits {
        Exits::Seeded => Predictor::make(alloc, seed),
        Exits::Zero => zero_predictor(alloc),
    }
}

/// The predictor of these conditions, with history 0 and an empty return stack. Want of memory is the only error.
pub fn predictor_for(alloc: Global, conditions: Conditions) -> Result<Predictor, Memory>
    ensures { IfOk result (λ p. p ≡ predictor_of conditions) }
{
    let mut predictor = table_for(alloc, conditions.exits, conditions.seed)?;
    predictor.limit(conditions.frames.saturating_sub(1));
    Ok(predictor)
}

/// The weather of these conditions.
pub fn weather_for(conditions: Conditions) -> AnyWeather
    ensures { result ≡ weather_of conditions }
{
    AnyWeather {
        holds: conditions.holds,
        drawn: PcgWeather::make(conditions.seed),
    }
}
