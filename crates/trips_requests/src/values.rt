//! What the values of options say.

ghost use Rattle.std.specs.Prelude.{◌≡◌, option_copied};
ghost use Rattle.trips_requests.specs.Limits.{most_cycle, number_within};
ghost use Rattle.trips_requests.specs.Options.{is_c_name};
ghost use Rattle.trips_requests.specs.Requests.{cycles_from, cycles_said, events_said, frames_of, frames_said};
ghost use Rattle.trips_requests.specs.Requests.{place_said, predictor_named, predictor_said, seed_said, unroll_said};
ghost use Rattle.trips_requests.specs.Requests.{weather_named, weather_said};

use crate::commands::{
    Cycles, MOST_CYCLE, MOST_FRAMES, MOST_SEED, MOST_TURNS, PredictorStart, WeatherKind,
};
use crate::number::{number, number_within};

/// Whether the file is C, by the ending of its name.
pub fn is_c_name(file: &str) -> bool
    ensures { result ≡ is_c_name file.now }
{
    let bytes = file.as_bytes();
    !bytes.ends_with(b".img") && !bytes.ends_with(b".tasl")
}

/// The number by which compiled blocks are placed, if one is said: of C alone.
pub fn place_said(file: &str, word: Option<&str>) -> Option<Option<u64>>
    ensures { result ≡ place_said file.now (option_copied word.entry) }
{
    match word {
        None => Some(None),
        Some(word) => {
            if !is_c_name(file) {
                return None;
            }
            let place = number_within(word.as_bytes(), MOST_SEED)?;
            Some(Some(place))
        }
    }
}

/// How many turns of a loop a compiled block may hold, and 1 where none is said: of C alone.
pub fn unroll_said(file: &str, word: Option<&str>) -> Option<u8>
    ensures { result ≡ unroll_said file.now (option_copied word.entry) }
{
    match word {
        None => Some(1),
        Some(word) => {
            if !is_c_name(file) {
                return None;
            }
            let turns = number(word.as_bytes(), MOST_TURNS)?;
            Some(turns as u8)
        }
    }
}

/// The seed that a word says, and 0 where there is none.
pub fn seed_said(word: Option<&str>) -> Option<u64>
    ensures { result ≡ seed_said (option_copied word.entry) }
{
    match word {
        None => Some(0),
        Some(word) => number_within(word.as_bytes(), MOST_SEED),
    }
}

// What a word says of the predictor's table.
#[tactic(auto, unfolding(crate::specs::Requests::predictor_named))]
fn predictor_named(word: &str) -> Option<PredictorStart>
    ensures { result ≡ predictor_named word.now }
{
    if word == "seeded" {
        Some(PredictorStart::Seeded)
    } else if word == "zero" {
        Some(PredictorStart::Zero)
    } else if word == "none" {
        Some(PredictorStart::Unused)
    } else {
        None
    }
}

// What a word says of the weather.
#[tactic(auto, unfolding(crate::specs::Requests::weather_named))]
fn weather_named(word: &str) -> Option<WeatherKind>
    ensures { result ≡ weather_named word.now }
{
    if word == "seeded" {
        Some(WeatherKind::Seeded)
    } else if word == "calm" {
        Some(WeatherKind::Calm)
    } else if word == "worst" {
        Some(WeatherKind::Worst)
    } else {
        None
    }
}

/// What the predictor's table holds as a run begins, by the word that is said, and the seed's exits where none is.
pub fn predictor_said(word: Option<&str>) -> Option<PredictorStart>
    ensures { result ≡ predictor_said (option_copied word.entry) }
{
    match word {
        None => Some(PredictorStart::Seeded),
        Some(word) => predictor_named(word),
    }
}

/// For how long parcels are held, by the word that is said, and as the seed draws it where none is.
pub fn weather_said(word: Option<&str>) -> Option<WeatherKind>
    ensures { result ≡ weather_said (option_copied word.entry) }
{
    match word {
        None => Some(WeatherKind::Seeded),
        Some(word) => weather_named(word),
    }
}

// How many frames may be in flight at most: one where nothing is predicted.
fn frames_of(predictor: PredictorStart) -> u32
    ensures { result ≡ frames_of predictor }
{
    match predictor {
        PredictorStart::Unused => 1,
        _ => MOST_FRAMES,
    }
}

/// How many frames may be in flight, and all that may be where nothing is said.
pub fn frames_said(predictor: PredictorStart, word: Option<&str>) -> Option<u8>
    ensures { result ≡ frames_said predictor (option_copied word.entry) }
{
    let most = frames_of(predictor);
    match word {
        None => Some(most as u8),
        Some(word) => {
            let frames = number(word.as_bytes(), most)?;
            Some(frames as u8)
        }
    }
}

// The cycles from one to another, where there are some.
fn cycles_from(first: u64, last: u64) -> Option<Cycles>
    ensures { result ≡ cycles_from first last }
{
    if 1 <= first && first <= last {
        Some(Cycles { first, last })
    } else {
        None
    }
}

// The number of a cycle that a word says.
fn cycle_said(word: &str) -> Option<u64>
    ensures { result ≡ number_within most_cycle word.now }
{
    number_within(word.as_bytes(), MOST_CYCLE)
}

// The cycles that a word says: two numbers, and between them a dash.
fn cycles_said(word: &str) -> Option<Cycles>
    ensures { result ≡ cycles_said word.now }
{
    let (first, last) = word.split_once('-')?;
    cycles_from(cycle_said(first)?, cycle_said(last)?)
}

/// The cycles whose events are shown, if any are: of no request that shows the statistics.
pub fn events_said(stats: bool, word: Option<&str>) -> Option<Option<Cycles>>
    ensures { result ≡ events_said stats (option_copied word.entry) }
{
    match word {
        None => Some(None),
        Some(word) => {
            if stats {
                return None;
            }
            let cycles = cycles_said(word)?;
            Some(Some(cycles))
        }
    }
}
