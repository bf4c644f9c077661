//! What a request reads its file as, and how its work is done.

ghost use Rattle.std.specs.Prelude.{◌≡◌};
ghost use Rattle.trips_answers.specs.Request.{exits_of, form_named, form_of, holds_of, placing_of};
ghost use Rattle.trips_answers.specs.Settings.{settings_of};
ghost use Rattle.trips_answers.specs.inside.Settings.{request_seen};

use grid_cycle::{Conditions, Exits, Holds};
use grid_place::Placing;
use trips_report::Show;
use trips_requests::{Asked, Command, PredictorStart, WeatherKind};

/// What a file is read as.
#[derive(Clone, Copy, Debug, PartialEq, Eq)]
pub enum FileForm {
    Source,
    Target,
    Image,
    /// a state that was saved
    Saved,
}

/// How the work of a request is done.
#[derive(Clone, Copy, Debug)]
pub struct Settings {
    /// how the blocks of a compiled program are placed
    pub placing: Placing,
    /// how many turns of a loop each of them does at most
    pub unroll: u8,
    /// the seed of the grid's predictor and of its network's delays
    pub seed: u64,
    /// of a run, what the grid begins with
    pub conditions: Conditions,
    /// how many blocks or steps it may take; of `draw` the blocks up to that which is drawn
    pub most: u32,
    /// what the report of a run shows behind its ending
    pub show: Show,
}

/// What `run`, `save`, `draw`, `explain` and `four` read a file as, by the ending of its name.
pub fn form_named(file: &str) -> FileForm
    ensures { result ≡ form_named file.now }
{
    let bytes = file.as_bytes();
    if bytes.ends_with(b".img") {
        FileForm::Image
    } else if bytes.ends_with(b".tasl") {
        FileForm::Target
    } else {
        FileForm::Source
    }
}

/// What a command reads a file as.
pub fn form_of(command: Command, file: &str) -> FileForm
    ensures { result ≡ form_of command file.now }
{
    match command {
        Command::Run => form_named(file),
        Command::Evaluate => FileForm::Source,
        Command::Compile => FileForm::Source,
        Command::List => FileForm::Source,
        Command::Assemble => FileForm::Target,
        Command::Disassemble => FileForm::Image,
        Command::Check => FileForm::Image,
        Command::Explain => form_named(file),
        Command::Trap => form_named(file),
        Command::Record => FileForm::Image,
        Command::Verify => FileForm::Image,
        Command::Save => form_named(file),
        Command::Resume => FileForm::Saved,
        Command::Four => form_named(file),
        Command::Draw => form_named(file),
    }
}

// How compiled blocks are placed, by the number that is said.
fn placing_of(place: Option<u64>) -> Placing
    ensures { result ≡ placing_of place }
{
    match place {
        None => Placing::Greedy,
        Some(number) => Placing::Seeded(number),
    }
}

// What the predictor's table holds as a run begins.
fn exits_of(predictor: PredictorStart) -> Exits
    ensures { result ≡ exits_of predictor }
{
    match predictor {
        PredictorStart::Seeded => Exits::Seeded,
        PredictorStart::Zero => Exits::Zero,
        PredictorStart::Unused => Exits::Zero,
    }
}

// For how long parcels are held.
fn holds_of(weather: WeatherKind) -> Holds
    ensures { result ≡ holds_of weather }
{
    match weather {
        WeatherKind::Seeded => Holds::Seeded,
        WeatherKind::Calm => Holds::Calm,
        WeatherKind::Worst => Holds::Worst,
    }
}

/// How the work of a request is done.
pub fn settings_for(asked: Asked<'_>) -> Settings
    ensures { result ≡ settings_of (request_seen asked.entry) }
{
    Settings {
        placing: placing_of(asked.place),
        unroll: asked.unroll,
        seed: asked.seed,
        conditions: Conditions {
            seed: asked.seed,
            exits: exits_of(asked.predictor),
            holds: holds_of(asked.weather),
            frames: asked.frames,
        },
        most: asked.most,
        show: Show {
            regs: asked.regs,
            trace: asked.trace,
            cycles: asked.cycles,
            stats: asked.stats,
            events: asked.events,
        },
    }
}
