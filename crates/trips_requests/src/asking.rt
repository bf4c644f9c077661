//! The request of a command, of its file and of what was found of its options.

ghost use Rattle.std.specs.Prelude.{◌≡◌, ◌+◌, Some, option_map, option_copied};
ghost use Rattle.trips_requests.specs.Limits.{most_drawn, number_within};
ghost use Rattle.trips_requests.specs.Options.{count_of, counted, is_on, later_said, second_said};
ghost use Rattle.trips_requests.specs.Options.{takes_file, takes_options};
ghost use Rattle.trips_requests.specs.inside.Options.{options_seen};
ghost use Rattle.trips_requests.specs.Verbs.{command_of, command_said, verb_named};
ghost use Rattle.trips_requests.specs.Requests.{functions_said, most_said};
ghost use Rattle.trips_requests.specs.Requests.{request_of_file, request_of_files, request_taken, request_with};
ghost use Rattle.trips_requests.specs.inside.Requests.{request_seen};

use crate::commands::{
    Asked, Command, DEFAULT_COUNT, DEFAULT_RECORDED, MOST_COUNT, MOST_DRAWN, MOST_FUNCTIONS,
    MOST_RECORDED, Verb,
};
use crate::number::{number, number_within};
use crate::values::{
    events_said, frames_said, is_c_name, place_said, predictor_said, seed_said, unroll_said,
    weather_said,
};

/// What was found of a command's options and of its places behind the first: each value if it is said, and whether a
/// flag is.
#[derive(Clone, Copy)]
pub struct FoundOptions<'a> {
    pub second: Option<&'a str>,
    pub third: Option<&'a str>,
    pub fourth: Option<&'a str>,
    pub input: Option<&'a str>,
    /// how many blocks or steps
    pub number: Option<&'a str>,
    pub place: Option<&'a str>,
    /// how many turns of a loop a block may hold
    pub unroll: Option<&'a str>,
    pub seed: Option<&'a str>,
    /// what the predictor's table holds as a run begins
    pub predictor: Option<&'a str>,
    /// for how long parcels are held
    pub weather: Option<&'a str>,
    /// how many frames may be in flight
    pub frames: Option<&'a str>,
    pub regs: bool,
    pub trace: bool,
    pub cycles: bool,
    pub stats: bool,
    /// the cycles whose events are shown
    pub events: Option<&'a str>,
    /// whether the compiled image is listed
    pub listing: bool,
    /// whether it is told where in a text its run traps
    pub trap: bool,
}

/// What a name stands for.
#[tactic(auto, unfolding(crate::specs::Verbs::verb_named))]
pub fn verb_named(name: &str) -> Option<Verb>
    ensures { result ≡ verb_named name.now }
{
    if name == "run" {
        Some(Verb::Run)
    } else if name == "bench" {
        Some(Verb::Bench)
    } else if name == "eval" {
        Some(Verb::Evaluate)
    } else if name == "compile" {
        Some(Verb::Compile)
    } else if name == "asm" {
        Some(Verb::Assemble)
    } else if name == "dis" {
        Some(Verb::Disassemble)
    } else if name == "check" {
        Some(Verb::Check)
    } else if name == "explain" {
        Some(Verb::Explain)
    } else if name == "record" {
        Some(Verb::Record)
    } else if name == "verify" {
        Some(Verb::Verify)
    } else if name == "save" {
        Some(Verb::Save)
    } else if name == "resume" {
        Some(Verb::Resume)
    } else if name == "four" {
        Some(Verb::Four)
    } else if name == "draw" {
        Some(Verb::Draw)
    } else {
        None
    }
}

// What is done.
fn command_of(verb: Verb) -> Command
    ensures { result ≡ command_of verb }
{
    match verb {
        Verb::Run => Command::Run,
        Verb::Bench => Command::Run,
        Verb::Evaluate => Command::Evaluate,
        Verb::Compile => Command::Compile,
        Verb::Assemble => Command::Assemble,
        Verb::Disassemble => Command::Disassemble,
        Verb::Check => Command::Check,
        Verb::Explain => Command::Explain,
        Verb::Record => Command::Record,
        Verb::Verify => Command::Verify,
        Verb::Save => Command::Save,
        Verb::Resume => Command::Resume,
        Verb::Four => Command::Four,
        Verb::Draw => Command::Draw,
    }
}

// What is done where a listing is asked for, or not, and where a trap is asked for, or not.
fn command_said(verb: Verb, listing: bool, trap: bool) -> Command
    ensures { result ≡ command_said verb listing trap }
{
    match verb {
        Verb::Compile if listing => Command::List,
        Verb::Explain if trap => Command::Trap,
        _ => command_of(verb),
    }
}

/// The option of a command that takes a number, or the place where its number stands.
pub fn counted(command: Verb) -> &'static str
    ensures { result.now ≡ counted command }
{
    match command {
        Verb::Run => "blocks",
        Verb::Bench => "blocks",
        Verb::Record => "blocks",
        Verb::Resume => "blocks",
        Verb::Four => "blocks",
        Verb::Save => "SECOND",
        Verb::Draw => "SECOND",
        _ => "steps",
    }
}

// How many functions the benchmark has, by its word; none of another command.
fn functions_said(command: Verb, word: &str) -> Option<Option<u32>>
    ensures { result ≡ functions_said command word.now }
{
    if command == Verb::Bench {
        let functions = number(word.as_bytes(), MOST_FUNCTIONS)?;
        Some(Some(functions))
    } else {
        Some(None)
    }
}

// How many blocks or steps a command may be asked for, and how many it takes without a number: two commands want one.
fn count_of(command: Verb) -> (u32, Option<u32>)
    ensures most { result.0 ≡ (count_of command).0 }
    ensures default { result.1 ≡ (count_of command).1 }
{
    match command {
        Verb::Record => (MOST_RECORDED, Some(DEFAULT_RECORDED)),
        Verb::Save => (MOST_COUNT, None),
        Verb::Draw => (MOST_COUNT, None),
        _ => (MOST_COUNT, Some(DEFAULT_COUNT)),
    }
}

// How many blocks there are up to that of the number that a word says.
fn drawn_said(word: &str) -> Option<u32>
    ensures { result ≡ option_map (λ n. n + 1) (number_within most_drawn word.now) }
{
    match number_within(word.as_bytes(), MOST_DRAWN) {
        None => None,
        Some(block) => Some(block as u32 + 1),
    }
}

// How many blocks or steps a number says.
fn number_said(command: Verb, most: u32, word: &str) -> Option<u32>
    requires { most ≡ (count_of command).0 }
    ensures { result ≡ most_said command (Some word.now) }
{
    match command {
        Verb::Draw => drawn_said(word),
        _ => number(word.as_bytes(), most),
    }
}

// That, and how many are taken without a number.
fn most_said(command: Verb, word: Option<&str>) -> Option<u32>
    ensures { result ≡ most_said command (option_copied word.entry) }
{
    let (most, default) = count_of(command);
    match word {
        None => default,
        Some(word) => number_said(command, most, word),
    }
}

// The second file, which two commands have, and no other.
fn second_said<'a>(command: Verb, word: Option<&'a str>) -> Option<Option<&'a str>>
    ensures { option_map (λ second. option_copied second) result ≡ second_said command (option_copied word.entry) }
{
    match command {
        Verb::Verify => Some(Some(word?)),
        Verb::Four => Some(Some(word?)),
        _ => Some(None),
    }
}

// The third file, or the fourth, which one command has, and no other.
fn later_said<'a>(command: Verb, word: Option<&'a str>) -> Option<Option<&'a str>>
    ensures { option_map (λ later. option_copied later) result ≡ later_said command (option_copied word.entry) }
{
    match command {
        Verb::Four => Some(Some(word?)),
        _ => Some(None),
    }
}

/// Whether a flag is said, by its value.
pub fn is_on(value: Option<&str>) -> bool
    ensures { result ≡ is_on (option_copied value.entry) }
{
    match value {
        Some(text) => text == "true",
        None => false,
    }
}

// Whether the name of the file is one that the command takes.
fn takes_file(command: Verb, file: &str) -> bool
    ensures { result ≡ takes_file command file.now }
{
    match command {
        Verb::Record => file.as_bytes().ends_with(b".img"),
        _ => true,
    }
}

// Whether the command takes these options of the file.
fn takes_options(command: Verb, file: &str, options: FoundOptions<'_>) -> bool
    ensures { result ≡ takes_options command file.now (options_seen options.entry) }
{
    match command {
        Verb::Explain => {
            is_c_name(file)
                || (options.input.is_none() && options.number.is_none() && !options.trap)
        }
        _ => true,
    }
}

// The request of a command, of its files or its number of functions, and of its options.
fn request_of_file<'a>(
    command: Verb,
    file: &'a str,
    options: FoundOptions<'a>,
    second: Option<&'a str>,
    third: Option<&'a str>,
    fourth: Option<&'a str>,
) -> Option<Asked<'a>>
    ensures { option_map request_seen result
        ≡ request_of_file command file.now (options_seen options.entry) (option_copied second.entry)
        (option_copied third.entry) (option_copied fourth.entry) }
{
    let functions = functions_said(command, file)?;
    let most = most_said(command, options.number)?;
    let place = place_said(file, options.place)?;
    let unroll = unroll_said(file, options.unroll)?;
    let events = events_said(options.stats, options.events)?;
    let seed = seed_said(options.seed)?;
    let predictor = predictor_said(options.predictor)?;
    let weather = weather_said(options.weather)?;
    let frames = frames_said(predictor, options.frames)?;
    Some(Asked {
        command: command_said(command, options.listing, options.trap),
        file,
        second,
        third,
        fourth,
        functions,
        input: options.input,
        most,
        place,
        unroll,
        seed,
        predictor,
        weather,
        frames,
        regs: options.regs,
        trace: options.trace,
        cycles: options.cycles,
        stats: options.stats,
        events,
    })
}

// The request of a command, of its file, of those behind it, which it has, and of its options.
fn request_of_files<'a>(
    command: Verb,
    file: &'a str,
    options: FoundOptions<'a>,
) -> Option<Asked<'a>>
    ensures { option_map request_seen result
        ≡ request_of_files command file.now (options_seen options.entry) }
{
    let second = second_said(command, options.second)?;
    let third = later_said(command, options.third)?;
    let fourth = later_said(command, options.fourth)?;
    request_of_file(command, file, options, second, third, fourth)
}

// The request of a command, of its file, which it takes, of those behind it, and of its options, which it takes too.
fn request_taken<'a>(command: Verb, file: &'a str, options: FoundOptions<'a>) -> Option<Asked<'a>>
    ensures { option_map request_seen result
        ≡ request_taken command file.now (options_seen options.entry) }
{
    if !takes_file(command, file) || !takes_options(command, file, options) {
        return None;
    }
    request_of_files(command, file, options)
}

/// The request of a command, of its file and of its options.
pub fn request_with<'a>(
    command: Verb,
    file: Option<&'a str>,
    options: FoundOptions<'a>,
) -> Option<Asked<'a>>
    ensures { option_map request_seen result
        ≡ request_with command (option_copied file.entry) (options_seen options.entry) }
{
    request_taken(command, file?, options)
}
