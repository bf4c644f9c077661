//! The words behind a command's name, as `clap` reads them.

ghost use Rattle.std.specs.Prelude.{◌≡◌, ◌≢◌, List, [], ◌∷◌, IfOk, None, false, codes, drop, map, string_bytes};
ghost use Rattle.clap.specs.Words.{rule_of, app_of, kind_of};
ghost use Rattle.clap.specs.declared.error.kind.ErrorKind.TheVariants.{OutOfMemory};
ghost use Rattle.trips_requests.specs.Words.{Text, Named, file_name, fourth_name, second_name, third_name};
ghost use Rattle.trips_requests.specs.Words.{words_read, valued, flag};
ghost use Rattle.trips_requests.specs.Options.{options_of, places_of, run_options, bench_options, eval_options};
ghost use Rattle.trips_requests.specs.Options.{compile_options, draw_options, four_options, record_options};
ghost use Rattle.trips_requests.specs.Options.{explain_options, resume_options};
ghost use Rattle.trips_requests.specs.Options.{save_options, verify_options};
ghost use Rattle.trips_words.specs.inside.Read.{raw_rule, raw_app, IsRead, Tells};

use base::Memory;
use clap::error::ErrorKind;
use clap::{Arg, ArgAction, ArgMatches, Error};
use std::alloc::{AllocError, Global};
use trips_requests::Verb;

// The name under which the file stands.
const FILE: &str = "FILE";

// The name under which a second word stands: a file, or a number of blocks.
const SECOND: &str = "SECOND";

// The names under which a third file and a fourth stand.
const THIRD: &str = "THIRD";

const FOURTH: &str = "FOURTH";

// An option to which a value belongs.
fn valued<'a>(alloc: Global, name: &'a str) -> Arg<'a>
    ensures rule { rule_of result ≡ raw_rule (valued name.entry.now) }
    ensures local { result.global ≡ false }
{
    Arg::new(alloc, name).long(name).action(ArgAction::Set)
}

// An option to which none belongs.
fn flag<'a>(alloc: Global, name: &'a str) -> Arg<'a>
    ensures rule { rule_of result ≡ raw_rule (flag name.entry.now) }
    ensures local { result.global ≡ false }
{
    Arg::new(alloc, name).long(name).action(ArgAction::SetTrue)
}

// `run`, its options and its file.
fn run_command<'a>(alloc: Global) -> Result<clap::Command<'a>, AllocError>
    ensures { IfOk result (λ command. app_of command ≡ raw_app (codes "run") run_options (file_name ∷ [])) }
{
    clap::Command::new(alloc, "run")
        .disable_help_flag(true)
        .arg(valued(alloc, "input"))?
        .arg(valued(alloc, "blocks"))?
        .arg(valued(alloc, "place"))?
        .arg(valued(alloc, "unroll"))?
        .arg(valued(alloc, "seed"))?
        .arg(flag(alloc, "regs"))?
        .arg(flag(alloc, "trace"))?
        .arg(flag(alloc, "cycles"))?
        .arg(flag(alloc, "stats"))?
        .arg(valued(alloc, "events"))?
        .arg(valued(alloc, "predictor"))?
        .arg(valued(alloc, "weather"))?
        .arg(valued(alloc, "frames"))?
        .arg(Arg::new(alloc, FILE))
}

// `bench`, its options and its number.
fn bench_command<'a>(alloc: Global) -> Result<clap::Command<'a>, AllocError>
    ensures { IfOk result (λ command. app_of command ≡ raw_app (codes "bench") bench_options (file_name ∷ [])) }
{
    clap::Command::new(alloc, "bench")
        .disable_help_flag(true)
        .arg(valued(alloc, "blocks"))?
        .arg(valued(alloc, "place"))?
        .arg(valued(alloc, "unroll"))?
        .arg(valued(alloc, "seed"))?
        .arg(flag(alloc, "cycles"))?
        .arg(valued(alloc, "predictor"))?
        .arg(valued(alloc, "weather"))?
        .arg(valued(alloc, "frames"))?
        .arg(Arg::new(alloc, FILE))
}

// `eval`, its options and its file.
fn eval_command<'a>(alloc: Global) -> Result<clap::Command<'a>, AllocError>
    ensures { IfOk result (λ command. app_of command ≡ raw_app (codes "eval") eval_options (file_name ∷ [])) }
{
    clap::Command::new(alloc, "eval")
        .disable_help_flag(true)
        .arg(valued(alloc, "input"))?
        .arg(valued(alloc, "steps"))?
        .arg(Arg::new(alloc, FILE))
}

// `explain`, its options and its file.
fn explain_command<'a>(alloc: Global) -> Result<clap::Command<'a>, AllocError>
    ensures { IfOk result (λ command. app_of command ≡ raw_app (codes "explain") explain_options (file_name ∷ [])) }
{
    clap::Command::new(alloc, "explain")
        .disable_help_flag(true)
        .arg(valued(alloc, "input"))?
        .arg(valued(alloc, "steps"))?
        .arg(flag(alloc, "trap"))?
        .arg(Arg::new(alloc, FILE))
}

// `compile`, its options and its file.
fn compile_command<'a>(alloc: Global) -> Result<clap::Command<'a>, AllocError>
    ensures { IfOk result (λ command. app_of command ≡ raw_app (codes "compile") compile_options (file_name ∷ [])) }
{
    clap::Command::new(alloc, "compile")
        .disable_help_flag(true)
        .arg(valued(alloc, "place"))?
        .arg(valued(alloc, "unroll"))?
        .arg(flag(alloc, "listing"))?
        .arg(Arg::new(alloc, FILE))
}

// `record`, its options and its file.
fn record_command<'a>(alloc: Global) -> Result<clap::Command<'a>, AllocError>
    ensures { IfOk result (λ command. app_of command ≡ raw_app (codes "record") record_options (file_name ∷ [])) }
{
    clap::Command::new(alloc, "record")
        .disable_help_flag(true)
        .arg(valued(alloc, "input"))?
        .arg(valued(alloc, "blocks"))?
        .arg(Arg::new(alloc, FILE))
}

// `verify`, its option and its two files.
fn verify_command<'a>(alloc: Global) -> Result<clap::Command<'a>, AllocError>
    ensures { IfOk result (λ command. app_of command
        ≡ raw_app (codes "verify") verify_options (file_name ∷ second_name ∷ [])) }
{
    clap::Command::new(alloc, "verify")
        .disable_help_flag(true)
        .arg(valued(alloc, "input"))?
        .arg(Arg::new(alloc, FILE))?
        .arg(Arg::new(alloc, SECOND))
}

// `save`, its options, its file and its number of blocks.
fn save_command<'a>(alloc: Global) -> Result<clap::Command<'a>, AllocError>
    ensures { IfOk result (λ command. app_of command
        ≡ raw_app (codes "save") save_options (file_name ∷ second_name ∷ [])) }
{
    clap::Command::new(alloc, "save")
        .disable_help_flag(true)
        .arg(valued(alloc, "input"))?
        .arg(valued(alloc, "seed"))?
        .arg(Arg::new(alloc, FILE))?
        .arg(Arg::new(alloc, SECOND))
}

// `resume`, its options and its file.
fn resume_command<'a>(alloc: Global) -> Result<clap::Command<'a>, AllocError>
    ensures { IfOk result (λ command. app_of command ≡ raw_app (codes "resume") resume_options (file_name ∷ [])) }
{
    clap::Command::new(alloc, "resume")
        .disable_help_flag(true)
        .arg(valued(alloc, "blocks"))?
        .arg(valued(alloc, "seed"))?
        .arg(flag(alloc, "regs"))?
        .arg(flag(alloc, "trace"))?
        .arg(flag(alloc, "cycles"))?
        .arg(flag(alloc, "stats"))?
        .arg(valued(alloc, "events"))?
        .arg(valued(alloc, "predictor"))?
        .arg(valued(alloc, "weather"))?
        .arg(valued(alloc, "frames"))?
        .arg(Arg::new(alloc, FILE))
}

// `four`, its options and its files.
fn four_command<'a>(alloc: Global) -> Result<clap::Command<'a>, AllocError>
    ensures { IfOk result (λ command. app_of command ≡ raw_app (codes "four") four_options
        (file_name ∷ second_name ∷ third_name ∷ fourth_name ∷ [])) }
{
    clap::Command::new(alloc, "four")
        .disable_help_flag(true)
        .arg(valued(alloc, "input"))?
        .arg(valued(alloc, "blocks"))?
        .arg(valued(alloc, "seed"))?
        .arg(flag(alloc, "cycles"))?
        .arg(Arg::new(alloc, FILE))?
        .arg(Arg::new(alloc, SECOND))?
        .arg(Arg::new(alloc, THIRD))?
        .arg(Arg::new(alloc, FOURTH))
}

// `draw`, its options, its file and the number of its block.
fn draw_command<'a>(alloc: Global) -> Result<clap::Command<'a>, AllocError>
    ensures { IfOk result (λ command. app_of command
        ≡ raw_app (codes "draw") draw_options (file_name ∷ second_name ∷ [])) }
{
    clap::Command::new(alloc, "draw")
        .disable_help_flag(true)
        .arg(valued(alloc, "place"))?
        .arg(valued(alloc, "unroll"))?
        .arg(Arg::new(alloc, FILE))?
        .arg(Arg::new(alloc, SECOND))
}

// A command that has a file and no option.
fn plain_command<'a>(alloc: Global) -> Result<clap::Command<'a>, AllocError>
    ensures { IfOk result (λ command. app_of command ≡ raw_app (codes "trips") [] (file_name ∷ [])) }
{
    clap::Command::new(alloc, "trips")
        .disable_help_flag(true)
        .arg(Arg::new(alloc, FILE))
}

// The error is a refusal of the words, and no want of memory.
fn is_refusal(error: &Error) -> Result<(), Memory>
    ensures { IfOk result (λ _. kind_of error.now ≢ OutOfMemory) }
{
    match error.kind() {
        ErrorKind::OutOfMemory => Err(Memory),
        _ => Ok(()),
    }
}

// What the command's words say, where they say something.
fn matched<'a>(
    command: clap::Command<'a>,
    words: &'a [String],
) -> Result<Option<ArgMatches<'a>>, Memory>
    ensures { (name : Text) (options : List Named) (places : List Text) → IsRead name options places
        → app_of command.entry ≡ raw_app name options places
        → IfOk result (Tells options (words_read options places None []
        (drop 1 (map (λ word. string_bytes word) words.entry.now)))) }
{
    match command.try_get_matches_from(words) {
        Ok(matches) => Ok(Some(matches)),
        Err(error) => {
            is_refusal(&error)?;
            Ok(None)
        }
    }
}

/// What the words behind the first say to a command, where they say something. Want of memory is
/// the only error.
pub fn read<'a>(
    alloc: Global,
    command: Verb,
    words: &'a [String],
) -> Result<Option<ArgMatches<'a>>, Memory>
    ensures { IfOk result (Tells (options_of command) (words_read (options_of command) (places_of command) None []
        (drop 1 (map (λ word. string_bytes word) words.entry.now)))) }
{
    match command {
        Verb::Run => matched(run_command(alloc)?, words),
        Verb::Bench => matched(bench_command(alloc)?, words),
        Verb::Evaluate => matched(eval_command(alloc)?, words),
        Verb::Compile => matched(compile_command(alloc)?, words),
        Verb::Explain => matched(explain_command(alloc)?, words),
        Verb::Record => matched(record_command(alloc)?, words),
        Verb::Verify => matched(verify_command(alloc)?, words),
        Verb::Save => matched(save_command(alloc)?, words),
        Verb::Resume => matched(resume_command(alloc)?, words),
        Verb::Four => matched(four_command(alloc)?, words),
        Verb::Draw => matched(draw_command(alloc)?, words),
        _ => matched(plain_command(alloc)?, words),
    }
}
