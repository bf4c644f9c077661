//! The request of a command and of what its words say.

ghost use Rattle.std.specs.Prelude.{◌≡◌, ◌<◌, ◌≤◌, Option, IfOk, IfSome, option_map, option_and_then, option_copied};
ghost use Rattle.std.specs.Prelude.{drop, map, string_bytes};
ghost use Rattle.trips_requests.specs.Limits.{most_count};
ghost use Rattle.trips_requests.specs.Words.{Said};
ghost use Rattle.trips_requests.specs.Options.{options_of, options_said};
ghost use Rattle.trips_requests.specs.inside.Options.{options_seen};
ghost use Rattle.trips_requests.specs.Verbs.{verb_named};
ghost use Rattle.trips_requests.specs.Requests.{request_of, request_by, asked};
ghost use Rattle.trips_requests.specs.inside.Requests.{request_seen};
ghost use Rattle.trips_words.specs.inside.Read.{FindsSaid, Tells};

use crate::reading::read;
use base::Memory;
use clap::ArgMatches;
use std::alloc::Global;
use trips_requests::{Asked, FoundOptions, Verb, counted, is_on, request_with, verb_named};

// What was found of a command's options.
fn options_found<'a>(command: Verb, matches: &ArgMatches<'a>) -> FoundOptions<'a>
    ensures { (said : Said) → FindsSaid (options_of command) said matches.now
        → options_seen result ≡ options_said command said }
{
    FoundOptions {
        second: matches.get_str("SECOND"),
        third: matches.get_str("THIRD"),
        fourth: matches.get_str("FOURTH"),
        input: matches.get_str("input"),
        number: matches.get_str(counted(command)),
        place: matches.get_str("place"),
        unroll: matches.get_str("unroll"),
        seed: matches.get_str("seed"),
        predictor: matches.get_str("predictor"),
        weather: matches.get_str("weather"),
        frames: matches.get_str("frames"),
        regs: is_on(matches.get_str("regs")),
        trace: is_on(matches.get_str("trace")),
        cycles: is_on(matches.get_str("cycles")),
        stats: is_on(matches.get_str("stats")),
        events: matches.get_str("events"),
        listing: is_on(matches.get_str("listing")),
        trap: is_on(matches.get_str("trap")),
    }
}

// The request of a command and of what its words say.
fn request_of<'a>(command: Verb, matches: &ArgMatches<'a>) -> Option<Asked<'a>>
    ensures { (said : Said) → FindsSaid (options_of command) said matches.now
        → option_map request_seen result ≡ request_of command said }
{
    request_with(
        command,
        matches.get_str("FILE"),
        options_found(command, matches),
    )
}

// The request of a command and of what was found, if its words say something.
fn request_found<'a>(command: Verb, found: Option<ArgMatches<'a>>) -> Option<Asked<'a>>
    ensures { (said : Option Said) → Tells (options_of command) said found.entry
        → option_map request_seen result ≡ option_and_then (request_of command) said }
{
    match found {
        None => None,
        Some(matches) => request_of(command, &matches),
    }
}

// The request of a command and of all words, of which the first names it.
fn request_by<'a>(
    alloc: Global,
    command: Verb,
    words: &'a [String],
) -> Result<Option<Asked<'a>>, Memory>
    ensures { IfOk result (λ request. option_map request_seen request
        ≡ request_by (drop 1 (map (λ word. string_bytes word) words.entry.now)) command) }
{
    let found = read(alloc, command, words)?;
    Ok(request_found(command, found))
}

// The request of a command's name and of all words, of which it is the first.
fn named_request<'a>(
    alloc: Global,
    name: &str,
    words: &'a [String],
) -> Result<Option<Asked<'a>>, Memory>
    ensures { IfOk result (λ request. option_map request_seen request
        ≡ option_and_then (request_by (drop 1 (map (λ word. string_bytes word) words.entry.now)))
        (verb_named name.now)) }
{
    match verb_named(name) {
        None => Ok(None),
        Some(command) => request_by(alloc, command, words),
    }
}

/// The request of the words of a command line, without the program's name, and none where they make
/// none. A request has some blocks or steps, at most 4,000,000, and some turns of a loop in a block. Want of memory
/// is the only error.
pub fn request(alloc: Global, words: &[String]) -> Result<Option<Asked<'_>>, Memory>
    ensures ok { IfOk result (λ request. option_map request_seen request
        ≡ asked (map (λ word. string_bytes word) words.now)) }
    ensures some { IfOk result (λ request. IfSome request (λ asked. 0 < asked.most)) }
    ensures few { IfOk result (λ request. IfSome request (λ asked. asked.most ≤ most_count)) }
    ensures turns { IfOk result (λ request. IfSome request (λ asked. 0 < asked.unroll)) }
{
    match words.first() {
        None => Ok(None),
        Some(name) => named_request(alloc, name.as_str(), words),
    }
}
