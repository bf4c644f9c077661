//! Where an evaluation is undefined, and which calls were open. Want of memory is the only error of each.

ghost use Rattle.std.specs.Prelude.{◌≡◌, ◌<◌, ◌∷◌, [], IfOk, length, string_bytes};
ghost use Rattle.trips_eval_answers.specs.Stops as stops;

use crate::faults::sentence;
use c_lex::line_of;
use c_meaning_spec::Fault;
use std::alloc::{AllocError, Global};
use trips_messages::column;

// The line and the column of a byte of the text.
fn place_text(alloc: Global, text: &[u8], at: u32) -> Result<String, AllocError>
    requires short { length text.now < 4_294_967_295 }
    ensures { IfOk result (λ place. string_bytes place ≡ stops.place_text text.now at) }
{
    let line = line_of(text, at);
    let column = column(text, at);
    format!(in alloc; "{line}:{column}")
}

// The place of an expression, if one was not evaluated to its end.
fn at_text(alloc: Global, text: &[u8], at: Option<u32>) -> Result<String, AllocError>
    requires short { length text.now < 4_294_967_295 }
    ensures { IfOk result (λ told. string_bytes told ≡ stops.at_text text.now at) }
{
    match at {
        None => Ok(String::new(alloc)),
        Some(at) => {
            let place = place_text(alloc, text, at)?;
            format!(in alloc; " at {place}")
        }
    }
}

// A call that was open.
fn call_text(alloc: Global, text: &[u8], at: u32) -> Result<String, AllocError>
    requires short { length text.now < 4_294_967_295 }
    ensures { IfOk result (λ told. string_bytes told ≡ stops.calls_text text.now (at ∷ [])) }
{
    let place = place_text(alloc, text, at)?;
    format!(in alloc; ", called at {place}")
}

// The calls that were open.
fn calls_text(alloc: Global, text: &[u8], calls: &[u32]) -> Result<String, AllocError>
    requires short { length text.now < 4_294_967_295 }
    ensures { IfOk result (λ told. string_bytes told ≡ stops.calls_text text.now calls.now) }
{
    let mut told = String::new(alloc);
    let mut rest = calls;
    while let Some((at, more)) = rest.split_first() {
        let call = call_text(alloc, text, *at)?;
        told.push_str(call.as_str())?;
        rest = more;
    }
    Ok(told)
}

/// The line that tells where and why an evaluation of the text is undefined, and which calls were open.
pub fn undefined_line(
    alloc: Global,
    text: &[u8],
    why: Fault,
    at: Option<u32>,
    calls: &[u32],
) -> Result<String, AllocError>
    requires short { length text.now < 4_294_967_295 }
    ensures { IfOk result (λ line. string_bytes line ≡ stops.undefined_line text.now why at calls.now) }
{
    let place = at_text(alloc, text, at)?;
    let reason = sentence(alloc, why)?;
    let open = calls_text(alloc, text, calls)?;
    format!(in alloc; "undefined{place}: {reason}{open}")
}
