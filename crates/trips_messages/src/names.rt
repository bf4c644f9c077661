//! Where a name is declared: places among tokens.

ghost use Rattle.std.specs.Prelude.{◌≡◌};
ghost use Rattle.trips_messages.specs.Names as names;

use crate::class::{Class, one_less, one_more};

/// Where a token stands: behind a type, behind a comma of a declaration, behind a name that was declared, or
/// elsewhere.
#[derive(Clone, Copy, Debug, PartialEq, Eq)]
pub enum Phase {
    Elsewhere,
    Typed,
    Next,
    Listed,
}

/// The same, and behind a declared name how many brackets are open since.
#[derive(Clone, Copy, Debug)]
pub struct Stand {
    pub phase: Phase,
    pub depth: u32,
}

/// A place.
pub fn in_phase(phase: Phase, depth: u32) -> Stand
    ensures { result ≡ names.in_phase phase depth }
{
    Stand { phase, depth }
}

/// Is a name declared that stands there?
pub fn declares(phase: Phase) -> bool
    ensures { result ≡ names.declares phase }
{
    match phase {
        Phase::Typed | Phase::Next => true,
        _ => false,
    }
}

// Behind a name.
fn after_name(at: Stand) -> Stand
    ensures { result ≡ names.after_name at }
{
    if declares(at.phase) {
        in_phase(Phase::Listed, 0)
    } else {
        at
    }
}

// Behind a comma.
fn after_comma(at: Stand) -> Stand
    ensures { result ≡ names.after_comma at }
{
    match at.phase {
        Phase::Listed => {
            if at.depth == 0 {
                in_phase(Phase::Next, 0)
            } else {
                at
            }
        }
        _ => in_phase(Phase::Elsewhere, 0),
    }
}

// Behind what opens.
fn after_opening(at: Stand) -> Stand
    ensures { result ≡ names.after_opening at }
{
    match at.phase {
        Phase::Listed => in_phase(Phase::Listed, one_more(at.depth)),
        _ => in_phase(Phase::Elsewhere, 0),
    }
}

// Behind what closes.
fn after_closing(at: Stand) -> Stand
    ensures { result ≡ names.after_closing at }
{
    match at.phase {
        Phase::Listed => {
            if at.depth == 0 {
                in_phase(Phase::Elsewhere, 0)
            } else {
                in_phase(Phase::Listed, one_less(at.depth))
            }
        }
        _ => in_phase(Phase::Elsewhere, 0),
    }
}

// Behind any other token.
fn after_other(at: Stand) -> Stand
    ensures { result ≡ names.after_other at }
{
    match at.phase {
        Phase::Listed => at,
        _ => in_phase(Phase::Elsewhere, 0),
    }
}

/// The place behind a token.
pub fn stand_after(class: Class, at: Stand) -> Stand
    ensures { result ≡ names.stand_after class at }
{
    match class {
        Class::Type => in_phase(Phase::Typed, 0),
        Class::Name => after_name(at),
        Class::Comma => after_comma(at),
        Class::OpenRound | Class::OpenSquare | Class::OpenCurly => after_opening(at),
        Class::CloseRound | Class::CloseSquare | Class::CloseCurly => after_closing(at),
        Class::Semicolon => in_phase(Phase::Elsewhere, 0),
        _ => after_other(at),
    }
}
