//! The faults of typing behind the first one.

ghost use Rattle.std.specs.Prelude.{◌≡◌, ◌<◌, ◌++◌, ℕ, List, OnOk, IfOk, length};
ghost use Rattle.c_front.specs.Fronts.{IsAccepted};
ghost use Rattle.c_front.specs.Refusals.{IsRefused, MayBeRefused};
ghost use Rattle.trips_explain_answers.specs.Further.{place_of, is_behind, IsNext, Goes, IsMore};

use crate::telling::type_told;
use c_front::{Refusal, front};
use c_tree::{Lexeme, TypedProgram};
use c_type::TypeFault;
use std::alloc::{AllocError, Global};
use trips_messages::mended;

// The offset of a fault, if it has a place.
fn place_of(fault: TypeFault) -> Option<u32>
    ensures { result ≡ place_of fault }
{
    match fault {
        TypeFault::Unknown(offset) => Some(offset),
        TypeFault::Twice(offset) => Some(offset),
        TypeFault::Mismatch(offset) => Some(offset),
        TypeFault::Arity(offset) => Some(offset),
        TypeFault::NoMain => None,
        TypeFault::TooManyScalars(offset) => Some(offset),
        TypeFault::TooManyParams(offset) => Some(offset),
        TypeFault::Need(offset) => Some(offset),
        TypeFault::TooLarge(offset) => Some(offset),
        TypeFault::Memory => None,
    }
}

// Does the fault stand behind an offset?
fn is_behind(offset: u32, place: Option<u32>) -> bool
    ensures { result ≡ is_behind offset place }
{
    match place {
        None => false,
        Some(at) => offset < at,
    }
}

// The fault of typing behind an offset of a text that has this program: none.
fn accepted_fault(_program: &TypedProgram, offset: u32) -> Option<TypeFault>
    ensures { (next : List ℕ) → IsAccepted next _program.now → IsNext next offset result }
{
    let _ = offset;
    None
}

// That of a text with this fault of typing.
fn typing_fault(fault: TypeFault, offset: u32) -> Option<TypeFault>
    ensures { (next : List ℕ) → IsRefused next (Refusal.Typing fault) → IsNext next offset result }
{
    if is_behind(offset, place_of(fault)) {
        Some(fault)
    } else {
        None
    }
}

// That of a text that is refused so.
#[tactic(auto, using(crate::proofs::FurtherFacts::lexer_next, crate::proofs::FurtherFacts::grammar_next))]
fn refused_fault(refusal: Refusal, offset: u32) -> Result<Option<TypeFault>, AllocError>
    ensures { IfOk result (λ found. (next : List ℕ) → MayBeRefused next refusal → IsNext next offset found) }
{
    match refusal {
        Refusal::Lex(_) => Ok(None),
        Refusal::Directive(_) => Ok(None),
        Refusal::Parse(_) => Ok(None),
        Refusal::Typing(fault) => Ok(typing_fault(fault, offset)),
        Refusal::Memory => Err(AllocError),
    }
}

// The fault of typing that a text has behind an offset, if the typing refuses it there.
fn next_fault(alloc: Global, next: &[u8], offset: u32) -> Result<Option<TypeFault>, AllocError>
    requires short { length next.now < 4_294_967_295 }
    ensures { IfOk result (λ found. IsNext next.now offset found) }
{
    match front(alloc, next) {
        Ok(program) => Ok(accepted_fault(&program, offset)),
        Err(refusal) => refused_fault(refusal, offset),
    }
}

// Writes what is told of the faults behind an offset, of which so many at most are told. What is told of each is told
// of the text; they are found in what is left of it without those before.
fn put_further(
    alloc: Global,
    out: &mut Vec<u8>,
    file: &str,
    text: &[u8],
    tokens: &[Lexeme],
    now: &[u8],
    offset: u32,
    left: u8,
) -> Result<(), AllocError>
    requires short { length text.now < 4_294_967_295 }
    requires few { length now.now < 4_294_967_295 }
    ensures ok { OnOk result ((more : List ℕ) × Goes file.now text.now tokens.now left now.now offset more
        × (out.new.items ≡ out.old.items ++ more)) }
{
    if left == 0 {
        return Ok(());
    }
    let next = mended(alloc, now, tokens, offset)?;
    match next_fault(alloc, &next, offset)? {
        None => Ok(()),
        Some(fault) => {
            let told = type_told(alloc, file, text, tokens, fault)?;
            out.extend_from_slice(&told)?;
            let at = place_of(fault).unwrap_or(0);
            put_further(alloc, out, file, text, tokens, &next, at, left - 1)
        }
    }
}

// How many faults are told behind the first one.
const MORE_FAULTS: u8 = 9;

/// Writes what is told of a text behind a fault of typing.
pub fn put_more(
    alloc: Global,
    out: &mut Vec<u8>,
    file: &str,
    text: &[u8],
    tokens: &[Lexeme],
    fault: TypeFault,
) -> Result<(), AllocError>
    requires short { length text.now < 4_294_967_295 }
    ensures ok { OnOk result ((more : List ℕ) × IsMore file.now text.now tokens.now (place_of fault) more
        × (out.new.items ≡ out.old.items ++ more)) }
{
    match place_of(fault) {
        None => Ok(()),
        Some(offset) => put_further(alloc, out, file, text, tokens, text, offset, MORE_FAULTS),
    }
}
