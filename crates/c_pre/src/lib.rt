//! The preprocessor of the C profile (docs/LANGUAGE.md): the tokens that a text's raw tokens come to
//! behind its directives and macros (C17 6.10) and the passes over tokens, or the first fault.
//!
//! `specs/Programs.antt` says which tokens these are.
#![tactic(auto)]

ghost use Rattle.std.specs.Prelude.{◌≡◌, ◌≤◌, Ok, length, IfOk, IfErr};
ghost use Rattle.c_tree.specs.Limits.{most_tokens};
ghost use Rattle.c_pre.specs.Outputs.{lifted};
ghost use Rattle.c_pre.specs.Passes.{passed};
ghost use Rattle.c_pre.specs.Programs as programs;
ghost use Rattle.c_pre.specs.inside.Gives.{Refuses};
ghost use Rattle.c_pre.specs.Plain as plain;

mod fault;
mod form;
mod groups;
mod headers;
mod law;
mod lines;
mod macros;
mod output;
mod passes;
mod reader;
mod replace;
mod said;

pub use crate::fault::PreFault;
pub use crate::law::{plain_texts_stay, texts_are_short};
use crate::passes::passed;
use crate::reader::read;
use crate::said::{Said, said_by};
use c_library::LibraryFault;
use c_tree::Lexeme;
use std::alloc::Global;

/// Is each raw token one of the program?
fn has_no_directive(raw: &[Lexeme]) -> bool
    ensures { result ≡ plain.has_no_directive raw.now }
{
    let mut rest = raw;
    while let [token, more @ ..] = rest {
        if said_by(&token.form) != Said::Token {
            return false;
        }
        rest = more;
    }
    true
}

/// The tokens behind directives, or the first fault of these. Raw tokens without any are given back as they are.
#[tactic(auto, using(crate::proofs::Plain::directed_stays))]
fn direct(alloc: Global, raw: Vec<Lexeme>) -> Result<Vec<Lexeme>, PreFault>
    requires few { length raw.items ≤ most_tokens }
    ensures ok { IfOk result (λ tokens. programs.directed most_tokens raw.items ≡ Ok tokens.items) }
    ensures err { IfErr result (Refuses (programs.directed most_tokens raw.items)) }
{
    if has_no_directive(&raw) {
        return Ok(raw);
    }
    read(alloc, &raw)
}

/// The tokens of the program that those behind directives come to.
fn pass_on(alloc: Global, tokens: Vec<Lexeme>) -> Result<Vec<Lexeme>, PreFault>
    ensures ok { IfOk result (λ out. lifted (passed most_tokens tokens.items) ≡ Ok out.items) }
    ensures err { IfErr result (Refuses (lifted (passed most_tokens tokens.items))) }
{
    match passed(alloc, tokens) {
        Ok(out) => Ok(out),
        Err(LibraryFault::Format(at)) => Err(PreFault::Format(at)),
        Err(LibraryFault::TooManyTokens(at)) => Err(PreFault::TooManyTokens(at)),
        Err(LibraryFault::Memory) => Err(PreFault::Memory),
    }
}

/// The tokens of the program that raw tokens come to, or the first fault of the directives, or else of the passes.
///
/// Raw tokens without a directive, without a header but `<stdio.h>` and without what a pass would change are their own
/// program, and are given back as they are.
pub fn program(alloc: Global, raw: Vec<Lexeme>) -> Result<Vec<Lexeme>, PreFault>
    requires few { length raw.items ≤ most_tokens }
    ensures ok { IfOk result (λ tokens. programs.program most_tokens raw.items ≡ Ok tokens.items) }
    ensures err { IfErr result (Refuses (programs.program most_tokens raw.items)) }
{
    let tokens = direct(alloc, raw)?;
    pass_on(alloc, tokens)
}
