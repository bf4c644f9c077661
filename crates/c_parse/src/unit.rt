//! The public call.

ghost use Rattle.std.specs.Prelude.{◌≡◌, ◌<◌, ℕ, Err, IfOk, MatchResult, List, [], length};
ghost use Rattle.c_tree.specs.declared.tree.Top.{Top};
ghost use Rattle.c_grammar.specs.Answers.{HasSyntaxFault, IsTooDeep};
ghost use Rattle.c_grammar.specs.Accepted.{IsUnit};
ghost use Rattle.c_grammar.specs.Answers as grammar;
ghost use Rattle.c_parse.specs.inside.Parses as parses;
ghost use Rattle.c_parse.specs.Parses.{HasFault};
ghost use Rattle.c_parse.specs.inside.Parses.{IsMemory, Tells};
ghost use Rattle.c_parse.specs.declared.unit.ParseFault.{ParseFault};
ghost use Rattle.c_parse.specs.declared.unit.ParseFault.TheVariants as faults;

use crate::fault::Stopped;
use crate::parser::Parser;
use c_tree::{Lexeme, Program};
use std::alloc::Global;
use thiserror::Error;

/// Why a list of tokens has no tree.
#[derive(Debug, Drop, Error)]
pub enum ParseFault {
    /// No unit goes on with the token at this offset; where the tokens only end too early, the offset
    /// is that of the last one, or 0 where there is none.
    #[error("syntax error at byte {0}")]
    Syntax(u32),
    /// The token at this offset would open a construct at depth 65.
    #[error("nested too deeply at byte {0}")]
    TooDeep(u32),
    /// Want of memory.
    #[error("out of memory")]
    Memory,
}

/// The tree that spells the tokens (C17 6.9), as `c_grammar` says.
///
/// Each list of tokens has exactly one answer, its tree or one fault with its offset
/// (`c_grammar::one_answer`), and it is given here but for want of memory.
pub fn parse(alloc: Global, tokens: &[Lexeme]) -> Result<Program, ParseFault>
    ensures ok { IfOk result (λ program. IsUnit tokens.now program.items) }
    ensures syntax { (offset : ℕ) → result ≡ Err (faults.Syntax offset)
        → HasSyntaxFault tokens.now offset }
    ensures too_deep { (offset : ℕ) → result ≡ Err (faults.TooDeep offset) → IsTooDeep tokens.now offset }
    ensures only_ok { (xs : List Top) → IsUnit tokens.now xs
        → MatchResult result (λ program. program.items ≡ xs) IsMemory }
    ensures only_err { (fault : ParseFault) → HasFault tokens.now fault
        → MatchResult result (λ _. ⊥) (Tells fault) }
{
    let mut parser = Parser {
        alloc,
        rest: tokens,
    };
    match parser.unit() {
        Ok(items) => Ok(Program { items }),
        Err(Stopped::Syntax) => Err(ParseFault::Syntax(fault_offset(tokens, parser.rest))),
        Err(Stopped::TooDeep) => Err(depth_fault(tokens, parser.rest)),
        Err(Stopped::Memory) => Err(ParseFault::Memory),
    }
}

/// The offset of the last token, or 0 where there is none.
fn last_offset(tokens: &[Lexeme]) -> u32
    ensures { result ≡ grammar.last_offset tokens.now }
{
    match tokens {
        [] => 0,
        [.., last] => last.offset,
    }
}

/// The offset of the first token that is left, or of the last one where none is left.
fn fault_offset(tokens: &[Lexeme], rest: &[Lexeme]) -> u32
    ensures { result ≡ parses.fault_offset tokens.now rest.now }
{
    match rest {
        [] => last_offset(tokens),
        [lexeme, ..] => lexeme.offset,
    }
}

/// What an opener says that may not stand, the first token that is left: where it is the last one,
/// the tokens only end too early.
fn depth_fault(tokens: &[Lexeme], rest: &[Lexeme]) -> ParseFault
    ensures { result ≡ parses.depth_fault tokens.now rest.now }
{
    match rest {
        [lexeme, _, ..] => ParseFault::TooDeep(lexeme.offset),
        _ => ParseFault::Syntax(last_offset(tokens)),
    }
}
