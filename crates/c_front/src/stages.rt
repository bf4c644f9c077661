ghost use Rattle.std.specs.Prelude.{◌≡◌, ◌<◌, length, None, IfOk, IfErr};
ghost use Rattle.c_tree.specs.Limits.{most_tokens};
ghost use Rattle.c_pre.specs.Texts.{Lexed};
ghost use Rattle.c_front.specs.Fronts.{HasTree, HasTypes, IsAccepted};
ghost use Rattle.c_front.specs.Refusals.{MayBeRefused};
ghost use Rattle.c_front.specs.inside.Refusals.{MayHaveNoTypes};
ghost use Rattle.c_front.specs.inside.Stops.{MayStop};
ghost use Rattle.c_type.specs.inside.Programs.{program_fault, program_tree};

use crate::refusal::Refusal;
use c_lex::{LexFault, lex};
use c_parse::{ParseFault, parse};
use c_pre::{PreFault, program};
use c_tree::{Lexeme, Program, TypedProgram};
use c_type::{TypeFault, type_program};
use std::alloc::Global;

fn tokens_of(alloc: Global, text: &[u8]) -> Result<Vec<Lexeme>, Refusal>
    requires short { length text.now < 4_294_967_295 }
    ensures ok { IfOk result (λ tokens. Lexed most_tokens text.now tokens.items) }
    ensures err { IfErr result (MayBeRefused text.now) }
{
    match lex(alloc, text) {
        Ok(raw) => match program(alloc, raw) {
            Ok(tokens) => Ok(tokens),
            Err(PreFault::Memory) => Err(Refusal::Memory),
            Err(fault) => Err(Refusal::Directive(fault)),
        },
        Err(LexFault::Memory) => Err(Refusal::Memory),
        Err(fault) => Err(Refusal::Lex(fault)),
    }
}

/// The tree of a text, or the refusal of the lexer, the preprocessor or the parser.
pub fn read(alloc: Global, text: &[u8]) -> Result<Program, Refusal>
    requires short { length text.now < 4_294_967_295 }
    ensures ok { IfOk result (HasTree text.now) }
    ensures err { IfErr result (MayBeRefused text.now) }
{
    let tokens = tokens_of(alloc, text)?;
    match parse(alloc, &tokens) {
        Ok(tree) => Ok(tree),
        Err(ParseFault::Memory) => Err(Refusal::Memory),
        Err(fault) => Err(Refusal::Parse(fault)),
    }
}

// What the typing answers, with want of memory as a refusal of its own.
fn typed(alloc: Global, tree: Program) -> Result<TypedProgram, Refusal>
    ensures ok { IfOk result (λ program. (program_fault tree ≡ None)
        × (program ≡ program_tree tree)) }
    ensures err { IfErr result (MayStop tree) }
{
    match type_program(alloc, tree) {
        Ok(program) => Ok(program),
        Err(TypeFault::Memory) => Err(Refusal::Memory),
        Err(fault) => Err(Refusal::Typing(fault)),
    }
}

/// The typed program of a tree, or the refusal of the typing.
pub fn type_read(alloc: Global, tree: Program) -> Result<TypedProgram, Refusal>
    ensures ok { IfOk result (HasTypes tree) }
    ensures err { IfErr result (MayHaveNoTypes tree) }
{
    match typed(alloc, tree) {
        Ok(program) => Ok(program),
        Err(refusal) => Err(refusal),
    }
}

/// The typed program of a text, or its first refusal.
///
/// No text has another program or another refusal (`accepted_once`, `one_stage_answers`), so that
/// only want of memory is left open.
pub fn front(alloc: Global, text: &[u8]) -> Result<TypedProgram, Refusal>
    requires short { length text.now < 4_294_967_295 }
    ensures ok { IfOk result (IsAccepted text.now) }
    ensures err { IfErr result (MayBeRefused text.now) }
{
    let tree = read(alloc, text)?;
    match type_read(alloc, tree) {
        Ok(program) => Ok(program),
        Err(refusal) => Err(refusal),
    }
}
