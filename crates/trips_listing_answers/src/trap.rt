//! Where in a text of C the run of its image traps.

ghost use Rattle.std.specs.Prelude.{◌≡◌, ◌<◌, ◌++◌, length, IfErr, IfOk, OnOk};
ghost use Rattle.c_front.specs.Refusals.{MayBeRefused};
ghost use Rattle.c_tree.specs.Limits.{most_tokens};
ghost use Rattle.c_pre.specs.Texts.{Lexed};
ghost use Rattle.c_grammar.specs.Accepted.{IsUnit};
ghost use Rattle.grid_place.specs.declared.placed.Placing.TheVariants.{Greedy};
ghost use Rattle.c_compile.specs.Listed.{IsListed};
ghost use Rattle.trips_listing_text.specs.Comments.{comments};
ghost use Rattle.trips_listing_answers.specs.Traps.{IsTrapTold, ending_told, no_trap_line, trap_line};

use crate::ending::ending_of_run;
use crate::listing::{tokens_of, tree_of};
use base::Memory;
use c_compile::{Listed, compile_listed};
use c_front::Refusal;
use grid_place::Placing;
use isa_table::put_number;
use std::alloc::{AllocError, Global};
use trips_isa::{Ending, number_of};
use trips_listing_text::{Told, put_comments, told_all};

// Writes the line of a trap.
#[tactic(auto, unfolding(crate::specs::Traps::trap_line))]
fn put_trap(out: &mut Vec<u8>, block: u32, cause: u8) -> Result<(), AllocError>
    ensures { OnOk result (out.new.items ≡ out.old.items ++ trap_line block cause) }
{
    out.extend_from_slice(b"trap block ")?;
    put_number(out, block as u64)?;
    out.extend_from_slice(b" cause ")?;
    put_number(out, cause as u64)?;
    out.push(b'\n')?;
    Ok(())
}

// Writes the line of a run that does not trap.
#[tactic(auto, unfolding(crate::specs::Traps::no_trap_line))]
fn put_no_trap(out: &mut Vec<u8>, budget: u32) -> Result<(), AllocError>
    ensures { OnOk result (out.new.items ≡ out.old.items ++ no_trap_line budget) }
{
    out.extend_from_slice(b"no trap within ")?;
    put_number(out, budget as u64)?;
    out.extend_from_slice(b" blocks\n")
}

// Writes what is told of a run that ends so.
fn put_ending(
    out: &mut Vec<u8>,
    alloc: Global,
    entries: &[u32],
    told: &[Told],
    budget: u32,
    ending: Ending,
) -> Result<(), AllocError>
    ensures { OnOk result (out.new.items
        ≡ out.old.items ++ ending_told budget (comments entries.now told.now) ending) }
{
    match ending {
        Ending::Trap { block, cause } => {
            put_trap(out, block, number_of(cause))?;
            put_comments(out, alloc, entries, told, block)
        }
        _ => put_no_trap(out, budget),
    }
}

// What is told of the run of an image that is made of a text.
fn run_told(
    alloc: Global,
    text: &[u8],
    made: &Listed,
    input: Vec<u8>,
    budget: u32,
) -> Result<Vec<u8>, Memory>
    requires short { length text.now < 4_294_967_295 }
    requires listed { IsListed text.now Greedy 1 made.now.image made.now.entries }
    ensures { IfOk result (λ told. IsTrapTold text.now input.items budget told.items) }
{
    let tokens = tokens_of(alloc, text)?;
    let tree = tree_of(alloc, &tokens)?;
    let told = told_all(alloc, text, &tokens, tree.items.as_slice())?;
    let ending = ending_of_run(alloc, &made.image, input, budget)?;
    let mut out = Vec::new(alloc);
    put_ending(
        &mut out,
        alloc,
        made.entries.as_slice(),
        told.as_slice(),
        budget,
        ending,
    )?;
    Ok(out)
}

/// Where in a text of C the run of its image on an input traps within so many blocks, or that it does not; or the text's
/// first refusal. A text that is accepted is refused for want of memory alone.
pub fn trap_told(
    alloc: Global,
    text: &[u8],
    input: Vec<u8>,
    budget: u32,
) -> Result<Vec<u8>, Refusal>
    requires short { length text.now < 4_294_967_295 }
    ensures ok { IfOk result (λ told. IsTrapTold text.now input.items budget told.items) }
    ensures err { IfErr result (MayBeRefused text.now) }
{
    let made = compile_listed(alloc, text, Placing::Greedy, 1)?;
    match run_told(alloc, text, &made, input, budget) {
        Ok(told) => Ok(told),
        Err(_) => Err(Refusal::Memory),
    }
}
