//! The listing of a text of C.

ghost use Rattle.std.specs.Prelude.{◌≡◌, ◌<◌, ◌≤◌, length, IfErr, IfOk};
ghost use Rattle.c_tree.specs.Limits.{most_tokens};
ghost use Rattle.c_pre.specs.Texts.{Lexed};
ghost use Rattle.c_grammar.specs.Accepted.{IsUnit};
ghost use Rattle.c_front.specs.Refusals.{MayBeRefused};
ghost use Rattle.target_asm_spec.specs.Text.{TargetText};
ghost use Rattle.trips_listing_answers.specs.Listings.{IsListing, IsWritten};

use base::Memory;
use block_check::CheckedImage;
use c_compile::{Listed, compile_listed};
use c_front::Refusal;
use c_lex::lex;
use c_parse::parse;
use c_pre::program;
use c_tree::{Lexeme, Program};
use grid_place::Placing;
use std::alloc::Global;
use target_asm::print;
use trips_listing_text::{listed, told_all};

// What `dis` writes of an image.
fn target_text(alloc: Global, image: &CheckedImage) -> Result<Vec<u8>, Memory>
    ensures { IfOk result (λ text. TargetText image.now text.items) }
{
    let copy = image.copy_out(alloc)?;
    print(alloc, &copy)
}

/// The tokens of a text of C. A text that is refused is not asked for: no image is made of it.
pub fn tokens_of(alloc: Global, text: &[u8]) -> Result<Vec<Lexeme>, Memory>
    requires short { length text.now < 4_294_967_295 }
    ensures { IfOk result (λ tokens. Lexed most_tokens text.now tokens.items) }
{
    match lex(alloc, text) {
        Ok(raw) => match program(alloc, raw) {
            Ok(tokens) => Ok(tokens),
            Err(_) => Err(Memory),
        },
        Err(_) => Err(Memory),
    }
}

/// The unit that such tokens spell.
pub fn tree_of(alloc: Global, tokens: &[Lexeme]) -> Result<Program, Memory>
    ensures { IfOk result (λ tree. IsUnit tokens.now tree.items) }
{
    match parse(alloc, tokens) {
        Ok(tree) => Ok(tree),
        Err(_) => Err(Memory),
    }
}

// The listing of an image that is made of a text.
fn written(alloc: Global, text: &[u8], made: &Listed) -> Result<Vec<u8>, Memory>
    requires short { length text.now < 4_294_967_295 }
    ensures { IfOk result (λ report. IsWritten text.now made.now.image made.now.entries report.items) }
{
    let tokens = tokens_of(alloc, text)?;
    let tree = tree_of(alloc, &tokens)?;
    let told = told_all(alloc, text, &tokens, tree.items.as_slice())?;
    let target = target_text(alloc, &made.image)?;
    let report = listed(alloc, made.entries.as_slice(), told.as_slice(), &target)?;
    Ok(report)
}

/// The whole listing of a text of C, or the text's first refusal.
///
/// It is the target text of the image that `compile_unrolled` of `c_compile` gives, with comment lines before each
/// block: without these it is what `dis` writes of the image, and `asm` makes the image of it
/// (`listings_tell_images`). A text that is accepted is refused for want of memory alone.
pub fn listing_answer(
    alloc: Global,
    text: &[u8],
    placing: Placing,
    times: u8,
) -> Result<Vec<u8>, Refusal>
    requires short { length text.now < 4_294_967_295 }
    requires some { 1 ≤ times }
    ensures ok { IfOk result (λ report. IsListing text.now placing times report.items) }
    ensures err { IfErr result (MayBeRefused text.now) }
{
    let made = compile_listed(alloc, text, placing, times)?;
    match written(alloc, text, &made) {
        Ok(report) => Ok(report),
        Err(_) => Err(Refusal::Memory),
    }
}
