//! A line of what is left of a text, in the text itself.
ghost use Rattle.std.specs.Prelude.{◌≡◌, ◌<◌, ◌^◌, IfSome};
ghost use Rattle.target_file.specs.Bare.{line_in_file};
ghost use Rattle.target_file.specs.Files.{in_file};
ghost use Rattle.target_asm.specs.inside.Taking.{IsMemoryOr};

use crate::first_line::first_line;
use target_asm::AsmFault;

/// The number of a line in the text itself.
#[tactic(auto, unfolding(crate::specs::Bare::line_in_file))]
fn place_in_file(text: &[u8], line: u32) -> u64
    ensures value { result ≡ line_in_file text.now line }
{
    let mut at = line as u64;
    let mut behind = line.saturating_sub(1);
    let mut rest = text;
    while !rest.is_empty() {
        let first = first_line(rest);
        if !first.tells.is_empty() {
            if behind == 0 {
                return at;
            }
            behind -= 1;
        } else if first.ended {
            at += 1;
        }
        rest = first.rest;
    }
    at
}

/// The same, where it has so many lines that it fits its word.
fn line_in_file(text: &[u8], line: u32) -> Option<u32>
    ensures { IfSome result (λ n. n ≡ line_in_file text.now line) }
{
    let place = place_in_file(text, line);
    if place <= u32::MAX as u64 {
        Some(place as u32)
    } else {
        None
    }
}

/// A fault of what is left of a text, with its line in the text itself. A text of more lines than a word counts is
/// answered as want of memory.
pub fn in_file(text: &[u8], fault: AsmFault) -> AsmFault
    ensures { IsMemoryOr (λ e. e ≡ in_file text.now fault) result }
{
    match fault {
        AsmFault::Syntax(line) => match line_in_file(text, line) {
            Some(line) => AsmFault::Syntax(line),
            None => AsmFault::Memory,
        },
        AsmFault::Range(line) => match line_in_file(text, line) {
            Some(line) => AsmFault::Range(line),
            None => AsmFault::Memory,
        },
        AsmFault::Label(line) => match line_in_file(text, line) {
            Some(line) => AsmFault::Label(line),
            None => AsmFault::Memory,
        },
        AsmFault::Memory => AsmFault::Memory,
    }
}
