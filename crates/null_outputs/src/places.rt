//! What is guessed of a block, and where the groups of nodes begin.
ghost use Rattle.std.specs.Prelude.{◌≡◌, ◌+◌, IfOk};

use base::{Items, Memory};

/// What is guessed of a block: its firm nodes, and the nodes whose covers are made, which are all
/// where the guess is not closed.
#[derive(Drop)]
pub struct Guess {
    pub firm: Items<bool>,
    pub closed: bool,
    pub wants: Items<bool>,
}

/// Where the groups of a region begin, and where the region ends.
#[derive(Drop)]
pub struct Region {
    pub starts: Items<u32>,
    pub end: u32,
}

/// Where the covers of guards and operands begin.
#[derive(Drop)]
pub struct Starts {
    pub on_true: Region,
    pub on_false: Region,
    pub left: Region,
    pub right: Region,
}

/// The number that is `more` above p. A node's number that is no u32 is answered by Memory: so many
/// nodes take more than any memory.
pub fn plus(p: u32, more: usize) -> Result<u32, Memory>
    ensures { IfOk result (λ q. q ≡ p + more) }
{
    if more <= (u32::MAX - p) as usize {
        Ok(p + more as u32)
    } else {
        Err(Memory)
    }
}
