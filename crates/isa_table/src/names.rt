ghost use Rattle.std.specs.Prelude.{◌≡◌, ◌↔◌, ◌<◌, Some, get_or, length};
ghost use Rattle.trips_isa.specs.declared.op.Op.{Op};
ghost use Rattle.trips_isa.specs.declared.op.Op.TheVariants.{Add};
ghost use Rattle.isa_table.specs.declared.lists.TheConstants.{MODULUS};
ghost use Rattle.isa_table.specs.Mnemonics.{mnemonic_of};
ghost use Rattle.isa_table.specs.inside.Mnemonics.{op_with_mnemonic};
ghost use Rattle.isa_table.specs.inside.Guesses.{mixed, candidate_by_mnemonic, guessed_by_mnemonic};

use crate::lists::{BY_MNEMONIC, MODULUS, MULTIPLIER, PLACES};
use trips_isa::{Op, row_of};

/// The mnemonic of an operation.
#[tactic(auto, unfolding(crate::specs::Mnemonics::mnemonic_of))]
pub fn mnemonic_of(op: Op) -> &'static [u8]
    ensures value { result.now ≡ mnemonic_of op }
{
    row_of(op).mnemonic
}

/// A number of a word, another for each mnemonic once its remainder by `PLACES` is taken.
fn mixed(word: &[u8]) -> u32
    ensures value { result ≡ mixed 0 word.now }
    ensures bound { result < MODULUS }
{
    let mut mixed: u32 = 0;
    for letter in word {
        mixed = (mixed * MULTIPLIER + *letter as u32) % MODULUS;
    }
    mixed
}

fn op_at(table: &[Op], at: usize) -> Op
    requires { at < length table.now }
    ensures value { result ≡ get_or table.now at Add }
{
    table[at]
}

#[tactic(auto, unfolding(crate::specs::inside::Guesses::candidate_by_mnemonic))]
fn candidate(word: &[u8]) -> Op
    ensures value { result ≡ candidate_by_mnemonic word.now }
{
    op_at(&BY_MNEMONIC, (mixed(word) % PLACES) as usize)
}

#[tactic(auto, unfolding(crate::specs::inside::Guesses::guessed_by_mnemonic))]
fn guessed(word: &[u8]) -> Option<Op>
    ensures value { result ≡ guessed_by_mnemonic word.now }
{
    let op = candidate(word);
    if mnemonic_of(op) == word {
        Some(op)
    } else {
        None
    }
}

/// The operation with this mnemonic, if there is one.
pub fn with_mnemonic(word: &[u8]) -> Option<Op>
    ensures value { result ≡ op_with_mnemonic word.now }
    ensures exact { (op : Op) → (result ≡ Some op) ↔ (mnemonic_of op ≡ word.now) }
{
    guessed(word)
}
