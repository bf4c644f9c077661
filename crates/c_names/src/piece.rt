//! What a name stands for, in pieces.

ghost use Rattle.std.specs.Prelude.{◌≡◌, ◌++◌, not, IfOk, OnOk};
ghost use Rattle.c_tree.specs.Limits.{most_tokens};
ghost use Rattle.c_library.specs.inside.Gives.{Gives};
ghost use Rattle.c_library.specs.inside.Puts.{put_all};
ghost use Rattle.c_names.specs.Pieces as pieces;

use base::Items;
use c_library::{LibraryFault, Output};
use c_tree::{Form, Key, Kind, Mark};
use std::alloc::AllocError;

/// A word of a type, or a constant of type int, an operator or a parenthesis of a value.
#[derive(Clone, Copy, Debug, PartialEq, Eq, Drop)]
pub enum Piece {
    Word(Key),
    Constant(u32),
    Sign(Mark),
}

/// The token that a piece is.
pub fn form_of(piece: Piece) -> Form
    ensures { result ≡ pieces.form_of piece }
{
    match piece {
        Piece::Word(key) => Form::Key(key),
        Piece::Constant(value) => Form::Number {
            value: u64::from(value % 2_147_483_648),
            kind: Kind::Int,
        },
        Piece::Sign(mark) => Form::Mark(mark),
    }
}

/// Are they the words of a type?
pub fn is_type(all: &[Piece]) -> bool
    ensures { result ≡ pieces.is_type all.now }
{
    match all {
        [Piece::Word(_), ..] => true,
        _ => false,
    }
}

/// Puts the tokens that pieces are, all at this place.
pub fn put_spelled(at: u32, all: &[Piece], out: &mut Output) -> Result<(), LibraryFault>
    ensures { Gives (put_all most_tokens (pieces.spelled at all.now) out.old) result out.new }
{
    let mut rest = all;
    while let [piece, more @ ..] = rest {
        out.put(at, form_of(*piece))?;
        rest = more;
    }
    Ok(())
}

/// Adds these pieces, and tells whether there are any. Want of memory is the only error.
pub fn add_all(all: &mut Items<Piece>, more: &[Piece]) -> Result<bool, AllocError>
    ensures some { IfOk result (λ some. some ≡ not (pieces.none more.now)) }
    ensures added { OnOk result (all.new ≡ all.old ++ more.now) }
{
    let some = !more.is_empty();
    let mut rest = more;
    while let [piece, further @ ..] = rest {
        all.push(*piece)?;
        rest = further;
    }
    Ok(some)
}
