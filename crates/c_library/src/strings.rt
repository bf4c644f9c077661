//! A unit without string literals: lists in braces and arrays stand for them.

ghost use Rattle.std.specs.Prelude.{◌≡◌, ◌∷◌, ◌++◌, List, ℕ, not, false, Some, Ok, IfOk, IfErr, OnOk};
ghost use Rattle.std.specs.HashSet.{contains};
ghost use Rattle.std.specs.Str.{bytes_eq};
ghost use Rattle.c_lex.specs.Strings.{string_of};
ghost use Rattle.c_tree.specs.Limits.{most_tokens};
ghost use Rattle.c_library.specs.Arrays as arrays;
ghost use Rattle.c_library.specs.Initialisers as initialisers;
ghost use Rattle.c_library.specs.inside.Gives.{Gives, Refuses};
ghost use Rattle.c_library.specs.inside.Puts.{put_all};

use crate::copy::form_copied;
use crate::fault::LibraryFault;
use crate::literal::{put_array, put_braces};
use crate::output::Output;
use crate::place::Place;
use c_lex::string_of;
use c_tree::{Lexeme, Word};
use std::alloc::{AllocError, Global};
use std::collections::HashSet;

/// Makes a literal with these values known, and tells whether it was not. Want of memory is the only error.
fn add_known(alloc: Global, known: &mut HashSet<Word>, values: &[u8]) -> Result<bool, AllocError>
    ensures fresh { IfOk result (λ fresh. fresh ≡ not (contains bytes_eq known.old values.now)) }
    ensures grown { OnOk result ((w : List ℕ)
        → contains bytes_eq known.new w ≡ arrays.and_known values.now (contains bytes_eq known.old) w) }
{
    let word = Word::from_slice(alloc, values)?;
    match known.insert(word) {
        Err(_) => Err(AllocError),
        Ok(fresh) => Ok(fresh),
    }
}

/// Puts the array of a literal with these values, unless it is known.
fn put_fresh(
    alloc: Global,
    known: &mut HashSet<Word>,
    token: &Lexeme,
    values: &[u8],
    out: &mut Output,
) -> Result<(), LibraryFault>
    ensures gives { Gives
        (put_all most_tokens (arrays.array_for (Some values.now) false (contains bytes_eq known.old) token.now)
        out.old) result out.new }
    ensures grown { OnOk result ((w : List ℕ)
        → contains bytes_eq known.new w ≡ arrays.and_known values.now (contains bytes_eq known.old) w) }
{
    if add_known(alloc, known, values)? {
        put_array(alloc, token.offset, values, out)
    } else {
        Ok(())
    }
}

/// Puts the array of a token, if it is a literal that initialises none and is not known.
fn put_array_for(
    alloc: Global,
    known: &mut HashSet<Word>,
    initialises: bool,
    token: &Lexeme,
    out: &mut Output,
) -> Result<(), LibraryFault>
    ensures gives { Gives (put_all most_tokens
        (arrays.array_for (string_of token.now.form) initialises (contains bytes_eq known.old) token.now) out.old)
        result out.new }
    ensures grown { OnOk result ((w : List ℕ) → contains bytes_eq known.new w
        ≡ arrays.known_behind (string_of token.now.form) initialises (contains bytes_eq known.old) w) }
{
    match string_of(&token.form) {
        Some(values) => {
            if initialises {
                Ok(())
            } else {
                put_fresh(alloc, known, token, values, out)
            }
        }
        None => Ok(()),
    }
}

/// Puts the array of the first of these tokens, if it has one, at this place.
#[tactic(auto, using(crate::proofs::ArrayTurns::turn_goes, crate::proofs::ArrayTurns::turn_fails))]
fn put_first(
    alloc: Global,
    known: &mut HashSet<Word>,
    place: &Place,
    token: &Lexeme,
    behind: &[Lexeme],
    out: &mut Output,
) -> Result<(), LibraryFault>
    ensures goes { OnOk result (put_all most_tokens
        (arrays.arrays (contains bytes_eq known.old) place.now (token.now ∷ behind.now)) out.old
        ≡ put_all most_tokens (arrays.arrays (contains bytes_eq known.new)
        (initialisers.past token.now.form place.now) behind.now) out.new) }
    ensures fails { IfErr result (Refuses (put_all most_tokens
        (arrays.arrays (contains bytes_eq known.old) place.now (token.now ∷ behind.now)) out.old)) }
{
    put_array_for(alloc, known, place.initialises(behind), token, out)
}

/// Puts the definitions of the arrays of these tokens.
#[tactic(auto, using(crate::proofs::ArrayTurns::begins))]
fn put_arrays(alloc: Global, tokens: &[Lexeme], out: &mut Output) -> Result<(), LibraryFault>
    ensures { Gives
        (put_all most_tokens (arrays.arrays arrays.none_known initialisers.beginning tokens.now) out.old)
        result out.new }
{
    let mut known: HashSet<Word> = HashSet::new(alloc);
    let mut place = Place::new(alloc);
    let mut rest = tokens;
    while let [token, more @ ..] = rest {
        put_first(alloc, &mut known, &place, token, more, out)?;
        place.pass(&token.form)?;
        rest = more;
    }
    Ok(())
}

/// Puts what stands for a token.
fn put_token(
    alloc: Global,
    initialises: bool,
    token: &Lexeme,
    out: &mut Output,
) -> Result<(), LibraryFault>
    ensures { Gives
        (put_all most_tokens (initialisers.stands_for (string_of token.now.form) initialises token.now) out.old)
        result out.new }
{
    match string_of(&token.form) {
        Some(values) => {
            if initialises {
                put_braces(token.offset, values, out)
            } else {
                out.put(token.offset, form_copied(alloc, &token.form)?)
            }
        }
        None => out.put(token.offset, form_copied(alloc, &token.form)?),
    }
}

/// Puts what stands for the first of these tokens, at this place.
#[tactic(auto, using(crate::proofs::StringTurns::turn_goes, crate::proofs::StringTurns::turn_fails))]
fn put_next(
    alloc: Global,
    place: &Place,
    token: &Lexeme,
    behind: &[Lexeme],
    out: &mut Output,
) -> Result<(), LibraryFault>
    ensures goes { OnOk result (put_all most_tokens
        (initialisers.initialised place.now (token.now ∷ behind.now)) out.old
        ≡ put_all most_tokens (initialisers.initialised (initialisers.past token.now.form place.now) behind.now)
        out.new) }
    ensures fails { IfErr result (Refuses (put_all most_tokens
        (initialisers.initialised place.now (token.now ∷ behind.now)) out.old)) }
{
    put_token(alloc, place.initialises(behind), token, out)
}

/// Puts these tokens, with lists in braces for the literals that initialise an array.
fn put_initialised(alloc: Global, tokens: &[Lexeme], out: &mut Output) -> Result<(), LibraryFault>
    ensures { Gives (put_all most_tokens (initialisers.initialised initialisers.beginning tokens.now) out.old)
        result out.new }
{
    let mut place = Place::new(alloc);
    let mut rest = tokens;
    while let [token, more @ ..] = rest {
        put_next(alloc, &place, token, more, out)?;
        place.pass(&token.form)?;
        rest = more;
    }
    Ok(())
}

/// Puts the definitions of arrays, and the tokens behind them.
#[tactic(auto, using(crate::proofs::Puts::both))]
fn put_strings(alloc: Global, tokens: &[Lexeme], out: &mut Output) -> Result<(), LibraryFault>
    ensures { Gives (put_all most_tokens (arrays.arrays arrays.none_known initialisers.beginning tokens.now
        ++ initialisers.initialised initialisers.beginning tokens.now) out.old) result out.new }
{
    put_arrays(alloc, tokens, out)?;
    put_initialised(alloc, tokens, out)
}

/// The unit without string literals, or the first token that is too many.
pub fn with_strings(alloc: Global, tokens: &[Lexeme]) -> Result<Vec<Lexeme>, LibraryFault>
    ensures ok { IfOk result (λ out. arrays.with_strings most_tokens tokens.now ≡ Ok out.items) }
    ensures err { IfErr result (Refuses (arrays.with_strings most_tokens tokens.now)) }
{
    let mut out = Output::new(alloc);
    match put_strings(alloc, tokens, &mut out) {
        Ok(()) => Ok(out.into_vec()),
        Err(fault) => Err(fault),
    }
}
