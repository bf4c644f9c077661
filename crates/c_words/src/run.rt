//! A run of keywords that tokens begin with, as a part of them.

ghost use Rattle.std.specs.Prelude.{◌≡◌, ◌≤◌, length};
ghost use Rattle.c_words.specs.Keys as keys;

use crate::keys::is_word;
use c_tree::Lexeme;

/// How many tokens the run has.
#[tactic(auto, using(crate::proofs::Cuts::run_fits))]
fn run_length(tokens: &[Lexeme]) -> usize
    ensures value { result ≡ length (keys.run tokens.now) }
    ensures fits { result ≤ length tokens.now }
{
    let mut count: usize = 0;
    let mut rest = tokens;
    while let [token, more @ ..] = rest {
        if !is_word(&token.form) {
            break;
        }
        count += 1;
        rest = more;
    }
    count
}

/// The run, and the tokens behind it.
#[tactic(auto, using(crate::proofs::Cuts::run_taken, crate::proofs::Cuts::run_dropped))]
pub fn cut(tokens: &[Lexeme]) -> (&[Lexeme], &[Lexeme])
    ensures run { result.0.now ≡ keys.run tokens.now }
    ensures behind { result.1.now ≡ keys.behind tokens.now }
{
    tokens.split_at(run_length(tokens))
}
