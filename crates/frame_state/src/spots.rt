//! The tokens that have come to a block's places.
ghost use Rattle.std.specs.Prelude.{◌≡◌, ◌<◌, ◌≤◌, ◌+◌, ◌*◌, ℕ, Some, None, length, is_some};
ghost use Rattle.std.specs.Prelude.{slice_index_or, slice_set};
ghost use Rattle.trips_isa.specs.declared.block.Sense.TheVariants.{OnTrue, OnFalse};
ghost use Rattle.trips_isa.specs.Rule.{matched};
ghost use Rattle.base.specs.Rows.{has_bit};
ghost use Rattle.base.specs.inside.Rows.{no_items};

use crate::rule::is_matched;
use base::{Flags, Row};
use std::marker::Model;
use trips_isa::{Sense, Token};

/// The tokens at operands, predicates and writes, by place of the block. Beside them it keeps which
/// predicates have come, so that the ready slots are known without looking at tokens.
#[derive(Drop)]
pub struct Spots {
    row: Row<Token, 416, 7>,
    odd: Flags<128, 2>,
    even: Flags<128, 2>,
}

impl Model for Spots {
    ghost use Rattle.std.specs.Prelude.{List};
    ghost use Rattle.trips_isa.specs.Rule.{Answer};
    ghost use Rattle.frame_state.specs.inside.Predicates.{Tells};

    ghost Value = { List Answer };

    ghost view = { λ s. s.row };

    ghost invariant = { λ s. Tells s.row s.odd s.even };
}

// Notes what the token at a slot's predicate lets fire.
fn note(odd: &mut Flags<128, 2>, even: &mut Flags<128, 2>, slot: usize, token: Token)
    ensures odd { odd.new ≡ slice_set odd.old slot (matched OnTrue (Some token)) }
    ensures even { even.new ≡ slice_set even.old slot (matched OnFalse (Some token)) }
    ensures odd_size { length odd.old ≡ 128 }
    ensures even_size { length even.old ≡ 128 }
{
    odd.set(slot, is_matched(Sense::OnTrue, Some(token)));
    even.set(slot, is_matched(Sense::OnFalse, Some(token)));
}

impl Spots {
    /// No token has come.
    pub fn none() -> Spots
        ensures { result ≡ no_items 416 }
    {
        Spots {
            row: Row::none(Token::Null),
            odd: Flags::none(),
            even: Flags::none(),
        }
    }

    /// The token at a place, if it has come.
    #[inline]
    pub fn get(&self, q: usize) -> Option<Token>
        ensures value { result ≡ slice_index_or self.now q None }
    {
        self.row.get(q)
    }

    // Puts a token at an operand.
    fn put_low(&mut self, q: usize, token: Token)
        requires { q < 256 }
        ensures { self.new ≡ slice_set self.old q (Some token) }
    {
        self.row.put(q, token);
    }

    // Puts a token at a predicate or a write.
    fn put_high(&mut self, q: usize, token: Token)
        requires { 256 ≤ q }
        ensures { self.new ≡ slice_set self.old q (Some token) }
    {
        self.row.put(q, token);
        note(&mut self.odd, &mut self.even, q - 256, token);
    }

    /// Puts a token at a place, if there is one of this number.
    #[inline]
    pub fn put(&mut self, q: usize, token: Token)
        ensures value { self.new ≡ slice_set self.old q (Some token) }
    {
        if q < 256 {
            self.put_low(q, token);
        } else {
            self.put_high(q, token);
        }
    }

    /// Takes all tokens away.
    pub fn clear(&mut self)
        ensures value { self.new ≡ no_items 416 }
    {
        self.row.clear();
        self.odd.clear();
        self.even.clear();
    }

    /// Which tokens from place 64 k on have come, as bits.
    #[inline]
    pub fn word(&self, k: usize) -> u64
        requires { k < 7 }
        ensures value { (s : ℕ) → s < 64 → 64 * k + s < 416
            → has_bit result s ≡ is_some (slice_index_or self.now (64 * k + s) None) }
    {
        self.row.word(k)
    }

    /// Which predicates of the slots from number 64 k on have come that let fire on true, as bits.
    #[inline]
    pub fn odd(&self, k: usize) -> u64
        requires { k < 2 }
        ensures value { (s : ℕ) → s < 64
            → has_bit result s ≡ matched OnTrue (slice_index_or self.now (256 + (64 * k + s)) None) }
    {
        self.odd.word(k)
    }

    /// Which predicates of the slots from number 64 k on have come that let fire on false, as bits.
    #[inline]
    pub fn even(&self, k: usize) -> u64
        requires { k < 2 }
        ensures value { (s : ℕ) → s < 64
            → has_bit result s ≡ matched OnFalse (slice_index_or self.now (256 + (64 * k + s)) None) }
    {
        self.even.word(k)
    }
}
