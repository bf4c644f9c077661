//! The predictor.
ghost use Rattle.std.specs.Prelude.{◌≡◌, ◌<◌, ◌+◌, ◌*◌, ◌%◌, All, length, IfOk, IfSome, [], get_or};
ghost use Rattle.circular_buffer.specs.Buffer.{buffer};
ghost use Rattle.block_predict.specs.Predicts as spec;
ghost use Rattle.block_predict.specs.Predicts.{holding, with_history};
ghost use Rattle.block_predict.specs.inside.Predicts.{AreBlocks};
ghost use Rattle.block_predict.specs.Seeded.{entries_of};

use crate::{branches, table};
use base::{Items, Memory};
use block_check::CheckedImage;
use circular_buffer::HeapCircularBuffer;
use std::alloc::Global;
use std::marker::Model;
use trips_isa::{Inst, Op};

/// A table of 1,024 exits, the history of exits, a return stack of at most sixteen numbers, and how many frames may be
/// in flight behind the oldest.
#[derive(Drop)]
pub struct Predictor {
    entries: Items<u8>,
    history: u16,
    stack: HeapCircularBuffer<u32>,
    ahead: u8,
}

impl Model for Predictor {
    ghost use Rattle.block_predict.specs.Predicts.{Holding, holding};
    ghost use Rattle.block_predict.specs.inside.IsPredictor.{IsPredictor};

    ghost Value = { Holding };

    ghost view = { λ p. record (holding p.entries p.history p.stack.items) { ahead = p.ahead } };

    ghost invariant = { λ p. IsPredictor p.entries p.history p.stack.capacity };
}

// As many frames behind the oldest as there are besides it.
const MOST_AHEAD: u8 = 7;

// The place in the table of a block under a history.
fn place(number: u32, history: u16) -> usize
    ensures value { result ≡ spec.place_of number history }
    ensures within { result < 1024 }
{
    ((number ^ history as u32) % 1024) as usize
}

/// The history after an exit has entered it.
pub fn entered(history: u16, exit: u8) -> u16
    ensures value { result ≡ spec.entered history exit }
    ensures within { result < 1024 }
{
    ((8 * history as u32 + exit as u32) % 1024) as u16
}

// The newest number of the return stack.
fn newest(stack: &HeapCircularBuffer<u32>) -> Option<u32>
    ensures value { result ≡ spec.newest stack.now.items }
{
    stack.back().copied()
}

// Which block a branch predicts.
fn target(
    image: &CheckedImage,
    number: u32,
    stack: &HeapCircularBuffer<u32>,
    branch: Option<Inst>,
) -> Option<u32>
    requires number { number < length image.now.blocks }
    ensures value { result ≡ spec.target image.now.blocks stack.now.items number branch }
    ensures within { AreBlocks image.now.blocks stack.now.items
        → IfSome result (λ n. n < length image.now.blocks) }
{
    let inst = branch?;
    match inst.op {
        Op::Bro | Op::Callo => Some(image.at_offset(number, inst.imm)),
        Op::Ret => newest(stack),
        _ => None,
    }
}

// What a branch does to the return stack.
fn turn(stack: &mut HeapCircularBuffer<u32>, image: &CheckedImage, number: u32, op: Op)
    requires number { number < length image.now.blocks }
    requires capacity { stack.old.capacity ≡ 16 }
    ensures value { stack.new
        ≡ buffer (spec.stack_by op image.now.blocks number stack.old.items) 16 }
    ensures keeps { AreBlocks image.now.blocks stack.old.items
        → AreBlocks image.now.blocks stack.new.items }
{
    match op {
        Op::Callo => {
            stack.push_back(image.following(number));
        }
        Op::Ret => {
            stack.pop_back();
        }
        _ => {}
    }
}

impl Predictor {
    /// The predictor of a seed, with history 0 and an empty return stack.
    pub fn make(alloc: Global, seed: u64) -> Result<Predictor, Memory>
        ensures { IfOk result (λ p. p ≡ holding (entries_of seed) 0 []) }
    {
        let entries = table::seeded(alloc, seed)?;
        Predictor::wrong(alloc, entries)
    }

    /// A predictor with these 1,024 entries, history 0 and an empty return stack.
    pub fn wrong(alloc: Global, entries: Vec<u8>) -> Result<Predictor, Memory>
        requires { length entries.items ≡ 1024 }
        ensures { IfOk result (λ p. p ≡ holding entries.items 0 []) }
    {
        let stack = HeapCircularBuffer::with_capacity(alloc, 16)?;
        Ok(Predictor {
            entries: Items::from_vec(entries),
            history: 0,
            stack,
            ahead: MOST_AHEAD,
        })
    }

    /// From now on at most so many frames are in flight behind the oldest.
    pub fn limit(&mut self, ahead: u8)
        ensures { self.new ≡ record self.old { ahead = ahead } }
    {
        self.ahead = ahead;
    }

    /// How many frames may be in flight behind the oldest.
    pub fn ahead(&self) -> u8
        ensures value { result ≡ self.now.ahead }
    {
        self.ahead
    }

    // The branch that the table names for a block.
    fn branch(&self, image: &CheckedImage, number: u32) -> Option<Inst>
        requires number { number < length image.now.blocks }
        ensures { result ≡ spec.branch image.now.blocks self.now number }
    {
        let exit = self.entries.as_slice()[place(number, self.history)];
        branches::taken(image.at(number).block().insts.as_slice(), exit)
    }

    /// What `predict` would answer.
    pub fn peek(&self, image: &CheckedImage, number: u32) -> Option<u32>
        requires number { number < length image.now.blocks }
        ensures value { result ≡ spec.predicted image.now.blocks self.now number }
        ensures within { AreBlocks image.now.blocks self.now.stack
            → IfSome result (λ n. n < length image.now.blocks) }
    {
        target(image, number, &self.stack, self.branch(image, number))
    }

    /// The block that is predicted after this one; none exactly where none is, and then nothing changes.
    pub fn predict(&mut self, image: &CheckedImage, number: u32) -> Option<u32>
        requires number { number < length image.now.blocks }
        ensures value { result ≡ spec.predicted image.now.blocks self.old number }
        ensures after { self.new ≡ spec.after image.now.blocks self.old number }
        ensures within { AreBlocks image.now.blocks self.old.stack
            → IfSome result (λ n. n < length image.now.blocks) }
        ensures keeps { AreBlocks image.now.blocks self.old.stack
            → AreBlocks image.now.blocks self.new.stack }
    {
        let branch = self.branch(image, number);
        let target = target(image, number, &self.stack, branch);
        if let Some(inst) = branch
            && target.is_some()
        {
            self.follow(image, number, inst);
        }
        target
    }

    // Notes that a branch was predicted.
    fn follow(&mut self, image: &CheckedImage, number: u32, inst: Inst)
        requires number { number < length image.now.blocks }
        ensures value { self.new ≡ spec.followed image.now.blocks self.old number inst }
        ensures keeps { AreBlocks image.now.blocks self.old.stack
            → AreBlocks image.now.blocks self.new.stack }
    {
        self.history = entered(self.history, inst.number);
        turn(&mut self.stack, image, number, inst.op);
    }

    /// Learns the exit by which a block was left, under the history that stood when it was fetched.
    pub fn learn(&mut self, number: u32, history: u16, exit: u8)
        ensures { self.new ≡ spec.learned self.old number history exit }
    {
        self.entries.set(place(number, history), exit);
    }

    /// The history.
    pub fn history(&self) -> u16
        ensures value { result ≡ self.now.history }
        ensures within { result < 1024 }
    {
        self.history
    }

    /// Puts the history back.
    pub fn repair(&mut self, history: u16)
        requires { history < 1024 }
        ensures { self.new ≡ with_history history self.old }
    {
        self.history = history;
    }
}
