ghost use Rattle.std.specs.Prelude.{◌≡◌, ◌<◌, ◌≤◌, ◌+◌, [], All, IfOk, Some, length, slice_index};
ghost use Rattle.trips_isa.specs.Stores.{data_size};
ghost use Rattle.trips_isa.specs.Machine.{memory_of, start, step_of};
ghost use Rattle.block_cases.specs.inside.Plain.{IsTrap};
ghost use Rattle.block_atomic.specs.inside.Bounds.{StoreFits};
ghost use Rattle.block_atomic.specs.inside.Applied.{HasTokens, IsApplied};
ghost use Rattle.block_atomic.specs.Told.{TellsNext};

use crate::arch_state::ArchState;
use base::Memory;
use block_check::CheckedImage;
use std::alloc::Global;
use std::marker::Model;
use trips_isa::{Stepped, Stored, Token, Traced};

/// The machine between two blocks: 128 registers, 4,194,304 bytes of data memory, the next block,
/// the rest of the input, the output and the trace.
///
/// All its room is taken when it is made, so that no step takes memory: for output and trace, and
/// for the tokens of a block.
#[derive(Drop)]
pub struct Arch {
    state: ArchState,
    places: [Option<Token>; 416],
    stores: [Option<Stored>; 32],
    table: [Option<Token>; 128],
}

impl Model for Arch {
    ghost use Rattle.trips_isa.specs.Machine.{Machine};

    ghost Value = { Machine };

    ghost view = { λ a. a.state.machine };
}

impl Arch {
    /// A machine at the start of the image's run, with room for `budget` steps. Want of memory is
    /// the only error.
    pub fn make(
        alloc: Global,
        image: &CheckedImage,
        input: Vec<u8>,
        budget: u32,
    ) -> Result<Arch, Memory>
        ensures state { IfOk result (λ arch. arch.state ≡ start image.now.bytes input.items) }
        ensures budget { IfOk result (λ arch. arch.budget ≡ budget) }
        ensures next { IfOk result (λ arch. arch.state.next < length image.now.blocks) }
    {
        let state = ArchState::make(alloc, image, input, budget)?;
        Ok(Arch {
            state,
            places: [None; 416],
            stores: [None; 32],
            table: [None; 128],
        })
    }

    /// A machine of an image in a given state, whose memory begins with these bytes, with an empty trace and room for
    /// `budget` steps. Want of memory is the only error.
    pub fn restore(
        alloc: Global,
        image: &CheckedImage,
        registers: &[u64],
        memory: &[u8],
        next: u32,
        rest: Vec<u8>,
        output: Vec<u8>,
        budget: u32,
    ) -> Result<Arch, Memory>
        requires registers { length registers.now ≡ 128 }
        requires memory { length memory.now ≤ data_size }
        requires next { next < length image.now.blocks }
        ensures state { IfOk result (λ arch. arch.state ≡ record {
          registers = registers.now;
          memory = memory_of memory.now;
          next = next;
          rest = rest.items;
          output = output.items;
          trace = [];
        }) }
        ensures budget { IfOk result (λ arch. arch.budget ≡ budget) }
    {
        let state = ArchState::restore(alloc, registers, memory, next, rest, output, budget)?;
        Ok(Arch {
            state,
            places: [None; 416],
            stores: [None; 32],
            table: [None; 128],
        })
    }

    /// Lowers the budget to one that the steps made so far are within; nothing else changes.
    pub fn keep_within(&mut self, budget: u32)
        requires spent { length self.old.state.trace ≤ budget }
        requires room { budget ≤ self.old.budget }
        ensures state { self.new.state ≡ self.old.state }
        ensures budget { self.new.budget ≡ budget }
    {
        self.state.keep_within(budget);
    }

    /// Executes the next block whole. `room` says that fewer steps were made than the budget. Where the
    /// block faults, the answer is `Trap` with the cause, and nothing changes.
    pub fn step(&mut self, image: &CheckedImage) -> Stepped
        requires next { self.old.state.next < length image.now.blocks }
        requires room { length self.old.state.trace < self.old.budget }
        ensures step { (self.new.state, result) ≡ step_of image.now.blocks self.old.state }
        ensures next { self.new.state.next < length image.now.blocks }
        ensures trap { IsTrap result → self.new.state ≡ self.old.state }
        ensures trace { (IsTrap result → ⊥)
            → length self.new.state.trace ≡ length self.old.state.trace + 1 }
        ensures budget { self.new.budget ≡ self.old.budget }
    {
        self.state
            .step_with(image, &mut self.places, &mut self.stores, &mut self.table)
    }

    /// Tells the token that each slot of the next block gives, and its mark, and the exit that the block takes. Nothing
    /// changes but the lists.
    pub fn tell(
        &mut self,
        image: &CheckedImage,
        tokens: &mut [Option<Token>],
        marks: &mut [u8],
    ) -> u8
        requires next { self.old.state.next < length image.now.blocks }
        requires tokens { length tokens.old ≡ 128 }
        requires marks { length marks.old ≡ 128 }
        ensures tells { TellsNext image.now.blocks self.old.state tokens.new marks.new result }
        ensures same { self.new ≡ self.old }
    {
        self.state
            .tell_with(image, &mut self.places, &mut self.stores, tokens, marks)
    }

    /// Makes the change of a step from given effects of the next block, and counts as one: token i goes
    /// to the register of its write i, a null one changing nothing; the stores that are not null go to
    /// memory; the trace gets the block and the exit; the next block becomes `successor`; and where
    /// `system` holds, the system call follows.
    pub fn apply(
        &mut self,
        image: &CheckedImage,
        writes: &[Token],
        stores: &[Stored],
        exit: u8,
        system: bool,
        successor: u32,
    ) -> Stepped
        requires next { self.old.state.next < length image.now.blocks }
        requires room { length self.old.state.trace < self.old.budget }
        requires writes { HasTokens image.now.blocks self.old.state.next writes.now }
        requires stores { All (λ s. StoreFits (Some s)) stores.now }
        requires successor { successor < length image.now.blocks }
        ensures applied { IsApplied image.now.blocks (record {
          writes = writes.now;
          stores = stores.now;
          exit = exit;
          system = system;
          successor = successor;
        }) self.old.state (self.new.state, result) }
        ensures next { self.new.state.next < length image.now.blocks }
        ensures trap { IsTrap result → ⊥ }
        ensures trace { length self.new.state.trace ≡ length self.old.state.trace + 1 }
        ensures budget { self.new.budget ≡ self.old.budget }
    {
        self.state
            .apply(image, writes, stores, exit, system, successor)
    }

    /// A register's word.
    pub fn register(&self, r: u8) -> u64
        requires { r < 128 }
        ensures value { result ≡ slice_index self.now.state.registers r }
        ensures count { length self.now.state.registers ≡ 128 }
    {
        self.state.register(r)
    }

    /// Data memory.
    pub fn memory(&self) -> &[u8]
        ensures value { result.now ≡ self.now.state.memory }
        ensures size { length result.now ≡ data_size }
    {
        self.state.memory()
    }

    /// The number of the next block.
    pub fn next(&self) -> u32
        ensures value { result ≡ self.now.state.next }
    {
        self.state.next()
    }

    /// The input that was not read yet.
    pub fn rest(&self) -> &[u8]
        ensures { result.now ≡ self.now.state.rest }
    {
        self.state.rest()
    }

    /// The bytes that were put out.
    pub fn output(&self) -> &[u8]
        ensures { result.now ≡ self.now.state.output }
    {
        self.state.output()
    }

    /// The blocks that were executed, in order, each with its exit.
    pub fn trace(&self) -> &[Traced]
        ensures { result.now ≡ self.now.state.trace }
    {
        self.state.trace()
    }
}
