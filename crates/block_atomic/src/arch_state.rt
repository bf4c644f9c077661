ghost use Rattle.std.specs.Prelude.{◌≡◌, ◌<◌, ◌≤◌, ◌+◌, ℕ, All, IfOk, length, slice_get};
ghost use Rattle.std.specs.Prelude.{slice_index, slice_index_or, vec_len, Some, None, ◌++◌, ◌∷◌, []};
ghost use Rattle.trips_isa.specs.Fits.{FitsBlock};
ghost use Rattle.trips_isa.specs.Stores.{data_size, store_all};
ghost use Rattle.trips_isa.specs.Outcomes.{all_stores, writes_from};
ghost use Rattle.trips_isa.specs.Machine.{memory_of, start, step_of, system_call, then_system};
ghost use Rattle.trips_isa.specs.Machine.{write_all};
ghost use Rattle.block_check.specs.inside.IsChecked.{IsChecked};
ghost use Rattle.block_check.specs.inside.Images.{IsCheckedImage};
ghost use Rattle.block_cases.specs.inside.Plain.{IsTrap};
ghost use Rattle.block_atomic.specs.inside.Bounds.{StoreFits};
ghost use Rattle.block_atomic.specs.inside.Applied.{HasTokens, IsApplied};
ghost use Rattle.block_atomic.specs.Told.{TellsNext};

use crate::causes::{cause, slot_marks};
use crate::effects::{apply_stores, make_stores, write_registers, write_tokens};
use crate::exits::{exit, is_system, leaving, successor};
use crate::memory::data_memory;
use crate::rounds::{clear_table, settle};
use crate::used::used_slots;
use base::Memory;
use block_check::CheckedImage;
use std::alloc::{AllocError, Global};
use std::marker::Model;
use trips_isa::{Block, Stepped, Stored, Token, Traced, cause_of};

/// The state between two blocks: 128 registers, 4,194,304 bytes of data memory, the next block,
/// the rest of the input, the output and the trace.
///
/// Its room for output and trace is taken when it is made, so that no step takes memory.
#[derive(Drop)]
pub struct ArchState {
    registers: [u64; 128],
    memory: Vec<u8>,
    next: u32,
    input: Vec<u8>,
    taken: usize,
    output: Vec<u8>,
    trace: Vec<Traced>,
    budget: u32,
}

impl Model for ArchState {
    ghost use Rattle.std.specs.Prelude.{◌≡◌, ◌≤◌, ◌+◌, ◌-◌, drop, vec_len, vec_capacity};
    ghost use Rattle.trips_isa.specs.Stores.{data_size};
    ghost use Rattle.block_atomic.specs.inside.Held.{Held};

    ghost Value = { Held };

    ghost view = { λ a. record {
      machine = record {
        state = record {
          registers = a.registers;
          memory = a.memory.items;
          next = a.next;
          rest = drop a.taken a.input.items;
          output = a.output.items;
          trace = a.trace.items;
        };
        budget = a.budget;
      };
      spare = vec_capacity a.output - vec_len a.output;
    } };

    ghost invariant = { λ a. (vec_len a.memory ≡ data_size) × (a.taken ≤ vec_len a.input)
        × (vec_len a.trace ≤ a.budget) × (vec_len a.output + a.budget ≤ vec_capacity a.output + vec_len a.trace)
        × (a.budget ≤ vec_capacity a.trace) };
}

// Data memory at the start of an image's run.
fn image_memory(alloc: Global, image: &CheckedImage) -> Result<Vec<u8>, AllocError>
    ensures items { IfOk result (λ memory. memory.items ≡ memory_of image.now.bytes) }
    ensures size { IfOk result (λ memory. vec_len memory ≡ data_size) }
    ensures blocks { 0 < length image.now.blocks }
{
    data_memory(alloc, image.bytes())
}

impl ArchState {
    /// A machine at the start of the image's run, with room for `budget` steps. Want of memory is
    /// the only error.
    pub fn make(
        alloc: Global,
        image: &CheckedImage,
        input: Vec<u8>,
        budget: u32,
    ) -> Result<ArchState, Memory>
        ensures state { IfOk result (λ arch. arch.machine.state ≡ start image.now.bytes input.items) }
        ensures budget { IfOk result (λ arch. arch.machine.budget ≡ budget) }
        ensures next { IfOk result (λ arch. arch.machine.state.next < length image.now.blocks) }
    {
        let memory = image_memory(alloc, image)?;
        let output = Vec::with_capacity(alloc, budget as usize)?;
        let trace = Vec::with_capacity(alloc, budget as usize)?;
        Ok(ArchState {
            registers: [0; 128],
            memory,
            next: 0,
            input,
            taken: 0,
            output,
            trace,
            budget,
        })
    }

    /// A machine in a given state, with an empty trace and room for `budget` steps. Want of memory is the only error.
    pub fn restore(
        alloc: Global,
        registers: &[u64],
        memory: &[u8],
        next: u32,
        rest: Vec<u8>,
        output: Vec<u8>,
        budget: u32,
    ) -> Result<ArchState, Memory>
        requires registers { length registers.now ≡ 128 }
        requires memory { length memory.now ≤ data_size }
        ensures state { IfOk result (λ arch. arch.machine.state ≡ record {
          registers = registers.now;
          memory = memory_of memory.now;
          next = next;
          rest = rest.items;
          output = output.items;
          trace = [];
        }) }
        ensures budget { IfOk result (λ arch. arch.machine.budget ≡ budget) }
    {
        let mut words = [0; 128];
        words.copy_from_slice(registers);
        let memory = data_memory(alloc, memory)?;
        let mut output = output;
        output.reserve(budget as usize)?;
        let trace = Vec::with_capacity(alloc, budget as usize)?;
        Ok(ArchState {
            registers: words,
            memory,
            next,
            input: rest,
            taken: 0,
            output,
            trace,
            budget,
        })
    }

    /// Lowers the budget to this one. The room that was taken stays.
    pub fn keep_within(&mut self, budget: u32)
        requires spent { length self.old.machine.state.trace ≤ budget }
        requires room { budget ≤ self.old.machine.budget }
        ensures state { self.new.machine.state ≡ self.old.machine.state }
        ensures budget { self.new.machine.budget ≡ budget }
    {
        self.budget = budget;
    }

    /// A step, with room for the tokens at the places, the stores and the table. Where it traps, nothing
    /// changes.
    pub fn step_with(
        &mut self,
        image: &CheckedImage,
        places: &mut [Option<Token>],
        stores: &mut [Option<Stored>],
        table: &mut [Option<Token>],
    ) -> Stepped
        requires next { self.old.machine.state.next < length image.now.blocks }
        requires room { length self.old.machine.state.trace < self.old.machine.budget }
        requires places { length places.old ≡ 416 }
        requires stores { length stores.old ≡ 32 }
        requires table { length table.old ≡ 128 }
        ensures step { (self.new.machine.state, result) ≡ step_of image.now.blocks self.old.machine.state }
        ensures next { self.new.machine.state.next < length image.now.blocks }
        ensures trap { IsTrap result → self.new.machine.state ≡ self.old.machine.state }
        ensures trace { (IsTrap result → ⊥)
            → length self.new.machine.state.trace ≡ length self.old.machine.state.trace + 1 }
        ensures budget { self.new.machine.budget ≡ self.old.machine.budget }
    {
        let block = image.at(self.next).block();
        let insts = block.insts.as_slice();
        let used = used_slots(insts);
        clear_table(table);
        settle(
            block,
            used,
            &self.registers,
            &self.memory,
            places,
            stores,
            table,
        );
        let fault = cause(block, used, table, places);
        if fault == 0 {
            let branch = leaving(insts, used, table);
            let next = successor(image, self.next, branch);
            self.change(block.writes.as_slice(), places, stores, exit(branch), next);
            self.then_system(is_system(branch))
        } else {
            Stepped::Trap(cause_of(fault))
        }
    }

    /// What each slot of the next block gives, with its mark, and the exit that the block takes, with room for
    /// the tokens at the places and the stores.
    pub fn tell_with(
        &self,
        image: &CheckedImage,
        places: &mut [Option<Token>],
        stores: &mut [Option<Stored>],
        tokens: &mut [Option<Token>],
        marks: &mut [u8],
    ) -> u8
        requires next { self.now.machine.state.next < length image.now.blocks }
        requires places { length places.old ≡ 416 }
        requires stores { length stores.old ≡ 32 }
        requires tokens { length tokens.old ≡ 128 }
        requires marks { length marks.old ≡ 128 }
        ensures tells { TellsNext image.now.blocks self.now.machine.state tokens.new marks.new result }
    {
        let block = image.at(self.next).block();
        let insts = block.insts.as_slice();
        let used = used_slots(insts);
        clear_table(tokens);
        settle(
            block,
            used,
            &self.registers,
            &self.memory,
            places,
            stores,
            tokens,
        );
        slot_marks(block, used, tokens, places, marks);
        exit(leaving(insts, used, tokens))
    }

    /// Makes the change of a step from given effects of the next block: token i goes to the register of
    /// its write i, the stores that are not null to memory, and the system call follows where one does.
    pub fn apply(
        &mut self,
        image: &CheckedImage,
        writes: &[Token],
        stores: &[Stored],
        exit: u8,
        system: bool,
        successor: u32,
    ) -> Stepped
        requires next { self.old.machine.state.next < length image.now.blocks }
        requires room { length self.old.machine.state.trace < self.old.machine.budget }
        requires writes { HasTokens image.now.blocks self.old.machine.state.next writes.now }
        requires stores { All (λ s. StoreFits (Some s)) stores.now }
        requires successor { successor < length image.now.blocks }
        ensures applied { IsApplied image.now.blocks (record {
          writes = writes.now;
          stores = stores.now;
          exit = exit;
          system = system;
          successor = successor;
        }) self.old.machine.state (self.new.machine.state, result) }
        ensures next { self.new.machine.state.next < length image.now.blocks }
        ensures trap { IsTrap result → ⊥ }
        ensures trace { length self.new.machine.state.trace ≡ length self.old.machine.state.trace + 1 }
        ensures budget { self.new.machine.budget ≡ self.old.machine.budget }
    {
        let block = image.at(self.next).block();
        self.change_by(block.writes.as_slice(), writes, stores, exit, successor);
        self.then_system(system)
    }

    // Makes given changes, all at once.
    fn change_by(
        &mut self,
        registers: &[u8],
        writes: &[Token],
        stores: &[Stored],
        exit: u8,
        successor: u32,
    )
        requires registers { All (λ r. r < 128) registers.now }
        requires count { length writes.now ≡ length registers.now }
        requires stores { All (λ s. StoreFits (Some s)) stores.now }
        requires room { length self.old.machine.state.trace < self.old.machine.budget }
        ensures registers { self.new.machine.state.registers
            ≡ write_all self.old.machine.state.registers registers.now writes.now }
        ensures memory { self.new.machine.state.memory ≡ store_all self.old.machine.state.memory stores.now }
        ensures trace { self.new.machine.state.trace ≡ self.old.machine.state.trace
            ++ (record { block = self.old.machine.state.next; exit = exit }) ∷ [] }
        ensures next { self.new.machine.state.next ≡ successor }
        ensures rest { self.new.machine.state.rest ≡ self.old.machine.state.rest }
        ensures output { self.new.machine.state.output ≡ self.old.machine.state.output }
        ensures room { self.new.machine.budget < self.new.spare + length self.new.machine.state.trace }
        ensures budget { self.new.machine.budget ≡ self.old.machine.budget }
    {
        write_tokens(&mut self.registers, registers, writes);
        apply_stores(&mut self.memory, stores);
        self.trace.push_reserved(Traced {
            block: self.next,
            exit,
        });
        self.next = successor;
    }

    // Makes the block's changes, all at once.
    fn change(
        &mut self,
        writes: &[u8],
        places: &[Option<Token>],
        stores: &[Option<Stored>],
        exit: u8,
        successor: u32,
    )
        requires writes { All (λ r. r < 128) writes.now }
        requires count { length writes.now ≤ 32 }
        requires places { length places.now ≡ 416 }
        requires stores { length stores.now ≡ 32 }
        requires fits { (n : ℕ) → n < 32 → StoreFits (slice_index_or stores.now n None) }
        requires room { length self.old.machine.state.trace < self.old.machine.budget }
        ensures registers { self.new.machine.state.registers ≡ write_all self.old.machine.state.registers writes.now
            (writes_from (λ q. slice_index_or places.now q None) 0 writes.now) }
        ensures memory { self.new.machine.state.memory ≡ store_all self.old.machine.state.memory
            (all_stores (λ n. slice_index_or stores.now n None)) }
        ensures trace { self.new.machine.state.trace ≡ self.old.machine.state.trace
            ++ (record { block = self.old.machine.state.next; exit = exit }) ∷ [] }
        ensures next { self.new.machine.state.next ≡ successor }
        ensures rest { self.new.machine.state.rest ≡ self.old.machine.state.rest }
        ensures output { self.new.machine.state.output ≡ self.old.machine.state.output }
        ensures room { self.new.machine.budget < self.new.spare + length self.new.machine.state.trace }
        ensures budget { self.new.machine.budget ≡ self.old.machine.budget }
    {
        write_registers(&mut self.registers, writes, places);
        make_stores(&mut self.memory, stores);
        self.trace.push_reserved(Traced {
            block: self.next,
            exit,
        });
        self.next = successor;
    }

    // The system call, where one follows.
    fn then_system(&mut self, system: bool) -> Stepped
        requires { self.old.machine.budget < self.old.spare + length self.old.machine.state.trace }
        ensures answer { (self.new.machine.state, result) ≡ then_system system self.old.machine.state }
        ensures trap { IsTrap result → ⊥ }
        ensures next { self.new.machine.state.next ≡ self.old.machine.state.next }
        ensures trace { self.new.machine.state.trace ≡ self.old.machine.state.trace }
        ensures budget { self.new.machine.budget ≡ self.old.machine.budget }
    {
        if system {
            self.system_call()
        } else {
            Stepped::Went
        }
    }

    // Does what register 0 says.
    fn system_call(&mut self) -> Stepped
        requires { self.old.machine.budget < self.old.spare + length self.old.machine.state.trace }
        ensures answer { (self.new.machine.state, result)
            ≡ system_call (slice_index self.old.machine.state.registers 0) self.old.machine.state }
        ensures trap { IsTrap result → ⊥ }
        ensures next { self.new.machine.state.next ≡ self.old.machine.state.next }
        ensures trace { self.new.machine.state.trace ≡ self.old.machine.state.trace }
        ensures budget { self.new.machine.budget ≡ self.old.machine.budget }
    {
        match self.registers[0] {
            1 => {
                self.output.push_reserved((self.registers[3] % 256) as u8);
                Stepped::Went
            }
            2 => {
                if self.taken < self.input.len() {
                    self.registers[3] = self.input[self.taken] as u64;
                    self.taken += 1;
                } else {
                    self.registers[3] = u64::MAX;
                }
                Stepped::Went
            }
            3 => Stepped::Ended,
            4 => Stepped::StackFull,
            _ => Stepped::Went,
        }
    }

    /// A register's word.
    pub fn register(&self, r: u8) -> u64
        requires { r < 128 }
        ensures value { result ≡ slice_index self.now.machine.state.registers r }
        ensures count { length self.now.machine.state.registers ≡ 128 }
    {
        let registers: &[u64] = &self.registers;
        registers[r as usize]
    }

    /// Data memory.
    pub fn memory(&self) -> &[u8]
        ensures value { result.now ≡ self.now.machine.state.memory }
        ensures size { length result.now ≡ data_size }
    {
        &self.memory
    }

    /// The number of the next block.
    pub fn next(&self) -> u32
        ensures value { result ≡ self.now.machine.state.next }
    {
        self.next
    }

    /// The input that was not read yet.
    pub fn rest(&self) -> &[u8]
        ensures { result.now ≡ self.now.machine.state.rest }
    {
        &self.input[self.taken..]
    }

    /// The bytes that were put out.
    pub fn output(&self) -> &[u8]
        ensures { result.now ≡ self.now.machine.state.output }
    {
        &self.output
    }

    /// The blocks that were executed, in order, each with its exit.
    pub fn trace(&self) -> &[Traced]
        ensures { result.now ≡ self.now.machine.state.trace }
    {
        &self.trace
    }
}
