//! What a hyper block does.

use crate::memory::Bytes;
use ir_forms::{Exit, HyperBlock, HyperItem, Source, Tail};
use std::alloc::{AllocError, Global};
use trips_isa::{Op, alu};

/// Registers are named by bytes.
const REGISTERS: usize = 256;

/// Why a run stops: it has ended with a result, its stack is full, no block is left of those that it
/// may make, something faulted, or memory was refused.
#[derive(Clone, Copy, Debug, PartialEq, Eq)]
pub enum Stop {
    Ended(u64),
    Full,
    More,
    Fault,
    Memory,
}

/// `input` is what is not read yet.
#[derive(Drop)]
pub struct Machine<'a> {
    pub registers: [u64; REGISTERS],
    pub memory: Bytes,
    pub input: &'a [u8],
    pub output: Vec<u8>,
}

impl<'a> Machine<'a> {
    pub fn start(alloc: Global, bytes: &[u8], input: &'a [u8]) -> Result<Machine<'a>, AllocError> {
        Ok(Machine {
            registers: [0; REGISTERS],
            memory: Bytes::of_program(alloc, bytes)?,
            input,
            output: Vec::new(alloc),
        })
    }

    fn value(&self, source: Source) -> u64 {
        match source {
            Source::Const(w) => w,
            Source::Reg(r) => self.registers[r as usize],
        }
    }

    fn set(&mut self, to: u8, word: u64) {
        self.registers[to as usize] = word;
    }

    fn operate(&mut self, to: u8, op: Op, a: Source, b: Source) -> Result<(), Stop> {
        let b = self.value(b);
        match op {
            Op::Divs | Op::Divu => if b == 0 {
                return Err(Stop::Fault);
            },
            _ => {}
        }
        let word = alu(op, self.value(a), b);
        self.set(to, word);
        Ok(())
    }

    fn load(&mut self, to: u8, op: Op, address: Source) -> Result<(), Stop> {
        match self.memory.load(op, self.value(address)) {
            None => Err(Stop::Fault),
            Some(word) => {
                self.set(to, word);
                Ok(())
            }
        }
    }

    fn save(&mut self, op: Op, address: Source, value: Source) -> Result<(), Stop> {
        let address = self.value(address);
        let value = self.value(value);
        if self.memory.save(op, address, value) {
            Ok(())
        } else {
            Err(Stop::Fault)
        }
    }

    /// The system call that register 0 says.
    fn system(&mut self) -> Result<(), Stop> {
        match self.registers[0] {
            1 => {
                let byte = (self.registers[3] % 256) as u8;
                match self.output.push(byte) {
                    Ok(()) => Ok(()),
                    Err(_) => Err(Stop::Memory),
                }
            }
            2 => {
                let word = match self.input.split_first() {
                    None => u64::MAX,
                    Some((first, rest)) => {
                        self.input = rest;
                        *first as u64
                    }
                };
                self.set(3, word);
                Ok(())
            }
            3 => Err(Stop::Ended(self.registers[3])),
            4 => Err(Stop::Full),
            _ => Ok(()),
        }
    }
}

#[cycle(items)]
fn act(item: &HyperItem, machine: &mut Machine) -> Result<(), Stop> {
    match item {
        HyperItem::Set { to, op, a, b } => machine.operate(*to, *op, *a, *b),
        HyperItem::Load { to, op, address } => machine.load(*to, *op, *address),
        HyperItem::Save { op, address, value } => machine.save(*op, *address, *value),
        HyperItem::If { test, yes, no } => if machine.value(*test) == 0 {
            act_all(no.as_slice(), machine)
        } else {
            act_all(yes.as_slice(), machine)
        },
    }
}

#[cycle(items)]
fn act_all(items: &[HyperItem], machine: &mut Machine) -> Result<(), Stop> {
    for item in items {
        act(item, machine)?;
    }
    Ok(())
}

fn exit_of(tail: &Tail, machine: &Machine) -> Exit {
    match tail {
        Tail::Leave(exit) => *exit,
        Tail::Test { test, yes, no } => if machine.value(*test) == 0 {
            exit_of(no.get(), machine)
        } else {
            exit_of(yes.get(), machine)
        },
    }
}

/// Does a block; gives the label of the next. A label is its own address.
pub fn step(block: &HyperBlock, machine: &mut Machine) -> Result<u64, Stop> {
    act_all(block.items.as_slice(), machine)?;
    match exit_of(&block.tail, machine) {
        Exit::Jump(to) => Ok(to as u64),
        Exit::Call { to, back } => {
            machine.set(2, back as u64);
            Ok(to as u64)
        }
        Exit::Return => Ok(machine.registers[2]),
        Exit::System(to) => {
            machine.system()?;
            Ok(to as u64)
        }
    }
}
