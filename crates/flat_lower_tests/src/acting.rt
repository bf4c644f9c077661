//! What each statement does, its turns spent.
use crate::machine::{Call, Flow, Machine, SCRATCH, Stop, Todo, VARIABLES, Variables};
use ir_forms::{Arg, FlatStmt};
use trips_isa::{Op, alu};

/// The bytes that all active frames may take.
const FRAME_LIMIT: u64 = 1_048_576;

/// What an operation gives, where it does not divide by zero.
fn apply(op: Op, a: u64, b: u64) -> Result<u64, Stop> {
    match op {
        Op::Divs | Op::Divu => if b == 0 {
            Err(Stop::Wild)
        } else {
            Ok(alu(op, a, b))
        },
        _ => Ok(alu(op, a, b)),
    }
}

impl<'a> Machine<'a> {
    fn operate(&mut self, to: u16, op: Op, a: Arg, b: Arg) -> Result<(), Stop> {
        let a = self.read(a)?;
        let b = self.read(b)?;
        let word = apply(op, a, b)?;
        self.set(to, Some(word))
    }

    fn frame(&mut self, to: u16, at: u32) -> Result<(), Stop> {
        let address = (self.now.from as u64).saturating_add(at as u64);
        self.set(to, Some(address))
    }

    fn load(&mut self, to: u16, op: Op, address: Arg) -> Result<(), Stop> {
        let address = self.read(address)?;
        match self.memory.load(op, address) {
            None => Err(Stop::Wild),
            Some(word) => self.set(to, Some(word)),
        }
    }

    fn save(&mut self, op: Op, address: Arg, value: Arg) -> Result<(), Stop> {
        let address = self.read(address)?;
        let value = self.read(value)?;
        if self.memory.save(op, address, value) {
            Ok(())
        } else {
            Err(Stop::Wild)
        }
    }

    /// The variables of a call with these arguments.
    fn arguments(&self, args: &[Arg]) -> Result<Variables, Stop> {
        let mut vars = [None; VARIABLES];
        if args.len() > VARIABLES {
            return Err(Stop::Wild);
        }
        for (v, arg) in args.iter().enumerate() {
            vars[v] = Some(self.read(*arg)?);
        }
        Ok(vars)
    }

    /// Begins a call, where its frame has room.
    pub fn enter(&mut self, function: u32, vars: Variables) -> Result<(), Stop> {
        let functions = self.functions;
        let Some(f) = functions.get(function as usize) else {
            return Err(Stop::Wild);
        };
        let arrays = self.now.used.saturating_add(8 * (18 + f.scalars as u64));
        let used = arrays.saturating_add(f.arrays as u64);
        if used > FRAME_LIMIT {
            self.spend(1)?;
            return Err(Stop::Deep);
        }
        let from = self.base.saturating_add(arrays) as usize;
        let to = self.base.saturating_add(used) as usize;
        if self.memory.open(from, to).is_err() {
            return Err(Stop::Memory);
        }
        self.now = Call {
            vars,
            from,
            to,
            used,
            awaits: None,
        };
        self.later(Todo::End)?;
        self.later(Todo::Code(f.body.as_slice()))
    }

    fn call(&mut self, function: u32, args: &[Arg], to: Option<u16>) -> Result<(), Stop> {
        let vars = self.arguments(args)?;
        self.now.awaits = to;
        match self.waiting.push(self.now) {
            Ok(()) => self.enter(function, vars),
            Err(_) => Err(Stop::Memory),
        }
    }

    /// Ends a call, and goes on in its caller where there is one.
    pub fn give(&mut self, value: Option<u64>) -> Result<(), Stop> {
        self.memory.close(self.now.from, self.now.to);
        let Some(caller) = self.waiting.pop() else {
            return Err(Stop::Done(value));
        };
        self.now = caller;
        self.flow = Flow::Gone;
        for v in SCRATCH..VARIABLES {
            self.now.vars[v] = None;
        }
        if let Some(to) = caller.awaits {
            self.set(to, value)?;
        }
        self.settle()
    }

    fn put(&mut self, value: Arg) -> Result<(), Stop> {
        let word = self.read(value)?;
        match self.output.push((word % 256) as u8) {
            Ok(()) => Ok(()),
            Err(_) => Err(Stop::Memory),
        }
    }

    fn get(&mut self, to: u16) -> Result<(), Stop> {
        match self.input.split_first() {
            None => self.set(to, Some(u64::MAX)),
            Some((byte, rest)) => {
                self.input = rest;
                self.set(to, Some(*byte as u64))
            }
        }
    }

    /// The next turn of a loop, which takes one of the run's.
    pub fn turn(&mut self, body: &'a [FlatStmt], post: &'a [FlatStmt]) -> Result<(), Stop> {
        self.spend(1)?;
        self.later(Todo::Body(body, post))?;
        self.later(Todo::Code(body))
    }

    fn leave(&mut self, flow: Flow) -> Result<(), Stop> {
        self.flow = flow;
        Ok(())
    }

    /// Ends the run, whatever calls are active.
    fn halt(&self, value: Arg) -> Result<(), Stop> {
        let word = self.read(value)?;
        Err(Stop::Done(Some(word)))
    }

    fn give_back(&mut self, value: Option<Arg>) -> Result<(), Stop> {
        match value {
            None => self.leave(Flow::Gave(None)),
            Some(value) => {
                let word = self.read(value)?;
                self.leave(Flow::Gave(Some(word)))
            }
        }
    }

    pub fn act(&mut self, statement: &'a FlatStmt) -> Result<(), Stop> {
        match statement {
            FlatStmt::Let { to, op, a, b } => self.operate(*to, *op, *a, *b),
            FlatStmt::Frame { to, at } => self.frame(*to, *at),
            FlatStmt::Load { to, op, address } => self.load(*to, *op, *address),
            FlatStmt::Save { op, address, value } => self.save(*op, *address, *value),
            FlatStmt::Call { function, args, to } => self.call(*function, args.as_slice(), *to),
            FlatStmt::Put(value) => self.put(*value),
            FlatStmt::Get { to } => self.get(*to),
            FlatStmt::If { test, yes, no } => {
                let word = self.read(*test)?;
                let leg = if word == 0 { no } else { yes };
                self.later(Todo::Code(leg.as_slice()))
            }
            FlatStmt::Loop { body, post } => self.turn(body.as_slice(), post.as_slice()),
            FlatStmt::Break => self.leave(Flow::Broke),
            FlatStmt::Continue => self.leave(Flow::Again),
            FlatStmt::Return(value) => self.give_back(*value),
            FlatStmt::Halt(value) => self.halt(*value),
        }
    }
}
