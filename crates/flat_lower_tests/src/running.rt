//! Flat programs, run with all checks.
use crate::machine::{Flow, Machine, Stop, Todo, VARIABLES, outside};
use crate::memory::Cells;
use ir_forms::{FlatProgram, FlatStmt};
use std::alloc::{AllocError, Global};

/// A run that has ended, with the turns that it did not take.
#[derive(Drop)]
pub struct Ran {
    pub stop: Stop,
    pub output: Vec<u8>,
    pub left: u64,
}

/// The turns of a statement. A loop's are taken one at a time.
fn price(statement: &FlatStmt) -> u64 {
    match statement {
        FlatStmt::Call { .. } => 10,
        FlatStmt::Loop { .. } => 0,
        _ => 1,
    }
}

impl<'a> Machine<'a> {
    /// The last part of a loop.
    fn post(&mut self, body: &'a [FlatStmt], post: &'a [FlatStmt]) -> Result<(), Stop> {
        self.flow = Flow::Gone;
        self.later(Todo::Post(body, post))?;
        self.later(Todo::Code(post))
    }

    fn go_on(&mut self, todo: Todo<'a>) -> Result<(), Stop> {
        match todo {
            Todo::Code(code) => match code.split_first() {
                None => self.settle(),
                Some((first, rest)) => {
                    self.spend(price(first))?;
                    self.later(Todo::Code(rest))?;
                    self.act(first)
                }
            },
            Todo::Body(body, post) => self.post(body, post),
            Todo::Post(body, post) => self.turn(body, post),
            Todo::End => self.give(None),
        }
    }

    /// A break leaves the loop whose body it stands in, and a continue goes on at its last part. In
    /// that part, and outside of a loop, neither may stand.
    fn leave_body(&mut self, todo: Todo<'a>, is_break: bool) -> Result<(), Stop> {
        match todo {
            Todo::Code(_) => Ok(()),
            Todo::Body(body, post) => if is_break {
                self.flow = Flow::Gone;
                self.settle()
            } else {
                self.post(body, post)
            },
            _ => Err(Stop::Wild),
        }
    }

    fn leave_call(&mut self, todo: Todo<'a>, value: Option<u64>) -> Result<(), Stop> {
        match todo {
            Todo::End => self.give(value),
            _ => Ok(()),
        }
    }

    fn step(&mut self) -> Result<(), Stop> {
        let Some(todo) = self.todo.pop() else {
            return Err(Stop::Wild);
        };
        match self.flow {
            Flow::Gone => self.go_on(todo),
            Flow::Broke => self.leave_body(todo, true),
            Flow::Again => self.leave_body(todo, false),
            Flow::Gave(value) => self.leave_call(todo, value),
        }
    }

    fn go(&mut self, main: u32) -> Stop {
        if let Err(stop) = self.enter(main, [None; VARIABLES]) {
            return stop;
        }
        for _step in 0..u64::MAX {
            if let Err(stop) = self.step() {
                return stop;
            }
        }
        Stop::More
    }
}

/// The run of a program on an input, with so many turns.
pub fn run(
    alloc: Global,
    program: &FlatProgram,
    input: &[u8],
    turns: u64,
) -> Result<Ran, AllocError> {
    let memory = Cells::of_globals(alloc, program.bytes.as_slice())?;
    let mut machine = Machine {
        functions: program.functions.as_slice(),
        base: memory.len() as u64,
        memory,
        input,
        output: Vec::new(alloc),
        left: turns,
        todo: Vec::new(alloc),
        waiting: Vec::new(alloc),
        now: outside(),
        flow: Flow::Gone,
    };
    let stop = machine.go(program.main);
    let Machine { output, left, .. } = machine;
    Ok(Ran { stop, output, left })
}
