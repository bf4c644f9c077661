//! A run of a flat program under way.
use crate::memory::Cells;
use ir_forms::{Arg, FlatFunc, FlatStmt};

/// The scalars, temporaries and scratch variables of a call.
pub const VARIABLES: usize = 88;

/// The first variable that a call unsets.
pub const SCRATCH: usize = 80;

pub type Variables = [Option<u64>; VARIABLES];

/// Why a run ended: main returned a word or none, a frame had no room, no turn was left, a check
/// failed, or memory was refused.
#[derive(Clone, Copy, Debug, PartialEq, Eq)]
pub enum Stop {
    Done(Option<u64>),
    Deep,
    More,
    Wild,
    Memory,
}

/// What an active call holds: its variables, where its arrays are, the bytes of all frames up to
/// its own, and the variable that waits for what it calls.
#[derive(Clone, Copy)]
pub struct Call {
    pub vars: Variables,
    pub from: usize,
    pub to: usize,
    pub used: u64,
    pub awaits: Option<u16>,
}

/// What is left to be done: statements; what follows a body, and what follows a last part, of a
/// loop; the end of a call.
#[derive(Clone, Copy)]
pub enum Todo<'a> {
    Code(&'a [FlatStmt]),
    Body(&'a [FlatStmt], &'a [FlatStmt]),
    Post(&'a [FlatStmt], &'a [FlatStmt]),
    End,
}

/// How the run goes on: at the next statement, or by leaving what a break, a continue or a return
/// leaves.
#[derive(Clone, Copy)]
pub enum Flow {
    Gone,
    Broke,
    Again,
    Gave(Option<u64>),
}

/// `left` is the turns that are left, and the next that is to be done is the last of `todo`.
#[derive(Drop)]
pub struct Machine<'a> {
    pub functions: &'a [FlatFunc],
    pub base: u64,
    pub memory: Cells,
    pub input: &'a [u8],
    pub output: Vec<u8>,
    pub left: u64,
    pub todo: Vec<Todo<'a>>,
    pub waiting: Vec<Call>,
    pub now: Call,
    pub flow: Flow,
}

/// What there is before main is called.
pub fn outside() -> Call {
    Call {
        vars: [None; VARIABLES],
        from: 0,
        to: 0,
        used: 0,
        awaits: None,
    }
}

impl<'a> Machine<'a> {
    pub fn spend(&mut self, turns: u64) -> Result<(), Stop> {
        if self.left < turns {
            return Err(Stop::More);
        }
        self.left -= turns;
        Ok(())
    }

    /// A run that goes on with no turn left has not ended.
    pub fn settle(&self) -> Result<(), Stop> {
        if self.left == 0 {
            Err(Stop::More)
        } else {
            Ok(())
        }
    }

    pub fn later(&mut self, todo: Todo<'a>) -> Result<(), Stop> {
        match self.todo.push(todo) {
            Ok(()) => Ok(()),
            Err(_) => Err(Stop::Memory),
        }
    }

    pub fn read(&self, arg: Arg) -> Result<u64, Stop> {
        match arg {
            Arg::Const(w) => Ok(w),
            Arg::Var(v) => match self.now.vars.get(v as usize) {
                Some(Some(w)) => Ok(*w),
                _ => Err(Stop::Wild),
            },
        }
    }

    pub fn set(&mut self, to: u16, value: Option<u64>) -> Result<(), Stop> {
        let at = to as usize;
        if at < VARIABLES {
            self.now.vars[at] = value;
            Ok(())
        } else {
            Err(Stop::Wild)
        }
    }
}
