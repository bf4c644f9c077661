//! Lines as they are spelled: a number may lie outside its field.
use trips_isa::{Op, Sense};

/// A target as it is spelled: a write, or a place of a slot.
#[derive(Clone, Copy, PartialEq, Eq)]
pub enum SpelledTarget {
    Write(i32),
    Left(i32),
    Right(i32),
    Pred(i32),
}

/// Where `bro` or `callo` goes: to a block by its number, or by an offset in chunks.
#[derive(Clone, Copy)]
pub enum Goal {
    Label(i32),
    Offset(i32),
}

/// The numbers of an instruction. One that its form does not have is 0.
#[derive(Clone, Copy)]
pub struct Numbers {
    pub number: i32,
    pub imm: i32,
    pub goal: Option<Goal>,
}

/// The targets of an instruction.
#[derive(Clone, Copy)]
pub struct Targets {
    pub first: Option<SpelledTarget>,
    pub second: Option<SpelledTarget>,
}

/// The line of an instruction.
#[derive(Clone, Copy)]
pub struct SpelledInst {
    pub slot: i32,
    pub op: Op,
    pub sense: Sense,
    pub numbers: Numbers,
    pub targets: Targets,
}

/// The line of a read.
#[derive(Clone, Copy)]
pub struct SpelledRead {
    pub number: i32,
    pub register: i32,
    pub first: SpelledTarget,
    pub second: Option<SpelledTarget>,
}

/// The line of a write.
#[derive(Clone, Copy)]
pub struct SpelledWrite {
    pub number: i32,
    pub register: i32,
}

/// The line of a block.
#[derive(Clone, Copy)]
pub struct SpelledBlock {
    pub number: i32,
    pub mask: u32,
}
