//! What gives a register's word in a block, and how many take it.

/// The registers of the machine.
pub const REGISTERS: usize = 128;

/// What gives a register's word in a block: operations, the block's read, or as yet nothing.
#[derive(Clone, Copy)]
pub struct Producer {
    /// whether an operation of the block sets it
    pub set: bool,
    /// whether its word is a bit, so that it is a test itself
    pub bit: bool,
    /// how many places each of its instructions names, and 0 where nothing names the register
    pub targets: u8,
    /// how many operations take it
    pub uses: u8,
    /// how many instructions give it, on each path one
    pub sources: u8,
    /// how many legs leave it as the block found it
    pub kept: u8,
    /// the ifs around what set it last
    pub depth: u8,
}

/// What gives the word of a register that nothing in the block names as yet.
pub const NOTHING: Producer = Producer {
    set: false,
    bit: false,
    targets: 0,
    uses: 0,
    sources: 1,
    kept: 0,
    depth: 0,
};

/// What gives the word of each register.
#[derive(Clone, Copy)]
pub struct Producers {
    pub all: [Producer; REGISTERS],
}

fn larger(a: u8, b: u8) -> u8 {
    if a < b { b } else { a }
}

fn smaller(a: u8, b: u8) -> u8 {
    if a < b { a } else { b }
}

impl Producer {
    /// Whether it is set in a leg at a depth.
    pub fn is_of_leg(&self, depth: u8) -> bool {
        self.set && self.depth == depth
    }

    /// The same where all places that it names are taken.
    pub fn full(self) -> Producer {
        Producer {
            uses: larger(self.uses, self.targets),
            ..self
        }
    }

    /// What gives the word where either of two gives it.
    pub fn or(self, other: Producer, depth: u8) -> Producer {
        Producer {
            set: true,
            bit: false,
            targets: smaller(self.targets, other.targets),
            uses: larger(self.uses, other.uses),
            sources: self.sources.saturating_add(other.sources),
            kept: self.kept.saturating_add(other.kept),
            depth,
        }
    }
}

impl Producers {
    /// What gives a register's word.
    pub fn get(&self, at: usize) -> Producer {
        self.all[at % REGISTERS]
    }

    /// What gives it from here on.
    pub fn put(&mut self, at: usize, producer: Producer) {
        self.all[at % REGISTERS] = producer;
    }
}
