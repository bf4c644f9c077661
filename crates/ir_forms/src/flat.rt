use base::Items;
use trips_isa::Op;

/// An operand of a flat statement: a word, or a variable by its number.
///
/// Variable k below [`FIRST_TEMPORARY`](crate::FIRST_TEMPORARY) is scalar k of the function; then come
/// the temporaries, and from [`FIRST_SCRATCH`](crate::FIRST_SCRATCH) on the scratch variables.
#[derive(Clone, Copy, Debug, PartialEq, Eq)]
pub enum Arg {
    Const(u64),
    Var(u16),
}

/// A statement of the flat form. Each is executed whole before the next.
#[derive(Drop)]
#[cycle(flat_stmt)]
pub enum FlatStmt {
    /// `to` becomes what an operation on words gives; one that takes one operand takes `a`, and `b`
    /// is then `Const(0)`
    Let {
        to: u16,
        op: Op,
        a: Arg,
        b: Arg,
    },
    /// `to` becomes the address of byte `at` of the arrays of the active call
    Frame {
        to: u16,
        at: u32,
    },
    /// `to` becomes what the load `op` gives at an address
    Load {
        to: u16,
        op: Op,
        address: Arg,
    },
    /// the store `op` puts a value to an address
    Save {
        op: Op,
        address: Arg,
        value: Arg,
    },
    /// calls a function by its number; `to` becomes what it returns
    Call {
        function: u32,
        args: Items<Arg>,
        to: Option<u16>,
    },
    /// puts out the low byte
    Put(Arg),
    /// `to` becomes the next byte of the input, or 2^64 - 1 at its end
    Get {
        to: u16,
    },
    /// does `yes` where the word is not 0, else `no`
    If {
        test: Arg,
        yes: Items<FlatStmt>,
        no: Items<FlatStmt>,
    },
    /// does `body` and then `post`, again and again; `Continue` in the body goes on at `post`
    Loop {
        body: Items<FlatStmt>,
        post: Items<FlatStmt>,
    },
    Break,
    Continue,
    Return(Option<Arg>),
    /// ends the whole run, from any depth of calls; its value is the program's result, as if main
    /// returned it
    Halt(Arg),
}

/// A function: its first `params` scalars are its parameters, and `arrays` is the number of bytes
/// of its local arrays, each rounded up to 8.
#[derive(Drop)]
pub struct FlatFunc {
    pub params: u8,
    pub scalars: u8,
    pub arrays: u32,
    pub body: Items<FlatStmt>,
}

/// A flat program: `bytes` is the start of data memory, where the globals lie, and `main` is the
/// number of the function main.
#[derive(Drop)]
pub struct FlatProgram {
    pub functions: Items<FlatFunc>,
    pub bytes: Items<u8>,
    pub main: u32,
}
