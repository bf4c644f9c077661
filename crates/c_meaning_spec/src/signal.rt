use crate::fault::Fault;

/// What a part of a program gives when it goes on: nothing, a value, or where control goes.
///
/// `Returns` has the value that is returned, if there is one.
#[derive(Clone, Copy, Debug, PartialEq, Eq)]
pub enum Signal {
    Nothing,
    Value(u64),
    Breaks,
    Continues,
    Returns(Option<u64>),
}

/// Why an evaluation stops before its end: a step is needed and none is left, an operation is
/// undefined, or the frames of the active functions would be too large.
#[derive(Clone, Copy, Debug, PartialEq, Eq)]
pub enum Ending {
    More,
    Undefined,
    Deep,
}

/// How an evaluation stops before the end of `main`: a step is needed and none is left, the frames of the active
/// functions would be too large, it is undefined for this reason, or by `exit` with this word (C17 7.22.4.4).
#[derive(Clone, Copy, Debug, PartialEq, Eq)]
pub enum Halt {
    NoStep,
    TooDeep,
    Faults(Fault),
    Exits(u64),
}

/// A scalar of the function that runs, or an element of an array, by their numbers.
#[derive(Clone, Copy, Debug, PartialEq, Eq)]
pub enum Object {
    InScalar(u64),
    InArray(u64, u64),
}
