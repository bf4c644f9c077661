use trips_isa::Spot;

/// Why a block is not good, in the order of the answers (docs/MACHINE.md, "Good blocks").
#[derive(Clone, Copy, Debug, PartialEq, Eq)]
pub enum CheckFault {
    /// The read or the slot names an empty slot, an operand or a predicate that an instruction
    /// does not take, or a write that is not declared.
    BadTarget(Spot),
    /// The slot stores with a number outside the mask, or loads with one of the mask or with that
    /// of an earlier load; or the write names the register of an earlier one.
    BadNumber(Spot),
    /// Producers, consumers, and stores before loads of higher numbers go round in a circle.
    Cycle,
    /// There are more than 256 cases.
    TooManyCases,
    /// The operand, predicate, write or store number gets two tokens in some case.
    TwoTokens(Spot),
    /// The declared write or the store number of the mask gets no token in some case.
    NoToken(Spot),
    /// No branch fires in some case.
    NoExit,
    /// Two branches fire in some case.
    TwoExits,
}

/// A fault of the nodes alone, which names places.
#[derive(Clone, Copy, Debug, PartialEq, Eq)]
pub(crate) enum NodeFault {
    Cycle,
    TooManyCases,
    TwoTokens(u16),
    NoToken(u16),
    NoExit,
    TwoExits,
}
