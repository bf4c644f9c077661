//! Blocks by their store mask and lines, with the fault that docs/MACHINE.md, "Good blocks", gives
//! them, none standing for a good block.

use block_check::CheckFault;
use trips_isa::Spot;

/// A name, the store mask, the lines, and the answer.
pub type Row = (&'static str, u32, &'static str, Option<CheckFault>);

pub const TARGETS: &[Row] = &[
    (
        "an empty slot",
        0,
        "N[0] genu 0 N[7,0]\nN[1] scall 0\n",
        Some(CheckFault::BadTarget(Spot::Inst(0))),
    ),
    (
        "an operand that is not taken",
        0,
        "R[0] read G[5] N[0,1]\nW[0] write G[0]\nN[0] addi 0 W[0]\nN[1] scall 0\n",
        Some(CheckFault::BadTarget(Spot::Read(0))),
    ),
    (
        "the predicate of one that has none",
        0,
        "W[0] write G[0]\nN[0] genu 0 N[1,p]\nN[1] addi 0 W[0]\nN[2] scall 0\n",
        Some(CheckFault::BadTarget(Spot::Inst(0))),
    ),
    (
        "a write that is not declared",
        0,
        "W[0] write G[0]\nN[0] scall 0\nN[1] genu 0 W[1]\n",
        Some(CheckFault::BadTarget(Spot::Inst(1))),
    ),
    (
        "beside a bad number and no exit",
        0,
        "N[0] sb 0 0\nN[1] genu 0 N[7,0]\n",
        Some(CheckFault::BadTarget(Spot::Inst(1))),
    ),
    (
        "a read before a slot",
        0,
        "R[0] read G[5] N[9,0]\nN[0] genu 0 N[7,0]\n",
        Some(CheckFault::BadTarget(Spot::Read(0))),
    ),
];

pub const NUMBERS: &[Row] = &[
    (
        "a store outside the mask",
        0,
        "N[0] scall 0\nN[1] sb 0 0\n",
        Some(CheckFault::BadNumber(Spot::Inst(1))),
    ),
    (
        "a load with a number of the mask",
        2,
        "N[0] lb 1 0\nN[1] scall 0\n",
        Some(CheckFault::BadNumber(Spot::Inst(0))),
    ),
    (
        "a second load of a number",
        0,
        "N[0] lb 3 0\nN[1] lb 4 0\nN[2] lb 4 0\nN[3] lb 3 0\nN[4] scall 0\n",
        Some(CheckFault::BadNumber(Spot::Inst(2))),
    ),
    (
        "a second write of a register",
        0,
        "W[0] write G[7]\nW[1] write G[8]\nW[2] write G[7]\nN[0] scall 0\n",
        Some(CheckFault::BadNumber(Spot::Write(2))),
    ),
    (
        "a slot before a write",
        0,
        "W[0] write G[7]\nW[1] write G[7]\nN[0] sb 0 0\nN[1] scall 0\n",
        Some(CheckFault::BadNumber(Spot::Inst(0))),
    ),
];

pub const CYCLES: &[Row] = &[
    (
        "two that feed each other",
        0,
        "N[0] addi 0 N[1,0]\nN[1] addi 0 N[0,0]\nN[2] scall 0\n",
        Some(CheckFault::Cycle),
    ),
    (
        "a store and a later load",
        1,
        "N[0] lb 1 0 N[1,0]\nN[1] mov N[2,0] N[2,1]\nN[2] sb 0 0\nN[3] scall 0\nN[4] genu 0 N[0,0]\n",
        Some(CheckFault::Cycle),
    ),
    (
        "a load and a later store",
        2,
        "N[0] lb 0 0 N[1,0]\nN[1] mov N[2,0] N[2,1]\nN[2] sb 1 0\nN[3] scall 0\nN[4] genu 0 N[0,0]\n",
        None,
    ),
];

pub const TOKENS: &[Row] = &[
    (
        "two at an operand",
        0,
        "W[0] write G[3]\nN[0] genu 0 N[2,0]\nN[1] genu 0 N[2,0]\nN[2] mov W[0]\nN[3] scall 0\n",
        Some(CheckFault::TwoTokens(Spot::Left(2))),
    ),
    (
        "two at a write, none at one",
        0,
        "W[0] write G[3]\nW[1] write G[4]\nN[0] genu 0 W[1]\nN[1] genu 0 W[1]\nN[2] scall 0\n",
        Some(CheckFault::TwoTokens(Spot::Write(1))),
    ),
    (
        "two stores of a number",
        8,
        "N[0] genu 0 N[1,0]\nN[1] mov N[2,0] N[2,1]\nN[2] sd 3 0\nN[3] mov N[4,0] N[4,1]\n\
         N[4] sd 3 0\nN[5] genu 0 N[3,0]\nN[6] scall 0\n",
        Some(CheckFault::TwoTokens(Spot::Store(3))),
    ),
    (
        "two writes without a token",
        0,
        "W[0] write G[3]\nW[1] write G[4]\nN[0] scall 0\n",
        Some(CheckFault::NoToken(Spot::Write(0))),
    ),
    (
        "a store that may not fire",
        1,
        "R[0] read G[5] N[0,0]\nN[0] extub N[3,p]\nN[1] genu 0 N[3,0]\nN[2] genu 0 N[3,1]\n\
         N[3] sd_t 0 0\nN[4] scall 0\n",
        Some(CheckFault::NoToken(Spot::Store(0))),
    ),
    (
        "one spot named twice",
        1,
        "R[0] read G[5] N[0,0]\nN[0] extub N[3,p] N[3,p]\nN[1] genu 0 N[3,0]\n\
         N[2] genu 0 N[3,1]\nN[3] sd_t 0 0\nN[4] scall 0\n",
        Some(CheckFault::TwoTokens(Spot::Pred(3))),
    ),
    (
        "a null token matches no sense",
        0,
        "W[0] write G[3]\nN[0] null N[1,p] N[2,p]\nN[1] mov_t W[0]\nN[2] mov_f W[0]\n\
         N[3] genu 0 N[4,0]\nN[4] mov N[1,0] N[2,0]\nN[5] scall 0\n",
        Some(CheckFault::NoToken(Spot::Write(0))),
    ),
    (
        "a null token completes a write",
        0,
        "W[0] write G[3]\nN[0] null W[0]\nN[1] scall 0\n",
        None,
    ),
    (
        "a read that chooses through a mov",
        0,
        "R[0] read G[5] N[0,0]\nW[0] write G[3]\nN[0] mov N[1,p] N[2,p]\n\
         N[1] mov_t N[3,p] N[4,p]\nN[2] mov_f N[3,p] N[4,p]\nN[3] mov_t W[0]\nN[4] mov_f W[0]\n\
         N[5] genu 0 N[7,0]\nN[6] genu 0 N[8,0]\nN[7] mov N[1,0] N[2,0]\nN[8] mov N[3,0] N[4,0]\n\
         N[9] scall 0\n",
        None,
    ),
];

pub const EXITS: &[Row] = &[
    ("no branch", 0, "", Some(CheckFault::NoExit)),
    (
        "two branches",
        0,
        "N[0] scall 0\nN[1] scall 0\n",
        Some(CheckFault::TwoExits),
    ),
    (
        "a branch on each side",
        0,
        "R[0] read G[5] N[0,0]\nN[0] extub N[1,p] N[2,p]\nN[1] scall_t 0\nN[2] scall_f 0\n",
        None,
    ),
    (
        "a branch on one side",
        0,
        "R[0] read G[5] N[0,0]\nN[0] extub N[1,p] N[2,p]\nN[1] scall_t 0\nN[2] scall_t 0\n",
        Some(CheckFault::NoExit),
    ),
];

/// A second block behind a first one: `scall` alone, and no instruction.
pub const LEAVES: &str = "block 1 mask 00000000\nN[0] scall 0\n";

pub const STAYS: &str = "N[0] scall 0\nblock 1 mask 00000000\n";
