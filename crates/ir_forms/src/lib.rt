//! The three forms of a program between C and blocks, as plain data: flat, hyper and flow.
//!
//! A flat program ([`FlatProgram`]) has functions, variables and byte memory; a hyper program
//! ([`HyperProgram`]) has blocks over registers, each a loopless tree; a flow block ([`FlowBlock`])
//! has nodes that name where their operands come from. What each means stands in specs/. A pass that
//! makes a flow block or a machine block too large says so by a [`FlowFault`].
#![tactic(auto)]

mod fault;
mod flat;
mod flow;
mod hyper;
mod laws;
mod limits;

pub use fault::{FlowFault, Part};
pub use flat::{Arg, FlatFunc, FlatProgram, FlatStmt};
pub use flow::{FlowBlock, FlowNode, FlowSource, FlowWrite, Guard};
pub use hyper::{Exit, HyperBlock, HyperItem, HyperProgram, Source, Tail};
pub use laws::{
    blocks_keep_words, checks_change_nothing, clean_runs_are_runs, nothing_ends_without_a_turn,
    statements_run_in_order,
};
pub use limits::{
    FIRST_SCRATCH, FIRST_TEMPORARY, LABELS, MOST_STATEMENTS, STACK_BYTES, VARIABLES,
    constants_are_the_definitions,
};
