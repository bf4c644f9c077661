//! The typing relation of statements, functions and translation units (C17 6.7 to 6.9), and that it is what the
//! typing computes; and what every typed program satisfies, so that whoever takes one need not look at how it was
//! typed. All are public laws: nothing here runs.
//!
//! The relation stands in specs/Statements, specs/Definitions, specs/Constants and specs/Units, first faults in
//! specs/Order, specs/Judgements and specs/FirstFaults, and typed programs that are well formed in
//! specs/inside/WellFormed, with specs/inside/Expressions, specs/inside/KeptStatements and specs/inside/Objects.
#![tactic(auto)]

mod exact;
mod law;

pub use exact::{answers_are_exact, faults_are_exact, statements_are_exact, units_are_exact};
pub use law::typed_programs_are_well_formed;
