//! The cycle bound of four programs on one grid, over definitions alone: the prime program comes first at each
//! station, so that a cycle commits its next block, traps, or lowers what is left for it; and a run is within what
//! the four have spent.
//!
//! specs/Costs.antt says what four programs may cost. specs/inside/FourRule.antt has the rule of the machine, and
//! specs/inside/LeftOfFirst.antt what is left for the program that comes first.
#![tactic(auto)]

mod law;

pub use law::{cycles_keep_the_rules, four_within_cost, fours_begin_right, prime_programs_get_on};
