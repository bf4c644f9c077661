//! The rows of the lexer, the directives, the parser and the typing, as tests.
#![tactic(auto)]

#[cfg(test)]
mod depth_tests;
#[cfg(test)]
mod lex_tests;
#[cfg(test)]
mod parse_rows;
#[cfg(test)]
mod parse_tests;
#[cfg(test)]
mod pre_rows;
#[cfg(test)]
mod pre_tests;
#[cfg(test)]
mod string_tests;
#[cfg(test)]
mod type_constant_rows;
#[cfg(test)]
mod type_rows;
#[cfg(test)]
mod type_tests;
