//! Drawings of small blocks: read as XML, and element by element.
#![tactic(auto)]

#[cfg(test)]
mod draw_tests;
#[cfg(test)]
mod elements;
