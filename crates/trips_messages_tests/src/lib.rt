//! Programs with one fault each, and what is told of it, by the front end and `trips_messages`.
#![tactic(auto)]

#[cfg(test)]
mod message_tests;
#[cfg(test)]
mod rows;
