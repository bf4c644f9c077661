//! Hyper blocks with their flow blocks as text, blocks with too much of each part, and small flow blocks with what
//! completing adds to them, which guards they keep, which nodes become copies, constants or other tests, which copies
//! are looked through, which nodes add to what others give and which are swept: all as tests.
#![tactic(auto)]

#[cfg(test)]
mod complete_tests;
#[cfg(test)]
mod convert_tests;
#[cfg(test)]
mod fold_tests;
#[cfg(test)]
mod making;
#[cfg(test)]
mod quotient_tests;
#[cfg(test)]
mod share_tests;
#[cfg(test)]
mod shown;
#[cfg(test)]
mod stride_tests;
#[cfg(test)]
mod sum_tests;
#[cfg(test)]
mod sweep_tests;
#[cfg(test)]
mod too_big_tests;
#[cfg(test)]
mod turn_tests;
#[cfg(test)]
mod unguard_tests;
