//! Programs of C, evaluated and run in the flat form that `flat_lower` gives them.
#![tactic(auto)]

#[cfg(test)]
mod acting;
#[cfg(test)]
mod assign_tests;
#[cfg(test)]
mod both;
#[cfg(test)]
mod breach_tests;
#[cfg(test)]
mod compile_tests;
#[cfg(test)]
mod expression_texts;
#[cfg(test)]
mod kind_tests;
#[cfg(test)]
mod kind_texts;
#[cfg(test)]
mod limit_tests;
#[cfg(test)]
mod lower_tests;
#[cfg(test)]
mod machine;
#[cfg(test)]
mod memory;
#[cfg(test)]
mod running;
#[cfg(test)]
mod switch_tests;
#[cfg(test)]
mod switch_texts;
#[cfg(test)]
mod tests;
#[cfg(test)]
mod texts;
