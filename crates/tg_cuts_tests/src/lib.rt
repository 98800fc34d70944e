//! The tests of least cuts, which stand apart from their crates so that these are proved once.
#![tactic(auto)]

#[cfg(test)]
mod cut_tests;
#[cfg(test)]
mod famine_tests;
#[cfg(test)]
mod memory_tests;
#[cfg(test)]
mod test_answers;
