//! The tests of `tg_journal`, which stand apart from it so that it is proved once.
#![tactic(auto)]

#[cfg(test)]
mod famine_tests;
#[cfg(test)]
mod memory_tests;
#[cfg(test)]
mod tests;
