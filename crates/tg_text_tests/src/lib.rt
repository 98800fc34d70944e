//! The tests of `tg_text`, which stand apart from it so that it is proved once.
#![tactic(auto)]

#[cfg(test)]
mod famine_tests;
#[cfg(test)]
mod memory_tests;
#[cfg(test)]
mod policy_tests;
#[cfg(test)]
mod test_helpers;
#[cfg(test)]
mod tests;
#[cfg(test)]
mod writing_tests;
