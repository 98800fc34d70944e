//! The tests of `tg_hall`, which stand apart from it so that it is proved once.
#![tactic(auto)]

#[cfg(test)]
mod answer_tests;
#[cfg(test)]
mod famine_tests;
#[cfg(test)]
mod limit_tests;
#[cfg(test)]
mod memory_tests;
#[cfg(test)]
mod test_halls;
