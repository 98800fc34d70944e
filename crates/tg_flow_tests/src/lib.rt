//! The tests of `tg_flow`, which stand apart from it so that it is proved once.
#![tactic(auto)]

#[cfg(test)]
mod filling_tests;
#[cfg(test)]
mod sides_tests;
#[cfg(test)]
mod test_networks;
