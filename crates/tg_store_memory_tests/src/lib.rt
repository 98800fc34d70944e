//! The tests of `tg_store` where memory is refused. They stand apart from it so that it is proved once, and from
//! its other tests so that both are proved at once.
#![tactic(auto)]

#[cfg(test)]
mod famine_tests;
#[cfg(test)]
mod memory_tests;
