//! The tests of what `tg_islands` has for the crates above it alone. They stand apart, so that what they test is
//! proved once. Those of islands and links as callers ask for them stand in `tg_analysis_tests`.
#![tactic(auto)]

#[cfg(test)]
mod link_tests;
#[cfg(test)]
mod memory_tests;
