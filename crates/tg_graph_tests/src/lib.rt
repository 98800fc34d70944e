//! The tests of names, rows and graphs. They stand apart, so that what they test is proved once.
#![tactic(auto)]

#[cfg(test)]
mod builder_memory_tests;
#[cfg(test)]
mod builder_tests;
#[cfg(test)]
mod draft_memory_tests;
#[cfg(test)]
mod draft_tests;
#[cfg(test)]
mod end_tests;
#[cfg(test)]
mod famine_tests;
#[cfg(test)]
mod memory_tests;
#[cfg(test)]
mod row_tests;
#[cfg(test)]
mod test_values;
#[cfg(test)]
mod tests;
