//! The tests of `tg_reports`, which stand apart from it so that it is proved once.
#![tactic(auto)]

#[cfg(test)]
mod famine_tests;
#[cfg(test)]
mod memory_tests;
#[cfg(test)]
mod race_tests;
#[cfg(test)]
mod table_report_tests;
#[cfg(test)]
mod test_words;
