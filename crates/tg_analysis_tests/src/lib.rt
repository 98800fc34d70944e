//! The tests of `tg_analysis`, which stand apart from it so that it is proved once.
#![tactic(auto)]

#[cfg(test)]
mod case_tests;
#[cfg(test)]
mod chain_tests;
#[cfg(test)]
mod famine_tests;
#[cfg(test)]
mod index_tests;
#[cfg(test)]
mod island_tests;
#[cfg(test)]
mod listed_chains;
#[cfg(test)]
mod made_graphs;
#[cfg(test)]
mod memory_tests;
#[cfg(test)]
mod question_tests;
#[cfg(test)]
mod reach_tests;
#[cfg(test)]
mod set_tests;
#[cfg(test)]
mod table_tests;
#[cfg(test)]
mod test_answers;
#[cfg(test)]
mod test_graphs;
