//! The tests of `tg_store`, which stand apart from it so that it is proved once: what its seats do to one another.
//! Seats that meet have theirs in `tg_store_meeting_tests`, refused memory in `tg_store_memory_tests`.
#![tactic(auto)]

#[cfg(test)]
mod row_tests;
