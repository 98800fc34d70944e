//! The tests of `tg_store` where seats meet, or commit side by side. They stand apart from it so that it is proved
//! once, and from its other tests so that all are proved at once.
#![tactic(auto)]

#[cfg(test)]
mod meeting_tests;
