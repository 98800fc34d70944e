//! What the tests of command lines share.
use std::process::Abort;
use tg_reports::{Call, Request, read_words};

/// The words ask for this call.
pub(crate) fn calls_for(rt: &impl Abort, words: &[&str], call: Call<'_>) {
    asks_for(rt, words, Request::Report(call));
}

/// The words ask for this.
pub(crate) fn asks_for(rt: &impl Abort, words: &[&str], request: Request<'_>) {
    assert!(rt; read_words(words) == Some(request));
}

/// The words are no call.
pub(crate) fn no_call(rt: &impl Abort, words: &[&str]) {
    assert!(rt; read_words(words).is_none());
}
