// What takes no memory. Each test passes when every request for memory from some one on is refused,
// which `make refusals` tries: it ends with an error where it can't be set up, and else everything
// is answered.
use crate::test_helpers::rules;
use std::test::Fail;
use tg_graph::{Reply, Right, Rights};
use tg_text::{
    LONGEST_NUMBER, LONGEST_REPLY, LONGEST_RULE, TextKind, append_number, append_reply,
    append_rule, cut_line, cut_word, read_rule,
};

#[test]
fn lines_and_words(rt: HostRuntime) {
    assert!(rt; cut_line(b"take a\nb") == (b"take a".as_slice(), b"b".as_slice()));
    assert!(rt; cut_word(b" take a") == Some((b"take".as_slice(), b" a".as_slice())));
    assert!(rt; cut_word(b" ").is_none());
}

#[test]
fn rules_of_lines(rt: HostRuntime) -> Result<(), Fail> {
    let [take, _, create, _] = rules(Rights::of(Right::R))?;
    assert!(rt; read_rule(b"take a b c r\r") == Ok(take));
    assert!(rt; read_rule(b"create a b r") == Ok(create));
    assert!(rt; read_rule(b"# x") == Err(TextKind::BadWord));
    assert!(rt; read_rule(b"take a b c") == Err(TextKind::WordCount));
    assert!(rt; read_rule(b"create a 9 -") == Err(TextKind::BadName));
    assert!(rt; read_rule(b"remove a b tt") == Err(TextKind::BadRights));
    Ok(())
}

// What is appended within the room that a text has.
#[test]
fn room_for_what_is_written(rt: HostRuntime) -> Result<(), Fail> {
    let [take, ..] = rules(Rights::of(Right::R))?;
    let room = LONGEST_RULE + LONGEST_REPLY + LONGEST_NUMBER;
    let mut text = Vec::with_capacity(rt.alloc(), room)?;
    assert!(rt; append_rule(&mut text, &take).is_ok());
    assert!(rt; append_reply(&mut text, &Reply::Yes).is_ok());
    assert!(rt; append_number(&mut text, 120).is_ok());
    assert!(rt; text.as_slice() == b"take a b c ryes120".as_slice());
    Ok(())
}
