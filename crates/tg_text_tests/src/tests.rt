// What is read, where there is memory enough.
use crate::test_helpers::rules;
use std::test::Fail;
use tg_graph::{Name, Right, Rights};
use tg_text::{TextKind, cut_line, cut_word, read_graph, read_rule, read_rules, read_script};

// A line that is one byte too long.
const LONG: [u8; 257] = [b'#'; 257];

#[test]
fn a_line_and_its_words(rt: HostRuntime) {
    let (line, rest) = cut_line(b" a\tbc\r\n\nd");
    assert!(rt; line == b" a\tbc\r".as_slice());
    assert!(rt; rest == b"\nd".as_slice());
    let words = cut_word(b" a\tbc\r");
    assert!(rt; words.is_some());
    if let Some((word, others)) = words {
        assert!(rt; word == b"a".as_slice());
        assert!(rt; others == b"\tbc\r".as_slice());
    }
    assert!(rt; cut_word(b"\t \r").is_none());
}

// A line whose end is not among the sixteen bytes that are looked at first, and one without an end.
#[test]
fn lines_of_many_bytes(rt: HostRuntime) {
    let (line, rest) = cut_line(b"# a line of more than thirty-two bytes\n\nx");
    assert!(rt; line == b"# a line of more than thirty-two bytes".as_slice());
    assert!(rt; rest == b"\nx".as_slice());
    let (line, rest) = cut_line(b"# a line without an end");
    assert!(rt; line == b"# a line without an end".as_slice());
    assert!(rt; rest.is_empty());
}

// A vertical tab, a form feed and a NUL cut neither words nor lines.
#[test]
fn other_bytes_cut_nothing(rt: HostRuntime) {
    let (line, rest) = cut_line(b"a\x0bb\x0cc\0d\re\n");
    assert!(rt; line == b"a\x0bb\x0cc\0d\re".as_slice());
    assert!(rt; rest.is_empty());
    let words = cut_word(line);
    assert!(rt; words.is_some());
    if let Some((word, others)) = words {
        assert!(rt; word == b"a\x0bb\x0cc\0d".as_slice());
        assert!(rt; others == b"\re".as_slice());
    }
}

#[test]
fn a_graph(rt: HostRuntime) -> Result<(), Fail> {
    let graph = read_graph(
        rt.alloc(),
        b"vertex b\n# x\nvertex a\r\n\nedge b a gt\nedge a a e",
    )?;
    let a = Name::parse(b"a")?;
    let b = Name::parse(b"b")?;
    assert!(rt; graph.len() == 2 && graph.name_at(0) == Some(b));
    let tg = Rights::of(Right::T).union(Rights::of(Right::G));
    assert!(rt; graph.label(b, a) == Some(tg));
    assert!(rt; graph.label(a, a) == Some(Rights::of(Right::E)));
    assert!(rt; !graph.holds(a, Right::E, b));
    Ok(())
}

#[test]
fn each_rule(rt: HostRuntime) -> Result<(), Fail> {
    let rw = Rights::of(Right::R).union(Rights::of(Right::W));
    let [take, grant, create, remove] = rules(rw)?;
    assert!(rt; read_rule(b"take a b c wr\r") == Ok(take));
    assert!(rt; read_rule(b" grant\ta b  c rw") == Ok(grant));
    assert!(rt; read_rule(b"create a b rw") == Ok(create));
    assert!(rt; read_rule(b"remove a b wr ") == Ok(remove));
    let ad = Rights::of(Right::A).union(Rights::of(Right::D));
    let [take, ..] = rules(ad)?;
    assert!(rt; read_rule(b"take a b c da") == Ok(take));
    Ok(())
}

#[test]
fn faults_of_one_rule(rt: HostRuntime) {
    let rows: [(&[u8], TextKind); 8] = [
        (&LONG, TextKind::LineTooLong),
        (b"# x", TextKind::BadWord),
        (b"", TextKind::BadWord),
        (b"share r a b", TextKind::BadWord),
        (b"take a b c r r", TextKind::WordCount),
        (b"remove 9 b", TextKind::WordCount),
        (b"create a 9 -", TextKind::BadName),
        (b"grant a b c x", TextKind::BadRights),
    ];
    for (line, kind) in rows {
        assert!(rt; read_rule(line) == Err(kind));
    }
}

#[test]
fn rules_with_their_lines(rt: HostRuntime) -> Result<(), Fail> {
    let [take, grant, create, remove] = rules(Rights::of(Right::R))?;
    for text in [
        b"# x\n\ntake a b c r\ngrant a b c r\n\r\ncreate a b r\nremove a b r".as_slice(),
        b"# x\n\ntake\ta b c r\n grant a b c r\n\r\ncreate a  b r\nremove a b r\r\n".as_slice(),
        b"# x\n\ntake a b c r \ngrant a b c\tr\n\r\ncreate a b r\r\nremove a b r\n".as_slice(),
    ] {
        let read = read_rules(rt.alloc(), text)?;
        assert!(rt; read.len() == 4);
        let wanted = [(3, take), (4, grant), (6, create), (7, remove)];
        for (found, (line, rule)) in read.iter().zip(wanted) {
            assert!(rt; found.line == line && found.rule == rule);
        }
    }
    Ok(())
}

#[test]
fn events_of_two_seats(rt: HostRuntime) -> Result<(), Fail> {
    let text = b"seats 64\ncells 4096\n1 begin\n64 begin\n";
    let script = read_script(rt.alloc(), text)?;
    assert!(rt; script.seats == 64 && script.cells == 4096);
    assert!(rt; script.lines.len() == 2);
    for (event, (line, seat)) in script.lines.iter().zip([(3, 1), (4, 64)]) {
        assert!(rt; event.line == line && event.seat == seat);
    }
    Ok(())
}
