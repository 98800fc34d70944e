// What is written, where there is memory enough.
use crate::test_helpers::rules;
use std::alloc::Global;
use std::process::Abort;
use std::test::Fail;
use tg_graph::{Right, Rights};
use tg_text::{append_number, append_rule, read_graph, write_graph_behind, write_rule};

// That the four rules with these rights are written as these lines.
fn written(rt: &impl Abort, alloc: Global, rights: Rights, lines: [&[u8]; 4]) -> Result<(), Fail> {
    for (rule, line) in rules(rights)?.iter().zip(lines) {
        let text = write_rule(alloc, rule)?;
        assert!(rt; text.as_slice() == line);
        let mut behind = Vec::from_slice(alloc, line)?;
        append_rule(&mut behind, rule)?;
        assert!(rt; behind.len() == 2 * line.len());
        assert!(rt; behind.ends_with(line));
    }
    Ok(())
}

#[test]
fn rules_with_rights(rt: HostRuntime) -> Result<(), Fail> {
    let rw = Rights::of(Right::W).union(Rights::of(Right::R));
    let lines: [&[u8]; 4] = [
        b"take a b c rw",
        b"grant a b c rw",
        b"create a b rw",
        b"remove a b rw",
    ];
    written(&rt, rt.alloc(), rw, lines)
}

#[test]
fn rules_without_rights(rt: HostRuntime) -> Result<(), Fail> {
    let r = Rights::of(Right::R);
    let lines: [&[u8]; 4] = [
        b"take a b c -",
        b"grant a b c -",
        b"create a b -",
        b"remove a b -",
    ];
    written(&rt, rt.alloc(), r.difference(r), lines)
}

#[test]
fn a_graph_behind_a_text(rt: HostRuntime) -> Result<(), Fail> {
    let graph = read_graph(rt.alloc(), b"vertex b\nvertex a\nedge b a gt\n")?;
    let text = Vec::from_slice(rt.alloc(), b"1 done\ngraph\n")?;
    let both = write_graph_behind(text, &graph)?;
    let wanted: &[u8] = b"1 done\ngraph\nvertex a\nvertex b\nedge b a tg\n";
    assert!(rt; both.as_slice() == wanted);
    Ok(())
}

#[test]
fn numbers(rt: HostRuntime) -> Result<(), Fail> {
    let mut text = Vec::new(rt.alloc());
    for number in [0, 7, 10, 99, 100, 1005, 4096] {
        append_number(&mut text, number)?;
        text.push(b' ')?;
    }
    append_number(&mut text, usize::MAX)?;
    let wanted: &[u8] = b"0 7 10 99 100 1005 4096 18446744073709551615";
    assert!(rt; text.as_slice() == wanted);
    Ok(())
}
