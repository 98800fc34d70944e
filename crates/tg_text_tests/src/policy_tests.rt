// The texts of policies, where there is memory enough.
use std::alloc::Global;
use std::process::Abort;
use std::test::Fail;
use tg_graph::{Graph, Name, NameFault, Right, Rights};
use tg_text::{Claim, Operand, PolicyLine, read_graph, read_policy, write_policy};

const GRAPH: &[u8] = b"vertex a\nvertex b\nvertex abcdefghijklmnop\n";

fn vertex(name: &[u8]) -> Result<Operand, NameFault> {
    Ok(Operand::Vertex(Name::parse(name)?))
}

fn group(name: &[u8]) -> Result<Operand, NameFault> {
    Ok(Operand::Group(Name::parse(name)?))
}

// That a line is this one.
fn is_line(rt: &impl Abort, found: &PolicyLine, line: usize, claim: Claim, operands: &[Operand]) {
    assert!(rt; found.line == line);
    assert!(rt; found.claim == claim);
    assert!(rt; found.operands.as_slice() == operands);
}

#[test]
fn a_group_and_its_claims(rt: HostRuntime) -> Result<(), Fail> {
    let graph = read_graph(rt.alloc(), GRAPH)?;
    let text = b"# x\n\ngroup\ta  b a\r\n\tnever wr @a\tb \nmay da a @a\n";
    let lines = read_policy(rt.alloc(), &graph, text)?;
    assert!(rt; lines.len() == 3);
    let name = Name::parse(b"a")?;
    let (a, b, of_a) = (vertex(b"a")?, vertex(b"b")?, group(b"a")?);
    let rw = Rights::of(Right::R).union(Rights::of(Right::W));
    let ad = Rights::of(Right::A).union(Rights::of(Right::D));
    is_line(&rt, &lines[0], 3, Claim::Group(name), &[b, a]);
    is_line(&rt, &lines[1], 4, Claim::Never(rw), &[of_a, b]);
    is_line(&rt, &lines[2], 5, Claim::May(ad), &[a, of_a]);
    Ok(())
}

#[test]
fn only_with_and_without_others(rt: HostRuntime) -> Result<(), Fail> {
    let graph = read_graph(rt.alloc(), GRAPH)?;
    let text = b"only t a\r\nonly g b a b\ngroup x a\nonly e @x a @x";
    let lines = read_policy(rt.alloc(), &graph, text)?;
    assert!(rt; lines.len() == 4);
    let (a, b, x) = (vertex(b"a")?, vertex(b"b")?, group(b"x")?);
    is_line(&rt, &lines[0], 1, Claim::Only(Rights::of(Right::T)), &[a]);
    is_line(
        &rt,
        &lines[1],
        2,
        Claim::Only(Rights::of(Right::G)),
        &[b, a, b],
    );
    is_line(
        &rt,
        &lines[3],
        4,
        Claim::Only(Rights::of(Right::E)),
        &[x, a, x],
    );
    Ok(())
}

// That a text is read and written as this one, and that read and written once more it is the same.
fn written(
    rt: &impl Abort,
    alloc: Global,
    graph: &Graph,
    text: &[u8],
    wanted: &[u8],
) -> Result<(), Fail> {
    let lines = read_policy(alloc, graph, text)?;
    let once = write_policy(alloc, lines.as_slice())?;
    assert!(rt; once.as_slice() == wanted);
    let again = read_policy(alloc, graph, once.as_slice())?;
    assert!(rt; again.len() == lines.len());
    for (place, line) in again.iter().enumerate() {
        assert!(rt; line.line == place + 1);
    }
    let twice = write_policy(alloc, again.as_slice())?;
    assert!(rt; twice.as_slice() == wanted);
    Ok(())
}

#[test]
fn policies_are_written(rt: HostRuntime) -> Result<(), Fail> {
    let graph = read_graph(rt.alloc(), GRAPH)?;
    let text = b"group  x\ta b\r\n# c\n\tnever  wr @x\ta\nmay da a a\nonly g b\n";
    let wanted = b"group x a b\nnever rw @x a\nmay ad a a\nonly g b\n";
    written(&rt, rt.alloc(), &graph, text, wanted)?;
    let text = b"group x a\n\nonly daewrgt @x @x a";
    let wanted = b"group x a\nonly tgrwead @x @x a\n";
    written(&rt, rt.alloc(), &graph, text, wanted)?;
    let text = b"# x\nmay r a b\n# y";
    written(&rt, rt.alloc(), &graph, text, b"may r a b\n")?;
    assert!(rt; write_policy(rt.alloc(), &[])?.is_empty());
    Ok(())
}
