// Each test passes whichever one request for memory is refused, which `make refusals` tries. Where a
// call was refused memory, its second try has it.
use std::alloc::{AllocError, Global};
use std::process::Abort;
use std::test::Fail;
use tg_graph::{Graph, Reply};
use tg_text::{
    TextFault, TextKind, append_number, append_reply, names_in_order, read_graph, read_policy,
    read_rule, read_rules, read_script, write_graph, write_policy, write_reply, write_rule,
};

const GRAPH: &[u8] = b"vertex a\nvertex b\nedge a b tg\n";

const LATER_GRAPH: &[u8] = b"version 2\nvertex a\nvertex b\nedge a b ad\n";

const RULE: &[u8] = b"create a c r";

const POLICY: &[u8] = b"group x a b\nnever r @x a\n";

const SCRIPT: &[u8] = b"seats 1\ncells 1\n1 begin\n1 commit\n";

fn graph(rt: &impl Abort, alloc: Global, text: &[u8]) -> Result<Graph, TextFault> {
    match read_graph(alloc, text) {
        Ok(graph) => Ok(graph),
        Err(fault) => {
            assert!(rt; fault == TextFault::Memory);
            read_graph(alloc, text)
        }
    }
}

fn written(alloc: Global, graph: &Graph) -> Result<Vec<u8>, AllocError> {
    match write_graph(alloc, graph) {
        Ok(text) => Ok(text),
        Err(AllocError) => write_graph(alloc, graph),
    }
}

#[test]
fn refused_graph(rt: HostRuntime) -> Result<(), Fail> {
    let later = graph(&rt, rt.alloc(), LATER_GRAPH)?;
    let text = written(rt.alloc(), &later)?;
    assert!(rt; text.as_slice() == LATER_GRAPH);
    let graph = graph(&rt, rt.alloc(), GRAPH)?;
    let text = written(rt.alloc(), &graph)?;
    assert!(rt; text.as_slice() == GRAPH);
    let names = match names_in_order(rt.alloc(), &graph) {
        Ok(names) => names,
        Err(AllocError) => names_in_order(rt.alloc(), &graph)?,
    };
    assert!(rt; names.len() == 2);
    Ok(())
}

// Memory may run out before the reader comes to the fault, and the fault is the same then.
#[test]
fn refused_before_a_fault(rt: HostRuntime) {
    let text = b"vertex a\nvertex b\nedge a b r\nedge a b w\n";
    let fault = match read_graph(rt.alloc(), text) {
        Err(TextFault::Memory) => read_graph(rt.alloc(), text).err(),
        read => read.err(),
    };
    let (line, kind) = (4, TextKind::DuplicateEdge);
    assert!(rt; fault == Some(TextFault::At { line, kind }));
}

#[test]
fn refused_rules(rt: HostRuntime) -> Result<(), Fail> {
    let rules = match read_rules(rt.alloc(), RULE) {
        Ok(rules) => rules,
        Err(fault) => {
            assert!(rt; fault == TextFault::Memory);
            read_rules(rt.alloc(), RULE)?
        }
    };
    assert!(rt; rules.len() == 1 && read_rule(RULE) == Ok(rules[0].rule));
    let text = match write_rule(rt.alloc(), &rules[0].rule) {
        Ok(text) => text,
        Err(AllocError) => write_rule(rt.alloc(), &rules[0].rule)?,
    };
    assert!(rt; text.as_slice() == RULE);
    Ok(())
}

#[test]
fn refused_script(rt: HostRuntime) -> Result<(), Fail> {
    let script = match read_script(rt.alloc(), SCRIPT) {
        Ok(script) => script,
        Err(fault) => {
            assert!(rt; fault == TextFault::Memory);
            read_script(rt.alloc(), SCRIPT)?
        }
    };
    assert!(rt; script.seats == 1 && script.cells == 1 && script.lines.len() == 2);
    Ok(())
}

#[test]
fn refused_policy(rt: HostRuntime) -> Result<(), Fail> {
    let graph = graph(&rt, rt.alloc(), GRAPH)?;
    let lines = match read_policy(rt.alloc(), &graph, POLICY) {
        Ok(lines) => lines,
        Err(fault) => {
            assert!(rt; fault == TextFault::Memory);
            read_policy(rt.alloc(), &graph, POLICY)?
        }
    };
    assert!(rt; lines.len() == 2);
    let text = match write_policy(rt.alloc(), &lines) {
        Ok(text) => text,
        Err(AllocError) => write_policy(rt.alloc(), &lines)?,
    };
    assert!(rt; text.as_slice() == POLICY);
    Ok(())
}

// What was refused memory has appended nothing.
#[test]
fn refused_text(rt: HostRuntime) -> Result<(), Fail> {
    let mut text = Vec::new(rt.alloc());
    if append_number(&mut text, 120).is_err() {
        assert!(rt; text.as_slice() == b"".as_slice());
        append_number(&mut text, 120)?;
    }
    if append_reply(&mut text, &Reply::Done).is_err() {
        assert!(rt; text.as_slice() == b"120".as_slice());
        append_reply(&mut text, &Reply::Done)?;
    }
    assert!(rt; text.as_slice() == b"120done".as_slice());
    Ok(())
}

#[test]
fn refused_reply(rt: HostRuntime) -> Result<(), Fail> {
    let text = match write_reply(rt.alloc(), &Reply::Yes) {
        Ok(text) => text,
        Err(AllocError) => write_reply(rt.alloc(), &Reply::Yes)?,
    };
    assert!(rt; text.as_slice() == b"yes".as_slice());
    Ok(())
}
