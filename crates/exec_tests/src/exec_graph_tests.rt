ghost use Rattle.proc_api.specs.Clauses.{IsFresh};

use crate::driven::halves;
use crate::pipeline_exec_tests::{add, is_added, loaded};
use crate::scripted::{Role, make_box};
use exec_graph::{AddCause, BuildRefusal, GraphBuilder};
use proc_api::Processor;
use query_model::processor_spec::Kind;
use std::test::Fail;

// Adds an edge, of which a text has the node and the output that it comes from, and the node and
// the input that it goes to: why it is refused.
fn connect(builder: &mut GraphBuilder, edge: &str) -> Result<Option<BuildRefusal>, Fail> {
    let (from, to) = halves(edge, '-');
    let (from, out) = halves(from, ' ');
    let (to, input) = halves(to, ' ');
    let (from, to) = (from.parse().unwrap_or(999), to.parse().unwrap_or(999));
    if !is_added(builder, from) || !is_added(builder, to) {
        return Err("a node is missing".into());
    }
    let (out, input) = (out.parse().unwrap_or(99), input.parse().unwrap_or(99));
    Ok(builder.connect(from, out, to, input).err())
}

// Adds the edges, between which a `;` stands, and shows why each is refused.
fn connect_each(builder: &mut GraphBuilder, edges: &str, text: &mut String) -> Result<(), Fail> {
    for edge in edges.split(';') {
        match connect(builder, edge)? {
            Some(refusal) => write!(text, "{refusal:?} ")?,
            None => text.push_str("- ")?,
        }
    }
    Ok(())
}

// Shows why a graph is not built, and how many boxes come back.
fn show_gap(builder: GraphBuilder, text: &mut String) -> Result<(), Fail> {
    match builder.finish() {
        Ok(_) => Err("a gap was passed over".into()),
        Err(not_built) => Ok(write!(text, "{:?} {}", not_built.cause, not_built.boxes.len())?),
    }
}

// Why a node more is refused, and the kind of the box that comes back.
fn refused(
    builder: &mut GraphBuilder,
    b: Box<dyn Processor + Send>,
) -> Result<(AddCause, Kind), Fail>
    requires { IsFresh (seen b) }
{
    match builder.add(b, 7) {
        Ok(_) => Err("a node too many was added".into()),
        Err(not_added) => Ok((not_added.cause, not_added.processor.kind())),
    }
}

#[test]
fn edges_go_up_between_free_ports(rt: HostRuntime) -> Result<(), Fail> {
    let mut builder = GraphBuilder::new(rt.alloc());
    for rank in [1, 2, 2, 3] {
        let b = Box::new(rt.alloc(), make_box(rt, Kind::Csv, Role::Give, 0)?)?;
        add(rt.alloc(), &mut builder, b, rank)?;
    }
    let mut text = String::new(rt.alloc());
    let edges = "1 0-2 0;3 0-1 0;1 16-1 32;0 0-1 32;0 16-1 0;\
         0 0-1 0;0 1-1 0;0 0-2 0;0 1-2 0;1 15-3 31";
    connect_each(&mut builder, edges, &mut text)?;
    let expected = "RankOrder RankOrder RankOrder TooManyPorts TooManyPorts \
         - PortTaken PortTaken - - ";
    assert_eq!(rt; text.as_str(), expected);
    assert_eq!(rt; builder.wires.len(), 3);
    Ok(())
}

#[test]
fn gaps_are_named_and_boxes_come_back(rt: HostRuntime) -> Result<(), Fail> {
    for (edge, expected) in [
        ("0 0-1 1", "- PortGap(1) 2"),
        ("0 1-1 0", "- PortGap(0) 2"),
        ("0 1-1 1", "- PortGap(0) 2"),
    ] {
        let mut builder = GraphBuilder::new(rt.alloc());
        for rank in [1, 2] {
            let b = Box::new(rt.alloc(), make_box(rt, Kind::Csv, Role::Give, 0)?)?;
            add(rt.alloc(), &mut builder, b, rank)?;
        }
        let mut text = String::new(rt.alloc());
        connect_each(&mut builder, edge, &mut text)?;
        show_gap(builder, &mut text)?;
        assert_eq!(rt; text.as_str(), expected);
    }
    Ok(())
}

#[test]
fn a_node_too_many_is_handed_back(rt: HostRuntime) -> Result<(), Fail> {
    let mut builder = GraphBuilder::new(rt.alloc());
    for _node in 0..256 {
        let b = Box::new(rt.alloc(), make_box(rt, Kind::Csv, Role::Give, 0)?)?;
        add(rt.alloc(), &mut builder, b, 7)?;
    }
    let b = Box::new(rt.alloc(), make_box(rt, Kind::Csv, Role::Give, 0)?)?;
    let (cause, kind) = refused(&mut builder, loaded(rt.alloc(), b)?)?;
    assert!(rt; cause == AddCause::TooManyNodes && kind == Kind::Csv);
    assert_eq!(rt; builder.boxes.len(), 256);
    Ok(())
}
