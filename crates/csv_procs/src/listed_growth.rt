ghost use Rattle.std.specs.Prelude.{◌≡◌, ◌≤◌, ◌<◌};
ghost use Rattle.csv_procs.specs.Names.{IfOk, growth_form, length, list_growth, listed_edge, listed_part};
ghost use Rattle.query_model.specs.declared.processor_spec.Spec.TheVariants as spec;

use chunk_data::{Bytes, List, Memory};
use proc_api::{Edge, End, GrowNode, Growth, Who};
use query_model::processor_spec::{PartSpec, Spec};
use std::alloc::Global;

/// By what a list lets its graph grow: a source for each path, joined to the input of its place.
pub(crate) fn listed_growth(
    alloc: Global,
    list: &PartSpec,
    paths: &List<Bytes>,
) -> Result<Growth, Memory>
    requires { length paths.now ≤ 32 }
    ensures { IfOk result (λ g. growth_form g ≡ list_growth list.now paths.now) }
{
    let mut nodes = Vec::new(alloc);
    let mut edges = Vec::new(alloc);
    for i in 0..paths.len() {
        nodes.push(listed_node(list, paths.get(i), i as u32)?)?;
        edges.push(edge_from(i as u32))?;
    }
    Ok(Growth {
        nodes: List::from_vec(nodes),
        edges: List::from_vec(edges),
    })
}

// The source of the path at place k.
fn listed_node(list: &PartSpec, path: &Bytes, k: u32) -> Result<GrowNode, Memory>
    requires { k < 32 }
    ensures spec { IfOk result (λ n. n.spec ≡ spec.Csv (listed_part list.now k path.now)) }
    ensures rank { IfOk result (λ n. n.rank ≡ 0) }
{
    Ok(GrowNode {
        spec: Spec::Csv(PartSpec {
            table: list.table,
            part: k + 1,
            path: path.copy()?,
            types: list.types.copy()?,
            header: list.header,
            rows: list.rows,
        }),
        rank: 0,
    })
}

// From the output of new node k to input k.
fn edge_from(k: u32) -> Edge
    ensures { result ≡ listed_edge k }
{
    Edge {
        from: End {
            who: Who::New(k),
            port: 0,
        },
        to: End {
            who: Who::Me,
            port: k,
        },
    }
}
