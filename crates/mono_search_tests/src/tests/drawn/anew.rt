//! What the searches for one predicate find where some literals are true.

ghost use Rattle.std.specs.Prelude.{◌≡◌, IfOk, length};
ghost use Rattle.mono_graph.specs.Digraph.{IsPartOf};
ghost use Rattle.mono_problem.specs.WellFormed.{IsOver};

use mono_base::Lit;
use mono_cycles::{CycleOrOrder, find_cycle};
use mono_flows::{FlowOrCut, find_flow};
use mono_graph::{Graph, Limit, Part};
use mono_paths::{PathOrCut, PathOrLabels, find_light, find_path};
use mono_problem::Predicate;
use mono_trees::{TreeFound, find_tree};
use std::alloc::{AllocError, Global};

/// Whether the literals say that the variable has the value.
pub fn says(lits: &[Lit], var: u32, value: bool) -> bool {
    lits.iter()
        .any(|l| l.var() == var && l.is_positive() == value)
}

/// The edges that are surely present, or those that are possibly present.
fn part_by(alloc: Global, graph: &Graph, lits: &[Lit], possibly: bool) -> Result<Part, AllocError>
    ensures { IfOk result (λ part. IsPartOf part graph.now) }
{
    let mut part = Part::none(alloc, graph.edge_count())?;
    for place in 0..graph.edge_count() {
        let edge = graph.edge(place);
        if says(lits, edge.var, !possibly) != possibly {
            part.put(place);
        }
    }
    Ok(part)
}

/// Whether a search finds that the predicate holds in the part.
fn is_found(
    alloc: Global,
    graph: &Graph,
    part: &Part,
    predicate: Predicate,
) -> Result<bool, AllocError>
    requires part { IsPartOf part.now graph.now }
    requires over { IsOver graph.now predicate }
{
    match predicate {
        Predicate::Reach { from, to } => {
            let found = find_path(alloc, graph, part, from, to)?;
            Ok(matches!(found, PathOrCut::Path(_)))
        }
        Predicate::Steps { from, to, most } => {
            let found = find_light(alloc, graph, part, from, to, Limit::Steps(most))?;
            Ok(matches!(found, PathOrLabels::Path(_)))
        }
        Predicate::Distance { from, to, most } => {
            let found = find_light(alloc, graph, part, from, to, Limit::Weight(most))?;
            Ok(matches!(found, PathOrLabels::Path(_)))
        }
        Predicate::Flow {
            source,
            sink,
            least,
        } => {
            let found = find_flow(alloc, graph, part, source, sink, least)?;
            Ok(matches!(found, FlowOrCut::Flow(_)))
        }
        Predicate::Tree { most } => {
            let found = find_tree(alloc, graph, part, most)?;
            Ok(matches!(found, TreeFound::Tree(_)))
        }
        Predicate::Acyclic => {
            let found = find_cycle(alloc, graph, part)?;
            Ok(matches!(found, CycleOrOrder::Order(_)))
        }
    }
}

/// Whether the predicate holds with the surely present edges, or with the possibly present ones.
pub fn holds(
    alloc: Global,
    graph: &Graph,
    lits: &[Lit],
    possibly: bool,
    predicate: Predicate,
) -> Result<bool, AllocError>
    requires { IsOver graph.now predicate }
{
    let part = part_by(alloc, graph, lits, possibly)?;
    is_found(alloc, graph, &part, predicate)
}
