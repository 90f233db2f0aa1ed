//! Edges that come into a part of a graph, or leave it, with the literals of a clause.
//!
//! A part is changed at the edges of the clause's variables alone, and changed back in the same way. So it costs what
//! these variables switch, and not the graph.

ghost use Rattle.std.specs.Prelude.{◌≡◌, ◌==◌, ◌<◌, ℕ, IsTrue, All, if◌then◌else◌, length};
ghost use Rattle.mono_base.specs.Literal.{has_lit};
ghost use Rattle.mono_graph.specs.Digraph.{edge_at, present, IsPartOf};
ghost use Rattle.mono_problem.specs.Instance.{graph_at};
ghost use Rattle.mono_problem.specs.Uses.{has_edge_use};
ghost use Rattle.mono_steps.specs.Switching.{place_in, literal_of};

use mono_base::Lit;
use mono_graph::Part;
use mono_problem::{Problem, Use};

/// The place of an edge of the graph, where that is what the variable switches.
fn place_in(used: &Use, graph: u32) -> Option<u32>
    ensures { result ≡ place_in graph used.now }
{
    match used {
        Use::Edge { graph: home, place } => { if *home == graph { Some(*place) } else { None } }
        Use::Atom { .. } => None,
    }
}

/// Puts the edges that a variable switches into a part of their graph, or takes them out.
fn switch_uses(part: &mut Part, graph: u32, uses: &[Use], on: bool)
    requires known { (k : ℕ) → IsTrue (has_edge_use graph k uses.now) → k < length part.old }
    ensures size { length part.new ≡ length part.old }
    ensures places { (k : ℕ) → present part.new k ≡ (if has_edge_use graph k uses.now then on else present part.old k) }
{
    for used in uses {
        if let Some(place) = place_in(used, graph) {
            part.set(place, on);
        }
    }
}

/// Puts the edges whose variable has a literal of this sign in the list into a part of their graph, or takes them out.
pub(crate) fn switch_edges(
    part: &mut Part,
    problem: &Problem,
    graph: u32,
    lits: &[Lit],
    sign: bool,
    on: bool,
)
    requires graph { graph < length problem.now.graphs }
    requires part { IsPartOf part.old (graph_at problem.now graph) }
    ensures part { IsPartOf part.new (graph_at problem.now graph) }
    ensures places { (k : ℕ) → k < length (graph_at problem.now graph).edges
        → present part.new k ≡ (if has_lit lits.now (literal_of sign (edge_at (graph_at problem.now graph) k).var) then on else present part.old k) }
{
    for lit in lits {
        let var = lit.var();
        if lit.is_positive() == sign {
            switch_uses(part, graph, problem.uses(var), on);
        }
    }
}
