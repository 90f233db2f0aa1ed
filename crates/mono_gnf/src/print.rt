//! The printer of problems.
//!
//! Each kind of line has a function that appends one such line. The order of lines is that of the printed form: the
//! header, graphs, edges by their numbers, predicates, clauses.

ghost use Rattle.std.specs.Prelude.{◌≡◌, ◌<◌, ◌≤◌, ◌++◌, IfOk, IfSome, OnOk, OnErr, codes, length, map, flat_map};
ghost use Rattle.std.specs.Fmt.{signed_decimal};
ghost use Rattle.std.specs.Io.{StartsWith};
ghost use Rattle.mono_text.specs.Text.{spaced};
ghost use Rattle.mono_graph.specs.Digraph.{IsGraph, place_of};
ghost use Rattle.mono_problem.specs.declared.atom.Predicate.TheVariants as kind;
ghost use Rattle.mono_problem.specs.Instance.{edges_total};
ghost use Rattle.mono_problem.specs.Read.{atom_numbered};
ghost use Rattle.mono_problem.specs.WellFormed.{IsInstance};
ghost use Rattle.mono_gnf.specs.Stands.{Stands};
ghost use Rattle.mono_gnf.specs.Printed.{printed, header_line, graph_line, edge_line, edge_numbered, edges_up_to, most_word, most_number, least_word, least_number, predicate_line, atom_line, clause_line};

use mono_base::Lit;
use mono_base::limits::{MAX_BOUND, MAX_EDGES};
use mono_graph::{Edge, Graph};
use mono_problem::{Predicate, Problem};
use mono_text::{push_line, push_signed};
use std::alloc::{AllocError, Global};

/// The greatest bound that a line writes.
const BOUND: i64 = MAX_BOUND as i64;

fn push_header(out: &mut Vec<u8>, problem: &Problem) -> Result<(), AllocError>
    ensures instance { IsInstance problem.now }
    ensures line { OnOk result (out.new.items ≡ out.old.items ++ spaced (header_line problem.now)) }
{
    let vars = u64::from(problem.vars());
    let clauses = u64::from(problem.clause_count());
    push_line(out, b"p gnf", &[vars, clauses])
}

fn push_graph(out: &mut Vec<u8>, id: u32, graph: &Graph) -> Result<(), AllocError>
    ensures { OnOk result (out.new.items ≡ out.old.items ++ spaced (graph_line (id, graph.now))) }
{
    let nodes = u64::from(graph.nodes());
    let edges = u64::from(graph.edge_count());
    push_line(out, b"digraph int", &[nodes, edges, u64::from(id)])
}

fn push_graphs(out: &mut Vec<u8>, problem: &Problem) -> Result<(), AllocError>
    ensures { OnOk result (out.new.items ≡ out.old.items ++ flat_map spaced (map graph_line problem.now.graphs)) }
{
    for place in 0..problem.graph_count() {
        push_graph(out, problem.graph_id(place), problem.graph(place))?;
    }
    Ok(())
}

fn push_edge(out: &mut Vec<u8>, id: u32, edge: Edge) -> Result<(), AllocError>
    ensures { OnOk result (out.new.items ≡ out.old.items ++ spaced (edge_line (id, edge))) }
{
    let from = u64::from(edge.from);
    let to = u64::from(edge.to);
    let var = u64::from(edge.var);
    push_line(out, b"edge", &[u64::from(id), from, to, var, edge.weight])
}

/// The place of the edge of a number, which is looked for first at the place `near`.
fn place_near(graph: &Graph, near: u32, number: u32) -> Option<u32>
    requires { IsGraph graph.now }
    ensures place { result ≡ place_of graph.now number }
    ensures known { IfSome result (λ k. k < length graph.now.edges) }
    ensures small { IfSome result (λ k. k < MAX_EDGES) }
{
    if near < graph.edge_count() && graph.edge(near).number == number {
        return Some(near);
    }
    graph.place(number)
}

/// The line of the edge of a number. `next` has for each graph the place behind its last edge that was written.
fn push_edge_numbered(
    out: &mut Vec<u8>,
    problem: &Problem,
    number: u32,
    next: &mut [u32],
) -> Result<(), AllocError>
    requires instance { IsInstance problem.now }
    requires low { 0 < number }
    requires high { number ≤ edges_total problem.now }
    requires graphs { length next.old ≡ length problem.now.graphs }
    ensures line { OnOk result (out.new.items ≡ out.old.items ++ spaced (edge_line (edge_numbered problem.now number))) }
    ensures graphs { length next.new ≡ length next.old }
{
    let home = problem.edge_home(number);
    let graph = problem.graph(home);
    match place_near(graph, next[home as usize], number) {
        Some(place) => {
            next[home as usize] = place + 1;
            push_edge(out, problem.graph_id(home), graph.edge(place))
        }
        None => unreachable!(),
    }
}

/// The edges in order of their numbers. Those of one graph stand in that order there, so one place is kept for each graph.
fn push_edges(alloc: Global, out: &mut Vec<u8>, problem: &Problem) -> Result<(), AllocError>
    requires { IsInstance problem.now }
    ensures { OnOk result (out.new.items ≡ out.old.items ++ flat_map spaced (map edge_line (edges_up_to problem.now (edges_total problem.now)))) }
{
    let mut next = Vec::from_elem(alloc, 0u32, problem.graph_count() as usize)?;
    for done in 0..problem.edge_count() {
        push_edge_numbered(out, problem, done + 1, next.as_mut_slice())?;
    }
    Ok(())
}

/// Of two words, the one of a bound from above.
fn word_of_most<'a>(leq: &'a [u8], lt: &'a [u8], most: i64) -> &'a [u8]
    ensures { result.now ≡ most_word leq.now lt.now most }
{
    if most < 0 { lt } else { leq }
}

fn number_of_most(most: i64) -> u64
    ensures { result ≡ most_number most }
{
    if most < 0 { 0 } else { most as u64 }
}

/// Of two words, the one of a bound from below.
fn word_of_least<'a>(geq: &'a [u8], gt: &'a [u8], least: i64) -> &'a [u8]
    ensures { result.now ≡ least_word geq.now gt.now least }
{
    if least > BOUND { gt } else { geq }
}

fn number_of_least(least: i64) -> u64
    ensures { result ≡ least_number least }
{
    if least > BOUND {
        least as u64 - 1
    } else if least < 0 {
        0
    } else {
        least as u64
    }
}

/// The line of a flow of at least so much.
fn push_flow(
    out: &mut Vec<u8>,
    id: u64,
    source: u64,
    sink: u64,
    var: u64,
    least: i64,
) -> Result<(), AllocError>
    ensures { OnOk result (out.new.items ≡ out.old.items ++ spaced (predicate_line id var (kind.Flow source sink least))) }
{
    let word = word_of_least(b"maximum_flow_geq", b"maximum_flow_gt", least);
    let bound = number_of_least(least);
    push_line(out, word, &[id, source, sink, var, bound])
}

fn push_predicate(
    out: &mut Vec<u8>,
    id: u32,
    var: u32,
    predicate: Predicate,
) -> Result<(), AllocError>
    ensures { OnOk result (out.new.items ≡ out.old.items ++ spaced (predicate_line id var predicate)) }
{
    let id = u64::from(id);
    let var = u64::from(var);
    match predicate {
        Predicate::Reach { from, to } => {
            push_line(out, b"reach", &[id, u64::from(from), u64::from(to), var])
        }
        Predicate::Steps { from, to, most } => {
            let word = word_of_most(b"distance_leq", b"distance_lt", most);
            let bound = number_of_most(most);
            push_line(out, word, &[id, u64::from(from), u64::from(to), var, bound])
        }
        Predicate::Distance { from, to, most } => {
            let word = word_of_most(b"weighted_distance_leq", b"weighted_distance_lt", most);
            let bound = number_of_most(most);
            push_line(out, word, &[id, u64::from(from), u64::from(to), var, bound])
        }
        Predicate::Flow {
            source,
            sink,
            least,
        } => push_flow(out, id, u64::from(source), u64::from(sink), var, least),
        Predicate::Tree { most } => {
            let word = word_of_most(b"mst_weight_leq", b"mst_weight_lt", most);
            push_line(out, word, &[id, var, number_of_most(most)])
        }
        Predicate::Acyclic => push_line(out, b"acyclic", &[id, var]),
    }
}

/// The line of the predicate of a number.
fn push_atom(out: &mut Vec<u8>, problem: &Problem, number: u32) -> Result<(), AllocError>
    requires instance { IsInstance problem.now }
    requires low { 0 < number }
    requires high { number ≤ length problem.now.atoms }
    ensures { OnOk result (out.new.items ≡ out.old.items ++ spaced (atom_line problem.now (atom_numbered problem.now number))) }
{
    let atom = problem.atom(number);
    push_predicate(out, problem.graph_id(atom.graph), atom.var, atom.predicate)
}

fn push_atoms(out: &mut Vec<u8>, problem: &Problem) -> Result<(), AllocError>
    requires { IsInstance problem.now }
    ensures { OnOk result (out.new.items ≡ out.old.items ++ flat_map spaced (map (atom_line problem.now) problem.now.atoms)) }
{
    for done in 0..problem.atom_count() {
        push_atom(out, problem, done + 1)?;
    }
    Ok(())
}

/// A number and a space.
fn push_literal(out: &mut Vec<u8>, lit: Lit) -> Result<(), AllocError>
    ensures ok { OnOk result (out.new.items ≡ out.old.items ++ signed_decimal lit ++ codes " ") }
    ensures err { OnErr result (StartsWith out.new.items out.old.items) }
{
    push_signed(out, i64::from(lit.number()))?;
    out.push(b' ')?;
    Ok(())
}

/// A number and a space, for each of the literals.
fn push_literals(out: &mut Vec<u8>, lits: &[Lit]) -> Result<(), AllocError>
    ensures ok { OnOk result (out.new.items ≡ out.old.items ++ flat_map (λ l. signed_decimal l ++ codes " ") lits.now) }
    ensures err { OnErr result (StartsWith out.new.items out.old.items) }
{
    for lit in lits {
        push_literal(out, *lit)?;
    }
    Ok(())
}

/// Appends the line of a clause: each literal and a space, a 0 and a line feed. Where memory is wanting, what was there
/// stays, and more may stand behind it.
pub fn push_clause(out: &mut Vec<u8>, lits: &[Lit]) -> Result<(), AllocError>
    ensures ok { OnOk result (out.new.items ≡ out.old.items ++ spaced (clause_line lits.now)) }
    ensures err { OnErr result (StartsWith out.new.items out.old.items) }
{
    push_literals(out, lits)?;
    out.extend_from_slice(b"0\n")?;
    Ok(())
}

fn push_clauses(out: &mut Vec<u8>, problem: &Problem) -> Result<(), AllocError>
    ensures { OnOk result (out.new.items ≡ out.old.items ++ flat_map spaced (map clause_line problem.now.clauses)) }
{
    for done in 0..problem.clause_count() {
        push_clause(out, problem.clause(done + 1))?;
    }
    Ok(())
}

/// The text of a problem, which is read as the same problem.
///
/// The lines are the header with the numbers of variables and of clauses, the graphs in order of declaration, the edges
/// in order of their numbers with their weights, the predicates and the clauses. A predicate has the `leq` or `geq`
/// form, but for a bound of -1, written as `lt` 0, and for a flow of 2^53 + 1, written as `gt` 2^53.
pub fn print_gnf(alloc: Global, problem: &Problem) -> Result<Vec<u8>, AllocError>
    ensures text { IfOk result (λ text. text.items ≡ printed problem.now) }
    ensures stands { IfOk result (λ text. Stands text.items problem.now) }
{
    let mut out = Vec::new(alloc);
    push_header(&mut out, problem)?;
    push_graphs(&mut out, problem)?;
    push_edges(alloc, &mut out, problem)?;
    push_atoms(&mut out, problem)?;
    push_clauses(&mut out, problem)?;
    Ok(out)
}
