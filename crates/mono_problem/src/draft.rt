//! Problems in the making.
//!
//! A draft is a problem at every moment: each call adds one part and keeps all that is said of a problem (see
//! `IsInstance`). What a caller has to know before a call, as that an identity is new, it asks the draft.

ghost use Rattle.std.specs.Prelude.{ℕ, ◌≡◌, ◌<◌, ◌≤◌, ◌+◌, ◌^◌, length, sum_by, IfOk, OnErr, OnOk, IfSome, None, All, slice_index_or, slice_set, ◌++◌, map};
ghost use Rattle.mono_problem.specs.Instance.{no_graph, graph_at, place_named, nodes_total, edges_total, literals_total, totals_of};
ghost use Rattle.mono_base.specs.Literal.{IsLitWithin};
ghost use Rattle.mono_problem.specs.WellFormed.{AreNamed, IsInstance, IsOver};
ghost use Rattle.mono_problem.specs.Growth.{nothing, raised, with_graph, with_edge, with_atom, with_clause, graph_with, greatest_var as greatest_of};
ghost use Rattle.mono_graph.specs.Digraph.{IsNewEdge};
ghost use Rattle.mono_problem.specs.Uses.{graph_uses, atom_use, edges_used as uses_of_edges, chosen, picked};

use crate::clause_list::ClauseList;
use crate::uses::{Use, UseTable, VarUse};
use crate::{Atom, Predicate, Problem, Totals};
use indexmap::IndexMap;
use mono_base::Lit;
use mono_base::limits::{
    MAX_ATOMS, MAX_CLAUSES, MAX_EDGES, MAX_GRAPHS, MAX_LITERALS, MAX_NODES, MAX_VARS, MAX_WEIGHT,
};
use mono_graph::{Edge, EdgeRefusal, Graph};
use std::alloc::{AllocError, Global};
use std::marker::Model;

/// A problem in the making. Contracts see the problem that was made so far.
///
/// A call that adds a part answers `AllocError` for want of memory, and then leaves the draft as it was.
pub struct Draft {
    var_count: u32,
    graphs: IndexMap<u32, Graph>,
    node_count: u32,
    /// The place of the graph of each edge, by the edge's number less 1.
    homes: Vec<u32>,
    atoms: Vec<Atom>,
    clauses: ClauseList,
}

impl Drop for Draft {
    fn drop(self) {
        let Draft {
            var_count: _,
            graphs: _,
            node_count: _,
            homes: _,
            atoms: _,
            clauses: _,
        } = self;
    }
}

impl Model for Draft {
    ghost use Rattle.mono_problem.specs.Instance.{Instance};

    ghost Value = { Instance };

    ghost use Rattle.mono_problem.specs.Kept.{IsDraft};

    ghost view = { λ d. record { vars = d.var_count; graphs = d.graphs.entries; atoms = d.atoms.items; clauses = d.clauses } };

    ghost invariant = { λ d. IsDraft (record {
      vars = d.var_count;
      graphs = d.graphs.entries;
      atoms = d.atoms.items;
      clauses = d.clauses;
    }) d.node_count d.homes.items };
}

/// The greatest variable of the literals, or `vars` where it is greater.
fn greatest_var(vars: u32, lits: &[Lit]) -> u32
    requires { vars ≤ MAX_VARS }
    ensures value { result ≡ greatest_of vars lits.now }
    ensures low { vars ≤ result }
    ensures high { result ≤ MAX_VARS }
    ensures within { All (IsLitWithin result) lits.now }
{
    let mut most = vars;
    for lit in lits {
        most = most.max(lit.var());
    }
    most
}

/// Adds the edge to the graph at a place.
fn add_to(graphs: &mut IndexMap<u32, Graph>, place: u32, edge: Edge) -> Result<(), AllocError>
    requires place { place < length graphs.old.entries }
    requires new { IsNewEdge (slice_index_or graphs.old.entries place no_graph).1 edge }
    ensures ok { OnOk result (graphs.new.entries ≡ slice_set graphs.old.entries place (graph_with (slice_index_or graphs.old.entries place no_graph) edge)) }
    ensures err { OnErr result (graphs.new.entries ≡ graphs.old.entries) }
{
    match graphs.get_index_mut(place as usize) {
        Some(graph) => match graph.add_edge(edge) {
            Ok(()) => Ok(()),
            Err(EdgeRefusal::Memory) => Err(AllocError),
            Err(EdgeRefusal::NodeOutOfRange) => unreachable!(),
        },
        None => unreachable!(),
    }
}

/// Adds the uses of the edges of the graph at a place.
fn push_edges(all: &mut Vec<VarUse>, graph: &Graph, place: u32) -> Result<(), AllocError>
    ensures { OnOk result (all.new.items ≡ all.old.items ++ graph_uses place graph.now) }
{
    for edge in 0..graph.edge_count() {
        all.push(VarUse {
            var: graph.edge(edge).var,
            at: Use::Edge {
                graph: place,
                place: edge,
            },
        })?;
    }
    Ok(())
}

/// The graph at a place.
fn held_at(graphs: &IndexMap<u32, Graph>, place: usize) -> &Graph
    requires { place < length graphs.now.entries }
    ensures { result.now ≡ (slice_index_or graphs.now.entries place no_graph).1 }
{
    match graphs.get_index(place) {
        Some((_, graph)) => graph,
        None => unreachable!(),
    }
}

/// The identity of the graph at a place.
fn id_at(graphs: &IndexMap<u32, Graph>, place: usize) -> u32
    requires { place < length graphs.now.entries }
    ensures { result ≡ (slice_index_or graphs.now.entries place no_graph).0 }
{
    match graphs.get_index(place) {
        Some((id, _)) => *id,
        None => unreachable!(),
    }
}

/// The uses of all edges, graph after graph.
fn edges_used(alloc: Global, graphs: &IndexMap<u32, Graph>) -> Result<Vec<VarUse>, AllocError>
    requires { length graphs.now.entries ≤ MAX_GRAPHS }
    ensures { IfOk result (λ all. all.items ≡ uses_of_edges graphs.now.entries (length graphs.now.entries)) }
{
    let mut all = Vec::new(alloc);
    for place in 0..graphs.len() {
        push_edges(&mut all, held_at(graphs, place), place as u32)?;
    }
    Ok(all)
}

/// Adds the uses of the predicates.
fn push_atoms(all: &mut Vec<VarUse>, atoms: &[Atom]) -> Result<(), AllocError>
    ensures { OnOk result (all.new.items ≡ all.old.items ++ map atom_use atoms.now) }
{
    for atom in atoms {
        all.push(VarUse {
            var: atom.var,
            at: Use::Atom {
                number: atom.number,
            },
        })?;
    }
    Ok(())
}

// The uses of all variables: those of the edges, then those of the predicates.
//
/// It borrows what a draft holds, so that a draft is dropped at one place only.
fn all_uses(
    alloc: Global,
    graphs: &IndexMap<u32, Graph>,
    atoms: &[Atom],
) -> Result<UseTable, AllocError>
    requires { length graphs.now.entries ≤ MAX_GRAPHS }
    ensures { IfOk result (λ t. (x : ℕ) → chosen x t.0 t.1
        ≡ picked x (uses_of_edges graphs.now.entries (length graphs.now.entries) ++ map atom_use atoms.now)) }
{
    let mut all = edges_used(alloc, graphs)?;
    push_atoms(&mut all, atoms)?;
    let uses = UseTable::new(alloc, all)?;
    Ok(uses)
}

/// How many nodes the graphs have.
fn node_count(graphs: &IndexMap<u32, Graph>) -> u32
    requires { sum_by (λ g. g.1.nodes) graphs.now.entries ≤ MAX_NODES }
    ensures { result ≡ sum_by (λ g. g.1.nodes) graphs.now.entries }
{
    let mut count = 0;
    for place in 0..graphs.len() {
        count += held_at(graphs, place).nodes();
    }
    count
}

/// Copies of the graphs, beside their identities.
fn copied_graphs(
    alloc: Global,
    graphs: &IndexMap<u32, Graph>,
) -> Result<IndexMap<u32, Graph>, AllocError>
    requires { AreNamed graphs.now.entries }
    ensures { IfOk result (λ copies. copies.entries ≡ graphs.now.entries) }
{
    let mut copies = IndexMap::new(alloc);
    for place in 0..graphs.len() {
        copies.insert(id_at(graphs, place), held_at(graphs, place).copy()?)?;
    }
    Ok(copies)
}

impl Draft {
    /// A draft of the problem, to which more may be added.
    pub fn of_problem(problem: &Problem) -> Result<Draft, AllocError>
        ensures { IfOk result (λ draft. draft ≡ problem.now) }
    {
        let alloc = *problem.atoms.allocator();
        let graphs = copied_graphs(alloc, &problem.graphs)?;
        let homes = problem.homes.clone()?;
        let atoms = problem.atoms.clone()?;
        let clauses = problem.clauses.copy()?;
        Ok(Draft {
            var_count: problem.var_count,
            node_count: node_count(&problem.graphs),
            graphs,
            homes,
            atoms,
            clauses,
        })
    }

    /// The empty problem: no variables, graphs, predicates or clauses.
    pub fn new(alloc: Global) -> Draft
        ensures { result ≡ nothing }
    {
        Draft {
            var_count: 0,
            graphs: IndexMap::new(alloc),
            node_count: 0,
            homes: Vec::new(alloc),
            atoms: Vec::new(alloc),
            clauses: ClauseList::new(alloc),
        }
    }

    /// How much there is of each kind so far.
    pub fn totals(&self) -> Totals
        ensures totals { result ≡ totals_of self.now }
        ensures problem { IsInstance self.now }
    {
        Totals {
            vars: self.var_count,
            graphs: self.graphs.len() as u32,
            nodes: self.node_count,
            edges: self.homes.as_slice().len() as u32,
            atoms: self.atoms.as_slice().len() as u32,
            clauses: self.clauses.len() as u32,
            literals: self.clauses.literal_count() as u32,
        }
    }

    /// The place of the graph with an identity, from 0: `None` exactly where no graph has it.
    pub fn graph_of(&self, id: u32) -> Option<u32>
        ensures place { result ≡ place_named self.now.graphs id }
        ensures within { IfSome result (λ k. k < length self.now.graphs) }
    {
        match self.graphs.get_index_of(&id) {
            Some(place) => Some(place as u32),
            None => None,
        }
    }

    /// How many nodes the graph at a place has.
    pub fn nodes_of(&self, graph: u32) -> u32
        requires { graph < length self.now.graphs }
        ensures { result ≡ (graph_at self.now graph).nodes }
    {
        match self.graphs.get_index(graph as usize) {
            Some((_, graph)) => graph.nodes(),
            None => unreachable!(),
        }
    }

    /// Makes the number of variables at least `vars`.
    pub fn raise_vars(&mut self, vars: u32)
        requires { vars ≤ MAX_VARS }
        ensures { self.new ≡ raised self.old vars }
    {
        self.var_count = self.var_count.max(vars);
    }

    /// Declares a graph of so many nodes, with no edges yet, and answers its place.
    pub fn add_graph(&mut self, id: u32, nodes: u32) -> Result<u32, AllocError>
        requires new { place_named self.old.graphs id ≡ None }
        requires some { 0 < nodes }
        requires node_room { nodes_total self.old + nodes ≤ MAX_NODES }
        requires graph_room { length self.old.graphs < MAX_GRAPHS }
        ensures place { IfOk result (λ place. place ≡ length self.old.graphs) }
        ensures ok { OnOk result (self.new ≡ with_graph self.old id nodes) }
        ensures err { OnErr result (self.new ≡ self.old) }
    {
        let place = self.graphs.len() as u32;
        let alloc = *self.atoms.allocator();
        let graph = Graph::new(alloc, nodes)?;
        self.graphs.insert(id, graph)?;
        self.node_count += nodes;
        Ok(place)
    }

    /// Adds an edge to the graph at a place, and answers its number. Its variable becomes one of the problem's.
    pub fn add_edge(
        &mut self,
        graph: u32,
        from: u32,
        to: u32,
        var: u32,
        weight: u64,
    ) -> Result<u32, AllocError>
        requires graph { graph < length self.old.graphs }
        requires from { from < (graph_at self.old graph).nodes }
        requires to { to < (graph_at self.old graph).nodes }
        requires var_low { 0 < var }
        requires var_high { var ≤ MAX_VARS }
        requires weight { weight ≤ MAX_WEIGHT }
        requires room { edges_total self.old < MAX_EDGES }
        ensures number { IfOk result (λ n. n ≡ edges_total self.old + 1) }
        ensures ok { IfOk result (λ n. self.new ≡ with_edge self.old graph (record { number = n; from = from; to = to; var = var; weight = weight })) }
        ensures err { OnErr result (self.new ≡ self.old) }
    {
        let number = self.homes.as_slice().len() as u32 + 1;
        self.homes.reserve(1)?;
        let edge = Edge {
            number,
            from,
            to,
            var,
            weight,
        };
        add_to(&mut self.graphs, graph, edge)?;
        let _ = self.homes.push(graph);
        self.var_count = self.var_count.max(var);
        Ok(number)
    }

    /// Adds a predicate over the graph at a place, and answers its number. Its variable becomes one of the problem's.
    pub fn add_atom(
        &mut self,
        graph: u32,
        var: u32,
        predicate: Predicate,
    ) -> Result<u32, AllocError>
        requires graph { graph < length self.old.graphs }
        requires over { IsOver (graph_at self.old graph) predicate }
        requires var_low { 0 < var }
        requires var_high { var ≤ MAX_VARS }
        requires room { length self.old.atoms < MAX_ATOMS }
        ensures number { IfOk result (λ n. n ≡ length self.old.atoms + 1) }
        ensures ok { IfOk result (λ n. self.new ≡ with_atom self.old (record { number = n; graph = graph; var = var; predicate = predicate })) }
        ensures err { OnErr result (self.new ≡ self.old) }
    {
        let number = self.atoms.as_slice().len() as u32 + 1;
        self.atoms.push(Atom {
            number,
            graph,
            var,
            predicate,
        })?;
        self.var_count = self.var_count.max(var);
        Ok(number)
    }

    /// Adds a clause, and answers its number. The variables of its literals become the problem's.
    pub fn add_clause(&mut self, lits: &[Lit]) -> Result<u32, AllocError>
        requires clause_room { length self.old.clauses < MAX_CLAUSES }
        requires literal_room { literals_total self.old + length lits.now ≤ MAX_LITERALS }
        ensures number { IfOk result (λ n. n ≡ length self.old.clauses + 1) }
        ensures ok { OnOk result (self.new ≡ with_clause self.old lits.now) }
        ensures err { OnErr result (self.new ≡ self.old) }
    {
        let number = self.clauses.len() as u32 + 1;
        self.clauses.push(lits)?;
        self.var_count = greatest_var(self.var_count, lits);
        Ok(number)
    }

    /// The problem that was made.
    pub fn finish(self) -> Result<Problem, AllocError>
        ensures { IfOk result (λ p. p ≡ self) }
    {
        let alloc = *self.atoms.allocator();
        let uses = all_uses(alloc, &self.graphs, self.atoms.as_slice())?;
        let Draft {
            var_count,
            graphs,
            node_count: _,
            homes,
            atoms,
            clauses,
        } = self;
        Ok(Problem {
            var_count,
            graphs,
            homes,
            atoms,
            clauses,
            uses,
        })
    }
}
