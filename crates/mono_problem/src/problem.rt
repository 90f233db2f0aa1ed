//! Problems: what a draft made, to be read.

ghost use Rattle.std.specs.Prelude.{◌≡◌, ◌==◌, ◌<◌, ◌≤◌, ◌+◌, ◌-◌, ◌↔◌, ◌≢◌, ℕ, [], All, IsTrue, IfSome, length, nat_abs, not, position, slice_index_or};
ghost use Rattle.mono_base.specs.Literal.{IsLitWithin, lit_true, clause_true, value_in, first_false};
ghost use Rattle.mono_graph.specs.Digraph.{edge_at};
ghost use Rattle.mono_problem.specs.Instance.{Instance, graph_at, identity_at, has_number, edges_total, literals_total};
ghost use Rattle.mono_problem.specs.WellFormed.{IsInstance};
ghost use Rattle.mono_problem.specs.Uses.{uses_of, has_edge_use};
ghost use Rattle.mono_problem.specs.Read.{atom_numbered, clause_numbered};

use crate::clause_list::ClauseList;
use crate::uses::UseTable;
use crate::{Atom, Use};
use indexmap::IndexMap;
use mono_base::Lit;
use mono_graph::{Graph, value_of};
use std::alloc::AllocError;
use std::marker::Model;

/// Clauses, and predicates over graphs whose edges are variables.
///
/// Variables, edges, predicates and clauses are numbered from 1, graphs are named by their place in the order of
/// declaration, from 0.
pub struct Problem {
    pub(crate) var_count: u32,
    pub(crate) graphs: IndexMap<u32, Graph>,
    pub(crate) homes: Vec<u32>,
    pub(crate) atoms: Vec<Atom>,
    pub(crate) clauses: ClauseList,
    pub(crate) uses: UseTable,
}

impl Drop for Problem {
    fn drop(self) {
        let Problem {
            var_count: _,
            graphs: _,
            homes: _,
            atoms: _,
            clauses: _,
            uses: _,
        } = self;
    }
}

impl Model for Problem {
    ghost use Rattle.mono_problem.specs.Instance.{Instance};

    ghost Value = { Instance };

    ghost use Rattle.mono_problem.specs.Kept.{IsProblem};

    ghost view = { λ p. record { vars = p.var_count; graphs = p.graphs.entries; atoms = p.atoms.items; clauses = p.clauses } };

    ghost invariant = { λ p. IsProblem (record {
      vars = p.var_count;
      graphs = p.graphs.entries;
      atoms = p.atoms.items;
      clauses = p.clauses;
    }) p.homes.items p.uses };
}

fn lit_is_true(lit: Lit, model: &[bool]) -> bool
    requires low { 0 < nat_abs lit }
    requires high { nat_abs lit ≤ length model.now }
    ensures { result ≡ lit_true (value_in model.now) lit }
{
    let value = value_of(model, lit.var());
    if lit.is_positive() { value } else { !value }
}

fn clause_is_true(lits: &[Lit], model: &[bool]) -> bool
    requires { All (IsLitWithin (length model.now)) lits.now }
    ensures { result ≡ clause_true (value_in model.now) lits.now }
{
    lits.iter().any(|lit| lit_is_true(*lit, model))
}

impl Problem {
    /// The number of variables.
    pub fn vars(&self) -> u32
        ensures vars { result ≡ self.now.vars }
        ensures problem { IsInstance self.now }
    {
        self.var_count
    }

    /// What holds of every problem. Nothing is computed: it is there for the clause.
    pub fn known(&self)
        ensures problem { IsInstance self.now }
    {
        let _ = &self.var_count;
    }

    /// How many graphs there are.
    pub fn graph_count(&self) -> u32
        ensures { result ≡ length self.now.graphs }
    {
        self.graphs.len() as u32
    }

    /// How many edges there are, over all graphs.
    pub fn edge_count(&self) -> u32
        ensures { result ≡ edges_total self.now }
    {
        self.homes.as_slice().len() as u32
    }

    /// How many predicates there are.
    pub fn atom_count(&self) -> u32
        ensures { result ≡ length self.now.atoms }
    {
        self.atoms.as_slice().len() as u32
    }

    /// How many clauses there are.
    pub fn clause_count(&self) -> u32
        ensures { result ≡ length self.now.clauses }
    {
        self.clauses.len() as u32
    }

    /// How many literals the clauses have, repeats counted.
    pub fn literal_count(&self) -> u32
        ensures { result ≡ literals_total self.now }
    {
        self.clauses.literal_count() as u32
    }

    /// The graph at a place.
    pub fn graph(&self, place: u32) -> &Graph
        requires { place < length self.now.graphs }
        ensures { result.now ≡ graph_at self.now place }
    {
        match self.graphs.get_index(place as usize) {
            Some((_, graph)) => graph,
            None => unreachable!(),
        }
    }

    /// The identity of the graph at a place.
    pub fn graph_id(&self, place: u32) -> u32
        requires { place < length self.now.graphs }
        ensures { result ≡ identity_at self.now place }
    {
        match self.graphs.get_index(place as usize) {
            Some((id, _)) => *id,
            None => unreachable!(),
        }
    }

    /// The place of the graph that has the edge of this number.
    pub fn edge_home(&self, number: u32) -> u32
        requires low { 0 < number }
        requires high { number ≤ edges_total self.now }
        ensures held { result < length self.now.graphs }
        ensures exact { (k : ℕ) → k < length self.now.graphs → has_number (graph_at self.now k) number ≡ (k == result) }
    {
        self.homes.as_slice()[number as usize - 1]
    }

    /// The predicate of this number.
    pub fn atom(&self, number: u32) -> Atom
        requires low { 0 < number }
        requires high { number ≤ length self.now.atoms }
        ensures { result ≡ atom_numbered self.now number }
    {
        self.atoms.as_slice()[number as usize - 1]
    }

    /// The literals of the clause of this number, as they were read.
    pub fn clause(&self, number: u32) -> &[Lit]
        requires low { 0 < number }
        requires high { number ≤ length self.now.clauses }
        ensures clause { result.now ≡ clause_numbered self.now number }
        ensures within { All (IsLitWithin self.now.vars) result.now }
    {
        self.clauses.get(number as usize - 1)
    }

    /// What a variable switches or stands for: the edges graph after graph, each in order, then the predicates.
    pub fn uses(&self, var: u32) -> &[Use]
        ensures uses { result.now ≡ uses_of self.now var }
        ensures edges { (k j : ℕ) → k < length self.now.graphs → j < length (graph_at self.now k).edges
            → has_edge_use k j result.now ≡ ((edge_at (graph_at self.now k) j).var == var) }
        ensures places { (k j : ℕ) → k < length self.now.graphs → IsTrue (has_edge_use k j result.now) → j < length (graph_at self.now k).edges }
    {
        self.uses.of(var)
    }

    /// The number of the first clause that is false where variable x has the value `model[x - 1]`: `None` exactly where
    /// every clause is true. It takes no memory.
    pub fn first_false_clause(&self, model: &[bool]) -> Option<u32>
        requires { length model.now ≡ self.now.vars }
        ensures { result ≡ first_false (value_in model.now) self.now.clauses }
    {
        for place in 0..self.clause_count() {
            if !clause_is_true(self.clause(place + 1), model) {
                return Some(place + 1);
            }
        }
        None
    }
}
