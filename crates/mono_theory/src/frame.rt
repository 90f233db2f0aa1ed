//! A graph, atoms over it, and the literals that were seen: all that a theory is over, whatever its kind.
//!
//! The literals are over different variables that concern the theory, the two bounds are theirs, of the edges and of the
//! atoms' own variables, and the list has room for one literal of each variable. So a literal comes without memory. It is
//! looked up once: where its edges and its atoms stand is kept.

ghost use Rattle.std.specs.Prelude.{◌≡◌, ◌<◌, ◌≤◌, ◌+◌, ◌++◌, ◌∷◌, ◌^◌, [], ℕ, pos, map, not, false, take, length, Some, IfOk, IfSome, IsSome, IsTrue, int_lt, slice_index_or, vec_capacity};
ghost use Rattle.std.specs.List.Sorted.{IsStrictlyIncreasing};
ghost use Rattle.mono_base.specs.Literal.{var_of};
ghost use Rattle.mono_base.specs.Partial.{is_true_in, is_false_in, is_open_in, is_partial};
ghost use Rattle.mono_graph.specs.Digraph.{IsGraph, has};
ghost use Rattle.mono_problem.specs.Quiet.{under as under_of, over as over_of};
ghost use Rattle.mono_problem.specs.Read.{no_atom};
ghost use Rattle.mono_bounds.specs.Bound.{edge_vars};
ghost use Rattle.mono_bounds.specs.Index.{ArePlacesOf};
ghost use Rattle.mono_bounds.specs.SeenBounds.{IsSeenBound};
ghost use Rattle.mono_steps.specs.Switching.{literal_of};
ghost use Rattle.mono_theory.specs.Frames.{AreAtomsOf, IsFrame, atom_vars, atom_numbers};
ghost use Rattle.mono_theory.specs.Variables.{AreVarsOf};
ghost use Rattle.mono_theory.specs.Supports.{IsSettled, part_of};
ghost use Rattle.mono_theory.specs.Evidences.{shown_by as shown_by_of};

use crate::evidence::shown_by;
use crate::past::evidence_by;
use crate::{Evidence, Kind, Question};
use mono_base::Lit;
use mono_base::limits::MAX_ATOMS;
use mono_bounds::{Index, SeenBounds, vars_of as edge_vars_of};
use mono_graph::{Graph, Part};
use mono_problem::Atom;
use std::alloc::{AllocError, Global};
use std::marker::Model;

/// A graph, atoms over it, the literals that were seen, and the bounds that they leave.
///
/// Contracts see the graph, the atoms in their order and the literals in theirs. The literals are over different variables.
pub struct Frame {
    graph: Graph,
    atoms: Vec<Atom>,
    numbers: Index,
    lits: Vec<Lit>,
    edges: SeenBounds,
    own: SeenBounds,
    vars: Vec<u32>,
}

impl Drop for Frame {
    fn drop(self) {
        let Frame {
            graph: _,
            atoms: _,
            numbers: _,
            lits: _,
            edges: _,
            own: _,
            vars: _,
        } = self;
    }
}

impl Model for Frame {
    ghost use Rattle.std.specs.Prelude.{vec_capacity};
    ghost use Rattle.mono_theory.specs.Theories.{Facts};
    ghost use Rattle.mono_theory.specs.Frames.{IsFrame};

    ghost Value = { Facts };

    ghost view = { λ s. record { graph = s.graph; atoms = s.atoms.items; seen = s.lits.items } };

    ghost invariant = { λ s. IsFrame s.graph s.atoms.items s.lits.items s.edges s.own s.numbers.keys s.vars.items (vec_capacity s.lits) };
}

/// The variables of the atoms.
fn vars_of(alloc: Global, atoms: &[Atom]) -> Result<Vec<u32>, AllocError>
    ensures { IfOk result (λ vars. vars.items ≡ atom_vars atoms.now) }
{
    atoms.iter().map(|x| x.var).collect(alloc)
}

/// The bounds of the edges, none of whose variables has a value.
fn edge_bounds(alloc: Global, graph: &Graph, cells: usize) -> Result<SeenBounds, AllocError>
    ensures bounds { IfOk result (λ b. IsSeenBound b (edge_vars graph.now) []) }
    ensures cells { IfOk result (λ b. cells ≤ b.cells) }
{
    let vars = edge_vars_of(alloc, graph)?;
    SeenBounds::new(alloc, vars, cells)
}

/// The bounds of the atoms' own variables, none of which has a value.
fn own_bounds(alloc: Global, atoms: &[Atom], cells: usize) -> Result<SeenBounds, AllocError>
    requires { length atoms.now ≤ MAX_ATOMS }
    ensures bounds { IfOk result (λ b. IsSeenBound b (atom_vars atoms.now) []) }
    ensures cells { IfOk result (λ b. cells ≤ b.cells) }
{
    let vars = vars_of(alloc, atoms)?;
    SeenBounds::new(alloc, vars, cells)
}

/// The index of the atoms' numbers.
fn number_index(alloc: Global, atoms: &[Atom]) -> Result<Index, AllocError>
    requires { length atoms.now ≤ MAX_ATOMS }
    ensures { IfOk result (λ index. index.keys ≡ atom_numbers atoms.now) }
{
    let numbers: Vec<u32> = atoms.iter().map(|x| x.number).collect(alloc)?;
    Index::new(alloc, numbers)
}

/// Sorts the numbers, and leaves each of them once.
fn sort_once(numbers: &mut Vec<u32>)
    ensures rising { IsStrictlyIncreasing numbers.new.items }
    ensures same { (v : ℕ) → has numbers.new.items v ≡ has numbers.old.items v }
{
    numbers.sort_unstable();
    numbers.dedup();
}

/// The variables of the graph's edges and of the atoms, rising, each once.
fn variables_of(alloc: Global, graph: &Graph, atoms: &[Atom]) -> Result<Vec<u32>, AllocError>
    ensures { IfOk result (λ vars. AreVarsOf graph.now atoms.now vars.items) }
{
    let mut vars = edge_vars_of(alloc, graph)?;
    let own = vars_of(alloc, atoms)?;
    vars.extend_from_slice(own.as_slice())?;
    sort_once(&mut vars);
    Ok(vars)
}

/// What a frame keeps beside its graph and its atoms.
#[derive(Drop)]
struct Tables {
    numbers: Index,
    lits: Vec<Lit>,
    edges: SeenBounds,
    own: SeenBounds,
    vars: Vec<u32>,
}

/// What a frame keeps before anything was seen.
fn tables_of(alloc: Global, graph: &Graph, atoms: &[Atom]) -> Result<Tables, AllocError>
    requires known { AreAtomsOf graph.now atoms.now }
    requires few { length atoms.now ≤ MAX_ATOMS }
    ensures unseen { IfOk result (λ t. t.lits.items ≡ []) }
    ensures frame { IfOk result (λ t. IsFrame graph.now atoms.now [] t.edges t.own t.numbers.keys t.vars.items (vec_capacity t.lits)) }
{
    graph.known();
    let count = graph.edge_count() as usize;
    let cells = count + atoms.len();
    let lits = Vec::with_capacity(alloc, cells)?;
    let vars = variables_of(alloc, graph, atoms)?;
    let numbers = number_index(alloc, atoms)?;
    let own = own_bounds(alloc, atoms, cells)?;
    let edges = edge_bounds(alloc, graph, cells)?;
    Ok(Tables {
        numbers,
        lits,
        edges,
        own,
        vars,
    })
}

impl Frame {
    ghost use Rattle.mono_problem.specs.WellFormed.{IsOver};
    ghost use Rattle.mono_theory.specs.Questions.{IsAnswer, predicate_in};
    ghost use Rattle.mono_theory.specs.Sound.{IsSound};
    ghost use Rattle.mono_theory.specs.Frames.{IsVar};
    ghost use Rattle.mono_theory.specs.Theories.{concerns_of, owns_of, atom_of};

    /// A graph and atoms over it, at most 100,000 of them under different numbers. Nothing was seen yet. There is room for one
    /// literal of each edge and of each atom.
    pub fn new(alloc: Global, graph: Graph, atoms: Vec<Atom>) -> Result<Frame, AllocError>
        requires known { AreAtomsOf graph atoms.items }
        requires few { length atoms.items ≤ MAX_ATOMS }
        ensures { IfOk result (λ s. s ≡ record { graph = graph; atoms = atoms.items; seen = [] }) }
    {
        graph.known();
        let tables = tables_of(alloc, &graph, atoms.as_slice())?;
        Ok(Frame {
            graph,
            atoms,
            numbers: tables.numbers,
            lits: tables.lits,
            edges: tables.edges,
            own: tables.own,
            vars: tables.vars,
        })
    }

    /// Whether the variable is one of the edges' or of the atoms'. It takes a look-up in each of two tables.
    pub fn concerns(&self, var: u32) -> bool
        ensures { result ≡ concerns_of self.now.graph self.now.atoms var }
    {
        self.edges.bounds().has(var) || self.own.bounds().has(var)
    }

    /// The variables of the edges and of the atoms, rising, each once.
    pub fn variables(&self) -> &[u32]
        ensures { AreVarsOf self.now.graph self.now.atoms result.now }
    {
        self.vars.as_slice()
    }

    /// What holds of every frame. Nothing is computed: it is there for the clauses.
    pub fn known(&self)
        ensures graph { IsGraph self.now.graph }
        ensures atoms { AreAtomsOf self.now.graph self.now.atoms }
        ensures few_atoms { length self.now.atoms < 2 ^ 32 }
        ensures partial { IsTrue (is_partial self.now.seen) }
        ensures few { length self.now.seen < 2 ^ 31 }
    {
        let _ = &self.graph;
    }

    /// How many literals were seen.
    pub fn seen(&self) -> usize
        ensures count { result ≡ length self.now.seen }
        ensures partial { IsTrue (is_partial self.now.seen) }
        ensures few { length self.now.seen < 2 ^ 31 }
    {
        self.lits.len()
    }

    /// The literal at a place of the list.
    pub fn literal_at(&self, place: usize) -> Lit
        requires { place < length self.now.seen }
        ensures { result ≡ slice_index_or self.now.seen place result }
    {
        self.lits[place]
    }

    /// The places of the edges of a variable. It takes a look-up.
    pub fn edges_of(&self, var: u32) -> &[u32]
        ensures { ArePlacesOf (edge_vars self.now.graph) var result.now }
    {
        self.edges.bounds().places_of(var)
    }

    /// The places of the edges of the variable of the literal at a place of the list.
    pub fn edges_at(&self, place: usize) -> &[u32]
        requires { place < length self.now.seen }
        ensures { ArePlacesOf (edge_vars self.now.graph) (var_of (slice_index_or self.now.seen place (pos 0))) result.now }
    {
        self.edges.places(place)
    }

    /// The places of the atoms of the variable of the literal at a place of the list.
    pub fn atoms_at(&self, place: usize) -> &[u32]
        requires { place < length self.now.seen }
        ensures { ArePlacesOf (atom_vars self.now.atoms) (var_of (slice_index_or self.now.seen place (pos 0))) result.now }
    {
        self.own.places(place)
    }

    /// Whether the atom of this number is one of these.
    pub fn owns(&self, number: u32) -> bool
        ensures { result ≡ owns_of self.now.atoms number }
    {
        self.numbers.has(number)
    }

    /// One more literal is seen, behind the others. Its variable concerns the frame, and the list says nothing of it yet. It takes
    /// no memory, and work in proportion to the edges and atoms of the variable.
    pub fn assign(&mut self, lit: Lit)
        requires concerned { IsTrue (concerns_of self.old.graph self.old.atoms (var_of lit)) }
        requires fresh { IsTrue (is_open_in self.old.seen lit) }
        ensures { self.new ≡ record self.old { seen = self.old.seen ++ lit ∷ [] } }
    {
        let var = lit.var();
        let edges = self.edges.bounds().find(var);
        let atoms = self.own.bounds().find(var);
        self.edges.assign(lit, edges);
        self.own.assign(lit, atoms);
        self.lits.push_reserved(lit);
    }

    /// The list is cut to its first `kept` literals. It takes no memory, and work in proportion to what goes.
    pub fn undo_to(&mut self, kept: usize)
        requires { kept ≤ length self.old.seen }
        ensures { self.new ≡ record self.old { seen = take kept self.old.seen } }
    {
        self.edges.undo_to(self.lits.as_slice(), kept);
        self.own.undo_to(self.lits.as_slice(), kept);
        self.lits.truncate(kept);
    }

    /// How many atoms there are.
    pub fn atom_count(&self) -> usize
        ensures count { result ≡ length self.now.atoms }
        ensures few { length self.now.atoms < 2 ^ 32 }
    {
        self.atoms.len()
    }

    /// The atom at a place.
    pub fn atom_at(&self, place: usize) -> Atom
        requires { place < length self.now.atoms }
        ensures atom { result ≡ slice_index_or self.now.atoms place no_atom }
        ensures var { IsVar result.var }
        ensures over { IsOver self.now.graph result.predicate }
        ensures found { atom_of self.now.atoms result.number ≡ Some result }
    {
        self.atoms[place]
    }

    /// The place of the atom of the number.
    pub fn place_of(&self, number: u32) -> u32
        requires { IsSome (atom_of self.now.atoms number) }
        ensures held { result < length self.now.atoms }
        ensures is { atom_of self.now.atoms number ≡ Some (slice_index_or self.now.atoms result no_atom) }
        ensures alone { (k : ℕ) → k < length self.now.atoms → (slice_index_or self.now.atoms k no_atom).number ≡ number → k ≡ result }
    {
        let Some(place) = self.numbers.place(number) else {
            unreachable!()
        };
        place
    }

    /// The atom of the number.
    pub fn atom(&self, number: u32) -> Atom
        requires { IsSome (atom_of self.now.atoms number) }
        ensures atom { atom_of self.now.atoms number ≡ Some result }
        ensures var { IsVar result.var }
        ensures over { IsOver self.now.graph result.predicate }
    {
        let place = self.place_of(number);
        self.atom_at(place as usize)
    }

    /// The graph.
    pub fn graph(&self) -> &Graph
        ensures graph { result.now ≡ self.now.graph }
        ensures known { IsGraph self.now.graph }
        ensures atoms { AreAtomsOf self.now.graph self.now.atoms }
    {
        &self.graph
    }

    /// The surely present edges: those whose variable is true.
    pub fn under(&self) -> &Part
        ensures { result.now ≡ under_of self.now.graph self.now.seen }
    {
        self.edges.bounds().under()
    }

    /// The possibly present edges: those whose variable isn't false.
    pub fn over(&self) -> &Part
        ensures { result.now ≡ over_of self.now.graph self.now.seen }
    {
        self.edges.bounds().over()
    }

    /// The possibly present edges, or the surely present ones.
    pub fn part(&self, possible: bool) -> &Part
        ensures part { result.now ≡ part_of self.now.graph self.now.seen possible }
        ensures size { length result.now ≡ length self.now.graph.edges }
    {
        self.known();
        if possible { self.over() } else { self.under() }
    }

    /// Whether the variable of the atom at a place has the value that the side would force: what present edges show on the side
    /// of the surely present ones, and what absent edges show on that of the possibly present ones.
    pub fn is_settled(&self, place: usize, possible: bool) -> bool
        requires { place < length self.now.atoms }
        ensures settled { IsTrue result → IsSettled self.now.seen possible (slice_index_or self.now.atoms place no_atom) }
        ensures open { result ≡ false → is_true_in self.now.seen
            (literal_of (shown_by_of (slice_index_or self.now.atoms place no_atom).predicate (not possible))
            (slice_index_or self.now.atoms place no_atom).var) ≡ false }
    {
        if shown_by(self.atom_at(place).predicate, !possible) {
            self.is_true(place)
        } else {
            self.is_false(place)
        }
    }

    /// Whether the variable of the atom at a place is true.
    pub fn is_true(&self, place: usize) -> bool
        requires { place < length self.now.atoms }
        ensures { result ≡ is_true_in self.now.seen (pos (slice_index_or self.now.atoms place no_atom).var) }
    {
        self.own.bounds().under().has(place as u32)
    }

    /// Whether the variable of the atom at a place is false.
    pub fn is_false(&self, place: usize) -> bool
        requires { place < length self.now.atoms }
        ensures { result ≡ is_false_in self.now.seen (pos (slice_index_or self.now.atoms place no_atom).var) }
    {
        !self.own.bounds().over().has(place as u32)
    }

    /// What answers a question: the evidence that is known, where it is right under the first literals, or else what a search
    /// finds. The bounds go back to these literals and come again, also where memory is missing.
    pub fn evidence_at<K: Kind>(
        &mut self,
        alloc: Global,
        kind: &mut K,
        known: Option<&Evidence>,
        question: Question,
    ) -> Result<Evidence, AllocError>
        requires size { K.nodes kind.old ≡ self.old.graph.nodes }
        requires place { question.place < length self.old.atoms }
        requires kept { question.kept ≤ length self.old.seen }
        requires kind { IsTrue (K.covers (predicate_in self.old question)) }
        requires known { IfSome known (λ e. IsSound self.old.graph (predicate_in self.old question)
            (shown_by_of (predicate_in self.old question) (int_lt (pos 0) question.lit)) e.now) }
        ensures size { K.nodes kind.new ≡ K.nodes kind.old }
        ensures same { self.new ≡ self.old }
        ensures evidence { IfOk result (IsAnswer self.old question) }
    {
        let predicate = self.atom_at(question.place as usize).predicate;
        let lits = self.lits.as_slice();
        let edges = &mut self.edges;
        evidence_by::<K>(
            alloc,
            kind,
            &self.graph,
            edges,
            lits,
            known,
            predicate,
            question,
        )
    }
}
