//! What a theory of reachability knows of a node.

ghost use Rattle.std.specs.Prelude.{◌≡◌, ◌<◌, ℕ, List, true, false, length, IsTrue};
ghost use Rattle.mono_graph.specs.Walks.{is_walk};
ghost use Rattle.mono_problem.specs.Quiet.{under, over};
ghost use Rattle.mono_theory.specs.EitherSides.{IsEitherDecided, IsEitherRight};
ghost use Rattle.mono_theory.specs.RowSides.{AlwaysStand, AreRowsFor, AreUpToDate};
ghost use Rattle.mono_theory.specs.Evidences.{Decides};
ghost use Rattle.mono_theory.specs.Stages.{NoneWaits};
ghost use Rattle.mono_theory.specs.Supports.{AreCovered, IsSide, atom_at};
ghost use Rattle.mono_reach.specs.Marks.{AreMarks, AreMarksOf, first_node, last_node, shows_last, under_mark};
ghost use Rattle.mono_theory.specs.PossibleRows.{AreTargetsOf, RowsStand, is_cut_off};
ghost use Rattle.mono_reach.specs.Readings.{cut_mark, found_mark, in_cut, over_mark, possible_mark, sure_mark};
ghost use Rattle.mono_reach.specs.Reaches.{is_reach};

use crate::ends::ends_of;
use crate::reach::Reach;
use crate::reached_rows::ReachedRows;
use mono_steps::Witness;
use mono_theory::{EitherSide, Frame, GraphTheory, KeptSide, PossibleRows, Rows, RowsSide};

/// What a theory knows of a node, for one of its atoms.
#[derive(Clone, Copy, Debug, PartialEq, Eq)]
pub struct Marks {
    /// Where this is true, a walk along the surely present edges leads from the atom's first node to the node.
    pub under: bool,
    /// Where this is false, no walk along the possibly present edges does.
    pub over: bool,
}

/// A theory that knows of nodes whether walks lead to them.
///
/// No mark changes by `assign` or `explain`. After a `force` or `propagate` that answered Quiet, the marks of an atom's last
/// node are whether its predicate holds with the surely present edges, and with the possibly present ones. Where the theory
/// searches, since rows would be many, `under` is true of an atom's last node at most. Where it keeps rows of the possibly
/// present edges, since many atoms have one first node, `over` is false of an atom's last node at most.
pub trait HasMarks {
    ghost use Rattle.std.specs.Prelude.{◌≡◌, ◌<◌, ℕ, List, false, length, IsTrue, IsSome, MatchOption};
    ghost use Rattle.mono_graph.specs.Walks.{is_walk};
    ghost use Rattle.mono_problem.specs.Quiet.{under, over};
    ghost use Rattle.mono_theory.specs.Evidences.{Decides};
    ghost use Rattle.mono_theory.specs.Theories.{Facts, atom_of};
    ghost use Rattle.mono_theory.specs.Supports.{atom_at};
    ghost use Rattle.mono_reach.specs.Marks.{first_node, last_node};
    ghost use Rattle.mono_reach.specs.declared.marks.Marks.{Marks};

    /// The graph, the atoms and the literals seen.
    ghost facts: { Self → Facts };
    /// What is known of a node, for the atom at a place.
    ghost marks_of: { Self → ℕ → ℕ → Marks };
    /// What is kept decides each predicate.
    ghost is_decided: { Self → Type 0 };

    /// What is known of the node, for the theory's atom of this number. The node is one of the graph. It asks for no search.
    fn marks(&self, atom: u32, node: u32) -> Marks
        requires owned { IsSome (atom_of (facts self.now).atoms atom) }
        requires node { node < (facts self.now).graph.nodes }
        ensures value { (place : ℕ) → place < length (facts self.now).atoms → (atom_at (facts self.now).atoms place).number ≡ atom
            → result ≡ marks_of self.now place node }
        ensures under { IsTrue result.under → MatchOption (atom_of (facts self.now).atoms atom) ⊥ (λ x. (walk : List ℕ)
            × IsTrue (is_walk (facts self.now).graph (under (facts self.now).graph (facts self.now).seen) (first_node x.predicate) node walk)) }
        ensures over { result.over ≡ false → MatchOption (atom_of (facts self.now).atoms atom) ⊥ (λ x. (walk : List ℕ)
            → is_walk (facts self.now).graph (over (facts self.now).graph (facts self.now).seen) (first_node x.predicate) node walk ≡ false) }
        ensures decided_under { is_decided self.now
            → MatchOption (atom_of (facts self.now).atoms atom) ⊥ (λ x. node ≡ last_node x.predicate
            → Decides (facts self.now).graph (under (facts self.now).graph (facts self.now).seen) x.predicate result.under) }
        ensures decided_over { is_decided self.now
            → MatchOption (atom_of (facts self.now).atoms atom) ⊥ (λ x. node ≡ last_node x.predicate
            → Decides (facts self.now).graph (over (facts self.now).graph (facts self.now).seen) x.predicate result.over) };
}

/// Whether a node is reached from the first node of the atom at a place, along the surely present edges of the first `looked`
/// literals.
fn is_marked(rows: &ReachedRows, frame: &Frame, looked: usize, place: usize, node: u32) -> bool
    requires right { AreMarks frame.now looked rows.now }
    requires place { place < length frame.now.atoms }
    requires node { node < frame.now.graph.nodes }
    ensures { result ≡ under_mark rows.now place node }
{
    frame.known();
    let _ = looked;
    let row = rows.row(place);
    row.has(node)
}

/// Whether the row of the atom at a place has the node.
fn is_in_row(side: &RowsSide<ReachedRows>, frame: &Frame, place: u32, node: u32) -> bool
    requires right { AreRowsFor is_reach false AreMarksOf shows_last frame.now side.now }
    requires place { place < length frame.now.atoms }
    requires node { node < frame.now.graph.nodes }
    ensures value { result ≡ under_mark side.now.rows place node }
    ensures reached { IsTrue result → (walk : List ℕ)
        × IsTrue (is_walk frame.now.graph (under frame.now.graph frame.now.seen) (first_node (atom_at frame.now.atoms place).predicate) node walk) }
    ensures decides { AreUpToDate AlwaysStand frame.now side.now → node ≡ last_node (atom_at frame.now.atoms place).predicate
        → Decides frame.now.graph (under frame.now.graph frame.now.seen) (atom_at frame.now.atoms place).predicate result }
{
    frame.known();
    let looked = side.looked();
    let rows = side.rows();
    is_marked(rows, frame, looked, place as usize, node)
}

/// Whether the node is the last one of the atom at a place, and a search found a walk to it.
fn is_found(kept: &KeptSide, frame: &Frame, place: u32, node: u32) -> bool
    requires side { IsSide frame.now false kept.now }
    requires thorough { kept.now.thorough ≡ true }
    requires covered { AreCovered is_reach frame.now.atoms }
    requires place { place < length frame.now.atoms }
    ensures value { result ≡ found_mark kept.now (atom_at frame.now.atoms place).predicate place node }
    ensures reached { IsTrue result → (walk : List ℕ)
        × IsTrue (is_walk frame.now.graph (under frame.now.graph frame.now.seen) (first_node (atom_at frame.now.atoms place).predicate) node walk) }
    ensures decides { NoneWaits kept.now.stages → node ≡ last_node (atom_at frame.now.atoms place).predicate
        → Decides frame.now.graph (under frame.now.graph frame.now.seen) (atom_at frame.now.atoms place).predicate result }
{
    frame.known();
    let atom = frame.atom_at(place as usize);
    let (_, to) = ends_of(atom.predicate);
    match kept.shown_witness(place) {
        None => false,
        Some(_) => node == to,
    }
}

/// Whether a walk along the surely present edges is known to lead to the node from the first node of the atom at a place.
fn is_reached(side: &EitherSide<ReachedRows>, frame: &Frame, place: u32, node: u32) -> bool
    requires right { IsEitherRight is_reach false true AreMarksOf shows_last frame.now side.now }
    requires covered { AreCovered is_reach frame.now.atoms }
    requires place { place < length frame.now.atoms }
    requires node { node < frame.now.graph.nodes }
    ensures value { result ≡ sure_mark side.now (atom_at frame.now.atoms place).predicate place node }
    ensures reached { IsTrue result → (walk : List ℕ)
        × IsTrue (is_walk frame.now.graph (under frame.now.graph frame.now.seen) (first_node (atom_at frame.now.atoms place).predicate) node walk) }
    ensures decides { IsEitherDecided AlwaysStand frame.now side.now → node ≡ last_node (atom_at frame.now.atoms place).predicate
        → Decides frame.now.graph (under frame.now.graph frame.now.seen) (atom_at frame.now.atoms place).predicate result }
{
    match side {
        EitherSide::Rows(rows) => is_in_row(rows, frame, place, node),
        EitherSide::Searches(kept) => is_found(kept, frame, place, node),
    }
}

/// Whether the node is in the set of nodes that the witness is, if it is one.
fn is_inside(witness: &Witness, node: u32) -> bool
    ensures { result ≡ in_cut witness.now node }
{
    match witness {
        Witness::Cut(nodes) => nodes.as_slice().contains(&node),
        _ => true,
    }
}

/// Whether the node isn't the last one of the atom at a place, or isn't known to be out of reach by the atom's row.
fn is_in_reach(side: &RowsSide<PossibleRows>, frame: &Frame, place: u32, node: u32) -> bool
    requires right { AreRowsFor is_reach true AreTargetsOf is_cut_off frame.now side.now }
    requires place { place < length frame.now.atoms }
    ensures value { result ≡ over_mark side.now.rows (atom_at frame.now.atoms place).predicate place node }
    ensures fails { result ≡ false → (walk : List ℕ)
        → is_walk frame.now.graph (over frame.now.graph frame.now.seen) (first_node (atom_at frame.now.atoms place).predicate) node walk ≡ false }
    ensures decides { AreUpToDate RowsStand frame.now side.now → node ≡ last_node (atom_at frame.now.atoms place).predicate
        → Decides frame.now.graph (over frame.now.graph frame.now.seen) (atom_at frame.now.atoms place).predicate result }
{
    frame.known();
    let atom = frame.atom_at(place as usize);
    let (_, to) = ends_of(atom.predicate);
    if node != to {
        return true;
    }
    let looked = side.looked();
    let rows = side.rows();
    !<PossibleRows as Rows<Reach>>::shows(rows, frame, looked, place as usize)
}

/// Whether no set was found that has the first node of the atom at a place, lacks the node, and is left by no possibly present
/// edge.
fn is_uncut(kept: &KeptSide, frame: &Frame, place: u32, node: u32) -> bool
    requires side { IsSide frame.now true kept.now }
    requires thorough { kept.now.thorough ≡ true }
    requires covered { AreCovered is_reach frame.now.atoms }
    requires place { place < length frame.now.atoms }
    ensures value { result ≡ cut_mark kept.now place node }
    ensures fails { result ≡ false → (walk : List ℕ)
        → is_walk frame.now.graph (over frame.now.graph frame.now.seen) (first_node (atom_at frame.now.atoms place).predicate) node walk ≡ false }
    ensures decides { NoneWaits kept.now.stages → node ≡ last_node (atom_at frame.now.atoms place).predicate
        → Decides frame.now.graph (over frame.now.graph frame.now.seen) (atom_at frame.now.atoms place).predicate result }
{
    frame.known();
    match kept.shown_witness(place) {
        None => true,
        Some(witness) => is_inside(witness, node),
    }
}

/// Whether it isn't known that no walk along the possibly present edges leads to the node from the first node of the atom at a
/// place.
fn is_possible(side: &EitherSide<PossibleRows>, frame: &Frame, place: u32, node: u32) -> bool
    requires right { IsEitherRight is_reach true true AreTargetsOf is_cut_off frame.now side.now }
    requires covered { AreCovered is_reach frame.now.atoms }
    requires place { place < length frame.now.atoms }
    ensures value { result ≡ possible_mark side.now (atom_at frame.now.atoms place).predicate place node }
    ensures fails { result ≡ false → (walk : List ℕ)
        → is_walk frame.now.graph (over frame.now.graph frame.now.seen) (first_node (atom_at frame.now.atoms place).predicate) node walk ≡ false }
    ensures decides { IsEitherDecided RowsStand frame.now side.now → node ≡ last_node (atom_at frame.now.atoms place).predicate
        → Decides frame.now.graph (over frame.now.graph frame.now.seen) (atom_at frame.now.atoms place).predicate result }
{
    match side {
        EitherSide::Rows(rows) => is_in_reach(rows, frame, place, node),
        EitherSide::Searches(kept) => is_uncut(kept, frame, place, node),
    }
}

impl HasMarks for GraphTheory<Reach, EitherSide<ReachedRows>, EitherSide<PossibleRows>> {
    ghost use Rattle.mono_theory.specs.Supports.{facts_in};
    ghost use Rattle.mono_reach.specs.Readings.{AreBothDecided, marks_at};

    ghost facts = { facts_in };

    ghost marks_of = { marks_at };

    ghost is_decided = { AreBothDecided };

    fn marks(&self, atom: u32, node: u32) -> Marks {
        let frame = self.frame();
        let place = frame.place_of(atom);
        let reached = is_reached(self.surely(), frame, place, node);
        let possible = is_possible(self.possibly(), frame, place, node);
        Marks {
            under: reached,
            over: possible,
        }
    }
}
