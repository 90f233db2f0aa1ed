//! What a theory of distances knows of a node.

ghost use Rattle.std.specs.Prelude.{◌≡◌, ◌<◌, ◌≤◌, ◌==◌, ◌&&◌, None, Some, false, true, length, IfSome, IsTrue, MatchOption, if◌then◌else◌};
ghost use Rattle.mono_graph.specs.Walks.{admits, bound_of};
ghost use Rattle.mono_dynamic.specs.LeastRows.{costs_at};
ghost use Rattle.mono_paths.specs.Found.{HasBound};
ghost use Rattle.mono_problem.specs.Quiet.{over, under};
ghost use Rattle.mono_theory.specs.Evidences.{Decides};
ghost use Rattle.mono_theory.specs.PossibleRows.{AreTargetsOf, RowsStand, is_cut_off};
ghost use Rattle.mono_theory.specs.RowSides.{AreRowsFor, AreUpToDate};
ghost use Rattle.mono_theory.specs.Sound.{evidence_at};
ghost use Rattle.mono_theory.specs.Stages.{NoneWaits, shows, stage_at};
ghost use Rattle.mono_theory.specs.Supports.{atom_at, IsSideFor};
ghost use Rattle.mono_distance.specs.Distances.{is_distance, predicate_of};
ghost use Rattle.mono_distance.specs.Labels.{entry_in, value_by};
ghost use Rattle.mono_distance.specs.Readings.{above, bound_number, over_at, over_by as over_by_of, over_known as over_known_of, over_of, under_at, under_in, IsBelowEachWalk, IsPossiblyDecided, IsPossiblyRight, IsReached, IsRightSide};
ghost use Rattle.mono_theory.specs.SureRows.{row_of_atom};
ghost use Rattle.mono_distance.specs.SureLabels.{last_node, limit_of, under_label, AreLabelsAfter};

use crate::distance::{Distance, what_is_asked};
use crate::label_table::others_of;
use crate::least_rows::LeastRows;
use mono_graph::{Label, Limit};
use mono_steps::Witness;
use mono_theory::{Asked, EitherSide, Frame, GraphTheory, KeptSide, PossibleRows, Rows, RowsSide};

/// What a theory knows of a node, for one of its atoms.
#[derive(Clone, Copy, Debug, PartialEq, Eq)]
pub struct Labels {
    /// What a walk along the surely present edges costs at most from the atom's first node to the node, as far as one within
    /// the atom's bound is known. Where rows of labels are kept, it is what the cheapest walk costs along the edges of the
    /// literals that were looked at. A literal is looked at with the next question what is forced, and what it brings isn't
    /// known before that. Where rows would be too many, the label is known of the atom's last node alone, and is the bound.
    pub under: Option<u64>,
    /// What each walk along the possibly present edges costs at least, as far as it is known: at most one more than the
    /// bound. Where rows of the possibly present edges are kept, since many atoms have one first node, it is known of the
    /// atom's last node alone whether it is one more than the bound.
    pub over: u64,
}

/// A theory that knows of nodes what walks to them cost.
///
/// Neither label changes by `assign` or `explain`. After a `force` or `propagate` that answered Quiet, the labels of an
/// atom's last node decide: the atom's predicate holds with the surely present edges exactly where `under` is there, and with
/// the possibly present ones exactly where `over` is within the bound.
pub trait HasLabels {
    ghost use Rattle.std.specs.Option.{is_some};
    ghost use Rattle.std.specs.Prelude.{◌≡◌, ◌<◌, ℕ, IfSome, IsSome, MatchOption};
    ghost use Rattle.mono_problem.specs.Quiet.{under, over};
    ghost use Rattle.mono_theory.specs.Evidences.{Decides};
    ghost use Rattle.mono_theory.specs.Theories.{Facts, atom_of};
    ghost use Rattle.mono_distance.specs.Readings.{IsReached, IsBelowEachWalk};
    ghost use Rattle.mono_graph.specs.Walks.{admits};
    ghost use Rattle.mono_distance.specs.SureLabels.{last_node, limit_of};
    ghost use Rattle.mono_distance.specs.declared.node_labels.Labels.{Labels};

    /// The graph, the atoms and the literals seen.
    ghost facts: { Self → Facts };
    /// What is known of a node, for the atom of a number.
    ghost labels_of: { Self → ℕ → ℕ → Labels };
    /// What is kept decides each predicate.
    ghost is_decided: { Self → Type 0 };

    /// What is known of the node, for the theory's atom of this number. The node is one of the graph. It asks for no search.
    fn labels(&self, atom: u32, node: u32) -> Labels
        requires owned { IsSome (atom_of (facts self.now).atoms atom) }
        requires node { node < (facts self.now).graph.nodes }
        ensures value { result ≡ labels_of self.now atom node }
        ensures under { IfSome result.under (λ d. MatchOption (atom_of (facts self.now).atoms atom) ⊥
            (λ x. IsReached (facts self.now).graph (under (facts self.now).graph (facts self.now).seen) x.predicate node d)) }
        ensures over { MatchOption (atom_of (facts self.now).atoms atom) ⊥
            (λ x. IsBelowEachWalk (facts self.now).graph (over (facts self.now).graph (facts self.now).seen) x.predicate node result.over) }
        ensures decided_under { is_decided self.now
            → MatchOption (atom_of (facts self.now).atoms atom) ⊥ (λ x. node ≡ last_node x.predicate
            → Decides (facts self.now).graph (under (facts self.now).graph (facts self.now).seen) x.predicate (is_some result.under)) }
        ensures decided_over { is_decided self.now
            → MatchOption (atom_of (facts self.now).atoms atom) ⊥ (λ x. node ≡ last_node x.predicate
            → Decides (facts self.now).graph (over (facts self.now).graph (facts self.now).seen) x.predicate
            (admits (limit_of x.predicate) result.over)) };
}

/// The label of a node in a list, and this one where it isn't listed.
fn label_in(labels: &[Label], others: u64, node: u32) -> u64
    ensures { result ≡ value_by others (entry_in labels.now node) }
{
    for label in labels {
        if label.node == node {
            return label.value;
        }
    }
    others
}

/// The label of a node by a witness against a predicate, up to one more than the bound of the limit.
fn over_by(witness: Option<&Witness>, limit: Limit, node: u32) -> u64
    requires { HasBound limit }
    ensures { MatchOption witness.entry (result ≡ 0) (λ w. result ≡ over_by_of limit node w.now) }
{
    match witness {
        Some(Witness::Label(labels)) => {
            let others = others_of(limit);
            label_in(labels.as_slice(), others, node).min(others)
        }
        _ => 0,
    }
}

/// The bound of a limit to which some walk keeps.
fn number_of(limit: Limit) -> u64
    requires { HasBound limit }
    ensures { result ≡ bound_number (bound_of limit) }
{
    match limit {
        Limit::Free => unreachable!(),
        Limit::Steps(most) => most.max(0) as u64,
        Limit::Weight(most) => most.max(0) as u64,
    }
}

/// A label, where it is within the bound of the limit.
fn where_within(label: u64, limit: Limit) -> Option<u64>
    ensures { result ≡ (if admits limit label then Some label else None) }
{
    if limit.admits(label as u128) {
        Some(label)
    } else {
        None
    }
}

/// The label of a node in the row of the atom at a place.
fn row_label(rows: &LeastRows, place: usize, node: u32) -> u64
    requires place { place < length rows.now.row_of }
    requires row { row_of_atom rows.now place < length rows.now.rows }
    requires node { node < length (costs_at rows.now.rows (row_of_atom rows.now place)).labels }
    ensures { result ≡ under_label rows.now place node }
{
    rows.row(place).label(node)
}

/// What rows have of a node for the atom at a place.
fn under_by_rows(
    rows: &LeastRows,
    frame: &Frame,
    looked: usize,
    place: u32,
    asked: Asked,
    node: u32,
) -> Option<u64>
    requires right { AreLabelsAfter frame.now looked rows.now }
    requires looked { looked ≤ length frame.now.seen }
    requires place { place < length frame.now.atoms }
    requires asked { (atom_at frame.now.atoms place).predicate ≡ predicate_of asked.from asked.to asked.limit }
    requires node { node < frame.now.graph.nodes }
    ensures value { result ≡ under_at rows.now place (atom_at frame.now.atoms place).predicate node }
    ensures reached { IfSome result (IsReached frame.now.graph (under frame.now.graph frame.now.seen) (atom_at frame.now.atoms place).predicate node) }
{
    frame.known();
    let _ = looked;
    let label = row_label(rows, place as usize, node);
    where_within(label, asked.limit)
}

/// What searches found of a node for the atom at a place: of its last node alone, that a walk within the limit leads there.
fn under_by_searches(
    kept: &KeptSide,
    frame: &Frame,
    place: u32,
    asked: Asked,
    node: u32,
) -> Option<u64>
    requires right { IsSideFor frame.now false true kept.now }
    requires place { place < length frame.now.atoms }
    requires kind { IsTrue (is_distance (atom_at frame.now.atoms place).predicate) }
    requires asked { (atom_at frame.now.atoms place).predicate ≡ predicate_of asked.from asked.to asked.limit }
    requires limit { HasBound asked.limit }
    ensures value { result ≡ (if node == asked.to && shows (stage_at kept.now.stages place) then Some (bound_number (bound_of asked.limit)) else None) }
    ensures reached { IfSome result (IsReached frame.now.graph (under frame.now.graph frame.now.seen) (atom_at frame.now.atoms place).predicate node) }
{
    if node != asked.to {
        return None;
    }
    match kept.shown_witness(place) {
        Some(_) => Some(number_of(asked.limit)),
        None => None,
    }
}

/// What is kept of a node with the surely present edges, for the atom at a place.
fn under_by(
    side: &EitherSide<LeastRows>,
    frame: &Frame,
    place: u32,
    asked: Asked,
    node: u32,
) -> Option<u64>
    requires right { IsRightSide frame.now side.now }
    requires place { place < length frame.now.atoms }
    requires kind { IsTrue (is_distance (atom_at frame.now.atoms place).predicate) }
    requires asked { (atom_at frame.now.atoms place).predicate ≡ predicate_of asked.from asked.to asked.limit }
    requires limit { HasBound asked.limit }
    requires node { node < frame.now.graph.nodes }
    ensures value { result ≡ under_in side.now place (atom_at frame.now.atoms place).predicate node }
    ensures reached { IfSome result (IsReached frame.now.graph (under frame.now.graph frame.now.seen) (atom_at frame.now.atoms place).predicate node) }
{
    match side {
        EitherSide::Rows(kept) => {
            under_by_rows(kept.rows(), frame, kept.looked(), place, asked, node)
        }
        EitherSide::Searches(kept) => under_by_searches(kept, frame, place, asked, node),
    }
}

/// The label of a last node: one more than the bound where no walk within it leads there.
fn over_where(cut_off: bool, limit: Limit) -> u64
    requires { HasBound limit }
    ensures { result ≡ (if cut_off then above (bound_of limit) else 0) }
{
    if cut_off { others_of(limit) } else { 0 }
}

/// What rows tell of a node with the possibly present edges, for the atom at a place: of its last node alone, that no walk within
/// the bound leads there.
fn over_by_rows(
    side: &RowsSide<PossibleRows>,
    frame: &Frame,
    place: u32,
    asked: Asked,
    node: u32,
) -> u64
    requires right { AreRowsFor is_distance true AreTargetsOf is_cut_off frame.now side.now }
    requires place { place < length frame.now.atoms }
    requires asked { (atom_at frame.now.atoms place).predicate ≡ predicate_of asked.from asked.to asked.limit }
    requires limit { HasBound asked.limit }
    ensures value { result ≡ over_at side.now.rows place (atom_at frame.now.atoms place).predicate node }
    ensures below { IsBelowEachWalk frame.now.graph (over frame.now.graph frame.now.seen) (atom_at frame.now.atoms place).predicate node result }
    ensures decides { AreUpToDate RowsStand frame.now side.now → node ≡ last_node (atom_at frame.now.atoms place).predicate
        → Decides frame.now.graph (over frame.now.graph frame.now.seen) (atom_at frame.now.atoms place).predicate
        (admits (limit_of (atom_at frame.now.atoms place).predicate) result) }
{
    frame.known();
    if node != asked.to {
        return 0;
    }
    let looked = side.looked();
    let rows = side.rows();
    let cut_off = <PossibleRows as Rows<Distance>>::shows(rows, frame, looked, place as usize);
    over_where(cut_off, asked.limit)
}

/// What searches found of a node with the possibly present edges, for the atom at a place.
fn over_by_searches(kept: &KeptSide, frame: &Frame, place: u32, asked: Asked, node: u32) -> u64
    requires right { IsSideFor frame.now true true kept.now }
    requires place { place < length frame.now.atoms }
    requires kind { IsTrue (is_distance (atom_at frame.now.atoms place).predicate) }
    requires asked { (atom_at frame.now.atoms place).predicate ≡ predicate_of asked.from asked.to asked.limit }
    requires limit { HasBound asked.limit }
    ensures value { result
        ≡ over_of (limit_of (atom_at frame.now.atoms place).predicate) node (stage_at kept.now.stages place) (evidence_at kept.now.shown place) }
    ensures below { IsBelowEachWalk frame.now.graph (over frame.now.graph frame.now.seen) (atom_at frame.now.atoms place).predicate node result }
    ensures decides { NoneWaits kept.now.stages → node ≡ last_node (atom_at frame.now.atoms place).predicate
        → Decides frame.now.graph (over frame.now.graph frame.now.seen) (atom_at frame.now.atoms place).predicate
        (admits (limit_of (atom_at frame.now.atoms place).predicate) result) }
{
    frame.known();
    let witness = kept.shown_witness(place);
    over_by(witness, asked.limit, node)
}

/// What is kept of a node with the possibly present edges, for the atom at a place.
fn over_known(
    side: &EitherSide<PossibleRows>,
    frame: &Frame,
    place: u32,
    asked: Asked,
    node: u32,
) -> u64
    requires right { IsPossiblyRight frame.now side.now }
    requires place { place < length frame.now.atoms }
    requires kind { IsTrue (is_distance (atom_at frame.now.atoms place).predicate) }
    requires asked { (atom_at frame.now.atoms place).predicate ≡ predicate_of asked.from asked.to asked.limit }
    requires limit { HasBound asked.limit }
    ensures value { result ≡ over_known_of side.now place (atom_at frame.now.atoms place).predicate node }
    ensures below { IsBelowEachWalk frame.now.graph (over frame.now.graph frame.now.seen) (atom_at frame.now.atoms place).predicate node result }
    ensures decides { IsPossiblyDecided frame.now side.now → node ≡ last_node (atom_at frame.now.atoms place).predicate
        → Decides frame.now.graph (over frame.now.graph frame.now.seen) (atom_at frame.now.atoms place).predicate
        (admits (limit_of (atom_at frame.now.atoms place).predicate) result) }
{
    match side {
        EitherSide::Rows(rows) => over_by_rows(rows, frame, place, asked, node),
        EitherSide::Searches(kept) => over_by_searches(kept, frame, place, asked, node),
    }
}

impl HasLabels for GraphTheory<Distance, EitherSide<LeastRows>, EitherSide<PossibleRows>> {
    ghost use Rattle.mono_theory.specs.Supports.{facts_in};
    ghost use Rattle.mono_distance.specs.Readings.{AreBothDecided, labels_in};

    ghost facts = { facts_in };

    ghost labels_of = { labels_in };

    ghost is_decided = { AreBothDecided };

    fn labels(&self, atom: u32, node: u32) -> Labels {
        let frame = self.frame();
        frame.known();
        let place = frame.place_of(atom);
        let surely = self.surely();
        let possibly = self.possibly();
        let held = frame.atom_at(place as usize);
        let asked = what_is_asked(held.predicate);
        Labels {
            under: under_by(surely, frame, place, asked, node),
            over: over_known(possibly, frame, place, asked, node),
        }
    }
}
