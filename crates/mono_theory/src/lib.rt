//! Theories of predicates over one graph: what they answer, and all that they share (Bayless et al. 2015).
#![tactic(auto)]

/// What predicates ask for that ask for a walk.
mod asked;
/// What shows that a predicate holds or fails, as a lemma.
mod evidence;
/// A graph, atoms over it, and the literals that were seen.
mod frame;
/// Theories of one kind of predicate.
mod graph_theory;
/// The atoms that lose their support by a literal.
mod invalidation;
/// The evidence that is kept of atoms.
mod kept_evidence;
/// What is kept of each atom on one side.
mod kept_side;
/// What a kind of predicate supplies.
mod kind;
/// What holds of bounds and lemmas by their definitions.
pub mod laws;
/// Looking at the atoms that wait on one side.
mod looking;
/// Absent edges at the border of a set of nodes.
mod node_marks;
/// What the first literals seen show.
mod past;
/// Rows where they are few, and what searches found where they are many.
mod either_side;
/// Rows of the walks along the possibly present edges.
mod possible_rows;
/// Why a literal was forced.
mod question;
/// What is kept of searches along the edges of one side.
mod rows;
/// Rows and the literals that they are of.
mod rows_side;
/// Rows that show walks.
mod shows_walks;
/// What is kept of atoms on one side.
mod side;
/// What is known of an atom on one side.
mod stage;
/// The stages of the atoms, and which to look at next.
mod stages;
/// Rows along the surely present edges.
mod sure_rows;
/// What theories answer.
mod theory;
/// Open edges that would break an atom.
mod threat;
/// The edges that atoms would have present.
mod wanting;
/// An atom that watches an edge.
mod watch;
/// The atoms that watch each edge.
mod watchers;
/// Evidence from walks.
pub mod walks;
/// Rows of lemmas that were worked by hand.
pub mod worked;
/// Rows of definitions that were worked by hand.
pub mod worked_definitions;

pub use asked::{Asked, AsksWalk};
pub use either_side::EitherSide;
pub use evidence::{Evidence, literal, shown_by};
pub use frame::Frame;
pub use graph_theory::GraphTheory;
pub use kept_side::KeptSide;
pub use kind::Kind;
pub use node_marks::NodeMarks;
pub use possible_rows::PossibleRows;
pub use question::Question;
pub use rows::Rows;
pub use rows_side::RowsSide;
pub use shows_walks::ShowsWalks;
pub use side::{NewSide, Side};
pub use stage::Stage;
pub use sure_rows::SureRows;
pub use theory::{Finding, Force, Theory, UnitLemma};
pub use threat::Threat;
