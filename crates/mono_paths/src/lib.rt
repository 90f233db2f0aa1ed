//! Walks in graphs: finding one, or what shows that there is none, and testing either.
#![tactic(auto)]

/// One search for all that is asked of one node.
mod asked;
/// Tests that keep their room.
mod checker;
/// Sets of nodes that no walk leaves.
mod cut;
/// What a search gives.
mod find;
/// Searches that keep their room.
mod finder;
/// Labels that bound what walks cost.
mod labelling;
/// Labels of a search.
mod labels;
/// What was found decides.
pub mod laws;
/// What of a walk is bounded.
mod measure;
/// Walks within a limit.
mod path;
/// Visits that wait to be taken by cost.
mod queue;
/// Searches that lower labels.
mod search;
/// Labels that are lowered along the edges.
mod spread;
/// Labels by node, as a list gives them.
mod table;
/// Nodes that are asked for.
mod target;
/// Visits, and the walks that they make.
mod visit;
/// Which visit is taken next.
mod waiting;
/// What the words of contracts make of small graphs.
pub mod worked;

pub use checker::{WalkChecker, is_cut, is_labelling};
pub use find::{PathOrCut, PathOrLabels};
pub use finder::{WalkFinder, find_light, find_path};
pub use measure::Measure;
pub use mono_graph::{Label, Limit};
pub use path::is_path;
pub use target::Target;
