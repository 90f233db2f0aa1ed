//! Spanning trees of parts of a graph, and what shows that there is none, or none that light.
#![tactic(auto)]

/// Tests, with room that is kept between them.
mod checker;
/// The components that edges form.
mod components;
/// An order of edges that is kept from search to search.
mod edge_order;
/// The search for a light tree.
mod finder;
/// Forests of light edges.
mod forest;
/// What a search decides.
pub mod laws;
/// What makes a tree a least one.
mod least;
/// Edges from the lightest to the heaviest.
mod order;
/// What makes edges a light spanning tree.
mod spanning;
/// The test of splits.
mod split;
/// The absent edges that would make a tree lighter.
mod unbridged;
/// What the words of contracts make of small graphs.
pub mod worked;

pub use checker::{TreeChecker, is_least, is_split, is_tree};
pub use finder::{TreeFinder, TreeFound, find_tree};
