//! Walks in graphs that lost edges, mended near the gap.
#![tactic(auto)]

/// Nodes from which a search may go on.
mod frontier;
/// Two searches that grow towards each other.
mod growth;
/// A search for a walk that landmarks guide.
mod guide;
/// How far nodes are from a few nodes that lie far apart.
mod landmarks;
/// Searches that keep their room.
mod mender;
/// Walks some of whose edges are gone.
mod torn_walk;
/// How a search reaches a node.
mod way;

pub use mender::WalkMender;
