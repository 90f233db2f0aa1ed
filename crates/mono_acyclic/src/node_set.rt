//! Sets of nodes, in the order in which they joined.

use std::alloc::{AllocError, Global};

/// A set of nodes. Which ones it has, no contract tells.
#[derive(Drop)]
pub(crate) struct NodeSet {
    /// By node: whether the set has it.
    marks: Vec<bool>,
    /// The nodes of the set.
    nodes: Vec<u32>,
}

/// No node is marked any more.
fn unmark(marks: &mut Vec<bool>, nodes: &[u32]) {
    for node in nodes {
        if (*node as usize) < marks.len() {
            marks[*node as usize] = false;
        }
    }
}

impl NodeSet {
    /// No node, of so many.
    pub(crate) fn new(alloc: Global, count: u32) -> Result<NodeSet, AllocError> {
        Ok(NodeSet {
            marks: vec![in alloc; false; count as usize]?,
            nodes: Vec::new(alloc),
        })
    }

    /// The node joins, where it isn't there yet.
    pub(crate) fn insert(&mut self, node: u32) -> Result<(), AllocError> {
        let place = node as usize;
        if place >= self.marks.len() || self.marks[place] {
            return Ok(());
        }
        self.nodes.push(node)?;
        self.marks[place] = true;
        Ok(())
    }

    /// Whether the node is there.
    pub(crate) fn has(&self, node: u32) -> bool {
        let place = node as usize;
        place < self.marks.len() && self.marks[place]
    }

    /// The node that joined after so many others.
    pub(crate) fn get(&self, index: usize) -> Option<u32> {
        if index < self.nodes.len() {
            return Some(self.nodes[index]);
        }
        None
    }

    /// All nodes leave.
    pub(crate) fn clear(&mut self) {
        unmark(&mut self.marks, &self.nodes);
        self.nodes.clear();
    }
}
