//! A board: rows of nodes, and edges between neighbours.

ghost use Rattle.std.specs.Prelude.{◌≡◌, ◌≤◌, ◌<◌, ◌*◌, ◌++◌, IfOk, OnOk, length};
ghost use Rattle.mono_gen.specs.Board.{node, edge_where, edges_from as edges_from_node, edges_of_row, edges_of, edge_count};

use std::alloc::{AllocError, Global};
use std::marker::Model;

/// From 2 to 100 rows of as many nodes, and an edge from each node to each of its neighbours.
///
/// Contracts see it as the number of its rows.
#[derive(Drop)]
pub(crate) struct Board {
    size: u32,
    edges: Vec<(u32, u32)>,
}

impl Model for Board {
    ghost use Rattle.std.specs.Prelude.{◌≡◌, ◌≤◌, ℕ};
    ghost use Rattle.mono_gen.specs.Board.{edges_of};

    ghost Value = { ℕ };

    ghost view = { λ board. board.size };

    ghost invariant = { λ board. (2 ≤ board.size) × (board.size ≤ 100) × (board.edges.items ≡ edges_of board.size) };
}

impl Board {
    /// The board of so many rows.
    pub(crate) fn new(alloc: Global, size: u32) -> Result<Board, AllocError>
        requires low { 2 ≤ size }
        requires high { size ≤ 100 }
        ensures { IfOk result (λ board. board ≡ size) }
    {
        let edges = edges_of(alloc, size)?;
        Ok(Board { size, edges })
    }

    /// How many rows there are, and how many nodes in each of them.
    pub(crate) fn size(&self) -> u32
        ensures value { result ≡ self.now }
        ensures low { 2 ≤ result }
        ensures high { result ≤ 100 }
    {
        self.size
    }

    /// How many nodes there are.
    pub(crate) fn node_count(&self) -> u32
        ensures value { result ≡ self.now * self.now }
        ensures some { 0 < result }
    {
        self.size * self.size
    }

    /// How many edges there are.
    pub(crate) fn edge_count(&self) -> u32
        ensures value { result ≡ edge_count self.now }
        ensures some { 0 < result }
        ensures within { result ≤ 39600 }
    {
        4 * self.size * (self.size - 1)
    }

    /// The edges, each by the node it comes from and the node it leads to: row by row, and in a row node by node.
    pub(crate) fn edges(&self) -> &[(u32, u32)]
        ensures value { result.now ≡ edges_of self.now }
        ensures few { length result.now ≤ 40000 }
    {
        self.edges.as_slice()
    }
}

/// The node in a row and a column, both from 0.
fn node(size: u32, row: u32, column: u32) -> u32
    requires size { size ≤ 100 }
    requires row { row ≤ 100 }
    requires column { column ≤ 100 }
    ensures { result ≡ node size row column }
{
    row * size + column
}

/// Appends the edge, where it exists.
fn push_where(
    edges: &mut Vec<(u32, u32)>,
    exists: bool,
    from: u32,
    to: u32,
) -> Result<(), AllocError>
    ensures { OnOk result (edges.new.items ≡ edges.old.items ++ edge_where exists from to) }
{
    if exists {
        edges.push((from, to))?;
    }
    Ok(())
}

/// The edges of a node: right, down, left and up.
fn push_edges_from(
    edges: &mut Vec<(u32, u32)>,
    size: u32,
    row: u32,
    column: u32,
) -> Result<(), AllocError>
    requires size { size ≤ 100 }
    requires row { row < size }
    requires column { column < size }
    ensures { OnOk result (edges.new.items ≡ edges.old.items ++ edges_from_node size row column) }
{
    let from = node(size, row, column);
    let left = column.saturating_sub(1);
    let above = row.saturating_sub(1);
    push_where(edges, column + 1 < size, from, node(size, row, column + 1))?;
    push_where(edges, row + 1 < size, from, node(size, row + 1, column))?;
    push_where(edges, column > 0, from, node(size, row, left))?;
    push_where(edges, row > 0, from, node(size, above, column))
}

fn push_row(edges: &mut Vec<(u32, u32)>, size: u32, row: u32) -> Result<(), AllocError>
    requires size { size ≤ 100 }
    requires row { row < size }
    ensures { OnOk result (edges.new.items ≡ edges.old.items ++ edges_of_row size row) }
{
    for column in 0..size {
        push_edges_from(edges, size, row, column)?;
    }
    Ok(())
}

/// The edges of the board, row by row.
fn edges_of(alloc: Global, size: u32) -> Result<Vec<(u32, u32)>, AllocError>
    requires { size ≤ 100 }
    ensures { IfOk result (λ edges. edges.items ≡ edges_of size) }
{
    let mut edges = Vec::new(alloc);
    for row in 0..size {
        push_row(&mut edges, size, row)?;
    }
    Ok(edges)
}
