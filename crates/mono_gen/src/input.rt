//! Draws, and the whole text.

ghost use Rattle.std.specs.Prelude.{◌≡◌, ◌≤◌, ◌<◌, ◌+◌, ◌++◌, ◌∷◌, [], pos, neg_ℤ, if◌then◌else◌, IfOk, OnOk, None, length};
ghost use Rattle.mono_gnf.specs.Faults.{first_fault};
ghost use Rattle.mono_gen.specs.Lines.{clause};
ghost use Rattle.mono_gen.specs.Draws.{after, draw};
ghost use Rattle.mono_base.specs.declared.limits.TheConstants.{MAX_VARS};
ghost use Rattle.mono_gen.specs.Generated.{board_line, head_text, edges_text, walk_line, cross_line, flow_line, drawn_literal, drawn_clause, drawn_clauses, grid_text, leads_out, wall_clauses, wall_text, generated};

use crate::board::Board;
use crate::kind::GenKind;
use mono_base::Lit;
use mono_gnf::push_clause;
use mono_text::push_line;
use rand_core::utils::NextWord;
use rand_pcg::Lcg64Xsh32;
use std::alloc::{AllocError, Global};

/// A draw below a number takes the generator's next word.
fn draw(words: &mut Lcg64Xsh32, below: u32) -> u32
    requires { 0 < below }
    ensures value { result ≡ draw below words.old }
    ensures within { result < below }
    ensures next { words.new ≡ after 1 words.old }
{
    words.next_word() % below
}

fn push_board(out: &mut Vec<u8>, board: &Board) -> Result<(), AllocError>
    ensures { OnOk result (out.new.items ≡ out.old.items ++ board_line board.now) }
{
    let nodes = u64::from(board.node_count());
    let edges = u64::from(board.edge_count());
    push_line(out, b"digraph int", &[nodes, edges, 0])
}

/// A new text that begins with the header and the board.
fn head(alloc: Global, board: &Board, vars: u32, clauses: u32) -> Result<Vec<u8>, AllocError>
    ensures { IfOk result (λ text. text.items ≡ head_text board.now vars clauses) }
{
    let mut out = Vec::new(alloc);
    push_line(&mut out, b"p gnf", &[u64::from(vars), u64::from(clauses)])?;
    push_board(&mut out, board)?;
    Ok(out)
}

/// The lines of the edges, whose weights are drawn in this order.
fn push_edges(
    out: &mut Vec<u8>,
    edges: &[(u32, u32)],
    words: &mut Lcg64Xsh32,
) -> Result<(), AllocError>
    ensures text { OnOk result (out.new.items ≡ out.old.items ++ edges_text edges.now words.old) }
    ensures next { OnOk result (words.new ≡ after (length edges.now) words.old) }
{
    for place in 0..edges.len() {
        let (from, to) = edges[place];
        let weight = 1 + draw(words, 9);
        push_line(
            out,
            b"edge",
            &[
                0,
                u64::from(from),
                u64::from(to),
                place as u64 + 1,
                u64::from(weight),
            ],
        )?;
    }
    Ok(())
}

/// A variable of one of the edges.
fn draw_variable(words: &mut Lcg64Xsh32, edges: u32) -> Lit
    requires some { 0 < edges }
    requires few { edges ≤ MAX_VARS }
    ensures value { result ≡ pos (1 + draw edges words.old) }
    ensures next { words.new ≡ after 1 words.old }
{
    Lit::of(1 + draw(words, edges), true)
}

/// A variable of one of the edges, and its sign.
fn draw_literal(words: &mut Lcg64Xsh32, edges: u32) -> Lit
    requires some { 0 < edges }
    requires few { edges ≤ MAX_VARS }
    ensures value { result ≡ drawn_literal edges words.old }
    ensures next { words.new ≡ after 2 words.old }
{
    let variable = draw_variable(words, edges);
    if draw(words, 2) == 1 {
        variable.negated()
    } else {
        variable
    }
}

fn three(first: Lit, second: Lit, third: Lit) -> [Lit; 3]
    ensures { result ≡ first ∷ second ∷ third ∷ [] }
{
    [first, second, third]
}

fn draw_clause(words: &mut Lcg64Xsh32, edges: u32) -> [Lit; 3]
    requires some { 0 < edges }
    requires few { edges ≤ MAX_VARS }
    ensures value { result ≡ drawn_clause edges words.old }
    ensures next { words.new ≡ after 5 words.old }
{
    let first = draw_variable(words, edges);
    let second = draw_literal(words, edges);
    let third = draw_literal(words, edges);
    three(first, second, third)
}

fn push_drawn_clauses(
    out: &mut Vec<u8>,
    words: &mut Lcg64Xsh32,
    edges: u32,
    count: u32,
) -> Result<(), AllocError>
    requires some { 0 < edges }
    requires few { edges ≤ MAX_VARS }
    ensures { OnOk result (out.new.items ≡ out.old.items ++ drawn_clauses edges words.old count) }
{
    for _done in 0..count {
        let lits = draw_clause(words, edges);
        push_clause(out, &lits)?;
    }
    Ok(())
}

/// The walk from the first to the last node.
fn push_walk(out: &mut Vec<u8>, board: &Board) -> Result<(), AllocError>
    ensures { OnOk result (out.new.items ≡ out.old.items ++ walk_line board.now) }
{
    let nodes = u64::from(board.node_count());
    let edges = u64::from(board.edge_count());
    push_line(out, b"reach", &[0, 0, nodes - 1, edges + 1])
}

/// The walk from the last column of the first row to the first column of the last.
fn push_cross_walk(out: &mut Vec<u8>, board: &Board) -> Result<(), AllocError>
    ensures { OnOk result (out.new.items ≡ out.old.items ++ cross_line board.now) }
{
    let side = u64::from(board.size());
    let edges = u64::from(board.edge_count());
    push_line(out, b"reach", &[0, side - 1, side * side - side, edges + 2])
}

/// The flow of 2 from the first to the last node.
fn push_flow(out: &mut Vec<u8>, board: &Board) -> Result<(), AllocError>
    ensures { OnOk result (out.new.items ≡ out.old.items ++ flow_line board.now) }
{
    let nodes = u64::from(board.node_count());
    let edges = u64::from(board.edge_count());
    push_line(out, b"maximum_flow_geq", &[0, 0, nodes - 1, edges + 3, 2])
}

/// The clause of a predicate's variable.
fn push_unit(out: &mut Vec<u8>, variable: u32) -> Result<(), AllocError>
    requires low { 0 < variable }
    requires high { variable ≤ MAX_VARS }
    ensures { OnOk result (out.new.items ≡ out.old.items ++ clause (pos variable ∷ [])) }
{
    push_clause(out, &[Lit::of(variable, true)])
}

/// The predicates of a grid.
fn push_predicates(out: &mut Vec<u8>, board: &Board) -> Result<(), AllocError>
    ensures { OnOk result (out.new.items ≡ out.old.items ++ walk_line board.now ++ cross_line board.now ++ flow_line board.now) }
{
    push_walk(out, board)?;
    push_cross_walk(out, board)?;
    push_flow(out, board)
}

/// The clauses of the predicates of a grid.
fn push_units(out: &mut Vec<u8>, edges: u32) -> Result<(), AllocError>
    requires { edges ≤ 39600 }
    ensures { OnOk result (out.new.items
        ≡ out.old.items ++ clause (pos (edges + 1) ∷ []) ++ clause (pos (edges + 2) ∷ []) ++ clause (pos (edges + 3) ∷ [])) }
{
    push_unit(out, edges + 1)?;
    push_unit(out, edges + 2)?;
    push_unit(out, edges + 3)
}

fn grid(alloc: Global, board: &Board, words: &mut Lcg64Xsh32) -> Result<Vec<u8>, AllocError>
    ensures { IfOk result (λ text. text.items ≡ grid_text board.now words.old) }
{
    let size = board.size();
    let count = board.edge_count();
    let clauses = 4 * size * size;
    let mut out = head(alloc, board, count + 3, clauses)?;
    push_edges(&mut out, board.edges(), words)?;
    push_predicates(&mut out, board)?;
    push_units(&mut out, count)?;
    push_drawn_clauses(&mut out, words, count, clauses - 3)?;
    Ok(out)
}

/// The clauses of the edges from a column to the next: each edge is absent.
fn push_wall_clauses(
    out: &mut Vec<u8>,
    size: u32,
    column: u32,
    edges: &[(u32, u32)],
) -> Result<(), AllocError>
    requires low { 2 ≤ size }
    requires column { column < size }
    requires few { length edges.now ≤ MAX_VARS }
    ensures { OnOk result (out.new.items ≡ out.old.items ++ wall_clauses size column edges.now) }
{
    for place in 0..edges.len() {
        push_wall_clause(out, size, column, edges[place], place)?;
    }
    Ok(())
}

/// The clause of the edge at a place, if it leads from the column to the next.
fn push_wall_clause(
    out: &mut Vec<u8>,
    size: u32,
    column: u32,
    edge: (u32, u32),
    place: usize,
) -> Result<(), AllocError>
    requires low { 2 ≤ size }
    requires column { column < size }
    requires place { place < MAX_VARS }
    ensures { OnOk result (out.new.items
        ≡ out.old.items ++ (if leads_out size column edge then clause (neg_ℤ (pos (place + 1)) ∷ []) else [])) }
{
    if edge.0 % size == column && edge.1 % size == column + 1 {
        push_clause(out, &[Lit::of(place as u32 + 1, false)])?;
    }
    Ok(())
}

fn wall(alloc: Global, board: &Board, words: &mut Lcg64Xsh32) -> Result<Vec<u8>, AllocError>
    ensures { IfOk result (λ text. text.items ≡ wall_text board.now words.old) }
{
    let size = board.size();
    let count = board.edge_count();
    let mut out = head(alloc, board, count + 1, size + 1)?;
    push_edges(&mut out, board.edges(), words)?;
    let column = draw(words, size - 1);
    push_walk(&mut out, board)?;
    push_unit(&mut out, count + 1)?;
    push_wall_clauses(&mut out, size, column, board.edges())?;
    Ok(out)
}

fn text_of(alloc: Global, kind: GenKind, size: u32, seed: u64) -> Result<Vec<u8>, AllocError>
    requires low { 2 ≤ size }
    requires high { size ≤ 100 }
    ensures { IfOk result (λ text. text.items ≡ generated kind size seed) }
{
    let board = Board::new(alloc, size)?;
    let mut words = Lcg64Xsh32::new(seed, 0);
    match kind {
        GenKind::Grid => grid(alloc, &board, &mut words),
        GenKind::Wall => wall(alloc, &board, &mut words),
    }
}

/// The text of the input of a kind, a size from 2 to 100 and a seed. The same three give the same text everywhere, and it
/// is an input without a fault.
///
/// The size is the number of rows, and of nodes in each of them. An edge leads from each node to each of its neighbours.
pub fn generate(alloc: Global, kind: GenKind, size: u32, seed: u64) -> Result<Vec<u8>, AllocError>
    requires low { 2 ≤ size }
    requires high { size ≤ 100 }
    ensures text { IfOk result (λ text. text.items ≡ generated kind size seed) }
    ensures no_fault { IfOk result (λ text. first_fault text.items ≡ None) }
{
    let text = text_of(alloc, kind, size, seed)?;
    Ok(text)
}
