//! Inputs for teams.

use mono_base::limits::MAX_LITERALS;
use mono_text::push_natural;
use rand_core::utils::NextWord;
use rand_pcg::Lcg64Xsh32;
use std::alloc::{AllocError, Global};

/// All clauses over three variables, of 24 literals, and two edges in a row with what they lead to.
const EIGHT: &[u8] =
    b"1 2 3 0\n1 2 -3 0\n1 -2 3 0\n1 -2 -3 0\n-1 2 3 0\n-1 2 -3 0\n-1 -2 3 0\n-1 -2 -3 0\n";

/// A graph of four nodes whose edges have the variables 1 to 4; 7 and 8 say whether they lead on.
const GRAPH: &[u8] =
    b"digraph int 4 4 0\nedge 0 0 1 1\nedge 0 1 3 2\nedge 0 0 2 3\nedge 0 2 3 4\nreach 0 0 3 7\ndistance_leq 0 0 3 8 2\n";

/// The eight clauses, and one that repeats its only literal until there are as many as an input may have.
pub fn full_input(alloc: Global) -> Result<Vec<u8>, AllocError> {
    let mut text = Vec::from_slice(alloc, EIGHT)?;
    for _ in 24..MAX_LITERALS {
        text.extend_from_slice(b"4 ")?;
    }
    text.extend_from_slice(b"0\n")?;
    Ok(text)
}

/// Adds a drawn literal of the first eight variables.
fn push_literal(text: &mut Vec<u8>, words: &mut Lcg64Xsh32) -> Result<(), AllocError> {
    if words.next_word() % 2 == 0 {
        text.push(b'-')?;
    }
    push_natural(text, u64::from(words.next_word() % 8 + 1))?;
    text.push(b' ')?;
    Ok(())
}

/// Adds a drawn clause of three literals.
fn push_clause(text: &mut Vec<u8>, words: &mut Lcg64Xsh32) -> Result<(), AllocError> {
    for _ in 0..3 {
        push_literal(text, words)?;
    }
    text.extend_from_slice(b"0\n")?;
    Ok(())
}

/// A small graph with two predicates, and 28 to 43 drawn clauses.
pub fn drawn_clauses(alloc: Global, words: &mut Lcg64Xsh32) -> Result<Vec<u8>, AllocError> {
    let mut text = Vec::from_slice(alloc, GRAPH)?;
    for _ in 0..28 + words.next_word() % 16 {
        push_clause(&mut text, words)?;
    }
    Ok(text)
}
