//! Rounds of decisions, propagations and backjumps over made clauses: what `bench/propagation` measures.
//!
//! The arguments are the kind of the clauses, from 0 to 5, and how many rounds there are. What was done is printed, so that
//! another program which makes the same clauses and rounds can be compared.
#![tactic(auto)]

/// Clauses join the store.
mod joining;
/// Clauses and kinds of them.
mod making;
/// Rounds.
mod rounds;

use mono_clauses::ClauseStore;
use mono_trail::Trail;
use std::env;

fn main(rt: HostRuntime) -> anyhow::Result<()> {
    let mut words = env::args(&rt)?;
    let _ = words.next();
    let kind = making::kind_of(number(words.next()));
    let count = number(words.next());
    let alloc = rt.alloc();
    let mut trail = Trail::new(alloc, kind.vars)?;
    let mut store = ClauseStore::new(alloc, kind.vars)?;
    mono_clauses::laws::a_new_store_follows();
    joining::join_all(alloc, &mut store, &trail, &kind)?;
    let tally = rounds::run(alloc, &mut store, &mut trail, &kind, count)?;
    println!(rt;
        "given {} decisions {} conflicts {} full {} sum {}",
        tally.given, tally.decisions, tally.conflicts, tally.full, tally.sum
    )?;
    Ok(())
}

/// The number that a word is, or 0.
fn number(word: Option<String>) -> u64 {
    match word {
        None => 0,
        Some(word) => word.parse().unwrap_or(0),
    }
}
