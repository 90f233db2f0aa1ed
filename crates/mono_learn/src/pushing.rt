//! The last step of an analysis: its chain joins the journal.

ghost use Rattle.std.specs.Prelude.{◌≡◌, OnErr, IfOk, IsTrue};
ghost use Rattle.mono_steps.specs.ChainSteps.{names_vars};
ghost use Rattle.mono_steps.specs.New.{IsExactEnd};
ghost use Rattle.mono_steps.specs.Steps.{clauses_after, are_justified};
ghost use Rattle.mono_learn.specs.Asked.{AddsChains, PushesChain};

use mono_base::Row;
use mono_problem::Problem;
use mono_steps::{Chain, Clause, Journal};
use std::alloc::AllocError;

/// The chain that names these clauses joins the journal, with the clause that is exactly its end. This is its number.
pub(crate) fn push_end(
    problem: &Problem,
    journal: &mut Journal,
    clause: Clause,
    used: Vec<u64>,
) -> Result<u64, AllocError>
    requires vars { IsTrue (names_vars problem.now clause) }
    requires exact { IsExactEnd (clauses_after problem.now journal.old) (record { clause = clause; used = used.items }) }
    ensures pushes { IfOk result (λ n. PushesChain problem.now journal.old journal.new clause n) }
    ensures keeps { IsTrue (are_justified problem.now journal.old) → IsTrue (are_justified problem.now journal.new) }
    ensures grows { AddsChains journal.old journal.new }
    ensures err { OnErr result (journal.new ≡ journal.old) }
{
    let chain = Chain {
        clause,
        used: Row::from_vec(used),
    };
    let number = journal.push_chain(problem, chain)?;
    Ok(number)
}
