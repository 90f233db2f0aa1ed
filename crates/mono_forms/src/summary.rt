//! The summary of a generated input that was solved.

ghost use Rattle.std.specs.Prelude.{◌≡◌, ◌++◌, ◌∷◌, [], IfOk, OnOk, codes, decimal};
ghost use Rattle.mono_text.specs.Text.{spaced};
ghost use Rattle.mono_problem.specs.WellFormed.{IsInstance};
ghost use Rattle.mono_words.specs.declared.command.TheConstants.{DEFAULT_BUDGET};
ghost use Rattle.mono_answer.specs.Printed.{answer_text};
ghost use Rattle.mono_forms.specs.Endings.{result_word as word_of, summary_text, progress_text, verdict_text as text_of_verdict};
ghost use Rattle.mono_forms.specs.Solved.{IsSummary};

use crate::ending::verdict_text;
use crate::solving::answer_to;
use mono_answer::{Answer, print_answer};
use mono_base::Row;
use mono_check::Verdict;
use mono_check::judge::verdict;
use mono_problem::Problem;
use mono_words::command::DEFAULT_BUDGET;
use std::alloc::{AllocError, Global};

/// The sizes of a problem, an answer to it, and the checker's verdict on the answer's text.
///
/// The text is made once: the verdict is on it, and where the answer is progress it is kept to be printed.
#[derive(Drop)]
pub struct Summary {
    pub vars: u32,
    pub clauses: u32,
    pub edges: u32,
    pub predicates: u32,
    pub answer: Answer,
    /// The text of an answer that is progress; empty for any other.
    pub progress: Row<u8>,
    pub verdict: Verdict,
}

/// Solves the problem, with the budget of `solve`, and asks the checker for its verdict on the answer's text.
pub(crate) fn sum_up(alloc: Global, problem: &Problem) -> Result<Summary, AllocError>
    requires { IsInstance problem.now }
    ensures { IfOk result (IsSummary problem.now DEFAULT_BUDGET) }
{
    let answer = answer_to(alloc, problem, DEFAULT_BUDGET)?;
    let text = print_answer(alloc, &answer)?;
    let verdict = verdict(alloc, problem, text.as_slice())?;
    let progress = progress_of(alloc, &answer, text);
    Ok(Summary {
        vars: problem.vars(),
        clauses: problem.clause_count(),
        edges: problem.edge_count(),
        predicates: problem.atom_count(),
        answer,
        progress,
        verdict,
    })
}

/// Of an answer's text what a summary prints: all of it where the answer is progress, and else nothing.
fn progress_of(alloc: Global, answer: &Answer, text: Vec<u8>) -> Row<u8>
    requires { text.items ≡ answer_text answer.now }
    ensures { result ≡ progress_text answer.now }
{
    match answer {
        Answer::Progress(_) => Row::from_vec(text),
        Answer::Model(_) | Answer::Refutation(_) => Row::from_vec(Vec::new(alloc)),
    }
}

impl Summary {
    /// The six lines, and behind them the text of progress.
    pub(crate) fn text(&self, alloc: Global) -> Result<Vec<u8>, AllocError>
        ensures { IfOk result (λ text. text.items ≡ summary_text self.now) }
    {
        let mut out = self.sizes_text(alloc)?;
        push_result(&mut out, &self.answer)?;
        push_verdict(&mut out, self.verdict)?;
        out.extend_from_slice(self.progress.as_slice())?;
        Ok(out)
    }

    /// The first four lines.
    fn sizes_text(&self, alloc: Global) -> Result<Vec<u8>, AllocError>
        ensures { IfOk result (λ text. text.items ≡ spaced (codes "variables" ∷ decimal self.now.vars ∷ [])
            ++ spaced (codes "clauses" ∷ decimal self.now.clauses ∷ []) ++ spaced (codes "edges" ∷ decimal self.now.edges ∷ [])
            ++ spaced (codes "predicates" ∷ decimal self.now.predicates ∷ [])) }
    {
        let mut out = Vec::new(alloc);
        push_size(alloc, &mut out, "variables", self.vars)?;
        push_size(alloc, &mut out, "clauses", self.clauses)?;
        push_size(alloc, &mut out, "edges", self.edges)?;
        push_size(alloc, &mut out, "predicates", self.predicates)?;
        Ok(out)
    }
}

/// A line of a word and a number.
fn push_size(alloc: Global, out: &mut Vec<u8>, word: &str, size: u32) -> Result<(), AllocError>
    ensures { OnOk result (out.new.items ≡ out.old.items ++ spaced (word.now ∷ decimal size ∷ [])) }
{
    let line = format!(in alloc; "{word} {size}\n")?;
    out.extend_from_slice(line.as_bytes())?;
    Ok(())
}

/// The fifth line: the word that it says of an answer.
fn push_result(out: &mut Vec<u8>, answer: &Answer) -> Result<(), AllocError>
    ensures { OnOk result (out.new.items ≡ out.old.items ++ spaced (codes "result" ∷ word_of answer.now ∷ [])) }
{
    out.extend_from_slice(b"result ")?;
    out.extend_from_slice(result_word(answer))?;
    out.push(b'\n')?;
    Ok(())
}

/// The sixth line: the verdict's text ends it.
fn push_verdict(out: &mut Vec<u8>, verdict: Verdict) -> Result<(), AllocError>
    ensures { OnOk result (out.new.items ≡ out.old.items ++ (codes "verdict " ++ text_of_verdict verdict)) }
{
    out.extend_from_slice(b"verdict ")?;
    out.extend_from_slice(verdict_text(verdict).as_slice())?;
    Ok(())
}

/// The word that the fifth line says of an answer.
fn result_word(answer: &Answer) -> &'static [u8]
    ensures { result.now ≡ word_of answer.now }
{
    match answer {
        Answer::Model(_) => b"satisfiable",
        Answer::Refutation(_) => b"unsatisfiable",
        Answer::Progress(_) => b"unknown",
    }
}
