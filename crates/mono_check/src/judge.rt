//! The verdict on an answer, line by line.
//!
//! The names of the function `verdict` and the type `Verdict` differ only in case, so the two can't stand in one module:
//! the function has this one.

ghost use Rattle.std.specs.Prelude.{◌≡◌, ◌≤◌, ◌<◌, ◌+◌, ◌^◌, ◌++◌, ◌∷◌, [], ℕ, false, List, Option, None, IfOk, OnOk, IfSome, IfNone, length};
ghost use Rattle.mono_text.specs.Text.{is_skipped, tokens_of};
ghost use Rattle.mono_answer.specs.Items.{item_of};
ghost use Rattle.mono_problem.specs.Instance.{Instance};
ghost use Rattle.mono_check.specs.Checking.{later_by};
ghost use Rattle.mono_check.specs.Judges.{IsSoundJudge, IsOneLine, IsSoundSoFar, judging, size_of, so_far};
ghost use Rattle.mono_check.specs.SoFar.{behind};
ghost use Rattle.mono_check.specs.Verdicts.{IsVerdictOf, IsVerdict, ended_outcome, outcome_of};

use crate::Verdict;
use crate::said::Said;
use memchr::memchr;
use mono_answer::{ItemReader, ItemRefusal, is_version_line};
use mono_problem::Problem;
use mono_text::Line;
use std::alloc::{AllocError, Global};

/// Judges the lines of an answer, whose bytes come piece by piece.
///
/// Each line is judged as soon as it has ended. Then only what later lines are judged by is kept: the clauses of the
/// steps, or the literals of a model.
pub(crate) struct Judge {
    alloc: Global,
    reader: ItemReader,
    said: Said,
    /// How many lines have ended.
    lines: u64,
    /// The bytes of the next line that have come.
    unfinished: Vec<u8>,
}

impl Drop for Judge {
    fn drop(self) {
        let Judge {
            alloc: _,
            reader: _,
            said: _,
            lines: _,
            unfinished: _,
        } = self;
    }
}

/// The verdict on the text of an answer to the problem, for all bytes.
///
/// The lines are judged in order, and the first one at fault decides. The checker keeps the clauses of the steps, or
/// the literals of a model, and one line.
pub fn verdict(alloc: Global, problem: &Problem, answer: &[u8]) -> Result<Verdict, AllocError>
    ensures { IfOk result (IsVerdict problem.now answer.now) }
{
    let mut judge = Judge::new(alloc);
    judge.feed(problem, answer)?;
    judge.finish(problem)
}

/// The verdict on the text of an answer, with the values that a model gives to the variables, in their order.
pub(crate) fn verdict_with_values(
    alloc: Global,
    problem: &Problem,
    answer: &[u8],
) -> Result<(Verdict, Vec<bool>), AllocError>
    ensures verdict { IfOk result (λ found. IsVerdict problem.now answer.now found.0) }
    ensures values { IfOk result (λ found. found.0 ≡ Verdict.Model
        → (end : Option ℕ) × (last : ℕ) × (outcome_of problem.now answer.now ≡ ended_outcome problem.now end last found.1.items)) }
{
    let mut judge = Judge::new(alloc);
    judge.feed(problem, answer)?;
    judge.end_with_values(problem)
}

/// The bytes up to the first line feed, and those behind it: `None` where there is no line feed.
fn split_line(bytes: &[u8]) -> Option<(&[u8], &[u8])>
    ensures parts { IfSome result (λ parts. bytes.now ≡ parts.0.now ++ 10 ∷ parts.1.now) }
    ensures line { IfSome result (λ parts. IsOneLine parts.0.now) }
    ensures none { IfNone result (IsOneLine bytes.now) }
{
    let end = memchr(b'\n', bytes)?;
    Some((&bytes[..end], &bytes[end + 1..]))
}

/// Judges the next line.
fn judge_line(
    alloc: Global,
    reader: &mut ItemReader,
    said: &mut Said,
    problem: &Problem,
    line: Line<'_>,
) -> Result<(), AllocError>
    requires { IsSoundSoFar problem.now said.old }
    ensures sound { OnOk result (IsSoundSoFar problem.now said.new) }
    ensures behind { OnOk result ((ls : List (ℕ × List ℕ))
        → behind problem.now (so_far said.new) ls ≡ behind problem.now (so_far said.old) ((line.entry.number, line.entry.text.now) ∷ ls)) }
{
    match reader.read(&line) {
        Ok(None) => Ok(()),
        Ok(Some(item)) => said.add(alloc, reader, problem, line.number, Some(item)),
        Err(ItemRefusal::BadLine) => judge_other(alloc, reader, said, problem, line),
        Err(ItemRefusal::Memory) => Err(AllocError),
    }
}

/// Judges a line that is no item: the version line where it comes first, and otherwise a line at fault.
fn judge_other(
    alloc: Global,
    reader: &mut ItemReader,
    said: &mut Said,
    problem: &Problem,
    line: Line<'_>,
) -> Result<(), AllocError>
    requires sound { IsSoundSoFar problem.now said.old }
    requires kept { is_skipped (tokens_of line.text.now) ≡ false }
    requires other { item_of (tokens_of line.text.now) ≡ None }
    ensures sound { OnOk result (IsSoundSoFar problem.now said.new) }
    ensures behind { OnOk result ((ls : List (ℕ × List ℕ))
        → behind problem.now (so_far said.new) ls ≡ behind problem.now (so_far said.old) ((line.entry.number, line.entry.text.now) ∷ ls)) }
{
    if said.is_nothing() && is_version_line(&line) {
        *said = Said::OfVersion { line: line.number };
        return Ok(());
    }
    said.add(alloc, reader, problem, line.number, None)
}

impl Judge {
    /// A judge that was fed nothing.
    pub(crate) fn new(alloc: Global) -> Judge
        ensures kept { (p : Instance) → IsSoundJudge p result }
        ensures size { size_of result ≡ 0 }
        ensures later { (p : Instance) (rest : List ℕ) → later_by p (judging result) rest ≡ outcome_of p rest }
    {
        Judge {
            alloc,
            reader: ItemReader::new(alloc),
            said: Said::Nothing,
            lines: 0,
            unfinished: Vec::new(alloc),
        }
    }

    /// Takes the last bytes of a line, which a line feed follows, and judges it. A line of which nothing came before is
    /// judged where it lies.
    fn end_line(&mut self, problem: &Problem, end: &[u8]) -> Result<(), AllocError>
        requires kept { IsSoundJudge problem.now self.old }
        requires few { size_of self.old + length end.now + 1 < 2 ^ 63 }
        requires one_line { IsOneLine end.now }
        ensures kept { OnOk result (IsSoundJudge problem.now self.new) }
        ensures size { OnOk result (size_of self.new ≤ size_of self.old + length end.now + 1) }
        ensures later { OnOk result ((rest : List ℕ)
            → later_by problem.now (judging self.new) rest ≡ later_by problem.now (judging self.old) (end.now ++ 10 ∷ rest)) }
    {
        self.lines += 1;
        let number = self.lines;
        if self.unfinished.is_empty() {
            let line = Line { number, text: end };
            judge_line(self.alloc, &mut self.reader, &mut self.said, problem, line)?;
            return Ok(());
        }
        self.unfinished.extend_from_slice(end)?;
        let line = Line {
            number,
            text: self.unfinished.as_slice(),
        };
        judge_line(self.alloc, &mut self.reader, &mut self.said, problem, line)?;
        self.unfinished.clear();
        Ok(())
    }

    /// Takes the next bytes, and judges each line that ends among them. Behind a line at fault it passes over them.
    pub(crate) fn feed(&mut self, problem: &Problem, piece: &[u8]) -> Result<(), AllocError>
        requires kept { IsSoundJudge problem.now self.old }
        requires few { size_of self.old + length piece.now < 2 ^ 63 }
        ensures kept { OnOk result (IsSoundJudge problem.now self.new) }
        ensures size { OnOk result (size_of self.new ≤ size_of self.old + length piece.now) }
        ensures later { OnOk result ((rest : List ℕ)
            → later_by problem.now (judging self.new) rest ≡ later_by problem.now (judging self.old) (piece.now ++ rest)) }
    {
        if self.said.has_fault() {
            return Ok(());
        }
        let mut rest = piece;
        'lines: while let Some((end, behind)) = split_line(rest) {
            self.end_line(problem, end)?;
            if self.said.has_fault() {
                return Ok(());
            }
            rest = behind;
        }
        self.unfinished.extend_from_slice(rest)?;
        Ok(())
    }

    /// Judges the last line, where it has bytes and no line feed.
    fn end_text(&mut self, problem: &Problem) -> Result<(), AllocError>
        requires kept { IsSoundJudge problem.now self.old }
        requires few { size_of self.old < 2 ^ 63 }
        ensures sound { OnOk result (IsSoundSoFar problem.now self.new.said) }
        ensures end { OnOk result (behind problem.now (so_far self.new.said) [] ≡ later_by problem.now (judging self.old) []) }
    {
        if self.unfinished.is_empty() {
            return Ok(());
        }
        let line = Line {
            number: self.lines + 1,
            text: self.unfinished.as_slice(),
        };
        judge_line(self.alloc, &mut self.reader, &mut self.said, problem, line)?;
        Ok(())
    }

    /// The verdict where no bytes follow.
    pub(crate) fn finish(mut self, problem: &Problem) -> Result<Verdict, AllocError>
        requires kept { IsSoundJudge problem.now self }
        requires few { size_of self < 2 ^ 63 }
        ensures { IfOk result (IsVerdictOf problem.now (later_by problem.now (judging self) [])) }
    {
        self.end_text(problem)?;
        self.said.verdict(self.alloc, problem)
    }

    /// Ends the text and says the verdict, with the values that a model gives to the variables, in their order.
    fn end_with_values(&mut self, problem: &Problem) -> Result<(Verdict, Vec<bool>), AllocError>
        requires kept { IsSoundJudge problem.now self.old }
        requires few { size_of self.old < 2 ^ 63 }
        ensures verdict { IfOk result (λ found. IsVerdictOf problem.now (later_by problem.now (judging self.old) []) found.0) }
        ensures values { IfOk result (λ found. found.0 ≡ Verdict.Model
            → (end : Option ℕ) × (last : ℕ) × (later_by problem.now (judging self.old) [] ≡ ended_outcome problem.now end last found.1.items)) }
    {
        self.end_text(problem)?;
        let verdict = self.said.verdict(self.alloc, problem)?;
        let values = self.said.values(self.alloc, problem)?;
        Ok((verdict, values))
    }
}
