//! Answers that are judged while they are read.

ghost use Rattle.std.specs.Prelude.{◌≡◌, ◌≤◌, ◌+◌, ◌^◌, ◌++◌, [], ℕ, List, IsTrue, IsFalse, IfOk, OnOk, OnErr, length};
ghost use Rattle.mono_check.specs.Checking.{later};
ghost use Rattle.mono_check.specs.Verdicts.{IsVerdictOf, outcome_of};

use crate::Verdict;
use crate::judge::Judge;
use mono_io::Consumer;
use mono_problem::Problem;
use std::alloc::{AllocError, Global};
use std::marker::Model;

/// The most bytes that a checker may be fed: 2^62.
pub const MOST_FED: u64 = 1 << 62;

const _: () = prove!(MOST_FED == 4_611_686_018_427_387_904);

/// Judges an answer to a problem that comes in pieces, cut anywhere.
///
/// It keeps the clauses of the steps or the literals of a model, and the bytes of one line. Contracts see the problem, what
/// the answer comes to once any other bytes follow (`later`), how many bytes were fed, and whether it is live.
#[derive(Drop)]
pub struct Checker<'a> {
    problem: &'a Problem,
    judge: Judge,
    fed: u64,
    is_live: bool,
}

impl<'a> Model for Checker<'a> {
    ghost use Rattle.mono_check.specs.Checking.{Checking};

    ghost Value = { Checking };

    ghost use Rattle.mono_check.specs.Judges.{IsChecking, judging};

    ghost view = { λ c. record { problem = c.problem.now; judging = judging c.judge; fed = c.fed; is_live = c.is_live } };

    ghost invariant = { λ c. IsChecking c.problem.now c.judge c.fed c.is_live };
}

impl<'a> Checker<'a> {
    /// A checker for answers to this problem, which was fed nothing.
    pub fn new(alloc: Global, problem: &'a Problem) -> Result<Checker<'a>, AllocError>
        ensures problem { IfOk result (λ checker. checker.problem ≡ problem.now) }
        ensures fed { IfOk result (λ checker. checker.fed ≡ 0) }
        ensures live { IfOk result (λ checker. IsTrue checker.is_live) }
        ensures later { IfOk result (λ checker. (rest : List ℕ) → later checker rest ≡ outcome_of problem.now rest) }
    {
        Ok(Checker::unfed(alloc, problem))
    }

    /// A checker for answers to this problem, which was fed nothing. It takes no memory.
    pub(crate) fn unfed(alloc: Global, problem: &'a Problem) -> Checker<'a>
        ensures problem { result.problem ≡ problem.now }
        ensures fed { result.fed ≡ 0 }
        ensures live { IsTrue result.is_live }
        ensures later { (rest : List ℕ) → later result rest ≡ outcome_of problem.now rest }
    {
        Checker {
            problem,
            judge: Judge::new(alloc),
            fed: 0,
            is_live: true,
        }
    }

    /// Takes the next bytes of the answer, and judges each line that ends among them. Where no memory is found, the checker
    /// isn't live any more, and no call but `is_live` may follow.
    ///
    /// Whatever bytes follow, the answer comes to what it came to before where `piece` and then those bytes followed.
    pub fn feed(&mut self, piece: &[u8]) -> Result<(), AllocError>
        requires live { IsTrue self.old.is_live }
        requires few { self.old.fed + length piece.now ≤ MOST_FED }
        ensures problem { self.new.problem ≡ self.old.problem }
        ensures fed { OnOk result (self.new.fed ≡ self.old.fed + length piece.now) }
        ensures unfed { OnErr result (self.new.fed ≡ self.old.fed) }
        ensures live { OnOk result (IsTrue self.new.is_live) }
        ensures dead { OnErr result (IsFalse self.new.is_live) }
        ensures later { OnOk result ((rest : List ℕ) → later self.new rest ≡ later self.old (piece.now ++ rest)) }
    {
        self.is_live = false;
        self.judge.feed(self.problem, piece)?;
        self.fed += piece.len() as u64;
        self.is_live = true;
        Ok(())
    }

    /// Whether memory was found for all that was fed: `false` exactly after a `feed` that found none.
    pub fn is_live(&self) -> bool
        ensures { result ≡ self.now.is_live }
    {
        self.is_live
    }

    /// The verdict on the answer, where no bytes follow those that were fed.
    pub fn finish(self) -> Result<Verdict, AllocError>
        requires { IsTrue self.is_live }
        ensures { IfOk result (IsVerdictOf self.entry.problem (later self.entry [])) }
    {
        self.judge.finish(self.problem)
    }
}

impl<'a> Consumer for Checker<'a> {
    ghost use Rattle.std.proofs.Common.{rules};
    ghost use Rattle.mono_check.specs.FromShelf.{Feeds, IsUnfed};

    ghost is_new = { IsUnfed };

    ghost takes = { Feeds };

    fn consume(&mut self, piece: &[u8]) -> Result<(), AllocError> {
        self.feed(piece)?;
        Ok(())
    }

    ghost takes_nothing = { λ start. Prim.search rules };
}
