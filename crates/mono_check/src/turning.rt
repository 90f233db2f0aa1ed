//! Chains whose numbers count backwards from their own step.

ghost use Rattle.std.specs.Prelude.{◌≡◌};
ghost use Rattle.mono_answer.specs.Versions.{step_by, turned, turned_numbers};

use mono_answer::Version;
use mono_base::Row;
use mono_steps::{Chain, Step};

/// Puts in place of each number the one that stands so far before `own`, and 0 where there is none.
fn turn(numbers: &mut [u64], own: u64)
    ensures { numbers.new ≡ turned_numbers own numbers.old }
{
    for place in 0..numbers.len() {
        numbers[place] = own.saturating_sub(numbers[place]);
    }
}

/// Step number `own`, with the numbers of a chain counted the other way.
fn turned(step: Step, own: u64) -> Step
    ensures { result ≡ turned own step }
{
    match step {
        Step::Lemma(lemma) => Step::Lemma(lemma),
        Step::Chain(chain) => {
            let Chain { clause, used } = chain;
            let mut used = used.into_vec();
            turn(&mut used, own);
            let used = Row::from_vec(used);
            Step::Chain(Chain { clause, used })
        }
    }
}

/// Step number `own` of an answer of this version, its chain naming clauses by their numbers.
pub(crate) fn named(version: Version, own: u64, step: Step) -> Step
    ensures { result ≡ step_by version own step }
{
    match version {
        Version::One => step,
        Version::Two => turned(step, own),
    }
}
