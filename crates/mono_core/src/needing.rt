//! The needs of the assumptions that are kept.

ghost use Rattle.std.specs.Prelude.{◌≡◌, ◌<◌, ℕ, true, false, length, IfOk, MatchOption};
ghost use Rattle.mono_search.specs.Outcomes.{HasModel};
ghost use Rattle.mono_problem.specs.Assuming.{assuming};
ghost use Rattle.mono_steps.specs.Needed.{is_set};
ghost use Rattle.mono_core.specs.Cores.{AreNeeds, IsNeed, AreFound, IsFoundAt, IsWideModel, others_of};

use crate::assuming::greatest_var;
use crate::deleting::cleared;
use crate::outcome::Need;
use crate::picking::picked;
use mono_base::{Lit, Row};
use mono_problem::Problem;
use std::alloc::{AllocError, Global};

/// The needs of the assumptions that are kept, in order.
pub(crate) fn needs_of(
    alloc: Global,
    problem: &Problem,
    assumed: &[Lit],
    kept: &Vec<bool>,
    mut found: Vec<Option<Need>>,
) -> Result<Vec<Need>, AllocError>
    requires kept { length kept.now.items ≡ length assumed.now }
    requires all { length found.items ≡ length assumed.now }
    ensures { (budget : ℕ) → AreFound problem.now budget assumed.now kept.now.items found.items
        → IfOk result (λ needs. AreNeeds (IsNeed problem.now budget assumed.now kept.now.items) 0 kept.now.items needs.items) }
{
    let mut needs = Vec::new(alloc);
    for place in 0..assumed.len() {
        let Some(one) = found.pop() else {
            unreachable!()
        };
        if let Some(need) = kept_need(alloc, problem, assumed, kept, place, one)? {
            needs.push(need)?;
        }
    }
    Ok(needs)
}

/// The need of the assumption at a place: `None` exactly where it isn't kept.
fn kept_need(
    alloc: Global,
    problem: &Problem,
    assumed: &[Lit],
    kept: &Vec<bool>,
    place: usize,
    found: Option<Need>,
) -> Result<Option<Need>, AllocError>
    requires kept { length kept.now.items ≡ length assumed.now }
    requires place { place < length assumed.now }
    ensures { (budget : ℕ) → IsFoundAt problem.now budget assumed.now kept.now.items place found
        → IfOk result (λ need. MatchOption need (is_set kept.now.items place ≡ false)
        (λ n. (is_set kept.now.items place ≡ true) × IsNeed problem.now budget assumed.now kept.now.items place n)) }
{
    let Some(need) = found else {
        return Ok(None);
    };
    if !kept[place] {
        return Ok(None);
    }
    match need {
        Need::Model(values) => {
            let others = picked(alloc, cleared(kept, place)?.as_slice(), assumed)?;
            Ok(Some(Need::Model(fitted(problem, others.as_slice(), values))))
        }
        Need::Tried { tried, steps } => Ok(Some(Need::Tried { tried, steps })),
    }
}

/// The values of the variables of the problem under these assumptions.
fn fitted(problem: &Problem, assumed: &[Lit], values: Row<bool>) -> Row<bool>
    ensures { IsWideModel (assuming problem.now assumed.now) values → HasModel (assuming problem.now assumed.now) result }
{
    let vars = greatest_var(problem.vars(), assumed);
    let mut values = values.into_vec();
    values.truncate(vars as usize);
    Row::from_vec(values)
}
