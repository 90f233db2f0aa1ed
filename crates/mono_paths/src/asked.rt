//! One search for all that is asked of one node.
//!
//! A search goes on only as far as the next target needs. So it costs no more than the search for the target that needs
//! most, and one that was reached on the way to another costs nothing more.

ghost use Rattle.std.specs.Prelude.{◌≡◌, ◌<◌, ◌≤ℤ◌, ◌<ℤ◌, ◌↔◌, pos, All, IfOk, IsTrue, length};
ghost use Rattle.mono_graph.specs.Digraph.{IsPartOf};
ghost use Rattle.mono_paths.specs.Asked.{limit_by, IsTarget, HasPath, AreAnswers};
ghost use Rattle.mono_paths.specs.Searches.{IsLabelSearch, source_of};

use crate::find::bound_of;
use crate::search::LabelSearch;
use crate::{Measure, Target};
use mono_base::limits::MAX_BOUND;
use mono_graph::{Graph, Part};
use std::alloc::{AllocError, Global};

/// The least cap above a target's bound.
fn cap_above(target: Target) -> u64
    requires { target.most ≤ℤ pos MAX_BOUND }
    ensures some { 0 < result }
    ensures above { target.most <ℤ pos result }
{
    if target.most < 0 {
        1
    } else {
        target.most as u64 + 1
    }
}

/// A cap above all the bounds: one more than the greatest, and at least 1.
fn cap_above_all(targets: &[Target]) -> u64
    requires { All (λ target. target.most ≤ℤ pos MAX_BOUND) targets.now }
    ensures some { 0 < result }
    ensures above { All (λ target. target.most <ℤ pos result) targets.now }
{
    let mut cap = 1;
    for target in targets {
        let above = cap_above(*target);
        if cap < above {
            cap = above;
        }
    }
    cap
}

/// Whether a walk leads to the target. The search goes on as far as that takes.
fn is_reached(
    search: &mut LabelSearch,
    graph: &Graph,
    part: &Part,
    measure: Measure,
    target: Target,
) -> Result<bool, AllocError>
    requires part { IsPartOf part.now graph.now }
    requires target { IsTarget graph.now target }
    requires some { 0 < search.old.labels.cap }
    requires cap { target.most <ℤ pos search.old.labels.cap }
    requires search { IsLabelSearch graph.now part.now (limit_by measure (pos 0)) search.old }
    ensures len { length search.new.labels.each ≡ length search.old.labels.each }
    ensures cap { search.new.labels.cap ≡ search.old.labels.cap }
    ensures source { IfOk result (λ _. source_of search.new ≡ source_of search.old) }
    ensures search { IfOk result (λ _. IsLabelSearch graph.now part.now (limit_by measure (pos 0)) search.new) }
    ensures reached { IfOk result (λ reached. IsTrue reached ↔ HasPath graph.now part.now (source_of search.old) target.node (limit_by measure target.most)) }
{
    let Some(most) = bound_of(measure.limit(target.most)) else {
        return Ok(false);
    };
    let reached = search.goes_to(graph, part, measure.limit(0), target.node, most)?;
    Ok(reached)
}

/// Which of the targets a walk from `from` leads to.
pub fn which_are_reached(
    alloc: Global,
    search: &mut LabelSearch,
    graph: &Graph,
    part: &Part,
    from: u32,
    measure: Measure,
    targets: &[Target],
) -> Result<Vec<bool>, AllocError>
    requires part { IsPartOf part.now graph.now }
    requires from { from < graph.now.nodes }
    requires targets { All (IsTarget graph.now) targets.now }
    requires labels { length search.old.labels.each ≡ graph.now.nodes }
    ensures len { length search.new.labels.each ≡ length search.old.labels.each }
    ensures answers { IfOk result (λ answers. AreAnswers graph.now part.now measure from targets.now answers.items) }
{
    search.begin(graph, measure.limit(0), from, cap_above_all(targets))?;
    let mut answers = Vec::new(alloc);
    for target in targets {
        let reached = is_reached(search, graph, part, measure, *target)?;
        answers.push(reached)?;
    }
    Ok(answers)
}
