//! The theories of a problem: one for each graph and kind that has an atom.

ghost use Rattle.std.specs.Prelude.{◌≡◌, ◌<◌, [], IfOk, All, length};
ghost use Rattle.mono_theory.specs.Owners.{facts_of, fact_of, OwnsEach};
ghost use Rattle.mono_any.specs.Kinds.{graph_of, atoms_of, seen_of};
ghost use Rattle.mono_kinds.specs.Sharing.{AreByGraphAndKind};
ghost use Rattle.mono_kinds.specs.Slots.{AreMade, AreSlots, made_of, numbers_in, slot_count as count_of_slots};

use crate::slots::{KINDS, slot_count, slots_of};
use mono_acyclic::AcyclicTheory;
use mono_any::AnyTheory;
use mono_base::Buckets;
use mono_distance::DistanceTheory;
use mono_flow::FlowTheory;
use mono_problem::Problem;
use mono_reach::ReachTheory;
use mono_tree::TreeTheory;
use std::alloc::{AllocError, Global};

/// The theory of the atoms of a slot.
fn theory_of(
    alloc: Global,
    problem: &Problem,
    slot: u32,
    numbers: &[u32],
) -> Result<AnyTheory, AllocError>
    requires slot { slot < count_of_slots problem.now }
    requires numbers { numbers.now ≡ numbers_in problem.now (length problem.now.atoms) slot }
    ensures { IfOk result (λ t. fact_of graph_of atoms_of seen_of t ≡ made_of problem.now slot numbers.now) }
{
    let graph = slot / KINDS;
    let kind = slot % KINDS;
    if kind == 0 {
        let theory = ReachTheory::new(alloc, problem, graph, numbers)?;
        return Ok(AnyTheory::Reach(theory));
    }
    if kind == 1 {
        let theory = DistanceTheory::new(alloc, problem, graph, numbers)?;
        return Ok(AnyTheory::Distance(theory));
    }
    if kind == 2 {
        let theory = FlowTheory::new(alloc, problem, graph, numbers)?;
        return Ok(AnyTheory::Flow(theory));
    }
    if kind == 3 {
        let theory = TreeTheory::new(alloc, problem, graph, numbers)?;
        return Ok(AnyTheory::Tree(theory));
    }
    let theory = AcyclicTheory::new(alloc, problem, graph, numbers)?;
    Ok(AnyTheory::Acyclic(theory))
}

/// The theories of the slots that have an atom.
fn theories_of(
    alloc: Global,
    problem: &Problem,
    slots: &Buckets<u32>,
) -> Result<Vec<AnyTheory>, AllocError>
    requires slots { AreSlots problem.now (length problem.now.atoms) slots.now }
    ensures { IfOk result (λ ts. AreMade problem.now (count_of_slots problem.now) (facts_of graph_of atoms_of seen_of ts.items)) }
{
    problem.known();
    let mut theories = Vec::new(alloc);
    for slot in 0..slot_count(problem) {
        let numbers = slots.list(slot);
        if !numbers.is_empty() {
            theories.push(theory_of(alloc, problem, slot, numbers)?)?;
        }
    }
    Ok(theories)
}

/// The theories of a problem: each atom is owned by exactly one of them, each theory's graph is the problem's, and none
/// has seen anything. The atoms of one graph and kind share a theory, and each theory is that of some.
pub fn all_theories(alloc: Global, problem: &Problem) -> Result<Vec<AnyTheory>, AllocError>
    ensures owned { IfOk result (λ ts. OwnsEach problem.now (facts_of graph_of atoms_of seen_of ts.items)) }
    ensures shared { IfOk result (λ ts. AreByGraphAndKind problem.now (facts_of graph_of atoms_of seen_of ts.items)) }
    ensures unseen { IfOk result (λ ts. All (λ f. f.seen ≡ []) (facts_of graph_of atoms_of seen_of ts.items)) }
{
    problem.known();
    let slots = slots_of(alloc, problem)?;
    theories_of(alloc, problem, &slots)
}
