//! Taking literals back from the theories that saw them. The others aren't looked at: it costs the literals that are taken back,
//! and the theories that these concern.

ghost use Rattle.std.specs.Prelude.{◌≡◌, ℕ, ◌^◌, ◌+◌, ◌<◌, ◌≤◌, Bool, List, length, take, map, replicate, All, IfOk};
ghost use Rattle.mono_base.specs.Literal.{IsLitWithin};
ghost use Rattle.mono_theory.specs.Owners.{fact_of, facts_of};
ghost use Rattle.mono_search.specs.Updates.{update_all, CanUpdate};
ghost use Rattle.mono_search.specs.TheoryLists.{AreListed, concerning, IsConcernTable, OthersAreQuiet, with_seen, without_last, IsCurrent};

use mono_base::{Buckets, Lit, Worklist};
use mono_theory::Theory;
use std::alloc::{AllocError, Global};

/// Room to count for so many theories, with nothing counted.
pub(crate) fn no_counts(alloc: Global, count: usize) -> Result<Vec<usize>, AllocError>
    ensures { IfOk result (λ counts. counts.items ≡ replicate count 0) }
{
    vec![in alloc; 0; count]
}

/// Takes the literals from the place `kept` on back from each theory. Those that saw one of them are to be asked again.
/// `counts` is room for a number for each theory.
pub(crate) fn undo_each_to<T: Theory>(
    theories: &mut Vec<T>,
    counts: &mut Vec<usize>,
    worklist: &mut Worklist,
    table: &Buckets<usize>,
    lits: &[Lit],
    kept: usize,
)
    requires table { (vars : ℕ) × All (IsLitWithin vars) lits.now
        × IsConcernTable vars (facts_of T.graph T.atoms T.seen theories.old.items) table.now }
    requires zero { counts.old.items ≡ replicate (length theories.old.items) 0 }
    requires within { kept ≤ length lits.now }
    requires current { All (IsCurrent lits.now) (facts_of T.graph T.atoms T.seen theories.old.items) }
    requires others { OthersAreQuiet (facts_of T.graph T.atoms T.seen theories.old.items) worklist.old.listed }
    ensures facts { facts_of T.graph T.atoms T.seen theories.new.items
        ≡ map (with_seen (take kept lits.now)) (facts_of T.graph T.atoms T.seen theories.old.items) }
    ensures zero { counts.new.items ≡ replicate (length theories.old.items) 0 }
    ensures others { OthersAreQuiet (facts_of T.graph T.atoms T.seen theories.new.items) worklist.new.listed }
{
    count_concerned(theories.as_slice(), counts, worklist, table, &lits[kept..]);
    for place in worklist.places() {
        let theory = &mut theories[*place];
        undo_last(theory, counts[*place]);
        counts[*place] = 0;
    }
}

/// Takes so many literals back from a theory, the last first.
fn undo_last<T: Theory>(theory: &mut T, count: usize)
    requires { count ≤ length (T.seen theory.old) }
    ensures { fact_of T.graph T.atoms T.seen theory.new ≡ without_last count (fact_of T.graph T.atoms T.seen theory.old) }
{
    let seen = theory.seen();
    theory.undo_to(seen - count);
}

/// Counts for each theory how many of the literals concern it. Theories that one concerns join the list.
fn count_concerned<T: Theory>(
    theories: &[T],
    counts: &mut Vec<usize>,
    worklist: &mut Worklist,
    table: &Buckets<usize>,
    lits: &[Lit],
)
    requires table { (vars : ℕ) × All (IsLitWithin vars) lits.now
        × IsConcernTable vars (facts_of T.graph T.atoms T.seen theories.now) table.now }
    requires zero { counts.old.items ≡ replicate (length theories.now) 0 }
    requires as_many { length worklist.old.listed ≡ length theories.now }
    ensures counts { counts.new.items ≡ map (λ f. length (concerning f lits.now)) (facts_of T.graph T.atoms T.seen theories.now) }
    ensures listed { AreListed counts.new.items worklist.old.listed worklist.new.listed }
{
    if theories.is_empty() {
        return;
    }
    for lit in lits {
        count_at(counts, worklist, table.list(lit.var()));
    }
}

/// One more at each of the places, which join the list.
fn count_at(counts: &mut Vec<usize>, worklist: &mut Worklist, places: &[usize])
    requires can { CanUpdate (λ n. n + 1 < 2 ^ 64) (λ n. n + 1) places.now counts.old.items }
    requires as_many { length counts.old.items ≡ length worklist.old.listed }
    ensures counts { counts.new.items ≡ update_all (λ n. n + 1) places.now counts.old.items }
    ensures listed { (before : List Bool) → AreListed counts.old.items before worklist.old.listed
        → AreListed counts.new.items before worklist.new.listed }
{
    for place in places {
        counts[*place] += 1;
        worklist.insert(*place);
    }
}
