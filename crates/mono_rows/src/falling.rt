//! Worked rows: what the words of `mono_problem` make of the predicate that there is no cycle, which falls as edges come.

ghost use Rattle.std.specs.Prelude.{◌≡◌, true, false, [], ◌∷◌, pos};
ghost use Rattle.mono_graph.specs.Worked.{both, first_alone, last_alone, lone, looped, neither, parallel, round_trip};
ghost use Rattle.mono_problem.specs.declared.atom.Predicate.TheVariants as kind;
ghost use Rattle.mono_problem.specs.Holds.{Holds, falls};
ghost use Rattle.mono_problem.specs.Quiet.{part_to_hold, part_to_fail, Forces, IsQuietAtom};
ghost use Rattle.mono_problem.specs.Worked.{minus};
ghost use Rattle.mono_rows.specs.SmallCycles.{has_no_cycle};

/// It holds in a part without a cycle.
pub fn parts_without_a_cycle()
    ensures one_way { Holds (round_trip 2 3) first_alone kind.Acyclic }
    ensures no_edge { Holds lone [] kind.Acyclic }
    ensures parallel { Holds (parallel 1 1) both kind.Acyclic }
    ensures there_and_back { Holds (round_trip 2 3) both kind.Acyclic → ⊥ }
    ensures to_itself { Holds looped (true ∷ []) kind.Acyclic → ⊥ }
{}

/// It alone falls, so the bounds change places. Here variable 1 is true and variable 2 is open.
pub fn bounds_by_predicate()
    ensures acyclic { falls kind.Acyclic ≡ true }
    ensures reach { falls (kind.Reach 0 1) ≡ false }
    ensures steps { falls (kind.Steps 0 1 (pos 1)) ≡ false }
    ensures distance { falls (kind.Distance 0 1 (pos 1)) ≡ false }
    ensures flow { falls (kind.Flow 0 1 (pos 1)) ≡ false }
    ensures tree { falls (kind.Tree (pos 1)) ≡ false }
    ensures to_hold { part_to_hold kind.Acyclic (round_trip 2 3) (pos 1 ∷ []) ≡ both }
    ensures to_fail { part_to_fail kind.Acyclic (round_trip 2 3) (pos 1 ∷ []) ≡ first_alone }
    ensures to_hold_once_false { part_to_hold kind.Acyclic (round_trip 2 3) (minus 1 ∷ []) ≡ last_alone }
    ensures to_fail_once_false { part_to_fail kind.Acyclic (round_trip 2 3) (minus 1 ∷ []) ≡ neither }
    ensures walk_to_hold { part_to_hold (kind.Reach 0 1) (round_trip 2 3) (pos 1 ∷ []) ≡ first_alone }
    ensures walk_to_fail { part_to_fail (kind.Reach 0 1) (round_trip 2 3) (pos 1 ∷ []) ≡ both }
{}

/// Variable 3 is forced where no cycle is possible, its negation where one is surely there, and nothing in between.
pub fn literals_forced_by_cycles()
    ensures by_order { Forces (round_trip 2 3) has_no_cycle (minus 2 ∷ []) (pos 3) }
    ensures by_cycle { Forces (round_trip 2 3) has_no_cycle (pos 1 ∷ pos 2 ∷ []) (minus 3) }
    ensures cycle_is_possible { Forces (round_trip 2 3) has_no_cycle (pos 1 ∷ []) (pos 3) → ⊥ }
    ensures cycle_is_not_sure { Forces (round_trip 2 3) has_no_cycle (pos 1 ∷ []) (minus 3) → ⊥ }
    ensures quiet { IsQuietAtom (round_trip 2 3) (pos 1 ∷ []) has_no_cycle }
    ensures quiet_once_true { IsQuietAtom (round_trip 2 3) (minus 2 ∷ pos 3 ∷ []) has_no_cycle }
    ensures quiet_once_false { IsQuietAtom (round_trip 2 3) (pos 1 ∷ pos 2 ∷ minus 3 ∷ []) has_no_cycle }
    ensures not_yet_true { IsQuietAtom (round_trip 2 3) (minus 2 ∷ []) has_no_cycle → ⊥ }
    ensures not_yet_false { IsQuietAtom (round_trip 2 3) (pos 1 ∷ pos 2 ∷ []) has_no_cycle → ⊥ }
{}
