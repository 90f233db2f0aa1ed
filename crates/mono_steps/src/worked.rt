//! Rows that were worked by hand, as the definitions compute them.

ghost use Rattle.std.specs.Prelude.{◌≡◌, ℕ, Bool, true, false, List, [], ◌∷◌, pos, negsuc, Some, None};
ghost use Rattle.mono_steps.specs.Chains.{resolvent};
ghost use Rattle.mono_steps.specs.Renumbering.{pick, rank, steps_with_numbers};
ghost use Rattle.mono_steps.specs.Trimmed.{renumbered};
ghost use Rattle.mono_steps.specs.Worked.{fault_of};
ghost use Rattle.mono_steps.specs.WorkedLemmas.{chain};
ghost use Rattle.mono_steps.specs.declared.fault.StepFault.TheVariants as fault;

/// Worked resolvents.
pub fn worked_resolvents()
    ensures units { resolvent (pos 1 ∷ []) (negsuc 0 ∷ []) ≡ Some [] }
    ensures shared { resolvent (pos 1 ∷ pos 2 ∷ []) (negsuc 0 ∷ pos 2 ∷ []) ≡ Some (pos 2 ∷ pos 2 ∷ []) }
    ensures both_signs { resolvent (pos 1 ∷ []) (pos 1 ∷ negsuc 0 ∷ []) ≡ Some (pos 1 ∷ []) }
    ensures both_signs_first { resolvent (pos 1 ∷ negsuc 0 ∷ []) (pos 1 ∷ []) ≡ Some (pos 1 ∷ []) }
    ensures both_signs_twice { resolvent (pos 1 ∷ negsuc 0 ∷ []) (pos 1 ∷ negsuc 0 ∷ []) ≡ Some (negsuc 0 ∷ pos 1 ∷ []) }
    ensures two { resolvent (pos 1 ∷ pos 2 ∷ []) (negsuc 0 ∷ negsuc 1 ∷ []) ≡ None }
    ensures none { resolvent (pos 1 ∷ []) (pos 2 ∷ []) ≡ None }
    ensures repeats { resolvent (pos 1 ∷ pos 1 ∷ []) (negsuc 0 ∷ negsuc 0 ∷ []) ≡ Some [] }
{}

/// Worked chains: the variables and clauses of a problem, the chain's clause and the numbers that it names.
pub fn worked_chains()
    ensures refutes { fault_of 1 ((pos 1 ∷ []) ∷ (negsuc 0 ∷ []) ∷ []) [] (1 ∷ 2 ∷ []) ≡ None }
    ensures follows { fault_of 2 ((pos 1 ∷ pos 2 ∷ []) ∷ (negsuc 0 ∷ pos 2 ∷ []) ∷ []) (pos 2 ∷ []) (1 ∷ 2 ∷ []) ≡ None }
    ensures both_signs { fault_of 1 ((pos 1 ∷ negsuc 0 ∷ []) ∷ (pos 1 ∷ []) ∷ []) (pos 1 ∷ []) (2 ∷ 1 ∷ []) ≡ None }
    ensures alone { fault_of 2 ((pos 1 ∷ []) ∷ []) (pos 2 ∷ pos 1 ∷ []) (1 ∷ []) ≡ None }
    ensures stuck { fault_of 2 ((pos 1 ∷ pos 2 ∷ []) ∷ (negsuc 0 ∷ negsuc 1 ∷ []) ∷ []) [] (1 ∷ 2 ∷ []) ≡ Some fault.ChainStuck }
    ensures apart { fault_of 2 ((pos 1 ∷ []) ∷ (pos 2 ∷ []) ∷ []) (pos 1 ∷ pos 2 ∷ []) (1 ∷ 2 ∷ []) ≡ Some fault.ChainStuck }
    ensures names_none { fault_of 1 ((pos 1 ∷ []) ∷ []) (pos 1 ∷ []) [] ≡ Some fault.ChainStuck }
    ensures uncovered { fault_of 2 ((pos 1 ∷ pos 2 ∷ []) ∷ []) (pos 1 ∷ []) (1 ∷ []) ≡ Some fault.NotCovered }
    ensures own_number { fault_of 1 ((pos 1 ∷ []) ∷ (negsuc 0 ∷ []) ∷ []) [] (3 ∷ []) ≡ Some fault.UnknownNumber }
    ensures number_zero { fault_of 1 ((pos 1 ∷ []) ∷ []) (pos 1 ∷ []) (0 ∷ []) ≡ Some fault.UnknownNumber }
    ensures looked_up_first { fault_of 2 ((pos 1 ∷ []) ∷ (pos 2 ∷ []) ∷ []) [] (1 ∷ 2 ∷ 3 ∷ []) ≡ Some fault.UnknownNumber }
    ensures unknown_variable { fault_of 1 ((pos 1 ∷ []) ∷ []) (pos 1 ∷ negsuc 1 ∷ []) (1 ∷ []) ≡ Some fault.UnknownNumber }
{}

/// Of four clauses behind the first two the second and the third are dropped.
pub fn worked_numbers()
    ensures low { renumbered 2 (true ∷ false ∷ false ∷ true ∷ []) 2 ≡ 2 }
    ensures kept { renumbered 2 (true ∷ false ∷ false ∷ true ∷ []) 3 ≡ 3 }
    ensures behind { renumbered 2 (true ∷ false ∷ false ∷ true ∷ []) 6 ≡ 4 }
    ensures ranks { rank (true ∷ false ∷ false ∷ true ∷ []) 3 ≡ 1 }
    ensures steps { steps_with_numbers (renumbered 2 (true ∷ false ∷ true ∷ [])) (false ∷ true ∷ []) (chain [] (1 ∷ [])
        ∷ chain (pos 1 ∷ []) (1 ∷ 3 ∷ 5 ∷ []) ∷ []) ≡ chain (pos 1 ∷ []) (1 ∷ 3 ∷ 4 ∷ []) ∷ [] }
    ensures picked { pick {A = ℕ} (true ∷ false ∷ true ∷ []) (7 ∷ 8 ∷ 9 ∷ []) ≡ 7 ∷ 9 ∷ [] }
{}
