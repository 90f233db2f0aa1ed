//! Worked rows: what a theory of reachability knows of nodes 0 and 1, where its only atom says that node 1 can be reached from
//! node 0.

ghost use Rattle.std.specs.Prelude.{◌≡◌, [], ◌∷◌, None, Some, false, true};
ghost use Rattle.mono_steps.specs.declared.lemma.Witness.TheVariants as by;
ghost use Rattle.mono_theory.specs.declared.stage.Stage.TheVariants as stage;
ghost use Rattle.mono_theory.specs.declared.either_side.EitherSide.TheVariants as side;
ghost use Rattle.mono_reach.specs.Marks.{shows_last};
ghost use Rattle.mono_reach.specs.Readings.{AreBothDecided, marks_at};
ghost use Rattle.mono_reach.specs.Worked.{along_the_edge, cut_off, keeping, lazily, marks_with, rows_with, searched, showing, trees_with};

/// A node is known to be reached where the atom's row has it. Where a search found a walk, the last node alone is.
pub fn nodes_known_to_be_reached()
    ensures in_its_row { (marks_at (keeping (rows_with 1 along_the_edge) (cut_off stage.Waits None)) 0 1).under ≡ true }
    ensures source { (marks_at (keeping (rows_with 1 []) (cut_off stage.Waits None)) 0 0).under ≡ true }
    ensures not_in_its_row { (marks_at (keeping (rows_with 1 []) (cut_off stage.Waits None)) 0 1).under ≡ false }
    ensures found { (marks_at (keeping (searched (stage.Shows 1)) (cut_off stage.Waits None)) 0 1).under ≡ true }
    ensures found_elsewhere { (marks_at (keeping (searched (stage.Shows 1)) (cut_off stage.Waits None)) 0 0).under ≡ false }
    ensures stands { (marks_at (keeping (searched stage.Stands) (cut_off stage.Waits None)) 0 1).under ≡ false }
    ensures waits { (marks_at (keeping (searched stage.Waits) (cut_off stage.Waits None)) 0 1).under ≡ false }
    ensures undecided { (marks_at (keeping (side.Searches (lazily (showing false (stage.Shows 1) None))) (cut_off stage.Waits None)) 0 1).under ≡ false }
{}

/// Rows show an atom where its own row has its own last node.
pub fn atoms_shown_by_rows()
    ensures reached { shows_last (marks_with along_the_edge) 0 ≡ true }
    ensures in_another_row_alone { shows_last (marks_with []) 0 ≡ false }
    ensures source { shows_last (marks_with []) 1 ≡ true }
{}

/// A node is known to be cut off where a search showed a set that lacks it.
pub fn nodes_known_to_be_cut_off()
    ensures inside { (marks_at (keeping (rows_with 1 []) (cut_off (stage.Shows 1) (Some (by.Cut (0 ∷ []))))) 0 0).over ≡ true }
    ensures outside { (marks_at (keeping (rows_with 1 []) (cut_off (stage.Shows 1) (Some (by.Cut (0 ∷ []))))) 0 1).over ≡ false }
    ensures stands { (marks_at (keeping (rows_with 1 []) (cut_off stage.Stands (Some (by.Cut (0 ∷ []))))) 0 1).over ≡ true }
    ensures waits { (marks_at (keeping (rows_with 1 []) (cut_off stage.Waits (Some (by.Cut (0 ∷ []))))) 0 1).over ≡ true }
    ensures no_set { (marks_at (keeping (rows_with 1 []) (cut_off (stage.Shows 1) (Some (by.Path [])))) 0 1).over ≡ true }
    ensures nothing_shown { (marks_at (keeping (rows_with 1 []) (cut_off (stage.Shows 1) None)) 0 1).over ≡ true }
    ensures undecided { (marks_at (keeping (rows_with 1 [])
        (side.Searches (lazily (showing true (stage.Shows 1) (Some (by.Cut (0 ∷ []))))))) 0 1).over ≡ true }
{}

/// Where rows are kept, the last node of an atom is known to be cut off where the last search didn't find it, also after an edge
/// went by which it found others. Of other nodes that isn't known.
pub fn last_nodes_known_to_be_cut_off()
    ensures not_found { (marks_at (keeping (rows_with 1 []) (trees_with 1 (Some 1) None [])) 0 1).over ≡ false }
    ensures found { (marks_at (keeping (rows_with 1 []) (trees_with 1 (Some 1) None along_the_edge)) 0 1).over ≡ true }
    ensures an_edge_went { (marks_at (keeping (rows_with 1 []) (trees_with 1 (Some 0) (Some 1) [])) 0 1).over ≡ false }
    ensures not_searched { (marks_at (keeping (rows_with 1 []) (trees_with 1 None None [])) 0 1).over ≡ true }
    ensures elsewhere { (marks_at (keeping (rows_with 1 []) (trees_with 1 (Some 1) None [])) 0 0).over ≡ true }
{}

/// What is kept decides where rows are up to date for all literals seen, or searches leave no atom waiting, on each of the two
/// sides.
pub fn theories_that_decide()
    ensures rows { AreBothDecided (keeping (rows_with 1 []) (trees_with 1 (Some 1) None [])) }
    ensures searches { AreBothDecided (keeping (searched stage.Stands) (cut_off (stage.Shows 1) None)) }
    ensures surely_rows { AreBothDecided (keeping (rows_with 1 []) (cut_off stage.Stands None)) }
    ensures possibly_rows { AreBothDecided (keeping (searched stage.Stands) (trees_with 1 (Some 0) None along_the_edge)) }
    ensures surely_behind { AreBothDecided (keeping (rows_with 0 []) (cut_off stage.Stands None)) → ⊥ }
    ensures surely_waits { AreBothDecided (keeping (searched stage.Waits) (cut_off stage.Stands None)) → ⊥ }
    ensures possibly_behind { AreBothDecided (keeping (rows_with 1 []) (trees_with 0 (Some 0) None [])) → ⊥ }
    ensures an_edge_went { AreBothDecided (keeping (rows_with 1 []) (trees_with 1 (Some 0) (Some 1) along_the_edge)) → ⊥ }
    ensures not_searched { AreBothDecided (keeping (rows_with 1 []) (trees_with 1 None None along_the_edge)) → ⊥ }
    ensures possibly_waits { AreBothDecided (keeping (rows_with 1 []) (cut_off stage.Waits None)) → ⊥ }
{}
