//! Worked rows: what stands behind the last place, where a list of numbers reads as 0.

ghost use Rattle.std.specs.Prelude.{[], ◌∷◌, false};
ghost use Rattle.mono_bounds.specs.DueNodes.{PutsNodes};
ghost use Rattle.mono_bounds.specs.Index.{ArePlacesOf};

/// Behind the last key there is no place of the key 0, and behind the last atom none whose node is 0.
pub fn behind_the_last_place()
    ensures no_place { ArePlacesOf (7 ∷ []) 0 [] }
    ensures no_atom { PutsNodes (4 ∷ []) (0 ∷ []) (false ∷ []) (false ∷ []) }
{}
