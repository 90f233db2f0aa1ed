//! Handing literals to the theories that they concern. A literal costs the theories that it concerns, and in each of them the
//! edges that its variable switches and the atoms that rest on these.

ghost use Rattle.std.specs.Prelude.{◌≡◌, length, map, All, IsTrue};
ghost use Rattle.mono_base.specs.Literal.{var_of};
ghost use Rattle.mono_base.specs.Partial.{is_open_in};
ghost use Rattle.mono_theory.specs.Owners.{facts_of};
ghost use Rattle.mono_search.specs.TheoryLists.{concerned_from, OthersAreQuiet, handed_on};

use mono_base::{Lit, Worklist};
use mono_theory::Theory;

/// Hands a literal to the theories that it concerns, which stand at these places. They are to be asked what they force.
pub(crate) fn hand_to<T: Theory>(
    theories: &mut Vec<T>,
    worklist: &mut Worklist,
    places: &[usize],
    lit: Lit,
)
    requires places { places.now ≡ concerned_from 0 (facts_of T.graph T.atoms T.seen theories.old.items) (var_of lit) }
    requires fresh { All (λ f. IsTrue (is_open_in f.seen lit)) (facts_of T.graph T.atoms T.seen theories.old.items) }
    requires others { OthersAreQuiet (facts_of T.graph T.atoms T.seen theories.old.items) worklist.old.listed }
    ensures others { OthersAreQuiet (facts_of T.graph T.atoms T.seen theories.new.items) worklist.new.listed }
    ensures facts { facts_of T.graph T.atoms T.seen theories.new.items ≡ map (handed_on lit) (facts_of T.graph T.atoms T.seen theories.old.items) }
{
    for place in places {
        worklist.insert(*place);
        let theory = &mut theories[*place];
        theory.assign(lit);
    }
}
