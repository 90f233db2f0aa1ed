//! Which witnesses serve which predicates.

ghost use Rattle.std.specs.Prelude.{◌≡◌};
ghost use Rattle.mono_steps.specs.Witnesses.{is_positive, rests_on_present, serves};

use crate::Witness;
use mono_problem::Predicate;

/// Whether the word serves the predicate.
pub(crate) fn serves(witness: &Witness, predicate: Predicate) -> bool
    ensures { result ≡ serves witness.now predicate }
{
    match witness {
        Witness::Path(_) => matches!(
            predicate,
            Predicate::Reach { .. } | Predicate::Steps { .. } | Predicate::Distance { .. }
        ),
        Witness::Cut(_) => matches!(predicate, Predicate::Reach { .. }),
        Witness::Label(_) => matches!(
            predicate,
            Predicate::Steps { .. } | Predicate::Distance { .. }
        ),
        Witness::Flow(_) | Witness::FlowCut(_) => matches!(predicate, Predicate::Flow { .. }),
        Witness::Tree(_) | Witness::Split(_) | Witness::Least(_) => {
            matches!(predicate, Predicate::Tree { .. })
        }
        Witness::Cycle(_) | Witness::Order(_) => matches!(predicate, Predicate::Acyclic),
    }
}

/// Whether the word shows that a predicate holds. The others show that one fails.
pub(crate) fn is_positive(witness: &Witness) -> bool
    ensures { result ≡ is_positive witness.now }
{
    matches!(
        witness,
        Witness::Path(_) | Witness::Flow(_) | Witness::Tree(_) | Witness::Order(_)
    )
}

/// Whether the word rests on edges that are present. The others rest on edges that are absent.
pub(crate) fn rests_on_present(witness: &Witness) -> bool
    ensures { result ≡ rests_on_present witness.now }
{
    matches!(
        witness,
        Witness::Path(_) | Witness::Flow(_) | Witness::Tree(_) | Witness::Cycle(_)
    )
}
