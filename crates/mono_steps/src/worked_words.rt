//! Worked rows: which word serves which predicate, what it shows, and on which edges it rests.

ghost use Rattle.std.specs.Prelude.{◌≡◌, [], true, false, pos};
ghost use Rattle.mono_problem.specs.declared.atom.Predicate.TheVariants as kind;
ghost use Rattle.mono_steps.specs.declared.lemma.Witness.TheVariants as by;
ghost use Rattle.mono_steps.specs.Witnesses.{is_positive, rests_on_present, serves};

/// A path serves the predicates on walks.
pub fn path_serves()
    ensures reach { serves (by.Path []) (kind.Reach 0 1) ≡ true }
    ensures steps { serves (by.Path []) (kind.Steps 0 1 (pos 1)) ≡ true }
    ensures distance { serves (by.Path []) (kind.Distance 0 1 (pos 1)) ≡ true }
    ensures flow { serves (by.Path []) (kind.Flow 0 1 (pos 1)) ≡ false }
    ensures tree { serves (by.Path []) (kind.Tree (pos 1)) ≡ false }
    ensures acyclic { serves (by.Path []) kind.Acyclic ≡ false }
{}

/// A cut serves reachability alone: it bounds no cost.
pub fn cut_serves()
    ensures reach { serves (by.Cut []) (kind.Reach 0 1) ≡ true }
    ensures steps { serves (by.Cut []) (kind.Steps 0 1 (pos 1)) ≡ false }
    ensures distance { serves (by.Cut []) (kind.Distance 0 1 (pos 1)) ≡ false }
    ensures flow { serves (by.Cut []) (kind.Flow 0 1 (pos 1)) ≡ false }
    ensures tree { serves (by.Cut []) (kind.Tree (pos 1)) ≡ false }
    ensures acyclic { serves (by.Cut []) kind.Acyclic ≡ false }
{}

/// Labels serve the predicates on walks with a bound.
pub fn label_serves()
    ensures reach { serves (by.Label []) (kind.Reach 0 1) ≡ false }
    ensures steps { serves (by.Label []) (kind.Steps 0 1 (pos 1)) ≡ true }
    ensures distance { serves (by.Label []) (kind.Distance 0 1 (pos 1)) ≡ true }
    ensures flow { serves (by.Label []) (kind.Flow 0 1 (pos 1)) ≡ false }
    ensures tree { serves (by.Label []) (kind.Tree (pos 1)) ≡ false }
    ensures acyclic { serves (by.Label []) kind.Acyclic ≡ false }
{}

/// A flow serves predicates on flows.
pub fn flow_serves()
    ensures reach { serves (by.Flow []) (kind.Reach 0 1) ≡ false }
    ensures steps { serves (by.Flow []) (kind.Steps 0 1 (pos 1)) ≡ false }
    ensures distance { serves (by.Flow []) (kind.Distance 0 1 (pos 1)) ≡ false }
    ensures flow { serves (by.Flow []) (kind.Flow 0 1 (pos 1)) ≡ true }
    ensures tree { serves (by.Flow []) (kind.Tree (pos 1)) ≡ false }
    ensures acyclic { serves (by.Flow []) kind.Acyclic ≡ false }
{}

/// So does a flow cut.
pub fn flow_cut_serves()
    ensures reach { serves (by.FlowCut []) (kind.Reach 0 1) ≡ false }
    ensures steps { serves (by.FlowCut []) (kind.Steps 0 1 (pos 1)) ≡ false }
    ensures distance { serves (by.FlowCut []) (kind.Distance 0 1 (pos 1)) ≡ false }
    ensures flow { serves (by.FlowCut []) (kind.Flow 0 1 (pos 1)) ≡ true }
    ensures tree { serves (by.FlowCut []) (kind.Tree (pos 1)) ≡ false }
    ensures acyclic { serves (by.FlowCut []) kind.Acyclic ≡ false }
{}

/// A tree serves predicates on spanning trees.
pub fn tree_serves()
    ensures reach { serves (by.Tree []) (kind.Reach 0 1) ≡ false }
    ensures steps { serves (by.Tree []) (kind.Steps 0 1 (pos 1)) ≡ false }
    ensures distance { serves (by.Tree []) (kind.Distance 0 1 (pos 1)) ≡ false }
    ensures flow { serves (by.Tree []) (kind.Flow 0 1 (pos 1)) ≡ false }
    ensures tree { serves (by.Tree []) (kind.Tree (pos 1)) ≡ true }
    ensures acyclic { serves (by.Tree []) kind.Acyclic ≡ false }
{}

/// So does a split.
pub fn split_serves()
    ensures reach { serves (by.Split []) (kind.Reach 0 1) ≡ false }
    ensures steps { serves (by.Split []) (kind.Steps 0 1 (pos 1)) ≡ false }
    ensures distance { serves (by.Split []) (kind.Distance 0 1 (pos 1)) ≡ false }
    ensures flow { serves (by.Split []) (kind.Flow 0 1 (pos 1)) ≡ false }
    ensures tree { serves (by.Split []) (kind.Tree (pos 1)) ≡ true }
    ensures acyclic { serves (by.Split []) kind.Acyclic ≡ false }
{}

/// So does a least tree.
pub fn least_serves()
    ensures reach { serves (by.Least []) (kind.Reach 0 1) ≡ false }
    ensures steps { serves (by.Least []) (kind.Steps 0 1 (pos 1)) ≡ false }
    ensures distance { serves (by.Least []) (kind.Distance 0 1 (pos 1)) ≡ false }
    ensures flow { serves (by.Least []) (kind.Flow 0 1 (pos 1)) ≡ false }
    ensures tree { serves (by.Least []) (kind.Tree (pos 1)) ≡ true }
    ensures acyclic { serves (by.Least []) kind.Acyclic ≡ false }
{}

/// A cycle serves the predicate that there is none.
pub fn cycle_serves()
    ensures reach { serves (by.Cycle []) (kind.Reach 0 1) ≡ false }
    ensures steps { serves (by.Cycle []) (kind.Steps 0 1 (pos 1)) ≡ false }
    ensures distance { serves (by.Cycle []) (kind.Distance 0 1 (pos 1)) ≡ false }
    ensures flow { serves (by.Cycle []) (kind.Flow 0 1 (pos 1)) ≡ false }
    ensures tree { serves (by.Cycle []) (kind.Tree (pos 1)) ≡ false }
    ensures acyclic { serves (by.Cycle []) kind.Acyclic ≡ true }
{}

/// So does an order.
pub fn order_serves()
    ensures reach { serves (by.Order []) (kind.Reach 0 1) ≡ false }
    ensures steps { serves (by.Order []) (kind.Steps 0 1 (pos 1)) ≡ false }
    ensures distance { serves (by.Order []) (kind.Distance 0 1 (pos 1)) ≡ false }
    ensures flow { serves (by.Order []) (kind.Flow 0 1 (pos 1)) ≡ false }
    ensures tree { serves (by.Order []) (kind.Tree (pos 1)) ≡ false }
    ensures acyclic { serves (by.Order []) kind.Acyclic ≡ true }
{}

/// A path, a flow, a tree and an order show that a predicate holds. The others show that one fails.
pub fn what_words_show()
    ensures path { is_positive (by.Path []) ≡ true }
    ensures cut { is_positive (by.Cut []) ≡ false }
    ensures label { is_positive (by.Label []) ≡ false }
    ensures flow { is_positive (by.Flow []) ≡ true }
    ensures flow_cut { is_positive (by.FlowCut []) ≡ false }
    ensures tree { is_positive (by.Tree []) ≡ true }
    ensures split { is_positive (by.Split []) ≡ false }
    ensures least { is_positive (by.Least []) ≡ false }
    ensures cycle { is_positive (by.Cycle []) ≡ false }
    ensures order { is_positive (by.Order []) ≡ true }
{}

/// A path, a flow, a tree and a cycle rest on edges that are present. The others rest on edges that are absent.
pub fn what_words_rest_on()
    ensures path { rests_on_present (by.Path []) ≡ true }
    ensures cut { rests_on_present (by.Cut []) ≡ false }
    ensures label { rests_on_present (by.Label []) ≡ false }
    ensures flow { rests_on_present (by.Flow []) ≡ true }
    ensures flow_cut { rests_on_present (by.FlowCut []) ≡ false }
    ensures tree { rests_on_present (by.Tree []) ≡ true }
    ensures split { rests_on_present (by.Split []) ≡ false }
    ensures least { rests_on_present (by.Least []) ≡ false }
    ensures cycle { rests_on_present (by.Cycle []) ≡ true }
    ensures order { rests_on_present (by.Order []) ≡ false }
{}
