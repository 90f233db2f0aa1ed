//! Rows worked by hand of the definitions of the low crates, and of those of checking.
//!
//! The rows belong beside those in the `worked` modules of these crates. They stand here since a row more then makes nothing
//! else be proved again.
#![tactic(auto)]

/// Lemmas by cycles and by orders, and answers that have them.
pub mod acyclic;
/// Printed lines, and numbers that the format can't write.
pub mod answers;
/// Partial assignments, numbers in an order, and lists of places.
pub mod assignments;
/// Steps that are carried to other clauses, and their new numbers.
pub mod carried;
/// Clauses that are unit or false, and stores of clauses.
pub mod clauses;
/// Cycles, and orders of the nodes.
pub mod cycles;
/// The predicate that there is no cycle.
pub mod falling;
/// What searches say of what they find.
pub mod found;
/// Generated texts.
pub mod generated;
/// Edges from a node to itself, parallel edges, what comes again, and the numbers of edges.
pub mod graph;
/// Graphs that grow, and what lists of amounts and labels name.
pub mod growing;
/// Nodes and clauses of inputs, and words that no other row reads.
pub mod inputs;
/// The verdicts that values lack, the answers that texts stand for, and models and refutations that are migrated.
pub mod judged;
/// Late reasons that read all that was shown, and what is no reason and no step back.
pub mod late;
/// What a conflict teaches, and what it doesn't.
pub mod learn;
/// Problems that go up to their limits, and what of an input no other row reads.
pub mod limits;
/// Problems of two graphs, and what is added to them.
pub mod problem;
/// Texts that are read from a shelf.
pub mod shelves;
/// Resolvents, unit propagation, justified steps, new clauses, and lemmas.
pub mod steps;
/// Trails and the order of decision.
pub mod trail;
/// Refutations that are trimmed.
pub mod trimmed;
/// The wrong predicate that a verdict names.
pub mod verdicts;
/// Answers of version 2, and migrated answers.
pub mod versions;
/// The greatest names in witnesses, answers that version 1 can't write, and lines for which memory is missing.
pub mod writable;
