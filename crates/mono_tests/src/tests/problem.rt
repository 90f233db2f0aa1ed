//! Each call once, on a small problem that has something of each kind.

use super::{add_clause, assert_count, assert_same};
use mono_base::Lit;
use mono_problem::{Draft, Predicate, Problem, Totals, Use};
use std::alloc::{AllocError, Global};
use std::process::Abort;
use std::test::Fail;

fn clause(alloc: Global, numbers: &[i32]) -> Result<Vec<Lit>, AllocError> {
    let mut lits = Vec::new(alloc);
    for number in numbers {
        if let Some(lit) = Lit::new(*number) {
            lits.push(lit)?;
        }
    }
    Ok(lits)
}

/// Adds the clause of these numbers, where there is room.
fn add(draft: &mut Draft, alloc: Global, numbers: &[i32]) -> Result<(), AllocError> {
    let lits = clause(alloc, numbers)?;
    add_clause(draft, lits.as_slice())
}

/// Declares a graph, where it is new and there is room.
fn declare(draft: &mut Draft, id: u32, nodes: u32) -> Result<Option<u32>, AllocError> {
    let totals = draft.totals();
    if draft.graph_of(id) == None
        && 0 < nodes
        && nodes <= 1_000_000
        && totals.nodes + nodes <= 1_000_000
        && totals.graphs < 1024
    {
        return Ok(Some(draft.add_graph(id, nodes)?));
    }
    Ok(None)
}

/// Adds an edge, where all that it names is there.
fn join(
    draft: &mut Draft,
    id: u32,
    from: u32,
    to: u32,
    var: u32,
) -> Result<Option<u32>, AllocError> {
    let Some(graph) = draft.graph_of(id) else {
        return Ok(None);
    };
    let nodes = draft.nodes_of(graph);
    let edges = draft.totals().edges;
    if from < nodes && to < nodes && 0 < var && var <= 1_000_000 && edges < 1_000_000 {
        return Ok(Some(draft.add_edge(graph, from, to, var, 5)?));
    }
    Ok(None)
}

/// Adds a reachability predicate, where all that it names is there.
fn ask(
    draft: &mut Draft,
    id: u32,
    from: u32,
    to: u32,
    var: u32,
) -> Result<Option<u32>, AllocError> {
    let Some(graph) = draft.graph_of(id) else {
        return Ok(None);
    };
    let nodes = draft.nodes_of(graph);
    let atoms = draft.totals().atoms;
    if from < nodes && to < nodes && 0 < var && var <= 1_000_000 && atoms < 100_000 {
        return Ok(Some(draft.add_atom(graph, var, Predicate::Reach { from, to })?));
    }
    Ok(None)
}

/// Two graphs, with edges by turns.
fn with_graphs(draft: &mut Draft) -> Result<(), AllocError> {
    declare(draft, 7, 3)?;
    declare(draft, 4, 2)?;
    declare(draft, 7, 2)?;
    join(draft, 7, 0, 1, 2)?;
    join(draft, 4, 1, 0, 2)?;
    join(draft, 7, 1, 2, 3)?;
    Ok(())
}

/// Two predicates, three clauses, and a variable that nothing names.
fn with_clauses(draft: &mut Draft, alloc: Global) -> Result<(), AllocError> {
    ask(draft, 7, 0, 2, 9)?;
    ask(draft, 4, 0, 1, 2)?;
    add(draft, alloc, &[1, -9])?;
    add(draft, alloc, &[])?;
    add(draft, alloc, &[-3, -3, 11])?;
    draft.raise_vars(10);
    Ok(())
}

/// Adds what the sample has.
fn fill(draft: &mut Draft, alloc: Global) -> Result<(), AllocError> {
    with_graphs(draft)?;
    with_clauses(draft, alloc)
}

fn sample(alloc: Global) -> Result<Draft, AllocError> {
    let mut draft = Draft::new(alloc);
    fill(&mut draft, alloc)?;
    Ok(draft)
}

fn sample_problem(alloc: Global) -> Result<Problem, AllocError> {
    let draft = sample(alloc)?;
    draft.finish()
}

#[test]
fn a_draft_counts_what_it_was_given(rt: HostRuntime) -> Result<(), Fail> {
    let totals = Totals {
        vars: 11,
        graphs: 2,
        nodes: 5,
        edges: 3,
        atoms: 2,
        clauses: 3,
        literals: 5,
    };
    assert_same(&rt, sample(rt.alloc())?.totals(), totals);
    Ok(())
}

fn assert_graphs(rt: &impl Abort, problem: &Problem) {
    assert_same(rt, problem.vars(), 11);
    assert_count(rt, problem.graph_count(), 2);
    assert_same(rt, problem.graph_id(1), 4);
    assert_same(rt, problem.graph(0).nodes(), 3);
    assert_count(rt, problem.edge_count(), 3);
    assert_same(rt, problem.edge_home(2), 1);
    assert_same(rt, problem.edge_home(3), 0);
}

#[test]
fn a_problem_has_its_graphs(rt: HostRuntime) -> Result<(), Fail> {
    let problem = sample_problem(rt.alloc())?;
    assert_graphs(&rt, &problem);
    Ok(())
}

fn assert_atoms(rt: &impl Abort, problem: &Problem) {
    assert_count(rt, problem.atom_count(), 2);
    assert_same(rt, problem.atom(2).var, 2);
    assert_same(
        rt,
        problem.atom(1).predicate,
        Predicate::Reach { from: 0, to: 2 },
    );
}

fn assert_clauses(rt: &impl Abort, problem: &Problem) {
    assert_count(rt, problem.clause_count(), 3);
    assert_same(rt, problem.clause(3).len(), 3);
    assert_same(rt, problem.clause(2).len(), 0);
}

#[test]
fn a_problem_has_its_atoms_and_clauses(rt: HostRuntime) -> Result<(), Fail> {
    let problem = sample_problem(rt.alloc())?;
    assert_atoms(&rt, &problem);
    assert_clauses(&rt, &problem);
    Ok(())
}

fn assert_uses(rt: &impl Abort, problem: &Problem) {
    let two = [
        Use::Edge { graph: 0, place: 0 },
        Use::Edge { graph: 1, place: 0 },
        Use::Atom { number: 2 },
    ];
    assert_same(rt, problem.uses(2), two.as_slice());
    assert_same(
        rt,
        problem.uses(3),
        [Use::Edge { graph: 0, place: 1 }].as_slice(),
    );
    assert_same(rt, problem.uses(9), [Use::Atom { number: 1 }].as_slice());
    assert_same(rt, problem.uses(12).len(), 0);
}

#[test]
fn the_uses_of_a_variable_are_its_edges_and_atoms(rt: HostRuntime) -> Result<(), Fail> {
    let problem = sample_problem(rt.alloc())?;
    assert_uses(&rt, &problem);
    Ok(())
}

/// Three clauses over two variables.
fn with_choice(draft: &mut Draft, alloc: Global) -> Result<(), AllocError> {
    add(draft, alloc, &[1, 2])?;
    add(draft, alloc, &[-1])?;
    add(draft, alloc, &[-1, -2])?;
    Ok(())
}

fn choice(alloc: Global) -> Result<Problem, AllocError> {
    let mut draft = Draft::new(alloc);
    with_choice(&mut draft, alloc)?;
    draft.finish()
}

fn assert_first_false(rt: &impl Abort, problem: &Problem) {
    assert_count(rt, problem.vars(), 2);
    assert_same(rt, problem.first_false_clause(&[false, true]), None);
    assert_same(rt, problem.first_false_clause(&[true, true]), Some(2));
    assert_same(rt, problem.first_false_clause(&[false, false]), Some(1));
}

#[test]
fn the_first_false_clause_is_named(rt: HostRuntime) -> Result<(), Fail> {
    let problem = choice(rt.alloc())?;
    assert_first_false(&rt, &problem);
    Ok(())
}
