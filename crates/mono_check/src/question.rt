//! Predicates on walks, as they are asked of a search.

ghost use Rattle.std.specs.Prelude.{◌≡◌, ◌<◌, ◌≤◌, ◌⊎◌, ℕ, Bool, All, IfOk, IfSome, IsTrue, length, map, take, vec_len};
ghost use Rattle.mono_check.specs.Questions.{IsQuestion, IsQuestionOf, AreAlike, IsAnswered, question_at, target_of, truth_at};

use mono_paths::{Measure, Target};
use mono_problem::{Atom, Predicate, Problem};
use std::alloc::{AllocError, Global};

/// Whether a walk leads from one node to another within a bound: the predicate at some place.
///
/// The order puts those together that one search answers: of one graph, from one node, by one measure.
#[derive(Clone, Copy, PartialEq, Eq, PartialOrd, Ord)]
pub(crate) struct WalkQuestion {
    pub graph: u32,
    pub from: u32,
    pub measure: Measure,
    pub to: u32,
    pub most: i64,
    pub place: u32,
}

/// What the predicate at a place asks, if it is one on walks.
fn question_of(atom: Atom, place: u32) -> Option<WalkQuestion>
    ensures { IfSome result (IsQuestionOf atom place) }
{
    let (from, to, measure, most) = match atom.predicate {
        Predicate::Reach { from, to } => (from, to, Measure::Free, 0),
        Predicate::Steps { from, to, most } => (from, to, Measure::Steps, most),
        Predicate::Distance { from, to, most } => (from, to, Measure::Weight, most),
        _ => return None,
    };
    Some(WalkQuestion {
        graph: atom.graph,
        from,
        measure,
        to,
        most,
        place,
    })
}

/// Adds what the predicate at a place asks, if it is one on walks.
fn add_question(
    problem: &Problem,
    questions: &mut Vec<WalkQuestion>,
    place: u32,
) -> Result<(), AllocError>
    requires place { place < length problem.now.atoms }
    ensures { IfOk result (λ _. All (IsQuestion problem.now) questions.old.items → All (IsQuestion problem.now) questions.new.items) }
{
    // Each predicate is over its graph.
    problem.known();
    if let Some(question) = question_of(problem.atom(place + 1), place) {
        questions.push(question)?;
    }
    Ok(())
}

/// What the predicates on walks ask, those together that one search answers.
pub(crate) fn questions_in_order(
    alloc: Global,
    problem: &Problem,
) -> Result<Vec<WalkQuestion>, AllocError>
    ensures { IfOk result (λ questions. All (IsQuestion problem.now) questions.items) }
{
    let mut questions = Vec::new(alloc);
    for place in 0..problem.atom_count() {
        add_question(problem, &mut questions, place)?;
    }
    questions.sort()?;
    Ok(questions)
}

/// Whether one search answers both.
fn are_alike(one: WalkQuestion, other: WalkQuestion) -> bool
    ensures { IsTrue result → AreAlike one other }
{
    one.graph == other.graph && one.from == other.from && one.measure == other.measure
}

/// How many questions, from the first on, are alike.
pub(crate) fn alike_count(questions: &[WalkQuestion]) -> usize
    requires { 0 < length questions.now }
    ensures some { 0 < result }
    ensures within { result ≤ length questions.now }
    ensures alike { All (AreAlike (question_at questions.now 0)) (take result questions.now) }
{
    let first = questions[0];
    let mut count = 1;
    while count < questions.len() && are_alike(first, questions[count]) {
        count += 1;
    }
    count
}

/// The nodes and bounds that are asked about.
pub(crate) fn targets_of(
    alloc: Global,
    questions: &[WalkQuestion],
) -> Result<Vec<Target>, AllocError>
    ensures { IfOk result (λ targets. targets.items ≡ map target_of questions.now) }
{
    let mut targets = Vec::new(alloc);
    for question in questions {
        targets.push(Target {
            node: question.to,
            most: question.most,
        })?;
    }
    Ok(targets)
}

/// Keeps the answers by the places of the questions.
pub(crate) fn keep_answers(
    truths: &mut Vec<Option<bool>>,
    questions: &[WalkQuestion],
    answers: &[bool],
)
    requires each { length answers.now ≡ length questions.now }
    requires places { All (λ q. q.place < vec_len truths.old) questions.now }
    ensures len { vec_len truths.new ≡ vec_len truths.old }
    ensures kept { (k : ℕ) (b : Bool) → truth_at truths.new.items k ≡ Some b
        → (truth_at truths.old.items k ≡ Some b) ⊎ IsAnswered questions.now answers.now k b }
{
    for at in 0..questions.len() {
        truths[questions[at].place as usize] = Some(answers[at]);
    }
}
