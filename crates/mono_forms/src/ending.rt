//! What a run comes to before it writes, and the text that it writes then.
//!
//! It is also the error of each step that may end a run, so that `?` ends it there.

ghost use Rattle.std.specs.Prelude.{◌≡◌, ◌≢◌, IfOk};
ghost use Rattle.mono_forms.specs.Endings.{status_of, text_of, TakesMemory, unread_ending, unjudged_ending, refused_ending, answer_status as status_of_answer, best_status as status_of_best, outcome_status as status_of_outcome, verdict_status as status_of_verdict, verdict_text as text_of_verdict};
ghost use Rattle.mono_forms.specs.Texts.{IsTextOf, bytes_of};
ghost use Rattle.mono_forms.specs.declared.ending.Ending.{Ending as EndingOf};
ghost use Rattle.mono_forms.specs.declared.ending.Ending.TheVariants.{Memory};

use crate::asking::AskRefusal;
use crate::best_text::print_best;
use crate::core_text::print_outcome;
use crate::line::{progress_line, refused_line, rejected_line};
use crate::status::Status;
use crate::summary::Summary;
use crate::text::Text;
use mono_answer::{Answer, print_answer};
use mono_base::Row;
use mono_best::BestOutcome;
use mono_check::{CheckRefusal, Verdict};
use mono_core::CoreOutcome;
use mono_gnf::{GnfFault, GnfRefusal};
use mono_io::ReadRefusal;
use std::alloc::{AllocError, Global};

/// The one line that names all commands.
const USAGE: &[u8] =
    b"usage: solve FILE [--conflicts N] | check FILE ANSWER | print FILE | gen KIND SIZE SEED [--solve] | migrate FILE ANSWER VERSION | core FILE LIT.. | check-with FILE ANSWER LIT.. | best FILE ATOM | ask FILE ATOM B | team FILE K R\n";

/// What a run comes to.
#[derive(Drop)]
pub enum Ending {
    /// The words are no command.
    Words,
    /// A file could not be read.
    ReadFault,
    /// No memory was found.
    Memory,
    /// A file has more bytes than its limit.
    TooLong,
    /// The input's first malformed line, and what is wrong with it; line 0 where the assumptions find no room.
    Refused { line: u64, fault: GnfFault },
    /// An answer to the problem.
    Solved(Answer),
    /// The verdict on the answer.
    Judged(Verdict),
    /// A generated input that was solved, summed up.
    Summed(Summary),
    /// The printed form of the input or of one that asks for a bound, a generated input, or a migrated answer.
    Printed(Row<u8>),
    /// What was found of the input under assumptions.
    Narrowed(CoreOutcome),
    /// What was found of the bound of one of the input's predicates.
    Bounded(BestOutcome),
    /// The bound of the predicate can't be asked for.
    Unasked(AskRefusal),
}

impl From<AllocError> for Ending {
    ghost from_gives = { λ _ ending. ending ≡ Memory };

    fn from(_: AllocError) -> Ending {
        Ending::Memory
    }
}

impl From<ReadRefusal> for Ending {
    ghost from_gives = { λ refusal ending. ending ≡ unread_ending refusal };

    fn from(refusal: ReadRefusal) -> Ending {
        match refusal {
            ReadRefusal::Memory => Ending::Memory,
            ReadRefusal::Fault => Ending::ReadFault,
            ReadRefusal::TooLong => Ending::TooLong,
        }
    }
}

impl From<CheckRefusal> for Ending {
    ghost from_gives = { λ refusal ending. ending ≡ unjudged_ending refusal };

    fn from(refusal: CheckRefusal) -> Ending {
        match refusal {
            CheckRefusal::Memory => Ending::Memory,
            CheckRefusal::Fault => Ending::ReadFault,
            CheckRefusal::TooLong => Ending::TooLong,
        }
    }
}

impl From<GnfRefusal> for Ending {
    ghost from_gives = { λ refusal ending. ending ≡ refused_ending refusal };

    fn from(refusal: GnfRefusal) -> Ending {
        match refusal {
            GnfRefusal::Memory => Ending::Memory,
            GnfRefusal::At { line, fault } => Ending::Refused { line, fault },
        }
    }
}

impl Ending {
    /// The status of a run that comes to this, unless memory is wanting for the text or a write fails.
    pub fn status(&self) -> Status
        ensures { result ≡ status_of self.now }
    {
        match self {
            Ending::Words => Status::Words,
            Ending::ReadFault => Status::ReadFault,
            Ending::Memory => Status::Memory,
            Ending::TooLong => Status::TooLong,
            Ending::Refused { line: _, fault: _ } => Status::Refused,
            Ending::Solved(answer) => answer_status(answer),
            Ending::Judged(verdict) => verdict_status(*verdict),
            Ending::Summed(summary) => answer_status(&summary.answer),
            Ending::Printed(_) => Status::Printed,
            Ending::Narrowed(outcome) => outcome_status(outcome),
            Ending::Bounded(outcome) => best_status(outcome),
            Ending::Unasked(_) => Status::Refused,
        }
    }

    /// The text that is due, unless no memory was found: then none is. No memory is wanting for a text of constants or of one line, nor
    /// for one that is there already.
    pub fn into_text(self, alloc: Global) -> Result<Text, AllocError>
        ensures { IsTextOf self result }
    {
        match self {
            Ending::Words => Ok(Text::Fixed(USAGE)),
            Ending::ReadFault => Ok(Text::Fixed(b"read fault\n")),
            Ending::Memory => Err(AllocError),
            Ending::TooLong => Ok(Text::Fixed(b"too long\n")),
            Ending::Refused { line, fault } => Ok(Text::Line(refused_line(line, fault))),
            Ending::Solved(answer) => owned(print_answer(alloc, &answer)),
            Ending::Judged(verdict) => Ok(verdict_text(verdict)),
            Ending::Summed(summary) => owned(summary.text(alloc)),
            Ending::Printed(text) => Ok(Text::Owned(text.into_vec())),
            Ending::Narrowed(outcome) => owned(print_outcome(alloc, &outcome)),
            Ending::Bounded(outcome) => owned(print_best(alloc, &outcome)),
            Ending::Unasked(refusal) => Ok(Text::Fixed(refusal.text())),
        }
    }
}

/// The text of an ending that takes memory for it, where the memory was found.
fn owned(text: Result<Vec<u8>, AllocError>) -> Result<Text, AllocError>
    ensures { (e : EndingOf) → TakesMemory e → e ≢ Ending.Memory → IfOk text (λ bytes. bytes.items ≡ text_of e) → IsTextOf e result }
{
    Ok(Text::Owned(text?))
}

/// How a run ends that comes to this answer.
fn answer_status(answer: &Answer) -> Status
    ensures { result ≡ status_of_answer answer.now }
{
    match answer {
        Answer::Model(_) => Status::Satisfiable,
        Answer::Refutation(_) => Status::Unsatisfiable,
        Answer::Progress(_) => Status::Unknown,
    }
}

/// How a run of `core` ends that comes to this outcome.
fn outcome_status(outcome: &CoreOutcome) -> Status
    ensures { result ≡ status_of_outcome outcome.now }
{
    match outcome {
        CoreOutcome::Model(_) => Status::Satisfiable,
        CoreOutcome::Core {
            lits: _,
            steps: _,
            needs: _,
        } => Status::Unsatisfiable,
        CoreOutcome::Unknown(_) => Status::Unknown,
    }
}

/// How a run of `best` ends that comes to this outcome.
fn best_status(outcome: &BestOutcome) -> Status
    ensures { result ≡ status_of_best outcome.now }
{
    match outcome {
        BestOutcome::Best {
            bound: _,
            model: _,
            steps: _,
        } => Status::Satisfiable,
        BestOutcome::Never(_) => Status::Unsatisfiable,
        BestOutcome::Beyond(_) => Status::Satisfiable,
        BestOutcome::Unknown { bound: _, steps: _ } => Status::Unknown,
    }
}

/// How a run ends that comes to this verdict.
fn verdict_status(verdict: Verdict) -> Status
    ensures { result ≡ status_of_verdict verdict }
{
    match verdict {
        Verdict::Model | Verdict::Refutation | Verdict::Progress(_) => Status::Accepted,
        Verdict::Rejected { line: _, reason: _ } => Status::Rejected,
    }
}

/// The line of a verdict.
pub(crate) fn verdict_text(verdict: Verdict) -> Text
    ensures { bytes_of result ≡ text_of_verdict verdict }
{
    match verdict {
        Verdict::Model => Text::Fixed(b"accepted model\n"),
        Verdict::Refutation => Text::Fixed(b"accepted refutation\n"),
        Verdict::Progress(count) => Text::Line(progress_line(count)),
        Verdict::Rejected { line, reason } => Text::Line(rejected_line(line, reason)),
    }
}
