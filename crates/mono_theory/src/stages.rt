//! The stages of the atoms on one side, and which atom to look at next.
//!
//! All atoms stand in one ranking: first those that show, in the order of their literals, then those that wait, then those
//! that stand. So an atom changes its stage by an exchange with the one beside a border, and going back moves a border over
//! the atoms that no longer show. No call but `new` takes memory.

ghost use Rattle.std.specs.Prelude.{◌≡◌, ◌≢◌, ◌⊎◌, ◌<◌, ◌≤◌, ◌-◌, ℕ, false, map, length, replicate, slice_set, slice_index_or, All, IfOk, IfNone, IfSome, MatchOption, IsTrue};
ghost use Rattle.mono_base.specs.Ranking.{AreInverse};
ghost use Rattle.mono_theory.specs.declared.stage.Stage.TheVariants as stage;
ghost use Rattle.mono_theory.specs.Stages.{AreRuns, IsChange, IsUpTo, NoneWaits, stage_at, stage_by, undone, waiting};

use crate::Stage;
use mono_base::Ranking;
use std::alloc::{AllocError, Global};
use std::marker::Model;

/// The stage of each atom. Contracts see the list of stages by atom.
pub(crate) struct Stages {
    stages: Vec<Stage>,
    /// All atoms: those that show, then those that wait, then those that stand.
    ranking: Ranking,
    /// How many show.
    shown: usize,
    /// How many don't stand.
    border: usize,
}

impl Drop for Stages {
    fn drop(self) {
        let Stages {
            stages: _,
            ranking: _,
            shown: _,
            border: _,
        } = self;
    }
}

impl Model for Stages {
    ghost use Rattle.std.specs.Prelude.{List};
    ghost use Rattle.mono_theory.specs.declared.stage.Stage.{Stage};
    ghost use Rattle.mono_theory.specs.Stages.{IsTable};

    ghost Value = { List Stage };

    ghost view = { λ s. s.stages.items };

    ghost invariant = { λ s. IsTable s.ranking s.stages.items s.shown s.border };
}

/// The atom at a place moves to another one by an exchange, and has another stage there.
fn change(ranking: &mut Ranking, stages: &mut Vec<Stage>, place: usize, target: usize, its: Stage)
    requires inverse { AreInverse ranking.old.items ranking.old.places }
    requires as_many { length stages.old.items ≡ length ranking.old.items }
    requires place { place < length ranking.old.items }
    requires target { target < length ranking.old.items }
    ensures inverse { AreInverse ranking.new.items ranking.new.places }
    ensures as_many { length ranking.new.items ≡ length ranking.old.items }
    ensures stages { stages.new.items ≡ slice_set stages.old.items (slice_index_or ranking.old.items place 0) its }
    ensures change { IsChange ranking.old.items stages.old.items ranking.new.items stages.new.items place target its }
{
    let atom = ranking.item(place);
    ranking.exchange(place, target);
    stages[atom as usize] = its;
}

/// Whether an atom of this stage stands.
fn is_standing(its: Stage) -> bool
    ensures stands { IsTrue result → its ≡ stage.Stands }
    ensures other { result ≡ false → its ≢ stage.Stands }
    ensures same { result ≡ false → waiting its ≡ its }
{
    matches!(its, Stage::Stands)
}

/// Whether an atom of this stage shows only by literals after the first `kept`.
fn is_after(its: Stage, kept: usize) -> bool
    ensures after { IsTrue result → undone kept its ≡ stage.Waits }
    ensures up_to { result ≡ false → IsUpTo kept its }
{
    match its {
        Stage::Shows(count) => count > kept,
        _ => false,
    }
}

/// The last atom that shows, if it does so only by literals after the first `kept`.
fn last_after(ranking: &Ranking, stages: &Vec<Stage>, shown: usize, kept: usize) -> Option<u32>
    requires as_many { length stages.now.items ≡ length ranking.now.items }
    requires within { shown ≤ length ranking.now.items }
    ensures none { IfNone result ((shown ≡ 0) ⊎ IsUpTo kept (stage_by ranking.now.items stages.now.items (shown - 1))) }
    ensures some { IfSome result (λ a. (0 < shown) × (a ≡ slice_index_or ranking.now.items (shown - 1) 0)
        × (undone kept (stage_at stages.now.items a) ≡ stage.Waits)) }
{
    if shown == 0 {
        return None;
    }
    let atom = ranking.item(shown - 1);
    if is_after(stages[atom as usize], kept) {
        Some(atom)
    } else {
        None
    }
}

/// The atoms that show only by literals after the first `kept` wait.
fn undo_stages_to(ranking: &Ranking, stages: &mut Vec<Stage>, shown: usize, kept: usize) -> usize
    requires inverse { AreInverse ranking.now.items ranking.now.places }
    requires as_many { length stages.old.items ≡ length ranking.now.items }
    requires runs { (border : ℕ) × AreRuns ranking.now.items stages.old.items shown border }
    ensures runs { (border : ℕ) → AreRuns ranking.now.items stages.old.items shown border → AreRuns ranking.now.items stages.new.items result border }
    ensures stages { stages.new.items ≡ map (undone kept) stages.old.items }
{
    let mut left = shown;
    while let Some(atom) = last_after(ranking, stages, left, kept) {
        stages[atom as usize] = Stage::Waits;
        left -= 1;
    }
    left
}

impl Stages {
    /// All atoms wait.
    pub(crate) fn new(alloc: Global, atoms: u32) -> Result<Stages, AllocError>
        ensures { IfOk result (λ s. s ≡ replicate atoms stage.Waits) }
    {
        let stages = vec![in alloc; Stage::Waits; atoms as usize]?;
        let ranking = Ranking::new(alloc, atoms)?;
        Ok(Stages {
            stages,
            ranking,
            shown: 0,
            border: atoms as usize,
        })
    }

    /// The stage of an atom.
    pub(crate) fn stage(&self, atom: u32) -> Stage
        requires { atom < length self.now }
        ensures { result ≡ stage_at self.now atom }
    {
        self.stages[atom as usize]
    }

    /// Whether an atom stands.
    pub(crate) fn is_standing(&self, atom: u32) -> bool
        requires { atom < length self.now }
        ensures { result ≡ false → stage_at self.now atom ≢ stage.Stands }
    {
        is_standing(self.stage(atom))
    }

    /// An atom that waits: `None` exactly where none does.
    pub(crate) fn next(&self) -> Option<u32>
        ensures { MatchOption result (NoneWaits self.now) (λ a. (a < length self.now) × (stage_at self.now a ≡ stage.Waits)) }
    {
        if self.shown == self.border {
            return None;
        }
        Some(self.ranking.item(self.shown))
    }

    /// An atom that waits stands.
    pub(crate) fn stand(&mut self, atom: u32)
        requires atom { atom < length self.old }
        requires waits { stage_at self.old atom ≡ stage.Waits }
        ensures { self.new ≡ slice_set self.old atom stage.Stands }
    {
        let place = self.ranking.place(atom);
        let last = self.border - 1;
        change(
            &mut self.ranking,
            &mut self.stages,
            place,
            last,
            Stage::Stands,
        );
        self.border = last;
    }

    /// An atom that waits shows, by no fewer literals than any other.
    pub(crate) fn show(&mut self, atom: u32, count: usize)
        requires atom { atom < length self.old }
        requires waits { stage_at self.old atom ≡ stage.Waits }
        requires latest { All (IsUpTo count) self.old }
        ensures { self.new ≡ slice_set self.old atom (stage.Shows count) }
    {
        let place = self.ranking.place(atom);
        change(
            &mut self.ranking,
            &mut self.stages,
            place,
            self.shown,
            Stage::Shows(count),
        );
        self.shown += 1;
    }

    /// The atom waits, if it stands.
    pub(crate) fn wait(&mut self, atom: u32)
        requires { atom < length self.old }
        ensures { self.new ≡ slice_set self.old atom (waiting (stage_at self.old atom)) }
    {
        if !is_standing(self.stages[atom as usize]) {
            return;
        }
        let place = self.ranking.place(atom);
        change(
            &mut self.ranking,
            &mut self.stages,
            place,
            self.border,
            Stage::Waits,
        );
        self.border += 1;
    }

    /// The atoms that show only by literals after the first `kept` wait.
    pub(crate) fn undo_to(&mut self, kept: usize)
        ensures { self.new ≡ map (undone kept) self.old }
    {
        self.shown = undo_stages_to(&self.ranking, &mut self.stages, self.shown, kept);
    }
}
