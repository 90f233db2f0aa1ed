//! What a theory keeps on a side: rows where they are few, and what searches found where they are many.
//!
//! Rows answer without a search, but take memory for each node of each row. Where a graph is large and its atoms have many
//! first nodes, that would be more than there is. What searches found takes memory for the atoms alone.

use crate::rows_side::side_of_rows;
use crate::{
    Evidence, Force, Frame, KeptSide, Kind, NewSide, Question, Rows, RowsSide, Side, Threat,
};
use std::alloc::{AllocError, Global};

/// What is kept of the atoms on one side. It is chosen once, when nothing was seen.
#[derive(Drop)]
pub enum EitherSide<R> {
    /// Rows of what was found along the edges of the side.
    Rows(RowsSide<R>),
    /// The evidence that the last searches found.
    Searches(KeptSide),
}

impl<K: Kind, R: Rows<K>> Side<K> for EitherSide<R> {
    ghost use Rattle.mono_theory.specs.EitherSides.{IsEitherBack, IsEitherDecided, IsEitherKept, IsEitherRight, is_either_possible};

    ghost possible = { λ s. is_either_possible R.IS_POSSIBLE s };

    ghost is_right = { λ s f. IsEitherRight K.covers (is_either_possible R.IS_POSSIBLE s) K.IS_THOROUGH R.are_right R.shown f s };

    ghost keeps = { λ f l s r. IsEitherKept f l s r };

    ghost keeps_back = { λ _ kept s r. IsEitherBack kept s r };

    ghost decides = { λ s f. IsEitherDecided R.stand f s };

    fn assign(&mut self, frame: &Frame) {
        match self {
            EitherSide::Rows(side) => <RowsSide<R> as Side<K>>::assign(side, frame),
            EitherSide::Searches(side) => <KeptSide as Side<K>>::assign(side, frame),
        }
    }

    fn undo_to(&mut self, frame: &Frame, kept: usize) {
        match self {
            EitherSide::Rows(side) => <RowsSide<R> as Side<K>>::undo_to(side, frame, kept),
            EitherSide::Searches(side) => <KeptSide as Side<K>>::undo_to(side, frame, kept),
        }
    }

    fn force(&mut self, alloc: Global, kind: &mut K, frame: &Frame) -> Result<Force, AllocError> {
        match self {
            EitherSide::Rows(side) => <RowsSide<R> as Side<K>>::force(side, alloc, kind, frame),
            EitherSide::Searches(side) => <KeptSide as Side<K>>::force(side, alloc, kind, frame),
        }
    }

    fn threat(&mut self, alloc: Global, frame: &Frame) -> Result<Option<Threat>, AllocError> {
        match self {
            EitherSide::Rows(side) => <RowsSide<R> as Side<K>>::threat(side, alloc, frame),
            EitherSide::Searches(side) => <KeptSide as Side<K>>::threat(side, alloc, frame),
        }
    }

    fn explain(
        &self,
        alloc: Global,
        kind: &mut K,
        frame: &mut Frame,
        question: Question,
    ) -> Result<Evidence, AllocError> {
        match self {
            EitherSide::Rows(side) => {
                <RowsSide<R> as Side<K>>::explain(side, alloc, kind, frame, question)
            }
            EitherSide::Searches(side) => {
                <KeptSide as Side<K>>::explain(side, alloc, kind, frame, question)
            }
        }
    }

    fn prefers(&self, frame: &Frame, var: u32) -> bool {
        match self {
            EitherSide::Rows(side) => <RowsSide<R> as Side<K>>::prefers(side, frame, var),
            EitherSide::Searches(side) => <KeptSide as Side<K>>::prefers(side, frame, var),
        }
    }

    fn wanted(&self, frame: &Frame, place: u32) -> Option<u32> {
        match self {
            EitherSide::Rows(side) => <RowsSide<R> as Side<K>>::wanted(side, frame, place),
            EitherSide::Searches(side) => <KeptSide as Side<K>>::wanted(side, frame, place),
        }
    }
}

impl<K: Kind, R: Rows<K>> NewSide<K> for EitherSide<R> {
    fn of_frame(alloc: Global, frame: &Frame, possible: bool) -> Result<Self, AllocError> {
        if possible == R::IS_POSSIBLE && R::are_few(alloc, frame)? {
            let side = side_of_rows::<K, R>(alloc, frame)?;
            return Ok(EitherSide::Rows(side));
        }
        let side = <KeptSide as NewSide<K>>::of_frame(alloc, frame, possible)?;
        Ok(EitherSide::Searches(side))
    }
}
