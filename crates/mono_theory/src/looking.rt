//! A theory looks at the atoms that wait on one side.
//!
//! An atom stands on its support, where that is right again. Where what was last shown of it is right, it forces its literal,
//! or it shows if that is true. Only for the rest is there a search: it finds another support, or evidence of the other kind.
//! Where predicates of settled atoms needn't be decided, a settled atom shows without a look.

ghost use Rattle.std.specs.Prelude.{◌≡◌, ◌<◌, not, length, IfOk};
ghost use Rattle.mono_theory.specs.Evidences.{IsEvidence};
ghost use Rattle.mono_theory.specs.Sound.{IsRightIn, evidence_at};
ghost use Rattle.mono_theory.specs.Stages.{NoneWaits};
ghost use Rattle.mono_theory.specs.Supports.{AreCovered, ExamineIs, IsAlike, IsNext, IsSide, SideIs, atom_at, part_of};

use crate::evidence::{literal, rests_on_present, shown_by};
use crate::frame::Frame;
use crate::kept_side::KeptSide;
use crate::{Evidence, Force, Kind};
use std::alloc::{AllocError, Global};

/// An atom that waits shows, or forces its literal where that isn't true.
fn answer_shown(frame: &Frame, side: &mut KeptSide, place: u32) -> Force
    requires side { IsSide frame.now side.old.possible side.old }
    requires place { place < length frame.now.atoms }
    requires next { IsNext side.old place }
    requires right { IsRightIn (part_of frame.now.graph frame.now.seen side.old.possible) (not side.old.possible) (evidence_at side.old.shown place) }
    ensures side { IsSide frame.now side.new.possible side.new }
    ensures answer { ExamineIs frame.now side.old side.new result }
{
    if side.is_settled(frame, place) {
        side.show(frame, place);
        return Force::Quiet;
    }
    frame.known();
    let atom = frame.atom_at(place as usize);
    Force::Literal {
        atom: atom.number,
        lit: literal(atom.var, shown_by(atom.predicate, !side.is_possible())),
    }
}

/// What shows whether the predicate of an atom holds with the edges of the side: near to the support that is kept of it, or else
/// what a search finds.
fn evidence_of<K: Kind>(
    alloc: Global,
    kind: &mut K,
    frame: &Frame,
    side: &KeptSide,
    place: u32,
) -> Result<Evidence, AllocError>
    requires size { K.nodes kind.old ≡ frame.now.graph.nodes }
    requires covered { AreCovered K.covers frame.now.atoms }
    requires side { IsSide frame.now side.now.possible side.now }
    requires place { place < length frame.now.atoms }
    ensures size { K.nodes kind.new ≡ K.nodes kind.old }
    ensures evidence { IfOk result (IsEvidence frame.now.graph (part_of frame.now.graph frame.now.seen side.now.possible)
        (atom_at frame.now.atoms place).predicate) }
{
    let predicate = frame.atom_at(place as usize).predicate;
    let graph = frame.graph();
    let part = side.part(frame);
    let kept = side.support(frame, place);
    if let Some(evidence) = kind.mend(alloc, graph, part, predicate, kept)? {
        return Ok(evidence);
    }
    kind.evidence(alloc, graph, part, predicate)
}

/// Searches for what shows whether the predicate of an atom that waits is decided as the side would have it.
fn search<K: Kind>(
    alloc: Global,
    kind: &mut K,
    frame: &Frame,
    side: &mut KeptSide,
    place: u32,
) -> Result<Force, AllocError>
    requires size { K.nodes kind.old ≡ frame.now.graph.nodes }
    requires covered { AreCovered K.covers frame.now.atoms }
    requires side { IsSide frame.now side.old.possible side.old }
    requires place { place < length frame.now.atoms }
    requires next { IsNext side.old place }
    ensures size { K.nodes kind.new ≡ K.nodes kind.old }
    ensures side { IsSide frame.now side.new.possible side.new }
    ensures alike { IsAlike side.old side.new }
    ensures answer { IfOk result (ExamineIs frame.now side.old side.new) }
{
    let evidence = evidence_of::<K>(alloc, kind, frame, side, place)?;
    if rests_on_present(&evidence.witness) == side.is_possible() {
        side.take_up(alloc, frame, place, evidence)?;
        return Ok(Force::Quiet);
    }
    side.put_shown(place, evidence);
    Ok(answer_shown(frame, side, place))
}

/// Looks at an atom that waits.
fn examine<K: Kind>(
    alloc: Global,
    kind: &mut K,
    frame: &Frame,
    side: &mut KeptSide,
    place: u32,
) -> Result<Force, AllocError>
    requires size { K.nodes kind.old ≡ frame.now.graph.nodes }
    requires covered { AreCovered K.covers frame.now.atoms }
    requires side { IsSide frame.now side.old.possible side.old }
    requires place { place < length frame.now.atoms }
    requires next { IsNext side.old place }
    ensures size { K.nodes kind.new ≡ K.nodes kind.old }
    ensures side { IsSide frame.now side.new.possible side.new }
    ensures alike { IsAlike side.old side.new }
    ensures answer { IfOk result (ExamineIs frame.now side.old side.new) }
{
    if !side.is_thorough() && side.is_settled(frame, place) {
        side.show(frame, place);
        return Ok(Force::Quiet);
    }
    if side.is_supported(frame, place) {
        side.stand(place);
        return Ok(Force::Quiet);
    }
    if side.is_shown(frame, place) {
        return Ok(answer_shown(frame, side, place));
    }
    search::<K>(alloc, kind, frame, side, place)
}

/// What the side forces: looks at the atoms that wait, up to the first that forces a literal.
pub(crate) fn force_by<K: Kind>(
    alloc: Global,
    kind: &mut K,
    frame: &Frame,
    side: &mut KeptSide,
) -> Result<Force, AllocError>
    requires size { K.nodes kind.old ≡ frame.now.graph.nodes }
    requires covered { AreCovered K.covers frame.now.atoms }
    requires side { IsSide frame.now side.old.possible side.old }
    ensures size { K.nodes kind.new ≡ K.nodes kind.old }
    ensures side { IsSide frame.now side.new.possible side.new }
    ensures alike { IsAlike side.old side.new }
    ensures answer { IfOk result (SideIs frame.now side.old.possible) }
    ensures none_waits { IfOk result (λ answer. answer ≡ Force.Quiet → NoneWaits side.new.stages) }
{
    frame.known();
    'waiting: while let Some(place) = side.next() {
        match examine::<K>(alloc, kind, frame, side, place)? {
            Force::Quiet => {}
            Force::Literal { atom, lit } => return Ok(Force::Literal { atom, lit }),
        }
    }
    Ok(Force::Quiet)
}
