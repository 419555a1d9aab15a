//! The marks of a journal.
ghost use Rattle.std.specs.Prelude.{◌≡◌, ◌+◌, ◌++◌, ◌<◌, ◌^◌, List, ◌∷◌, [], length, OnOk, IfOk};
ghost use Rattle.journal.specs.declared.effect.Step.{Step as StepOf};
ghost use Rattle.chart.specs.Marks.{head_kind, effect_kind, head_mark, effect_mark, effect_marks};
ghost use Rattle.chart.specs.Marks.{step_marks, marks_of, MarkEachLine};
ghost use Rattle.chart.specs.Opened.{Opens};

use crate::column::Column;
use crate::mark::{Mark, MarkKind};
use crate::openers::{Openers, head_column};
use journal::{By, Effect, Head, Journal, Step};
use linx_base::{ItemAt, NoMemory, Sequence};
use std::alloc::Global;

/// What the mark of a head is of.
fn head_kind(head: &Head) -> MarkKind
    ensures { result ≡ head_kind head.now }
{
    match head {
        Head::Open(_) => MarkKind::Open,
        Head::Close => MarkKind::Close,
        Head::Send(_, _, answer) => MarkKind::Send(*answer),
        Head::Take(..) => MarkKind::Take,
        Head::TakeNone(_) => MarkKind::TakeNone,
        Head::Waits(_) => MarkKind::Waits,
        Head::Hunt(..) => MarkKind::Hunt,
        Head::Attach(..) => MarkKind::Attach,
        Head::Detach(_, answer) => MarkKind::Detach(*answer),
        Head::Cut(link) => MarkKind::Cut(*link),
        Head::Mend(link) => MarkKind::Mend(*link),
        Head::Settle(_) => MarkKind::Settle,
        Head::Restart(node) => MarkKind::Restart(*node),
        Head::Wire(_, _, verdict) => MarkKind::Packet(*verdict),
        Head::Tick(..) => MarkKind::Tick,
        Head::Refused(_) => MarkKind::Refused,
        Head::Ended => MarkKind::Ended,
    }
}

/// What the mark of an effect is of.
fn effect_kind(effect: &Effect) -> MarkKind
    ensures { result ≡ effect_kind effect.now }
{
    match effect {
        Effect::Opened(_) => MarkKind::Opened,
        Effect::Closed(_) => MarkKind::Closed,
        Effect::Arrived(..) => MarkKind::Arrived,
        Effect::Found(..) => MarkKind::Found,
        Effect::Notified(..) => MarkKind::Notified,
        Effect::Met(..) => MarkKind::Met,
        Effect::Gone(..) => MarkKind::Gone,
        Effect::Up(..) => MarkKind::Up,
        Effect::Down(..) => MarkKind::Down,
    }
}

fn head_mark(openers: &Openers, position: u64, by: By, head: &Head) -> Mark
    ensures { (S : List StepOf) → Opens S openers.now
        → result ≡ head_mark S position by head.now }
{
    Mark {
        line: ItemAt {
            step: position,
            place: 0,
        },
        column: head_column(by, head),
        kind: head_kind(head),
        by,
        to: openers.receiver(head),
    }
}

fn effect_mark(openers: &Openers, by: By, position: u64, place: u64, effect: &Effect) -> Mark
    ensures { (S : List StepOf) → Opens S openers.now
        → result ≡ effect_mark S by position place effect.now }
{
    Mark {
        line: ItemAt {
            step: position,
            place,
        },
        column: openers.effect_column(effect),
        kind: effect_kind(effect),
        by,
        to: Column::Nowhere,
    }
}

fn put_effects(
    marks: &mut Vec<Mark>,
    openers: &Openers,
    by: By,
    position: u64,
    effects: &[Effect],
) -> Result<(), NoMemory>
    ensures { (S : List StepOf) → Opens S openers.now → OnOk result (marks.new.items
        ≡ marks.old.items ++ effect_marks S by position 1 effects.now) }
{
    for (index, effect) in effects.iter().enumerate() {
        marks.push(effect_mark(openers, by, position, index as u64 + 1, effect))?;
    }
    Ok(())
}

/// The marks of the next step, at a position.
fn put_step(
    marks: &mut Vec<Mark>,
    openers: &mut Openers,
    position: u64,
    step: &Step,
) -> Result<(), NoMemory>
    ensures marks { (P : List StepOf) → position ≡ length P + 1 → Opens P openers.old
        → OnOk result (marks.new.items ≡ marks.old.items ++ step_marks step.now P) }
    ensures openers { (P : List StepOf) → Opens P openers.old
        → OnOk result (Opens (step.now ∷ P) openers.new) }
{
    openers.note(step)?;
    marks.push(head_mark(openers, position, step.by, &step.head))?;
    put_effects(marks, openers, step.by, position, step.effects.as_slice())
}

fn put_steps(alloc: Global, journal: &Journal) -> Result<Vec<Mark>, NoMemory>
    ensures { IfOk result (λ marks. marks.items ≡ marks_of journal.now.log.steps) }
{
    let mut marks = Vec::new(alloc);
    let mut openers = Openers::new(alloc);
    for done in 0..journal.len() {
        let step = journal.step_after(done);
        put_step(&mut marks, &mut openers, done + 1, step)?;
    }
    Ok(marks)
}

/// The marks of a journal, in the order of its lines: one for each step, and one for each effect.
pub fn all_marks(alloc: Global, journal: &Journal) -> Result<Sequence<Mark>, NoMemory>
    ensures all { IfOk result (λ marks. marks ≡ marks_of journal.now.log.steps) }
    ensures one_each { IfOk result (λ marks. MarkEachLine marks journal.now.log.steps) }
{
    let marks = put_steps(alloc, journal)?;
    Ok(Sequence::of(marks))
}
