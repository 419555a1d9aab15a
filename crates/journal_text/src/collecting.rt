//! The logs of all incarnations, collected in one pass over a journal.
ghost use Rattle.std.specs.Prelude.{◌≡◌, ◌==◌, ◌++◌, ℕ, List, [], ◌∷◌, Some, OnOk, nat_eq};
ghost use Rattle.std.specs.Prelude.{if◌then◌else◌};
ghost use Rattle.std.specs.List.{list_any};
ghost use Rattle.std.specs.Option.{option_copied};
ghost use Rattle.std.specs.HashMap.{get};
ghost use Rattle.linx_base.specs.declared.name.Names.{Names as NamesOf};
ghost use Rattle.journal.specs.declared.effect.Step.{Step as StepOf};
ghost use Rattle.journal_text.specs.Makers.{owner_by};
ghost use Rattle.journal_text.specs.Texts.{kept};
ghost use Rattle.journal_text.specs.Known.{signal_in, signal_brought, FitsStep, Fits, IsKnown};
ghost use Rattle.journal_text.specs.Known.{digest_by, digest_in};
ghost use Rattle.journal.specs.History.{opens, name_in};
ghost use Rattle.journal.specs.Queues.{reached_by};
ghost use Rattle.journal_text.specs.Blocks.{if_for, head_log, effect_log, effect_logs};
ghost use Rattle.journal_text.specs.Collected.{Collects};

use crate::digests::{DigestBy, Digests, Known};
use crate::entries::{write_effect_log, write_head_log};
use crate::texts::{Text, Texts, kept_at};
use journal::{Effect, Head, Journal, Step};
use linx_base::{Inc, Name, Names, NoMemory, TryCopy};
use std::alloc::Global;
use std::collections::HashMap;

/// The lines of each log so far, by which digest, and the names that incarnations were opened with.
#[derive(Drop)]
pub struct Logs {
    by: DigestBy,
    lines: Texts,
    opened: HashMap<u64, Name>,
}

/// Keeps the name of an incarnation, in the place of an earlier one.
fn keep_name(opened: &mut HashMap<u64, Name>, inc: Inc, name: Option<&Name>) -> Result<(), NoMemory>
    ensures { OnOk result ((q : ℕ) → get nat_eq opened.new q
        ≡ (if q == inc.0 then option_copied name.entry else get nat_eq opened.old q)) }
{
    match name {
        Some(name) => {
            opened.insert(inc.0, name.copy()?)?;
            Ok(())
        }
        None => {
            opened.remove(&inc.0);
            Ok(())
        }
    }
}

/// The name in the head of an opening.
fn name_of(head: &Head) -> Option<&Name>
    ensures { option_copied result ≡ name_in head.now }
{
    match head {
        Head::Open(name) => Some(name),
        _ => None,
    }
}

fn keep_if_opened(
    opened: &mut HashMap<u64, Name>,
    head: &Head,
    effect: &Effect,
) -> Result<(), NoMemory>
    ensures { OnOk result ((q : ℕ) → get nat_eq opened.new q
        ≡ (if opens (record { 0 = q }) effect.now then name_in head.now
        else get nat_eq opened.old q)) }
{
    match effect {
        Effect::Opened(inc) => keep_name(opened, *inc, name_of(head)),
        _ => Ok(()),
    }
}

fn keep_opened(
    opened: &mut HashMap<u64, Name>,
    head: &Head,
    effects: &[Effect],
) -> Result<(), NoMemory>
    ensures { OnOk result ((q : ℕ) → get nat_eq opened.new q
        ≡ (if list_any (opens (record { 0 = q })) effects.now then name_in head.now
        else get nat_eq opened.old q)) }
{
    for effect in effects {
        keep_if_opened(opened, head, effect)?;
    }
    Ok(())
}

/// Adds the line of a head to a text.
fn add_head_line(
    text: &mut Text,
    journal: &Journal,
    digests: &Digests,
    head: &Head,
    known: Known<'_>,
) -> Result<(), NoMemory>
    requires known { IsKnown known (signal_in head.now) }
    requires by { digest_in known ≡ digest_by digests.now.by }
    requires fits { Fits digests.now journal.now.log.steps }
    ensures { OnOk result (text.new
        ≡ text.old ++ head_log (digest_by digests.now.by) journal.now.log.names journal.now.log.steps head.now) }
{
    write_head_log(&mut text.bytes, journal, digests, head, known)
}

/// Adds the line of an effect to a text.
fn add_effect_line(
    text: &mut Text,
    names: &Names,
    effect: &Effect,
    known: Known<'_>,
) -> Result<(), NoMemory>
    requires { IsKnown known (signal_brought effect.now) }
    ensures { OnOk result (text.new ≡ text.old ++ effect_log (digest_in known.entry) names.now effect.now) }
{
    write_effect_log(&mut text.bytes, names, effect, known)
}

/// Adds the line of a head to the log of an incarnation.
fn add_head_at(
    alloc: Global,
    lines: &mut Texts,
    journal: &Journal,
    digests: &Digests,
    inc: Inc,
    head: &Head,
    known: Known<'_>,
) -> Result<(), NoMemory>
    requires known { IsKnown known (signal_in head.now) }
    requires by { digest_in known ≡ digest_by digests.now.by }
    requires fits { Fits digests.now journal.now.log.steps }
    ensures { OnOk result ((q : ℕ) → kept lines.new q ≡ kept lines.old q ++ (if q == inc.0
        then head_log (digest_by digests.now.by) journal.now.log.names journal.now.log.steps head.now else [])) }
{
    match lines.get_mut(&inc.0) {
        Some(text) => add_head_line(text, journal, digests, head, known),
        None => {
            let mut text = Text::new(alloc);
            add_head_line(&mut text, journal, digests, head, known)?;
            lines.insert(inc.0, text)?;
            Ok(())
        }
    }
}

/// Adds the line of a head to the log of its maker's endpoint.
fn add_head(
    alloc: Global,
    lines: &mut Texts,
    journal: &Journal,
    digests: &Digests,
    owner: Option<Inc>,
    head: &Head,
    known: Known<'_>,
) -> Result<(), NoMemory>
    requires known { IsKnown known (signal_in head.now) }
    requires by { digest_in known ≡ digest_by digests.now.by }
    requires fits { Fits digests.now journal.now.log.steps }
    ensures { OnOk result ((q : ℕ) → kept lines.new q ≡ kept lines.old q
        ++ if_for (record { 0 = q }) owner
        (head_log (digest_by digests.now.by) journal.now.log.names journal.now.log.steps head.now)) }
{
    match owner {
        Some(inc) => add_head_at(alloc, lines, journal, digests, inc, head, known),
        None => Ok(()),
    }
}

/// Adds the line of an effect to the log of an incarnation.
fn add_effect_at(
    alloc: Global,
    lines: &mut Texts,
    names: &Names,
    inc: Inc,
    effect: &Effect,
    known: Known<'_>,
) -> Result<(), NoMemory>
    requires { IsKnown known (signal_brought effect.now) }
    ensures { OnOk result ((q : ℕ) → kept lines.new q ≡ kept lines.old q
        ++ (if q == inc.0 then effect_log (digest_in known.entry) names.now effect.now else [])) }
{
    match lines.get_mut(&inc.0) {
        Some(text) => add_effect_line(text, names, effect, known),
        None => {
            let mut text = Text::new(alloc);
            add_effect_line(&mut text, names, effect, known)?;
            lines.insert(inc.0, text)?;
            Ok(())
        }
    }
}

/// Adds the line of an effect to the log of the incarnation that it reaches.
fn add_effect(
    alloc: Global,
    lines: &mut Texts,
    names: &Names,
    effect: &Effect,
    known: Known<'_>,
) -> Result<(), NoMemory>
    requires { IsKnown known (signal_brought effect.now) }
    ensures { OnOk result ((q : ℕ) → kept lines.new q ≡ kept lines.old q
        ++ if_for (record { 0 = q }) (reached_by effect.now) (effect_log (digest_in known.entry) names.now effect.now)) }
{
    match effect.reached_by() {
        Some(inc) => add_effect_at(alloc, lines, names, inc, effect, known),
        None => Ok(()),
    }
}

/// Adds the lines of the effects of the step at a position.
fn add_effects(
    alloc: Global,
    lines: &mut Texts,
    names: &Names,
    digests: &Digests,
    next: &mut usize,
    position: u64,
    step: &Step,
) -> Result<(), NoMemory>
    requires { FitsStep digests.now position (Some step.now) }
    ensures { OnOk result ((q : ℕ) → kept lines.new q ≡ kept lines.old q
        ++ effect_logs (digest_by digests.now.by) names.now (record { 0 = q }) step.now.effects) }
{
    for (index, effect) in step.effects.as_slice().iter().enumerate() {
        let known = digests.of_effect(next, position, index as u64 + 1, effect);
        add_effect(alloc, lines, names, effect, known)?;
    }
    Ok(())
}

impl Logs {
    /// Those before any step.
    #[tactic(auto, unfolding(crate::specs::Blocks::log_lines))]
    pub(crate) fn new(alloc: Global, by: DigestBy) -> Logs
        ensures by { result.by ≡ by }
        ensures collects { (names : NamesOf) (steps : List StepOf)
            → Collects names steps [] result }
    {
        Logs {
            by,
            lines: Texts::new(alloc),
            opened: HashMap::new(alloc),
        }
    }

    /// Takes in the next step, at this position; `owner` is the endpoint of its maker.
    #[tactic(auto, unfolding(crate::specs::Blocks::log_lines))]
    pub(crate) fn note(
        &mut self,
        alloc: Global,
        journal: &Journal,
        digests: &Digests,
        next: &mut usize,
        owner: Option<Inc>,
        position: u64,
        step: &Step,
    ) -> Result<(), NoMemory>
        requires fits_step { FitsStep digests.now position (Some step.now) }
        requires fits { Fits digests.now journal.now.log.steps }
        requires by { self.old.by ≡ digests.now.by }
        ensures by { OnOk result (self.new.by ≡ self.old.by) }
        ensures collects { (P : List StepOf) → owner ≡ owner_by P step.now.by
            → Collects journal.now.log.names journal.now.log.steps P self.old
            → OnOk result (Collects journal.now.log.names journal.now.log.steps (step.now ∷ P)
            self.new) }
    {
        keep_opened(&mut self.opened, &step.head, step.effects.as_slice())?;
        let lines = &mut self.lines;
        let known = digests.of_head(next, position, step);
        add_head(alloc, lines, journal, digests, owner, &step.head, known)?;
        add_effects(alloc, lines, journal.names(), digests, next, position, step)
    }

    /// The name that the incarnation was opened with.
    pub(crate) fn name(&self, inc: Inc) -> Option<&Name>
        ensures { option_copied result ≡ get nat_eq self.now.opened inc.0 }
    {
        self.opened.get(&inc.0)
    }

    /// The lines of its log, behind the first one.
    pub fn lines(&self, inc: Inc) -> &[u8]
        ensures { result.now ≡ kept self.now.lines inc.0 }
    {
        kept_at(&self.lines, inc.0)
    }
}
