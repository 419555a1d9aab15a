//! Who opened which incarnation, while a journal is read in order.
ghost use Rattle.std.specs.Prelude.{◌≡◌, ℕ, List, [], ◌∷◌, Some, OnOk, nat_eq, if◌then◌else◌};
ghost use Rattle.std.specs.List.{list_any};
ghost use Rattle.std.specs.HashMap.{get};
ghost use Rattle.journal.specs.declared.effect.Step.{Step as StepOf};
ghost use Rattle.journal.specs.History.{opens};
ghost use Rattle.chart.specs.Columns.{opener, column_by, column_if, rail_of, head_column};
ghost use Rattle.chart.specs.Columns.{effect_column, inc_in, receiver};
ghost use Rattle.chart.specs.Opened.{Opens};

use crate::column::Column;
use journal::{By, Effect, Head, Step};
use linx_base::{Inc, NoMemory, NodeNo, Peer};
use std::alloc::Global;
use std::collections::HashMap;

/// The maker of the step that opened each incarnation.
#[derive(Drop)]
pub(crate) struct Openers {
    by: HashMap<u64, By>,
}

fn note_opening(openers: &mut HashMap<u64, By>, by: By, effect: &Effect) -> Result<(), NoMemory>
    ensures { OnOk result ((q : ℕ) → get nat_eq openers.new q
        ≡ (if opens (record { 0 = q }) effect.now then Some by else get nat_eq openers.old q)) }
{
    match effect {
        Effect::Opened(inc) => {
            openers.insert(inc.0, by)?;
            Ok(())
        }
        _ => Ok(()),
    }
}

fn note_openings(openers: &mut HashMap<u64, By>, by: By, effects: &[Effect]) -> Result<(), NoMemory>
    ensures { OnOk result ((q : ℕ) → get nat_eq openers.new q
        ≡ (if list_any (opens (record { 0 = q })) effects.now then Some by
        else get nat_eq openers.old q)) }
{
    for effect in effects {
        note_opening(openers, by, effect)?;
    }
    Ok(())
}

fn column_by(by: By) -> Column
    ensures { result ≡ column_by by }
{
    match by {
        By::Actor(number) => Column::Life(number),
        By::Pump(_) => Column::Nowhere,
    }
}

fn rail_of(node: NodeNo, peer: Peer) -> Column
    ensures { result ≡ rail_of node peer }
{
    match peer {
        Peer::Here(_) => Column::Nowhere,
        Peer::There { link, .. } => Column::Rail(link, node),
    }
}

/// The endpoint that a peer is.
fn inc_in(peer: Peer) -> Inc
    ensures { result ≡ inc_in peer }
{
    match peer {
        Peer::Here(inc) | Peer::There { inc, .. } => inc,
    }
}

/// The column of a step with this maker and this head.
pub(crate) fn head_column(by: By, head: &Head) -> Column
    ensures { result ≡ head_column by head.now }
{
    match head {
        Head::Wire(link, side, _) | Head::Tick(link, side) => Column::Lane(*link, *side),
        _ => column_by(by),
    }
}

impl Openers {
    /// Those before any step.
    pub(crate) fn new(alloc: Global) -> Openers
        ensures { Opens [] result }
    {
        Openers {
            by: HashMap::new(alloc),
        }
    }

    /// Takes in the next step.
    pub(crate) fn note(&mut self, step: &Step) -> Result<(), NoMemory>
        ensures { (P : List StepOf) → Opens P self.old
            → OnOk result (Opens (step.now ∷ P) self.new) }
    {
        note_openings(&mut self.by, step.by, step.effects.as_slice())
    }

    /// Who opened an incarnation.
    pub(crate) fn opener(&self, inc: Inc) -> Option<By>
        ensures { (P : List StepOf) → Opens P self.now → result ≡ opener P inc }
    {
        self.by.get(&inc.0).copied()
    }

    /// The column of an endpoint.
    fn column(&self, inc: Inc) -> Column
        ensures { (P : List StepOf) → Opens P self.now → result ≡ column_if (opener P inc) }
    {
        match self.by.get(&inc.0) {
            Some(by) => column_by(*by),
            None => Column::Nowhere,
        }
    }

    /// The column of the endpoint that a send is to.
    pub(crate) fn receiver(&self, head: &Head) -> Column
        ensures { (P : List StepOf) → Opens P self.now → result ≡ receiver P head.now }
    {
        match head {
            Head::Send(peer, ..) => self.column(inc_in(*peer)),
            _ => Column::Nowhere,
        }
    }

    /// The column of an effect.
    pub(crate) fn effect_column(&self, effect: &Effect) -> Column
        ensures { (P : List StepOf) → Opens P self.now → result ≡ effect_column P effect.now }
    {
        match effect {
            Effect::Opened(inc)
            | Effect::Closed(inc)
            | Effect::Arrived(inc, ..)
            | Effect::Found(inc, ..)
            | Effect::Notified(inc, ..) => self.column(*inc),
            Effect::Met(node, peer, _) | Effect::Gone(node, peer) => rail_of(*node, *peer),
            Effect::Up(node, link, ..) | Effect::Down(node, link, _) => Column::Rail(*link, *node),
        }
    }
}
