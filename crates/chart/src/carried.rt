//! Signals over links, from their sends to their arrivals, while a journal is read in order.
ghost use Rattle.std.specs.Prelude.{◌≡◌, ◌<◌, length, slice_get, IfSome, OnOk, ◌++◌};
ghost use Rattle.std.specs.Option.{option_copied};
ghost use Rattle.chart.specs.Carried.{same_maker, is_pairing, is_flight, pairing_in, flight_in};
ghost use Rattle.chart.specs.Carried.{place_in, lost_ties};

use crate::flight::{Flight, Pairing};
use crate::openers::Openers;
use crate::tie::{Tie, TieKind};
use journal::{By, Effect, Head, SentTo, Step};
use linx_base::{Inc, ItemAt, LinkNo, NoMemory, NodeNo, Peer, Session};
use std::alloc::Global;
use std::marker::Model;

fn same_maker(one: By, other: By) -> bool
    ensures { result ≡ same_maker one other }
{
    match (one, other) {
        (By::Actor(a), By::Actor(b)) => a == b,
        (By::Pump(l), By::Pump(m)) => l.0 == m.0,
        _ => false,
    }
}

/// Whether a pairing is that of a node's session on a link.
fn is_pairing(node: NodeNo, link: LinkNo, own: Session, pairing: &Pairing) -> bool
    ensures { result ≡ is_pairing node link own pairing.now }
{
    pairing.node.0 == node.0 && pairing.link.0 == link.0 && pairing.own.0 == own.0
}

/// Whether a signal went this way.
fn is_flight(by: By, link: LinkNo, session: Session, to: Inc, flight: &Flight) -> bool
    ensures { result ≡ is_flight by link session to flight.now }
{
    same_maker(flight.by, by)
        && flight.link.0 == link.0
        && flight.session.0 == session.0
        && flight.to.0 == to.0
}

fn pairing_in(pairings: &[Pairing], node: NodeNo, link: LinkNo, own: Session) -> Option<&Pairing>
    ensures { option_copied result ≡ pairing_in pairings.now node link own }
{
    pairings.iter().find(|p| is_pairing(node, link, own, p))
}

/// The place of the first signal on its way that went this one.
fn flight_in(flights: &[Flight], by: By, link: LinkNo, session: Session, to: Inc) -> Option<usize>
    ensures place { result ≡ flight_in flights.now by link session to }
    ensures within { IfSome result (λ k. k < length flights.now) }
{
    flights
        .iter()
        .position(|f| is_flight(by, link, session, to, f))
}

/// The place of the signal that arrived from a maker in a session with this pairing.
fn place_in(flights: &[Flight], by: Option<By>, pairing: Option<&Pairing>, to: Inc) -> Option<usize>
    ensures place { result ≡ place_in flights.now by (option_copied pairing.entry) to }
    ensures within { IfSome result (λ k. k < length flights.now) }
{
    match (by, pairing) {
        (Some(by), Some(pairing)) => flight_in(flights, by, pairing.link, pairing.other, to),
        _ => None,
    }
}

/// The signal at a place.
fn flight_at(flights: &[Flight], place: usize) -> Option<&Flight>
    ensures { option_copied result ≡ slice_get flights.now place }
{
    flights.get(place)
}

/// Adds the ties of signals that never arrived.
fn put_lost(ties: &mut Vec<Tie>, flights: &[Flight]) -> Result<(), NoMemory>
    ensures { OnOk result (ties.new.items ≡ ties.old.items ++ lost_ties flights.now) }
{
    for flight in flights {
        ties.push(Tie {
            kind: TieKind::Lost,
            from: flight.line,
            to: flight.line,
        })?;
    }
    Ok(())
}

/// The pairings so far, the signals that are on their way, and the ties of those that arrived.
#[derive(Drop)]
pub(crate) struct Carried {
    pairings: Vec<Pairing>,
    flights: Vec<Flight>,
    ties: Vec<Tie>,
}

impl Model for Carried {
    ghost use Rattle.chart.specs.Carried.{OverLinks};

    ghost Value = { OverLinks };

    ghost view = { λ c. record {
      pairings = c.pairings.items;
      flights = c.flights.items;
      ties = c.ties.items;
    } };
}

impl Carried {
    ghost use Rattle.std.specs.Prelude.{◌≡◌, ◌<◌, ◌+◌, ◌++◌, ◌∷◌, length, List, OnOk, IfSome};
    ghost use Rattle.std.specs.Prelude.{slice_get};
    ghost use Rattle.journal.specs.declared.effect.Step.{Step as StepOf};
    ghost use Rattle.chart.specs.Opened.{Opens};
    ghost use Rattle.chart.specs.Carried.{nothing_sent, with_send, with_head, landed, landed_at, arrived, with_effect};
    ghost use Rattle.chart.specs.Carried.{with_effects, with_step, lost_ties};

    /// Before the first step.
    pub(crate) fn new(alloc: Global) -> Carried
        ensures { result ≡ nothing_sent }
    {
        Carried {
            pairings: Vec::new(alloc),
            flights: Vec::new(alloc),
            ties: Vec::new(alloc),
        }
    }

    /// Takes in a send to a peer.
    fn send(&mut self, line: ItemAt, by: By, peer: Peer, answer: SentTo) -> Result<(), NoMemory>
        ensures { OnOk result (self.new ≡ with_send line by peer answer self.old) }
    {
        match (peer, answer) {
            (Peer::There { link, session, inc }, SentTo::Link) => {
                self.flights.push(Flight {
                    by,
                    link,
                    session,
                    to: inc,
                    line,
                })?;
                Ok(())
            }
            _ => Ok(()),
        }
    }

    fn head(&mut self, line: ItemAt, by: By, head: &Head) -> Result<(), NoMemory>
        ensures { OnOk result (self.new ≡ with_head line by head.now self.old) }
    {
        match head {
            Head::Send(peer, _, answer) => self.send(line, by, *peer, *answer),
            _ => Ok(()),
        }
    }

    /// The signal at this place arrived.
    fn land(&mut self, line: ItemAt, place: Option<usize>) -> Result<(), NoMemory>
        requires { IfSome place (λ k. k < length self.old.flights) }
        ensures { OnOk result (self.new ≡ landed line place self.old) }
    {
        match place {
            None => Ok(()),
            Some(place) => self.land_at(line, place),
        }
    }

    /// The signal at this place arrived, if there is one.
    fn land_at(&mut self, line: ItemAt, place: usize) -> Result<(), NoMemory>
        requires { place < length self.old.flights }
        ensures { OnOk result (self.new
            ≡ landed_at line place (slice_get self.old.flights place) self.old) }
    {
        match flight_at(&self.flights, place) {
            None => Ok(()),
            Some(flight) => {
                self.ties.push(Tie {
                    kind: TieKind::Carried,
                    from: flight.line,
                    to: line,
                })?;
                let _flight = self.flights.remove(place);
                Ok(())
            }
        }
    }

    /// An arrival from a peer over a link.
    fn arrive(
        &mut self,
        openers: &Openers,
        line: ItemAt,
        to: Inc,
        peer: Peer,
    ) -> Result<(), NoMemory>
        ensures { (S : List StepOf) → Opens S openers.now
            → OnOk result (self.new ≡ arrived S line to peer self.old) }
    {
        match peer {
            Peer::Here(_) => Ok(()),
            Peer::There { link, session, inc } => {
                let by = openers.opener(inc);
                let pairing = pairing_in(&self.pairings, to.node(), link, session);
                let place = place_in(&self.flights, by, pairing, to);
                self.land(line, place)
            }
        }
    }

    fn effect(&mut self, openers: &Openers, line: ItemAt, effect: &Effect) -> Result<(), NoMemory>
        ensures { (S : List StepOf) → Opens S openers.now
            → OnOk result (self.new ≡ with_effect S line effect.now self.old) }
    {
        match effect {
            Effect::Up(node, link, own, other) => {
                self.pairings.push(Pairing {
                    node: *node,
                    link: *link,
                    own: *own,
                    other: *other,
                })?;
                Ok(())
            }
            Effect::Arrived(to, peer, _) => self.arrive(openers, line, *to, *peer),
            _ => Ok(()),
        }
    }

    fn effects(
        &mut self,
        openers: &Openers,
        position: u64,
        effects: &[Effect],
    ) -> Result<(), NoMemory>
        ensures { (S : List StepOf) → Opens S openers.now
            → OnOk result (self.new ≡ with_effects S position 1 effects.now self.old) }
    {
        for (index, effect) in effects.iter().enumerate() {
            let line = ItemAt {
                step: position,
                place: index as u64 + 1,
            };
            self.effect(openers, line, effect)?;
        }
        Ok(())
    }

    /// Takes in the next step, at a position, whose openings are noted.
    pub(crate) fn step(
        &mut self,
        openers: &Openers,
        position: u64,
        step: &Step,
    ) -> Result<(), NoMemory>
        ensures { (P : List StepOf) → position ≡ length P + 1 → Opens (step.now ∷ P) openers.now
            → OnOk result (self.new ≡ with_step step.now P self.old) }
    {
        let line = ItemAt {
            step: position,
            place: 0,
        };
        self.head(line, step.by, &step.head)?;
        self.effects(openers, position, step.effects.as_slice())
    }

    /// Adds the ties of signals that arrived, and then those of signals that never did.
    pub(crate) fn add_ties(&self, ties: &mut Vec<Tie>) -> Result<(), NoMemory>
        ensures { OnOk result (ties.new.items
            ≡ ties.old.items ++ self.now.ties ++ lost_ties self.now.flights) }
    {
        ties.extend_from_slice(&self.ties)?;
        put_lost(ties, &self.flights)
    }
}
