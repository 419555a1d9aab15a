//! What was stirred on a link since it was last seen still.
ghost use Rattle.std.specs.Prelude.{◌≡◌, ◌||◌, ◌++◌, None, OnOk, IfOk, option_map};
ghost use Rattle.std.specs.Prelude.{option_to_list};
ghost use Rattle.std.specs.List.{filter_map, list_any};
ghost use Rattle.link_check.specs.Rest.{across, changes, doubt_of, finds_none, hunt_over, is_at_end};
ghost use Rattle.link_check.specs.Rest.{is_rough, moves, send_over, stir_by, stir_in, stirred_past};
ghost use Rattle.link_check.specs.Rest.{stirs_of};

use journal::{Effect, Head, Step};
use linx_base::{Inc, LinkDecl, LinkNo, Name, NoMemory, Path, Peer, TryCopy};
use std::alloc::Global;
use std::marker::Model;

/// What has to be looked at again, so as to know that a link is still.
#[derive(Drop)]
pub(crate) enum Stir {
    /// A signal was sent over it, from one incarnation to another.
    Sent(Inc, Inc),
    /// An incarnation closed at one of its nodes, or was met over it.
    Doubted(Inc),
    /// A name was hunted for over it.
    Hunted(Name),
    /// An incarnation opened at one of its nodes, whose name may be hunted for.
    Offered(Inc),
}

/// What was stirred on a link since the last receive that found none, where it is known that nothing
/// else changed.
#[derive(Drop)]
pub(crate) struct Rest {
    known: bool,
    stirs: Vec<Stir>,
}

impl Model for Rest {
    ghost use Rattle.std.specs.Prelude.{List, Option, Some, None, if◌then◌else◌};
    ghost use Rattle.link_check.specs.declared.rest.Stir.{Stir};

    ghost Value = { Option (List Stir) };

    ghost view = { λ r. if r.known then Some r.stirs.items else None };
}

/// Whether an incarnation is of a node of a link.
fn is_at_end(ends: &LinkDecl, inc: Inc) -> bool
    ensures { result ≡ is_at_end ends.now inc }
{
    let node = inc.node().0;
    node == ends.first.0 || node == ends.second.0
}

/// Whether a session of a link goes up or down by an effect.
fn changes(link: LinkNo, effect: &Effect) -> bool
    ensures { result ≡ changes link.0 effect.now }
{
    match effect {
        Effect::Up(_, over, _, _) => over.0 == link.0,
        Effect::Down(_, over, _) => over.0 == link.0,
        _ => false,
    }
}

/// Whether one of these does.
fn any_changes(link: LinkNo, effects: &[Effect]) -> bool
    ensures { result ≡ list_any (changes link.0) effects.now }
{
    effects.iter().any(|effect| changes(link, effect))
}

/// Whether a head cuts or mends a link.
fn moves(link: LinkNo, head: &Head) -> bool
    ensures { result ≡ moves link.0 head.now }
{
    match head {
        Head::Cut(cut) => cut.0 == link.0,
        Head::Mend(mended) => mended.0 == link.0,
        _ => false,
    }
}

/// Whether a step changes a link in a way that no stir tells, by its head or an effect.
fn is_rough(link: LinkNo, step: &Step) -> bool
    ensures { result ≡ is_rough link.0 step.now }
{
    moves(link, &step.head) || any_changes(link, step.effects.as_slice())
}

/// Whether a receive finds none.
fn finds_none(head: &Head) -> bool
    ensures { result ≡ finds_none head.now }
{
    match head {
        Head::TakeNone(_) => true,
        _ => false,
    }
}

/// The incarnation of a peer over a link, or none.
fn across(link: LinkNo, peer: Peer) -> Option<Inc>
    ensures { result ≡ across link.0 peer }
{
    match peer {
        Peer::Here(_) => None,
        Peer::There {
            link: over,
            inc,
            ..
        } => { if over.0 == link.0 { Some(inc) } else { None } }
    }
}

/// What a signal to a peer stirs, which this endpoint sends.
fn send_over(link: LinkNo, me: Option<Inc>, to: Peer) -> Option<Stir>
    ensures { result ≡ send_over me (across link.0 to) }
{
    match me {
        Some(from) => match across(link, to) {
            Some(inc) => Some(Stir::Sent(from, inc)),
            None => None,
        },
        None => None,
    }
}

/// What a hunt for a path stirs.
fn hunt_over(link: LinkNo, path: &Path) -> Result<Option<Stir>, NoMemory>
    ensures { IfOk result (λ stir. stir ≡ hunt_over link.0 path.now) }
{
    match path {
        Path::Local(_) => Ok(None),
        Path::Over { link: over, name } => {
            if over.0 == link.0 {
                Ok(Some(Stir::Hunted(name.copy()?)))
            } else {
                Ok(None)
            }
        }
    }
}

/// What a head stirs, in a step of this endpoint.
fn stir_by(link: LinkNo, me: Option<Inc>, head: &Head) -> Result<Option<Stir>, NoMemory>
    ensures { IfOk result (λ stir. stir ≡ stir_by link.0 me head.now) }
{
    match head {
        Head::Send(to, _, _) => Ok(send_over(link, me, *to)),
        Head::Hunt(path, _) => hunt_over(link, path),
        _ => Ok(None),
    }
}

/// What the meeting of a peer stirs.
fn doubt_of(met: Option<Inc>) -> Option<Stir>
    ensures { result ≡ doubt_of met }
{
    match met {
        Some(inc) => Some(Stir::Doubted(inc)),
        None => None,
    }
}

/// What an effect stirs.
fn stir_in(link: LinkNo, ends: &LinkDecl, effect: &Effect) -> Option<Stir>
    ensures { result ≡ stir_in link.0 ends.now effect.now }
{
    match effect {
        Effect::Closed(inc) => {
            if is_at_end(ends, *inc) {
                Some(Stir::Doubted(*inc))
            } else {
                None
            }
        }
        Effect::Opened(inc) => {
            if is_at_end(ends, *inc) {
                Some(Stir::Offered(*inc))
            } else {
                None
            }
        }
        Effect::Met(_, peer, _) => doubt_of(across(link, *peer)),
        _ => None,
    }
}

/// Adds a stir, if there is one.
fn add(stirs: &mut Vec<Stir>, stir: Option<Stir>) -> Result<(), NoMemory>
    ensures { OnOk result (stirs.new.items ≡ stirs.old.items ++ option_to_list stir) }
{
    match stir {
        Some(stir) => {
            stirs.push(stir)?;
            Ok(())
        }
        None => Ok(()),
    }
}

/// Adds what effects stir.
#[tactic(auto, using(crate::proofs::Stirs::one_stirred))]
fn add_all(
    stirs: &mut Vec<Stir>,
    link: LinkNo,
    ends: &LinkDecl,
    effects: &[Effect],
) -> Result<(), NoMemory>
    ensures { OnOk result (stirs.new.items
        ≡ stirs.old.items ++ filter_map (stir_in link.0 ends.now) effects.now) }
{
    for effect in effects {
        add(stirs, stir_in(link, ends, effect))?;
    }
    Ok(())
}

/// Adds what a step stirs, whose maker has this endpoint.
fn add_stirs(
    stirs: &mut Vec<Stir>,
    link: LinkNo,
    ends: &LinkDecl,
    me: Option<Inc>,
    step: &Step,
) -> Result<(), NoMemory>
    ensures { OnOk result (stirs.new.items
        ≡ stirs.old.items ++ stirs_of link.0 ends.now me step.now) }
{
    add(stirs, stir_by(link, me, &step.head)?)?;
    add_all(stirs, link, ends, step.effects.as_slice())
}

impl Rest {
    /// A link that wasn't seen still.
    pub(crate) fn new(alloc: Global) -> Rest
        ensures { result ≡ None }
    {
        Rest {
            known: false,
            stirs: Vec::new(alloc),
        }
    }

    /// What was stirred, where it is known.
    pub(crate) fn stirred(&self) -> Option<&[Stir]>
        ensures { option_map (λ stirs. stirs.now) result ≡ self.now }
    {
        if self.known {
            Some(self.stirs.as_slice())
        } else {
            None
        }
    }

    /// Passes a step, whose maker has this endpoint.
    pub(crate) fn pass(
        &mut self,
        link: LinkNo,
        ends: &LinkDecl,
        me: Option<Inc>,
        step: &Step,
    ) -> Result<(), NoMemory>
        ensures { OnOk result (self.new ≡ stirred_past link.0 ends.now me step.now self.old) }
    {
        if finds_none(&step.head) {
            self.known = true;
            self.stirs.clear();
        }
        if self.known {
            if is_rough(link, step) {
                self.known = false;
                self.stirs.clear();
            } else {
                add_stirs(&mut self.stirs, link, ends, me, step)?;
            }
        }
        Ok(())
    }
}
