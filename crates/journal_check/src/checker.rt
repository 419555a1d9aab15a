//! What a checker knows between two steps: a kernel for each node, how each actor stands, and a book
//! of all links.
ghost use Rattle.std.specs.Prelude.{◌≡◌, ◌↔◌, ◌+◌, ◌-◌, ◌<◌, ◌≤◌, ◌==◌, ◌&&◌, ◌||◌, [], length};
ghost use Rattle.std.specs.Prelude.{is_none, replicate, IfOk, OnOk, IsTrue, Some, None, true};
ghost use Rattle.std.specs.Prelude.{false, slice_set, ◌++◌};
ghost use Rattle.std.specs.Option.{option_copied};
ghost use Rattle.journal.specs.History.{is_by};
ghost use Rattle.journal.specs.Laws.{may_make};
ghost use Rattle.journal.specs.Shapes.{node_by};
ghost use Rattle.node_kernel.specs.Nodes.{endpoint_limit};
ghost use Rattle.link_check.specs.Books.{TakesStep};
ghost use Rattle.link_check.specs.Downs.{downs_in};
ghost use Rattle.link_check.specs.Links.{is_of_link};
ghost use Rattle.link_check.specs.Told.{IsThere, keeps_cuts, keeps_rest, may_pass, may_tick};
ghost use Rattle.fabric.specs.Remains.{IsLaidOut};
ghost use Rattle.fabric.specs.Standings.{empty_nodes};
ghost use Rattle.journal_check.specs.Calls.{AnswersAs, SendsAs, call_after, call_effects};
ghost use Rattle.journal_check.specs.Calls.{earliest_in, is_bounded};
ghost use Rattle.journal_check.specs.Standings.{fresh, standing_of};
ghost use Rattle.journal_check.specs.Tables.{AreLeft, ArePast, IsReady, all_leave_at_rest_in};
ghost use Rattle.journal_check.specs.Tables.{is_patient_actor, IsPast, kernels_past};
ghost use Rattle.journal_check.specs.Tables.{effects_of_step, effects_in, ended_in, endpoint_in};
ghost use Rattle.journal_check.specs.Tables.{endpoint_of_maker, is_idle_in, is_made_by_maker};
ghost use Rattle.journal_check.specs.Tables.{is_vain_at, kernel_of, kernel_of_maker, kernels_after};
ghost use Rattle.journal_check.specs.Tables.{leaves_at_rest_in, makes_steps, restart_closings};
ghost use Rattle.journal_check.specs.Tables.{restart_effects, restarted_in, effects_there};
ghost use Rattle.journal_check.specs.Tables.{kernels_brought, HavePassed, is_patient};
ghost use Rattle.journal_check.specs.Tables.{restarted_node, waits_in_standing, kernel_there};
ghost use Rattle.journal_check.specs.Tables.{kernels_with, node_there};

use crate::bring::bring_to;
use crate::call::{Called, call, heard, keeps_sends};
use crate::same::same_effects;
use crate::standing::Standing;
use journal::{By, Effect, Effects, Head, Step};
use link_check::Book;
use linx_base::{Inc, LinkDecl, LinkNo, NoMemory, NodeNo, Side};
use node_kernel::Kernel;
use sigsel::Sigsel;
use std::alloc::Global;
use std::marker::Model;

/// Where the actors of a run are, a kernel for each of its nodes, how each of its actors stands, and
/// a book of its links.
#[derive(Drop)]
pub(crate) struct Checker {
    alloc: Global,
    book: Book,
    homes: Vec<NodeNo>,
    kernels: Vec<Kernel>,
    standings: Vec<Standing>,
}

impl Model for Checker {
    ghost use Rattle.journal_check.specs.Tables.{Known};

    ghost Value = { Known };

    ghost view = { λ c. record {
      shape = record { links = c.book.links; actors = c.homes.items };
      kernels = c.kernels.items;
      standings = c.standings.items;
      book = c.book;
    } };
}

/// A kernel for each node.
fn kernels_of(alloc: Global, count: u32) -> Result<Vec<Kernel>, NoMemory>
    ensures { IfOk result (λ kernels. kernels.items ≡ empty_nodes count) }
{
    let mut kernels = Vec::new(alloc);
    for place in 0..count {
        kernels.push(Kernel::new(alloc, NodeNo(place + 1)))?;
    }
    Ok(kernels)
}

/// How so many actors stand before their first steps.
fn standings_of(alloc: Global, count: usize) -> Result<Vec<Standing>, NoMemory>
    ensures { IfOk result (λ standings. standings.items ≡ replicate count fresh) }
{
    let mut standings = Vec::new(alloc);
    for _place in 0..count {
        standings.push(Standing::new())?;
    }
    Ok(standings)
}

/// Whether one who stands so waits in vain at an endpoint of this node.
fn is_vain_at(kernel: &Kernel, waits: &Option<Sigsel>, endpoint: Option<Inc>) -> bool
    ensures { result ≡ is_vain_at kernel.now waits.now endpoint }
{
    match waits {
        Some(filter) => match endpoint {
            Some(at) => !kernel.holds(at, filter),
            None => false,
        },
        None => false,
    }
}

/// Whether the pump of a link may make a step.
fn may_pump(link: LinkNo, head: &Head) -> bool
    ensures { result ≡ may_make (By.Pump link) head.now }
{
    match head {
        Head::Wire(l, ..) | Head::Tick(l, _) => l.0 == link.0,
        _ => false,
    }
}

/// The node that a head restarts.
fn restarted_node(head: &Head) -> Option<NodeNo>
    ensures { result ≡ restarted_node head.now }
{
    match head {
        Head::Restart(node) => Some(*node),
        _ => None,
    }
}

impl Checker {
    /// What is known before the first step.
    pub(crate) fn new(
        alloc: Global,
        nodes: u32,
        links: &[LinkDecl],
        actors: &[NodeNo],
    ) -> Result<Checker, NoMemory>
        requires laid_out { IsLaidOut nodes
            (record { links = links.now; actors = actors.now }) }
        ensures left { IfOk result (λ checker. AreLeft [] checker) }
        ensures shape { IfOk result (λ checker. checker.shape
            ≡ record { links = links.now; actors = actors.now }) }
    {
        let kernels = kernels_of(alloc, nodes)?;
        let standings = standings_of(alloc, actors.len())?;
        let book = Book::new(alloc, links)?;
        let homes = Vec::from_slice(alloc, actors)?;
        Ok(Checker {
            alloc,
            book,
            homes,
            kernels,
            standings,
        })
    }

    /// How an actor stands.
    fn standing_of(&self, actor: u32) -> Option<&Standing>
        ensures { option_copied result ≡ standing_of self.now.standings actor }
    {
        match actor {
            0 => None,
            _ => self.standings.get((actor - 1) as usize),
        }
    }

    /// Whether an actor makes steps.
    fn makes_steps(&self, actor: u32) -> bool
        ensures { result ≡ makes_steps (standing_of self.now.standings actor) }
    {
        match self.standing_of(actor) {
            Some(standing) => !standing.ended,
            None => false,
        }
    }

    /// Whether a step is made by one who may make it.
    pub(crate) fn is_made_by_maker(&self, by: By, head: &Head) -> bool
        ensures { result ≡ is_made_by_maker self.now by head.now }
    {
        match by {
            By::Actor(actor) => self.makes_steps(actor),
            By::Pump(link) => {
                0 < link.0 && ((link.0 as usize) <= self.book.link_count() && may_pump(link, head))
            }
        }
    }

    /// The endpoint of the maker of a step.
    pub(crate) fn endpoint_of_maker(&self, by: By) -> Option<Inc>
        ensures { result ≡ endpoint_of_maker self.now by }
    {
        match by {
            By::Actor(actor) => self.endpoint_of(actor),
            By::Pump(_) => None,
        }
    }

    fn endpoint_of(&self, actor: u32) -> Option<Inc>
        ensures { result ≡ endpoint_in (standing_of self.now.standings actor) }
    {
        match self.standing_of(actor) {
            Some(standing) => standing.endpoint,
            None => None,
        }
    }

    /// Whether an actor has made its last step.
    fn has_ended(&self, actor: u32) -> bool
        ensures { result ≡ ended_in (standing_of self.now.standings actor) }
    {
        match self.standing_of(actor) {
            Some(standing) => standing.ended,
            None => false,
        }
    }

    /// The place of the kernel of an actor's node.
    fn home_of(&self, actor: u32) -> usize
        requires ready { IsReady self.now }
        requires above { 0 < actor }
        requires within { actor ≤ length self.now.shape.actors }
        ensures place { result + 1 ≡ node_by self.now.shape (By.Actor actor) }
        ensures inside { result < length self.now.kernels }
    {
        self.homes[(actor - 1) as usize].0 as usize - 1
    }

    /// The kernel of an actor's node.
    fn kernel_of_maker(&self, actor: u32) -> &Kernel
        requires ready { IsReady self.now }
        requires above { 0 < actor }
        requires within { actor ≤ length self.now.shape.actors }
        ensures { result.now ≡ kernel_of_maker self.now (By.Actor actor) }
    {
        let home = self.home_of(actor);
        &self.kernels[home]
    }

    /// Whether an actor is idle.
    fn is_idle(&self, actor: u32) -> bool
        requires ready { IsReady self.now }
        requires above { 0 < actor }
        requires within { actor ≤ length self.now.shape.actors }
        ensures { result ≡ is_idle_in self.now actor }
    {
        let kernel = self.kernel_of_maker(actor);
        match self.standing_of(actor) {
            Some(standing) => is_vain_at(kernel, &standing.waits, standing.endpoint),
            None => false,
        }
    }

    /// Whether an actor is this one, or leaves this one at rest.
    fn leaves_at_rest(&self, actor: u32, other: u32) -> bool
        requires ready { IsReady self.now }
        requires above { 0 < other }
        requires within { other ≤ length self.now.shape.actors }
        ensures { result ≡ ((actor == other) || leaves_at_rest_in self.now actor other) }
    {
        actor == other || (self.has_ended(other) || (self.is_idle(other) && actor < other))
    }

    /// Whether each other actor leaves an actor at rest.
    fn all_leave_at_rest(&self, actor: u32) -> bool
        requires ready { IsReady self.now }
        ensures { result ≡ all_leave_at_rest_in self.now actor (length self.now.shape.actors) }
    {
        let mut all = true;
        for place in 0..self.actor_count() {
            let leaves = self.leaves_at_rest(actor, place + 1);
            all = all && leaves;
        }
        all
    }

    fn actor_count(&self) -> u32
        requires ready { IsReady self.now }
        ensures { result ≡ length self.now.shape.actors }
    {
        self.homes.len() as u32
    }

    /// Whether an actor doesn't wait.
    fn is_not_waiting(&self, actor: u32) -> bool
        ensures { result ≡ is_none (waits_in_standing (standing_of self.now.standings actor)) }
    {
        match self.standing_of(actor) {
            Some(standing) => standing.waits.is_none(),
            None => true,
        }
    }

    /// Whether an actor that finds none, or waits, may do so.
    pub(crate) fn is_patient(&self, actor: u32, head: &Head) -> bool
        requires ready { IsReady self.now }
        ensures { result ≡ is_patient self.now (By.Actor actor) head.now }
    {
        match head {
            Head::TakeNone(_) => self.all_leave_at_rest(actor),
            Head::Waits(_) => self.is_not_waiting(actor),
            _ => true,
        }
    }

    /// Whether a send is answered by whether its peer is alive.
    pub(crate) fn keeps_sends(&self, actor: u32, head: &Head) -> bool
        requires ready { IsReady self.now }
        requires above { 0 < actor }
        requires within { actor ≤ length self.now.shape.actors }
        ensures { IsTrue result ↔ SendsAs (kernel_of_maker self.now (By.Actor actor)) head.now }
    {
        keeps_sends(self.kernel_of_maker(actor), head)
    }

    /// Restarts a node again, in any step. What is closed there.
    fn close_all(&mut self, node: NodeNo) -> Result<Effects, NoMemory>
        ensures effects { IfOk result (λ effects. effects
            ≡ restart_closings (kernel_of self.old.kernels node.0)) }
        ensures after { OnOk result (self.new ≡ record self.old {
          kernels = restarted_in (kernel_of self.old.kernels node.0) self.old.kernels node.0;
        }) }
    {
        if node.0 == 0 || (node.0 as usize) > self.kernels.len() {
            return Ok(Effects::new(self.alloc));
        }
        self.kernels[node.0 as usize - 1].restart()
    }

    /// The ends of the sessions of a node that are up.
    fn downs_of(&self, node: NodeNo) -> Result<Vec<Effect>, NoMemory>
        requires ready { IsReady self.now }
        ensures { IfOk result (λ downs. downs.items
            ≡ downs_in self.now.book node.0 (length self.now.book.links)) }
    {
        self.book.downs_of(self.alloc, node)
    }

    /// Restarts a node again, in any step: the sessions of its links end, and then its endpoints are
    /// closed.
    fn restart(&mut self, node: NodeNo) -> Result<Called, NoMemory>
        requires ready { IsReady self.old }
        ensures effects { IfOk result (λ called. called.effects
            ≡ restart_effects self.old node.0) }
        ensures earliest { IfOk result (λ called. called.earliest ≡ None) }
        ensures answered { IfOk result (λ called. called.answered ≡ true) }
        ensures after { OnOk result (self.new ≡ record self.old {
          kernels = restarted_in (kernel_of self.old.kernels node.0) self.old.kernels node.0;
        }) }
    {
        let downs = self.downs_of(node)?;
        let closings = self.close_all(node)?;
        Ok(heard(joined(downs, closings)?))
    }

    /// Makes the call of a head again, at the kernel of its maker's node.
    fn call_at_home(
        &mut self,
        actor: u32,
        me: Option<Inc>,
        head: &Head,
        step: u64,
    ) -> Result<Called, NoMemory>
        requires ready { IsReady self.old }
        requires above { 0 < actor }
        requires within { actor ≤ length self.old.shape.actors }
        requires bounded { IsTrue (is_bounded head.now) }
        ensures effects { IfOk result (λ called. called.effects
            ≡ call_effects (kernel_of_maker self.old (By.Actor actor)) step me head.now) }
        ensures earliest { IfOk result (λ called. called.earliest
            ≡ earliest_in (kernel_of_maker self.old (By.Actor actor)) me head.now) }
        ensures answered { IfOk result (λ called. IsTrue called.answered
            ↔ AnswersAs (kernel_of_maker self.old (By.Actor actor)) me head.now) }
        ensures after { OnOk result (self.new ≡ record self.old {
          kernels = slice_set self.old.kernels (node_by self.old.shape (By.Actor actor) - 1)
              (call_after (kernel_of_maker self.old (By.Actor actor)) step me head.now);
        }) }
    {
        let home = self.home_of(actor);
        call(self.alloc, &mut self.kernels[home], me, head, step)
    }

    /// Runs a step of an actor again.
    pub(crate) fn act(
        &mut self,
        actor: u32,
        me: Option<Inc>,
        head: &Head,
        step: u64,
    ) -> Result<Called, NoMemory>
        requires ready { IsReady self.old }
        requires above { 0 < actor }
        requires within { actor ≤ length self.old.shape.actors }
        requires bounded { IsTrue (is_bounded head.now) }
        requires mine { me ≡ endpoint_of_maker self.old (By.Actor actor) }
        ensures effects { IfOk result (λ called. called.effects
            ≡ effects_in self.old step (By.Actor actor) head.now) }
        ensures earliest { IfOk result (λ called. called.earliest
            ≡ earliest_in (kernel_of_maker self.old (By.Actor actor))
            (endpoint_of_maker self.old (By.Actor actor)) head.now) }
        ensures answered { IfOk result (λ called. IsTrue called.answered
            ↔ AnswersAs (kernel_of_maker self.old (By.Actor actor))
            (endpoint_of_maker self.old (By.Actor actor)) head.now) }
        ensures after { OnOk result (self.new ≡ record self.old {
          kernels = kernels_after self.old step (By.Actor actor) head.now;
        }) }
    {
        match restarted_node(head) {
            Some(node) => self.restart(node),
            None => self.call_at_home(actor, me, head, step),
        }
    }

    /// Runs what a packet or a tick brought to a side of a link again, and says whether its effects
    /// are those that it then has.
    pub(crate) fn bring(
        &mut self,
        link: LinkNo,
        side: Side,
        noted: &[Effect],
        step: u64,
    ) -> Result<bool, NoMemory>
        requires ready { IsReady self.old }
        requires there { IsThere self.old.book link }
        ensures exact { IfOk result (λ exact. IsTrue exact
            ↔ (noted.now ≡ effects_there self.old link side noted.now)) }
        ensures after { OnOk result (self.new ≡ record self.old {
          kernels = kernels_brought self.old step link side noted.now;
        }) }
    {
        let at = self.book.node_at(link, side);
        let effects = bring_to(self.alloc, &mut self.kernels, at, link, noted, step)?;
        Ok(same_effects(noted, effects.as_slice()))
    }

    /// Whether what a head says of a link is said of one that there is.
    pub(crate) fn is_of_link(&self, head: &Head) -> bool
        ensures { result ≡ is_of_link (length self.now.book.links) head.now }
    {
        self.book.is_of_link(head)
    }

    /// Whether a receive that finds none finds every link still.
    pub(crate) fn keeps_rest(&self, head: &Head) -> bool
        requires ready { IsReady self.now }
        ensures { result ≡ keeps_rest self.now.book self.now.kernels head.now }
    {
        self.book.keeps_rest(&self.kernels, head)
    }

    /// Whether what the packet of a step brings may come.
    pub(crate) fn may_pass(&self, step: &Step) -> bool
        requires ready { IsReady self.now }
        requires of_link { is_of_link (length self.now.book.links) step.now.head ≡ true }
        ensures { result
            ≡ may_pass self.now.book self.now.kernels step.now.head step.now.effects }
    {
        self.book.may_pass(&self.kernels, step)
    }

    /// Whether a packet meets a verdict that its link allows.
    pub(crate) fn keeps_cuts(&self, head: &Head) -> bool
        requires ready { IsReady self.now }
        requires of_link { is_of_link (length self.now.book.links) head.now ≡ true }
        ensures { result ≡ keeps_cuts self.now.book head.now }
    {
        self.book.keeps_cuts(head)
    }

    /// Whether what the tick of a step brings may come.
    pub(crate) fn may_tick(&self, step: &Step) -> bool
        requires ready { IsReady self.now }
        requires of_link { is_of_link (length self.now.book.links) step.now.head ≡ true }
        ensures { result ≡ may_tick self.now.book step.now.head step.now.effects }
    {
        self.book.may_tick(step)
    }

    /// Every actor and the book pass a step, whose maker has this endpoint.
    pub(crate) fn pass(&mut self, me: Option<Inc>, step: &Step) -> Result<(), NoMemory>
        requires takes { TakesStep self.old.book }
        ensures { OnOk result (HavePassed me step.now self.old self.new) }
    {
        self.book.pass(me, step)?;
        pass_all(&mut self.standings, step)
    }
}

/// Some effects, and further ones.
fn joined(first: Vec<Effect>, rest: Effects) -> Result<Effects, NoMemory>
    ensures { IfOk result (λ all. all ≡ first.items ++ rest) }
{
    let mut all = first;
    let mut rest = rest.into_vec();
    all.append(&mut rest)?;
    Ok(Effects::of(all))
}

/// Every one of these passes a step.
fn pass_all(standings: &mut [Standing], step: &Step) -> Result<(), NoMemory>
    ensures { OnOk result (ArePast step.now standings.old standings.new) }
{
    for place in 0..standings.len() {
        let mine = is_by(step.by, place + 1);
        standings[place].pass(mine, step)?;
    }
    Ok(())
}

/// Whether a step is made by this actor.
fn is_by(by: By, actor: usize) -> bool
    ensures { result ≡ is_by by actor }
{
    match by {
        By::Actor(maker) => maker as usize == actor,
        By::Pump(_) => false,
    }
}
