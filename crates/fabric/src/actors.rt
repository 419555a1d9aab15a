//! What a fabric says of its actors: how they stand, whether one is at rest, and whether all is
//! over.

ghost use Rattle.std.specs.Prelude.{◌≡◌, ◌==◌, ◌&&◌, ◌||◌, ◌+◌, ◌<◌, ◌≤◌, true, false};
ghost use Rattle.std.specs.Prelude.{length, is_some};
ghost use Rattle.journal.specs.History.{closed_step, endpoint_of, has_ended, next_inc, opened_on};
ghost use Rattle.journal.specs.Rest.{IsAtRest, is_idle, leaves_at_rest, waits_with};
ghost use Rattle.journal.specs.Shapes.{node_by};
ghost use Rattle.link_laws.specs.Still.{AllStill, IsOver};
ghost use Rattle.run_trunks.specs.States.{trunks_of};
ghost use Rattle.fabric.specs.Actings.{IsHomeOf};
ghost use Rattle.fabric.specs.Links.{no_link_stirs};
ghost use Rattle.fabric.specs.Machine.{all_have_ended, have_ended, is_at_rest};

use crate::fabric::Fabric;
use crate::rest::is_vain;
use journal::By;
use linx_base::{Inc, NodeNo};

impl Fabric {
    /// Whether an actor, by its number from 1, has made its last step.
    pub fn has_ended(&self, actor: u32) -> bool
        requires above { 0 < actor }
        requires within { actor ≤ length self.now.shape.actors }
        ensures { result ≡ has_ended self.now.log.steps actor }
    {
        self.standings[(actor - 1) as usize].ended
    }

    /// The endpoint of an actor, by its number from 1, if it has one.
    pub fn endpoint_of(&self, actor: u32) -> Option<Inc>
        requires above { 0 < actor }
        requires within { actor ≤ length self.now.shape.actors }
        ensures { result ≡ endpoint_of self.now.log.steps actor }
    {
        self.standings[(actor - 1) as usize].endpoint
    }

    /// The number of the step that ended the last endpoint that an actor lost, counted from 1, or 0
    /// where it lost none.
    pub fn closed_step(&self, actor: u32) -> u64
        requires above { 0 < actor }
        requires within { actor ≤ length self.now.shape.actors }
        ensures { result ≡ closed_step self.now.log.steps actor }
    {
        self.standings[(actor - 1) as usize].closed
    }

    /// Whether the last step of an actor says that it waits.
    pub(crate) fn is_waiting(&self, actor: u32) -> bool
        requires above { 0 < actor }
        requires within { actor ≤ length self.now.shape.actors }
        ensures { result ≡ is_some (waits_with self.now.log.steps actor) }
    {
        self.standings[(actor - 1) as usize].waits.is_some()
    }

    /// The place of the kernel of an actor's node.
    pub(crate) fn kernel_of(&self, actor: u32) -> usize
        requires above { 0 < actor }
        requires within { actor ≤ length self.now.shape.actors }
        ensures { IsHomeOf self.now actor result }
    {
        self.actors[(actor - 1) as usize].0 as usize - 1
    }

    /// The node of an actor.
    pub(crate) fn node_of(&self, actor: u32) -> NodeNo
        requires above { 0 < actor }
        requires within { actor ≤ length self.now.shape.actors }
        ensures { result ≡ record { 0 = node_by self.now.shape (By.Actor actor) } }
    {
        self.actors[(actor - 1) as usize]
    }

    /// The incarnation that an actor opens next.
    pub(crate) fn next_inc(&self, actor: u32) -> Inc
        requires above { 0 < actor }
        requires within { actor ≤ length self.now.shape.actors }
        ensures { result ≡ next_inc (node_by self.now.shape (By.Actor actor))
            (opened_on self.now.log.steps (node_by self.now.shape (By.Actor actor))) }
    {
        let openings = self.kernels[self.kernel_of(actor)].openings();
        Inc::of(self.node_of(actor), openings + 1)
    }

    /// Whether every actor has made its last step.
    fn have_ended(&self) -> bool
        ensures { result ≡ all_have_ended self.now.shape self.now.log.steps }
    {
        if self.is_led() {
            return false;
        }
        for place in 0..self.actor_count() {
            if !self.has_ended(place + 1) {
                return false;
            }
        }
        true
    }

    /// Whether the actor at the front hasn't ended.
    fn is_led(&self) -> bool
        ensures { result ≡ true
            → all_have_ended self.now.shape self.now.log.steps ≡ false }
    {
        self.front < self.actor_count() && !self.has_ended(self.front + 1)
    }

    /// How many actors have ended before the first that hasn't.
    pub(crate) fn first_left(&self) -> u32
        ensures { have_ended self.now.log.steps result ≡ true }
    {
        for place in 0..self.actor_count() {
            if !self.has_ended(place + 1) {
                return place;
            }
        }
        self.actor_count()
    }

    /// Whether every actor has made its last step, and no link stirs: then all is over, as the
    /// journal tells.
    pub fn is_over(&self) -> bool
        ensures value { result ≡ (all_have_ended self.now.shape self.now.log.steps
            && no_link_stirs self.now.shape self.now.log.steps (trunks_of self.now.trunks)) }
        ensures over { result ≡ true → IsOver self.now.shape self.now.log.steps }
    {
        let _ = &self.journal;
        if !self.have_ended() {
            return false;
        }
        self.no_link_stirs()
    }

    /// The number of actors. With the links they are at most 96.
    pub fn actor_count(&self) -> u32
        ensures count { result ≡ length self.now.shape.actors }
        ensures few { length self.now.shape.actors + length self.now.shape.links ≤ 96 }
    {
        self.actors.len() as u32
    }

    /// Whether a receive of an actor that selects nothing finds none: the actor is at rest, since
    /// each other one has ended, or waits with nothing selected and has a greater number; and no
    /// link stirs, so that each is still.
    pub fn may_find_none(&self, actor: u32) -> bool
        ensures value { result ≡ (is_at_rest self.now.shape self.now.log.steps actor
            && no_link_stirs self.now.shape self.now.log.steps (trunks_of self.now.trunks)) }
        ensures rest { result ≡ true
            → IsAtRest self.now.shape self.now.log.steps actor }
        ensures still { result ≡ true → AllStill self.now.shape self.now.log.steps }
    {
        let _ = &self.journal;
        if self.is_behind(actor) {
            return false;
        }
        if !self.no_link_stirs() {
            return false;
        }
        self.all_leave_at_rest(actor)
    }

    /// Whether the actor at the front keeps another one from rest.
    fn is_behind(&self, actor: u32) -> bool
        ensures { result ≡ true → is_at_rest self.now.shape self.now.log.steps actor ≡ false }
    {
        self.front < self.actor_count() && !self.leaves_at_rest(actor, self.front + 1)
    }

    /// Whether each other actor leaves an actor at rest.
    fn all_leave_at_rest(&self, actor: u32) -> bool
        ensures { result ≡ is_at_rest self.now.shape self.now.log.steps actor }
    {
        for place in 0..self.actor_count() {
            if !self.leaves_at_rest(actor, place + 1) {
                return false;
            }
        }
        true
    }

    /// Whether an actor is this one, or leaves this one at rest.
    fn leaves_at_rest(&self, actor: u32, other: u32) -> bool
        requires above { 0 < other }
        requires within { other ≤ length self.now.shape.actors }
        ensures { result ≡ ((actor == other) || leaves_at_rest self.now.log.steps actor other) }
    {
        if actor == other || self.has_ended(other) {
            return true;
        }
        if actor > other {
            return false;
        }
        self.is_idle(other)
    }

    /// Whether an actor is known to wait in vain. One that does so isn't known to before it looks, and
    /// no more once something has come.
    pub fn is_known_idle(&self, actor: u32) -> bool
        ensures { result ≡ true → is_idle self.now.log.steps actor ≡ true }
    {
        self.journal.is_known_idle(actor)
    }

    /// Whether an actor waits, and nothing that it waits for is in its queue.
    pub fn is_idle(&self, actor: u32) -> bool
        requires above { 0 < actor }
        requires within { actor ≤ length self.now.shape.actors }
        ensures { result ≡ is_idle self.now.log.steps actor }
    {
        if self.journal.is_known_idle(actor) {
            return true;
        }
        let place = self.kernel_of(actor);
        let standing = &self.standings[(actor - 1) as usize];
        is_vain(standing, &self.kernels[place])
    }
}
