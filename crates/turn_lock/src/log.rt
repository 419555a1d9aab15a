//! The smallest story: a title, and who made each step. It shows what a state behind the lock owes,
//! and the lock is tried on it.
ghost use Rattle.std.specs.Prelude.{◌≡◌, List, [], ◌∷◌, OnOk, OnErr};
ghost use Rattle.turn_lock.specs.Passes.{IsPassOf, IsSamePass, own_steps};
ghost use Rattle.turn_lock.specs.Stories.{made, RestsFor};
ghost use Rattle.turn_lock.specs.declared.story.Made.{Made};

use crate::lock::TurnLock;
use crate::pass::Pass;
use crate::story::{Made, Story};
use std::alloc::{AllocError, Global};
use std::collections::VecDeque;
use std::marker::Model;
use std::sync::Wait;

/// Steps that say nothing but who made them, the newest first. No step changes the title.
#[derive(Drop)]
pub struct Log {
    title: u32,
    made: VecDeque<Made<()>>,
}

impl Model for Log {
    ghost use Rattle.turn_lock.specs.Stories.{LogParts};

    ghost Value = { LogParts };

    ghost view = { λ l. record { title = l.title; made = l.made.items } };
}

impl Story for Log {
    type Step = ();

    type Fixed = u32;

    ghost story = { λ l. l.made };

    ghost fixed = { λ l. l.title };

    ghost any_fixed = { 0 };

    fn steps(&self) -> u64 {
        self.made.len() as u64
    }

    fn maker(&self, k: u64) -> u32 {
        self.made[self.made.len() - k as usize].maker
    }
}

impl Log {
    /// A log without steps. It takes no memory.
    pub fn new(alloc: Global, title: u32) -> Log
        ensures { result ≡ record { title = title; made = [] } }
    {
        Log {
            title,
            made: VecDeque::new(alloc),
        }
    }

    /// The title.
    pub fn title(&self) -> u32
        ensures { result ≡ self.now.title }
    {
        self.title
    }

    // A step of this maker, unless memory is refused.
    fn add(&mut self, maker: u32) -> Result<(), AllocError>
        ensures title { self.new.title ≡ self.old.title }
        ensures added { OnOk result (self.new.made ≡ made maker tt ∷ self.old.made) }
        ensures refused { OnErr result (self.new.made ≡ self.old.made) }
    {
        self.made.push_front(Made { maker, step: () })?;
        Ok(())
    }
}

/// Takes the turn, adds a step of the pass's, and gives the state back. Where memory is refused no
/// step is added.
pub fn add_step<R: Wait>(
    rt: &R,
    lock: &TurnLock<Log>,
    pass: Pass<Log>,
) -> (Pass<Log>, Result<(), AllocError>)
    requires { IsPassOf lock.now pass }
    ensures same { IsSamePass pass result.0 }
    ensures goes_on { OnOk result.1 ((found : List (Made (Unit {0})))
        × (result.0.front ≡ made pass.number tt ∷ found)
        × RestsFor pass.number found pass.front) }
    ensures stays { OnErr result.1 (RestsFor pass.number result.0.front pass.front) }
    ensures own { OnOk result.1 (own_steps result.0 ≡ made pass.number tt ∷ own_steps pass) }
    ensures refused { OnErr result.1 (own_steps result.0 ≡ own_steps pass) }
{
    let mut held = lock.take(rt, pass);
    let number = held.number();
    let added = held.state().add(number);
    (lock.give(held), added)
}
