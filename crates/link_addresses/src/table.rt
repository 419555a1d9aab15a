ghost use Rattle.std.specs.Prelude.{◌≡◌, ◌≢◌, ◌-◌, ◌<◌, ◌≤◌, ◌++◌, [], ◌∷◌, ℕ, length, OnOk, OnErr};
ghost use Rattle.std.specs.Prelude.{IfOk, IfSome, IfNone, slice_get, vec_len, vec_capacity};
ghost use Rattle.linx_base.specs.Both.{still};
ghost use Rattle.linx_base.specs.declared.identity.Inc.{Inc as AnyInc};
ghost use Rattle.link_addresses.specs.declared.meaning.Meaning.TheVariants.{Free, Live, Closing};
ghost use Rattle.link_addresses.specs.Finding.{IsPut};
ghost use Rattle.link_addresses.specs.WayBack.{change_of};
ghost use Rattle.link_addresses.specs.Meanings.{meaning_of, with_meaning, IsLive, used_in};
ghost use Rattle.link_addresses.specs.Meanings.{lowest_free, with_lowest, address_of};
ghost use Rattle.link_addresses.specs.Meanings.{HasAddressLeft};

use crate::change::Change;
use crate::meaning::Meaning;
use crate::{groups, index, way_back};
use linx_base::{Inc, NoMemory};
use std::alloc::Global;
use std::collections::HashMap;
use std::marker::Model;

/// The addresses since one side was last connected anew. Contracts see the meanings as they were
/// when an event began, and as they are now.
#[derive(Drop)]
pub(crate) struct Table {
    meanings: Vec<Meaning>,
    used: u32,
    old_used: u32,
    index: HashMap<u64, u32>,
    /// The groups in which no address is free.
    full: Vec<bool>,
    /// What changed since the event began.
    changes: Vec<Change>,
}

impl Model for Table {
    ghost use Rattle.std.specs.Prelude.{List, nat_eq, vec_capacity};
    ghost use Rattle.std.specs.HashMap.{get};
    ghost use Rattle.linx_base.specs.Both.{Both};
    ghost use Rattle.link_addresses.specs.declared.meaning.Meaning.{Meaning};
    ghost use Rattle.link_addresses.specs.WayBack.{undone, IsTable};

    ghost Value = { Both (List Meaning) };

    ghost view = { λ t. record {
      was = undone t.changes.items t.meanings.items;
      is = t.meanings.items;
    } };

    ghost invariant = { λ t.
        IsTable (get nat_eq t.index) t.meanings.items t.full.items t.changes.items
        (vec_capacity t.changes) t.used t.old_used };
}

impl Table {
    /// No addresses. It takes no memory.
    pub(crate) fn new(alloc: Global) -> Table
        ensures { result ≡ still [] }
    {
        Table {
            meanings: Vec::new(alloc),
            used: 0,
            old_used: 0,
            index: HashMap::new(alloc),
            full: Vec::new(alloc),
            changes: Vec::new(alloc),
        }
    }

    /// How many addresses are live or closing.
    pub(crate) fn used(&self) -> u32
        ensures { result ≡ used_in self.now.is }
    {
        self.used
    }

    /// What an address means; 0, and one that was never given, is free.
    pub(crate) fn meaning(&self, addr: u32) -> Meaning
        ensures { result ≡ meaning_of self.now.is addr }
    {
        index::meaning_at(&self.meanings, addr)
    }

    /// The address at which an incarnation is live.
    pub(crate) fn addr_of(&self, inc: Inc) -> Option<u32>
        ensures value { result ≡ address_of self.now.is inc }
        ensures found { IfSome result (λ addr. meaning_of self.now.is addr ≡ Live inc) }
        ensures only { (addr : ℕ) → meaning_of self.now.is addr ≡ Live inc → result ≡ Some addr }
    {
        index::address_in(&self.meanings, &self.index, inc)
    }

    /// Gives an incarnation the lowest free address. A refusal changes nothing.
    pub(crate) fn publish(&mut self, inc: Inc) -> Result<u32, NoMemory>
        requires not_live { ¬ (IsLive self.old.is inc) }
        requires room { HasAddressLeft self.old.is }
        ensures address { IfOk result (λ addr. addr ≡ lowest_free self.old.is) }
        ensures ok { OnOk result (self.new.is ≡ with_lowest self.old.is (Live inc)) }
        ensures was { self.new.was ≡ self.old.was }
        ensures err { OnErr result (self.new.is ≡ self.old.is) }
    {
        let place = groups::first_free(&self.meanings, &mut self.full);
        groups::cover(&mut self.full, place)?;
        self.meanings.reserve(1)?;
        self.changes.reserve(self.used as usize * 2 + 3)?;
        let addr = place as u32 + 1;
        index::enter(&mut self.index, inc, addr)?;
        change(
            &mut self.meanings,
            &mut self.changes,
            place,
            Meaning::Live(inc),
            inc,
        );
        self.used += 1;
        Ok(addr)
    }

    /// Begins to close an incarnation.
    pub(crate) fn closing(&mut self, inc: Inc) -> Option<u32>
        ensures value { result ≡ address_of self.old.is inc }
        ensures some { IfSome result (λ addr. (meaning_of self.old.is addr ≡ Live inc)
            × (self.new.is ≡ with_meaning self.old.is addr (Closing inc))) }
        ensures none { IfNone result (self.new.is ≡ self.old.is) }
        ensures not_live { ¬ (IsLive self.new.is inc) }
        ensures was { self.new.was ≡ self.old.was }
    {
        let addr = self.addr_of(inc)?;
        change_used(
            &mut self.meanings,
            &mut self.changes,
            addr,
            Meaning::Closing(inc),
            inc,
        );
        Some(addr)
    }

    /// Frees a closing address.
    pub(crate) fn acked(&mut self, addr: u32) -> Option<Inc>
        ensures some { IfSome result (λ inc. (meaning_of self.old.is addr ≡ Closing inc)
            × (self.new.is ≡ with_meaning self.old.is addr Free)) }
        ensures none { IfNone result ((inc : AnyInc) → meaning_of self.old.is addr ≢ Closing inc) }
        ensures unchanged { IfNone result (self.new.is ≡ self.old.is) }
        ensures was { self.new.was ≡ self.old.was }
    {
        let Meaning::Closing(inc) = self.meaning(addr) else {
            return None;
        };
        change_used(
            &mut self.meanings,
            &mut self.changes,
            addr,
            Meaning::Free,
            inc,
        );
        groups::release(&mut self.full, addr as usize - 1);
        self.used -= 1;
        Some(inc)
    }

    /// What is now stays. It takes no memory.
    pub(crate) fn keep(&mut self)
        ensures { self.new ≡ still self.old.is }
    {
        if self.changes.is_empty() {
            return;
        }
        index::forget(&self.meanings, &mut self.index, &self.changes);
        self.changes.clear();
        self.old_used = self.used;
    }

    /// What was is again. It takes no memory.
    pub(crate) fn undo(&mut self)
        ensures { self.new ≡ still self.old.was }
    {
        way_back::undo(
            &mut self.meanings,
            &mut self.index,
            &mut self.full,
            &self.changes,
        );
        index::forget(&self.meanings, &mut self.index, &self.changes);
        self.changes.clear();
        self.used = self.old_used;
    }
}

/// Gives a place, which may be the one past the end, another meaning, and notes what it had.
fn change(
    meanings: &mut Vec<Meaning>,
    changes: &mut Vec<Change>,
    place: usize,
    meaning: Meaning,
    inc: Inc,
)
    requires within { place ≤ length meanings.old.items }
    requires room { place ≡ length meanings.old.items
        → vec_len meanings.old < vec_capacity meanings.old }
    requires room_to_note { length changes.old.items < vec_capacity changes.old }
    ensures put { IsPut meanings.old.items place meaning meanings.new.items }
    ensures noted { let former = slice_get meanings.old.items place in
        changes.new.items ≡ changes.old.items ++ change_of place former inc ∷ [] }
    ensures capacity { vec_capacity changes.new ≡ vec_capacity changes.old }
{
    changes.push_reserved(Change {
        place,
        former: meanings.get(place).copied(),
        inc,
    });
    if place < meanings.len() {
        meanings[place] = meaning;
    } else {
        meanings.push_reserved(meaning);
    }
}

/// Gives an address that isn't free another meaning, and notes what it had.
fn change_used(
    meanings: &mut Vec<Meaning>,
    changes: &mut Vec<Change>,
    addr: u32,
    meaning: Meaning,
    inc: Inc,
)
    requires used { meaning_of meanings.old.items addr ≢ Free }
    requires room_to_note { length changes.old.items < vec_capacity changes.old }
    ensures meanings { meanings.new.items ≡ with_meaning meanings.old.items addr meaning }
    ensures noted { let former = slice_get meanings.old.items (addr - 1) in
        changes.new.items ≡ changes.old.items ++ change_of (addr - 1) former inc ∷ [] }
    ensures capacity { vec_capacity changes.new ≡ vec_capacity changes.old }
{
    change(meanings, changes, addr as usize - 1, meaning, inc);
}
