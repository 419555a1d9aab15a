ghost use Rattle.std.specs.Prelude.{◌≡◌, ◌≢◌, [], ℕ, IfSome, IfNone, OnSome, IfOk, OnOk, OnErr};
ghost use Rattle.linx_base.specs.Both.{still};
ghost use Rattle.linx_base.specs.declared.identity.Inc.{Inc as AnyInc};
ghost use Rattle.link_addresses.specs.declared.meaning.Meaning.TheVariants.{Free, Live, Closing};
ghost use Rattle.link_addresses.specs.Meanings.{meaning_of, with_meaning, IsLive, used_in};
ghost use Rattle.link_addresses.specs.Meanings.{lowest_free, with_lowest, IsLowestFree, address_of};
ghost use Rattle.link_addresses.specs.Meanings.{ChangesMeaning, KeepsUsed, HasAddressLeft};

use crate::meaning::Meaning;
use crate::table::Table;
use linx_base::{Inc, NoMemory};
use std::alloc::Global;
use std::marker::Model;
use std::mem;

/// The link addresses of one side, with a way back. Contracts see the meanings of the addresses
/// from 1 on, as they were when an event began and as they are now.
#[derive(Drop)]
pub struct Addresses {
    table: Table,
    /// The addresses of the connection before, where the event began in it.
    before: Option<Table>,
    alloc: Global,
}

impl Model for Addresses {
    ghost use Rattle.std.specs.Prelude.{List};
    ghost use Rattle.linx_base.specs.Both.{Both};
    ghost use Rattle.link_addresses.specs.declared.meaning.Meaning.{Meaning};
    ghost use Rattle.link_addresses.specs.WayBack.{was_of};

    ghost Value = { Both (List Meaning) };

    ghost view = { λ a. record { was = was_of a.before a.table; is = a.table.is } };
}

impl Addresses {
    /// No addresses. It takes no memory.
    pub fn new(alloc: Global) -> Addresses
        ensures { result ≡ still [] }
    {
        Addresses {
            table: Table::new(alloc),
            before: None,
            alloc,
        }
    }

    /// The number of addresses that are live or closing.
    pub fn used(&self) -> u32
        ensures { result ≡ used_in self.now.is }
    {
        self.table.used()
    }

    /// What an address means: 0, and an address that was never given, is free.
    pub fn meaning(&self, addr: u32) -> Meaning
        ensures { result ≡ meaning_of self.now.is addr }
    {
        self.table.meaning(addr)
    }

    /// The address at which an incarnation is live.
    pub fn addr_of(&self, inc: Inc) -> Option<u32>
        ensures value { result ≡ address_of self.now.is inc }
        ensures found { IfSome result (λ addr. meaning_of self.now.is addr ≡ Live inc) }
        ensures only { (addr : ℕ) → meaning_of self.now.is addr ≡ Live inc → result ≡ Some addr }
        ensures none { IfNone result (¬ (IsLive self.now.is inc)) }
    {
        self.table.addr_of(inc)
    }

    /// Gives an incarnation the lowest free address. A refusal changes nothing.
    #[tactic(auto, using(crate::proofs::Lists::given_lowest, crate::proofs::Lists::given_keeps))]
    pub fn publish(&mut self, inc: Inc) -> Result<u32, NoMemory>
        requires not_live { ¬ (IsLive self.old.is inc) }
        requires room { HasAddressLeft self.old.is }
        ensures address { IfOk result (λ addr. addr ≡ lowest_free self.old.is) }
        ensures lowest { IfOk result (λ addr. IsLowestFree self.old.is addr) }
        ensures ok { OnOk result (self.new.is ≡ with_lowest self.old.is (Live inc)) }
        ensures changes { IfOk result (λ addr.
            ChangesMeaning self.old.is self.new.is addr (Live inc)) }
        ensures keeps_used { KeepsUsed self.old.is self.new.is }
        ensures err { OnErr result (self.new ≡ self.old) }
        ensures was { self.new.was ≡ self.old.was }
    {
        let addr = self.table.publish(inc)?;
        Ok(addr)
    }

    /// Begins to close an incarnation: its address means nobody, and isn't free. It takes no
    /// memory.
    #[tactic(auto, using(crate::proofs::Lists::closed_changes, crate::proofs::Lists::closed_keeps, crate::proofs::Indexing::address_not_live))]
    pub fn closing(&mut self, inc: Inc) -> Option<u32>
        ensures value { result ≡ address_of self.old.is inc }
        ensures found { IfSome result (λ addr. (meaning_of self.old.is addr ≡ Live inc)
            × (self.new.is ≡ with_meaning self.old.is addr (Closing inc))) }
        ensures changes { IfSome result (λ addr.
            ChangesMeaning self.old.is self.new.is addr (Closing inc)) }
        ensures none { IfNone result (¬ (IsLive self.old.is inc)) }
        ensures unchanged { IfNone result (self.new ≡ self.old) }
        ensures not_live { ¬ (IsLive self.new.is inc) }
        ensures keeps_used { KeepsUsed self.old.is self.new.is }
        ensures was { self.new.was ≡ self.old.was }
    {
        let addr = self.table.closing(inc)?;
        Some(addr)
    }

    /// Frees a closing address, and gives the incarnation that it was of. It takes no memory.
    #[tactic(auto, using(crate::proofs::Lists::freed_changes))]
    pub fn acked(&mut self, addr: u32) -> Option<Inc>
        ensures found { IfSome result (λ inc. (meaning_of self.old.is addr ≡ Closing inc)
            × (self.new.is ≡ with_meaning self.old.is addr Free)) }
        ensures changes { OnSome result (ChangesMeaning self.old.is self.new.is addr Free) }
        ensures none { IfNone result ((inc : AnyInc) → meaning_of self.old.is addr ≢ Closing inc) }
        ensures unchanged { IfNone result (self.new ≡ self.old) }
        ensures was { self.new.was ≡ self.old.was }
    {
        let inc = self.table.acked(addr)?;
        Some(inc)
    }

    /// A connection begins: no address is given. It takes no memory.
    pub fn begin(&mut self)
        ensures is { self.new.is ≡ [] }
        ensures was { self.new.was ≡ self.old.was }
    {
        let ended = mem::replace(&mut self.table, Table::new(self.alloc));
        if self.before.is_none() {
            self.before = Some(ended);
        }
    }

    /// What is now stays. It takes no memory.
    pub fn keep(&mut self)
        ensures { self.new ≡ still self.old.is }
    {
        if self.before.is_some() {
            self.before = None;
        }
        self.table.keep();
    }

    /// What was is again. It takes no memory.
    pub fn undo(&mut self)
        ensures { self.new ≡ still self.old.was }
    {
        if let Some(before) = self.before.take() {
            self.table = before;
        }
        self.table.undo();
    }
}
