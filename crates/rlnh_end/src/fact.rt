//! What an end knows of the other side, fact by fact, and by what each fact is found.
ghost use Rattle.std.specs.Prelude.{◌≡◌, ◌==◌};
ghost use Rattle.keyed_list.specs.Keys.{is_under};
ghost use Rattle.rlnh_end.specs.declared.fact.Entry.{Entry as AnyEntry};
ghost use Rattle.rlnh_end.specs.declared.fact.EntryKey.TheVariants.{Name as NamedBy};
ghost use Rattle.rlnh_end.specs.declared.fact.Sought.TheVariants.{Name as SoughtName};
ghost use Rattle.rlnh_end.specs.Facts.{key_of, first_key, second_key, keys_of, is_sought};

use crate::met_at::MetAt;
use keyed_list::{Keyed, NameKey};
use linx_base::{Inc, Name};

/// What an end knows of the other side.
#[derive(Drop)]
pub(crate) enum Fact {
    /// A peer was met.
    Met(MetAt),
    /// The endpoint of a name was asked for.
    Noted(Name),
}

/// A fact under a number that no other has.
#[derive(Drop)]
pub(crate) struct Entry {
    pub(crate) number: u64,
    pub(crate) fact: Fact,
}

/// By what an entry is found.
#[derive(PartialEq, Eq, PartialOrd, Ord, Drop)]
pub(crate) enum EntryKey {
    Number(u64),
    Address(u32),
    Inc(Inc),
    Name(NameKey),
}

/// What is looked for: who was met at an address, where an incarnation was met, or a noted name.
#[derive(Clone, Copy)]
pub(crate) enum Sought<'a> {
    Address(u32),
    Inc(Inc),
    Name(&'a Name),
}

/// The key of what is looked for.
pub(crate) fn key_of(sought: Sought<'_>) -> EntryKey
    ensures key { result ≡ key_of sought.entry }
    ensures finds { (entry : AnyEntry) → is_under ⟦<EntryKey as Ord>⟧.cmp keys_of result entry
        ≡ is_sought sought.entry entry.fact }
{
    match sought {
        Sought::Address(addr) => EntryKey::Address(addr),
        Sought::Inc(inc) => EntryKey::Inc(inc),
        Sought::Name(name) => name_key(name),
    }
}

/// The key of a noted name.
fn name_key(name: &Name) -> EntryKey
    ensures key { result ≡ NamedBy name.now }
    ensures finds { (entry : AnyEntry) → is_under ⟦<EntryKey as Ord>⟧.cmp keys_of result entry
        ≡ is_sought (SoughtName name.entry) entry.fact }
{
    EntryKey::Name(NameKey::of(name))
}

/// The key of the entry of a number.
pub(crate) fn number_key(number: u64) -> EntryKey
    ensures { (entry : AnyEntry) → is_under ⟦<EntryKey as Ord>⟧.cmp keys_of result entry
        ≡ (number == entry.number) }
{
    EntryKey::Number(number)
}

/// The first key of a fact.
fn first_key(fact: &Fact) -> EntryKey
    ensures { result ≡ first_key fact.now }
{
    match fact {
        Fact::Met(met) => EntryKey::Address(met.addr),
        Fact::Noted(name) => EntryKey::Name(NameKey::of(name)),
    }
}

/// The second key of a fact, `None` where it has one alone.
fn second_key(fact: &Fact) -> Option<EntryKey>
    ensures { result ≡ second_key fact.now }
{
    match fact {
        Fact::Met(met) => Some(EntryKey::Inc(met.inc)),
        Fact::Noted(_) => None,
    }
}

impl Keyed<EntryKey> for Entry {
    ghost use Rattle.rlnh_end.specs.Facts.{keys_of};

    ghost keys = { keys_of };

    fn key(&self, at: u8) -> Option<EntryKey> {
        match at {
            0 => Some(EntryKey::Number(self.number)),
            1 => Some(first_key(&self.fact)),
            2 => second_key(&self.fact),
            _ => None,
        }
    }
}
