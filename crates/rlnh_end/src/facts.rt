ghost use Rattle.std.specs.Prelude.{◌≡◌, [], ◌∷◌, ◌++◌, filter, OnOk, OnErr};
ghost use Rattle.std.specs.Option.{option_copied};
ghost use Rattle.linx_base.specs.Both.{still};
ghost use Rattle.linx_base.specs.FirstMatch.{first_match, without_match};
ghost use Rattle.rlnh_end.specs.Facts.{is_sought, is_sought_entry, has_none, began_with};
ghost use Rattle.rlnh_end.specs.Facts.{AreNumbered};

use crate::fact::{Entry, EntryKey, Fact, Sought, key_of, number_key};
use keyed_list::KeyedList;
use linx_base::NoMemory;
use std::alloc::Global;
use std::marker::Model;
use std::mem;

/// The entries of some facts, in order.
type Entries = KeyedList<Entry, EntryKey>;

/// What an end knows of the other side, with a way back. Contracts see the facts in order, as they
/// were when an event began and as they are now.
#[derive(Drop)]
pub(crate) struct Facts {
    alloc: Global,
    /// What was and what is share the entries: what went stays until the event is kept.
    entries: Entries,
    /// The entries of the connection before, where the event began in it.
    before: Option<Entries>,
    /// The numbers of the entries that came since the event began.
    come: Vec<u64>,
    /// The numbers of the entries that went since the event began.
    gone: Vec<u64>,
    next: u64,
}

impl Model for Facts {
    ghost use Rattle.std.specs.Prelude.{List};
    ghost use Rattle.linx_base.specs.Both.{Both};
    ghost use Rattle.rlnh_end.specs.declared.fact.Fact.{Fact};
    ghost use Rattle.rlnh_end.specs.Facts.{facts_without, began_with, AreFacts};

    ghost Value = { Both (List Fact) };

    ghost view = { λ f. record {
      was = facts_without f.come.items (began_with f.before f.entries);
      is = facts_without f.gone.items f.entries;
    } };

    ghost invariant = { λ f. AreFacts f.entries f.before f.come.items f.gone.items f.next };
}

/// The first entry of what is looked for that has none of these numbers. All numbers are below the
/// next one, so there are no more entries than numbers.
fn find<'a>(entries: &'a Entries, next: u64, gone: &[u64], sought: Sought<'_>) -> Option<&'a Entry>
    requires { AreNumbered next entries.now }
    ensures { option_copied result
        ≡ first_match (is_sought_entry sought.entry) (filter (has_none gone.now) entries.now) }
{
    let mut k = 0;
    while let Some(entry) = entries.nth(key_of(sought), k) {
        if !gone.contains(&entry.number) {
            return Some(entry);
        }
        k += 1;
    }
    None
}

/// Frees the entries of these numbers.
fn drop_numbers(entries: &mut Entries, numbers: &[u64])
    ensures { entries.new ≡ filter (has_none numbers.now) entries.old }
{
    for number in numbers {
        entries.drop_all(number_key(*number));
    }
}

/// The entries of the connection in which the event began.
fn began_with(before: Option<Entries>, entries: Entries) -> Entries
    ensures { result ≡ began_with before entries }
{
    match before {
        Some(before) => before,
        None => entries,
    }
}

impl Facts {
    /// No facts. It takes no memory.
    pub(crate) fn new(alloc: Global) -> Facts
        ensures { result ≡ still [] }
    {
        Facts {
            alloc,
            entries: KeyedList::new(alloc),
            before: None,
            come: Vec::new(alloc),
            gone: Vec::new(alloc),
            next: 0,
        }
    }

    /// The first fact that is looked for, `None` exactly where there is none.
    pub(crate) fn first(&self, sought: Sought<'_>) -> Option<&Fact>
        ensures { option_copied result ≡ first_match (is_sought sought.entry) self.now.is }
    {
        let entry = find(&self.entries, self.next, &self.gone, sought)?;
        Some(&entry.fact)
    }

    /// Adds a fact at the end. A refusal changes nothing.
    pub(crate) fn add(&mut self, fact: Fact) -> Result<(), NoMemory>
        ensures ok { OnOk result (self.new.is ≡ self.old.is ++ fact ∷ []) }
        ensures was { self.new.was ≡ self.old.was }
        ensures err { OnErr result (self.new ≡ self.old) }
    {
        let number = self.next;
        if number == u64::MAX {
            return Err(NoMemory);
        }
        self.come.reserve(1)?;
        match self.entries.push(Entry { number, fact }) {
            Ok(()) => {
                self.come.push_reserved(number);
                self.next += 1;
                Ok(())
            }
            Err((refusal, _entry)) => Err(refusal),
        }
    }

    /// Forgets the first fact that is looked for. A refusal changes nothing.
    pub(crate) fn forget(&mut self, sought: Sought<'_>) -> Result<(), NoMemory>
        ensures ok { OnOk result
            (self.new.is ≡ without_match (is_sought sought.entry) self.old.is) }
        ensures was { self.new.was ≡ self.old.was }
        ensures err { OnErr result (self.new ≡ self.old) }
    {
        match find(&self.entries, self.next, &self.gone, sought) {
            Some(entry) => {
                self.gone.push(entry.number)?;
                Ok(())
            }
            None => Ok(()),
        }
    }

    /// A connection begins or ends: nothing is known. It takes no memory.
    pub(crate) fn begin(&mut self)
        ensures is { self.new.is ≡ [] }
        ensures was { self.new.was ≡ self.old.was }
    {
        let ended = mem::replace(&mut self.entries, KeyedList::new(self.alloc));
        self.before = Some(began_with(self.before.take(), ended));
        self.gone.clear();
    }

    /// What is now stays. It takes no memory.
    pub(crate) fn keep(&mut self)
        ensures { self.new ≡ still self.old.is }
    {
        if self.before.is_none() && self.come.is_empty() && self.gone.is_empty() {
            return;
        }
        self.before = None;
        drop_numbers(&mut self.entries, &self.gone);
        self.gone.clear();
        self.come.clear();
    }

    /// What was is again. It takes no memory.
    pub(crate) fn undo(&mut self)
        ensures { self.new ≡ still self.old.was }
    {
        let entries = mem::replace(&mut self.entries, KeyedList::new(self.alloc));
        self.entries = began_with(self.before.take(), entries);
        drop_numbers(&mut self.entries, &self.come);
        self.gone.clear();
        self.come.clear();
    }
}
