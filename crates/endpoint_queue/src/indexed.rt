ghost use Rattle.std.specs.Prelude.{◌≡◌, ◌-◌, [], ◌∷◌, ◌++◌, is_some, length, slice_get, take, ℕ};
ghost use Rattle.std.specs.Prelude.{true, IfErr, OnErr, OnOk};
ghost use Rattle.linx_base.specs.FirstMatch.{first_match, without_match};
ghost use Rattle.sigsel.specs.Selection.{first_selected, is_notice_of, without_first};
ghost use Rattle.front_heap.specs.Heap.{ticket_of};
ghost use Rattle.endpoint_queue.specs.Waiting.{AgreeBut, first_ticket};

use crate::queued::{Key, Queued, notice_key, number_key};
use front_heap::Fronts;
use keyed_list::KeyedList;
use linx_base::{AttRef, Item, NoMemory};
use sigsel::Sigsel;
use std::alloc::Global;
use std::marker::Model;

/// Items that are found by their numbers, and notices by their attaches, which contracts see as
/// their list in order of arrival.
#[derive(Drop)]
pub(crate) struct Indexed {
    waiting: KeyedList<Queued, Key>,
    fronts: Fronts,
    next: u64,
}

impl Model for Indexed {
    ghost use Rattle.std.specs.Prelude.{List};
    ghost use Rattle.linx_base.specs.declared.item.Item.{Item};
    ghost use Rattle.endpoint_queue.specs.Waiting.{IsQueue, items_of};

    ghost Value = { List Item };

    ghost view = { λ q. items_of q.waiting };

    ghost invariant = { λ q. IsQueue q.waiting q.fronts q.next };
}

/// Gives a number, of which an item was taken out, the ticket of its first item, or takes it out
/// where it has none. It takes no memory.
fn renew(waiting: &KeyedList<Queued, Key>, fronts: &mut Fronts, number: u32)
    requires others { AgreeBut number waiting.now fronts.old }
    requires waits { is_some (ticket_of fronts.old number) ≡ true }
    ensures { (n : ℕ) → ticket_of fronts.new n ≡ first_ticket n waiting.now }
{
    match waiting.nth(number_key(number), 0) {
        Some(first) => {
            let _ = fronts.set(number, first.ticket);
        }
        None => fronts.remove(number),
    }
}

impl Indexed {
    /// No items. It takes no memory.
    pub(crate) fn new(alloc: Global) -> Indexed
        ensures { result ≡ [] }
    {
        Indexed {
            waiting: KeyedList::new(alloc),
            fronts: Fronts::new(alloc),
            next: 0,
        }
    }

    /// Adds an item at the end. A refusal gives it back and changes nothing. After 2^64 - 1 items,
    /// whether they still wait or not, every one is refused.
    pub(crate) fn push(&mut self, item: Item) -> Result<(), (NoMemory, Item)>
        ensures ok { OnOk result (self.new ≡ self.old ++ item ∷ []) }
        ensures err { OnErr result (self.new ≡ self.old) }
        ensures given_back { IfErr result (λ back. back.1 ≡ item) }
    {
        if self.next == u64::MAX {
            return Err((NoMemory, item));
        }
        let number = item.signal.number();
        let ticket = self.next;
        if let Err((refusal, queued)) = self.waiting.push(Queued { item, ticket }) {
            return Err((refusal, queued.item));
        }
        if let Err(refusal) = self.fronts.enter(number, ticket) {
            return Err((refusal, self.waiting.take_last().unwrap().item));
        }
        self.next += 1;
        Ok(())
    }

    /// Takes out the first selected item; the others keep their order. `None` exactly where none is
    /// selected. It takes no memory, and looks at no other item.
    pub(crate) fn take(&mut self, sel: &Sigsel) -> Option<Item>
        ensures item { result ≡ first_selected sel.now self.old }
        ensures others { self.new ≡ without_first sel.now self.old }
    {
        let front = self.fronts.least(sel)?;
        let taken = self.waiting.take_first(number_key(front.number))?;
        renew(&self.waiting, &mut self.fronts, taken.item.signal.number());
        Some(taken.item)
    }

    /// Whether an item is selected. It looks at no item.
    pub(crate) fn holds(&self, sel: &Sigsel) -> bool
        ensures { result ≡ is_some (first_selected sel.now self.now) }
    {
        self.fronts.least(sel).is_some()
    }

    /// Takes out the notice of an attach. `None` exactly where there is none. It takes no memory,
    /// and looks at no other item.
    pub(crate) fn remove_ref(&mut self, attach: AttRef) -> Option<Item>
        ensures item { result ≡ first_match (is_notice_of attach) self.old }
        ensures others { self.new ≡ without_match (is_notice_of attach) self.old }
    {
        let taken = self.waiting.take_first(notice_key(attach))?;
        renew(&self.waiting, &mut self.fronts, taken.item.signal.number());
        Some(taken.item)
    }

    /// Takes out the last item. `None` exactly where there is none. It takes no memory.
    pub(crate) fn take_last(&mut self) -> Option<Item>
        ensures item { result ≡ slice_get self.old (length self.old - 1) }
        ensures others { self.new ≡ take (length self.old - 1) self.old }
    {
        let taken = self.waiting.take_last()?;
        renew(&self.waiting, &mut self.fronts, taken.item.signal.number());
        Some(taken.item)
    }
}
