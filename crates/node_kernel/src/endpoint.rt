ghost use Rattle.std.specs.Prelude.{◌≡◌, ◌∷◌, ◌++◌, [], filter, is_some, nat_lt, not, OnOk, IfErr};
ghost use Rattle.std.specs.List.{list_any};
ghost use Rattle.sigsel.specs.Selection.{first_selected, is_notice_of, without_first};
ghost use Rattle.node_kernel.specs.Nodes.{is_at};
ghost use Rattle.node_kernel.specs.Kept.{without_last};

use endpoint_queue::Queue;
use linx_base::{AttRef, Inc, Item, Name};
use sigsel::Sigsel;
use std::alloc::Global;
use std::marker::Model;

/// An open endpoint: its incarnation, its name, and the items of its queue.
#[derive(Drop)]
pub(crate) struct Endpoint {
    inc: Inc,
    name: Name,
    queue: Queue,
}

impl Model for Endpoint {
    ghost use Rattle.node_kernel.specs.Nodes.{OpenEndpoint};

    ghost Value = { OpenEndpoint };

    ghost view = { λ e. record { inc = e.inc; name = e.name; items = e.queue } };
}

/// Frees the notices of an attach that are left.
fn drop_rest(queue: &mut Queue, attach: AttRef)
    ensures { queue.new ≡ filter (λ item. not (is_notice_of attach item)) queue.old }
{
    while let Some(_notice) = queue.remove_ref(attach) {}
}

impl Endpoint {
    /// An endpoint that was just opened: its queue is empty.
    pub(crate) fn new(alloc: Global, inc: Inc, name: Name) -> Endpoint
        ensures { result ≡ record { inc = inc; name = name; items = [] } }
    {
        Endpoint {
            inc,
            name,
            queue: Queue::new(alloc),
        }
    }

    /// Whether it is of this incarnation.
    pub(crate) fn is_at(&self, inc: Inc) -> bool
        ensures { result ≡ is_at inc self.now }
    {
        inc.0 == self.inc.0
    }

    /// Whether it is of an earlier incarnation.
    pub(crate) fn is_earlier(&self, inc: Inc) -> bool
        ensures { result ≡ nat_lt self.now.inc.0 inc.0 }
    {
        self.inc.0 < inc.0
    }

    /// Puts an item last. A refusal gives it back and changes nothing.
    pub(crate) fn put(&mut self, item: Item) -> Result<(), Item>
        ensures ok { OnOk result (self.new ≡ record self.old
            { items = self.old.items ++ item ∷ [] }) }
        ensures err { IfErr result (λ back. (back ≡ item) × (self.new ≡ self.old)) }
    {
        match self.queue.push(item) {
            Ok(()) => Ok(()),
            Err((_, item)) => Err(item),
        }
    }

    /// Takes out the first item that the filter selects.
    pub(crate) fn take(&mut self, filter: &Sigsel) -> Option<Item>
        ensures item { result ≡ first_selected filter.now self.old.items }
        ensures others { self.new ≡ record self.old
            { items = without_first filter.now self.old.items } }
    {
        self.queue.take(filter)
    }

    /// Whether the filter selects an item.
    pub(crate) fn holds(&self, filter: &Sigsel) -> bool
        ensures { result ≡ is_some (first_selected filter.now self.now.items) }
    {
        self.queue.holds(filter)
    }

    /// Its incarnation.
    pub(crate) fn inc(&self) -> Inc
        ensures { result ≡ self.now.inc }
    {
        self.inc
    }

    /// Its name; its queue is freed.
    pub(crate) fn into_name(self) -> Name
        ensures { result ≡ self.name }
    {
        self.name
    }

    /// The name that it was opened with.
    pub(crate) fn name(&self) -> &Name
        ensures { result.now ≡ self.now.name }
    {
        &self.name
    }

    /// Takes the last item back out.
    pub(crate) fn take_last(&mut self)
        ensures { self.new ≡ record self.old { items = without_last self.old.items } }
    {
        let _last = self.queue.take_last();
    }

    /// Frees the notices of an attach, and says whether there was one.
    pub(crate) fn drop_notices(&mut self, attach: AttRef) -> bool
        ensures any { result ≡ list_any (is_notice_of attach) self.old.items }
        ensures others { self.new ≡ record self.old
            { items = filter (λ item. not (is_notice_of attach item)) self.old.items } }
    {
        match self.queue.remove_ref(attach) {
            None => false,
            Some(_notice) => {
                drop_rest(&mut self.queue, attach);
                true
            }
        }
    }
}
