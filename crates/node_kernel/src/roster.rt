ghost use Rattle.std.specs.Prelude.{ℕ, ◌≡◌, ◌==◌, ◌+◌, ◌<◌, ◌∷◌, ◌++◌, [], filter, is_some, length};
ghost use Rattle.std.specs.Prelude.{map, not, IfErr, IfOk, OnErr, OnOk};
ghost use Rattle.std.specs.List.{list_any};
ghost use Rattle.std.specs.Option.{option_copied};
ghost use Rattle.sigsel.specs.Selection.{first_selected, is_notice_of, without_first};
ghost use Rattle.journal.specs.History.{next_inc};
ghost use Rattle.node_kernel.specs.Nodes.{endpoint_limit, first_named, is_open, items_at, name_at};
ghost use Rattle.node_kernel.specs.Nodes.{put_all, with_items, without_endpoint};
ghost use Rattle.node_kernel.specs.Kept.{AreRising, NodeEndpoints, put_item};

use crate::delivery::{bring_all, take_back_all};
use crate::endpoint::Endpoint;
use crate::lookup;
use journal::Effect;
use linx_base::{AttRef, Inc, Item, Name, NoMemory, NodeNo, TryCopy};
use name_table::NameTable;
use sigsel::Sigsel;
use std::alloc::Global;
use std::marker::Model;

/// The most endpoints that are open at once on a node.
const ENDPOINTS_MOST: usize = 4_096;

/// The endpoints of a node: how many were opened so far, and those that are open, in order of
/// opening, which are found by incarnation and by name.
#[derive(Drop)]
pub(crate) struct Roster {
    node: NodeNo,
    openings: u32,
    endpoints: Vec<Endpoint>,
    names: NameTable,
}

impl Model for Roster {
    ghost use Rattle.node_kernel.specs.Kept.{AreKept, NodeEndpoints};

    ghost Value = { NodeEndpoints };

    ghost view = { λ r. record {
      node = r.node;
      openings = r.openings;
      endpoints = r.endpoints.items;
    } };

    ghost invariant = { λ r. AreKept r.node r.openings r.endpoints.items r.names };
}

/// Puts what a step's effects deliver into the queues of these endpoints. A refusal changes nothing.
fn bring_to(endpoints: &mut Vec<Endpoint>, effects: &[Effect], step: u64) -> Result<(), NoMemory>
    requires { AreRising endpoints.old.items }
    ensures ok { OnOk result (endpoints.new.items
        ≡ put_all step effects.now endpoints.old.items) }
    ensures err { OnErr result (endpoints.new.items ≡ endpoints.old.items) }
{
    bring_all(endpoints, effects, step)
}

/// Adds an endpoint at the end, and puts what a step's effects deliver. A refusal gives its name
/// back and changes nothing.
fn open_with(
    endpoints: &mut Vec<Endpoint>,
    endpoint: Endpoint,
    effects: &[Effect],
    step: u64,
) -> Result<(), Name>
    requires { AreRising (endpoints.old.items ++ endpoint ∷ []) }
    ensures ok { OnOk result (endpoints.new.items
        ≡ put_all step effects.now (endpoints.old.items ++ endpoint ∷ [])) }
    ensures err { IfErr result (λ name. (name ≡ endpoint.name)
        × (endpoints.new.items ≡ endpoints.old.items)) }
{
    if endpoints.reserve(1).is_err() {
        return Err(endpoint.into_name());
    }
    endpoints.push_reserved(endpoint);
    if bring_to(endpoints, effects, step).is_ok() {
        return Ok(());
    }
    Err(endpoints.pop().unwrap().into_name())
}

impl Roster {
    /// The roster of a node that opened no endpoint yet. It takes no memory.
    pub(crate) fn new(alloc: Global, node: NodeNo) -> Roster
        ensures { result ≡ record { node = node; openings = 0; endpoints = [] } }
    {
        Roster {
            node,
            openings: 0,
            endpoints: Vec::new(alloc),
            names: NameTable::new(alloc),
        }
    }

    pub(crate) fn allocator(&self) -> Global {
        *self.endpoints.allocator()
    }

    /// The node.
    pub(crate) fn node(&self) -> NodeNo
        ensures { result ≡ self.now.node }
    {
        self.node
    }

    /// How many endpoints were opened so far, closed or not.
    pub(crate) fn openings(&self) -> u32
        ensures { result ≡ self.now.openings }
    {
        self.openings
    }

    /// Whether as many endpoints are open as may be: 4,096.
    pub(crate) fn is_full(&self) -> bool
        ensures { result ≡ (length self.now.endpoints == endpoint_limit) }
    {
        self.endpoints.len() == ENDPOINTS_MOST
    }

    /// The incarnation of the next opening.
    pub(crate) fn next(&self) -> Inc
        requires { self.now.openings < 4294967295 }
        ensures { result ≡ next_inc self.now.node.0 self.now.openings }
    {
        Inc::of(self.node, self.openings + 1)
    }

    /// The open endpoints, in order of opening.
    pub(crate) fn endpoints(&self) -> &[Endpoint]
        ensures { result.now ≡ self.now.endpoints }
    {
        &self.endpoints
    }

    /// Whether this incarnation is open.
    pub(crate) fn has(&self, inc: Inc) -> bool
        ensures { result ≡ is_open self.now.endpoints inc }
    {
        lookup::has_endpoint(&self.endpoints, inc)
    }

    /// The name of an open endpoint, `None` exactly where it isn't open.
    pub(crate) fn name_of(&self, inc: Inc) -> Option<&Name>
        ensures { option_copied result ≡ name_at self.now.endpoints inc }
    {
        lookup::name_of(&self.endpoints, inc)
    }

    /// The first opened endpoint of a name that is open. `None` exactly where no open endpoint has
    /// it.
    pub(crate) fn first(&self, name: &Name) -> Option<Inc>
        ensures { result ≡ first_named self.now.endpoints name.now }
    {
        self.names.first(name)
    }

    /// Opens an endpoint with the next incarnation, and puts what the step's effects deliver. A
    /// refusal gives the name back and changes nothing.
    pub(crate) fn open(&mut self, name: Name, effects: &[Effect], step: u64) -> Result<(), Name>
        requires { self.old.openings < 4294967295 }
        ensures ok { OnOk result (self.new ≡ record self.old {
          openings = self.old.openings + 1;
          endpoints = put_all step effects.now (self.old.endpoints ++ record {
            inc = next_inc self.old.node.0 self.old.openings;
            name = name;
            items = [];
          } ∷ []);
        }) }
        ensures err { IfErr result (λ back. (back ≡ name) × (self.new ≡ self.old)) }
    {
        let inc = Inc::of(self.node, self.openings + 1);
        let Ok(copy) = name.copy() else {
            return Err(name);
        };
        if self.names.add(copy, inc).is_err() {
            return Err(name);
        }
        let endpoint = Endpoint::new(*self.endpoints.allocator(), inc, name);
        match open_with(&mut self.endpoints, endpoint, effects, step) {
            Ok(()) => {
                self.openings += 1;
                Ok(())
            }
            Err(name) => {
                self.names.remove(inc);
                Err(name)
            }
        }
    }

    /// Frees an endpoint with its queue, and puts what the step's effects deliver to the others. A
    /// refusal changes nothing.
    pub(crate) fn close(&mut self, inc: Inc, effects: &[Effect], step: u64) -> Result<(), NoMemory>
        ensures ok { OnOk result (self.new ≡ record self.old
            { endpoints = put_all step effects.now (without_endpoint self.old.endpoints inc) }) }
        ensures err { OnErr result (self.new ≡ self.old) }
    {
        bring_all(&mut self.endpoints, effects, step)?;
        self.remove(inc);
        Ok(())
    }

    /// Frees an endpoint with its queue. It takes no memory.
    pub(crate) fn remove(&mut self, inc: Inc)
        ensures { self.new ≡ record self.old {
          endpoints =
              without_endpoint self.old.endpoints inc;
        } }
    {
        lookup::remove(&mut self.endpoints, inc);
        let _was_named = self.names.remove(inc);
    }

    /// Frees all endpoints. It takes no memory.
    pub(crate) fn clear(&mut self)
        ensures { self.new ≡ record self.old { endpoints = [] } }
    {
        self.names = NameTable::new(*self.endpoints.allocator());
        self.endpoints.clear();
    }

    /// Puts what a step's effects deliver. A refusal changes nothing.
    pub(crate) fn bring_all(&mut self, effects: &[Effect], step: u64) -> Result<(), NoMemory>
        ensures ok { OnOk result (self.new ≡ record self.old
            { endpoints = put_all step effects.now self.old.endpoints }) }
        ensures err { OnErr result (self.new ≡ self.old) }
    {
        bring_all(&mut self.endpoints, effects, step)
    }

    /// Takes back what a step's effects delivered.
    pub(crate) fn take_back_all(&mut self, effects: &[Effect])
        ensures { (step : ℕ) (before : NodeEndpoints)
            → self.old ≡ record before { endpoints = put_all step effects.now before.endpoints }
            → self.new ≡ before }
    {
        take_back_all(&mut self.endpoints, effects);
    }

    /// Puts an item into the queue of an endpoint, and tells whether that is open. A refusal gives
    /// the item back and changes nothing.
    pub(crate) fn deliver(&mut self, inc: Inc, item: Item) -> Result<bool, Item>
        ensures answer { IfOk result (λ found. found ≡ is_open self.old.endpoints inc) }
        ensures queued { OnOk result (self.new ≡ record self.old
            { endpoints = map (put_item inc item) self.old.endpoints }) }
        ensures err { IfErr result (λ back. (back ≡ item) × (self.new ≡ self.old)) }
    {
        lookup::deliver(&mut self.endpoints, inc, item)
    }

    /// Takes the first selected item out of the queue of an endpoint.
    pub(crate) fn take(&mut self, inc: Inc, filter: &Sigsel) -> Option<Item>
        ensures item { result ≡ first_selected filter.now (items_at self.old.endpoints inc) }
        ensures others { self.new ≡ record self.old {
          endpoints = with_items self.old.endpoints inc
              (without_first filter.now (items_at self.old.endpoints inc));
        } }
    {
        lookup::take(&mut self.endpoints, inc, filter)
    }

    /// Whether the filter selects an item of the queue of an endpoint.
    pub(crate) fn holds(&self, inc: Inc, filter: &Sigsel) -> bool
        ensures { result ≡ is_some (first_selected filter.now (items_at self.now.endpoints inc)) }
    {
        lookup::holds(&self.endpoints, inc, filter)
    }

    /// Frees the notices of an attach in the queue of an endpoint, and says whether there was one.
    pub(crate) fn drop_notices(&mut self, inc: Inc, attach: AttRef) -> bool
        ensures any { result ≡ list_any (is_notice_of attach) (items_at self.old.endpoints inc) }
        ensures others { self.new ≡ record self.old {
          endpoints = with_items self.old.endpoints inc
              (filter (λ item. not (is_notice_of attach item)) (items_at self.old.endpoints inc));
        } }
    {
        lookup::drop_notices(&mut self.endpoints, inc, attach)
    }
}
