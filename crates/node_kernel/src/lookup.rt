//! The open endpoints of a node, in order of incarnation, so that one is found without a look at
//! all.
ghost use Rattle.std.specs.Prelude.{◌≡◌, ◌≤◌, ◌∷◌, ◌++◌, [], filter, is_some, length, map, nat_lt};
ghost use Rattle.std.specs.Prelude.{not, true, false, OnOk, Some, IfOk, IfErr};
ghost use Rattle.std.specs.List.{list_any, position};
ghost use Rattle.std.specs.List.Sorted.{IsPartitionPoint};
ghost use Rattle.std.specs.Option.{option_copied};
ghost use Rattle.sigsel.specs.Selection.{first_selected, is_notice_of, without_first};
ghost use Rattle.node_kernel.specs.Nodes.{is_at, is_open, items_at, name_at, with_items};
ghost use Rattle.node_kernel.specs.Nodes.{without_endpoint};
ghost use Rattle.node_kernel.specs.Kept.{AreRising, change_items, put_item, without_last};

use crate::endpoint::Endpoint;
use linx_base::{AttRef, Inc, Item, Name};
use sigsel::Sigsel;

/// How many endpoints are of an earlier incarnation.
fn count_earlier(endpoints: &[Endpoint], inc: Inc) -> usize
    requires { AreRising endpoints.now }
    ensures bound { result ≤ length endpoints.now }
    ensures between { IsPartitionPoint (λ e. nat_lt e.inc.0 inc.0 ≡ true) (λ e. nat_lt e.inc.0 inc.0
        ≡ false) endpoints.now result }
{
    endpoints.partition_point(|endpoint| endpoint.is_earlier(inc))
}

/// The place of an incarnation among the open endpoints.
pub(crate) fn place_of(endpoints: &[Endpoint], inc: Inc) -> Option<usize>
    requires { AreRising endpoints.now }
    ensures { result ≡ position (is_at inc) endpoints.now }
{
    let at = count_earlier(endpoints, inc);
    let endpoint = endpoints.get(at)?;
    if endpoint.is_at(inc) { Some(at) } else { None }
}

/// Whether an incarnation is among the open endpoints.
pub(crate) fn has_endpoint(endpoints: &[Endpoint], inc: Inc) -> bool
    requires { AreRising endpoints.now }
    ensures { result ≡ is_open endpoints.now inc }
{
    place_of(endpoints, inc).is_some()
}

/// Puts an item into the queue at a place.
fn put_at(endpoints: &mut [Endpoint], place: usize, inc: Inc, item: Item) -> Result<(), Item>
    requires { position (is_at inc) endpoints.old ≡ Some place }
    ensures ok { OnOk result (endpoints.new ≡ with_items endpoints.old inc
        (items_at endpoints.old inc ++ item ∷ [])) }
    ensures err { IfErr result (λ back. (back ≡ item) × (endpoints.new ≡ endpoints.old)) }
{
    let endpoint = &mut endpoints[place];
    endpoint.put(item)
}

/// Puts an item into the queue of an endpoint, and tells whether that is open. A refusal gives the
/// item back and changes nothing.
pub(crate) fn deliver(endpoints: &mut [Endpoint], inc: Inc, item: Item) -> Result<bool, Item>
    requires { AreRising endpoints.old }
    ensures answer { IfOk result (λ found. found ≡ is_open endpoints.old inc) }
    ensures queued { OnOk result (endpoints.new ≡ map (put_item inc item) endpoints.old) }
    ensures err { IfErr result (λ back. (back ≡ item) × (endpoints.new ≡ endpoints.old)) }
{
    match place_of(endpoints, inc) {
        None => Ok(false),
        Some(place) => match put_at(endpoints, place, inc, item) {
            Ok(()) => Ok(true),
            Err(item) => Err(item),
        },
    }
}

/// Takes the first selected item out of the queue at a place.
fn take_at(endpoints: &mut [Endpoint], place: usize, inc: Inc, filter: &Sigsel) -> Option<Item>
    requires { position (is_at inc) endpoints.old ≡ Some place }
    ensures item { result ≡ first_selected filter.now (items_at endpoints.old inc) }
    ensures others { endpoints.new ≡ with_items endpoints.old inc
        (without_first filter.now (items_at endpoints.old inc)) }
{
    let endpoint = &mut endpoints[place];
    endpoint.take(filter)
}

/// Takes the first selected item out of the queue of an endpoint.
pub(crate) fn take(endpoints: &mut [Endpoint], inc: Inc, filter: &Sigsel) -> Option<Item>
    requires { AreRising endpoints.old }
    ensures item { result ≡ first_selected filter.now (items_at endpoints.old inc) }
    ensures others { endpoints.new ≡ with_items endpoints.old inc
        (without_first filter.now (items_at endpoints.old inc)) }
{
    match place_of(endpoints, inc) {
        None => None,
        Some(place) => take_at(endpoints, place, inc, filter),
    }
}

/// Whether the filter selects an item of the queue at a place.
fn holds_at(endpoints: &[Endpoint], place: usize, inc: Inc, filter: &Sigsel) -> bool
    requires { position (is_at inc) endpoints.now ≡ Some place }
    ensures { result ≡ is_some (first_selected filter.now (items_at endpoints.now inc)) }
{
    let endpoint = &endpoints[place];
    endpoint.holds(filter)
}

/// Whether the filter selects an item of the queue of an endpoint.
pub(crate) fn holds(endpoints: &[Endpoint], inc: Inc, filter: &Sigsel) -> bool
    requires { AreRising endpoints.now }
    ensures { result ≡ is_some (first_selected filter.now (items_at endpoints.now inc)) }
{
    match place_of(endpoints, inc) {
        None => false,
        Some(place) => holds_at(endpoints, place, inc, filter),
    }
}

/// Frees an endpoint with its queue.
pub(crate) fn remove(endpoints: &mut Vec<Endpoint>, inc: Inc)
    requires { AreRising endpoints.old.items }
    ensures { endpoints.new.items ≡ without_endpoint endpoints.old.items inc }
{
    match place_of(endpoints, inc) {
        None => (),
        Some(place) => {
            endpoints.remove(place);
        }
    }
}

/// The name of an endpoint, `None` exactly where it isn't open.
pub(crate) fn name_of(endpoints: &[Endpoint], inc: Inc) -> Option<&Name>
    requires { AreRising endpoints.now }
    ensures { option_copied result ≡ name_at endpoints.now inc }
{
    let place = place_of(endpoints, inc)?;
    Some(endpoints[place].name())
}

/// Takes the last item back out of the queue at a place.
fn take_last_at(endpoints: &mut [Endpoint], place: usize, inc: Inc)
    requires { position (is_at inc) endpoints.old ≡ Some place }
    ensures { endpoints.new ≡ with_items endpoints.old inc
        (without_last (items_at endpoints.old inc)) }
{
    let endpoint = &mut endpoints[place];
    endpoint.take_last();
}

/// Takes the last item back out of the queue of an endpoint, if it is open.
pub(crate) fn take_last(endpoints: &mut [Endpoint], inc: Inc)
    requires { AreRising endpoints.old }
    ensures { endpoints.new ≡ map (change_items inc without_last) endpoints.old }
{
    if let Some(place) = place_of(endpoints, inc) {
        take_last_at(endpoints, place, inc);
    }
}

/// Frees the notices of an attach in the queue at a place, and says whether there was one.
fn drop_notices_at(endpoints: &mut [Endpoint], place: usize, inc: Inc, attach: AttRef) -> bool
    requires { position (is_at inc) endpoints.old ≡ Some place }
    ensures any { result ≡ list_any (is_notice_of attach) (items_at endpoints.old inc) }
    ensures others { endpoints.new ≡ with_items endpoints.old inc
        (filter (λ item. not (is_notice_of attach item)) (items_at endpoints.old inc)) }
{
    let endpoint = &mut endpoints[place];
    endpoint.drop_notices(attach)
}

/// Frees the notices of an attach in the queue of an endpoint, and says whether there was one.
pub(crate) fn drop_notices(endpoints: &mut [Endpoint], inc: Inc, attach: AttRef) -> bool
    requires { AreRising endpoints.old }
    ensures any { result ≡ list_any (is_notice_of attach) (items_at endpoints.old inc) }
    ensures others { endpoints.new ≡ with_items endpoints.old inc
        (filter (λ item. not (is_notice_of attach item)) (items_at endpoints.old inc)) }
{
    match place_of(endpoints, inc) {
        None => false,
        Some(place) => drop_notices_at(endpoints, place, inc, attach),
    }
}
