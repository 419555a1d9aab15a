//! A thousand calls of a queue, each compared with what a scan of a plain list gives.

use case_words::Random;
use endpoint_queue::Queue;
use linx_base::{AttRef, Inc, Item, ItemAt, Kind, Peer, Signal};
use sigsel::{Numbers, Sigsel};
use std::alloc::Global;
use std::mem;
use std::test::Fail;

/// An item of the plain list: its number, its step, and whether it is the notice of the attach that
/// is named by its step.
#[derive(Clone, Copy)]
struct Listed {
    number: u32,
    step: u64,
    is_notice: bool,
}

/// The queue that is tried, and the plain list of what waits in it.
#[derive(Drop)]
struct Pair {
    queue: Queue,
    list: Vec<Listed>,
}

/// The kind of an item, by a number of no use.
fn kind_of(random: u64, step: u64) -> Kind {
    match random / 8 % 4 {
        0 | 1 => Kind::Notice(AttRef(step)),
        2 => Kind::Found(step),
        _ => Kind::Plain,
    }
}

/// An item from the first endpoint, that the first effect of a step brought.
fn item(alloc: Global, number: u32, kind: Kind, step: u64) -> Result<Item, Fail> {
    Ok(Item {
        signal: Signal::alloc(alloc, number, b"data")?,
        from: Peer::Here(Inc(4_294_967_297)),
        kind,
        pos: ItemAt { step, place: 1 },
    })
}

/// An item comes.
fn put(queue: &mut Queue, item: Item) -> Result<(), Fail> {
    match queue.push(item) {
        Ok(()) => Ok(()),
        Err(_) => Err(Fail::from("out of memory")),
    }
}

/// An item of one of eight numbers comes.
fn comes(alloc: Global, pair: &mut Pair, random: u64, step: u64) -> Result<(), Fail> {
    let number = (random % 8) as u32;
    let kind = kind_of(random, step);
    let is_notice = kind == Kind::Notice(AttRef(step));
    put(&mut pair.queue, item(alloc, number, kind, step)?)?;
    pair.list.push(Listed {
        number,
        step,
        is_notice,
    })?;
    Ok(())
}

/// The step that brings the k-th item of a call: each brings up to four.
fn step_for(call: u64, k: u64) -> u64 {
    call.wrapping_mul(4).wrapping_add(k)
}

/// One to four items come.
fn some_come(alloc: Global, pair: &mut Pair, random: u64, call: u64) -> Result<(), Fail> {
    for k in 0..random / 512 % 4 + 1 {
        comes(alloc, pair, random / (k + 1), step_for(call, k))?;
    }
    Ok(())
}

/// Whether a filter selects a number, by a scan.
fn selects(filter: &Sigsel, number: u32) -> bool {
    match filter {
        Sigsel::Any => true,
        Sigsel::Only(numbers) => numbers.as_slice().iter().any(|n| *n == number),
        Sigsel::Not(numbers) => numbers.as_slice().iter().all(|n| *n != number),
    }
}

/// The place of the first that a filter selects, by a scan.
fn selected(list: &[Listed], filter: &Sigsel) -> Option<usize> {
    list.iter()
        .position(|listed| selects(filter, listed.number))
}

/// The place of the notice of an attach, by a scan.
fn noted(list: &[Listed], attach: u64) -> Option<usize> {
    list.iter()
        .position(|listed| listed.is_notice && listed.step == attach)
}

/// The step of the entry at a place, which is taken out.
fn taken_from(list: &mut Vec<Listed>, at: Option<usize>) -> Option<u64> {
    let at = at?;
    if at < list.len() {
        Some(list.remove(at).step)
    } else {
        None
    }
}

fn step_of(item: Option<Item>) -> Option<u64> {
    match item {
        Some(item) => Some(item.pos.step),
        None => None,
    }
}

/// Each kind of filter, over two numbers of eight.
fn filter_of(alloc: Global, random: u64) -> Result<Sigsel, Fail> {
    let one = (random / 4 % 8) as u32;
    let other = (random / 32 % 8) as u32;
    let listed = Numbers::of([one, other].to_vec(alloc)?)?;
    Ok(match random % 4 {
        0 => Sigsel::Any,
        1 => Sigsel::Not(listed),
        _ => Sigsel::Only(listed),
    })
}

/// Both give the same step.
fn same(item: Option<Item>, wanted: Option<u64>) -> Result<(), Fail> {
    if step_of(item) == wanted {
        Ok(())
    } else {
        Err(Fail::from("another item"))
    }
}

fn last_goes(pair: &mut Pair) -> Result<(), Fail> {
    let wanted = pair.list.pop().map(|listed| listed.step);
    same(pair.queue.take_last(), wanted)
}

/// The notice of an attach is taken out, if it is there.
fn notice_goes(pair: &mut Pair, attach: u64) -> Result<(), Fail> {
    let at = noted(pair.list.as_slice(), attach);
    let wanted = taken_from(&mut pair.list, at);
    same(pair.queue.remove_ref(AttRef(attach)), wanted)
}

/// The first that a filter selects is taken.
fn selected_goes(pair: &mut Pair, filter: &Sigsel) -> Result<(), Fail> {
    let at = selected(pair.list.as_slice(), filter);
    if pair.queue.holds(filter) != at.is_some() {
        return Err(Fail::from("holds another"));
    }
    let wanted = taken_from(&mut pair.list, at);
    same(pair.queue.take(filter), wanted)
}

/// One call, by a number of no use.
fn make(alloc: Global, pair: &mut Pair, random: u64, call: u64) -> Result<(), Fail> {
    let chosen = random / 1_024;
    match random % 8 {
        0 | 1 => some_come(alloc, pair, chosen, call),
        2 => last_goes(pair),
        3 => notice_goes(pair, chosen % step_for(call, 1).max(1)),
        _ => selected_goes(pair, &filter_of(alloc, chosen)?),
    }
}

fn thousand_calls(alloc: Global, pair: &mut Pair) -> Result<(), Fail> {
    let mut random = Random::new(88_172_645_463_325_252);
    for call in 0..1_000 {
        make(alloc, pair, random.next(), call)?;
    }
    Ok(())
}

#[test]
fn a_thousand_calls_answer_as_a_scanned_list_does(rt: HostRuntime) -> Result<(), Fail> {
    let mut pair = Pair {
        queue: Queue::new(rt.alloc()),
        list: Vec::new(rt.alloc()),
    };
    let outcome = thousand_calls(rt.alloc(), &mut pair);
    mem::forget(pair);
    outcome
}
