//! The first of the numbers that wait, for each kind of filter.

use front_heap::{Front, Fronts};
use sigsel::{Numbers, Sigsel};
use std::alloc::Global;
use std::test::Fail;

fn listed(alloc: Global, numbers: &[u32]) -> Result<Numbers, Fail> {
    Ok(Numbers::of(Vec::from_slice(alloc, numbers)?)?)
}

fn front(number: u32, ticket: u64) -> Option<Front> {
    Some(Front { number, ticket })
}

/// Five numbers, with their tickets out of order.
fn five(alloc: Global) -> Result<Fronts, Fail> {
    let mut fronts = Fronts::new(alloc);
    fronts.set(10, 50)?;
    fronts.set(20, 20)?;
    fronts.set(30, 40)?;
    fronts.set(40, 10)?;
    fronts.set(50, 30)?;
    Ok(fronts)
}

#[test]
fn the_first_front_of_each_kind_of_filter(rt: HostRuntime) -> Result<(), Fail> {
    let fronts = five(rt.alloc())?;
    let some = listed(rt.alloc(), &[30, 50, 60])?;
    let others = listed(rt.alloc(), &[40, 20, 60])?;
    let none = listed(rt.alloc(), &[60])?;
    assert_eq!(rt; fronts.least(&Sigsel::Any), front(40, 10));
    assert_eq!(rt; fronts.least(&Sigsel::Only(some)), front(50, 30));
    assert_eq!(rt; fronts.least(&Sigsel::Not(others)), front(50, 30));
    assert_eq!(rt; fronts.least(&Sigsel::Only(none)), None);
    Ok(())
}

#[test]
fn a_front_changes_enters_and_goes(rt: HostRuntime) -> Result<(), Fail> {
    let mut fronts = five(rt.alloc())?;
    fronts.remove(40);
    assert_eq!(rt; fronts.least(&Sigsel::Any), front(20, 20));
    fronts.set(20, 60)?;
    assert_eq!(rt; fronts.least(&Sigsel::Any), front(50, 30));
    fronts.enter(50, 5)?;
    fronts.enter(60, 25)?;
    assert_eq!(rt; fronts.least(&Sigsel::Any), front(60, 25));
    Ok(())
}
