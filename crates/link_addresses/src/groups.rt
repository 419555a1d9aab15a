//! Groups of neighbouring addresses, which tell where none is free.
ghost use Rattle.std.specs.Prelude.{◌≡◌, ◌<◌, ◌≤◌, ◌*◌, ◌/◌, List, suc, false, length, OnOk};
ghost use Rattle.std.specs.Prelude.{IfSome, IfNone, slice_set};
ghost use Rattle.link_addresses.specs.declared.meaning.Meaning.{Meaning as AnyMeaning};
ghost use Rattle.link_addresses.specs.declared.meaning.Meaning.TheVariants.{Free};
ghost use Rattle.link_addresses.specs.Meanings.{meaning_of};
ghost use Rattle.link_addresses.specs.Finding.{group_size, group_limit, AreGroups, IsFirstFree};
ghost use Rattle.link_addresses.specs.Finding.{NoneFree};

use crate::meaning::Meaning;
use linx_base::NoMemory;

/// The number of places in a group.
const GROUP: usize = 128;

/// The first free place from one on, before another.
fn free_from(meanings: &[Meaning], from: usize, to: usize) -> Option<usize>
    requires within { to ≤ length meanings.now }
    ensures found { IfSome result (λ place. (from ≤ place) × (place < to)) }
    ensures free { IfSome result (λ place. meaning_of meanings.now (suc place) ≡ Free) }
    ensures first { IfSome result (λ place. NoneFree meanings.now from place) }
    ensures none { IfNone result (NoneFree meanings.now from to) }
{
    for place in from..to {
        if let Meaning::Free = meanings[place] {
            return Some(place);
        }
    }
    None
}

/// The first free place, which may be the one past the end. Groups in which none is free are noted.
pub(crate) fn first_free(meanings: &[Meaning], full: &mut Vec<bool>) -> usize
    requires { AreGroups full.old.items meanings.now }
    ensures groups { AreGroups full.new.items meanings.now }
    ensures first { IsFirstFree meanings.now result }
{
    for group in 0..full.len() {
        if full[group] {
            continue;
        }
        let from = group * GROUP;
        match free_from(meanings, from, meanings.len().min(from + GROUP)) {
            Some(place) => return place,
            None => full[group] = true,
        }
    }
    meanings.len()
}

/// Adds a group where this place has none. A refusal changes nothing.
pub(crate) fn cover(full: &mut Vec<bool>, place: usize) -> Result<(), NoMemory>
    requires few { length full.old.items ≤ group_limit }
    requires next { place ≤ group_size * length full.old.items }
    requires small { place < 4294967295 }
    ensures ok { OnOk result (place < group_size * length full.new.items) }
    ensures groups { (meanings : List AnyMeaning) → AreGroups full.old.items meanings
        → AreGroups full.new.items meanings }
{
    if place == full.len() * GROUP {
        full.push(false)?;
    }
    Ok(())
}

/// Notes that a place may be free.
pub(crate) fn release(full: &mut Vec<bool>, place: usize)
    requires { place < group_size * length full.old.items }
    ensures { full.new.items ≡ slice_set full.old.items (place / group_size) false }
{
    full[place / GROUP] = false;
}
