//! How the meanings go back to what they were when an event began.
ghost use Rattle.std.specs.Prelude.{◌≡◌, ℕ, nat_eq, IsSome};
ghost use Rattle.std.specs.HashMap.{get};
ghost use Rattle.link_addresses.specs.Finding.{AreGroups, IsIndexOf};
ghost use Rattle.link_addresses.specs.WayBack.{with_former, undone, CanReturn, CanUndo};

use crate::change::Change;
use crate::meaning::Meaning;
use crate::{groups, index};
use std::collections::HashMap;

/// Gives the place of a change what it had before.
fn undo_one(
    meanings: &mut Vec<Meaning>,
    index: &mut HashMap<u64, u32>,
    full: &mut Vec<bool>,
    change: Change,
)
    requires can { CanReturn (get nat_eq index.old) meanings.old.items change.place change.former }
    requires indexed { IsIndexOf (get nat_eq index.old) meanings.old.items }
    requires groups { AreGroups full.old.items meanings.old.items }
    ensures former { let before = with_former meanings.old.items change.place change.former in
        meanings.new.items ≡ before }
    ensures indexed { IsIndexOf (get nat_eq index.new) meanings.new.items }
    ensures groups { AreGroups full.new.items meanings.new.items }
    ensures grown { (number : ℕ) → IsSome (get nat_eq index.old number)
        → IsSome (get nat_eq index.new number) }
{
    match change.former {
        None => meanings.truncate(change.place),
        Some(Meaning::Free) => {
            meanings[change.place] = Meaning::Free;
            groups::release(full, change.place);
        }
        Some(Meaning::Live(inc)) => {
            meanings[change.place] = Meaning::Live(inc);
            index::enter_again(index, inc, change.place as u32 + 1);
        }
        Some(Meaning::Closing(inc)) => meanings[change.place] = Meaning::Closing(inc),
    }
}

/// Undoes these changes, the last one first.
pub(crate) fn undo(
    meanings: &mut Vec<Meaning>,
    index: &mut HashMap<u64, u32>,
    full: &mut Vec<bool>,
    changes: &[Change],
)
    requires can { CanUndo (get nat_eq index.old) changes.now meanings.old.items }
    requires indexed { IsIndexOf (get nat_eq index.old) meanings.old.items }
    requires groups { AreGroups full.old.items meanings.old.items }
    ensures undone { meanings.new.items ≡ undone changes.now meanings.old.items }
    ensures indexed { IsIndexOf (get nat_eq index.new) meanings.new.items }
    ensures groups { AreGroups full.new.items meanings.new.items }
{
    let mut left = changes.len();
    'undo: while 0 < left {
        left -= 1;
        undo_one(meanings, index, full, changes[left]);
    }
}
