//! The addresses of the live incarnations. An incarnation that is live no more keeps its entry
//! while the event can still be undone.
ghost use Rattle.std.specs.Prelude.{◌≡◌, ℕ, nat_eq, Some, None, OnOk, OnErr, IfSome, IsSome};
ghost use Rattle.std.specs.HashMap.{get};
ghost use Rattle.link_addresses.specs.declared.meaning.Meaning.TheVariants.{Live};
ghost use Rattle.link_addresses.specs.Meanings.{address_of, meaning_of};
ghost use Rattle.link_addresses.specs.Finding.{AnswersAt, IsIndexOf};

use crate::change::Change;
use crate::meaning::Meaning;
use linx_base::{Inc, NoMemory};
use std::collections::HashMap;

/// What an address means.
pub(crate) fn meaning_at(meanings: &[Meaning], addr: u32) -> Meaning
    ensures { result ≡ meaning_of meanings.now addr }
{
    if addr == 0 {
        return Meaning::Free;
    }
    match meanings.get(addr as usize - 1) {
        Some(meaning) => *meaning,
        None => Meaning::Free,
    }
}

/// The address at which an incarnation is live.
pub(crate) fn address_in(meanings: &[Meaning], index: &HashMap<u64, u32>, inc: Inc) -> Option<u32>
    requires { IsIndexOf (get nat_eq index.now) meanings.now }
    ensures value { result ≡ address_of meanings.now inc }
    ensures found { IfSome result (λ addr. meaning_of meanings.now addr ≡ Live inc) }
{
    let addr = *index.get(&inc.0)?;
    match meaning_at(meanings, addr) {
        Meaning::Live(other) if other.0 == inc.0 => Some(addr),
        _ => None,
    }
}

/// Gives an incarnation an address. A refusal, which needs an incarnation without an entry, changes
/// nothing.
pub(crate) fn enter(index: &mut HashMap<u64, u32>, inc: Inc, addr: u32) -> Result<(), NoMemory>
    ensures ok { let before = get nat_eq index.old in
        OnOk result (AnswersAt before (get nat_eq index.new) inc.0 (Some addr)) }
    ensures err { OnErr result ((number : ℕ) →
        get nat_eq index.new number ≡ get nat_eq index.old number) }
    ensures absent { OnErr result (get nat_eq index.old inc.0 ≡ None) }
{
    index.insert(inc.0, addr)?;
    Ok(())
}

/// Gives an incarnation that has an entry an address. It takes no memory.
pub(crate) fn enter_again(index: &mut HashMap<u64, u32>, inc: Inc, addr: u32)
    requires { IsSome (get nat_eq index.old inc.0) }
    ensures { AnswersAt (get nat_eq index.old) (get nat_eq index.new) inc.0 (Some addr) }
{
    match enter(index, inc, addr) {
        Ok(()) => (),
        Err(_) => (),
    }
}

fn leave(index: &mut HashMap<u64, u32>, inc: Inc)
    ensures { AnswersAt (get nat_eq index.old) (get nat_eq index.new) inc.0 None }
{
    let _ = index.remove(&inc.0);
}

/// Forgets an incarnation that isn't live.
fn forget_one(meanings: &[Meaning], index: &mut HashMap<u64, u32>, inc: Inc)
    requires { IsIndexOf (get nat_eq index.old) meanings.now }
    ensures { IsIndexOf (get nat_eq index.new) meanings.now }
{
    match address_in(meanings, index, inc) {
        Some(_) => (),
        None => leave(index, inc),
    }
}

/// Forgets the incarnations of these changes that aren't live.
pub(crate) fn forget(meanings: &[Meaning], index: &mut HashMap<u64, u32>, changes: &[Change])
    requires { IsIndexOf (get nat_eq index.old) meanings.now }
    ensures { IsIndexOf (get nat_eq index.new) meanings.now }
{
    for change in changes {
        forget_one(meanings, index, change.inc);
    }
}
