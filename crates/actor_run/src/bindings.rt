//! What was given to the names of a script.
ghost use Rattle.std.specs.Prelude.{◌≡◌, [], IfOk, OnOk};
ghost use Rattle.std.specs.Option.{option_copied};
ghost use Rattle.actor_run.specs.Knowing.{rows_for};
ghost use Rattle.actor_run.specs.Bindings.{lookup, remember, with_row_for};

use crate::names::{NameKind, name_in};
use keyed_list::NameKey;
use linx_base::{Name, NoMemory};
use script_lang::Command;
use std::alloc::Global;
use std::collections::BTreeMap;
use std::marker::Model;

/// What was given to the names of one kind that a script's commands speak of. Contracts see a row
/// for each name, in the order of the names. It is a map with an order and not one of hashes, so
/// that no choice of names makes it slow.
#[derive(Drop)]
pub(crate) struct Bindings<T> {
    rows: BTreeMap<NameKey, Option<T>>,
}

impl<T> Model for Bindings<T> {
    ghost use Rattle.std.specs.Prelude.{List, ℕ, Option};

    ghost Value = { List (List ℕ × Option T) };

    ghost view = { λ t. t.rows.entries };
}

/// Adds a row for the name that a command speaks of, if it speaks of one, unless it is there.
fn add_row<T: Drop>(
    rows: &mut BTreeMap<NameKey, Option<T>>,
    name: Option<&Name>,
) -> Result<(), NoMemory>
    ensures { OnOk result (
        rows.new.entries ≡ with_row_for rows.old.entries (option_copied name.entry)) }
{
    let Some(name) = name else {
        return Ok(());
    };
    let key = NameKey::of(name);
    if !rows.contains_key(&key) {
        rows.insert(key, None)?;
    }
    Ok(())
}

/// Gives a value to a name of a table, if it has a row.
#[tactic(auto, using(crate::proofs::Tables::absent_stays))]
fn put_row<T: Drop>(rows: &mut BTreeMap<NameKey, Option<T>>, name: &Name, value: T)
    ensures { rows.new.entries ≡ remember rows.old.entries name.now value }
{
    let Some(given) = rows.get_mut(&NameKey::of(name)) else {
        return;
    };
    *given = Some(value);
}

impl<T: Drop> Bindings<T> {
    /// A table for the names of this kind that the commands speak of, to which nothing was given.
    pub(crate) fn of(
        alloc: Global,
        kind: NameKind,
        commands: &[Command],
    ) -> Result<Bindings<T>, NoMemory>
        ensures { IfOk result (λ table. table ≡ rows_for kind [] commands.now) }
    {
        let mut rows = BTreeMap::new(alloc);
        for command in commands {
            add_row(&mut rows, name_in(kind, command))?;
        }
        Ok(Bindings { rows })
    }

    /// Gives a value to a name. It takes no memory.
    pub(crate) fn put(&mut self, name: &Name, value: T)
        ensures { self.new ≡ remember self.old name.now value }
    {
        put_row(&mut self.rows, name, value);
    }

    /// What was given to a name.
    pub(crate) fn get(&self, name: &Name) -> Option<T>
    where
        T: Copy,
        ensures { result ≡ lookup self.now name.now }
    {
        match self.rows.get(&NameKey::of(name)) {
            Some(given) => *given,
            None => None,
        }
    }
}
