ghost use Rattle.std.specs.Prelude.{◌≡◌, ◌==◌, ◌-◌, [], ◌∷◌, ◌++◌, is_some, length, slice_get};
ghost use Rattle.std.specs.Prelude.{take, true, None, IfErr, OnErr, OnOk};
ghost use Rattle.linx_base.specs.FirstMatch.{first_match};
ghost use Rattle.sigsel.specs.Selection.{first_selected, is_notice_of, without_first};
ghost use Rattle.endpoint_queue.specs.Line.{FitsLine};

use linx_base::{AttRef, Item, Kind, NoMemory};
use sigsel::Sigsel;
use std::alloc::Global;
use std::collections::VecDeque;
use std::marker::Model;

/// Items of one number, none of which is a notice. So a filter selects the first of them or none,
/// and no index is needed.
#[derive(Drop)]
pub(crate) struct Line {
    items: VecDeque<Item>,
    number: u32,
}

impl Model for Line {
    ghost use Rattle.std.specs.Prelude.{List};
    ghost use Rattle.linx_base.specs.declared.item.Item.{Item};
    ghost use Rattle.endpoint_queue.specs.Line.{IsLine};

    ghost Value = { List Item };

    ghost view = { λ l. l.items.items };

    ghost invariant = { λ l. IsLine l.number l.items.items };
}

impl Line {
    /// No items. It takes no memory.
    pub(crate) fn new(alloc: Global) -> Line
        ensures { result ≡ [] }
    {
        Line {
            items: VecDeque::new(alloc),
            number: 0,
        }
    }

    /// No item is the notice of an attach.
    pub(crate) fn has_no_notice(&self)
        ensures { (attach : AttRef) → first_match (is_notice_of attach) self.now ≡ None }
    {
        let _ = &self.items;
    }

    /// Whether an item may stand last: it has the number of the others, and is no notice.
    pub(crate) fn fits(&self, item: &Item) -> bool
        ensures { result ≡ true → FitsLine self.now item.now }
    {
        match item.kind {
            Kind::Plain | Kind::Found(_) => {
                self.is_empty() || self.number == item.signal.number()
            }
            Kind::Notice(_) => false,
        }
    }

    /// Adds an item at the end. A refusal gives it back and changes nothing.
    pub(crate) fn push(&mut self, item: Item) -> Result<(), (NoMemory, Item)>
        requires { FitsLine self.old item }
        ensures ok { OnOk result (self.new ≡ self.old ++ item ∷ []) }
        ensures err { OnErr result (self.new ≡ self.old) }
        ensures given_back { IfErr result (λ back. back.1 ≡ item) }
    {
        self.number = item.signal.number();
        match self.items.push_back(item) {
            Ok(()) => Ok(()),
            Err(refused) => Err((NoMemory, refused.value)),
        }
    }

    /// Takes out the first item, if the filter selects it. It takes no memory.
    pub(crate) fn take(&mut self, sel: &Sigsel) -> Option<Item>
        ensures item { result ≡ first_selected sel.now self.old }
        ensures others { self.new ≡ without_first sel.now self.old }
    {
        if sel.selects(self.number) {
            self.items.pop_front()
        } else {
            None
        }
    }

    fn is_empty(&self) -> bool
        ensures { result ≡ (length self.now == 0) }
    {
        self.items.is_empty()
    }

    /// Whether an item is selected.
    pub(crate) fn holds(&self, sel: &Sigsel) -> bool
        ensures { result ≡ is_some (first_selected sel.now self.now) }
    {
        sel.selects(self.number) && !self.is_empty()
    }

    /// Takes out the last item. `None` exactly where there is none. It takes no memory.
    pub(crate) fn take_last(&mut self) -> Option<Item>
        ensures item { result ≡ slice_get self.old (length self.old - 1) }
        ensures others { self.new ≡ take (length self.old - 1) self.old }
    {
        self.items.pop_back()
    }
}
