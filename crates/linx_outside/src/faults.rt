ghost use Rattle.std.specs.Prelude.{◌≡◌, ◌+◌, ◌↔◌, IsTrue};
ghost use Rattle.std.specs.List.{Contains};
ghost use Rattle.linx_outside.specs.Contents.{counted};

use std::marker::Model;

/// Which calls of an object in memory fail, by their numbers from 1, and how many there were.
#[derive(Drop)]
pub(crate) struct FaultPlan {
    calls: u64,
    fails: Vec<u64>,
}

impl Model for FaultPlan {
    ghost use Rattle.linx_outside.specs.Contents.{Plan};

    ghost Value = { Plan };

    ghost view = { λ plan. record { calls = plan.calls; fails = plan.fails.items } };
}

impl FaultPlan {
    /// No call was made yet; those whose numbers, from 1, stand here are to fail.
    pub(crate) fn new(fails: Vec<u64>) -> FaultPlan
        ensures calls { result.calls ≡ 0 }
        ensures fails { result.fails ≡ fails.items }
    {
        FaultPlan { calls: 0, fails }
    }

    // Counts a call, and answers whether it fails. The count stands still at its last value; no
    // call after that one has a number that can stand in the list, so none fails.
    pub(crate) fn next_fails(&mut self) -> bool
        ensures answer { IsTrue result ↔ Contains self.old.fails (self.old.calls + 1) }
        ensures counted { self.new ≡ counted self.old }
        ensures numbered { IsTrue result → self.new.calls ≡ self.old.calls + 1 }
    {
        let fails = self.fails.as_slice();
        match self.calls.checked_add(1) {
            Some(call) => {
                self.calls = call;
                fails.contains(&call)
            }
            None => false,
        }
    }
}
