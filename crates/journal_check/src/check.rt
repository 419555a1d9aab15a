//! The check of a whole journal.
ghost use Rattle.std.specs.Prelude.{◌≡◌, ◌↔◌, ◌<◌, length, IfOk, None};
ghost use Rattle.link_laws.specs.Laws.{IsLegal};
ghost use Rattle.journal_check.specs.Faults.{IsAnswer};
ghost use Rattle.fabric.specs.Remains.{IsLaidOut};

use crate::checker::Checker;
use crate::law::Fault;
use journal::Journal;
use linx_base::{LinkDecl, NoMemory, NodeNo};
use std::alloc::Global;

/// Whether a journal is legal for this shape: nothing where it is, or else its first fault.
pub fn first_illegal(
    alloc: Global,
    journal: &Journal,
    nodes: u32,
    links: &[LinkDecl],
    actors: &[NodeNo],
) -> Result<Option<Fault>, NoMemory>
    requires laid_out { IsLaidOut nodes (record { links = links.now; actors = actors.now }) }
    requires short { length journal.now.log.steps < 4294967295 }
    ensures fault { IfOk result (IsAnswer (record { links = links.now; actors = actors.now })
        journal.now.log.steps) }
    ensures exact { IfOk result (λ found. (found ≡ None)
        ↔ IsLegal (record { links = links.now; actors = actors.now }) journal.now.log.steps) }
{
    let mut checker = Checker::new(alloc, nodes, links, actors)?;
    for done in 0..journal.len() {
        let step = journal.step_after(done);
        match checker.judge(step, done + 1)? {
            Some(broken) => {
                return Ok(Some(Fault {
                    step: done + 1,
                    law: broken.law,
                    earliest: broken.earliest,
                }));
            }
            None => (),
        }
    }
    Ok(None)
}
