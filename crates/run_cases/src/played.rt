//! Turns on the stage of a script.
ghost use Rattle.std.specs.Prelude.{◌≤◌, length};

use linx_base::LinkNo;
use script_lang::parse;
use stage::{Pump, Stage, Turn};
use std::alloc::Global;
use std::test::Fail;

/// A stage, with how many actors and links its script has.
#[derive(Drop)]
pub struct Played {
    pub stage: Stage,
    actors: usize,
    links: usize,
    ghost has_actors: { actors ≤ length stage.script.actors },
    ghost has_links: { links ≤ length stage.script.links },
}

impl Played {
    /// The stage of a script, before the first turn.
    pub fn new(alloc: Global, script: &str) -> Result<Played, Fail> {
        let script = parse(alloc, script.as_bytes())?;
        let (actors, links) = (script.actors().len(), script.links().len());
        let stage = Stage::new(alloc, script)?;
        Ok(Played {
            stage,
            actors,
            links,
        })
    }

    pub fn turn(&mut self, actor: u32) -> Result<Turn, Fail> {
        if actor == 0 || actor as usize > self.actors {
            return Err(Fail::from("no such actor"));
        }
        let turn = self.stage.turn(actor).ok().ok_or("a stop")?;
        Ok(turn)
    }

    pub fn pump(&mut self, link: u32) -> Result<Pump, Fail> {
        if link == 0 || link as usize > self.links {
            return Err(Fail::from("no such link"));
        }
        let pump = self.stage.pump(LinkNo(link)).ok().ok_or("a stop")?;
        Ok(pump)
    }

    /// Whether all is over after one more round.
    pub fn round(&mut self) -> Result<bool, Fail> {
        let is_over = self.stage.round().ok().ok_or("a stop")?;
        Ok(is_over)
    }
}
