//! The rule of a seed.

ghost use Rattle.std.specs.Prelude.{◌≡◌, ◌<◌, ◌≤◌, ◌^◌};
ghost use Rattle.script_lang.specs.Fits.{command_count};
ghost use Rattle.script_lang.specs.Limits.{all_commands_limit};
ghost use Rattle.order_rules.specs.Seeds.{rule_of};
ghost use Rattle.orders.specs.Seeds.{span_of};

use order_rules::{Rule, rule_of};
use script_lang::{ActorScript, Script};

/// The commands of all actors.
#[tactic(auto, using(script_lang::proofs::Room::counted))]
fn command_count(actors: &[ActorScript]) -> usize
    requires { command_count actors.now ≤ all_commands_limit }
    ensures { result ≡ command_count actors.now }
{
    let mut all = 0;
    for actor in actors {
        all += actor.commands.len();
    }
    all
}

/// About how many steps a run of a script has.
fn span_of(script: &Script) -> u64
    ensures value { result ≡ span_of script.now }
    ensures short { result < 2 ^ 32 }
{
    let commands = command_count(script.actors());
    let (actors, links) = (script.actors().len(), script.links().len());
    (1 + commands + actors + 40 * links) as u64
}

/// The rule that a seed decides for a script: bursts, a walk or priorities.
pub fn rule_of_seed(script: &Script, seed: u64) -> Rule
    ensures { result ≡ rule_of (span_of script.now) seed }
{
    rule_of(span_of(script), seed)
}
