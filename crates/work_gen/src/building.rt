//! The load's nodes, links and actors, one after the other.

ghost use Rattle.std.specs.Prelude.{◌≡◌, ◌+◌, ◌<◌, ◌≤◌, [], ◌∷◌, OnOk, IfOk, IsTrue};
ghost use Rattle.script_lang.specs.Fits.{is_node, has_end};
ghost use Rattle.work_gen.specs.Generated.{server, client, clients, built, generated};
ghost use Rattle.work_gen.specs.Losses.{EachLosesApart};
ghost use Rattle.work_gen.specs.Building.{HasRoom, with_actors};

use crate::acting::{CLIENTS, client_commands, server_commands};
use crate::naming::numbered_name;
use crate::planning::add_plan;
use linx_base::{LinkDecl, LinkNo, NoMemory, NodeNo, Side};
use script_lang::Script;
use std::alloc::Global;

/// The nodes.
const NODES: u32 = 4;

/// The links between them.
const LINKS: u32 = 3;

/// The window of each link, in frames.
const WINDOW: u32 = 32;

/// The piece of each link, in bytes.
const PIECE: u32 = 1400;

fn add_nodes(alloc: Global, script: &mut Script, n: u32) -> Result<(), NoMemory>
    requires { script.old ≡ built n 0 0 0 }
    ensures { OnOk result (script.new ≡ built n 4 0 0) }
{
    for done in 0..NODES {
        script.add_node(numbered_name(alloc, b'n', done + 1)?)?;
    }
    Ok(())
}

/// Adds the link after the first ones, so many, with its plans.
fn add_link(alloc: Global, script: &mut Script, n: u32, done: u32) -> Result<(), NoMemory>
    requires few { done < 3 }
    requires before { script.old ≡ built n 4 done 0 }
    ensures { OnOk result (script.new ≡ built n 4 (done + 1) 0) }
{
    let k = done + 1;
    let decl = LinkDecl {
        first: NodeNo(k),
        second: NodeNo(k + 1),
        window: WINDOW,
        piece: PIECE,
    };
    script.add_link(numbered_name(alloc, b'l', k)?, decl)?;
    add_plan(script, n, k, Side::First)?;
    add_plan(script, n, k, Side::Second)?;
    Ok(())
}

fn add_links(alloc: Global, script: &mut Script, n: u32) -> Result<(), NoMemory>
    requires { script.old ≡ built n 4 0 0 }
    ensures { OnOk result (script.new ≡ built n 4 3 0) }
{
    for done in 0..LINKS {
        add_link(alloc, script, n, done)?;
    }
    Ok(())
}

/// Adds the server of link k.
fn add_server(alloc: Global, script: &mut Script, k: u32) -> Result<(), NoMemory>
    requires link { k ≤ 3 }
    requires node { IsTrue (is_node script.old (record { 0 = k + 1 })) }
    requires room { HasRoom script.old 1 }
    ensures { OnOk result (script.new ≡ with_actors script.old (server k ∷ [])) }
{
    script.add_actor(NodeNo(k + 1), server_commands(alloc, k)?)?;
    Ok(())
}

/// Adds client i, counted over all links, which stands over link k, to the load of number n.
fn add_client(alloc: Global, script: &mut Script, n: u32, k: u32, i: u32) -> Result<(), NoMemory>
    requires node { IsTrue (is_node script.old (record { 0 = k })) }
    requires link { IsTrue (has_end script.old (record { 0 = k }) (record { 0 = k })) }
    requires room { HasRoom script.old 1 }
    ensures { OnOk result (script.new ≡ with_actors script.old (client n k i ∷ [])) }
{
    script.add_actor(NodeNo(k), client_commands(alloc, n, k, i)?)?;
    Ok(())
}

/// Adds the clients of link k to the load of number n.
fn add_clients(alloc: Global, script: &mut Script, n: u32, k: u32) -> Result<(), NoMemory>
    requires some { 1 ≤ k }
    requires few { k ≤ 3 }
    requires node { IsTrue (is_node script.old (record { 0 = k })) }
    requires link { IsTrue (has_end script.old (record { 0 = k }) (record { 0 = k })) }
    requires room { HasRoom script.old 8 }
    ensures { OnOk result (script.new ≡ with_actors script.old (clients n k)) }
{
    for done in 0..CLIENTS {
        add_client(alloc, script, n, k, CLIENTS * (k - 1) + 1 + done)?;
    }
    Ok(())
}

/// Adds the server and the clients of each link.
fn add_actors(alloc: Global, script: &mut Script, n: u32) -> Result<(), NoMemory>
    requires { script.old ≡ built n 4 3 0 }
    ensures { OnOk result (script.new ≡ generated n) }
{
    for done in 0..LINKS {
        add_server(alloc, script, done + 1)?;
        add_clients(alloc, script, n, done + 1)?;
    }
    Ok(())
}

/// The generated script of the number n. In no direction two verdicts in a row lose.
pub fn script(alloc: Global, n: u32) -> Result<Script, NoMemory>
    ensures is { IfOk result (λ s. s ≡ generated n) }
    ensures loses_apart { IfOk result (λ s. EachLosesApart s) }
{
    let mut script = Script::new(alloc);
    add_nodes(alloc, &mut script, n)?;
    add_links(alloc, &mut script, n)?;
    add_actors(alloc, &mut script, n)?;
    Ok(script)
}
