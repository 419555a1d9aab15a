//! Work of single layers, which tells what it costs, and what came of it: the layer's name and the
//! size of the work are the words behind the program's name. Without words each layer does a little,
//! and no time is told.
#![tactic(auto)]

mod ends;
mod kernels;
mod locks;
mod packets;
mod queues;
mod streams;
mod tables;
mod texts;
mod trunks;
mod watch;

use crate::watch::Times;
use anyhow::Context;
use std::alloc::Global;
use std::env;
use std::io::{Input, Print};
use std::sync::Wait;
use std::thread::Threads;
use std::time::Clock;

#[derive(Clone, Copy)]
enum Layer {
    Queue,
    Tables,
    Kernel,
    Text,
    End,
    Trunk,
    Lock,
    Packets,
}

/// The layer that a word of the command line names.
fn layer_of(word: &str) -> Option<Layer> {
    match word {
        "queue" => Some(Layer::Queue),
        "tables" => Some(Layer::Tables),
        "kernel" => Some(Layer::Kernel),
        "text" => Some(Layer::Text),
        "end" => Some(Layer::End),
        "trunk" => Some(Layer::Trunk),
        "lock" => Some(Layer::Lock),
        "packets" => Some(Layer::Packets),
        _ => None,
    }
}

/// The size of a layer's work, where none is said.
fn size_of(layer: Layer) -> u32 {
    match layer {
        Layer::Queue => 30_000,
        Layer::Tables | Layer::Kernel | Layer::Trunk => 100_000,
        Layer::Text => 200_000,
        Layer::End | Layer::Lock => 1_000_000,
        // All lines of the standard input are read.
        Layer::Packets => 0,
    }
}

/// Does the work of a layer, in this size, and tells what came of it.
fn work<R: Threads + Wait + Sync + Clock + Print + Input>(
    rt: &R,
    alloc: Global,
    layer: Layer,
    size: u32,
    times: Times,
) -> anyhow::Result<()> {
    match layer {
        Layer::Queue => queues::work(rt, alloc, size, times),
        Layer::Tables => tables::work(rt, alloc, size, times),
        Layer::Kernel => kernels::work(rt, alloc, size, times),
        Layer::Text => texts::work(rt, alloc, size, times),
        Layer::End => ends::work(rt, alloc, size, times),
        Layer::Trunk => trunks::work(rt, alloc, size, times),
        Layer::Lock => locks::work(rt, alloc, size, times),
        Layer::Packets => packets::work(rt, alloc),
    }
}

/// Each layer does a hundredth of its work.
fn little<R: Threads + Wait + Sync + Clock + Print + Input>(
    rt: &R,
    alloc: Global,
) -> anyhow::Result<()> {
    for layer in [
        Layer::Queue,
        Layer::Tables,
        Layer::Kernel,
        Layer::Text,
        Layer::End,
        Layer::Trunk,
        Layer::Lock,
        Layer::Packets,
    ] {
        work(rt, alloc, layer, size_of(layer) / 100, Times::Untold)?;
    }
    Ok(())
}

fn main(rt: HostRuntime) -> anyhow::Result<()> {
    let mut words = env::args(&rt)?;
    let _program = words.next();
    let Some(name) = words.next() else {
        return little(&rt, rt.alloc());
    };
    let layer = layer_of(name.as_str()).context("no such layer")?;
    let size = match words.next() {
        None => size_of(layer),
        Some(word) => word.as_str().parse().context("no size")?,
    };
    work(&rt, rt.alloc(), layer, size, Times::Told)
}
