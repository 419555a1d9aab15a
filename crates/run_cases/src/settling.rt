//! The packets of a link come until none is in flight.

use crate::trunk_calls::{deliver, deliver_to_open, sender};
use case_words::{add_piece, asked_text, met_text, side_text};
use linx_base::{Inc, LinkNo, Name, Side};
use run_trunks::RunTrunks;
use std::alloc::Global;
use std::test::Fail;
use trunk::TrunkUp;

/// Writes behind the text whom a side met or which name it was asked for.
fn add_told(alloc: Global, text: &mut String, from: Side, up: TrunkUp) -> Result<(), Fail> {
    let told = match up {
        TrunkUp::Asked { name } => asked_text(alloc, &name)?,
        TrunkUp::Met { inc, name } => met_text(alloc, inc, &name)?,
        _ => return Ok(()),
    };
    let told = format!(in alloc; "{} {told}", side_text(from.other()))?;
    add_piece(text, " ", told.as_str())
}

/// The next packet of a link comes. The answer is whether one was in flight.
fn come_next(
    alloc: Global,
    trunks: &mut RunTrunks,
    link: LinkNo,
    text: &mut String,
) -> Result<bool, Fail> {
    let Some(from) = sender(trunks, link) else {
        return Ok(false);
    };
    let up = deliver(trunks, link, from)?;
    add_told(alloc, text, from, up)?;
    Ok(true)
}

/// All packets of a link come. The text is what was told.
pub fn settle(alloc: Global, trunks: &mut RunTrunks, link: LinkNo) -> Result<String, Fail> {
    let mut text = String::new(alloc);
    for _ in 0..100 {
        if !come_next(alloc, trunks, link, &mut text)? {
            return Ok(text);
        }
    }
    Err(Fail::from("packets without end"))
}

/// The next packet of a link comes, and the second side publishes an endpoint when it goes up.
fn come_to_open(
    alloc: Global,
    trunks: &mut RunTrunks,
    link: LinkNo,
    (inc, name): (Inc, &Name),
    text: &mut String,
) -> Result<bool, Fail> {
    match sender(trunks, link) {
        Some(Side::First) => {
            deliver_to_open(trunks, link, inc, name)?;
            Ok(true)
        }
        _ => come_next(alloc, trunks, link, text),
    }
}

/// All packets of a link come, and the second side publishes an endpoint when it goes up.
pub fn settle_to_open(
    alloc: Global,
    trunks: &mut RunTrunks,
    link: LinkNo,
    inc: Inc,
    name: &Name,
) -> Result<String, Fail> {
    let mut text = String::new(alloc);
    for _ in 0..100 {
        if !come_to_open(alloc, trunks, link, (inc, name), &mut text)? {
            return Ok(text);
        }
    }
    Err(Fail::from("packets without end"))
}
