//! Arrows from where something came to the queue that it came to.
ghost use Rattle.std.specs.Prelude.{◌≡◌, ◌++◌, [], ◌∷◌, flat_map, OnOk};
ghost use Rattle.std.specs.Option.{option_copied};
ghost use Rattle.chart_drawing.specs.Arrows.{head_at, way_to, arrow, hook, arrow_from, signal_if};
ghost use Rattle.chart_drawing.specs.Arrows.{signal_arrows, coming_from, coming_if, step_spot};
ghost use Rattle.chart_drawing.specs.Arrows.{coming, comings, is_packet, carried, carried_by, lost};
ghost use Rattle.chart_drawing.specs.Arrows.{sent_off};

use crate::cells::{beside, in_cell, in_lane, lane_line, line_to, move_to, put_path};
use crate::life_marks::{put_cross, put_leaving};
use crate::spot::{Spot, same_column};
use crate::spots::Spots;
use chart::{MarkKind, Tie, TieKind};
use linx_base::{ItemAt, NoMemory};
use svg_text::{Class, Point, Shape, Stroke};

/// How an arrow looks: its line and its head.
#[derive(Clone, Copy)]
struct Look {
    line: Class,
    head: Class,
}

/// The head of an arrow, with its tip and its base so far to the right.
fn put_head(
    out: &mut Vec<Shape>,
    class: Class,
    to: &Spot,
    tip: u16,
    base: u16,
) -> Result<(), NoMemory>
    ensures { OnOk result (out.new.items ≡ out.old.items ++ head_at class to.now tip base ∷ []) }
{
    let strokes = [
        move_to(to, tip, 9),
        line_to(to, base, 5),
        line_to(to, base, 13),
        Stroke::Close,
    ];
    put_path(out, class, &strokes)
}

/// A line to a spot that ends level.
fn put_way(
    out: &mut Vec<Shape>,
    class: Class,
    from: Point,
    to: &Spot,
    bend: u16,
    tip: u16,
) -> Result<(), NoMemory>
    ensures { OnOk result (out.new.items ≡ out.old.items ++ way_to class from to.now bend tip ∷ []) }
{
    let strokes = [
        Stroke::Move(from),
        line_to(to, bend, 9),
        line_to(to, tip, 9),
    ];
    put_path(out, class, &strokes)
}

/// An arrow from a point to a spot's line.
fn put_arrow(out: &mut Vec<Shape>, look: Look, from: Point, to: &Spot) -> Result<(), NoMemory>
    ensures { OnOk result (out.new.items ≡ out.old.items ++ arrow look.line look.head from to.now) }
{
    if from.x < u32::from(to.x) + 32 {
        put_way(out, look.line, from, to, 13, 27)?;
        put_head(out, look.head, to, 27, 19)
    } else {
        put_way(out, look.line, from, to, 51, 37)?;
        put_head(out, look.head, to, 37, 45)
    }
}

/// An arrow from a line back to itself.
fn put_hook(out: &mut Vec<Shape>, look: Look, from: &Spot, to: &Spot) -> Result<(), NoMemory>
    ensures { OnOk result (out.new.items
        ≡ out.old.items ++ hook look.line look.head from.now to.now) }
{
    let strokes = [
        move_to(from, 37, 9),
        line_to(from, 56, 9),
        Stroke::Line(beside(from, to, 56, 9)),
        line_to(to, 37, 9),
    ];
    put_path(out, look.line, &strokes)?;
    put_head(out, look.head, to, 37, 45)
}

/// An arrow from a mark on a line.
fn put_arrow_from(out: &mut Vec<Shape>, look: Look, from: &Spot, to: &Spot) -> Result<(), NoMemory>
    ensures { OnOk result (out.new.items
        ≡ out.old.items ++ arrow_from look.line look.head from.now to.now) }
{
    if same_column(from.mark.column, to.mark.column) {
        put_hook(out, look, from, to)
    } else {
        put_arrow(out, look, in_cell(from, 32, 9), to)
    }
}

/// How signals look, what hunts found, and notifications.
const SIGNAL: Look = Look {
    line: Class::Signal,
    head: Class::SignalHead,
};

const FOUND: Look = Look {
    line: Class::Found,
    head: Class::FoundHead,
};

const NOTICE: Look = Look {
    line: Class::Notice,
    head: Class::NoticeHead,
};

pub(crate) fn is_packet(kind: MarkKind) -> bool
    ensures { result ≡ is_packet kind }
{
    match kind {
        MarkKind::Packet(_) => true,
        _ => false,
    }
}

/// A signal that a packet carries: level to the near rail, and on to the far one, where the packet
/// came.
fn put_carried(out: &mut Vec<Shape>, from: &Spot, packet: &Spot) -> Result<(), NoMemory>
    ensures { OnOk result (out.new.items ≡ out.old.items ++ carried from.now packet.now ∷ []) }
{
    let rail = Point {
        x: in_lane(packet, 24, 9).x,
        y: in_cell(from, 32, 9).y,
    };
    let strokes = [
        move_to(from, 32, 9),
        Stroke::Line(rail),
        lane_line(packet, 132, 9),
    ];
    put_path(out, Class::Signal, &strokes)
}

/// A signal over a link that came with a step.
fn put_carried_by(
    out: &mut Vec<Shape>,
    from: &Spot,
    to: &Spot,
    step: Option<&Spot>,
) -> Result<(), NoMemory>
    ensures { OnOk result (out.new.items
        ≡ out.old.items ++ carried_by from.now to.now (option_copied step.entry)) }
{
    match step {
        Some(step) if is_packet(step.mark.kind) => put_carried(out, from, step),
        Some(_) => Ok(()),
        None => put_arrow_from(out, SIGNAL, from, to),
    }
}

/// A signal that goes where nothing is drawn.
fn put_sent_off(out: &mut Vec<Shape>, from: &Spot) -> Result<(), NoMemory>
    ensures { OnOk result (out.new.items ≡ out.old.items ++ sent_off from.now) }
{
    if !from.seen {
        return Ok(());
    }
    put_leaving(out, from)?;
    put_head(out, Class::SignalHead, from, 56, 48)
}

/// A signal that never arrived.
fn put_lost(out: &mut Vec<Shape>, from: &Spot) -> Result<(), NoMemory>
    ensures { OnOk result (out.new.items ≡ out.old.items ++ lost from.now) }
{
    put_leaving(out, from)?;
    put_cross(out, from, 48)
}

/// A signal from its send to its arrival.
fn put_signal(
    out: &mut Vec<Shape>,
    spots: &Spots,
    kind: TieKind,
    from: Option<&Spot>,
    to: Option<&Spot>,
) -> Result<(), NoMemory>
    ensures { OnOk result (out.new.items ≡ out.old.items
        ++ signal_if spots.now kind (option_copied from.entry) (option_copied to.entry)) }
{
    match (kind, from, to) {
        (TieKind::Signal, Some(from), Some(to)) => put_arrow_from(out, SIGNAL, from, to),
        (TieKind::Carried, Some(from), Some(to)) => {
            put_carried_by(out, from, to, step_spot(spots, to))
        }
        (TieKind::Carried, Some(from), None) => put_sent_off(out, from),
        (TieKind::Lost, Some(from), Some(_)) => put_lost(out, from),
        _ => Ok(()),
    }
}

/// The arrows of signals.
pub(crate) fn put_signals(out: &mut Vec<Shape>, spots: &Spots, ties: &[Tie]) -> Result<(), NoMemory>
    ensures { OnOk result (out.new.items ≡ out.old.items ++ signal_arrows spots.now ties.now) }
{
    for tie in ties {
        put_signal(out, spots, tie.kind, spots.at(tie.from), spots.at(tie.to))?;
    }
    Ok(())
}

/// An arrow to a mark from its step.
fn put_coming_from(out: &mut Vec<Shape>, look: Look, step: &Spot, to: &Spot) -> Result<(), NoMemory>
    ensures { OnOk result (out.new.items ≡ out.old.items
        ++ coming_from look.line look.head step.now.mark.kind step.now to.now) }
{
    match step.mark.kind {
        MarkKind::Packet(_) => put_arrow(out, look, in_lane(step, 132, 9), to),
        MarkKind::Tick => put_arrow(out, look, in_lane(step, 24, 9), to),
        MarkKind::Send(_) => Ok(()),
        _ => put_arrow_from(out, look, step, to),
    }
}

/// The spot of a mark's step.
fn step_spot<'a>(spots: &'a Spots, spot: &Spot) -> Option<&'a Spot>
    ensures { option_copied result ≡ step_spot spots.now spot.now }
{
    let line = ItemAt {
        step: spot.mark.line.step,
        place: 0,
    };
    spots.at(line)
}

fn put_coming_if(
    out: &mut Vec<Shape>,
    look: Look,
    step: Option<&Spot>,
    to: &Spot,
) -> Result<(), NoMemory>
    ensures { OnOk result (out.new.items ≡ out.old.items
        ++ coming_if look.line look.head (option_copied step.entry) to.now) }
{
    match step {
        Some(step) => put_coming_from(out, look, step, to),
        None => Ok(()),
    }
}

/// The arrow to what came to a queue.
fn put_coming(out: &mut Vec<Shape>, spots: &Spots, to: &Spot) -> Result<(), NoMemory>
    ensures { OnOk result (out.new.items
        ≡ out.old.items ++ coming spots.now to.now.mark.kind to.now) }
{
    match to.mark.kind {
        MarkKind::Arrived => put_coming_if(out, SIGNAL, step_spot(spots, to), to),
        MarkKind::Found => put_coming_if(out, FOUND, step_spot(spots, to), to),
        MarkKind::Notified => put_coming_if(out, NOTICE, step_spot(spots, to), to),
        _ => Ok(()),
    }
}

/// The arrows to what came to queues.
pub(crate) fn put_comings(
    out: &mut Vec<Shape>,
    spots: &Spots,
    seen: &[Spot],
) -> Result<(), NoMemory>
    ensures { OnOk result (out.new.items ≡ out.old.items ++ comings spots.now seen.now) }
{
    for spot in seen {
        put_coming(out, spots, spot)?;
    }
    Ok(())
}
