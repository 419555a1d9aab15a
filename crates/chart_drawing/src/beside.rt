//! What lies beside a line: what is in a queue, and what was asked for.
ghost use Rattle.std.specs.Prelude.{◌≡◌, ◌++◌, [], ◌∷◌, flat_map, map, OnOk, IfOk};
ghost use Rattle.std.specs.Option.{option_copied};
ghost use Rattle.chart_drawing.specs.Beside.{is_taken, is_on_side, are_together, meets, free_out};
ghost use Rattle.chart_drawing.specs.Beside.{loop_of, loop_if, loops_with, queue_class, loop_class};
ghost use Rattle.chart_drawing.specs.Beside.{round, loop_shape};

use crate::cells::{beside, line_to, move_to, put_path};
use crate::spot::{Spot, same_column};
use crate::spots::Spots;
use chart::{MarkKind, Tie, TieKind};
use linx_base::NoMemory;
use std::alloc::Global;
use svg_text::{Class, Shape, Stroke};

/// A tie that is drawn beside a line, so far out of the nearest place.
#[derive(Clone, Copy, Debug, PartialEq, Eq)]
pub struct Loop {
    pub kind: TieKind,
    pub from: Spot,
    pub to: Spot,
    pub out: u8,
}

/// Whether the tie is drawn to the right of a line.
fn is_taken(kind: TieKind) -> bool
    ensures { result ≡ is_taken kind }
{
    match kind {
        TieKind::Taken => true,
        _ => false,
    }
}

/// Whether a tie is drawn on this side.
fn is_on_side(right: bool, kind: TieKind) -> bool
    ensures { result ≡ is_on_side right kind }
{
    if right {
        is_taken(kind)
    } else {
        !is_taken(kind)
    }
}

/// Whether two loops of one side and line are both in some row.
fn are_together(right: bool, from: &Spot, to: &Spot, other: &Loop) -> bool
    ensures { result ≡ are_together right from.now to.now other.now }
{
    is_on_side(right, other.kind)
        && same_column(other.from.mark.column, from.mark.column)
        && other.from.row < to.row
        && from.row < other.to.row
}

/// Whether a loop would meet another one so far from the line.
fn meets(right: bool, from: &Spot, to: &Spot, out: u8, loops: &[Loop]) -> bool
    ensures { result ≡ meets right from.now to.now out loops.now }
{
    loops
        .iter()
        .any(|l| l.out == out && are_together(right, from, to, l))
}

/// How far from the line a loop stands.
fn free_out(right: bool, from: &Spot, to: &Spot, loops: &[Loop]) -> u8
    ensures { result ≡ free_out right from.now to.now loops.now }
{
    if !meets(right, from, to, 0, loops) {
        0
    } else if !meets(right, from, to, 4, loops) {
        4
    } else if !meets(right, from, to, 8, loops) {
        8
    } else if !meets(right, from, to, 12, loops) {
        12
    } else {
        16
    }
}

/// The loop of a tie between two spots.
fn loop_of(kind: TieKind, from: &Spot, to: &Spot, loops: &[Loop]) -> Loop
    ensures { result ≡ loop_of kind from.now to.now loops.now }
{
    Loop {
        kind,
        from: *from,
        to: *to,
        out: free_out(is_taken(kind), from, to, loops),
    }
}

/// Adds the loop of a tie whose lines have these spots.
fn put_loop(
    loops: &mut Vec<Loop>,
    kind: TieKind,
    from: Option<&Spot>,
    to: Option<&Spot>,
) -> Result<(), NoMemory>
    ensures { OnOk result (loops.new.items ≡ loops.old.items
        ++ loop_if kind (option_copied from.entry) (option_copied to.entry) loops.old.items) }
{
    match (kind, from, to) {
        (TieKind::Signal | TieKind::Carried | TieKind::Lost, _, _) => Ok(()),
        (_, Some(from), Some(to)) => {
            let next = loop_of(kind, from, to, loops.as_slice());
            loops.push(next)?;
            Ok(())
        }
        _ => Ok(()),
    }
}

/// The loops of ties.
fn loops_of(alloc: Global, spots: &Spots, ties: &[Tie]) -> Result<Vec<Loop>, NoMemory>
    ensures { IfOk result (λ loops. loops.items ≡ loops_with spots.now [] ties.now) }
{
    let mut loops = Vec::new(alloc);
    for tie in ties {
        put_loop(&mut loops, tie.kind, spots.at(tie.from), spots.at(tie.to))?;
    }
    Ok(loops)
}

/// How what is in a queue looks, by the mark that it came with.
fn queue_class(kind: MarkKind) -> Class
    ensures { result ≡ queue_class kind }
{
    match kind {
        MarkKind::Found => Class::QueueFound,
        MarkKind::Notified => Class::QueueNotice,
        _ => Class::Queue,
    }
}

fn loop_class(tie: TieKind, kind: MarkKind) -> Class
    ensures { result ≡ loop_class tie kind }
{
    match tie {
        TieKind::Taken => queue_class(kind),
        TieKind::Hunt => Class::Found,
        _ => Class::Notice,
    }
}

/// From one place to another, by a line that stands so far to the right.
fn put_round(
    out: &mut Vec<Shape>,
    class: Class,
    from: &Spot,
    to: &Spot,
    edge: u16,
    far: u16,
) -> Result<(), NoMemory>
    ensures { OnOk result (out.new.items
        ≡ out.old.items ++ round class from.now to.now edge far ∷ []) }
{
    let strokes = [
        move_to(from, edge, 9),
        line_to(from, far, 9),
        Stroke::Line(beside(from, to, far, 9)),
        line_to(to, edge, 9),
    ];
    put_path(out, class, &strokes)
}

fn put_loop_shape(out: &mut Vec<Shape>, l: &Loop) -> Result<(), NoMemory>
    ensures { OnOk result (out.new.items ≡ out.old.items ++ loop_shape l.now ∷ []) }
{
    let class = loop_class(l.kind, l.from.mark.kind);
    let far = u16::from(l.out);
    if is_taken(l.kind) {
        put_round(out, class, &l.from, &l.to, 37, 41 + far)
    } else {
        put_round(out, class, &l.from, &l.to, 27, 23u16.saturating_sub(far))
    }
}

fn put_loop_shapes(out: &mut Vec<Shape>, loops: &[Loop]) -> Result<(), NoMemory>
    ensures { OnOk result (out.new.items ≡ out.old.items ++ map loop_shape loops.now) }
{
    for l in loops {
        put_loop_shape(out, l)?;
    }
    Ok(())
}

/// The ties that are drawn beside lines.
pub(crate) fn put_loops(out: &mut Vec<Shape>, spots: &Spots, ties: &[Tie]) -> Result<(), NoMemory>
    ensures { OnOk result (out.new.items
        ≡ out.old.items ++ map loop_shape (loops_with spots.now [] ties.now)) }
{
    let loops = loops_of(*out.allocator(), spots, ties)?;
    put_loop_shapes(out, &loops)
}
