//! Labels of marks, and the lines at the left.
ghost use Rattle.std.specs.Prelude.{◌≡◌, ◌≤◌, ◌++◌, [], ◌∷◌, length, decimal, OnOk, IfOk};
ghost use Rattle.std.specs.Prelude.{◌+◌, if◌then◌else◌};
ghost use Rattle.svg_text.specs.declared.shape.Shape.TheVariants.{Words};
ghost use Rattle.chart_drawing.specs.Rows.{cut, anchor_of, side_point, lane_words, label_class};
ghost use Rattle.chart_drawing.specs.Rows.{send_class, packet_label, label_shape, label_room};
ghost use Rattle.chart_drawing.specs.Folds.{run_of};
ghost use Rattle.chart_drawing.specs.Rows.{label_if, label_shapes, run_label, labels_of};
ghost use Rattle.chart_drawing.specs.Rows.{line_shapes, lines_of, is_numbered, position_shapes};
ghost use Rattle.chart_drawing.specs.Rows.{line_class};
ghost use Rattle.chart_drawing.specs.Spots.{point, row_top};

use crate::cells::{in_cell, in_lane, put_words, row_top};
use crate::labels::label_of;
use crate::layout::gap;
use crate::rows::{put_bytes, put_number, row_words, words_at};
use crate::runs::{is_run, run_of};
use crate::setting::Setting;
use crate::spot::Spot;
use crate::view::View;
use chart::{Column, MarkKind};
use journal::SentTo;
use linx_base::{Blob, NoMemory, Verdict};
use std::alloc::Global;
use svg_text::{Anchor, Class, Point, Shape};

/// How many characters of a line of the journal there is room for.
const LINE_ROOM: usize = 42;

/// Words cut to a length, with two dots where some are left out.
pub fn cut(alloc: Global, most: usize, words: &[u8]) -> Result<Vec<u8>, NoMemory>
    requires { 2 ≤ most }
    ensures { IfOk result (λ made. made.items ≡ cut most words.now) }
{
    let mut made = Vec::new(alloc);
    if words.len() <= most {
        put_bytes(&mut made, words)?;
    } else {
        put_bytes(&mut made, &words[..most - 2])?;
        put_bytes(&mut made, b"..")?;
    }
    Ok(made)
}

/// Which part of a label stands at its point: its end, where it is turned to the left.
fn anchor_of(turned: bool) -> Anchor
    ensures { result ≡ anchor_of turned }
{
    if turned { Anchor::End } else { Anchor::Start }
}

/// Where the label of a mark on a rail stands.
fn side_point(spot: &Spot, right: u16) -> Point
    ensures { result ≡ side_point spot.now right }
{
    if spot.turned {
        in_cell(spot, 6, 13)
    } else {
        in_cell(spot, right, 13)
    }
}

/// A label of a lane, so far along it.
fn put_lane_words(
    out: &mut Vec<Shape>,
    spot: &Spot,
    along: u16,
    class: Class,
    words: &[u8],
) -> Result<(), NoMemory>
    ensures { OnOk result (out.new.items
        ≡ out.old.items ++ lane_words spot.now along class words.now ∷ []) }
{
    put_words(
        out,
        class,
        anchor_of(spot.turned),
        in_lane(spot, along, 13),
        words,
    )
}

/// How the label of a send looks.
fn send_class(answer: SentTo) -> Class
    ensures { result ≡ send_class answer }
{
    match answer {
        SentTo::Dead => Class::WrongLabel,
        _ => Class::Label,
    }
}

/// How a label looks.
pub fn label_class(kind: MarkKind) -> Class
    ensures { result ≡ label_class kind }
{
    match kind {
        MarkKind::Send(answer) => send_class(answer),
        MarkKind::TakeNone
        | MarkKind::Cut(_)
        | MarkKind::Restart(_)
        | MarkKind::Refused
        | MarkKind::Down => Class::WrongLabel,
        MarkKind::Opened | MarkKind::Up => Class::Strong,
        MarkKind::Open | MarkKind::Close | MarkKind::Waits | MarkKind::Ended => Class::Faint,
        _ => Class::Label,
    }
}

/// The label of a packet.
fn put_packet_label(
    out: &mut Vec<Shape>,
    spot: &Spot,
    verdict: Verdict,
    words: &[u8],
) -> Result<(), NoMemory>
    ensures { OnOk result (out.new.items
        ≡ out.old.items ++ packet_label spot.now verdict words.now ∷ []) }
{
    match verdict {
        Verdict::Deliver => put_lane_words(out, spot, 88, Class::Label, words),
        Verdict::Lose => put_lane_words(out, spot, 88, Class::WrongLabel, words),
        Verdict::Repeat => {
            put_words(
                out,
                Class::Label,
                Anchor::Middle,
                in_lane(spot, 78, 13),
                words,
            )
        }
        Verdict::Swap(_) => put_lane_words(out, spot, 84, Class::Label, words),
    }
}

/// The label of a mark.
#[tactic(auto, unfolding(crate::specs::Rows::label_shape))]
fn put_label(
    out: &mut Vec<Shape>,
    spot: &Spot,
    kind: MarkKind,
    words: &[u8],
) -> Result<(), NoMemory>
    ensures { OnOk result (out.new.items
        ≡ out.old.items ++ label_shape spot.now kind words.now ∷ []) }
{
    match kind {
        MarkKind::Packet(verdict) => put_packet_label(out, spot, verdict, words),
        MarkKind::Tick => put_lane_words(out, spot, 40, Class::Faint, words),
        MarkKind::Up | MarkKind::Down | MarkKind::Met | MarkKind::Gone => put_words(
            out,
            label_class(kind),
            anchor_of(spot.turned),
            side_point(spot, 26),
            words,
        ),
        _ => put_words(
            out,
            label_class(kind),
            Anchor::Start,
            in_cell(spot, 62, 13),
            words,
        ),
    }
}

/// How many characters of a label there is room for beside a column.
fn label_room(setting: &Setting, column: Column) -> usize
    ensures room { result ≡ label_room setting.now column }
    ensures some { 2 ≤ result }
{
    match column {
        Column::Life(_) => (gap(setting) as usize - 46) / 7,
        _ => 13,
    }
}

/// A label, where it has words.
fn put_label_if(
    out: &mut Vec<Shape>,
    setting: &Setting,
    spot: &Spot,
    words: &[u8],
) -> Result<(), NoMemory>
    ensures { OnOk result (out.new.items
        ≡ out.old.items ++ label_if setting.now spot.now words.now) }
{
    if words.is_empty() {
        return Ok(());
    }
    let words = cut(
        *out.allocator(),
        label_room(setting, spot.mark.column),
        words,
    )?;
    put_label(out, spot, spot.mark.kind, &words)
}

/// The label of a mark.
fn put_mark_label(
    out: &mut Vec<Shape>,
    setting: &Setting,
    lines: &[Blob],
    spot: &Spot,
) -> Result<(), NoMemory>
    ensures { OnOk result (out.new.items
        ≡ out.old.items ++ label_shapes setting.now lines.now spot.now) }
{
    let label = label_of(
        *out.allocator(),
        spot.mark.kind,
        words_at(lines, spot.place),
    )?;
    put_label_if(out, setting, spot, &label)
}

/// The label of a row that begins at a spot, the first of these, unless it shares one.
fn put_row_label(
    out: &mut Vec<Shape>,
    setting: &Setting,
    lines: &[Blob],
    spot: &Spot,
    spots: &[Spot],
) -> Result<(), NoMemory>
    ensures { OnOk result (out.new.items ≡ out.old.items
        ++ (if spot.now.folded then []
        else run_label setting.now lines.now spot.now (run_of spot.now.row spots.now))) }
{
    if spot.folded || is_run(run_of(spot.row, spots)) {
        return Ok(());
    }
    put_mark_label(out, setting, lines, spot)
}

/// The labels of all rows.
pub(crate) fn put_labels(
    out: &mut Vec<Shape>,
    setting: &Setting,
    lines: &[Blob],
    spots: &[Spot],
) -> Result<(), NoMemory>
    ensures { OnOk result (out.new.items
        ≡ out.old.items ++ labels_of setting.now lines.now spots.now) }
{
    for index in 0..spots.len() {
        put_row_label(out, setting, lines, &spots[index], &spots[index..])?;
    }
    Ok(())
}

/// Words at the left of a row.
fn put_left(
    out: &mut Vec<Shape>,
    class: Class,
    anchor: Anchor,
    x: u32,
    row: u16,
    words: &[u8],
) -> Result<(), NoMemory>
    ensures { OnOk result (out.new.items ≡ out.old.items
        ++ Words class anchor (point x (row_top row + 13)) words.now ∷ []) }
{
    let point = Point {
        x,
        y: row_top(row) + 13,
    };
    put_words(out, class, anchor, point, words)
}

/// Whether the position of its step stands before a row.
fn is_numbered(view: &View, spot: &Spot) -> bool
    ensures { result ≡ is_numbered view.now spot.now }
{
    spot.mark.line.place == 0 || view.of.is_some()
}

/// The position of a step, before a row.
fn put_position(out: &mut Vec<Shape>, view: &View, spot: &Spot) -> Result<(), NoMemory>
    ensures { OnOk result (out.new.items
        ≡ out.old.items ++ position_shapes view.now spot.now) }
{
    if !is_numbered(view, spot) {
        return Ok(());
    }
    let mut number = Vec::new(*out.allocator());
    put_number(&mut number, spot.mark.line.step)?;
    put_left(out, Class::Line, Anchor::End, 48, spot.row, &number)
}

/// How a line looks, by its place among those of its step.
fn line_class(place: u64) -> Class
    ensures { result ≡ line_class place }
{
    if place == 0 {
        Class::Line
    } else {
        Class::Effect
    }
}

/// The words of a row, unless lines are left out, and before them a position.
fn put_line(
    out: &mut Vec<Shape>,
    view: &View,
    lines: &[Blob],
    spot: &Spot,
    run: &[Spot],
) -> Result<(), NoMemory>
    ensures { OnOk result (out.new.items
        ≡ out.old.items ++ line_shapes view.now lines.now spot.now run.now) }
{
    put_position(out, view, spot)?;
    if view.plain {
        return Ok(());
    }
    let words = row_words(*out.allocator(), lines, spot, run)?;
    let words = cut(*out.allocator(), LINE_ROOM, &words)?;
    let class = line_class(spot.mark.line.place);
    put_left(out, class, Anchor::Start, 60, spot.row, &words)
}

/// The line of a row that begins at a spot, the first of these, unless it shares one.
fn put_row_line(
    out: &mut Vec<Shape>,
    view: &View,
    lines: &[Blob],
    spot: &Spot,
    spots: &[Spot],
) -> Result<(), NoMemory>
    ensures { OnOk result (out.new.items ≡ out.old.items
        ++ (if spot.now.folded then []
        else line_shapes view.now lines.now spot.now (run_of spot.now.row spots.now))) }
{
    if spot.folded {
        return Ok(());
    }
    put_line(out, view, lines, spot, run_of(spot.row, spots))
}

/// The lines of all rows.
pub(crate) fn put_lines(
    out: &mut Vec<Shape>,
    view: &View,
    lines: &[Blob],
    spots: &[Spot],
) -> Result<(), NoMemory>
    ensures { OnOk result (out.new.items ≡ out.old.items ++ lines_of view.now lines.now spots.now) }
{
    for index in 0..spots.len() {
        put_row_line(out, view, lines, &spots[index], &spots[index..])?;
    }
    Ok(())
}
