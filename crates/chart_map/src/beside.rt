//! The rare lines beside the strips of a map.
ghost use Rattle.std.specs.Prelude.{◌≡◌, ◌≤◌, ◌++◌, ◌∷◌, [], decimal, codes, length, IfOk, OnOk};
ghost use Rattle.svg_text.specs.declared.shape.Shape.TheVariants.{Path};
ghost use Rattle.chart_map.specs.Beside.{words_at, rare_title, label_y, first_y, lead, hit};
ghost use Rattle.chart_map.specs.Beside.{rare_shapes, rare_row, rare_rows_from, note_at};
ghost use Rattle.chart_map.specs.Beside.{more_words, notes_of};

use crate::grid::Grid;
use crate::layout::row_top;
use crate::rare::Rare;
use chart_drawing::{cut, label_class, put_box, put_bytes, put_number, put_path, put_words};
use linx_base::{Blob, NoMemory, Sequence};
use std::alloc::Global;
use svg_text::{Anchor, Area, Class, Point, Row, Shape, Stroke};

/// How many characters of a rare line there is room for.
const LABEL_ROOM: usize = 42;

/// The words of the line at a place, no words where there are none.
fn words_at(lines: &[Blob], place: usize) -> &[u8]
    ensures { result.now ≡ words_at lines.now place }
{
    match lines.get(place) {
        Some(words) => words.bytes(),
        None => b"",
    }
}

/// The position of a line's step, and the line.
fn rare_title(alloc: Global, lines: &[Blob], rare: &Rare) -> Result<Vec<u8>, NoMemory>
    ensures { IfOk result (λ title. title.items ≡ rare_title lines.now rare.now) }
{
    let mut title = Vec::new(alloc);
    put_number(&mut title, rare.mark.line.step)?;
    put_bytes(&mut title, b" ")?;
    put_bytes(&mut title, words_at(lines, rare.place))?;
    Ok(title)
}

/// How far down the words of the k-th line from 0 stand, behind those of the first one.
fn label_y(first: u32, k: usize) -> u32
    requires few { k ≤ 60 }
    requires least { 96 ≤ first }
    requires most { first ≤ 1000 }
    ensures y { result ≡ label_y first k }
    ensures least { 96 ≤ result }
    ensures most { result ≤ 2000 }
{
    first + 14 * k as u32
}

/// How far down the words of the first rare line stand: beside its row, where there is room below for
/// all of them, else so far above.
pub(crate) fn first_y(grid: Grid, room: usize, rare: &[Rare]) -> u32
    requires few { room ≤ 52 }
    requires some { 1 ≤ grid.in_row }
    ensures y { result ≡ first_y grid room rare.now }
    ensures least { 96 ≤ result }
    ensures most { result ≤ 1000 }
{
    match rare.first() {
        Some(first) => {
            let below = 14 * room.saturating_sub(rare.len()) as u32;
            96 + (3 * grid.row_of(first.mark.line.step)).min(below)
        }
        None => 96,
    }
}

/// What lights under the pointer.
fn put_hit(out: &mut Vec<Shape>, edge: u32, y: u32) -> Result<(), NoMemory>
    requires edge { edge ≤ 40000 }
    requires y { 96 ≤ y }
    ensures { OnOk result (out.new.items ≡ out.old.items ++ hit edge y ∷ []) }
{
    let area = Area {
        corner: Point {
            x: edge + 32,
            y: y - 10,
        },
        width: 306,
        height: 14,
    };
    put_box(out, Class::Hit, area)
}

/// The line from a row to the words beside it.
fn put_lead(out: &mut Vec<Shape>, edge: u32, row: u32, y: u32) -> Result<(), NoMemory>
    requires edge { edge ≤ 40000 }
    requires row { row ≤ 239 }
    requires y { 96 ≤ y }
    ensures { OnOk result (out.new.items ≡ out.old.items ++ lead edge row y ∷ []) }
{
    let from = row_top(row) + 1;
    let to = y - 4;
    let strokes = [
        Stroke::Move(Point { x: edge, y: from }),
        Stroke::Line(Point {
            x: edge + 6,
            y: from,
        }),
        Stroke::Line(Point {
            x: edge + 28,
            y: to,
        }),
        Stroke::Line(Point {
            x: edge + 32,
            y: to,
        }),
    ];
    put_path(out, Class::Packet, &strokes)
}

/// A rare line: what lights under the pointer, the line to its row, and its words.
fn rare_shapes(
    alloc: Global,
    edge: u32,
    row: u32,
    y: u32,
    rare: &Rare,
    title: &[u8],
) -> Result<Vec<Shape>, NoMemory>
    requires edge { edge ≤ 40000 }
    requires row { row ≤ 239 }
    requires y { 96 ≤ y }
    ensures { IfOk result (λ shapes. shapes.items
        ≡ rare_shapes edge row y rare.now title.now) }
{
    let mut shapes = Vec::new(alloc);
    put_hit(&mut shapes, edge, y)?;
    put_lead(&mut shapes, edge, row, y)?;
    let words = cut(alloc, LABEL_ROOM, title)?;
    let point = Point { x: edge + 36, y };
    put_words(
        &mut shapes,
        label_class(rare.mark.kind),
        Anchor::Start,
        point,
        &words,
    )?;
    Ok(shapes)
}

/// The row of a rare line, whose words stand so far down.
fn rare_row(
    alloc: Global,
    edge: u32,
    grid: Grid,
    lines: &[Blob],
    y: u32,
    rare: &Rare,
) -> Result<Row, NoMemory>
    requires edge { edge ≤ 40000 }
    requires y { 96 ≤ y }
    requires some { 1 ≤ grid.in_row }
    ensures { IfOk result (λ row. row ≡ rare_row edge grid lines.now y rare.now) }
{
    let title = rare_title(alloc, lines, rare)?;
    let row = grid.row_of(rare.mark.line.step);
    let shapes = rare_shapes(alloc, edge, row, y, rare, &title)?;
    Ok(Row {
        step: rare.mark.line.step,
        effect: rare.mark.line.place,
        title: Blob::shared(title)?,
        shapes: Sequence::of(shapes),
    })
}

/// The rows of rare lines.
pub(crate) fn rare_rows(
    alloc: Global,
    edge: u32,
    grid: Grid,
    lines: &[Blob],
    first: u32,
    rare: &[Rare],
) -> Result<Vec<Row>, NoMemory>
    requires edge { edge ≤ 40000 }
    requires few { length rare.now ≤ 52 }
    requires some { 1 ≤ grid.in_row }
    requires least { 96 ≤ first }
    requires most { first ≤ 1000 }
    ensures { IfOk result (λ rows. rows.items
        ≡ rare_rows_from edge grid lines.now first 0 rare.now) }
{
    let mut rows = Vec::with_capacity(alloc, rare.len())?;
    for k in 0..rare.len() {
        let y = label_y(first, k);
        rows.push(rare_row(alloc, edge, grid, lines, y, &rare[k])?)?;
    }
    Ok(rows)
}

/// Words behind the rare lines, which are so many.
fn put_note(out: &mut Vec<Shape>, edge: u32, k: usize, words: &[u8]) -> Result<(), NoMemory>
    requires edge { edge ≤ 40000 }
    requires few { k ≤ 60 }
    ensures { OnOk result (out.new.items ≡ out.old.items ++ note_at edge k words.now ∷ []) }
{
    let point = Point {
        x: edge + 36,
        y: label_y(96, k),
    };
    put_words(out, Class::Faint, Anchor::Start, point, words)
}

/// How many more there are.
fn more_words(alloc: Global, more: usize) -> Result<Vec<u8>, NoMemory>
    ensures { IfOk result (λ words. words.items ≡ more_words more) }
{
    let mut words = Vec::new(alloc);
    put_bytes(&mut words, b"and ")?;
    put_number(&mut words, more as u64)?;
    put_bytes(&mut words, b" more")?;
    Ok(words)
}

/// What is said behind the rare lines: that there are more than there is room for, or none.
pub(crate) fn put_notes(
    out: &mut Vec<Shape>,
    edge: u32,
    room: usize,
    rare: usize,
) -> Result<(), NoMemory>
    requires edge { edge ≤ 40000 }
    requires few { room ≤ 52 }
    ensures { OnOk result (out.new.items ≡ out.old.items ++ notes_of edge room rare) }
{
    if rare == 0 {
        return put_note(out, edge, 0, b"no refused, none, dead, cut, down, notified");
    }
    if rare <= room {
        return Ok(());
    }
    let words = more_words(*out.allocator(), rare - room)?;
    put_note(out, edge, room, &words)
}
