//! The rows, and the words beside them.
ghost use Rattle.std.specs.Prelude.{◌≡◌, ◌++◌, [], ◌∷◌, decimal, if◌then◌else◌, OnOk, IfOk};
ghost use Rattle.chart_drawing.specs.Layout.{IsNarrow};
ghost use Rattle.chart_drawing.specs.Folds.{run_of};
ghost use Rattle.chart_drawing.specs.Rows.{mark_shapes, words_at, row_words, row_title, hit_shape};
ghost use Rattle.chart_drawing.specs.Rows.{run_shapes, row_of, rows_of};

use crate::cells::{put_box, row_top};
use crate::lane_marks::{put_packet, put_tick};
use crate::layout::width_of;
use crate::life_marks::{
    put_cross, put_diamond, put_down, put_ended, put_flat, put_gone, put_level, put_met, put_none,
    put_ring, put_send, put_square, put_struck, put_take, put_upright,
};
use crate::runs::{is_run, put_fold, put_fold_words, run_of};
use crate::setting::Setting;
use crate::spot::Spot;
use chart::MarkKind;
use itoa::Buffer;
use linx_base::{Blob, NoMemory, Sequence};
use std::alloc::Global;
use svg_text::{Area, Class, Point, Row, Shape};

/// How a mark looks, by what it is of.
#[tactic(auto, unfolding(crate::specs::Rows::mark_shapes))]
fn put_mark(out: &mut Vec<Shape>, spot: &Spot, kind: MarkKind) -> Result<(), NoMemory>
    ensures { OnOk result (out.new.items ≡ out.old.items ++ mark_shapes spot.now kind) }
{
    match kind {
        MarkKind::Open => put_ring(out, spot, 32, 3),
        MarkKind::Close => put_level(out, spot, 26, 38),
        MarkKind::Send(answer) => put_send(out, spot, answer),
        MarkKind::Take => put_take(out, spot),
        MarkKind::TakeNone => put_none(out, spot),
        MarkKind::Waits => put_level(out, spot, 27, 37),
        MarkKind::Hunt => put_diamond(out, spot),
        MarkKind::Attach => put_square(out, spot),
        MarkKind::Detach(_) => put_struck(out, spot),
        MarkKind::Cut(_) | MarkKind::Mend(_) | MarkKind::Settle | MarkKind::Restart(_) => {
            put_flat(out, spot)
        }
        MarkKind::Packet(verdict) => put_packet(out, spot, verdict),
        MarkKind::Tick => put_tick(out, spot),
        MarkKind::Refused => {
            put_ring(out, spot, 32, 5)?;
            put_cross(out, spot, 28)
        }
        MarkKind::Ended => put_ended(out, spot),
        MarkKind::Opened | MarkKind::Closed => put_level(out, spot, 25, 39),
        MarkKind::Arrived | MarkKind::Found | MarkKind::Notified => put_upright(out, spot),
        MarkKind::Met => put_met(out, spot),
        MarkKind::Gone => put_gone(out, spot),
        MarkKind::Up => put_level(out, spot, 10, 22),
        MarkKind::Down => put_down(out, spot),
    }
}

/// The words of a mark's line, by its place; no words where there are none.
pub(crate) fn words_at(all: &[Blob], place: usize) -> &[u8]
    ensures { result.now ≡ words_at all.now place }
{
    match all.get(place) {
        Some(words) => words.bytes(),
        None => b"",
    }
}

/// Any bytes.
pub fn put_bytes(out: &mut Vec<u8>, bytes: &[u8]) -> Result<(), NoMemory>
    ensures { OnOk result (out.new.items ≡ out.old.items ++ bytes.now) }
{
    out.extend_from_slice(bytes)?;
    Ok(())
}

/// A number in decimal digits.
pub fn put_number(out: &mut Vec<u8>, number: u64) -> Result<(), NoMemory>
    ensures { OnOk result (out.new.items ≡ out.old.items ++ decimal number) }
{
    let mut buffer = Buffer::new();
    put_bytes(out, buffer.format(number).as_bytes())
}

/// The words of a row of these marks, of which this is the first.
pub(crate) fn row_words(
    alloc: Global,
    lines: &[Blob],
    spot: &Spot,
    run: &[Spot],
) -> Result<Vec<u8>, NoMemory>
    ensures { IfOk result (λ words. words.items ≡ row_words lines.now spot.now run.now) }
{
    let mut words = Vec::new(alloc);
    if is_run(run) {
        put_fold_words(&mut words, run)?;
    } else {
        put_bytes(&mut words, words_at(lines, spot.place))?;
    }
    Ok(words)
}

/// The title of a row.
fn row_title(alloc: Global, lines: &[Blob], spot: &Spot, run: &[Spot]) -> Result<Blob, NoMemory>
    ensures { IfOk result (λ title. title ≡ row_title lines.now spot.now run.now) }
{
    let mut title = Vec::new(alloc);
    put_number(&mut title, spot.mark.line.step)?;
    put_bytes(&mut title, b" ")?;
    let words = row_words(alloc, lines, spot, run)?;
    put_bytes(&mut title, &words)?;
    Blob::shared(title)
}

/// What lights under the pointer.
fn put_hit(out: &mut Vec<Shape>, setting: &Setting, spot: &Spot) -> Result<(), NoMemory>
    requires { IsNarrow setting.now }
    ensures { OnOk result (out.new.items ≡ out.old.items ++ hit_shape setting.now spot.now ∷ []) }
{
    let area = Area {
        corner: Point {
            x: 0,
            y: row_top(spot.row),
        },
        width: u32::from(width_of(setting)),
        height: 18,
    };
    put_box(out, Class::Hit, area)
}

/// What a row of these marks shows.
fn put_run(
    out: &mut Vec<Shape>,
    setting: &Setting,
    spot: &Spot,
    run: &[Spot],
) -> Result<(), NoMemory>
    requires { IsNarrow setting.now }
    ensures { OnOk result (out.new.items
        ≡ out.old.items ++ run_shapes setting.now spot.now run.now) }
{
    if is_run(run) {
        put_fold(out, setting, spot.row, run, setting.links.as_slice())
    } else {
        put_mark(out, spot, spot.mark.kind)
    }
}

/// The row of these marks.
fn row_of(
    alloc: Global,
    setting: &Setting,
    lines: &[Blob],
    spot: &Spot,
    run: &[Spot],
) -> Result<Row, NoMemory>
    requires { IsNarrow setting.now }
    ensures { IfOk result (λ row. row ≡ row_of setting.now lines.now spot.now run.now) }
{
    let title = row_title(alloc, lines, spot, run)?;
    let mut shapes = Vec::new(alloc);
    put_hit(&mut shapes, setting, spot)?;
    put_run(&mut shapes, setting, spot, run)?;
    Ok(Row {
        step: spot.mark.line.step,
        effect: spot.mark.line.place,
        title,
        shapes: Sequence::of(shapes),
    })
}

/// Adds the row that begins at a spot, the first of these, unless it shares one.
fn put_row(
    rows: &mut Vec<Row>,
    setting: &Setting,
    lines: &[Blob],
    spot: &Spot,
    spots: &[Spot],
) -> Result<(), NoMemory>
    requires { IsNarrow setting.now }
    ensures { OnOk result (rows.new.items ≡ rows.old.items
        ++ (if spot.now.folded then []
        else row_of setting.now lines.now spot.now (run_of spot.now.row spots.now) ∷ [])) }
{
    if spot.folded {
        return Ok(());
    }
    let row = row_of(
        *rows.allocator(),
        setting,
        lines,
        spot,
        run_of(spot.row, spots),
    )?;
    rows.push(row)?;
    Ok(())
}

/// The rows of all marks, in the same order.
pub(crate) fn rows_of(
    alloc: Global,
    setting: &Setting,
    lines: &[Blob],
    spots: &[Spot],
) -> Result<Vec<Row>, NoMemory>
    requires { IsNarrow setting.now }
    ensures { IfOk result (λ rows. rows.items ≡ rows_of setting.now lines.now spots.now) }
{
    let mut rows = Vec::new(alloc);
    for index in 0..spots.len() {
        put_row(&mut rows, setting, lines, &spots[index], &spots[index..])?;
    }
    Ok(rows)
}
