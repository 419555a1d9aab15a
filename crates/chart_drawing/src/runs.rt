//! Rows of several marks: runs of steps of links without effects, as how many packets, losses and
//! ticks there were.
ghost use Rattle.std.specs.Prelude.{◌≡◌, ◌++◌, [], length, OnOk, IfOk};
ghost use Rattle.std.specs.Option.{option_copied};
ghost use Rattle.chart_drawing.specs.Layout.{IsNarrow};
ghost use Rattle.chart_drawing.specs.Folds.{is_off, run_end, run_of, is_run, is_lost, is_tick, is_on};
ghost use Rattle.chart_drawing.specs.Folds.{packets_on, losses_on, ticks_on, tally_of};
ghost use Rattle.chart_drawing.specs.Folds.{with_count, with_tally, brief_tally, is_mixed};
ghost use Rattle.chart_drawing.specs.Folds.{lane_tally, tally_class, tally_shapes, fold_shapes};
ghost use Rattle.chart_drawing.specs.Folds.{last_step, fold_words};

use crate::arrows::is_packet;
use crate::cells::{put_box, put_words, row_top};
use crate::layout::lane_left;
use crate::rows::{put_bytes, put_number};
use crate::seen::on_link;
use crate::setting::{DrawnLink, Setting};
use crate::spot::Spot;
use chart::{Column, MarkKind};
use linx_base::{NoMemory, Verdict};
use std::alloc::Global;
use svg_text::{Anchor, Area, Class, Point, Shape};

/// How many packets, those that were lost among them, and ticks there are.
#[derive(Clone, Copy)]
pub struct Tally {
    pub packets: usize,
    pub lost: usize,
    pub ticks: usize,
}

/// Whether a spot stands in another row.
fn is_off(row: u16, spot: &Spot) -> bool
    ensures { result ≡ is_off row spot.now }
{
    spot.row != row
}

/// The place of the first of these spots that stands in another row.
fn run_end(row: u16, spots: &[Spot]) -> Option<usize>
    ensures { result ≡ run_end row spots.now }
{
    spots.iter().position(|s| is_off(row, s))
}

/// The first of these spots that stand in a row.
pub(crate) fn run_of(row: u16, spots: &[Spot]) -> &[Spot]
    ensures { result.now ≡ run_of row spots.now }
{
    match run_end(row, spots) {
        Some(k) => &spots[..k],
        None => spots,
    }
}

/// Whether a row has several marks.
pub(crate) fn is_run(run: &[Spot]) -> bool
    ensures { result ≡ is_run run.now }
{
    run.len() > 1
}

fn is_lost(kind: MarkKind) -> bool
    ensures { result ≡ is_lost kind }
{
    match kind {
        MarkKind::Packet(Verdict::Lose) => true,
        _ => false,
    }
}

fn is_tick(kind: MarkKind) -> bool
    ensures { result ≡ is_tick kind }
{
    match kind {
        MarkKind::Tick => true,
        _ => false,
    }
}

/// Whether a column is of a link, or of any where none is named.
fn is_on(link: Option<u32>, column: Column) -> bool
    ensures { result ≡ is_on link column }
{
    match link {
        Some(link) => on_link(link, column),
        None => true,
    }
}

/// How many packets there are on a link, or on all.
fn packets_on(link: Option<u32>, run: &[Spot]) -> usize
    ensures { result ≡ packets_on link run.now }
{
    run.iter()
        .filter(|s| is_on(link, s.mark.column) && is_packet(s.mark.kind))
        .count()
}

/// How many of them were lost.
fn losses_on(link: Option<u32>, run: &[Spot]) -> usize
    ensures { result ≡ losses_on link run.now }
{
    run.iter()
        .filter(|s| is_on(link, s.mark.column) && is_lost(s.mark.kind))
        .count()
}

/// How many ticks there are.
fn ticks_on(link: Option<u32>, run: &[Spot]) -> usize
    ensures { result ≡ ticks_on link run.now }
{
    run.iter()
        .filter(|s| is_on(link, s.mark.column) && is_tick(s.mark.kind))
        .count()
}

/// What the marks of a row are, on a link or on all.
fn tally_of(link: Option<u32>, run: &[Spot]) -> Tally
    ensures { result ≡ tally_of link run.now }
{
    Tally {
        packets: packets_on(link, run),
        lost: losses_on(link, run),
        ticks: ticks_on(link, run),
    }
}

/// Adds how many there are behind words, unless there are none.
fn put_count(out: &mut Vec<u8>, count: usize, one: &[u8], several: &[u8]) -> Result<(), NoMemory>
    ensures { OnOk result (out.new.items
        ≡ with_count out.old.items count one.now several.now) }
{
    if count == 0 {
        return Ok(());
    }
    if !out.is_empty() {
        put_bytes(out, b" ")?;
    }
    put_number(out, count as u64)?;
    put_bytes(out, if count == 1 { one } else { several })
}

/// Adds a tally behind words, in words.
fn put_tally(out: &mut Vec<u8>, tally: Tally) -> Result<(), NoMemory>
    ensures { OnOk result (out.new.items ≡ with_tally out.old.items tally) }
{
    put_count(out, tally.packets, b" packet", b" packets")?;
    put_count(out, tally.lost, b" lost", b" lost")?;
    put_count(out, tally.ticks, b" tick", b" ticks")
}

/// A tally in letters, but for what was lost.
fn brief_tally(alloc: Global, tally: Tally) -> Result<Vec<u8>, NoMemory>
    ensures { IfOk result (λ words. words.items ≡ brief_tally tally) }
{
    let mut words = Vec::new(alloc);
    put_count(&mut words, tally.packets, b"p", b"p")?;
    put_count(&mut words, tally.lost, b" lost", b" lost")?;
    put_count(&mut words, tally.ticks, b"t", b"t")?;
    Ok(words)
}

/// Whether a tally counts things of several kinds.
fn is_mixed(tally: Tally) -> bool
    ensures { result ≡ is_mixed tally }
{
    tally.lost > 0 || (tally.packets > 0 && tally.ticks > 0)
}

/// A tally as there is room for in a lane.
fn lane_tally(alloc: Global, tally: Tally) -> Result<Vec<u8>, NoMemory>
    ensures { IfOk result (λ words. words.items ≡ lane_tally tally) }
{
    if is_mixed(tally) {
        return brief_tally(alloc, tally);
    }
    let mut words = Vec::new(alloc);
    put_tally(&mut words, tally)?;
    Ok(words)
}

/// How a tally looks.
fn tally_class(tally: Tally) -> Class
    ensures { result ≡ tally_class tally }
{
    if tally.lost > 0 {
        Class::WrongLabel
    } else {
        Class::Faint
    }
}

/// The tally of a lane in a row, where it counts something.
fn put_lane_tally(
    out: &mut Vec<Shape>,
    setting: &Setting,
    row: u16,
    link: &DrawnLink,
    tally: Tally,
) -> Result<(), NoMemory>
    requires { IsNarrow setting.now }
    ensures { OnOk result (out.new.items
        ≡ out.old.items ++ tally_shapes setting.now row link.now tally) }
{
    if tally.packets == 0 && tally.ticks == 0 {
        return Ok(());
    }
    let left = u32::from(lane_left(setting, link));
    let area = Area {
        corner: Point {
            x: left + 30,
            y: row_top(row) + 3,
        },
        width: 96,
        height: 12,
    };
    put_box(out, Class::Fold, area)?;
    let point = Point {
        x: left + 78,
        y: row_top(row) + 13,
    };
    let words = lane_tally(*out.allocator(), tally)?;
    put_words(out, tally_class(tally), Anchor::Middle, point, &words)
}

/// Of each lane its tally in a row.
pub(crate) fn put_fold(
    out: &mut Vec<Shape>,
    setting: &Setting,
    row: u16,
    run: &[Spot],
    links: &[DrawnLink],
) -> Result<(), NoMemory>
    requires narrow { IsNarrow setting.now }
    requires links { links.now ≡ setting.now.links }
    ensures { OnOk result (out.new.items
        ≡ out.old.items ++ fold_shapes setting.now row run.now) }
{
    for link in links {
        put_lane_tally(out, setting, row, link, tally_of(Some(link.link.0), run))?;
    }
    Ok(())
}

/// The step of the last of these marks.
fn last_step(run: &[Spot]) -> u64
    ensures { result ≡ last_step run.now }
{
    match run.last() {
        Some(spot) => spot.mark.line.step,
        None => 0,
    }
}

/// Adds the words of a row of several marks.
pub(crate) fn put_fold_words(out: &mut Vec<u8>, run: &[Spot]) -> Result<(), NoMemory>
    requires { out.old.items ≡ [] }
    ensures { OnOk result (out.new.items ≡ fold_words run.now) }
{
    put_bytes(out, b"to ")?;
    put_number(out, last_step(run))?;
    put_bytes(out, b":")?;
    put_tally(out, tally_of(None, run))
}
