//! What is done to a link or a node: a band over a lane while its link is cut, and a line across the
//! box of a node that restarts.
ghost use Rattle.std.specs.Prelude.{◌≡◌, ◌++◌, [], ◌∷◌, flat_map, OnOk};
ghost use Rattle.std.specs.Option.{option_copied};
ghost use Rattle.chart_drawing.specs.Layout.{IsNarrow};
ghost use Rattle.chart_drawing.specs.Bands.{is_mend_of, mend_of, cut_shapes, restart_shapes};
ghost use Rattle.chart_drawing.specs.Bands.{band_of, bands_of};

use crate::bars::reach;
use crate::cells::{put_box, put_path, row_top};
use crate::columns::{column_left, link_of, node_of};
use crate::layout::{box_left, box_width};
use crate::setting::Setting;
use crate::spot::Spot;
use chart::{Column, MarkKind};
use linx_base::{LinkNo, NoMemory, NodeNo, Side};
use svg_text::{Area, Class, Point, Shape, Stroke};

/// Whether a mark mends a link.
fn is_mend_of(link: LinkNo, kind: MarkKind) -> bool
    ensures { result ≡ is_mend_of link kind }
{
    match kind {
        MarkKind::Mend(mended) => mended.0 == link.0,
        _ => false,
    }
}

/// The first mark below that mends a link.
fn mend_of<'a>(link: LinkNo, cut: &Spot, spots: &'a [Spot]) -> Option<&'a Spot>
    ensures { option_copied result ≡ mend_of link cut.now spots.now }
{
    spots.iter().find(|s| cut.mark.line.step < s.mark.line.step && is_mend_of(link, s.mark.kind))
}

/// The band of a link that is cut, where it has a lane and a height.
fn put_cut(
    out: &mut Vec<Shape>,
    setting: &Setting,
    rows: u16,
    link: LinkNo,
    cut: &Spot,
    mend: Option<&Spot>,
) -> Result<(), NoMemory>
    requires { IsNarrow setting.now }
    ensures { OnOk result (out.new.items ≡ out.old.items
        ++ cut_shapes setting.now rows link cut.now (option_copied mend.entry)) }
{
    let height = reach(rows, cut, mend);
    if height == 0 || link_of(setting, link.0).is_none() {
        return Ok(());
    }
    let left = column_left(setting, Column::Lane(link, Side::First));
    let area = Area {
        corner: Point {
            x: u32::from(left),
            y: row_top(cut.row) + 9,
        },
        width: 156,
        height,
    };
    put_box(out, Class::Cut, area)
}

/// The line across the box of a node that restarts, where the mark is seen and there is that box.
fn put_restart(
    out: &mut Vec<Shape>,
    setting: &Setting,
    node: NodeNo,
    spot: &Spot,
) -> Result<(), NoMemory>
    requires { IsNarrow setting.now }
    ensures { OnOk result (out.new.items
        ≡ out.old.items ++ restart_shapes setting.now node spot.now) }
{
    if !spot.seen || node_of(setting, node.0).is_none() {
        return Ok(());
    }
    let left = u32::from(box_left(setting, node.0));
    let width = u32::from(box_width(setting, node.0));
    let y = row_top(spot.row) + 9;
    let strokes = [
        Stroke::Move(Point { x: left, y }),
        Stroke::Line(Point { x: left + width, y }),
    ];
    put_path(out, Class::Restart, &strokes)
}

/// What a mark does to a link or a node.
fn put_band(
    out: &mut Vec<Shape>,
    setting: &Setting,
    rows: u16,
    spots: &[Spot],
    spot: &Spot,
) -> Result<(), NoMemory>
    requires { IsNarrow setting.now }
    ensures { OnOk result (out.new.items ≡ out.old.items
        ++ band_of setting.now rows spots.now spot.now.mark.kind spot.now) }
{
    match spot.mark.kind {
        MarkKind::Cut(link) => {
            put_cut(out, setting, rows, link, spot, mend_of(link, spot, spots))
        }
        MarkKind::Restart(node) => put_restart(out, setting, node, spot),
        _ => Ok(()),
    }
}

/// What is done to links and nodes.
pub(crate) fn put_bands(
    out: &mut Vec<Shape>,
    setting: &Setting,
    rows: u16,
    spots: &[Spot],
) -> Result<(), NoMemory>
    requires { IsNarrow setting.now }
    ensures { OnOk result (out.new.items
        ≡ out.old.items ++ bands_of setting.now rows spots.now) }
{
    for spot in spots {
        put_band(out, setting, rows, spots, spot)?;
    }
    Ok(())
}
