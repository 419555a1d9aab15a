//! How packets and ticks look in a lane.
ghost use Rattle.std.specs.Prelude.{◌≡◌, ◌++◌, [], ◌∷◌, OnOk};
ghost use Rattle.chart_drawing.specs.LaneMarks.{packet_class, packet_head_class, flight, lane_head};
ghost use Rattle.chart_drawing.specs.LaneMarks.{lost_shapes, swapped, packet_shapes, tick_shape};

use crate::cells::{in_lane, lane_line, lane_move, put_path};
use crate::spot::Spot;
use linx_base::{NoMemory, Verdict};
use svg_text::{Class, Shape, Stroke};

/// How a packet looks: dark where it brought something.
fn packet_class(spot: &Spot) -> Class
    ensures { result ≡ packet_class spot.now }
{
    if spot.told {
        Class::Told
    } else {
        Class::Packet
    }
}

fn packet_head_class(spot: &Spot) -> Class
    ensures { result ≡ packet_head_class spot.now }
{
    if spot.told {
        Class::ToldHead
    } else {
        Class::PacketHead
    }
}

/// From one rail to the other.
fn put_flight(out: &mut Vec<Shape>, spot: &Spot) -> Result<(), NoMemory>
    ensures { OnOk result (out.new.items ≡ out.old.items ++ flight spot.now ∷ []) }
{
    let strokes = [lane_move(spot, 28, 9), lane_line(spot, 128, 9)];
    put_path(out, packet_class(spot), &strokes)
}

/// An arrow's head with its tip so far along.
fn put_head(out: &mut Vec<Shape>, spot: &Spot, base: u16, tip: u16) -> Result<(), NoMemory>
    ensures { OnOk result (out.new.items ≡ out.old.items ++ lane_head spot.now base tip ∷ []) }
{
    let strokes = [
        lane_move(spot, tip, 9),
        lane_line(spot, base, 5),
        lane_line(spot, base, 13),
        Stroke::Close,
    ];
    put_path(out, packet_head_class(spot), &strokes)
}

/// A packet that is lost halfway.
fn put_lost(out: &mut Vec<Shape>, spot: &Spot) -> Result<(), NoMemory>
    ensures { OnOk result (out.new.items ≡ out.old.items ++ lost_shapes spot.now) }
{
    let way = [lane_move(spot, 28, 9), lane_line(spot, 72, 9)];
    put_path(out, Class::Packet, &way)?;
    let cross = [
        lane_move(spot, 74, 5),
        lane_line(spot, 82, 13),
        lane_move(spot, 82, 5),
        lane_line(spot, 74, 13),
    ];
    put_path(out, Class::Wrong, &cross)
}

/// A packet that changes its place.
fn put_swapped(out: &mut Vec<Shape>, spot: &Spot) -> Result<(), NoMemory>
    ensures { OnOk result (out.new.items ≡ out.old.items ++ swapped spot.now ∷ []) }
{
    let strokes = [
        lane_move(spot, 28, 5),
        Stroke::Curve(
            in_lane(spot, 78, 5),
            in_lane(spot, 58, 13),
            in_lane(spot, 78, 13),
        ),
        lane_move(spot, 28, 13),
        Stroke::Curve(
            in_lane(spot, 78, 13),
            in_lane(spot, 58, 5),
            in_lane(spot, 78, 5),
        ),
    ];
    put_path(out, Class::Told, &strokes)
}

/// A packet, by what became of it.
pub(crate) fn put_packet(
    out: &mut Vec<Shape>,
    spot: &Spot,
    verdict: Verdict,
) -> Result<(), NoMemory>
    ensures { OnOk result (out.new.items ≡ out.old.items ++ packet_shapes spot.now verdict) }
{
    match verdict {
        Verdict::Deliver => {
            put_flight(out, spot)?;
            put_head(out, spot, 120, 128)
        }
        Verdict::Lose => put_lost(out, spot),
        Verdict::Repeat => {
            put_flight(out, spot)?;
            put_head(out, spot, 120, 128)?;
            put_head(out, spot, 111, 119)
        }
        Verdict::Swap(_) => put_swapped(out, spot),
    }
}

/// A tick of a side's clock.
pub(crate) fn put_tick(out: &mut Vec<Shape>, spot: &Spot) -> Result<(), NoMemory>
    ensures { OnOk result (out.new.items ≡ out.old.items ++ tick_shape spot.now ∷ []) }
{
    let strokes = [
        lane_move(spot, 20, 9),
        lane_line(spot, 34, 9),
        lane_move(spot, 34, 6),
        lane_line(spot, 34, 12),
    ];
    put_path(out, packet_class(spot), &strokes)
}
