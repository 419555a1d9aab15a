//! How large the picture of a view is, and how many rows it has: of a run of 13 lines, in which two
//! actors of one node make eight steps. What the rows of a folded run say, of eight steps, most of them
//! of a link.

use crate::charts::two_on_a_node;
use chart::{Column, Mark, MarkKind, all_marks, all_ties};
use chart_drawing::{Chart, DrawnActor, DrawnNode, Setting, Steps, View, draw};
use journal::By;
use linx_base::{Blob, ItemAt, LinkNo, NodeNo, Sequence, Side, Verdict};
use std::alloc::Global;
use std::test::Fail;
use svg_text::Picture;

/// A view, and what its picture has.
#[derive(Clone, Copy)]
struct Case {
    plain: bool,
    steps: Option<Steps>,
    of: Option<By>,
    width: u32,
    height: u32,
    rows: usize,
}

/// The whole; the same without lines; a window of both actors, below others; one of the first actor
/// alone; and one behind the last step. What is of the first actor, who sends to the second one; what
/// is of the second one in some steps; and what is of a link that there isn't.
const CASES: &[Case] = &[
    Case {
        plain: false,
        steps: None,
        of: None,
        width: 364 + 34 + 2 * 168 + 10,
        height: 78 + 13 * 18 + 24,
        rows: 13,
    },
    Case {
        plain: true,
        steps: None,
        of: None,
        width: 60 + 34 + 2 * 168 + 10,
        height: 78 + 13 * 18 + 24,
        rows: 13,
    },
    Case {
        plain: false,
        steps: Some(Steps { first: 3, last: 4 }),
        of: None,
        width: 364 + 34 + 2 * 168 + 10,
        height: 78 + 4 * 18 + 24,
        rows: 3,
    },
    Case {
        plain: false,
        steps: Some(Steps { first: 7, last: 8 }),
        of: None,
        width: 364 + 34 + 168 + 10,
        height: 78 + 3 * 18 + 24,
        rows: 2,
    },
    Case {
        plain: true,
        steps: Some(Steps { first: 9, last: 20 }),
        of: None,
        width: 60 + 10,
        height: 78 + 18 + 24,
        rows: 0,
    },
    Case {
        plain: true,
        steps: None,
        of: Some(By::Actor(1)),
        width: 60 + 34 + 2 * 168 + 10,
        height: 78 + 8 * 18 + 24,
        rows: 8,
    },
    Case {
        plain: true,
        steps: Some(Steps { first: 4, last: 8 }),
        of: Some(By::Actor(2)),
        width: 60 + 34 + 2 * 168 + 10,
        height: 78 + 6 * 18 + 24,
        rows: 5,
    },
    Case {
        plain: true,
        steps: None,
        of: Some(By::Pump(LinkNo(1))),
        width: 60 + 10,
        height: 78 + 24,
        rows: 0,
    },
];

fn actor(alloc: Global, number: u32) -> Result<DrawnActor, Fail> {
    Ok(DrawnActor {
        actor: number,
        node: NodeNo(1),
        caption: Blob::of(alloc, b"a")?,
        subcaption: Blob::of(alloc, b"A1")?,
    })
}

pub(crate) fn setting(alloc: Global, view: View) -> Result<Setting, Fail> {
    let node = DrawnNode {
        node: NodeNo(1),
        name: Blob::of(alloc, b"n")?,
    };
    let mut actors = Sequence::one(alloc, actor(alloc, 1)?)?;
    actors.push(actor(alloc, 2)?)?;
    Ok(Setting {
        view,
        nodes: Sequence::one(alloc, node)?,
        links: Sequence::new(alloc),
        actors,
    })
}

fn chart(alloc: Global) -> Result<Chart, Fail> {
    let journal = two_on_a_node(alloc)?;
    Ok(Chart {
        marks: all_marks(alloc, &journal)?,
        ties: all_ties(alloc, &journal)?,
        lines: Sequence::new(alloc),
    })
}

fn makers(alloc: Global, of: Option<By>) -> Result<Option<Sequence<By>>, Fail> {
    match of {
        Some(maker) => Ok(Some(Sequence::one(alloc, maker)?)),
        None => Ok(None),
    }
}

/// A mark of a link's step, or of an effect of it at a rail.
fn of_link(step: u64, place: u64, kind: MarkKind) -> Mark {
    let link = LinkNo(1);
    Mark {
        line: ItemAt { step, place },
        column: if place == 0 {
            Column::Lane(link, Side::First)
        } else {
            Column::Rail(link, NodeNo(1))
        },
        kind,
        by: By::Pump(link),
        to: Column::Nowhere,
    }
}

/// Three steps of a link without effects, one with an effect, one without, a step of an actor, and two
/// of the link.
fn marks_over_a_link(alloc: Global) -> Result<Sequence<Mark>, Fail> {
    let mut marks = Sequence::one(alloc, of_link(1, 0, MarkKind::Tick))?;
    marks.push(of_link(2, 0, MarkKind::Packet(Verdict::Deliver)))?;
    marks.push(of_link(3, 0, MarkKind::Packet(Verdict::Lose)))?;
    marks.push(of_link(4, 0, MarkKind::Packet(Verdict::Deliver)))?;
    marks.push(of_link(4, 1, MarkKind::Up))?;
    marks.push(of_link(5, 0, MarkKind::Tick))?;
    marks.push(of_link(6, 0, MarkKind::Waits))?;
    marks.push(of_link(7, 0, MarkKind::Packet(Verdict::Repeat)))?;
    marks.push(of_link(8, 0, MarkKind::Packet(Verdict::Swap(2))))?;
    Ok(marks)
}

/// The titles of the rows, a line for each.
fn titles(alloc: Global, picture: &Picture) -> Result<Vec<u8>, Fail> {
    let mut text = Vec::new(alloc);
    for row in picture.rows.as_slice() {
        text.extend_from_slice(row.title.bytes())?;
        text.push(b'\n')?;
    }
    Ok(text)
}

#[test]
fn a_run_of_quiet_steps_is_one_row(rt: HostRuntime) -> Result<(), Fail> {
    let chart = Chart {
        marks: marks_over_a_link(rt.alloc())?,
        ties: Sequence::new(rt.alloc()),
        lines: Sequence::new(rt.alloc()),
    };
    let mut view = View::whole();
    view.fold = true;
    let picture = draw(rt.alloc(), setting(rt.alloc(), view)?, &chart)?;
    let text = titles(rt.alloc(), &picture)?;
    let wanted = "1 to 3: 2 packets 1 lost 1 tick\n4 \n4 \n5 \n6 \n7 to 8: 2 packets\n";
    assert_eq!(rt; std::str::from_utf8(&text)?, wanted);
    Ok(())
}

#[test]
fn a_window_has_the_rows_and_columns_of_its_steps(rt: HostRuntime) -> Result<(), Fail> {
    let chart = chart(rt.alloc())?;
    for &case in CASES {
        let view = View {
            plain: case.plain,
            fold: false,
            steps: case.steps,
            of: makers(rt.alloc(), case.of)?,
        };
        let picture = draw(rt.alloc(), setting(rt.alloc(), view)?, &chart)?;
        assert_eq!(rt; picture.width, case.width);
        assert_eq!(rt; picture.height, case.height);
        assert_eq!(rt; picture.rows.len(), case.rows);
    }
    Ok(())
}
