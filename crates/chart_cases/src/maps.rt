//! The map of a small run: two actors of one node make eight steps.

use crate::charts::two_on_a_node;
use crate::windows::setting;
use chart_drawing::View;
use chart_map::map_in;
use std::test::Fail;

/// What stands in the map: how many steps there are; the first step in the second actor's strip and
/// the first row, the last one in the first actor's and the eighth row; and the two rare lines, that
/// the server closed and that a send was in vain.
const WITHIN: &[&str] = &[
    "<title>8 steps</title>",
    "<rect class=\"dot\" x=\"144\" y=\"88\" width=\"61\" height=\"3\"/>\n",
    "<rect class=\"dot\" x=\"80\" y=\"109\" width=\"61\" height=\"3\"/>\n",
    "<g class=\"rows\">\n<g class=\"row\" id=\"s6.2\">\n",
    "<g class=\"row\" id=\"s8\">\n",
    "</g>\n</g>\n<g class=\"front\">\n</g>\n</svg>\n",
];

#[test]
fn each_step_stands_in_its_strip_and_row(rt: HostRuntime) -> Result<(), Fail> {
    let journal = two_on_a_node(rt.alloc())?;
    let setting = setting(rt.alloc(), View::whole())?;
    let svg = map_in(rt.alloc(), &setting, b"", &journal)?;
    let text = std::str::from_utf8(&svg)?;
    for &within in WITHIN {
        assert!(rt; text.contains(within));
    }
    Ok(())
}
