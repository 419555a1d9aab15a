//! The charts of a small printed text, alone and behind its script: an actor sends to itself.

use chart_drawing::View;
use std::alloc::Global;
use std::test::Fail;
use text_charts::{ChartStop, Kind, chart};

const SCRIPT: &[u8] = b"node n\nactor client n\nopen a\nsend self 5\nrecv any\nend\n";

/// A script whose second line is none.
const NO_SCRIPT: &[u8] = b"node n\nactors client n\nopen a\nend\n";

const TEXT: &[u8] =
    b"journal 4\n1 A1 open a\n+ opened 1.1\n2 A1 send 1.1 5 - queued\n+ arrived 1.1 1.1 5 -\n3 A1 take any 2.1\n4 A1 ended\n+ closed 1.1\n";

/// A text that lacks its fourth line.
const CUT: &[u8] = b"journal 2\n1 A1 open a\n+ opened 1.1\n";

/// A text behind a script.
fn behind(alloc: Global, script: &[u8], text: &[u8]) -> Result<Vec<u8>, Fail> {
    let mut bytes = Vec::from_slice(alloc, script)?;
    bytes.extend_from_slice(b"text\n")?;
    bytes.extend_from_slice(text)?;
    Ok(bytes)
}

/// Whether bytes have a chart of a kind in which this stands.
fn has(alloc: Global, bytes: &[u8], kind: Kind, within: &str) -> bool {
    match chart(alloc, bytes, kind, View::whole()) {
        Ok(drawn) => match std::str::from_utf8(&drawn) {
            Ok(text) => text.contains(within),
            Err(_) => false,
        },
        Err(_) => false,
    }
}

/// Why bytes have no picture.
fn stop(alloc: Global, bytes: &[u8]) -> Option<ChartStop> {
    chart(alloc, bytes, Kind::Picture, View::whole()).err()
}

#[test]
fn a_text_behind_its_script_has_the_names_of_its_actors(rt: HostRuntime) -> Result<(), Fail> {
    let bytes = behind(rt.alloc(), SCRIPT, TEXT)?;
    assert!(rt; has(rt.alloc(), &bytes, Kind::Picture, ">client</text>"));
    Ok(())
}

#[test]
fn a_text_alone_has_their_numbers(rt: HostRuntime) -> Result<(), Fail> {
    assert!(rt; !has(rt.alloc(), TEXT, Kind::Picture, ">client</text>"));
    assert!(rt; has(rt.alloc(), TEXT, Kind::Picture, ">A1</text>"));
    Ok(())
}

#[test]
fn a_page_has_the_picture(rt: HostRuntime) -> Result<(), Fail> {
    let bytes = behind(rt.alloc(), SCRIPT, TEXT)?;
    assert!(rt; has(rt.alloc(), &bytes, Kind::Page, "<!DOCTYPE html>"));
    assert!(rt; has(rt.alloc(), &bytes, Kind::Page, ">client</text>"));
    Ok(())
}

#[test]
fn a_map_counts_the_steps(rt: HostRuntime) -> Result<(), Fail> {
    let bytes = behind(rt.alloc(), SCRIPT, TEXT)?;
    assert!(rt; has(rt.alloc(), &bytes, Kind::Map, "<title>4 steps</title>"));
    assert!(rt; has(rt.alloc(), &bytes, Kind::Map, ">client</text>"));
    Ok(())
}

#[test]
fn a_bad_line_of_the_script_is_named(rt: HostRuntime) -> Result<(), Fail> {
    let bytes = behind(rt.alloc(), NO_SCRIPT, TEXT)?;
    assert!(rt;
        matches!(
            stop(rt.alloc(), &bytes),
            Some(ChartStop::Bad { line: 2, .. })
        )
    );
    Ok(())
}

#[test]
fn the_lines_of_a_text_are_counted_from_its_first(rt: HostRuntime) -> Result<(), Fail> {
    let bytes = behind(rt.alloc(), SCRIPT, CUT)?;
    assert!(rt;
        matches!(
            stop(rt.alloc(), &bytes),
            Some(ChartStop::Unread { line: 4 })
        )
    );
    assert!(rt; matches!(stop(rt.alloc(), CUT), Some(ChartStop::Unread { line: 4 })));
    Ok(())
}
