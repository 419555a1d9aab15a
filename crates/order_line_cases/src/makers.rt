//! Lists of makers, and texts that list none.

use journal::By;
use linx_base::LinkNo;
use maker_words::{are_makers, makers_in};
use std::test::Fail;

/// Texts, and the makers that they list.
const LISTS: &[(&str, &[By])] = &[
    ("A3", &[By::Actor(3)]),
    ("P1", &[By::Pump(LinkNo(1))]),
    (
        "P2,A1,P2",
        &[By::Pump(LinkNo(2)), By::Actor(1), By::Pump(LinkNo(2))],
    ),
    ("A007,A4294967295", &[By::Actor(7), By::Actor(4294967295)]),
];

const OTHERS: &[&str] = &[
    "",
    ",",
    "A",
    "3",
    "A0",
    "P0",
    "a1",
    "B1",
    "A1,",
    ",A1",
    "A1,,A2",
    "A1, A2",
    "A-1",
    "A+1",
    "A1*2",
    "A4294967296",
];

#[test]
fn makers_of_lists(rt: HostRuntime) -> Result<(), Fail> {
    for &(text, wanted) in LISTS {
        let makers = makers_in(rt.alloc(), text)?;
        assert!(rt;
            matches!(&makers, Some(makers) if makers.as_slice() == wanted),
            "{text}"
        );
    }
    Ok(())
}

#[test]
fn texts_without_makers(rt: HostRuntime) -> Result<(), Fail> {
    for &text in OTHERS {
        assert!(rt; !are_makers(text), "{text}");
    }
    Ok(())
}
