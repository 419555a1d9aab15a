//! What is printed of a step's effects. Each line is an effect and the words of its line.

use crate::heads::is_printed;
use std::alloc::Global;
use std::test::Fail;

/// Whether the words behind an arrow are printed of the effect before it.
fn follows(alloc: Global, line: &str) -> Result<bool, Fail> {
    let (effect, wanted) = line.split_once(" -> ").ok_or("no arrow")?;
    let step = format!(in alloc; "1 close + {effect}")?;
    let text = format!(in alloc; "1 A1 close\n+ {wanted}\n")?;
    is_printed(alloc, step.as_str(), text.as_str())
}

const EFFECTS: &str = "opened 1.1 -> opened 1.1
    closed 1.2 -> closed 1.2
    arrived 1.1 1:1.1:2.1 1 00ff -> arrived 1.1 l:1.1:2.1 1 00ff
    found 1.1 1.3 251 - 3 -> found 1.1 1.3 251 - @3
    notified 1.1 1.3 252 00 9 closed -> notified 1.1 1.3 252 00 @9 closed
    notified 1.1 1:1.1:2.1 252 01 10 lost -> notified 1.1 l:1.1:2.1 252 01 @10 lost
    notified 1.1 1.3 252 02 11 dead -> notified 1.1 1.3 252 02 @11 dead
    met 1 1:1.1:2.1 b -> met n l:1.1:2.1 b
    gone 1 1:1.1:2.1 -> gone n l:1.1:2.1
    up 1 1 1.1 2.2 -> up n l 1.1 2.2
    down 1 1 1.1 -> down n l 1.1";

#[test]
fn effects_of_a_step(rt: HostRuntime) -> Result<(), Fail> {
    for line in EFFECTS.lines() {
        if !follows(rt.alloc(), line.trim())? {
            return Err(Fail::from(line));
        }
    }
    Ok(())
}
