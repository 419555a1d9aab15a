//! Lines of text as calls, each with what is answered.

use std::alloc::Global;
use std::mem;
use std::test::Fail;

/// The word in front, and what stands behind it.
pub fn front(text: &str) -> (&str, &str) {
    text.split_once(' ').unwrap_or((text, ""))
}

/// A call and what it answers, with an arrow between them, or with a colon where no arrow stands.
pub fn parted(line: &str) -> Result<(&str, &str), Fail> {
    let (call, wanted) = match line.split_once("->") {
        Some(parts) => parts,
        None => line.split_once(':').ok_or("no arrow and no colon")?,
    };
    Ok((call.trim(), wanted.trim()))
}

/// The call of a line is made, and must be answered by what stands behind it.
fn follow_line<C, A: Fn(Global, &mut C, &str) -> Result<String, Fail>>(
    alloc: Global,
    called: &mut C,
    answer: &A,
    line: &'static str,
) -> Result<(), Fail>
    requires { A.IsAlwaysCallable answer.now }
{
    let (call, wanted) = parted(line)?;
    let answer = answer(alloc, called, call)?;
    if answer.as_str() == wanted {
        Ok(())
    } else {
        Err(Fail::new(format_args!("{line}, and not {answer}")))
    }
}

/// The calls are made, one a line. It fails at the first that is answered otherwise.
pub fn follow<C, A: Fn(Global, &mut C, &str) -> Result<String, Fail>>(
    alloc: Global,
    called: &mut C,
    answer: &A,
    lines: &'static str,
) -> Result<(), Fail>
    requires { A.IsAlwaysCallable answer.now }
{
    for line in lines.lines() {
        follow_line(alloc, called, answer, line)?;
    }
    Ok(())
}

/// What is new is called so. It is never dropped, since to prove the drops of all that it has
/// takes longer than the tests.
pub fn follow_anew<C: Drop, A: Fn(Global, &mut C, &str) -> Result<String, Fail>>(
    alloc: Global,
    new: C,
    answer: &A,
    lines: &'static str,
) -> Result<(), Fail>
    requires { A.IsAlwaysCallable answer.now }
{
    let mut called = new;
    let outcome = follow(alloc, &mut called, answer, lines);
    mem::forget(called);
    outcome
}

/// Sections of lines, each behind a mark and a line that says what it shows. Each section is gone
/// through by something new.
pub fn follow_sections<
    C: Drop,
    N: Fn(Global) -> C,
    A: Fn(Global, &mut C, &str) -> Result<String, Fail>,
>(alloc: Global, new: &N, answer: &A, sections: &'static str) -> Result<(), Fail>
    requires makes { N.IsAlwaysCallable new.now }
    requires answers { A.IsAlwaysCallable answer.now }
{
    for section in sections.split("# ").skip(1) {
        let (_shows, lines) = section.split_once('\n').unwrap_or((section, ""));
        follow_anew(alloc, new(alloc), answer, lines.trim())?;
    }
    Ok(())
}
