//! A text compared with the logs of its journal, one block after the other.
ghost use Rattle.std.specs.Prelude.{◌≡◌, ◌==◌, ◌≤◌, ◌++◌, filter, List, ℕ, codes, length, flat_map, IfOk};
ghost use Rattle.journal_text.specs.Blocks.{log_text, logs_text};
ghost use Rattle.journal_text.specs.Collected.{AreLogs, opened_log};
ghost use Rattle.journal_text.specs.Values.{first_bytes};
ghost use Rattle.text_logs.specs.First.{alike, line_at, first_other, front_of};
ghost use Rattle.text_logs.specs.Begun.{IsBegun};

use journal::{Effect, Journal};
use journal_text::{Logs, logs_again, write_log_title};
use linx_base::{Inc, NoMemory};
use std::alloc::Global;

/// How many bytes of a text are as expected so far, and whether the next one is another.
#[derive(Clone, Copy)]
struct Begun {
    alike: usize,
    apart: bool,
}

/// How many bytes two texts begin with alike.
fn alike(text: &[u8], other: &[u8]) -> usize
    ensures same { result ≡ alike text.now other.now }
    ensures within { result ≤ length text.now }
{
    for index in 0..other.len() {
        if index >= text.len() || text[index] != other[index] {
            return index;
        }
    }
    other.len()
}

/// How many line feeds there are.
#[tactic(auto, using(crate::proofs::Counts::filter_short))]
fn line_feeds(bytes: &[u8]) -> usize
    ensures count { result ≡ length (filter (λ b. b == 10) bytes.now) }
    ensures within { result ≤ length bytes.now }
{
    bytes.iter().filter(|byte| **byte == b'\n').count()
}

/// The line that the byte behind so many stands in.
fn line_at(text: &[u8], count: usize) -> u64
    requires { count ≤ length text.now }
    ensures { result ≡ line_at text.now count }
{
    line_feeds(&text[..count]) as u64 + 1
}

/// Expects a piece behind what was expected so far.
fn expect(text: &[u8], begun: Begun, piece: &[u8]) -> Begun
    requires { begun.alike ≤ length text.now }
    ensures within { result.alike ≤ length text.now }
    ensures begun { (so_far : List ℕ) → IsBegun text.now so_far begun
        → IsBegun text.now (so_far ++ piece.now) result }
{
    if begun.apart {
        return begun;
    }
    let more = alike(&text[begun.alike..], piece);
    Begun {
        alike: begun.alike + more,
        apart: more < piece.len(),
    }
}

/// Expects the log of an incarnation.
#[tactic(auto, unfolding(journal_text::specs::Blocks::log_text))]
fn expect_log(
    alloc: Global,
    text: &[u8],
    begun: Begun,
    journal: &Journal,
    logs: &Logs,
    inc: Inc,
) -> Result<Begun, NoMemory>
    requires within { begun.alike ≤ length text.now }
    requires logs { AreLogs first_bytes journal.now.log logs.now }
    ensures within { IfOk result (λ next. next.alike ≤ length text.now) }
    ensures begun { IfOk result (λ next. (so_far : List ℕ) → IsBegun text.now so_far begun
        → IsBegun text.now (so_far ++ log_text first_bytes journal.now.log inc) next) }
{
    let mut title = Vec::new(alloc);
    write_log_title(&mut title, journal, logs, inc)?;
    let titled = expect(text, begun, &title);
    Ok(expect(text, titled, logs.lines(inc)))
}

/// Expects the log of the incarnation that an effect opens.
fn expect_opened(
    alloc: Global,
    text: &[u8],
    begun: Begun,
    journal: &Journal,
    logs: &Logs,
    effect: &Effect,
) -> Result<Begun, NoMemory>
    requires within { begun.alike ≤ length text.now }
    requires logs { AreLogs first_bytes journal.now.log logs.now }
    ensures within { IfOk result (λ next. next.alike ≤ length text.now) }
    ensures begun { IfOk result (λ next. (so_far : List ℕ) → IsBegun text.now so_far begun
        → IsBegun text.now (so_far ++ opened_log first_bytes journal.now.log effect.now) next) }
{
    match effect {
        Effect::Opened(inc) => expect_log(alloc, text, begun, journal, logs, *inc),
        _ => Ok(begun),
    }
}

/// Expects the logs of the incarnations that effects open.
fn expect_all_opened(
    alloc: Global,
    text: &[u8],
    begun: Begun,
    journal: &Journal,
    logs: &Logs,
    effects: &[Effect],
) -> Result<Begun, NoMemory>
    requires within { begun.alike ≤ length text.now }
    requires logs { AreLogs first_bytes journal.now.log logs.now }
    ensures within { IfOk result (λ next. next.alike ≤ length text.now) }
    ensures begun { IfOk result (λ next. (so_far : List ℕ) → IsBegun text.now so_far begun
        → IsBegun text.now (so_far ++ flat_map (opened_log first_bytes journal.now.log)
        effects.now) next) }
{
    let mut next = begun;
    for effect in effects {
        next = expect_opened(alloc, text, next, journal, logs, effect)?;
    }
    Ok(next)
}

/// Expects all logs, from the text's first byte on.
fn expect_logs(
    alloc: Global,
    text: &[u8],
    journal: &Journal,
    logs: &Logs,
) -> Result<Begun, NoMemory>
    requires { AreLogs first_bytes journal.now.log logs.now }
    ensures within { IfOk result (λ next. next.alike ≤ length text.now) }
    ensures begun { IfOk result (λ next.
        IsBegun text.now (logs_text first_bytes journal.now.log) next) }
{
    let mut next = Begun {
        alike: 0,
        apart: false,
    };
    for done in 0..journal.len() {
        let effects = journal.step_after(done).effects.as_slice();
        next = expect_all_opened(alloc, text, next, journal, logs, effects)?;
    }
    Ok(next)
}

/// The first line, from 1, in which the front of a text, up to its line `journal N`, is another than
/// the logs of the journal that was read of it, printed by the first bytes of long data; none where
/// the front is these logs.
pub fn first_other(alloc: Global, text: &[u8], journal: &Journal) -> Result<Option<u64>, NoMemory>
    ensures { IfOk result (λ line. line ≡ first_other text.now (front_of journal.now.log)) }
{
    if journal.is_empty() {
        return Ok(None);
    }
    let logs = logs_again(alloc, journal)?;
    let begun = expect_logs(alloc, text, journal, &logs)?;
    let whole = expect(text, begun, b"journal ");
    if whole.apart {
        Ok(Some(line_at(text, whole.alike)))
    } else {
        Ok(None)
    }
}
