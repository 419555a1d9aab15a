//! `chart`: the picture of a printed text.

ghost use Rattle.std.specs.Prelude.{◌≡◌, ◌≢◌, Ok, Err, IfErr, IfOk, option_map};
ghost use Rattle.text_charts.specs.declared.stop.ChartStop.TheVariants.{NoMemory as OutOfMemory};
ghost use Rattle.linx_commands.specs.Charts.{IsChartEnd, chart_by, chart_status, kind_of, makers_in};
ghost use Rattle.linx_commands.specs.Charts.{steps_in, view_of};
ghost use Rattle.linx_commands.specs.Printed.{IsTextDone};
ghost use Rattle.linx_commands.specs.Streams.{Writes};
ghost use Rattle.linx_commands.specs.Works.{Ends};

use crate::outcome::{Outcome, Status, TextFault};
use crate::printed::TEXT_MOST;
use crate::serving::{unstarted, write_text};
use chart_drawing::{Steps, View};
use command_words::{Drawn, Kind, Range};
use journal::By;
use linx_base::{NoMemory, Sequence};
use linx_outside::Sink;
use std::alloc::Global;
use text_charts::{ChartStop, Kind as ChartKind};

/// The steps of a range.
fn steps_in(range: Range) -> Steps
    ensures { result ≡ steps_in range }
{
    let first = u64::from(range.first);
    Steps {
        first,
        last: first + u64::from(range.more),
    }
}

/// The makers that a word lists, if one does.
fn makers_in(alloc: Global, listed: Option<&str>) -> Result<Option<Sequence<By>>, NoMemory>
    ensures { IfOk result (λ makers.
        makers ≡ makers_in (option_map (λ word. word.now) listed.entry)) }
{
    match listed {
        Some(word) => maker_words::makers_in(alloc, word),
        None => Ok(None),
    }
}

/// What of a chart is asked for, by words of which one may list makers.
fn view_of(alloc: Global, drawn: Drawn, listed: Option<&str>) -> Result<View, NoMemory>
    ensures { IfOk result (λ view.
        view ≡ view_of drawn (option_map (λ word. word.now) listed.entry)) }
{
    Ok(View {
        plain: drawn.plain,
        fold: drawn.fold,
        steps: match drawn.steps {
            Some(range) => Some(steps_in(range)),
            None => None,
        },
        of: makers_in(alloc, listed)?,
    })
}

/// What a run is drawn as.
fn kind_of(kind: Kind) -> ChartKind
    ensures { result ≡ kind_of kind }
{
    match kind {
        Kind::Picture => ChartKind::Picture,
        Kind::Page => ChartKind::Page,
        Kind::Map => ChartKind::Map,
    }
}

/// The chart that is asked for, of these bytes.
fn chart_by(
    alloc: Global,
    drawn: Drawn,
    listed: Option<&str>,
    bytes: &[u8],
) -> Result<Vec<u8>, ChartStop>
    ensures drawn { IfOk result (λ text.
        chart_by drawn (option_map (λ word. word.now) listed.entry) bytes.now ≡ Ok text.items) }
    ensures stopped { IfErr result (λ stop. stop ≢ OutOfMemory
        → chart_by drawn (option_map (λ word. word.now) listed.entry) bytes.now ≡ Err stop) }
{
    let view = view_of(alloc, drawn, listed)?;
    text_charts::chart(alloc, bytes, kind_of(drawn.kind), view)
}

/// How a chart ends that isn't drawn.
fn status_of_chart(stop: ChartStop) -> Status
    ensures { result ≡ chart_status stop }
{
    match stop {
        ChartStop::Bad { line, fault } => Status::Script { line, fault },
        ChartStop::Unread { line } => Status::Text(TextFault::Bad { line }),
        ChartStop::Full { line } => Status::Text(TextFault::Full { line }),
        ChartStop::TooLong => Status::Text(TextFault::Rows),
        ChartStop::TooWide => Status::Text(TextFault::Lanes),
        ChartStop::NoMemory => Status::NoMemory,
    }
}

/// The chart of a printed text goes to the sink, behind whose script it may stand.
pub(crate) fn chart<K: Sink>(
    alloc: Global,
    drawn: Drawn,
    listed: Option<&str>,
    bytes: &[u8],
    out: &mut K,
) -> Outcome
    ensures { Ends (IsTextDone
        (IsChartEnd drawn (option_map (λ word. word.now) listed.entry) bytes.now))
        (λ written. Writes K.held K.faults K.last_count K.can_take out.old out.new
        result.status written)
        result.status result.journal.log }
{
    if bytes.len() > TEXT_MOST {
        return unstarted(alloc, Status::Text(TextFault::Long));
    }
    match chart_by(alloc, drawn, listed, bytes) {
        Ok(text) => unstarted(alloc, write_text(text.as_slice(), out)),
        Err(stop) => unstarted(alloc, status_of_chart(stop)),
    }
}
