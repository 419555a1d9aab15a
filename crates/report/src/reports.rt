//! The text and the summary of a journal, written to a sink.
ghost use Rattle.std.specs.Prelude.{◌≡◌, length, OnOk, IfErr};
ghost use Rattle.std.specs.Io.KnownBytes.{Appends};
ghost use Rattle.linx_outside.specs.Counts.{HasFaulted, NeverFalls};
ghost use Rattle.linx_outside.specs.Told.{AppendsFront};
ghost use Rattle.journal_text.specs.Text.{text_of};
ghost use Rattle.report.specs.Summary.{summary_of};
ghost use Rattle.report.specs.declared.reports.ReportError.TheVariants as errors;

use crate::summary::summary;
use journal::Journal;
use linx_base::NoMemory;
use linx_outside::{Sink, WriteFault, write_all};
use std::alloc::Global;
use std::error::Error;
use std::fmt;

/// Why a report wasn't written to its end.
#[derive(Clone, Copy, Debug, PartialEq, Eq, Hash)]
pub enum ReportError {
    /// A write failed, and the sink counted it.
    WriteFault,
    NoMemory,
}

impl fmt::Display for ReportError {
    ghost use Rattle.std.specs.Prelude.{Some};
    ghost use Rattle.report.specs.Failures.{report_error_text};

    ghost output = { λ error. Some (report_error_text error) };

    fn fmt<W: fmt::Write>(&self, f: &mut fmt::Formatter<W>) -> fmt::Result {
        f.write_str(match self {
            ReportError::WriteFault => "write fault",
            ReportError::NoMemory => "out of memory",
        })
    }
}

impl Error for ReportError {}

impl From<NoMemory> for ReportError {
    ghost from_gives = { λ _ e. e ≡ errors.NoMemory };

    fn from(_refusal: NoMemory) -> ReportError {
        ReportError::NoMemory
    }
}

impl From<WriteFault> for ReportError {
    ghost from_gives = { λ _ e. e ≡ errors.WriteFault };

    fn from(_fault: WriteFault) -> ReportError {
        ReportError::WriteFault
    }
}

/// Writes the text of the journal. A fault comes only where the sink's count rose, or stands at its
/// last value; some first bytes of the text were written then. Want of memory leaves the sink as it
/// was.
pub fn write_report<K: Sink>(
    alloc: Global,
    journal: &Journal,
    out: &mut K,
) -> Result<(), ReportError>
    ensures written { OnOk result
        (Appends (K.held out.old) (K.held out.new) (text_of journal.now.log)) }
    ensures counts_nothing { OnOk result (K.faults out.new ≡ K.faults out.old) }

    ensures front { IfErr result (λ e. e ≡ ReportError.WriteFault
        → AppendsFront (K.held out.old) (K.held out.new) (text_of journal.now.log)) }
    ensures faulted { IfErr result (λ e. e ≡ ReportError.WriteFault
        → HasFaulted K.last_count (K.faults out.old) (K.faults out.new)) }
    ensures no_memory { IfErr result (λ e. e ≡ ReportError.NoMemory → out.new ≡ out.old) }

    ensures never_falls { NeverFalls K.last_count (K.faults out.old) (K.faults out.new) }
    ensures takes { K.can_take out.old (length (text_of journal.now.log))
        → IfErr result (λ e. e ≡ ReportError.NoMemory) }
{
    let text = journal_text::text(alloc, journal)?;
    write_all(out, &text)?;
    Ok(())
}

/// Writes the summary of the journal. Faults, and want of memory, are as in `write_report`.
pub fn write_summary<K: Sink>(
    alloc: Global,
    journal: &Journal,
    out: &mut K,
) -> Result<(), ReportError>
    ensures written { OnOk result
        (Appends (K.held out.old) (K.held out.new) (summary_of journal.now.log)) }
    ensures counts_nothing { OnOk result (K.faults out.new ≡ K.faults out.old) }

    ensures front { IfErr result (λ e. e ≡ ReportError.WriteFault
        → AppendsFront (K.held out.old) (K.held out.new) (summary_of journal.now.log)) }
    ensures faulted { IfErr result (λ e. e ≡ ReportError.WriteFault
        → HasFaulted K.last_count (K.faults out.old) (K.faults out.new)) }
    ensures no_memory { IfErr result (λ e. e ≡ ReportError.NoMemory → out.new ≡ out.old) }

    ensures never_falls { NeverFalls K.last_count (K.faults out.old) (K.faults out.new) }
    ensures takes { K.can_take out.old (length (summary_of journal.now.log))
        → IfErr result (λ e. e ≡ ReportError.NoMemory) }
{
    let lines = summary(alloc, journal)?;
    write_all(out, &lines)?;
    Ok(())
}
