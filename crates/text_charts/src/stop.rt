//! Why bytes have no chart.

use linx_base::NoMemory;
use script_lang::Fault;

/// Why bytes have no chart.
#[derive(Clone, Copy, Debug, PartialEq, Eq)]
pub enum ChartStop {
    /// What stands before the line `text` is no script: its first bad line, from 1, and what is wrong
    /// with it.
    Bad { line: u32, fault: Fault },
    /// The text is no printed text: its first bad line, from the text's first one as 1.
    Unread { line: u64 },
    /// The first line, from the text's first one as 1, with which the text tells more signals than may
    /// be read.
    Full { line: u64 },
    /// A picture would have more than 6,000 rows.
    TooLong,
    /// It would have more than 64 nodes, links or actors.
    TooWide,
    NoMemory,
}

impl From<NoMemory> for ChartStop {
    ghost use Rattle.std.specs.Prelude.{◌≡◌};
    ghost use Rattle.text_charts.specs.declared.stop.ChartStop.TheVariants.{NoMemory};

    ghost from_gives = { λ _ stop. stop ≡ NoMemory };

    fn from(_refusal: NoMemory) -> ChartStop {
        ChartStop::NoMemory
    }
}
