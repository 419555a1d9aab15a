//! The log of one incarnation.
ghost use Rattle.std.specs.Prelude.{◌≡◌, ◌++◌, OnOk, OnErr};
ghost use Rattle.sha2.specs.Sha256.{sha256};
ghost use Rattle.journal_text.specs.Blocks.{log_text};

use crate::all_logs::{collect, write_block};
use crate::digests::{DigestBy, Digests};
use journal::Journal;
use linx_base::{Inc, NoMemory};

/// Appends the log of the incarnation. A refusal leaves the buffer as it was.
pub fn write_log(out: &mut Vec<u8>, journal: &Journal, inc: Inc) -> Result<(), NoMemory>
    ensures ok { OnOk result (out.new.items ≡ out.old.items ++ log_text sha256 journal.now.log inc) }
    ensures err { OnErr result (out.new.items ≡ out.old.items) }
{
    let alloc = *out.allocator();
    let logs = collect(alloc, journal, &Digests::none(alloc, DigestBy::Sha256))?;
    let mut block = Vec::new(alloc);
    write_block(&mut block, journal, &logs, inc)?;
    out.extend_from_slice(&block)?;
    Ok(())
}
