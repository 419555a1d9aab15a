ghost use Rattle.std.specs.Prelude.{◌≡◌, ℕ, ◌-◌, ◌≤◌, [], IsOk, OnOk, OnErr, length};
ghost use Rattle.linx_outside.specs.Counts.{HasFaulted, NeverFalls};
ghost use Rattle.std.specs.Io.KnownBytes.{Appends};
ghost use Rattle.linx_outside.specs.Told.{AppendsFront};

use crate::sink::{Sink, WriteAnswer};
use std::error::Error;
use std::fmt;

/// A write failed, and the sink counted it.
#[derive(Clone, Copy, Debug, PartialEq, Eq, Hash)]
pub struct WriteFault;

impl fmt::Display for WriteFault {
    ghost use Rattle.std.specs.Prelude.{Some};
    ghost use Rattle.linx_outside.specs.Failures.{write_fault_text};

    ghost output = { λ _. Some write_fault_text };

    fn fmt<W: fmt::Write>(&self, f: &mut fmt::Formatter<W>) -> fmt::Result {
        f.write_str("write fault")
    }
}

impl Error for WriteFault {}

/// Writes all the bytes, in as many pieces as the sink makes of them; no bytes are no write. After
/// a fault some first bytes of them have been taken, and not all.
pub fn write_all<K: Sink>(out: &mut K, bytes: &[u8]) -> Result<(), WriteFault>
    ensures taken { OnOk result (Appends (K.held out.old) (K.held out.new) bytes.now) }
    ensures counts_nothing { OnOk result (K.faults out.new ≡ K.faults out.old) }

    ensures front_taken { OnErr result (AppendsFront (K.held out.old) (K.held out.new) bytes.now) }
    ensures faulted { OnErr result
        (HasFaulted K.last_count (K.faults out.old) (K.faults out.new)) }

    ensures nothing { bytes.now ≡ [] → out.new ≡ out.old }
    ensures never_falls { NeverFalls K.last_count (K.faults out.old) (K.faults out.new) }
    ensures takes { (room : ℕ) → K.can_take out.old room → length bytes.now ≤ room
        → IsOk result × K.can_take out.new (room - length bytes.now) }
{
    let mut done = 0;
    'pieces: while done < bytes.len() {
        match out.write(&bytes[done..]) {
            WriteAnswer::Took(count) => done += count,
            WriteAnswer::Failed => return Err(WriteFault),
        }
    }
    Ok(())
}
