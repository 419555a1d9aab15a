ghost use Rattle.std.specs.Prelude.{◌≡◌, ℕ, ◌<◌, ◌≤◌, List, Option, length, take};
ghost use Rattle.linx_outside.specs.Counts.{HasFaulted, NeverFalls};
ghost use Rattle.std.specs.Io.KnownBytes.{Consumes, IsAtEnd, Keeps};
ghost use Rattle.linx_outside.specs.Reading.{IfGot, IsGot, IfReadFailed};

/// What a read answers.
#[derive(Clone, Copy, Debug, PartialEq, Eq)]
pub enum ReadAnswer {
    /// So many bytes stand at the front of the buffer. None, for a buffer that isn't empty, means
    /// the end.
    Got(usize),
    /// A fault, which the source counted.
    Failed,
}

/// Bytes that are given in order, piece by piece.
pub trait Source {
    // The bytes not yet given, where the source tells them; it goes on telling them then.
    ghost left: { Self → Option (List ℕ) };

    // How many faults there were.
    ghost faults: { Self → ℕ };

    // The value at which that count stands still, if there is one.
    ghost last_count: { Option ℕ };

    // No read will fail.
    ghost is_faultless: { Self → Type 0 };

    /// Gives at most as many bytes as the buffer has, at its front. What stands behind them in the
    /// buffer may be anything.
    fn read(&mut self, buffer: &mut [u8]) -> ReadAnswer
        ensures within { IfGot result (λ n. n ≤ length buffer.new) }
        ensures given { IfGot result
            (λ n. Consumes (left self.old) (left self.new) (take n buffer.new)) }
        ensures end { IfGot result
            (λ n. n ≡ 0 → 0 < length buffer.new → IsAtEnd (left self.new)) }
        ensures got_counts_nothing { IfGot result (λ _. faults self.new ≡ faults self.old) }

        ensures failed_counts { IfReadFailed result
            (HasFaulted last_count (faults self.old) (faults self.new)) }
        ensures failed_gives_nothing { IfReadFailed result (Keeps (left self.old) (left self.new)) }

        ensures never_falls { NeverFalls last_count (faults self.old) (faults self.new) }
        ensures faultless { is_faultless self.old → IsGot result × is_faultless self.new };
}
