ghost use Rattle.std.specs.Prelude.{◌≡◌, ℕ, ◌-◌, ◌<◌, ◌≤◌, List, Option, length, take};
ghost use Rattle.linx_outside.specs.Counts.{HasFaulted, NeverFalls};
ghost use Rattle.std.specs.Io.KnownBytes.{Appends, Keeps};
ghost use Rattle.linx_outside.specs.Writing.{IfTook, IsTookAnd, IfWriteFailed};

/// What a write answers.
#[derive(Clone, Copy, Debug, PartialEq, Eq)]
pub enum WriteAnswer {
    /// So many bytes of the piece were taken, from its front; at least one of a piece that isn't
    /// empty.
    Took(usize),
    /// A fault, which the sink counted. Nothing was taken.
    Failed,
}

/// A place that takes bytes in order, piece by piece.
pub trait Sink {
    // The bytes that it holds, where the sink tells them; it goes on telling them then.
    ghost held: { Self → Option (List ℕ) };

    // How many faults there were.
    ghost faults: { Self → ℕ };

    // The value at which that count stands still, if there is one.
    ghost last_count: { Option ℕ };

    // It takes so many more bytes, in whatever pieces, with no fault.
    ghost can_take: { Self → ℕ → Type 0 };

    /// Takes some first bytes of the piece.
    fn write(&mut self, piece: &[u8]) -> WriteAnswer
        ensures within { IfTook result (λ n. n ≤ length piece.now) }
        ensures some { IfTook result (λ n. 0 < length piece.now → 0 < n) }
        ensures taken { IfTook result
            (λ n. Appends (held self.old) (held self.new) (take n piece.now)) }
        ensures took_counts_nothing { IfTook result (λ _. faults self.new ≡ faults self.old) }

        ensures failed_counts { IfWriteFailed result
            (HasFaulted last_count (faults self.old) (faults self.new)) }
        ensures failed_takes_nothing { IfWriteFailed result
            (Keeps (held self.old) (held self.new)) }

        ensures never_falls { NeverFalls last_count (faults self.old) (faults self.new) }
        ensures takes { (room : ℕ) → can_take self.old room → length piece.now ≤ room
            → IsTookAnd result (λ n. can_take self.new (room - n)) };
}
