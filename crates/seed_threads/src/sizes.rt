//! How large waves grow.

ghost use Rattle.std.specs.Prelude.{◌≤◌};

/// The most seeds of a piece.
const PIECE_MOST: u32 = 4096;

/// The seeds of each piece of the next wave: twice as many as in this one, unless a line was told
/// behind it. So waves grow while they are quick, and a line can come about each second.
pub(crate) fn next_size(size: u32, is_told: bool) -> u32
    requires some { 1 ≤ size }
    requires few { size ≤ 4096 }
    ensures some { 1 ≤ result }
    ensures few { result ≤ 4096 }
{
    if is_told {
        size
    } else {
        PIECE_MOST.min(size * 2)
    }
}
