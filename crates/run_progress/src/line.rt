//! The line of a progress.

ghost use Rattle.std.specs.Prelude.{◌≡◌, ◌+◌, ◌≤◌, ◌++◌, length};
ghost use Rattle.arrayvec.specs.ArrayVec.{array_vec_len};
ghost use Rattle.run_progress.specs.Lines.{progress_line};

use arrayvec::ArrayVec;
use itoa::Buffer;

/// Room for a line: two numbers of at most 40 digits each, and ten bytes between and around them.
pub(crate) type Line = ArrayVec<u8, 96>;

/// Bytes at the end of a line that has room for them.
fn push(line: &mut Line, bytes: &[u8])
    requires { array_vec_len line.old + length bytes.now ≤ 96 }
    ensures items { line.new.items ≡ line.old.items ++ bytes.now }
    ensures size { array_vec_len line.new ≡ array_vec_len line.old + length bytes.now }
{
    let _ = line.try_extend_from_slice(bytes);
}

/// So many of so many runs were made, in a line.
pub(crate) fn progress_line(runs: u64, of: u64) -> Line
    ensures { result.items ≡ progress_line runs of }
{
    let mut line = Line::new();
    let mut digits = Buffer::new();
    push(&mut line, b"runs ");
    push(&mut line, digits.format(runs).as_bytes());
    push(&mut line, b" of ");
    push(&mut line, digits.format(of).as_bytes());
    push(&mut line, b"\n");
    line
}
