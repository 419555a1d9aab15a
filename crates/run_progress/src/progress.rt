//! Where the progress of many runs is told.

ghost use Rattle.std.specs.Prelude.{◌≡◌, false};

/// A place where the progress of many runs is told. It promises nothing, so that who makes the runs
/// can rest nothing on it.
pub trait Progress {
    /// So many of so many runs were made. Whether a line was written of it.
    fn made(&mut self, runs: u64, of: u64) -> bool;
}

/// Tells nothing.
#[derive(Drop)]
pub struct Untold;

impl Progress for Untold {
    fn made(&mut self, _runs: u64, _of: u64) -> bool
        ensures untold { result ≡ false }
        ensures unchanged { self.new ≡ self.old }
    {
        false
    }
}
