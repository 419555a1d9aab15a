use std::sync::Wait;

/// What a worker passes before each of its turns.
pub trait Gate {
    /// Returns when the turn may be taken. `maker` is the number of the worker's actor or pump, and
    /// `turn` counts its turns from 1. It answers nothing, and may wait.
    fn pass<R: Wait>(&self, rt: &R, maker: u32, turn: u64);
}

/// The gate that is open: it returns at once.
#[derive(Clone, Copy, Debug, Default, PartialEq, Eq)]
pub struct OpenGate;

impl Gate for OpenGate {
    fn pass<R: Wait>(&self, _rt: &R, _maker: u32, _turn: u64) {}
}
