use linx_base::Signal;
use rlnh_messages::Rlnh;

/// What a message is read as.
#[derive(Drop)]
pub enum Heard {
    /// A message of RLNH.
    Control(Rlnh),
    /// A signal from an address of the other side to one of the own side.
    Signal { from: u32, to: u32, signal: Signal },
    /// Neither.
    Garbage,
}
