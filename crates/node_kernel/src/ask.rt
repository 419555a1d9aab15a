use journal::Event;
use linx_base::Signal;

/// What a maker asks for, with the signal that it hands over.
#[derive(Drop)]
pub struct Ask {
    pub event: Event,
    pub hand: Option<Signal>,
}
