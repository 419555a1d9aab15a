//! What a frame carries.

use linx_base::Frame;

/// The bytes that a frame carries.
pub fn payload(frame: &Frame) -> &[u8] {
    match frame {
        Frame::First { payload, .. } | Frame::Next { payload, .. } => payload.bytes(),
    }
}
