//! Keys and messages by their first byte and a step.

/// Fills with bytes of which the first is `start`, and each next one `step` more, modulo 256.
pub fn fill(bytes: &mut [u8], start: u8, step: u8) {
    let mut next = start;
    for byte in bytes {
        *byte = next;
        next = next.wrapping_add(step);
    }
}
