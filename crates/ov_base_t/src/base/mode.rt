//! Bytes of modes.

use ov_base::Mode;

#[test]
fn bytes_of_modes(rt: HostRuntime) {
    assert_eq!(rt; (Mode::Full.byte(), Mode::Delta.byte()), (0, 1));
    assert_eq!(rt; Mode::from_byte(1), Some(Mode::Delta));
    assert!(rt; Mode::from_byte(2).is_none());
}
