//! The two modes of a store.
ghost use Rattle.std.specs.Prelude.{◌≡◌, ◌≤◌, ◌↔◌, IsSome, IfSome};
ghost use Rattle.ov_base.specs.Modes.{mode_byte};

/// When a file has a surface layer.
#[derive(Clone, Copy, Debug, PartialEq, Eq)]
pub enum Mode {
    /// Always, from its creation on.
    Full,
    /// Only where more users can derive the file's own key than its list has.
    Delta,
}

impl Mode {
    /// The byte of a mode: 0 or 1.
    pub fn byte(&self) -> u8
        ensures { result ≡ mode_byte self.now }
    {
        *self as u8
    }

    /// The mode of this byte.
    pub fn from_byte(byte: u8) -> Option<Mode>
        ensures range { IsSome result ↔ (byte ≤ 1) }
        ensures byte { IfSome result (λ mode. mode_byte mode ≡ byte) }
    {
        match byte {
            0 => Some(Mode::Full),
            1 => Some(Mode::Delta),
            _ => None,
        }
    }
}
