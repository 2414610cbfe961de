//! Laws of key files.
ghost use Rattle.std.specs.Prelude.{◌≡◌, ℕ, List};
ghost use Rattle.ov_keyfile.specs.KeyFile.{IsKeyFile};

/// A key file has one pair of masters. The function does nothing.
pub fn one_pair_of_masters()
    ensures { (file base surface other another : List ℕ)
        → IsKeyFile file base surface → IsKeyFile file other another
        → (base ≡ other) × (surface ≡ another) }
{}
