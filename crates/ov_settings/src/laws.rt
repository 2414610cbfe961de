//! Laws of settings files.
ghost use Rattle.std.specs.Prelude.{◌≡◌, ℕ, List};
ghost use Rattle.ov_settings.specs.Settings.{IsSettingsFile};
ghost use Rattle.ov_settings.specs.declared.settings.Settings.{Settings};

/// A settings file has one reading. The function does nothing.
pub fn settings_are_one()
    ensures { (bytes : List ℕ) (one two : Settings)
        → IsSettingsFile bytes one → IsSettingsFile bytes two → one ≡ two }
{}
