//! Words of the command line.
ghost use Rattle.std.specs.Prelude.{◌≡◌, IfNone, IfSome};
ghost use Rattle.ov_base.specs.declared.mode.Mode.{Mode};
ghost use Rattle.ov_base.specs.Modes.{mode_word};

use ov_base::Mode;

/// The mode of this word.
pub fn mode_of_word(word: &str) -> Option<Mode>
    ensures found { IfSome result (λ mode. word.now ≡ mode_word mode) }
    ensures none { IfNone result ((mode : Mode) → word.now ≡ mode_word mode → ⊥) }
{
    match word {
        "full" => Some(Mode::Full),
        "delta" => Some(Mode::Delta),
        _ => None,
    }
}
