//! The words that ask for a load.
ghost use Rattle.std.specs.Prelude.{◌≡◌, ◌^◌, ◌<◌, ◌≤◌, ℕ, IfNone, IfSome};
ghost use Rattle.std.specs.Fmt.{decimal};
ghost use Rattle.ov_script.specs.declared.drawn.TheConstants.{MAX_WORKLOAD};
ghost use Rattle.ov_load.specs.LoadWords.{AreNoLoad, IsAsked, IsLoad};
ghost use Rattle.ov_load.specs.declared.load_words.Load.{Load};

use itoa::Buffer;
use ov_answering::mode_of_word;
use ov_base::Mode;
use ov_script::MAX_WORKLOAD;

/// What a load is asked for.
#[derive(Clone, Copy)]
pub struct Load {
    /// The mode of the store.
    pub mode: Mode,
    /// The number of the workload.
    pub number: u64,
    /// How many commands the workload has behind its enrolments: 1 to [`MAX_WORKLOAD`].
    pub count: u32,
}

// The number that is written in this way: in decimal and without leading zeros.
fn number_of(word: &str) -> Option<u64>
    ensures found { IfSome result (λ number. word.now ≡ decimal number) }
    ensures none { IfNone result ((number : ℕ)
        → number < 2 ^ 64 → word.now ≡ decimal number → ⊥) }
{
    match word.parse::<u64>() {
        Ok(number) => {
            // A sign or zeros in front are read too, and aren't printed again.
            let mut buffer = Buffer::new();
            let printed = buffer.format(number);
            if printed == word { Some(number) } else { None }
        }
        Err(_) => None,
    }
}

// The count that is written in this way: in decimal and without leading zeros.
fn count_of(word: &str) -> Option<u32>
    ensures found { IfSome result (λ count.
        (1 ≤ count) × (count ≤ MAX_WORKLOAD) × (word.now ≡ decimal count)) }
    ensures none { IfNone result ((count : ℕ)
        → 1 ≤ count → count ≤ MAX_WORKLOAD → word.now ≡ decimal count → ⊥) }
{
    let count = number_of(word)?;
    if count == 0 || count > u64::from(MAX_WORKLOAD) {
        return None;
    }
    Some(count as u32)
}

// The load that these three words behind `load` ask for.
fn asked(mode: &str, number: &str, count: &str) -> Option<Load>
    ensures found { IfSome result (λ load. IsAsked load mode.now number.now count.now) }
    ensures none { IfNone result ((load : Load)
        → IsAsked load mode.now number.now count.now → ⊥) }
{
    let mode = mode_of_word(mode)?;
    let number = number_of(number)?;
    let count = count_of(count)?;
    Some(Load {
        mode,
        number,
        count,
    })
}

/// The load that these words ask for.
pub fn load_of(words: &[String]) -> Option<Load>
    ensures found { IfSome result (λ load. IsLoad load words.now) }
    ensures none { IfNone result (AreNoLoad words.now) }
{
    match words {
        [load, mode, number, count] if load.as_str() == "load" => {
            asked(mode.as_str(), number.as_str(), count.as_str())
        }
        _ => None,
    }
}
