//! The refusals that a command can have.

ghost use Rattle.std.specs.Prelude.{◌≡◌};
ghost use Rattle.ov_base.specs.Refusals.{refusal_number};
ghost use Rattle.ov_fields.specs.Answers.{GivesField};
ghost use Rattle.ov_fields.specs.Reading.{one_of_at, tagged_by};
ghost use Rattle.ov_wire.specs.AnswersTo.{ask_refusals, create_refusals, enrol_refusals, grant_refusals, read_refusals, remove_refusals, replace_refusals, revoke_refusals, update_refusals};

use crate::Question;
use ov_base::Refusal;
use ov_fields::FieldFault;

/// The refusals of an enrolment.
fn enrol_refusals() -> &'static [Refusal]
    ensures { result.now ≡ enrol_refusals }
{
    &[
        Refusal::Taken,
        Refusal::UsersFull,
        Refusal::NodesFull,
        Refusal::Spent,
    ]
}

/// The refusals of a creation.
pub fn create_refusals() -> &'static [Refusal]
    ensures { result.now ≡ create_refusals }
{
    &[
        Refusal::Taken,
        Refusal::NoUser,
        Refusal::FilesFull,
        Refusal::BytesFull,
        Refusal::NodesFull,
        Refusal::Spent,
    ]
}

/// The refusals of a grant.
fn grant_refusals() -> &'static [Refusal]
    ensures { result.now ≡ grant_refusals }
{
    &[
        Refusal::NoUser,
        Refusal::NoFile,
        Refusal::Listed,
        Refusal::NodesFull,
        Refusal::Spent,
    ]
}

/// The refusals of a revocation.
fn revoke_refusals() -> &'static [Refusal]
    ensures { result.now ≡ revoke_refusals }
{
    &[
        Refusal::NoUser,
        Refusal::NoFile,
        Refusal::NotListed,
        Refusal::NodesFull,
        Refusal::Spent,
    ]
}

/// The refusals of a removal, which needs no node.
fn remove_refusals() -> &'static [Refusal]
    ensures { result.now ≡ remove_refusals }
{
    &[Refusal::NoFile, Refusal::Spent]
}

/// The refusals of a replacement, which may need a node in each layer.
pub fn replace_refusals() -> &'static [Refusal]
    ensures { result.now ≡ replace_refusals }
{
    &[
        Refusal::NoFile,
        Refusal::FilesFull,
        Refusal::BytesFull,
        Refusal::NodesFull,
        Refusal::Spent,
    ]
}

/// The refusals of a reading.
pub fn read_refusals() -> &'static [Refusal]
    ensures { result.now ≡ read_refusals }
{
    &[Refusal::NoUser, Refusal::NoFile, Refusal::NoPath]
}

/// The refusals of a command whose numbers are asked for.
pub fn ask_refusals(question: &Question) -> &'static [Refusal]
    ensures { result.now ≡ ask_refusals question.now }
{
    match question {
        Question::Enrol { .. } => enrol_refusals(),
        Question::Grant { .. } => grant_refusals(),
        Question::Revoke { .. } => revoke_refusals(),
        Question::Key { .. } => &[Refusal::NoUser],
        Question::Remove { .. } => remove_refusals(),
    }
}

/// The refusals of an update with this spelling: none where no update is of its kind.
pub fn update_refusals(spelling: &[u8]) -> &'static [Refusal]
    ensures { result.now ≡ update_refusals spelling.now }
{
    match spelling {
        [] => &[],
        [kind, ..] => match *kind {
            1 => enrol_refusals(),
            2 => create_refusals(),
            3 => grant_refusals(),
            4 => revoke_refusals(),
            6 => remove_refusals(),
            7 => replace_refusals(),
            _ => &[],
        },
    }
}

/// The first of these refusals that has this number.
fn with_number(refusals: &[Refusal], number: u8) -> Option<Refusal>
    ensures { result ≡ tagged_by refusal_number refusals.now number }
{
    for refusal in refusals {
        if refusal.number() == number {
            return Some(*refusal);
        }
    }
    None
}

/// One of these refusals, by its number.
#[tactic(auto, unfolding(ov_fields::specs::Reading::one_of_at))]
pub fn take_refusal<'a>(
    refusals: &[Refusal],
    bytes: &'a [u8],
) -> Result<(Refusal, &'a [u8]), FieldFault>
    ensures { GivesField (λ r. r) result (one_of_at refusal_number refusals.now bytes.now) }
{
    match bytes {
        [] => Err(FieldFault::Bad { left: 0 }),
        [number, rest @ ..] => match with_number(refusals, *number) {
            Some(refusal) => Ok((refusal, rest)),
            None => Err(FieldFault::Bad { left: bytes.len() }),
        },
    }
}
